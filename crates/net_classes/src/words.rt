// Words of 64 bits that say which numbers satisfy a predicate: bit `n % 64` is for number `n`.
ghost use Rattle.std.specs.Prelude.{◌≡◌, ◌≢◌, ◌<◌, ◌==◌, ◌%◌, ℕ, if◌then◌else◌};
ghost use Rattle.std.specs.Int.{bit_at};

/// Returns `word` with bit `number % 64` set if `on` is true, and cleared if not.
pub fn put_bit(word: u64, number: u32, on: bool) -> u64
    ensures here { bit_at result (number % 64) ≡ (if on then 1 else 0) }
    ensures others { (i : ℕ) → i < 64 → i ≢ number % 64 → bit_at result i ≡ bit_at word i }
{
    let bit = 1 << (number % 64);
    if on { word | bit } else { word & !bit }
}

/// Returns whether bit `number % 64` of the word is set.
pub fn has_bit(word: u64, number: u32) -> bool
    ensures { result ≡ (bit_at word (number % 64) == 1) }
{
    word >> (number % 64) & 1 == 1
}
