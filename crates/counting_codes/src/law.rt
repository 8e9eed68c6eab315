//! A law: each code of the right width has a 0 bit and a 1 bit, and different codes differ in some
//! bit of this width. The law is the contract of a function that does nothing. A caller knows the
//! law after calling the function.
ghost use Rattle.std.specs.Prelude.{◌≡◌, ◌≢◌, ℕ, ◌+◌, ◌^◌, ◌<◌, ◌≤◌};
ghost use Rattle.std.specs.Int.{bit_at};

/// If `2 ^ width` is at least `n + 2`, each code from 1 to `n` has a 0 bit and a 1 bit below bit
/// `width`, and any two different codes from 1 to `n` differ in some bit below bit
/// `width`.
pub fn codes_tell()
    ensures zero { (n width : ℕ) → n + 2 ≤ 2 ^ width → (c : ℕ) → 1 ≤ c → c ≤ n
        → (j : ℕ) × (j < width) × (bit_at c j ≡ 0) }
    ensures one { (n width : ℕ) → n + 2 ≤ 2 ^ width → (c : ℕ) → 1 ≤ c → c ≤ n
        → (j : ℕ) × (j < width) × (bit_at c j ≡ 1) }
    ensures differ { (n width : ℕ) → n + 2 ≤ 2 ^ width → (c d : ℕ) → 1 ≤ c → c ≤ n → 1 ≤ d → d ≤ n
        → c ≢ d → (j : ℕ) × (j < width) × (bit_at c j ≢ bit_at d j) }
{}
