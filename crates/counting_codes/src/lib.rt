//! Counting codes. The codes of `n` nets are the numbers from 1 to `n`. They have just enough bits
//! that no code has only zeros or only ones.
#![tactic(auto)]

ghost use Rattle.std.specs.Prelude.{◌≡◌, ◌==◌, ℕ, ◌+◌, ◌^◌, ◌<◌, ◌≤◌};
ghost use Rattle.std.specs.Int.{bit_at};

pub mod law;

/// Returns the number of bits of the codes from 1 to `n`: the smallest `w` with `n + 2 <= 2^w`. So
/// none of these codes has only zeros or only ones. `n` must be at most 16,382.
pub fn width(n: u32) -> u32
    requires { n ≤ 16382 }
    ensures enough { n + 2 ≤ 2 ^ result }
    ensures least { (less : ℕ) → less < result → 2 ^ less < n + 2 }
{
    let mut width = 1;
    let mut words = 2u32;
    while words < n + 2 {
        words *= 2;
        width += 1;
    }
    width
}

/// Returns bit `j` of a code. Bit 0 is the least significant, and `j` must be less than 32.
pub fn bit(code: u32, j: u32) -> bool
    requires { j < 32 }
    ensures { result ≡ (bit_at code j == 1) }
{
    (code >> j) & 1 == 1
}
