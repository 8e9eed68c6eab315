// Rows as the values of their hexadecimal digits. A comparison of rows takes many digits at a time.
ghost use Rattle.std.specs.Prelude.{◌≡◌, ℕ, ◌+◌, ◌*◌, ◌/◌, ◌≤◌, ◌<◌, ◌^◌, false, length, slice_index_or, ◌↔◌, IsTrue};
ghost use Rattle.std.specs.Bool.{OnTrue};
ghost use Rattle.walk_test.specs.inner.Digits.{is_one, differing, AreClear};

use bt_bits::digit_bit;

// The number of digits in a block. A search tests whole blocks first, since most digits of a row are 0.
const BLOCK: usize = 64;

/// A row as the values of its hexadecimal digits, four bits each. `mask` has the same number of digits, with a 1 for
/// each compared bit of the row.
#[derive(Clone, Copy)]
pub struct MaskedRow<'a> {
    pub digits: &'a [u8],
    pub mask: &'a [u8],
    ghost long: { length mask.now ≡ length digits.now },
}

// Returns the digit at a place, or 0 past the end.
#[inline]
fn digit_at(digits: &[u8], place: usize) -> u8
    ensures { result ≡ slice_index_or digits.now place 0 }
{
    match digits.get(place) {
        None => 0,
        Some(digit) => *digit,
    }
}

impl MaskedRow<'_> {
    /// Returns whether a position is compared and reads 1. The result is false past the end.
    #[inline]
    pub fn is_one(&self, at: usize) -> bool
        ensures { result ≡ is_one self.now.digits.now self.now.mask.now at }
    {
        let bit = (at % 4) as u32;
        digit_bit(digit_at(self.mask, at / 4), bit) && digit_bit(digit_at(self.digits, at / 4), bit)
    }

    // Returns whether the digits `from..to` have no compared 1. `to` must be at most the number of digits.
    #[inline]
    fn are_clear(&self, from: usize, to: usize) -> bool
        requires { to ≤ length self.now.digits.now }
        ensures { OnTrue result (AreClear self.now.digits.now self.now.mask.now from to) }
    {
        let mut ones = 0u8;
        for k in from..to {
            ones |= self.digits[k] & self.mask[k];
        }
        ones == 0
    }

    // Skips blocks of `block` digits that have no compared 1, from `from` on. Returns the place where the skipped
    // blocks end. `from` must be at most the number of digits, and `block` must be above 0.
    #[inline]
    fn blocks_end(&self, from: usize, block: usize) -> usize
        requires from { from ≤ length self.now.digits.now }
        requires some { 0 < block }
        ensures past { from ≤ result }
        ensures within { result ≤ length self.now.digits.now }
        ensures clear { AreClear self.now.digits.now self.now.mask.now from result }
    {
        let mut k = from;
        while self.digits.len() - k >= block && self.are_clear(k, k + block) {
            k += block;
        }
        k
    }

    // Skips digits that have no compared 1, from `from` on: first block by block, and then digit by digit. Returns the
    // place where the skipped digits end. `from` must be at most the number of digits.
    fn next_marked(&self, from: usize) -> usize
        requires { from ≤ length self.now.digits.now }
        ensures past { from ≤ result }
        ensures within { result ≤ length self.now.digits.now }
        ensures clear { AreClear self.now.digits.now self.now.mask.now from result }
    {
        self.blocks_end(self.blocks_end(from, BLOCK), 1)
    }

    /// Returns a position after `at`. No position between the two is compared and reads 1. `at` must be a position of
    /// the row, which must have fewer than 2^60 digits.
    #[inline]
    pub fn position_after(&self, at: usize) -> usize
        requires few { length self.now.digits.now < 2 ^ 60 }
        requires at { at / 4 < length self.now.digits.now }
        ensures past { at < result }
        ensures none { (p : ℕ) → at < p → p < result
            → is_one self.now.digits.now self.now.mask.now p ≡ false }
    {
        if at % 4 < 3 {
            at + 1
        } else {
            4 * self.next_marked(at / 4 + 1)
        }
    }

    /// Returns whether another row reads the same at every compared position. Both rows must have the same number of
    /// digits. The loop goes through all digits without a branch, so the processor can compare many digits at a time.
    pub fn is_alike(&self, other: &[u8]) -> bool
        requires { length other.now ≡ length self.now.digits.now }
        ensures { IsTrue result
            ↔ ((k : ℕ) → k < length self.now.mask.now
            → differing self.now.digits.now other.now self.now.mask.now k ≡ 0) }
    {
        let mut different = 0u8;
        for k in 0..self.mask.len() {
            different |= (self.digits[k] ^ other[k]) & self.mask[k];
        }
        different == 0
    }
}
