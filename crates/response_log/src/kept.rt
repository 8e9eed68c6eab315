// A log in memory.
ghost use Rattle.std.specs.Prelude.{◌≡◌, ◌+◌, ◌*◌, ◌<◌, ◌≤◌, [], length, take, drop, slice_index_or, All, Some};
ghost use Rattle.bt_bits.specs.Hex.{digit_count};
ghost use Rattle.response_log.specs.Kept.{AreRowDigits, AreWhole, kept_rows};
ghost use Rattle.response_log.specs.LogRows.{HasSize, log_bit};

use bt_bits::{digit_bit, digit_count};
use std::marker::Model;

// Returns `count` digits, from digit `first` on. There must be that many digits.
#[inline]
fn digits_from(digits: &[u8], first: usize, count: usize) -> &[u8]
    requires { first + count ≤ length digits.now }
    ensures { result.now ≡ take count (drop first digits.now) }
{
    &digits[first..first + count]
}

/// A response log. Its value in contracts is the list of its rows. Each row is the list of its bits, and its first bit
/// is the bit that left the chain first.
#[derive(Drop)]
pub struct Log {
    // The values of the digits of each row, with the lowest digit first, row after row.
    digits: Vec<u8>,
    rows: u64,
    len: u32,
}

impl Model for Log {
    ghost use Rattle.std.specs.Prelude.{◌≡◌, ◌*◌, List, Bool, length};
    ghost use Rattle.bt_bits.specs.Hex.{digit_count};
    ghost use Rattle.response_log.specs.Kept.{AreWhole, kept_rows};

    ghost Value = { List (List Bool) };

    ghost view = { λ a. kept_rows a.len a.rows a.digits.items };

    ghost invariant = { λ a. (length a.digits.items ≡ a.rows * digit_count a.len)
        × AreWhole a.len a.rows a.digits.items };
}

impl Log {
    // Returns the log of `rows` rows of `len` bits each. `digits` must have exactly the digits of these rows. If `len`
    // is not a multiple of 4, the last digit of each row has unused high bits, and these must be 0.
    pub(crate) fn of(digits: Vec<u8>, rows: u64, len: u32) -> Log
        requires count { length digits.items ≡ rows * digit_count len }
        requires whole { AreWhole len rows digits.items }
        ensures rows { result ≡ kept_rows len rows digits.items }
        ensures size { HasSize rows len result }
    {
        Log { digits, rows, len }
    }

    /// Returns the number of rows of the log.
    #[inline]
    pub fn rows(&self) -> u64
        ensures { result ≡ length self.now }
    {
        self.rows
    }

    /// Returns the number of bits of each row.
    #[inline]
    pub fn len(&self) -> u32
        ensures { All (λ bits. length bits ≡ result) self.now }
    {
        self.len
    }

    /// Returns bit `at` of a row. Bit 0 left the chain first. The row must be one of the log's rows, and `at` must be
    /// below the number of its bits.
    #[inline]
    pub fn bit(&self, row: u64, at: u32) -> bool
        requires row { row < length self.now }
        requires bit { at < length (slice_index_or self.now row []) }
        ensures { log_bit self.now row at ≡ Some result }
    {
        let first = row as usize * digit_count(self.len as usize);
        digit_bit(self.digits[first + (at / 4) as usize], at % 4)
    }
    /// Returns the values of the digits of a row, which must be one of the log's rows. Each digit has four bits. The lowest bit of the
    /// first digit left the chain first.
    #[inline]
    pub fn digits(&self, row: u64) -> &[u8]
        requires { row < length self.now }
        ensures { AreRowDigits (slice_index_or self.now row []) result.now }
    {
        let count = digit_count(self.len as usize);
        let first = row as usize * count;
        digits_from(&self.digits, first, count)
    }
}
