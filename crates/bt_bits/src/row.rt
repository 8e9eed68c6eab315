ghost use Rattle.std.specs.Prelude.{◌≡◌, ◌≢◌, ◌↔◌, ◌+◌, ◌<◌, ◌≤◌, [], ◌++◌, false, length, take, drop, replicate, slice_get, slice_set, Some, None, IfOk, OnOk, OnErr, IsErrOf};
ghost use Rattle.std.specs.List.{list_any};
ghost use Rattle.bt_bits.specs.Digits.{digits_of, digit_row};
ghost use Rattle.bt_bits.specs.Hex.{hex_text, digit_count, field_bits};
ghost use Rattle.bt_bits.specs.Rows.{AreDigitsOf};
ghost use Rattle.bt_bits.specs.Stacks.{stacked};

use crate::Line;
use crate::digits::{
    copy_bits, digit_bit, digit_count, fill_field, has_one, make_zeros, push_text, read_field,
    with_bit,
};
use crate::stack::{RowStack, copy_digits};
use std::alloc::{AllocError, Global};
use std::marker::Model;
use thiserror::Error;

/// The reason why a text is not a hexadecimal field for the given number of bits.
#[derive(Clone, Copy, Debug, PartialEq, Eq, Error)]
pub enum HexFault {
    /// The text has more or fewer digits than the bits need.
    #[error("wrong length")]
    Length,
    /// A byte is not a hexadecimal digit, or a bit beyond the length of the row is 1.
    #[error("digit not allowed")]
    Digit,
}

/// The bits of a register. Bit 0 is shifted first. The room of a row is the largest number of bits
/// that it can have, and never changes. `with_room` allocates one byte for every four bits of the
/// room.
#[derive(Drop)]
pub struct Row {
    // The values of the bits' hexadecimal digits, one in each byte. Bit 0 is the lowest bit of the first digit.
    digits: Vec<u8>,
    len: u32,
    room: u32,
}

impl Model for Row {
    ghost use Rattle.std.specs.Prelude.{◌≤◌, ◌<◌, ◌^◌, vec_capacity};
    ghost use Rattle.bt_bits.specs.Digits.{digit_row};
    ghost use Rattle.bt_bits.specs.Hex.{digit_count};
    ghost use Rattle.bt_bits.specs.Rows.{AreDigitsOf, BitRow, row_code};

    ghost Value = { BitRow };

    ghost coded = { row_code };

    ghost view = { λ a. record { bits = digit_row a.len a.digits.items; room = a.room } };

    ghost invariant = { λ a. AreDigitsOf (digit_row a.len a.digits.items) a.len a.digits.items
        × (a.len ≤ a.room) × (digit_count a.room ≤ vec_capacity a.digits) × (a.room < 2 ^ 32) };
}

impl Row {
    /// Returns an empty row with room for `room` bits.
    pub fn with_room(alloc: Global, room: u32) -> Result<Row, AllocError>
        ensures bits { IfOk result (λ r. r.bits ≡ []) }
        ensures room { IfOk result (λ r. r.room ≡ room) }
    {
        Ok(Row {
            digits: Vec::with_capacity(alloc, digit_count(room as usize))?,
            len: 0,
            room,
        })
    }

    /// Replaces the row by `len` zeros. The row must have room for them.
    pub fn clear(&mut self, len: u32)
        requires { len ≤ self.old.room }
        ensures bits { self.new.bits ≡ replicate len false }
        ensures room { self.new.room ≡ self.old.room }
    {
        make_zeros(len as usize, &mut self.digits);
        self.len = len;
    }

    /// Replaces the bits of the row by `bits`. The row must have room for them.
    pub fn copy_from(&mut self, bits: &[bool])
        requires { length bits.now ≤ self.old.room }
        ensures bits { self.new.bits ≡ bits.now }
        ensures room { self.new.room ≡ self.old.room }
    {
        copy_bits(bits, &mut self.digits);
        self.len = bits.len() as u32;
    }

    /// Replaces the bits of the row by the bits of another row. The row must have room for them.
    pub fn copy_row(&mut self, row: &Row)
        requires { length row.now.bits ≤ self.old.room }
        ensures bits { self.new.bits ≡ row.now.bits }
        ensures room { self.new.room ≡ self.old.room }
    {
        self.digits.clear();
        self.digits.extend_from_slice(&row.digits).unwrap();
        self.len = row.len;
    }

    /// Replaces the bits of the row by the bits of row `number` of a stack. `number` must be less
    /// than 16, and the row must have room for the bits.
    pub fn copy_stacked(&mut self, rows: &RowStack, number: u32)
        requires number { number < 16 }
        requires room { length (stacked rows.now number) ≤ self.old.room }
        ensures bits { self.new.bits ≡ stacked rows.now number }
        ensures room { self.new.room ≡ self.old.room }
    {
        copy_digits(rows.words(), number, &mut self.digits);
        self.len = rows.len();
    }

    /// Returns the values of the row's hexadecimal digits. The first digit has the first four bits.
    #[inline]
    pub fn digits(&self) -> &[u8]
        ensures { result.now ≡ digits_of self.now.bits }
    {
        &self.digits
    }

    /// Returns the number of bits of the row, which is at most the row's room.
    #[inline]
    pub fn len(&self) -> u32
        ensures value { result ≡ length self.now.bits }
        ensures within { result ≤ self.now.room }
    {
        self.len
    }

    /// Returns the number of hexadecimal digits in the row's field.
    #[inline]
    pub fn digit_count(&self) -> u32
        ensures { result ≡ digit_count (length self.now.bits) }
    {
        digit_count(self.len as usize) as u32
    }

    /// Returns bit `i`, which must be a bit of the row.
    #[inline]
    pub fn get(&self, i: u32) -> bool
        requires { i < length self.now.bits }
        ensures { slice_get self.now.bits i ≡ Some result }
    {
        digit_bit(self.digits[(i / 4) as usize], i % 4)
    }

    /// Returns whether some bit is 1.
    pub fn has_one(&self) -> bool
        ensures { result ≡ list_any (λ bit. bit) self.now.bits }
    {
        has_one(&self.digits)
    }

    /// Sets bit `i`, which must be a bit of the row, to `bit`.
    #[inline]
    pub fn set(&mut self, i: u32, bit: bool)
        requires { i < length self.old.bits }
        ensures bits { self.new.bits ≡ slice_set self.old.bits i bit }
        ensures room { self.new.room ≡ self.old.room }
    {
        let place = (i / 4) as usize;
        self.digits[place] = with_bit(self.digits[place], i % 4, bit);
    }

    /// Appends part of the row's hexadecimal field to the line, in upper case: `count` digits, from
    /// digit `from` on. Digits are counted from the left, from 0. The rightmost digit of the field
    /// has the first four bits. The field must have these digits, and the line must have room for
    /// them.
    pub fn put_hex(&self, from: u32, count: u32, line: &mut Line)
        requires digits { from + count ≤ digit_count (length self.now.bits) }
        requires room { length line.old + count ≤ 1024 }
        ensures { line.new ≡ line.old ++ take count (drop from (hex_text self.now.bits)) }
    {
        push_text(&self.digits, from as usize, count as usize, line);
    }

    /// Reads `len` bits from a field of hexadecimal digits in either case. The row must have room
    /// for `len` bits. Returns `Length` if the field does not have exactly one digit for every four
    /// bits, rounded up. Returns `Digit` if a field of this length has a byte that is not a digit,
    /// or a bit from `len` on that is 1. In both cases, the row then has `len` zeros.
    pub fn read_hex(&mut self, text: &[u8], len: u32) -> Result<(), HexFault>
        requires { len ≤ self.old.room }
        ensures ok { OnOk result (field_bits len text.now ≡ Some self.new.bits) }
        ensures length { IsErrOf result HexFault.Length ↔ (length text.now ≢ digit_count len) }
        ensures digit { IsErrOf result HexFault.Digit
            ↔ ((length text.now ≡ digit_count len) × (field_bits len text.now ≡ None)) }
        ensures refused { OnErr result (self.new.bits ≡ replicate len false) }
        ensures len { length self.new.bits ≡ len }
        ensures room { self.new.room ≡ self.old.room }
    {
        if text.len() != digit_count(len as usize) {
            self.clear(len);
            return Err(HexFault::Length);
        }
        let is_read = read_field(text, len as usize, &mut self.digits);
        self.len = len;
        if !is_read {
            return Err(HexFault::Digit);
        }
        Ok(())
    }
}

/// Like `Row::read_hex`, but fills `digits` with the digits of the field. There must be as many
/// digits as `len` bits need. The first digit has the first four bits. On an error, the digits are
/// unspecified.
pub fn read_digits(text: &[u8], len: u32, digits: &mut [u8]) -> Result<(), HexFault>
    requires { length digits.old ≡ digit_count len }
    ensures ok { OnOk result (field_bits len text.now ≡ Some (digit_row len digits.new)) }
    ensures kept { OnOk result (AreDigitsOf (digit_row len digits.new) len digits.new) }
    ensures length { IsErrOf result HexFault.Length ↔ (length text.now ≢ digit_count len) }
    ensures digit { IsErrOf result HexFault.Digit
        ↔ ((length text.now ≡ digit_count len) × (field_bits len text.now ≡ None)) }
{
    if text.len() != digits.len() {
        return Err(HexFault::Length);
    }
    if !fill_field(text, len as usize, digits) {
        return Err(HexFault::Digit);
    }
    Ok(())
}
