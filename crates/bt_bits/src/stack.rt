// Sixteen rows of equal length, stored side by side, so that one memory write sets bit `i` of all rows.
ghost use Rattle.std.specs.Prelude.{◌≡◌, ◌<◌, ◌≤◌, ◌*◌, ℕ, [], All, length, map, vec_capacity, IfOk, slice_set};
ghost use Rattle.bt_bits.specs.Digits.{digit_bit};
ghost use Rattle.bt_bits.specs.Stacks.{AreStacked, column_bit, digit_in, stacked};
ghost use Rattle.bt_bits.specs.inner.Digits.{with_bit};

use crate::Row;
use crate::digits::digit_count;
use std::alloc::{AllocError, Global};
use std::marker::Model;

// A word of 16 hexadecimal digits, in which only the lowest bit of each digit is set.
const LOWEST: u64 = 0x1111_1111_1111_1111;

// Entry `d` spreads the four bits of `d` over four hexadecimal digits: bit `i` of `d` is the lowest
// bit of digit `i`.
const SPREAD: [u64; 16] = [
    0x0000, 0x0001, 0x0010, 0x0011, 0x0100, 0x0101, 0x0110, 0x0111, 0x1000, 0x1001, 0x1010, 0x1011,
    0x1100, 0x1101, 0x1110, 0x1111,
];

/// The bits of 16 rows at one position.
#[derive(Clone, Copy, Debug)]
pub struct Column {
    word: u64,
}

impl Column {
    /// Returns the column whose bit for row `j` is bit `j` of the number. Bit 0 is the lowest.
    #[inline]
    pub fn of(number: u32) -> Column
        ensures { (j : ℕ) → j < 16 → column_bit result j ≡ digit_bit number j }
    {
        let first = SPREAD[(number & 15) as usize];
        let second = SPREAD[((number >> 4) & 15) as usize];
        let third = SPREAD[((number >> 8) & 15) as usize];
        let fourth = SPREAD[((number >> 12) & 15) as usize];
        let low = first | (second << 16);
        let high = third | (fourth << 16);
        Column {
            word: low | (high << 32),
        }
    }

    /// Returns the column in which every row has this bit.
    #[inline]
    pub fn of_bit(bit: bool) -> Column
        ensures { (j : ℕ) → j < 16 → column_bit result j ≡ bit }
    {
        Column {
            word: if bit { LOWEST } else { 0 },
        }
    }
}

// Fills `digits` with the digits of row `number`, which must be less than 16. There must be as many
// digits as words. The function takes slices because the compiler vectorizes such a loop over
// slices, but not over vectors.
fn fill_digits(words: &[u64], number: u32, digits: &mut [u8])
    requires number { number < 16 }
    requires places { length digits.old ≡ length words.now }
    ensures { digits.new ≡ map (digit_in number) words.now }
{
    let shift = 4 * number;
    for k in 0..digits.len() {
        digits[k] = ((words[k] >> shift) & 15) as u8;
    }
}

// Replaces the content of the vector by the digits of row `number`, which must be less than 16. The
// vector must have room for the digits.
pub fn copy_digits(words: &[u64], number: u32, digits: &mut Vec<u8>)
    requires number { number < 16 }
    requires room { length words.now ≤ vec_capacity digits.old }
    ensures value { digits.new.items ≡ map (digit_in number) words.now }
    ensures capacity { vec_capacity digits.old ≤ vec_capacity digits.new }
{
    digits.resize(words.len(), 0).unwrap();
    fill_digits(words, number, digits);
}

// Replaces the content of the vector by words in which each row has these digits. Each digit must
// be less than 16, and the vector must have room for the words.
fn spread_digits(digits: &[u8], words: &mut Vec<u64>)
    requires below { All (λ x. x < 16) digits.now }
    requires room { length digits.now ≤ vec_capacity words.old }
    ensures value { words.new.items ≡ map (λ x. x * 1229782938247303441) digits.now }
    ensures capacity { vec_capacity words.old ≤ vec_capacity words.new }
{
    words.resize(digits.len(), 0).unwrap();
    for k in 0..digits.len() {
        words[k] = u64::from(digits[k]) * LOWEST;
    }
}

// Returns the word with bit `k` of each digit replaced by the column's bit for the digit's row. `k`
// must be less than 4.
#[inline]
fn with_column(word: u64, k: u32, column: Column) -> u64
    requires { k < 4 }
    ensures { (j : ℕ) → j < 16
        → digit_in j result ≡ with_bit (digit_in j word) k (column_bit column j) }
{
    let mask = LOWEST << k;
    (word & !mask) | ((column.word << k) & mask)
}

/// A stack of 16 rows of equal length, numbered from 0. The room of a stack is the largest number of bits that each row
/// can have, and never changes. `with_room` allocates eight bytes for every four bits of the room.
#[derive(Drop)]
pub struct RowStack {
    // Word `k` has digit `k` of each row, and the digit of row 0 is the lowest.
    words: Vec<u64>,
    len: u32,
    room: u32,
}

impl Model for RowStack {
    ghost use Rattle.std.specs.Prelude.{◌≤◌, ◌<◌, ◌^◌, vec_capacity};
    ghost use Rattle.bt_bits.specs.Hex.{digit_count};
    ghost use Rattle.bt_bits.specs.Stacks.{AreStacked, Stack, stack_code};

    ghost Value = { Stack };

    ghost coded = { stack_code };

    ghost view = { λ a. record { words = a.words.items; len = a.len; room = a.room } };

    ghost invariant = { λ a. AreStacked a.len a.words.items × (a.len ≤ a.room)
        × (digit_count a.room ≤ vec_capacity a.words) × (a.room < 2 ^ 32) };
}

impl RowStack {
    /// Returns a stack of empty rows, each with room for `room` bits.
    pub fn with_room(alloc: Global, room: u32) -> Result<RowStack, AllocError>
        ensures rows { IfOk result (λ stack. (j : ℕ) → j < 16 → stacked stack j ≡ []) }
        ensures room { IfOk result (λ stack. stack.room ≡ room) }
    {
        Ok(RowStack {
            words: Vec::with_capacity(alloc, digit_count(room as usize))?,
            len: 0,
            room,
        })
    }

    /// Returns the number of bits of each row.
    #[inline]
    pub fn len(&self) -> u32
        ensures value { result ≡ self.now.len }
        ensures each { (j : ℕ) → j < 16 → length (stacked self.now j) ≡ result }
    {
        self.len
    }

    // Returns the words. Word `k` has digit `k` of each row.
    pub(crate) fn words(&self) -> &[u64]
        ensures words { result.now ≡ self.now.words }
        ensures stacked { AreStacked self.now.len self.now.words }
    {
        &self.words
    }

    /// Replaces each row by `row`. The stack must have room for rows of this length.
    pub fn fill_with(&mut self, row: &Row)
        requires { length row.now.bits ≤ self.old.room }
        ensures rows { (j : ℕ) → j < 16 → stacked self.new j ≡ row.now.bits }
        ensures room { self.new.room ≡ self.old.room }
    {
        spread_digits(row.digits(), &mut self.words);
        self.len = row.len();
    }

    /// Replaces the rows by the rows of another stack. The stack must have room for rows of their
    /// length.
    pub fn copy_from(&mut self, rows: &RowStack)
        requires { length (stacked rows.now 0) ≤ self.old.room }
        ensures rows { (j : ℕ) → j < 16 → stacked self.new j ≡ stacked rows.now j }
        ensures room { self.new.room ≡ self.old.room }
    {
        self.words.clear();
        self.words.extend_from_slice(&rows.words).unwrap();
        self.len = rows.len;
    }

    /// Sets bit `i` of every row to that row's bit in the column. Does nothing if the rows have no bit `i`.
    #[inline]
    pub fn set(&mut self, i: u32, column: Column)
        ensures rows { (j : ℕ) → j < 16
            → stacked self.new j ≡ slice_set (stacked self.old j) i (column_bit column j) }
        ensures room { self.new.room ≡ self.old.room }
    {
        if i < self.len {
            let place = (i / 4) as usize;
            self.words[place] = with_column(self.words[place], i % 4, column);
        }
    }
}
