// Digits of four bits each, and their hexadecimal text.
ghost use Rattle.std.specs.Prelude.{◌≡◌, ◌+◌, ◌-◌, ◌*◌, ◌/◌, ◌<◌, ◌≤◌, ◌^◌, ◌%◌, ◌==◌, Bool, List, ℕ, [], ◌∷◌, ◌++◌, length, take, drop, replicate, false, not, Some, None, MatchOption, MatchBool, vec_capacity, All};
ghost use Rattle.std.specs.Bool.{OnTrue, OnFalse};
ghost use Rattle.std.specs.List.{list_all, list_any};
ghost use Rattle.bt_bits.specs.Hex.{digit_count, digit_bits, text_bits, field_bits};
ghost use Rattle.bt_bits.specs.Digits.{bits_of, digit_bit, digit_value, digits_of, digit_row};
ghost use Rattle.bt_bits.specs.inner.Digits.{AreDigitsFrom, IsValueOf, digit_char, digits_text, with_bit};
ghost use Rattle.bt_bits.specs.Rows.{AreDigitsOf};

use crate::Line;

// A value that no digit has. It marks a byte that is not a digit.
const NO_VALUE: u8 = 16;

/// Returns the number of hexadecimal digits that `bits` bits need. There must be fewer than
/// `2 ^ 63` bits.
#[inline]
pub fn digit_count(bits: usize) -> usize
    requires { bits < 2 ^ 63 }
    ensures { result ≡ digit_count bits }
{
    (bits + 3) / 4
}

/// Returns bit `k` of a digit. Bit 0 is the lowest, and `k` must be less than 8.
#[inline]
pub fn digit_bit(digit: u8, k: u32) -> bool
    requires { k < 8 }
    ensures { result ≡ digit_bit digit k }
{
    (digit >> k) & 1 == 1
}

// Returns whether some bit of the digits is 1.
pub fn has_one(digits: &[u8]) -> bool
    ensures { result ≡ list_any (λ x. not (x == 0)) digits.now }
{
    digits.iter().any(|digit| *digit != 0)
}

// Returns the digit with its bit `k` replaced by `bit`. `k` must be less than 4.
#[inline]
pub fn with_bit(digit: u8, k: u32, bit: bool) -> u8
    requires { k < 4 }
    ensures { result ≡ with_bit digit k bit }
{
    digit - (digit & (1 << k)) + (u8::from(bit) << k)
}

// Returns the digit that has these four bits, the lowest first.
#[inline]
fn value(a: bool, b: bool, c: bool, d: bool) -> u8
    ensures { result ≡ digit_value a b c d }
{
    let low = u8::from(a) + 2 * u8::from(b);
    let high = u8::from(c) + 2 * u8::from(d);
    low + 4 * high
}

// Returns the digit of one to three bits. They are the bits of the last digit of a row whose length
// is not a multiple of 4.
fn top_value(bits: &[bool]) -> u8
    requires some { 0 < length bits.now }
    requires few { length bits.now < 4 }
    ensures { result ∷ [] ≡ digits_of bits.now }
{
    match bits {
        [a] => value(*a, false, false, false),
        [a, b] => value(*a, *b, false, false),
        [a, b, c] => value(*a, *b, *c, false),
        _ => unreachable!(),
    }
}

// Fills `digits` with the digits of the bits. There must be as many digits as the bits need.
#[inline]
fn fill_values(bits: &[bool], digits: &mut [u8])
    requires { length digits.old ≡ digit_count (length bits.now) }
    ensures { digits.new ≡ digits_of bits.now }
{
    let whole = bits.len() / 4;
    for k in 0..whole {
        let i = 4 * k;
        digits[k] = value(bits[i], bits[i + 1], bits[i + 2], bits[i + 3]);
    }
    if whole < digits.len() {
        digits[whole] = top_value(&bits[4 * whole..]);
    }
}

// Replaces the content of the vector by the digits of `len` zero bits. The vector must have room
// for them, and `len` must be less than `2 ^ 63`.
pub fn make_zeros(len: usize, digits: &mut Vec<u8>)
    requires few { len < 2 ^ 63 }
    requires room { digit_count len ≤ vec_capacity digits.old }
    ensures value { digits.new.items ≡ digits_of (replicate len false) }
    ensures capacity { vec_capacity digits.old ≤ vec_capacity digits.new }
{
    digits.clear();
    digits.resize(digit_count(len), 0).unwrap();
}

// Replaces the content of the vector by the digits of the bits. The vector must have room for them,
// and there must be fewer than `2 ^ 63` bits.
pub fn copy_bits(bits: &[bool], digits: &mut Vec<u8>)
    requires few { length bits.now < 2 ^ 63 }
    requires room { digit_count (length bits.now) ≤ vec_capacity digits.old }
    ensures value { digits.new.items ≡ digits_of bits.now }
    ensures capacity { vec_capacity digits.old ≤ vec_capacity digits.new }
{
    make_zeros(bits.len(), digits);
    fill_values(bits, digits);
}

// Returns the hexadecimal character of a digit, in upper case. The digit must be less than 16.
#[inline]
fn digit_char(value: u8) -> u8
    requires { value < 16 }
    ensures { result ≡ digit_char value }
{
    if value < 10 {
        b'0' + value
    } else {
        b'A' - 10 + value
    }
}

// Fills `text` with the characters of the digits. The first digit is the rightmost character. Each
// digit must be less than 16, and there must be as many characters as digits.
#[inline]
pub fn fill_text(digits: &[u8], text: &mut [u8])
    requires below { All (λ x. x < 16) digits.now }
    requires places { length text.old ≡ length digits.now }
    ensures { text.new ≡ digits_text digits.now }
{
    let count = text.len();
    for k in 0..count {
        text[count - 1 - k] = digit_char(digits[k]);
    }
}

// Appends `count` characters of the digits' text to the line, from character `from` of the text on.
// The text must have these characters, the line must have room for them, and each digit must be
// less than 16.
pub fn push_text(digits: &[u8], from: usize, count: usize, line: &mut Line)
    requires below { All (λ x. x < 16) digits.now }
    requires digits { from + count ≤ length digits.now }
    requires room { length line.old + count ≤ 1024 }
    ensures { line.new ≡ line.old ++ take count (drop from (digits_text digits.now)) }
{
    let low = digits.len() - from - count;
    line.push_digits(&digits[low..low + count]);
}

// Returns the value of a hexadecimal digit in either case, or 16 for any other byte. The function
// matches on ranges because the compiler vectorizes such a match. It would not vectorize a look-up
// in a table.
#[inline]
fn value_of(c: u8) -> u8
    ensures { IsValueOf c result }
{
    match c {
        b'0'..=b'9' => c - b'0',
        b'A'..=b'F' => c - (b'A' - 10),
        b'a'..=b'f' => c - (b'a' - 10),
        _ => NO_VALUE,
    }
}

// Fills `digits` with the values of the bytes, the rightmost byte first. Returns whether all bytes
// are digits. There must be as many digits as bytes. The loop does not stop at a byte that is not a
// digit, so that it has only one exit.
fn fill_digits(text: &[u8], digits: &mut [u8]) -> bool
    requires { length digits.old ≡ length text.now }
    ensures { AreDigitsFrom text.now 0 digits.new result }
{
    let count = digits.len();
    let mut most = 0;
    for k in 0..count {
        let value = value_of(text[count - 1 - k]);
        digits[k] = value;
        most = value.max(most);
    }
    most < NO_VALUE
}

// Returns whether the bits of a digit from bit `count` on are all 0. `count` must be 1, 2 or 3.
fn is_digit_cut(digit: u8, count: usize) -> bool
    requires some { 0 < count }
    requires few { count < 4 }
    ensures { result ≡ list_all not (drop count (bits_of (digit ∷ []))) }
{
    match count {
        1 => !digit_bit(digit, 1) && !digit_bit(digit, 2) && !digit_bit(digit, 3),
        2 => !digit_bit(digit, 2) && !digit_bit(digit, 3),
        3 => !digit_bit(digit, 3),
        _ => unreachable!(),
    }
}

// Returns whether the bits of the digits from bit `len` on are all 0. There must be as many digits
// as `len` bits need.
fn is_cut(digits: &[u8], len: usize) -> bool
    requires { length digits.now ≡ digit_count len }
    ensures { result ≡ list_all not (drop len (bits_of digits.now)) }
{
    let count = len % 4;
    count == 0 || is_digit_cut(digits[len / 4], count)
}

// Reads the text as a hexadecimal field of `len` bits, and fills `digits` with the values of its
// digits, the rightmost digit first. Returns whether the text is such a field: each byte is a
// digit, and the bits from `len` on are 0. The text and `digits` must have as many digits as `len`
// bits need.
pub fn fill_field(text: &[u8], len: usize, digits: &mut [u8]) -> bool
    requires text { length text.now ≡ digit_count len }
    requires places { length digits.old ≡ digit_count len }
    ensures bits { MatchBool result (field_bits len text.now ≡ Some (digit_row len digits.new))
        (field_bits len text.now ≡ None) }
    ensures kept { OnTrue result (AreDigitsOf (digit_row len digits.new) len digits.new) }
{
    fill_digits(text, digits) && is_cut(digits, len)
}

// Like `fill_field`, but replaces the content of a vector. The text must have as many digits as
// `len` bits need, the vector must have room for them, and `len` must be less than `2 ^ 63`. If the
// text is not a field of `len` bits, the new content is the digits of `len` zero bits.
pub fn read_field(text: &[u8], len: usize, digits: &mut Vec<u8>) -> bool
    requires few { len < 2 ^ 63 }
    requires digits { length text.now ≡ digit_count len }
    requires room { length text.now ≤ vec_capacity digits.old }
    ensures bits { MatchBool result
        (field_bits len text.now ≡ Some (digit_row len digits.new.items))
        (field_bits len text.now ≡ None) }
    ensures refused { OnFalse result (digits.new.items ≡ digits_of (replicate len false)) }
    ensures kept { AreDigitsOf (digit_row len digits.new.items) len digits.new.items }
    ensures capacity { vec_capacity digits.old ≤ vec_capacity digits.new }
{
    make_zeros(len, digits);
    if fill_field(text, len, digits) {
        return true;
    }
    make_zeros(len, digits);
    false
}
