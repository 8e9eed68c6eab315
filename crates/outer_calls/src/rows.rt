//! Calls of `bt_bits` that make rows of bits, stacks of rows and lines, return the lengths of rows, fill a stack, and read hexadecimal
//! digits.
ghost use Rattle.std.specs.Prelude.{◌≡◌, ◌≢◌, ◌↔◌, ◌<◌, ◌≤◌, ℕ, [], false, length, replicate, Some, None, IfOk, OnOk, OnErr, IsErrOf};
ghost use Rattle.bt_bits.specs.Digits.{digit_row};
ghost use Rattle.bt_bits.specs.Hex.{digit_count, field_bits};
ghost use Rattle.bt_bits.specs.Rows.{AreDigitsOf};
ghost use Rattle.bt_bits.specs.Stacks.{stacked};

use bt_bits::{HexFault, Line, Row, RowStack};
use std::alloc::{AllocError, Global};

/// Creates an empty line. A line has room for 1024 bytes.
pub fn empty_line(alloc: Global) -> Result<Line, AllocError>
    ensures { IfOk result (λ l. l ≡ []) }
{
    Line::new(alloc)
}

/// Creates an empty row with room for `room` bits.
pub fn empty_row(alloc: Global, room: u32) -> Result<Row, AllocError>
    ensures bits { IfOk result (λ r. r.bits ≡ []) }
    ensures room { IfOk result (λ r. r.room ≡ room) }
{
    Row::with_room(alloc, room)
}

/// Replaces the bits of the row by `bits`. The row must have room for them.
pub fn copy_bits(row: &mut Row, bits: &[bool])
    requires { length bits.now ≤ row.old.room }
    ensures bits { row.new.bits ≡ bits.now }
    ensures room { row.new.room ≡ row.old.room }
{
    row.copy_from(bits);
}

/// Returns the number of bits of the row, which is at most the row's room.
pub fn row_length(row: &Row) -> u32
    ensures value { result ≡ length row.now.bits }
    ensures within { result ≤ row.now.room }
{
    row.len()
}

/// Reads `len` bits from a field of hexadecimal digits. Returns `Length` if the field does not have exactly one digit for every four bits,
/// rounded up. Returns `Digit` if a field of this length does not denote `len` bits. In both cases, the row then has `len` zeros. The row
/// must have room for `len` bits.
pub fn read_hex(row: &mut Row, text: &[u8], len: u32) -> Result<(), HexFault>
    requires { len ≤ row.old.room }
    ensures ok { OnOk result (field_bits len text.now ≡ Some row.new.bits) }
    ensures length { IsErrOf result HexFault.Length ↔ (length text.now ≢ digit_count len) }
    ensures digit { IsErrOf result HexFault.Digit
        ↔ ((length text.now ≡ digit_count len) × (field_bits len text.now ≡ None)) }
    ensures refused { OnErr result (row.new.bits ≡ replicate len false) }
    ensures len { length row.new.bits ≡ len }
    ensures room { row.new.room ≡ row.old.room }
{
    row.read_hex(text, len)
}

/// Like `read_hex`, but fills `digits` with the values of the field's digits, the rightmost digit first. There must be as many digits as
/// `len` bits need. On an error, the digits are unspecified.
pub fn read_digits(text: &[u8], len: u32, digits: &mut [u8]) -> Result<(), HexFault>
    requires { length digits.old ≡ digit_count len }
    ensures ok { OnOk result (field_bits len text.now ≡ Some (digit_row len digits.new)) }
    ensures kept { OnOk result (AreDigitsOf (digit_row len digits.new) len digits.new) }
    ensures length { IsErrOf result HexFault.Length ↔ (length text.now ≢ digit_count len) }
    ensures digit { IsErrOf result HexFault.Digit
        ↔ ((length text.now ≡ digit_count len) × (field_bits len text.now ≡ None)) }
{
    bt_bits::read_digits(text, len, digits)
}

/// Creates a stack of 16 empty rows, each with room for `room` bits.
pub fn empty_stack(alloc: Global, room: u32) -> Result<RowStack, AllocError>
    ensures rows { IfOk result (λ stack. (j : ℕ) → j < 16 → stacked stack j ≡ []) }
    ensures room { IfOk result (λ stack. stack.room ≡ room) }
{
    RowStack::with_room(alloc, room)
}

/// Returns the number of bits of each row of the stack.
pub fn stack_length(stack: &RowStack) -> u32
    ensures value { result ≡ stack.now.len }
    ensures each { (j : ℕ) → j < 16 → length (stacked stack.now j) ≡ result }
{
    stack.len()
}

/// Replaces each row of the stack by `row`. The stack must have room for rows of this length.
pub fn fill_stack(stack: &mut RowStack, row: &Row)
    requires { length row.now.bits ≤ stack.old.room }
    ensures rows { (j : ℕ) → j < 16 → stacked stack.new j ≡ row.now.bits }
    ensures room { stack.new.room ≡ stack.old.room }
{
    stack.fill_with(row);
}
