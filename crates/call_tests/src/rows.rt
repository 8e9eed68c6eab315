// Tests of `Row`, a sequence of bits, and of `RowStack`, a stack of 16 rows of equal length. Most of them compare the hexadecimal digits of
// rows.
ghost use Rattle.std.specs.Prelude.{◌<◌};

use crate::missed::{Missed, expect};
use bt_bits::{Column, HexFault, Line, Row, RowStack};
use std::alloc::{AllocError, Global};

// The length of a row in bits, the positions of its 1 bits, the first digit to print, the number of digits to print, and the printed text.
// Digits are counted from the left, from 0.
type Printed = (u32, &'static [u32], u32, u32, &'static [u8]);

static PRINTED: [Printed; 4] = [
    (10, &[0, 2, 5, 7], 0, 3, b"0A5"),
    (10, &[0, 2, 5, 7], 1, 2, b"A5"),
    (
        300,
        &[0, 299],
        0,
        75,
        b"800000000000000000000000000000000000000000000000000000000000000000000000001",
    ),
    (5, &[0, 2, 3, 4], 0, 2, b"1D"),
];

// Returns a row of `len` bits with a 1 at each position of `ones`. Ignores positions past the end of the row.
fn row_of(alloc: Global, len: u32, ones: &[u32]) -> Result<Row, AllocError> {
    let mut row = Row::with_room(alloc, len)?;
    row.clear(len);
    for place in ones {
        if *place < row.len() {
            row.set(*place, true);
        }
    }
    Ok(row)
}

// Appends `count` hexadecimal digits of a row to a line, starting at digit `from`. Does nothing if the row has too few digits or the line
// has no room for them.
fn push_digits(row: &Row, from: u32, count: u32, line: &mut Line) {
    let end = u64::from(from) + u64::from(count);
    if line.len() + count as usize <= 1024 && end <= (u64::from(row.len()) + 3) / 4 {
        row.put_hex(from, count, line);
    }
}

#[test]
fn prints_digits(rt: HostRuntime) -> Result<(), Missed> {
    let mut line = Line::new(rt.alloc())?;
    for (number, (len, ones, from, count, text)) in PRINTED.iter().enumerate() {
        let row = row_of(rt.alloc(), *len, ones)?;
        line.clear();
        push_digits(&row, *from, *count, &mut line);
        expect(number, line.bytes() == *text)?;
    }
    Ok(())
}

// A piece that a test appends to a line.
#[derive(Clone, Copy)]
enum Piece {
    Words(&'static [u8]),
    Digits(u32, u32),
    Number(u64),
}

static PIECES: [Piece; 5] = [
    Piece::Words(b"TDI ("),
    Piece::Digits(0, 3),
    Piece::Words(b") "),
    Piece::Digits(1, 2),
    Piece::Number(65535),
];

fn push_words(words: &[u8], line: &mut Line) {
    if words.len() <= 1024 - line.len() {
        line.push(words);
    }
}

#[tactic(auto, using(bt_bits::proofs::DecimalLemmas::decimal_is_short))]
fn push_number(number: u64, line: &mut Line) {
    if line.len() <= 1000 {
        line.push_number(number);
    }
}

fn push_piece(row: &Row, piece: Piece, line: &mut Line) {
    match piece {
        Piece::Words(words) => push_words(words, line),
        Piece::Digits(from, count) => push_digits(row, from, count, line),
        Piece::Number(number) => push_number(number, line),
    }
}

#[test]
fn a_line_takes_words_digits_and_numbers(rt: HostRuntime) -> Result<(), Missed> {
    let row = row_of(rt.alloc(), 10, &[0, 2, 5, 7])?;
    let mut line = Line::new(rt.alloc())?;
    for piece in &PIECES {
        push_piece(&row, *piece, &mut line);
    }
    expect(0, line.bytes() == b"TDI (0A5) A565535".as_slice())
}

static BITS: [bool; 5] = [true, false, true, true, true];

// Copies `BITS` into a row, and this row into a second row. Returns whether both rows then have these bits.
fn is_copied(alloc: Global) -> Result<bool, AllocError> {
    let mut row = row_of(alloc, 300, &[0, 299])?;
    if row.len() == 300 {
        row.copy_from(&BITS);
    }
    let mut copy = Row::with_room(alloc, row.len())?;
    copy.copy_row(&row);
    let mut line = Line::new(alloc)?;
    push_digits(&row, 0, 2, &mut line);
    Ok(line.bytes() == b"1D".as_slice() && copy.digits() == [13, 1].as_slice())
}

#[test]
fn a_row_takes_the_bits_of_another(rt: HostRuntime) -> Result<(), Missed> {
    expect(0, is_copied(rt.alloc())?)
}

static STACKED: [[u8; 2]; 16] = [
    [0, 1],
    [1, 1],
    [0, 1],
    [0, 1],
    [8, 1],
    [0, 3],
    [8, 3],
    [0, 1],
    [0, 3],
    [8, 3],
    [0, 3],
    [8, 3],
    [0, 3],
    [0, 1],
    [0, 1],
    [1, 3],
];

// Returns whether row `number` of a stack has these digits. The first digit has the first four bits. `number` must be less than 16.
fn has_row(alloc: Global, stack: &RowStack, number: u32, digits: &[u8]) -> Result<bool, AllocError>
    requires { number < 16 }
{
    let mut row = Row::with_room(alloc, stack.len())?;
    row.copy_stacked(stack, number);
    Ok(row.digits() == digits)
}

// Returns a stack in which each row has six bits, with a 1 at positions 1 and 4.
fn common_stack(alloc: Global) -> Result<RowStack, AllocError> {
    let row = row_of(alloc, 6, &[1, 4])?;
    let mut common = RowStack::with_room(alloc, row.len())?;
    common.fill_with(&row);
    Ok(common)
}

// The bits of a column, which is one position in the 16 rows of a stack. With `Of`, row `j` has bit `j` of the number. With `Same`, every
// row has the same bit.
#[derive(Clone, Copy)]
enum Bits {
    Of(u32),
    Same(bool),
}

// Positions in the rows of a stack, and the columns to set there. The rows have six bits, so position 6 is past their end, and setting it
// changes nothing.
static COLUMNS: [(u32, Bits); 6] = [
    (0, Bits::Of(0x8002)),
    (1, Bits::Same(false)),
    (3, Bits::Of(0x5555_0A50)),
    (4, Bits::Same(true)),
    (5, Bits::Of(0x9F60)),
    (6, Bits::Same(true)),
];

fn column(bits: Bits) -> Column {
    match bits {
        Bits::Of(number) => Column::of(number),
        Bits::Same(bit) => Column::of_bit(bit),
    }
}

// Returns a copy of `common` with the columns of `COLUMNS` set.
fn changed_stack(alloc: Global, common: &RowStack) -> Result<RowStack, AllocError> {
    let mut stack = RowStack::with_room(alloc, common.len())?;
    stack.copy_from(common);
    for (place, bits) in &COLUMNS {
        stack.set(*place, column(*bits));
    }
    Ok(stack)
}

fn stacks_hold(alloc: Global, common: &RowStack, changed: &RowStack) -> Result<(), Missed> {
    for number in 0..16u32 {
        let row = number as usize;
        expect(row, has_row(alloc, changed, number, &STACKED[row])?)?;
        expect(row, has_row(alloc, common, number, &[2, 1])?)?;
    }
    expect(16, changed.len() == 6)
}

#[test]
fn stacks_rows(rt: HostRuntime) -> Result<(), Missed> {
    let common = common_stack(rt.alloc())?;
    let changed = changed_stack(rt.alloc(), &common)?;
    stacks_hold(rt.alloc(), &common, &changed)
}

// A text, the number of bits to read from it, and the result of `read_hex`.
type Read = (&'static [u8], u32, Result<(), HexFault>);

static READ: [Read; 12] = [
    (b"3FF", 10, Ok(())),
    (b"0123456789abcdefABCDEF", 88, Ok(())),
    (b"", 0, Ok(())),
    (b"0", 0, Err(HexFault::Length)),
    (b"3F", 10, Err(HexFault::Length)),
    (b"03FF", 10, Err(HexFault::Length)),
    (b"0ZZZ", 10, Err(HexFault::Length)),
    (b"4FF", 10, Err(HexFault::Digit)),
    (b"3G0", 10, Err(HexFault::Digit)),
    (b"g00", 10, Err(HexFault::Digit)),
    (b"3F ", 10, Err(HexFault::Digit)),
    (b"2a5", 10, Ok(())),
];

// Returns the result of reading `len` bits from the text.
fn answer(alloc: Global, text: &[u8], len: u32) -> Result<Result<(), HexFault>, AllocError> {
    let mut row = Row::with_room(alloc, len)?;
    Ok(row.read_hex(text, len))
}

#[test]
fn reads_digits(rt: HostRuntime) -> Result<(), Missed> {
    for (row, (text, len, wanted)) in READ.iter().enumerate() {
        expect(row, answer(rt.alloc(), text, *len)? == *wanted)?;
    }
    Ok(())
}

// Returns whether position `place` is in the row and has the bit `bit`.
fn has_bit(row: &Row, place: u32, bit: bool) -> bool {
    place < row.len() && row.get(place) == bit
}

static BITS_OF_2A5: [(u32, bool); 5] = [(0, true), (1, false), (2, true), (8, false), (9, true)];

#[test]
fn a_row_has_the_bits_of_its_text(rt: HostRuntime) -> Result<(), Missed> {
    let mut row = Row::with_room(rt.alloc(), 10)?;
    let _ = row.read_hex(b"2a5", 10);
    for (number, (place, bit)) in BITS_OF_2A5.iter().enumerate() {
        expect(number, has_bit(&row, *place, *bit))?;
    }
    let mut line = Line::new(rt.alloc())?;
    push_digits(&row, 0, 3, &mut line);
    expect(5, row.len() == 10 && line.bytes() == b"2A5".as_slice())
}
