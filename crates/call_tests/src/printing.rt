// Tests of `line_printer`, which writes lines of text to a sink.
use crate::missed::{Missed, expect};
use bt_base::{MemSink, PutFault, Sink};
use bt_bits::Line;
use line_printer::{begin_line, end_line, print, print_all, put_line};
use std::alloc::{AllocError, Global};

// The length of a name in bytes, the number of the call of `put` that fails, counted from 1, the result of `put_name`, and the number of
// bytes that the sink then has.
type Cut = (usize, u32, Result<(), PutFault>, usize);

// One call of `put` writes a line of up to 1,024 bytes, including the line feed. A longer line takes a call for each piece of 1,024 bytes.
// The last piece may be shorter.
static CUTS: [Cut; 14] = [
    (0, 1, Err(PutFault::Failed), 0),
    (0, 2, Ok(()), 6),
    (1018, 1, Err(PutFault::Failed), 0),
    (1018, 2, Ok(()), 1024),
    (1019, 1, Err(PutFault::Failed), 0),
    (1019, 2, Err(PutFault::Failed), 1024),
    (1019, 3, Ok(()), 1025),
    (2042, 1, Err(PutFault::Failed), 0),
    (2042, 2, Err(PutFault::Failed), 1024),
    (2042, 3, Ok(()), 2048),
    (2043, 1, Err(PutFault::Failed), 0),
    (2043, 2, Err(PutFault::Failed), 1024),
    (2043, 3, Err(PutFault::Failed), 2048),
    (2043, 4, Ok(()), 2049),
];

// Writes a line with the word NAME and the name.
fn put_name<K: Sink>(name: &[u8], line: &mut Line, out: &mut K) -> Result<(), PutFault> {
    put_line(&[b"NAME ".as_slice(), name], line, out)
}

fn is_cut(
    alloc: Global,
    len: usize,
    call: u32,
    answer: &Result<(), PutFault>,
    taken: usize,
) -> Result<bool, AllocError> {
    let name = "A".repeat(alloc, len)?;
    let mut line = Line::new(alloc)?;
    let mut out = MemSink::with_room(alloc, 4000)?;
    out.fail_at(call, 0)?;
    let got = put_name(name.as_bytes(), &mut line, &mut out);
    let is_whole = got.is_err() || out.bytes().ends_with(b"\n");
    Ok(got == *answer && out.bytes().len() == taken && is_whole)
}

#[test]
fn puts_a_line_at_once_or_in_full_pieces(rt: HostRuntime) -> Result<(), Missed> {
    for (row, (len, call, answer, taken)) in CUTS.iter().enumerate() {
        expect(row, is_cut(rt.alloc(), *len, *call, answer, *taken)?)?;
    }
    Ok(())
}

// Prints one line in several pieces.
fn print_nets<K: Sink>(line: &mut Line, out: &mut K) -> Result<(), PutFault> {
    begin_line(&[b"NETS "], line, out)?;
    print(b"12", line, out)?;
    print(b" COVERED ", line, out)?;
    print_all(&[b"1", b"0"], line, out)?;
    end_line(line, out)
}

// Returns whether `print_nets` writes its whole line in one call of `put`, without the old content of the buffer.
fn is_one_line(alloc: Global) -> Result<bool, AllocError> {
    let mut line = Line::new(alloc)?;
    line.push(b"dropped");
    let mut out = MemSink::with_room(alloc, 100)?;
    out.fail_at(2, 0)?;
    let got = print_nets(&mut line, &mut out);
    Ok(got.is_ok() && out.bytes() == b"NETS 12 COVERED 10\n".as_slice())
}

#[test]
fn prints_pieces_to_one_line(rt: HostRuntime) -> Result<(), Missed> {
    expect(0, is_one_line(rt.alloc())?)
}
