// Tests of `svf_writer`, which writes scans and the lines around them as SVF text.
ghost use Rattle.std.specs.Prelude.{◌≡◌, ◌≤◌, ◌<◌, length, All, IfOk, IsTrue};
ghost use Rattle.board_defs.specs.Limits.{IsInstructionLength};

use crate::missed::{Missed, expect};
use bt_base::{MemSink, PutFault};
use bt_bits::{Line, Row};
use std::alloc::{AllocError, Global};
use svf_writer::{write_chain, write_head, write_scan, write_tail};
use tap_defs::Shape;

// Returns whether each number is a valid length of an instruction register: 2 to 255 bits.
fn are_lengths(lengths: &[u32]) -> bool
    ensures { IsTrue result → All IsInstructionLength lengths.now }
{
    lengths.iter().all(|n| *n >= 2 && *n <= 255)
}

// Writes the scans that test a chain whose instruction registers have these lengths. Writes nothing unless there are 1 to 255 lengths and
// each is valid.
#[tactic(auto, using(svf_writer::proofs::ChainLemmas::sum_at_most))]
fn put_chain(
    alloc: Global,
    lengths: &[u32],
    out: &mut MemSink,
) -> Result<Result<(), PutFault>, AllocError> {
    if lengths.is_empty() || lengths.len() > 255 || !are_lengths(lengths) {
        return Ok(Ok(()));
    }
    let mut tdi = Row::with_room(alloc, 65535)?;
    let mut tdo = Row::with_room(alloc, 65535)?;
    let mut mask = Row::with_room(alloc, 65535)?;
    let mut line = Line::new(alloc)?;
    Ok(write_chain(lengths, &mut tdi, &mut tdo, &mut mask, &mut line, out))
}

static CHAINS: [(&[u32], &[u8]); 3] = [
    (
        &[4, 2],
        b"SIR 6 TDI (3F) TDO (05) MASK (0F);\nSDR 10 TDI (0A5) TDO (294) MASK (3FF);\n",
    ),
    (
        &[2],
        b"SIR 2 TDI (3) TDO (1) MASK (3);\nSDR 9 TDI (0A5) TDO (14A) MASK (1FF);\n",
    ),
    (
        &[2; 40],
        b"SIR 80\nTDI (FFFFFFFFFFFFFFFFFFFF)\nTDO (55555555555555555555)\n\
            MASK (FFFFFFFFFFFFFFFFFFFF);\n\
            SDR 48 TDI (0000000000A5) TDO (A50000000000) MASK (FFFFFFFFFFFF);\n",
    ),
];

fn chain_is(alloc: Global, lengths: &[u32], text: &[u8]) -> Result<bool, AllocError> {
    let mut out = MemSink::with_room(alloc, 1000)?;
    let put = put_chain(alloc, lengths, &mut out)?;
    Ok(put.is_ok() && out.bytes() == text)
}

#[test]
fn puts_the_chain_test(rt: HostRuntime) -> Result<(), Missed> {
    for (row, (lengths, text)) in CHAINS.iter().enumerate() {
        expect(row, chain_is(rt.alloc(), lengths, text)?)?;
    }
    Ok(())
}

// Returns a row of `len` bits. Its first and last bits are 1, and its other bits are 0. `len` must be at least 5.
fn tdi_of(alloc: Global, len: u32) -> Result<Row, AllocError>
    requires { 5 ≤ len }
    ensures { IfOk result (λ row. length row.bits ≡ len) }
{
    let mut tdi = Row::with_room(alloc, len)?;
    tdi.clear(len);
    tdi.set(0, true);
    tdi.set(len - 1, true);
    Ok(tdi)
}

// Writes a scan of `len` bits, from 5 to 1000, whose first and last TDI bits are 1. If `compare` is true, this is an instruction scan that
// compares bit 4 with 1. Otherwise it is a data scan that compares nothing.
#[tactic(auto, using(lists::proofs::ListLemmas::none_of_zeros))]
fn put_scan(
    alloc: Global,
    len: u32,
    compare: bool,
    out: &mut MemSink,
) -> Result<Result<(), PutFault>, AllocError>
    requires more { 5 ≤ len }
    requires room { len ≤ 1000 }
{
    let mut line = Line::new(alloc)?;
    let tdi = tdi_of(alloc, len)?;
    let mut mask = Row::with_room(alloc, len)?;
    mask.clear(len);
    if compare {
        mask.set(4, true);
        let shape = Shape {
            ir: true,
            compare: true,
        };
        Ok(write_scan(shape, &tdi, &mask, &mask, &mut line, out))
    } else {
        let shape = Shape {
            ir: false,
            compare: false,
        };
        Ok(write_scan(shape, &tdi, &mask, &mask, &mut line, out))
    }
}

// The length of a scan in bits, whether the scan compares bit 4, and the scan's text.
type Scan = (u32, bool, &'static [u8]);

static SCANS: [Scan; 5] = [
    (
        260,
        false,
        b"SDR 260 TDI (80000000000000000000000000000000000000000000000000000000000000001);\n",
    ),
    (
        261,
        false,
        b"SDR 261\n\
            TDI (1000000000000000000000000000000000000000000000000000000000000000\n\
            01);\n",
    ),
    (
        68,
        true,
        b"SIR 68 TDI (80000000000000001) TDO (00000000000000010) MASK (00000000000000010);\n",
    ),
    (
        69,
        true,
        b"SIR 69\n\
            TDI (100000000000000001)\n\
            TDO (000000000000000010)\n\
            MASK (000000000000000010);\n",
    ),
    (
        300,
        true,
        b"SIR 300\n\
            TDI (8000000000000000000000000000000000000000000000000000000000000000\n\
            00000000001)\n\
            TDO (0000000000000000000000000000000000000000000000000000000000000000\n\
            00000000010)\n\
            MASK (0000000000000000000000000000000000000000000000000000000000000000\n\
            00000000010);\n",
    ),
];

fn scan_is(alloc: Global, len: u32, compare: bool, text: &[u8]) -> Result<bool, AllocError> {
    let mut out = MemSink::with_room(alloc, 1000)?;
    if len < 5 || len > 1000 {
        return Ok(false);
    }
    let put = put_scan(alloc, len, compare, &mut out)?;
    Ok(put.is_ok() && out.bytes() == text)
}

#[test]
fn puts_scans(rt: HostRuntime) -> Result<(), Missed> {
    for (row, (len, compare, text)) in SCANS.iter().enumerate() {
        expect(row, scan_is(rt.alloc(), *len, *compare, text)?)?;
    }
    Ok(())
}

static CHAIN_LINES: [&[u8]; 5] = [
    b"SIR 80\n",
    b"TDI (FFFFFFFFFFFFFFFFFFFF)\n",
    b"TDO (55555555555555555555)\n",
    b"MASK (FFFFFFFFFFFFFFFFFFFF);\n",
    b"SDR 48 TDI (0000000000A5) TDO (A50000000000) MASK (FFFFFFFFFFFF);\n",
];

static SCAN_LINES: [&[u8]; 7] = [
    b"SIR 300\n",
    b"TDI (8000000000000000000000000000000000000000000000000000000000000000\n",
    b"00000000001)\n",
    b"TDO (0000000000000000000000000000000000000000000000000000000000000000\n",
    b"00000000010)\n",
    b"MASK (0000000000000000000000000000000000000000000000000000000000000000\n",
    b"00000000010);\n",
];

// Writes scans whose text has several lines: the test of a chain of 40 parts if `is_chain` is true, and a scan of 300 bits otherwise.
fn put_lines(
    alloc: Global,
    is_chain: bool,
    out: &mut MemSink,
) -> Result<Result<(), PutFault>, AllocError> {
    if is_chain {
        put_chain(alloc, &[2; 40], out)
    } else {
        put_scan(alloc, 300, true, out)
    }
}

// Makes call number `call` of `put`, counted from 1, fail after four bytes. Returns whether `put_lines` then returns `answer` and the sink
// has exactly `text`.
fn is_cut(
    alloc: Global,
    is_chain: bool,
    call: u32,
    text: &[u8],
    answer: &Result<(), PutFault>,
) -> Result<bool, AllocError> {
    let mut out = MemSink::with_room(alloc, 1000)?;
    out.fail_at(call, 4)?;
    let got = put_lines(alloc, is_chain, &mut out)?;
    Ok(got == *answer && out.bytes() == text)
}

fn lines_are_put(alloc: Global, is_chain: bool, lines: &[&[u8]]) -> Result<(), Missed> {
    let mut text = Vec::new(alloc);
    let mut call = 1u32;
    for line in lines {
        text.extend_from_slice(line.get(..4).unwrap_or(line))?;
        expect(
            call as usize,
            is_cut(alloc, is_chain, call, &text, &Err(PutFault::Failed))?,
        )?;
        text.extend_from_slice(line.get(4..).unwrap_or(b""))?;
        call = call.saturating_add(1);
    }
    expect(0, is_cut(alloc, is_chain, call, &text, &Ok(()))?)
}

#[test]
fn puts_each_line_at_once(rt: HostRuntime) -> Result<(), Missed> {
    lines_are_put(rt.alloc(), true, &CHAIN_LINES)?;
    lines_are_put(rt.alloc(), false, &SCAN_LINES)
}

// Writes the lines before and after the scans.
fn put_ends(out: &mut MemSink) -> Result<(), PutFault> {
    write_head(out)?;
    write_tail(out)
}

// The number of bytes for which a sink has room, the result of `put_ends`, and the bytes that the sink then has.
type End = (u32, Result<(), PutFault>, &'static [u8]);

static ENDS: [End; 2] = [
    (
        1000,
        Ok(()),
        b"TRST OFF;\nENDIR IDLE;\nENDDR IDLE;\nSTATE RESET;\nSTATE IDLE;\nSTATE RESET;\n",
    ),
    (25, Err(PutFault::Failed), b"TRST OFF;\nENDIR IDLE;\nEND"),
];

#[test]
fn puts_the_lines_around_the_scans(rt: HostRuntime) -> Result<(), Missed> {
    for (row, (room, answer, text)) in ENDS.iter().enumerate() {
        let mut out = MemSink::with_room(rt.alloc(), *room)?;
        let got = put_ends(&mut out);
        expect(row, got == *answer && out.bytes() == *text)?;
    }
    Ok(())
}
