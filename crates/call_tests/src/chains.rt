// Tests of `write_ident`, which writes the SVF text that checks the identification codes of a chain's parts.
ghost use Rattle.std.specs.Prelude.{◌≡◌, length, All, IfSome, IsTrue};

use crate::missed::{Missed, expect};
use board_defs::{Code, Symbol};
use bt_base::{MemSink, PutFault};
use bt_bits::{Line, Row};
use ident_test::write_ident;
use std::alloc::{AllocError, Global};

const HEAD: &[u8] = b"TRST OFF;\nENDIR IDLE;\nENDDR IDLE;\nSTATE RESET;\nSTATE IDLE;\n";

// Returns whether the part has no pattern or a pattern of 32 symbols.
fn is_whole(part: &Option<Code>) -> bool
    ensures { IsTrue result → IfSome part.now (λ code. length code ≡ 32) }
{
    match part {
        Some(code) => code.symbols().len() == 32,
        None => true,
    }
}

// Returns whether each pattern has 32 symbols.
fn are_whole(parts: &[Option<Code>]) -> bool
    ensures { IsTrue result → All (λ part. IfSome part (λ code. length code ≡ 32)) parts.now }
{
    parts.iter().all(is_whole)
}

// The pattern of an identification code as text: 32 characters 0, 1 or X. The last character is nearest TDO.
type Digits = [u8; 32];

fn pattern(alloc: Global, digits: &Digits) -> Result<Code, AllocError> {
    let mut symbols = [Symbol::Any; 32];
    for place in 0..32 {
        symbols[31 - place] = match digits[place] {
            b'0' => Symbol::Zero,
            b'1' => Symbol::One,
            _ => Symbol::Any,
        };
    }
    Code::of(alloc, &symbols)
}

// Returns the pattern of each part of a chain, or `None` for a part without a pattern.
fn patterns(alloc: Global, chain: &[Option<&Digits>]) -> Result<Vec<Option<Code>>, AllocError> {
    let mut parts = Vec::new(alloc);
    for part in chain {
        parts.push(match part {
            Some(digits) => Some(pattern(alloc, digits)?),
            None => None,
        })?;
    }
    Ok(parts)
}

// Writes the SVF text for these parts. Writes nothing unless there are 1 to 255 parts and each pattern has 32 symbols.
#[tactic(auto, using(ident_test::proofs::LengthLemmas::room_of))]
fn put_ident(
    alloc: Global,
    parts: &[Option<Code>],
    out: &mut MemSink,
) -> Result<Result<(), PutFault>, AllocError> {
    if parts.is_empty() || parts.len() > 255 || !are_whole(parts) {
        return Ok(Ok(()));
    }
    let mut tdi = Row::with_room(alloc, 8160)?;
    let mut tdo = Row::with_room(alloc, 8160)?;
    let mut mask = Row::with_room(alloc, 8160)?;
    let mut line = Line::new(alloc)?;
    Ok(write_ident(parts, &mut tdi, &mut tdo, &mut mask, &mut line, out))
}

// Returns the whole SVF text whose only scan is `statement`.
fn text_of(alloc: Global, statement: &[u8]) -> Result<Vec<u8>, AllocError> {
    let mut text = HEAD.to_vec(alloc)?;
    text.extend_from_slice(statement)?;
    text.extend_from_slice(b"\nSTATE RESET;\n")?;
    Ok(text)
}

fn puts(alloc: Global, chain: &[Option<&Digits>], statement: &[u8]) -> Result<bool, AllocError> {
    let text = text_of(alloc, statement)?;
    let parts = patterns(alloc, chain)?;
    let mut out = MemSink::with_room(alloc, 10_000)?;
    let put = put_ident(alloc, &parts, &mut out)?;
    Ok(put.is_ok() && out.bytes() == text.as_slice())
}

const FIXED: &Digits = b"XXXX0001001000110100000000000111";

const UNKNOWN: &Digits = b"XXXXXXXXXXXXXXXXXXXXXXXXXXXXXXXX";

const LOWEST: &Digits = b"00000000000000000000000000000001";

const BOTH_ENDS: &Digits = b"1XXXXXXXXXXXXXXXXXXXXXXXXXXXXXX1";

// The patterns of a chain, and the expected scan statement. For a part without a pattern, the scan has one bit, that of the bypass
// register.
type Chain = (&'static [Option<&'static Digits>], &'static [u8]);

static CHAINS: [Chain; 4] = [
    (
        &[Some(FIXED), None],
        b"SDR 33 TDI (000000000) TDO (00246800E) MASK (01FFFFFFF);",
    ),
    (&[Some(UNKNOWN)], b"SDR 32 TDI (00000000);"),
    (
        &[Some(LOWEST), None, Some(BOTH_ENDS)],
        b"SDR 65 TDI (00000000000000000) TDO (00000000280000001) MASK (1FFFFFFFF80000001);",
    ),
    (
        &[None; 255],
        b"SDR 255\n\
        TDI (0000000000000000000000000000000000000000000000000000000000000000)\n\
        TDO (0000000000000000000000000000000000000000000000000000000000000000)\n\
        MASK (7FFFFFFFFFFFFFFFFFFFFFFFFFFFFFFFFFFFFFFFFFFFFFFFFFFFFFFFFFFFFFFF);",
    ),
];

#[test]
fn compares_the_fixed_bits_of_patterns(rt: HostRuntime) -> Result<(), Missed> {
    for (row, (chain, statement)) in CHAINS.iter().enumerate() {
        expect(row, puts(rt.alloc(), chain, statement)?)?;
    }
    Ok(())
}

// The fields of the longest scan statement: the text before the digits of a field, eight digits that are repeated 255 times, and the text
// after the digits.
static FIELDS: [(&[u8], &[u8], &[u8]); 3] = [
    (b"TDI (", b"00000000", b")\n"),
    (b"TDO (", b"00000001", b")\n"),
    (b"MASK (", b"FFFFFFFF", b");"),
];

fn push_field(
    text: &mut Vec<u8>,
    label: &[u8],
    digits: &[u8],
    end: &[u8],
) -> Result<(), AllocError> {
    text.extend_from_slice(label)?;
    for place in 0..255u32 {
        if place > 0 && place % 8 == 0 {
            text.push(b'\n')?;
        }
        text.extend_from_slice(digits)?;
    }
    text.extend_from_slice(end)
}

fn longest_statement(alloc: Global) -> Result<Vec<u8>, AllocError> {
    let mut statement = b"SDR 8160\n".to_vec(alloc)?;
    for (label, digits, end) in &FIELDS {
        push_field(&mut statement, label, digits, end)?;
    }
    Ok(statement)
}

#[test]
fn puts_long_chains(rt: HostRuntime) -> Result<(), Missed> {
    let statement = longest_statement(rt.alloc())?;
    expect(0, puts(rt.alloc(), &[Some(LOWEST); 255], &statement)?)
}

// The number of a call of `put`, counted from 1, and all bytes that the sink has if this call fails after four bytes.
static CUTS: [(u32, &[u8]); 3] = [
    (1, b"TRST"),
    (
        6,
        b"TRST OFF;\nENDIR IDLE;\nENDDR IDLE;\nSTATE RESET;\nSTATE IDLE;\nSDR ",
    ),
    (
        7,
        b"TRST OFF;\nENDIR IDLE;\nENDDR IDLE;\nSTATE RESET;\nSTATE IDLE;\nSDR 1 TDI (0) TDO (0) MASK (1);\nSTAT",
    ),
];

fn is_cut(alloc: Global, call: u32, text: &[u8]) -> Result<bool, AllocError> {
    let mut out = MemSink::with_room(alloc, 1000)?;
    out.fail_at(call, 4)?;
    let got = put_ident(alloc, &[None], &mut out)?;
    Ok(got == Err(PutFault::Failed) && out.bytes() == text)
}

#[test]
fn fails_where_the_sink_does(rt: HostRuntime) -> Result<(), Missed> {
    for (row, (call, text)) in CUTS.iter().enumerate() {
        expect(row, is_cut(rt.alloc(), *call, text)?)?;
    }
    Ok(())
}
