// The SVF text of the identity test. A row has the bits of TDI, TDO or MASK of a scan, and its room
// is the largest number of bits that it can have.
ghost use Rattle.std.specs.Prelude.{◌≡◌, ◌+◌, ◌<◌, ◌≤◌, false, length, map, replicate, unwrap_or, is_some, All, IfSome};
ghost use Rattle.board_defs.specs.Limits.{most_bits, most_parts};
ghost use Rattle.bt_base.specs.Puts.{Puts};
ghost use Rattle.tap_defs.specs.chain.Scan.{tdo_bits, mask_bits};
ghost use Rattle.tap_defs.specs.chain.ScanRows.{AreSameRows, EachHasRoom, HoldBits};
ghost use Rattle.tap_defs.specs.chain.Text.{scan_text};
ghost use Rattle.ident_test.specs.Patterns.{wanted, symbol_bit, register_pattern, ident_bits, ident_scan, ident_text};
ghost use Rattle.ident_test.specs.inner.Rows.{with_values};

use board_defs::{Code, Symbol};
use bt_base::{PutFault, Sink};
use bt_bits::{Line, Row};
use svf_writer::{write_head, write_scan, write_tail};
use tap_defs::{ScanRows, Shape};

// Returns the symbols that the scan expects from a part's register: the pattern of the part's
// identification code, or the 0 of the bypass register if the part has no pattern.
fn register_pattern(part: &Option<Code>) -> &[Symbol]
    ensures { result.now ≡ register_pattern part.now }
{
    match part {
        Some(code) => code.symbols(),
        None => &[Symbol::Zero],
    }
}

// Returns the number of bits of the part's register. An identification register has 32 bits (IEEE
// 1149.1-1990, section 11), and a bypass register has one. A pattern must have 32 symbols.
fn register_bits(part: &Option<Code>) -> u32
    requires { IfSome part.now (λ code. length code ≡ 32) }
    ensures value { result ≡ length (register_pattern part.now) }
    ensures bound { result ≤ 32 }
{
    match part {
        Some(_) => 32,
        None => 1,
    }
}

// Returns the number of bits of the scan. There must be at most 255 parts, and each pattern must
// have 32 symbols.
fn scan_length(parts: &[Option<Code>]) -> u32
    requires few { length parts.now ≤ most_parts }
    requires whole { All (λ part. IfSome part (λ code. length code ≡ 32)) parts.now }
    ensures { result ≡ length (ident_bits parts.now) }
{
    let mut bits = 0;
    for part in parts {
        bits += register_bits(part);
    }
    bits
}

// Returns whether the symbol expects a 1.
fn expects_one(symbol: Symbol) -> bool
    ensures { result ≡ unwrap_or (wanted symbol) false }
{
    matches!(symbol, Symbol::One)
}

// Returns whether the scan compares a bit with this symbol.
fn is_compared(symbol: Symbol) -> bool
    ensures { result ≡ is_some (wanted symbol) }
{
    !matches!(symbol, Symbol::Any)
}

// Writes the expected bits and the mask bits of one register into the rows. The register's lowest
// bit is at position `at`. Both rows must have a position for each symbol, and `at` plus the number
// of symbols must be at most `most_bits`.
fn set_register(at: u32, pattern: &[Symbol], tdo: &mut Row, mask: &mut Row)
    requires few { at + length pattern.now ≤ most_bits }
    requires tdo { at + length pattern.now ≤ length tdo.old.bits }
    requires mask { at + length pattern.now ≤ length mask.old.bits }
    ensures tdo { tdo.new.bits
        ≡ with_values at (tdo_bits (map symbol_bit pattern.now)) tdo.old.bits }
    ensures mask { mask.new.bits
        ≡ with_values at (mask_bits (map symbol_bit pattern.now)) mask.old.bits }
    ensures tdo_kept { tdo.new.room ≡ tdo.old.room }
    ensures mask_kept { mask.new.room ≡ mask.old.room }
{
    let mut position = at;
    for symbol in pattern {
        tdo.set(position, expects_one(*symbol));
        mask.set(position, is_compared(*symbol));
        position += 1;
    }
}

// Writes the expected bits and the mask bits of all registers into the rows, from the last part to
// the first. Both rows must have a 0 for each bit of the scan, and the scan must have at most
// `most_bits` bits.
fn set_registers(parts: &[Option<Code>], tdo: &mut Row, mask: &mut Row)
    requires few { length (ident_bits parts.now) ≤ most_bits }
    requires tdo { tdo.old.bits ≡ replicate (length (ident_bits parts.now)) false }
    requires mask { mask.old.bits ≡ replicate (length (ident_bits parts.now)) false }
    ensures tdo { tdo.new.bits ≡ tdo_bits (ident_bits parts.now) }
    ensures mask { mask.new.bits ≡ mask_bits (ident_bits parts.now) }
    ensures tdo_kept { tdo.new.room ≡ tdo.old.room }
    ensures mask_kept { mask.new.room ≡ mask.old.room }
{
    let mut at = 0;
    for i in (0..parts.len()).rev() {
        let pattern = register_pattern(&parts[i]);
        set_register(at, pattern, tdo, mask);
        at += pattern.len() as u32;
    }
}

// Fills the rows of the scan with the bits of all parts. There must be at most 255 parts, each
// pattern must have 32 symbols, and the rows must have room for the scan.
#[tactic(auto, using(crate::proofs::LengthLemmas::room_of))]
fn fill_rows(parts: &[Option<Code>], rows: &mut ScanRows)
    requires few { length parts.now ≤ most_parts }
    requires whole { All (λ part. IfSome part (λ code. length code ≡ 32)) parts.now }
    requires room { EachHasRoom (λ room. length (ident_bits parts.now) ≤ room) rows.old }
    ensures bits { HoldBits (ident_bits parts.now) rows.new }
    ensures kept { AreSameRows rows.old rows.new }
{
    let bits = scan_length(parts);
    rows.tdi.clear(bits);
    rows.tdo.clear(bits);
    rows.mask.clear(bits);
    set_registers(parts, rows.tdo, rows.mask);
}

// Writes the statement of the scan. There must be 1 to 255 parts, each pattern must have 32
// symbols, and the rows must have room for the scan.
fn put_scan<K: Sink>(
    parts: &[Option<Code>],
    rows: &mut ScanRows,
    line: &mut Line,
    out: &mut K,
) -> Result<(), PutFault>
    requires some { 0 < length parts.now }
    requires few { length parts.now ≤ most_parts }
    requires whole { All (λ part. IfSome part (λ code. length code ≡ 32)) parts.now }
    requires room { EachHasRoom (λ room. length (ident_bits parts.now) ≤ room) rows.old }
    ensures text { Puts (K.shown out.old) (K.shown out.new) (scan_text (ident_scan parts.now))
        result }
    ensures kept { AreSameRows rows.old rows.new }
{
    fill_rows(parts, rows);
    let shape = Shape {
        ir: false,
        compare: rows.mask.has_one(),
    };
    write_scan(shape, rows.tdi, rows.tdo, rows.mask, line, out)
}

/// Writes the identity test of described parts with these IDCODE patterns, in the order from TDI to
/// TDO. The text is a reset, one data scan and another reset. The scan has 32 bits for a part with
/// a pattern, and compares each bit for which the pattern has 0 or 1. It has one bit for any other
/// part, and compares this bit with the 0 of the bypass register.
///
/// There must be 1 to 255 parts, each pattern must have 32 symbols, and the rows must have room for
/// the scan. The call allocates nothing. The rows, and the buffer `line` for one line of text, are
/// scratch space. Their contents are unspecified afterwards. The call fails only if the sink fails.
/// The sink has then taken a prefix of the text.
pub fn write_ident<K: Sink>(
    parts: &[Option<Code>],
    tdi: &mut Row,
    tdo: &mut Row,
    mask: &mut Row,
    line: &mut Line,
    out: &mut K,
) -> Result<(), PutFault>
    requires some { 0 < length parts.now }
    requires few { length parts.now ≤ most_parts }
    requires whole { All (λ part. IfSome part (λ code. length code ≡ 32)) parts.now }
    requires tdi_room { length (ident_bits parts.now) ≤ tdi.old.room }
    requires tdo_room { length (ident_bits parts.now) ≤ tdo.old.room }
    requires mask_room { length (ident_bits parts.now) ≤ mask.old.room }
    ensures text { Puts (K.shown out.old) (K.shown out.new) (ident_text parts.now) result }
    ensures tdi { tdi.new.room ≡ tdi.old.room }
    ensures tdo { tdo.new.room ≡ tdo.old.room }
    ensures mask { mask.new.room ≡ mask.old.room }
{
    write_head(out)?;
    put_scan(parts, &mut ScanRows { tdi, tdo, mask }, line, out)?;
    write_tail(out)
}
