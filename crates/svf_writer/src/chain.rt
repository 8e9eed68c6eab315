// The SVF text of the chain test. A row has the bits of TDI, TDO or MASK of a scan, and its room is
// the largest number of bits that it can have.
ghost use Rattle.std.specs.Prelude.{◌≡◌, ◌+◌, ◌<◌, ◌≤◌, true, false, length, sum, replicate, slice_set, All};
ghost use Rattle.board_defs.specs.Limits.{most_bits, most_parts, IsInstructionLength};
ghost use Rattle.bt_base.specs.Puts.{Puts};
ghost use Rattle.tap_defs.specs.chain.Scan.{tdo_bits, mask_bits};
ghost use Rattle.tap_defs.specs.chain.ScanRows.{AreSameRows, EachHasRoom, HoldBits};
ghost use Rattle.tap_defs.specs.chain.Text.{scan_text, scan_texts};
ghost use Rattle.tap_defs.specs.chain.ChainScans.{chain_scans};
ghost use Rattle.svf_writer.specs.inner.Chain.{bypass_bits, mark_bits, with_marks};
ghost use Rattle.svf_writer.specs.Rows.{IsChainRoom};

use crate::write_scan;
use bt_base::{PutFault, Sink};
use bt_bits::{Line, Row};
use tap_defs::{ScanRows, Shape};

// The number of bits of A5 (hexadecimal). The data scan of the chain test shifts in these bits as
// marks.
const MARKS: u32 = 8;

// Replaces the bits of the row by `len` ones. The row must have room for them.
fn fill_ones(len: u32, row: &mut Row)
    requires { len ≤ row.old.room }
    ensures bits { row.new.bits ≡ replicate len true }
    ensures room { row.new.room ≡ row.old.room }
{
    row.clear(len);
    for at in 0..len {
        row.set(at, true);
    }
}

// Sets the bits of the row at which A5 (hexadecimal) has a 1, and changes no other bit. The lowest
// bit of A5 is at position `at`, which must be at most 255. The row must have all eight positions.
fn set_marks(at: u32, row: &mut Row)
    requires few { at ≤ most_parts }
    requires bits { at + 8 ≤ length row.old.bits }
    ensures bits { row.new.bits ≡ with_marks at row.old.bits }
    ensures room { row.new.room ≡ row.old.room }
{
    row.set(at, true);
    row.set(at + 2, true);
    row.set(at + 5, true);
    row.set(at + 7, true);
}

// Fills the rows of the data scan for `parts` parts. The scan shifts in the marks, and expects them
// at TDO `parts` bits later. There must be at most 255 parts, and the rows must have room for
// `parts + 8` bits.
fn fill_marks(parts: u32, rows: &mut ScanRows)
    requires few { parts ≤ most_parts }
    requires room { EachHasRoom (λ room. parts + 8 ≤ room) rows.old }
    ensures bits { HoldBits (mark_bits parts) rows.new }
    ensures kept { AreSameRows rows.old rows.new }
{
    rows.tdi.clear(parts + MARKS);
    set_marks(0, rows.tdi);
    rows.tdo.clear(parts + MARKS);
    set_marks(parts, rows.tdo);
    fill_ones(parts + MARKS, rows.mask);
}

// Makes the rows compare one part's instruction register with 01: sets its lowest bit in the TDO
// row and its two lowest bits in the mask row, and changes no other bit. The lowest bit is at
// position `at`, which must be at most `most_bits`. Both rows must have these two positions.
fn set_capture(at: u32, tdo: &mut Row, mask: &mut Row)
    requires few { at ≤ most_bits }
    requires tdo { at + 2 ≤ length tdo.old.bits }
    requires mask { at + 2 ≤ length mask.old.bits }
    ensures tdo { tdo.new.bits ≡ slice_set tdo.old.bits at true }
    ensures mask { mask.new.bits ≡ slice_set (slice_set mask.old.bits at true) (at + 1) true }
    ensures tdo_kept { tdo.new.room ≡ tdo.old.room }
    ensures mask_kept { mask.new.room ≡ mask.old.room }
{
    tdo.set(at, true);
    mask.set(at, true);
    mask.set(at + 1, true);
}

// Makes the rows compare the instruction register of each part with 01, from the last part to the
// first. Each length must be at least 2, and their sum at most `most_bits`. Both rows must have a 0
// for each bit of these registers.
fn set_captures(lengths: &[u32], tdo: &mut Row, mask: &mut Row)
    requires each { All (λ n. 2 ≤ n) lengths.now }
    requires total { sum lengths.now ≤ most_bits }
    requires tdo { tdo.old.bits ≡ replicate (sum lengths.now) false }
    requires mask { mask.old.bits ≡ replicate (sum lengths.now) false }
    ensures tdo { tdo.new.bits ≡ tdo_bits (bypass_bits lengths.now) }
    ensures mask { mask.new.bits ≡ mask_bits (bypass_bits lengths.now) }
    ensures tdo_kept { tdo.new.room ≡ tdo.old.room }
    ensures mask_kept { mask.new.room ≡ mask.old.room }
{
    let mut at = 0;
    for i in (0..lengths.len()).rev() {
        set_capture(at, tdo, mask);
        at += lengths[i];
    }
}

// Returns the sum of the instruction lengths of all parts. The sum must be at most `most_bits`.
fn bits_of(lengths: &[u32]) -> u32
    requires { sum lengths.now ≤ most_bits }
    ensures { result ≡ sum lengths.now }
{
    lengths.iter().sum()
}

// Fills the rows of the instruction scan. The scan shifts in ones, and expects 01 from the two
// lowest bits of each part. Each length must be at least 2, their sum at most `most_bits`, and the
// rows must have room for all bits.
fn fill_codes(lengths: &[u32], rows: &mut ScanRows)
    requires each { All (λ n. 2 ≤ n) lengths.now }
    requires total { sum lengths.now ≤ most_bits }
    requires room { EachHasRoom (λ room. sum lengths.now ≤ room) rows.old }
    ensures bits { HoldBits (bypass_bits lengths.now) rows.new }
    ensures kept { AreSameRows rows.old rows.new }
{
    let total = bits_of(lengths);
    fill_ones(total, rows.tdi);
    rows.tdo.clear(total);
    rows.mask.clear(total);
    set_captures(lengths, rows.tdo, rows.mask);
}

// Writes the instruction scan of the chain test. There must be at least one part. Each length must
// be at least 2, their sum at most `most_bits`, and the rows must have room for the scan.
fn write_codes<K: Sink>(
    lengths: &[u32],
    rows: &mut ScanRows,
    line: &mut Line,
    out: &mut K,
) -> Result<(), PutFault>
    requires some { 0 < length lengths.now }
    requires each { All (λ n. 2 ≤ n) lengths.now }
    requires total { sum lengths.now ≤ most_bits }
    requires room { EachHasRoom (λ room. sum lengths.now ≤ room) rows.old }
    ensures text { Puts (K.shown out.old) (K.shown out.new)
        (scan_text (record { ir = true; bits = bypass_bits lengths.now })) result }
    ensures kept { AreSameRows rows.old rows.new }
{
    fill_codes(lengths, rows);
    let shape = Shape {
        ir: true,
        compare: true,
    };
    write_scan(shape, rows.tdi, rows.tdo, rows.mask, line, out)
}

// Writes the data scan of the chain test for `parts` parts. There must be at most 255 parts, and
// the rows must have room for `parts + 8` bits.
fn write_marks<K: Sink>(
    parts: u32,
    rows: &mut ScanRows,
    line: &mut Line,
    out: &mut K,
) -> Result<(), PutFault>
    requires few { parts ≤ most_parts }
    requires room { EachHasRoom (λ room. parts + 8 ≤ room) rows.old }
    ensures text { Puts (K.shown out.old) (K.shown out.new)
        (scan_text (record { ir = false; bits = mark_bits parts })) result }
    ensures kept { AreSameRows rows.old rows.new }
{
    fill_marks(parts, rows);
    let shape = Shape {
        ir: false,
        compare: true,
    };
    write_scan(shape, rows.tdi, rows.tdo, rows.mask, line, out)
}

// Writes the two scans of the chain test. There must be 1 to 255 parts with lengths from 2 to 255
// bits, and the rows must have room for both scans.
fn write_scans<K: Sink>(
    lengths: &[u32],
    rows: &mut ScanRows,
    line: &mut Line,
    out: &mut K,
) -> Result<(), PutFault>
    requires some { 0 < length lengths.now }
    requires parts { length lengths.now ≤ most_parts }
    requires each { All IsInstructionLength lengths.now }
    requires room { EachHasRoom (IsChainRoom lengths.now) rows.old }
    ensures text { Puts (K.shown out.old) (K.shown out.new) (scan_texts (chain_scans lengths.now))
        result }
    ensures kept { AreSameRows rows.old rows.new }
{
    write_codes(lengths, rows, line, out)?;
    write_marks(lengths.len() as u32, rows, line, out)
}

/// Writes the two scans of the chain test for parts with these instruction lengths, in the order
/// from TDI to TDO. The first scan shifts ones, which mean BYPASS, into every instruction register,
/// and compares the 01 that each register loads in Capture-IR (IEEE 1149.1-1990, section 6). The
/// second scan shifts A5 (hexadecimal) through the bypass registers. With `n` parts, it expects A5
/// at TDO `n` bits later.
///
/// There must be 1 to 255 parts with lengths from 2 to 255 bits, and the rows must have room for
/// both scans. The call allocates nothing. The rows, and the buffer `line` for one line of text, are
/// scratch space. Their contents are unspecified afterwards. The call fails only if the sink fails.
/// The sink has then taken a prefix of the text.
pub fn write_chain<K: Sink>(
    lengths: &[u32],
    tdi: &mut Row,
    tdo: &mut Row,
    mask: &mut Row,
    line: &mut Line,
    out: &mut K,
) -> Result<(), PutFault>
    requires some { 0 < length lengths.now }
    requires parts { length lengths.now ≤ most_parts }
    requires each { All IsInstructionLength lengths.now }
    requires tdi_room { IsChainRoom lengths.now tdi.old.room }
    requires tdo_room { IsChainRoom lengths.now tdo.old.room }
    requires mask_room { IsChainRoom lengths.now mask.old.room }
    ensures text { Puts (K.shown out.old) (K.shown out.new) (scan_texts (chain_scans lengths.now))
        result }
    ensures tdi { tdi.new.room ≡ tdi.old.room }
    ensures tdo { tdo.new.room ≡ tdo.old.room }
    ensures mask { mask.new.room ≡ mask.old.room }
{
    write_scans(lengths, &mut ScanRows { tdi, tdo, mask }, line, out)
}
