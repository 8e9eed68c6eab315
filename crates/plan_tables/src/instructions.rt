// Makes the rows (TDI, TDO and mask) of the two instruction scans. One scan shifts in the preload codes, and the other
// the EXTEST codes.
ghost use Rattle.std.specs.Prelude.{◌≡◌, ◌+◌, ◌<◌, ◌≤◌, ◌++◌, List, Bool, map, length, replicate, drop, IfOk, OnOk};
ghost use Rattle.board_defs.specs.Limits.{most_bits};
ghost use Rattle.board_defs.specs.declared.board.PartKind.TheVariants.{Described};
ghost use Rattle.board_defs.specs.DeviceRules.{bit_of};
ghost use Rattle.board_defs.specs.BoardRules.{IsBoard};
ghost use Rattle.tap_defs.specs.chain.Scan.{tdi_bits, tdo_bits, mask_bits};
ghost use Rattle.tap_defs.specs.chain.ScanRows.{AreRowsOf};
ghost use Rattle.tap_defs.specs.chain.Codes.{code_bits, instructs};
ghost use Rattle.tap_defs.specs.board.BoardScans.{preload_code, extest_code};
ghost use Rattle.plan_tables.specs.inner.Codes.{code_for, HaveCodes, captured_bits, compared_code_bits};

use crate::rows::row_of;
use board_defs::{Board, Device, Part, PartKind, Symbol};
use std::alloc::{AllocError, Global};
use tap_defs::StoredRows;

/// The instruction that a scan loads into described parts: the one that preloads the boundary register, or EXTEST.
#[derive(Clone, Copy)]
pub enum Instruction {
    Preload,
    Extest,
}

fn push_symbols(symbols: &[Symbol], tdi: &mut Vec<bool>) -> Result<(), AllocError>
    ensures { OnOk result (tdi.new.items ≡ tdi.old.items ++ map bit_of symbols.now) }
{
    for symbol in symbols {
        tdi.push(symbol.bit())?;
    }
    Ok(())
}

fn push_same(count: u32, bit: bool, bits: &mut Vec<bool>) -> Result<(), AllocError>
    ensures { OnOk result (bits.new.items ≡ bits.old.items ++ replicate count bit) }
{
    for _ in 0..count {
        bits.push(bit)?;
    }
    Ok(())
}

fn push_device(
    instruction: Instruction,
    device: &Device,
    tdi: &mut Vec<bool>,
) -> Result<(), AllocError>
    ensures { OnOk result
        (tdi.new.items ≡ tdi.old.items ++ code_for instruction (Described device.now)) }
{
    let raw = device.raw();
    match instruction {
        Instruction::Preload => push_symbols(raw.sample.symbols(), tdi),
        Instruction::Extest => push_symbols(raw.extest.symbols(), tdi),
    }
}

// Appends the code of the part. A part without a description gets a code of ones, which means BYPASS.
fn push_code(
    instruction: Instruction,
    kind: &PartKind,
    tdi: &mut Vec<bool>,
) -> Result<(), AllocError>
    ensures { OnOk result (tdi.new.items ≡ tdi.old.items ++ code_for instruction kind.now) }
{
    match kind {
        PartKind::Described(device) => push_device(instruction, device, tdi),
        PartKind::Bypass(length) => push_same(*length, true, tdi),
    }
}

// Appends the expected bits of a part's instruction register to `tdo`, and their mask to `mask`. Only the two bits
// nearest TDO are compared. They must be a 1 and then, one bit farther from TDO, a 0. `length` must be at least 2.
fn push_capture(length: u32, tdo: &mut Vec<bool>, mask: &mut Vec<bool>) -> Result<(), AllocError>
    requires { 2 ≤ length }
    ensures tdo { OnOk result (tdo.new.items ≡ tdo.old.items ++ captured_bits length) }
    ensures mask { OnOk result (mask.new.items ≡ mask.old.items ++ compared_code_bits length) }
{
    tdo.push(true)?;
    push_same(length - 1, false, tdo)?;
    push_same(2, true, mask)?;
    push_same(length - 2, false, mask)
}

// Returns these bits as stored rows. Each row must have at most `most_bits` bits.
fn stored(
    alloc: Global,
    tdi: &[bool],
    tdo: &[bool],
    mask: &[bool],
) -> Result<StoredRows, AllocError>
    requires tdi { length tdi.now ≤ most_bits }
    requires tdo { length tdo.now ≤ most_bits }
    requires mask { length mask.now ≤ most_bits }
    ensures { IfOk result
        (λ rows. (rows.tdi.bits ≡ tdi.now) × (rows.tdo.bits ≡ tdo.now)
        × (rows.mask.bits ≡ mask.now)) }
{
    let tdi = row_of(alloc, tdi)?;
    let tdo = row_of(alloc, tdo)?;
    let mask = row_of(alloc, mask)?;
    Ok(StoredRows { tdi, tdo, mask })
}

fn rows_of(
    alloc: Global,
    instruction: Instruction,
    chain: &[Part],
) -> Result<StoredRows, AllocError>
    requires coded { HaveCodes instruction chain.now }
    requires few { length
        ((instructs (map (λ part. code_for instruction part.kind) chain.now)).bits) ≤ most_bits }
    ensures { IfOk result
        (λ rows. AreRowsOf
        ((instructs (map (λ part. code_for instruction part.kind) chain.now)).bits) rows) }
{
    let mut tdi = Vec::new(alloc);
    let mut tdo = Vec::new(alloc);
    let mut mask = Vec::new(alloc);
    for i in (0..chain.len()).rev() {
        let kind = &chain[i].kind;
        push_code(instruction, kind, &mut tdi)?;
        push_capture(kind.instruction_length(), &mut tdo, &mut mask)?;
    }
    stored(alloc, &tdi, &tdo, &mask)
}

/// Returns the rows of an instruction scan. The scan loads this instruction into each described part, and BYPASS into
/// the other parts.
pub fn instruction_rows(
    alloc: Global,
    instruction: Instruction,
    board: &Board,
) -> Result<StoredRows, AllocError>
    ensures { IfOk result
        (λ rows. AreRowsOf
        ((instructs (map (λ part. code_for instruction part.kind) board.now.chain)).bits) rows) }
{
    rows_of(alloc, instruction, board.raw().chain.as_slice())
}
