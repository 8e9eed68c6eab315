// Makes the quiet row of a board. This data row disables every driver that has a control.
ghost use Rattle.std.specs.Prelude.{◌≡◌, ◌≤◌, ◌++◌, false, length, option_map, unwrap_or, IfOk, OnOk};
ghost use Rattle.board_defs.specs.Limits.{most_parts};
ghost use Rattle.board_defs.specs.DeviceRules.{is_reading, is_writing, IsDevice};
ghost use Rattle.board_defs.specs.Pins.{is_pinned};
ghost use Rattle.tap_defs.specs.chain.ShiftRegister.{filled};
ghost use Rattle.plan_tables.specs.inner.Laid.{bits_of_parts, part_laid, quiet_bits};
ghost use Rattle.plan_tables.specs.inner.QuietBits.{safe_value_in, is_driver, disable_value_in, set_some, set_by, quiet_values};

use crate::rows::row_of;
use board_defs::{Board, Cell, Part, PartKind, PinAt, RawBoard, RawDevice};
use bt_bits::Row;
use std::alloc::{AllocError, Global};

/// A cell of a device, and its bit.
#[derive(Clone, Copy)]
pub struct CellBit {
    pub cell: u32,
    pub bit: bool,
}

// Returns the cell and the safe value of a reading entry, with 0 for X. Returns None for any other entry.
fn reading_value(entry: Cell) -> Option<CellBit>
    ensures { result ≡ safe_value_in is_reading entry }
{
    if entry.role.is_reading() {
        Some(CellBit {
            cell: entry.num,
            bit: entry.safe.bit(),
        })
    } else {
        None
    }
}

// Returns the cell and the safe value of an entry that takes its value from the cell's update latch, with 0 for X.
// Returns None for any other entry.
fn writing_value(entry: Cell) -> Option<CellBit>
    ensures { result ≡ safe_value_in is_writing entry }
{
    if entry.role.is_writing() {
        Some(CellBit {
            cell: entry.num,
            bit: entry.safe.bit(),
        })
    } else {
        None
    }
}

fn is_pinned(raw: &RawBoard, part: u32, bit: Option<u32>) -> bool
    ensures { result
        ≡ unwrap_or (option_map (λ b. is_pinned raw.now (record { part = part; bit = b })) bit)
        false }
{
    match bit {
        None => false,
        Some(bit) => raw.is_pinned(PinAt { part, bit }),
    }
}

fn is_driver(raw: &RawBoard, part: u32, entry: Cell) -> bool
    ensures { result ≡ is_driver raw.now part entry }
{
    entry.role.is_driving() && is_pinned(raw, part, entry.bit)
}

// Returns the control cell and the disable value of a driver's entry. Returns None if the entry does not belong to a
// driver, or if it has no control.
fn disable_value(raw: &RawBoard, part: u32, entry: Cell) -> Option<CellBit>
    ensures { result ≡ disable_value_in raw.now part entry }
{
    if is_driver(raw, part, entry) {
        entry.ctl.map(|control| CellBit {
            cell: control.cell,
            bit: control.disable,
        })
    } else {
        None
    }
}

fn set_some(row: &mut [bool], value: Option<CellBit>)
    ensures { row.new ≡ set_some row.old value }
{
    if let Some(value) = value {
        let cell = value.cell as usize;
        if cell < row.len() {
            row[cell] = value.bit;
        }
    }
}

fn set_reading(entries: &[Cell], row: &mut [bool])
    ensures { row.new ≡ set_by (safe_value_in is_reading) row.old entries.now }
{
    for entry in entries {
        set_some(row, reading_value(*entry));
    }
}

fn set_writing(entries: &[Cell], row: &mut [bool])
    ensures { row.new ≡ set_by (safe_value_in is_writing) row.old entries.now }
{
    for entry in entries {
        set_some(row, writing_value(*entry));
    }
}

fn set_disabled(raw: &RawBoard, part: u32, entries: &[Cell], row: &mut [bool])
    ensures { row.new ≡ set_by (disable_value_in raw.now part) row.old entries.now }
{
    for entry in entries {
        set_some(row, disable_value(raw, part, *entry));
    }
}

// Returns the bits of a device in the quiet row. Walks over the entries three times. Each walk overwrites bits of the
// earlier walks.
fn device_row(
    alloc: Global,
    raw: &RawBoard,
    part: u32,
    device: &RawDevice,
) -> Result<Vec<bool>, AllocError>
    ensures { IfOk result (λ row. row.items ≡ quiet_values raw.now part device.now) }
{
    let entries = device.cells.as_slice();
    let mut row = vec![in alloc; false; device.boundary as usize]?;
    set_reading(entries, &mut row);
    set_writing(entries, &mut row);
    set_disabled(raw, part, entries, &mut row);
    Ok(row)
}

fn push_device(
    alloc: Global,
    raw: &RawBoard,
    part: u32,
    device: &RawDevice,
    quiet: &mut Vec<bool>,
) -> Result<(), AllocError>
    requires { IsDevice device.now }
    ensures { OnOk result
        (quiet.new.items
        ≡ quiet.old.items
        ++ filled device.now.boundary (λ cell. quiet_bits raw.now part device.now cell)) }
{
    let row = device_row(alloc, raw, part, device)?;
    quiet.extend_from_slice(&row)?;
    Ok(())
}

fn push_part(
    alloc: Global,
    raw: &RawBoard,
    part: u32,
    kind: &PartKind,
    quiet: &mut Vec<bool>,
) -> Result<(), AllocError>
    ensures { OnOk result
        (quiet.new.items ≡ quiet.old.items ++ part_laid (quiet_bits raw.now) part kind.now) }
{
    match kind {
        PartKind::Described(device) => push_device(alloc, raw, part, device.raw(), quiet),
        PartKind::Bypass(_) => {
            quiet.push(false)?;
            Ok(())
        }
    }
}

fn board_bits(alloc: Global, raw: &RawBoard, chain: &[Part]) -> Result<Vec<bool>, AllocError>
    requires chain { chain.now ≡ raw.now.chain }
    requires few { length chain.now ≤ most_parts }
    ensures { IfOk result (λ quiet. quiet.items ≡ bits_of_parts (quiet_bits raw.now) raw.now) }
{
    let mut quiet = Vec::new(alloc);
    for part in (0..chain.len()).rev() {
        push_part(alloc, raw, part as u32, &chain[part].kind, &mut quiet)?;
    }
    Ok(quiet)
}

/// Returns the quiet row. In it, each cell that controls a driver has the disable value, and every other cell has its
/// safe value, with 0 for X. The single bit of a part without a description is 0.
pub fn quiet_row(alloc: Global, board: &Board) -> Result<Row, AllocError>
    ensures { IfOk result (λ quiet. quiet.bits ≡ bits_of_parts (quiet_bits board.now) board.now) }
{
    let raw = board.raw();
    let bits = board_bits(alloc, raw, raw.chain.as_slice())?;
    row_of(alloc, &bits)
}
