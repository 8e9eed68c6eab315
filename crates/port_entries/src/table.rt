// The table of entries. It has a row for each part. A row has a list of entries for each port bit of the part.
ghost use Rattle.std.specs.Prelude.{◌≡◌, [], length, slice_get, replicate, unwrap_or, IfOk, OnOk};
ghost use Rattle.board_defs.specs.BoardRules.{IsBoard};
ghost use Rattle.board_defs.specs.Pins.{described};
ghost use Rattle.port_entries.specs.Entries.{AreEntries, entries_at};
ghost use Rattle.port_entries.specs.inner.Rows.{entries_noted, part_rows, entry_rows};

use crate::bit_entries::{BitEntries, blank_row, note_cell};
use board_defs::{Cell, Items, Part, PartKind, PinAt, RawBoard, RawDevice};
use std::alloc::{AllocError, Global};

pub(crate) fn note_cells(
    alloc: Global,
    row: &mut [BitEntries],
    cells: &[Cell],
) -> Result<(), AllocError>
    ensures { OnOk result (row.new ≡ entries_noted row.old cells.now) }
{
    for cell in cells {
        note_cell(alloc, row, cell.bit, *cell)?;
    }
    Ok(())
}

fn device_row(alloc: Global, device: &RawDevice) -> Result<Items<BitEntries>, AllocError>
    ensures { IfOk result
        (λ row. row ≡ entries_noted (replicate (length device.now.bits) []) device.now.cells) }
{
    let mut row = blank_row(alloc, device.bits.len())?;
    note_cells(alloc, &mut row, device.cells.as_slice())?;
    Ok(Items::of(row))
}

fn part_rows(alloc: Global, kind: &PartKind) -> Result<Items<BitEntries>, AllocError>
    ensures { IfOk result (λ rows. rows ≡ part_rows (described kind.now)) }
{
    match kind.device() {
        None => Ok(Items::of(Vec::new(alloc))),
        Some(device) => device_row(alloc, device),
    }
}

/// Returns the rows of the table for these parts.
pub(crate) fn entry_rows(
    alloc: Global,
    chain: &[Part],
) -> Result<Items<Items<BitEntries>>, AllocError>
    ensures { IfOk result (λ rows. rows ≡ entry_rows chain.now) }
{
    let mut rows = Vec::with_capacity(alloc, chain.len())?;
    for part in chain {
        rows.push(part_rows(alloc, &part.kind)?)?;
    }
    Ok(Items::of(rows))
}

/// Returns the table of the entries of each port bit of each part of a board. The board must keep the rules of boards.
pub fn port_entries(alloc: Global, board: &RawBoard) -> Result<Items<Items<BitEntries>>, AllocError>
    requires { IsBoard board.now }
    ensures { IfOk result (λ rows. AreEntries board.now rows) }
{
    let rows = entry_rows(alloc, board.chain.as_slice())?;
    Ok(rows)
}

fn entries_there(row: &[BitEntries], bit: usize) -> &[Cell]
    ensures { result.now ≡ unwrap_or (slice_get row.now bit) [] }
{
    match row.get(bit) {
        None => &[],
        Some(entries) => entries.as_slice(),
    }
}

/// Returns the entries of the port bit at `at`, in the order of the device's list of entries. Returns no entries if the
/// table has no such port bit.
pub fn entries_at(rows: &[Items<BitEntries>], at: PinAt) -> &[Cell]
    ensures { result.now ≡ entries_at rows.now at }
{
    match rows.get(at.part as usize) {
        None => &[],
        Some(row) => entries_there(row.as_slice(), at.bit as usize),
    }
}
