// The entries of one port bit. A board has tens of thousands of port bits. Most of them have one entry, or one
// entry that reads and one that drives. So the type allocates no memory for up to two items.
ghost use Rattle.std.specs.Prelude.{◌≡◌, [], replicate, Some, IfOk, OnOk};
ghost use Rattle.lists.specs.Rows.{noted};

use board_defs::Cell;
use few_items::Few;
use std::alloc::{AllocError, Global};

/// The entries of a port bit, in the order of the device's list of entries.
pub type BitEntries = Few<Cell>;

/// Returns a row of the table for a part with `count` port bits. The row has an empty list of entries for each port
/// bit.
pub(crate) fn blank_row(alloc: Global, count: usize) -> Result<Vec<BitEntries>, AllocError>
    ensures { IfOk result (λ row. row.items ≡ replicate count []) }
{
    let mut row = Vec::with_capacity(alloc, count)?;
    for _place in 0..count {
        row.push(Few::none())?;
    }
    Ok(row)
}

/// Adds the entry to the entries of port bit number `place`. Does nothing if the row has no such port bit.
fn note(alloc: Global, row: &mut [BitEntries], place: usize, cell: Cell) -> Result<(), AllocError>
    ensures { OnOk result (row.new ≡ noted row.old (Some place) cell) }
{
    if place < row.len() {
        row[place].push(alloc, cell)?;
    }
    Ok(())
}

/// Adds the entry to the entries of port bit number `place`. Does nothing if `place` is None, or if the row has no such
/// port bit.
pub(crate) fn note_cell(
    alloc: Global,
    row: &mut [BitEntries],
    place: Option<u32>,
    cell: Cell,
) -> Result<(), AllocError>
    ensures { OnOk result (row.new ≡ noted row.old place cell) }
{
    match place {
        None => Ok(()),
        Some(place) => note(alloc, row, place as usize, cell),
    }
}
