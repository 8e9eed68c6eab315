// The driver cells of each control, which are the cells of the drivers that the control enables. To find the driver
// cells of a pass, look up each control of the pass here.
ghost use Rattle.std.specs.Prelude.{◌≡◌, ◌<◌, [], slice_index_or, IfOk, OnOk};
ghost use Rattle.board_defs.specs.Pins.{device_at, cell_count};
ghost use Rattle.plan_tables.specs.Tables.{AreFirsts, controlled};
ghost use Rattle.plan_tables.specs.inner.Building.{observers_noted, always_on_cells, table_of};

use crate::observers::Observer;
use crate::tables::DriverCell;
use board_defs::{Board, Ctl, Items};
use lists::{blank, note_where};
use net_pins::cell_position;
use std::alloc::{AllocError, Global};

/// The cells of the drivers that one control enables.
pub type ControlCells = Items<DriverCell>;

/// The cells of drivers by which passes observe nets. `always` has the cells of the drivers that are always on. `rows`
/// has an item for each position in data scans: the cells of the drivers that the control at this position enables.
#[derive(Drop)]
pub struct DriverTable {
    pub always: Items<DriverCell>,
    pub rows: Items<ControlCells>,
}

fn note_all(rows: &mut [ControlCells], observers: &[Observer]) -> Result<(), AllocError>
    ensures { OnOk result (rows.new ≡ observers_noted rows.old observers.now) }
{
    for observer in observers {
        note_where(rows, observer.control, observer.cell)?;
    }
    Ok(())
}

fn always_on(alloc: Global, observers: &[Observer]) -> Result<Vec<DriverCell>, AllocError>
    ensures { IfOk result (λ cells. cells.items ≡ always_on_cells observers.now) }
{
    let mut cells = Vec::new(alloc);
    for observer in observers {
        if observer.control.is_none() {
            cells.push(observer.cell)?;
        }
    }
    Ok(cells)
}

/// Returns the table of the cells of these drivers. Its `rows` has `bits` items, one for each position in data scans.
pub fn driver_table(
    alloc: Global,
    observers: &[Observer],
    bits: usize,
) -> Result<DriverTable, AllocError>
    ensures { IfOk result (λ table. table ≡ table_of observers.now bits) }
{
    let always = always_on(alloc, observers)?;
    let mut rows = blank(alloc, bits)?;
    note_all(&mut rows, observers)?;
    Ok(DriverTable {
        always: Items::of(always),
        rows: Items::of(rows),
    })
}

/// Returns the driver cells of the control whose cell has position `control`, or no cells if this position is past the
/// last item of `rows`.
fn cells_at(rows: &[ControlCells], control: usize) -> &[DriverCell]
    ensures { result.now ≡ slice_index_or rows.now control [] }
{
    match rows.get(control) {
        None => &[],
        Some(row) => row.as_slice(),
    }
}

/// Returns the driver cells of control `c`. `firsts` must have the position of each part's first bit in data scans. `c`
/// must be a cell of its part.
pub fn controlled<'a>(
    board: &Board,
    firsts: &[u32],
    rows: &'a [ControlCells],
    c: Ctl,
) -> &'a [DriverCell]
    requires firsts { AreFirsts board.now.chain firsts.now }
    requires cell { c.cell < cell_count (device_at board.now c.part) }
    ensures { result.now ≡ controlled board.now rows.now c }
{
    cells_at(rows, cell_position(board, firsts, c.part, c.cell) as usize)
}
