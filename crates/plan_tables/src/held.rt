// Finds the cells of the controls of a pass.
ghost use Rattle.std.specs.Prelude.{◌≡◌, ◌<◌, true, length, map, IfOk};
ghost use Rattle.board_defs.specs.declared.board.Ctl.{Ctl as ControlRecord};
ghost use Rattle.board_defs.specs.Pins.{device_at, cell_count, data_bits};
ghost use Rattle.board_defs.specs.Settings.{holds};
ghost use Rattle.plan_tables.specs.Tables.{AreFirsts, held_cell};

use crate::placed::PlacedBoard;
use crate::tables::HeldCell;
use board_defs::{Board, Ctl, Items, Setting};
use bt_bits::Row;
use net_pins::cell_position;
use std::alloc::{AllocError, Global};

/// Returns the position of a control's cell, and the opposite of the cell's bit in `quiet`. If `quiet` is the quiet
/// row, which disables every driver that has a control, this opposite bit enables the control's drivers. `firsts` must
/// have the position of each part's first bit in data scans, and `quiet` must be as long as a data scan. The control
/// must be a cell of its part.
pub fn held_cell(board: &Board, firsts: &[u32], quiet: &Row, c: Ctl) -> HeldCell
    requires firsts { AreFirsts board.now.chain firsts.now }
    requires quiet { length quiet.now.bits ≡ data_bits board.now }
    requires cell { c.cell < cell_count (device_at board.now c.part) }
    ensures value { result ≡ held_cell board.now quiet.now.bits c }
    ensures within { result.position < data_bits board.now }
{
    let _ = board.raw();
    let position = cell_position(board, firsts, c.part, c.cell);
    HeldCell {
        position,
        bit: !quiet.get(position),
    }
}

/// Returns the `held_cell` of each control of a pass, in control order. `quiet` must be as long as a data scan. Each
/// control must be a cell of its part.
pub fn held_cells(
    alloc: Global,
    placed: &PlacedBoard,
    quiet: &Row,
    pass: &Setting,
) -> Result<Items<HeldCell>, AllocError>
    requires quiet { length quiet.now.bits ≡ data_bits placed.now.board.now }
    requires cells { (c : ControlRecord) → holds pass.now c ≡ true
        → c.cell < cell_count (device_at placed.now.board.now c.part) }
    ensures { IfOk result
        (λ cells. cells ≡ map (held_cell placed.now.board.now quiet.now.bits) pass.now) }
{
    let mut cells = Vec::new(alloc);
    for c in pass.controls() {
        cells.push(held_cell(placed.board, placed.firsts, quiet, *c))?;
    }
    Ok(Items::of(cells))
}
