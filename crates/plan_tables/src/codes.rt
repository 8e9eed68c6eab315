// Gives codes to the nets that some pass observes.
ghost use Rattle.std.specs.Prelude.{◌≡◌, ◌≤◌, ◌<◌, ℕ, false, true, suc, cond, length, fold, take, count_by, slice_index_or, IfOk, All};
ghost use Rattle.board_defs.specs.Limits.{most_nets};
ghost use Rattle.board_defs.specs.declared.board.Ctl.{Ctl as ControlRecord};
ghost use Rattle.board_defs.specs.Pins.{device_at, cell_count};
ghost use Rattle.board_defs.specs.Settings.{holds};
ghost use Rattle.plan_tables.specs.inner.Codes.{AreCodes, with_nets_marked, marked_on, seen_in};

use crate::controls::{DriverTable, controlled};
use crate::placed::PlacedBoard;
use crate::tables::{DriverCell, PassTables};
use board_defs::{Items, Setting};
use lists::mark;
use std::alloc::{AllocError, Global};

/// The codes of the nets, in net order, and the number of codes that are not 0.
#[derive(Drop)]
pub struct NetCodes {
    pub codes: Items<u32>,
    pub count: u32,
}

fn mark_all(flags: &mut [bool], cells: &[DriverCell])
    ensures { flags.new ≡ with_nets_marked flags.old cells.now }
{
    for cell in cells {
        mark(flags, cell.net as usize);
    }
}

fn mark_pass(placed: &PlacedBoard, table: &DriverTable, pass: &Setting, flags: &mut [bool])
    requires { (c : ControlRecord) → holds pass.now c ≡ true
        → c.cell < cell_count (device_at placed.now.board.now c.part) }
    ensures { flags.new ≡ marked_on placed.now.board.now table.now flags.old pass.now }
{
    mark_all(flags, table.always.as_slice());
    for c in pass.controls() {
        mark_all(
            flags,
            controlled(placed.board, placed.firsts, table.rows.as_slice(), *c),
        );
    }
}

fn mark_passes(placed: &PlacedBoard, table: &DriverTable, passes: &[Setting], flags: &mut [bool])
    requires { All
        (λ pass. (c : ControlRecord) → holds pass c ≡ true
        → c.cell < cell_count (device_at placed.now.board.now c.part)) passes.now }
    ensures { flags.new ≡ fold (marked_on placed.now.board.now table.now) flags.old passes.now }
{
    for pass in passes {
        mark_pass(placed, table, pass, flags);
    }
}

// Returns a flag for each of the first `nets` nets. The flag is true if the net has a driver cell in `tables`: one that
// all passes share, or one that belongs to one of these passes. Each control of a pass must be a cell of its part.
fn seen_nets(
    alloc: Global,
    placed: &PlacedBoard,
    nets: usize,
    tables: &PassTables,
    passes: &[Setting],
) -> Result<Vec<bool>, AllocError>
    requires { All
        (λ pass. (c : ControlRecord) → holds pass c ≡ true
        → c.cell < cell_count (device_at placed.now.board.now c.part)) passes.now }
    ensures { IfOk result
        (λ seen. seen.items
        ≡ seen_in placed.now.board.now nets tables.now.steady tables.now.by_control passes.now) }
{
    let mut seen = vec![in alloc; false; nets]?;
    mark_all(&mut seen, tables.steady.as_slice());
    mark_passes(placed, &tables.by_control, passes, &mut seen);
    Ok(seen)
}

// Returns the codes of the nets. A net whose flag in `seen` is false has code 0. The other nets are numbered from 1 in
// net order. There must be at most `most_nets` flags.
fn number_nets(alloc: Global, seen: &[bool]) -> Result<NetCodes, AllocError>
    requires { length seen.now ≤ most_nets }
    ensures { IfOk result (λ codes. AreCodes seen.now codes) }
{
    let mut codes = Vec::new(alloc);
    let mut count = 0;
    for is_seen in seen {
        if *is_seen {
            count += 1;
        }
        codes.push(if *is_seen { count } else { 0 })?;
    }
    Ok(NetCodes {
        codes: Items::of(codes),
        count,
    })
}

/// Returns the codes of a board's nets. `nets` is the number of nets, at most `most_nets`. The nets that have a driver
/// cell in `tables` for some pass are numbered from 1 in net order. If `tables` belongs to the passes, these are the
/// nets that some pass observes. Every other net has code 0. Each control of a pass must be a cell of its part.
pub fn net_codes(
    alloc: Global,
    placed: &PlacedBoard,
    nets: usize,
    tables: &PassTables,
    passes: &[Setting],
) -> Result<NetCodes, AllocError>
    requires few { nets ≤ most_nets }
    requires cells { All
        (λ pass. (c : ControlRecord) → holds pass c ≡ true
        → c.cell < cell_count (device_at placed.now.board.now c.part)) passes.now }
    ensures { IfOk result
        (λ codes. AreCodes
        (seen_in placed.now.board.now nets tables.now.steady tables.now.by_control passes.now)
        codes) }
{
    let seen = seen_nets(alloc, placed, nets, tables, passes)?;
    number_nets(alloc, &seen)
}
