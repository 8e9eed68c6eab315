// Finds the cells of the controls of all passes, and the driver cells that are the same in all passes. An observer is a
// driver by which its net can be observed.
ghost use Rattle.std.specs.Prelude.{◌≡◌, ◌+◌, ◌<◌, ◌^◌, true, false, length, slice_index_or, IfOk, OnOk, All};
ghost use Rattle.board_defs.specs.declared.board.Ctl.{Ctl as ControlRecord};
ghost use Rattle.board_defs.specs.Pins.{device_at, cell_count, data_bits};
ghost use Rattle.board_defs.specs.Settings.{holds};
ghost use Rattle.plan_tables.specs.inner.Steady.{marked_held, all_marked, held_by, run_at, all_run, AreRuns, AreUses, is_common, is_steady, steady_cells, moving};

use crate::held::held_cells;
use crate::observers::Observer;
use crate::placed::PlacedBoard;
use crate::tables::{DriverCell, HeldCell};
use board_defs::{Items, Setting};
use bt_bits::Row;
use lists::{is_set, mark};
use std::alloc::{AllocError, Global};

/// For each position in data scans, `held` says whether some pass has a control whose cell is there. `runs` has the
/// *run* of each position: the largest number `r` for which each of the first `r` passes has a control whose cell is
/// there.
#[derive(Drop)]
pub struct Uses {
    pub held: Items<bool>,
    pub runs: Items<u32>,
}

fn mark_held(flags: &mut [bool], held: &[HeldCell])
    ensures { flags.new ≡ marked_held flags.old held.now }
{
    for cell in held {
        mark(flags, cell.position as usize);
    }
}

// Updates the run of a position for pass `k`, which has a control whose cell is there. The run grows by one
// if it is `k`, that is, if all earlier passes have such a control. Does nothing if the position is past the
// end. `k + 1` must be below 2^32.
fn run(runs: &mut [u32], k: u32, position: usize)
    requires { k + 1 < 2 ^ 32 }
    ensures { runs.new ≡ run_at k runs.old position }
{
    if position < runs.len() {
        if runs[position] == k {
            runs[position] = k + 1;
        }
    }
}

fn run_all(runs: &mut [u32], k: u32, held: &[HeldCell])
    requires { k + 1 < 2 ^ 32 }
    ensures { runs.new ≡ all_run k runs.old held.now }
{
    for cell in held {
        run(runs, k, cell.position as usize);
    }
}

// Sets the flags in `held` and extends the runs in `runs` for the controls of these passes. Before the call, each item
// of `runs` must be at most the run of its position, for example 0. `quiet` must be as long as a data scan. Each
// control must be a cell of its part. There must be fewer than 2^32 passes.
fn note_passes(
    alloc: Global,
    placed: &PlacedBoard,
    quiet: &Row,
    passes: &[Setting],
    held: &mut [bool],
    runs: &mut [u32],
) -> Result<(), AllocError>
    requires quiet { length quiet.now.bits ≡ data_bits placed.now.board.now }
    requires few { length passes.now < 2 ^ 32 }
    requires cells { All
        (λ pass. (c : ControlRecord) → holds pass c ≡ true
        → c.cell < cell_count (device_at placed.now.board.now c.part)) passes.now }
    requires runs { AreRuns (held_by placed.now.board.now quiet.now.bits passes.now) runs.old }
    ensures held { OnOk result
        (held.new ≡ all_marked placed.now.board.now quiet.now.bits held.old passes.now) }
    ensures runs { OnOk result
        (AreRuns (held_by placed.now.board.now quiet.now.bits passes.now) runs.new) }
{
    for k in 0..passes.len() {
        let cells = held_cells(alloc, placed, quiet, &passes[k])?;
        mark_held(held, cells.as_slice());
        run_all(runs, k as u32, cells.as_slice());
    }
    Ok(())
}

/// Returns the positions of the cells of the passes' controls, and the run of each position. `quiet` must be as long as
/// a data scan. Each control must be a cell of its part. There must be fewer than 2^32 passes.
pub fn uses_of(
    alloc: Global,
    placed: &PlacedBoard,
    quiet: &Row,
    passes: &[Setting],
) -> Result<Uses, AllocError>
    requires quiet { length quiet.now.bits ≡ data_bits placed.now.board.now }
    requires few { length passes.now < 2 ^ 32 }
    requires cells { All
        (λ pass. (c : ControlRecord) → holds pass c ≡ true
        → c.cell < cell_count (device_at placed.now.board.now c.part)) passes.now }
    ensures { IfOk result (λ uses. AreUses placed.now.board.now quiet.now.bits passes.now uses) }
{
    let bits = quiet.len() as usize;
    let mut held = vec![in alloc; false; bits]?;
    let mut runs = vec![in alloc; 0u32; bits]?;
    note_passes(alloc, placed, quiet, passes, &mut held, &mut runs)?;
    Ok(Uses {
        held: Items::of(held),
        runs: Items::of(runs),
    })
}

fn run_of(runs: &[u32], position: usize) -> u32
    ensures { result ≡ slice_index_or runs.now position 0 }
{
    match runs.get(position) {
        None => 0,
        Some(run) => *run,
    }
}

fn is_common(uses: &Uses, passes: u32, control: Option<u32>) -> bool
    ensures { result ≡ is_common uses.now passes control }
{
    match control {
        None => true,
        Some(position) => run_of(uses.runs.as_slice(), position as usize) == passes,
    }
}

// Returns whether the observer is steady. It is if three conditions hold: `passes` is not 0, no pass has the observer's
// own cell as a control, and the observer has no control or the run of its control's position is exactly `passes`. If
// `passes` is the number of passes, every pass then enables the observer.
fn is_steady(uses: &Uses, passes: u32, observer: Observer) -> bool
    ensures { result ≡ is_steady uses.now passes observer }
{
    if passes == 0 || is_set(uses.held.as_slice(), observer.cell.position as usize) {
        return false;
    }
    is_common(uses, passes, observer.control)
}

/// Returns the cells of the steady observers. `passes` must be the number of passes. An observer is steady if there is
/// at least one pass, every pass enables the observer, and no pass has the observer's own cell as a control.
pub fn steady_cells(
    alloc: Global,
    uses: &Uses,
    passes: u32,
    observers: &[Observer],
) -> Result<Items<DriverCell>, AllocError>
    ensures { IfOk result (λ cells. cells ≡ steady_cells uses.now passes observers.now) }
{
    let mut cells = Vec::new(alloc);
    for observer in observers {
        if is_steady(uses, passes, *observer) {
            cells.push(observer.cell)?;
        }
    }
    Ok(Items::of(cells))
}

/// Returns the observers that are not steady. `passes` must be the number of passes.
pub fn moving(
    alloc: Global,
    uses: &Uses,
    passes: u32,
    observers: &[Observer],
) -> Result<Items<Observer>, AllocError>
    ensures { IfOk result (λ others. others ≡ moving uses.now passes observers.now) }
{
    let mut others = Vec::new(alloc);
    for observer in observers {
        if !is_steady(uses, passes, *observer) {
            others.push(*observer)?;
        }
    }
    Ok(Items::of(others))
}
