// Keeps rows and drivers of a test's passes, so that many logs of the test can share them. No pass observes a
// guarded net, for example a net that carries a supply.
ghost use Rattle.std.specs.Prelude.{◌≡◌, ◌<◌, ◌≤◌, length, slice_get, IfOk};
ghost use Rattle.fault_sim.specs.Kept.{IsComparedRow, AreComparedRows, AreDrivers, KeepRows, KeepDrivers};
ghost use Rattle.fault_sim.specs.Planned.{controls_of};
ghost use Rattle.fault_sim.specs.inner.Kept.{kept_drivers, rows_of_kept};
ghost use Rattle.fault_sim.specs.inner.Marks.{HasScanRoom};

use crate::board_test::BoardTest;
use crate::feed::EnabledDriver;
use crate::fits::net_count;
use crate::passes::TestPass;
use board_defs::{Board, Items};
use bt_bits::Row;
use scan_planner::Plan;
use std::alloc::{AllocError, Global};

// The approximate limit on the bytes of all kept passes.
const MOST: u64 = 64 << 20;

/// The expected bits of a row, and the positions at which a log is compared with them.
#[derive(Drop)]
pub struct ComparedRow {
    pub tdo: Row,
    pub mask: Row,
}

/// A kept pass. Item `j` of `rows` is row `j` of the pass. Item `n` of `drivers` is the driver that the pass enables on
/// net `n`, or `None` if it enables none or the net is guarded.
#[derive(Drop)]
pub struct KeptPass {
    pub rows: Items<ComparedRow>,
    pub drivers: Items<Option<EnabledDriver>>,
}

/// Returns an empty row with room for a data scan.
pub fn empty_row(alloc: Global, board: &Board) -> Result<ComparedRow, AllocError>
    ensures { IfOk result (HasScanRoom board.now) }
{
    let room = board.dr_bits();
    Ok(ComparedRow {
        tdo: Row::with_room(alloc, room)?,
        mask: Row::with_room(alloc, room)?,
    })
}

impl<'a> TestPass<'a> {
    // Returns row `j` of the pass, in newly allocated memory. `j` must be below the number of rows of a pass.
    fn new_row(&self, alloc: Global, j: u32) -> Result<ComparedRow, AllocError>
        requires { j < self.now.test.plan.width }
        ensures { IfOk result
            (IsComparedRow self.now.test.board self.now.test.plan self.now.number j) }
    {
        let mut row = empty_row(alloc, self.board())?;
        self.fill_row(j, &mut row);
        Ok(row)
    }

    // Returns all rows of the pass.
    fn new_rows(&self, alloc: Global) -> Result<Vec<ComparedRow>, AllocError>
        ensures { IfOk result
            (λ rows. AreComparedRows self.now.test.board self.now.test.plan self.now.number
            rows.items) }
    {
        let mut rows = Vec::new(alloc);
        for j in 0..self.plan().width() {
            rows.push(self.new_row(alloc, j)?)?;
        }
        Ok(rows)
    }

    // Returns, for each of the first `nets` nets, the driver that the pass enables on the net, or `None` if
    // it enables none or the net is guarded.
    fn drivers_of(&self, alloc: Global, nets: u32) -> Result<Vec<Option<EnabledDriver>>, AllocError>
        ensures { IfOk result
            (λ drivers. AreDrivers self.now.test.plan (controls_of self.now) drivers.items) }
    {
        let mut drivers = Vec::with_capacity(alloc, nets as usize)?;
        for n in 0..nets {
            drivers.push(self.driver(n))?;
        }
        Ok(drivers)
    }

    // Returns this pass as a kept pass, with all its rows and the driver of each net.
    fn keep(&self, alloc: Global) -> Result<KeptPass, AllocError>
        ensures rows { IfOk result
            (λ pass. AreComparedRows self.now.test.board self.now.test.plan self.now.number
            pass.rows) }
        ensures drivers { IfOk result
            (λ pass. AreDrivers self.now.test.plan (controls_of self.now) pass.drivers) }
    {
        let rows = self.new_rows(alloc)?;
        let drivers = self.drivers_of(alloc, net_count(self.board()))?;
        Ok(KeptPass {
            rows: Items::of(rows),
            drivers: Items::of(drivers),
        })
    }
}

// Returns the approximate number of bytes of a kept pass, including the overhead of its lists and rows.
fn pass_bytes(board: &Board, plan: &Plan) -> u64
    ensures { 0 < result }
{
    let row = 2 * (u64::from(board.dr_bits()) / 4 + 64);
    128 + u64::from(plan.width()) * row + 24 * u64::from(net_count(board))
}

// Returns the number of passes to keep for `logs` logs. A single log uses each pass only once, so no pass is kept for it.
fn kept_count(board: &Board, plan: &Plan, logs: usize) -> u32
    ensures { result ≤ length plan.now.passes }
{
    if logs < 2 {
        return 0;
    }
    let most = MOST / pass_bytes(board, plan);
    plan.pass_count().min(most as u32)
}

impl<'a> BoardTest<'a> {
    /// Returns the passes that `with_kept_passes` keeps.
    pub(crate) fn kept_passes(
        &self,
        alloc: Global,
        logs: usize,
    ) -> Result<Vec<KeptPass>, AllocError>
        ensures rows { IfOk result (λ kept. KeepRows self.now.board self.now.plan kept.items) }
        ensures drivers { IfOk result (λ kept. KeepDrivers self.now.plan kept.items) }
    {
        let mut kept = Vec::new(alloc);
        for x in 0..kept_count(self.board(), self.plan(), logs) {
            let pass = self.pass(x);
            kept.push(pass.keep(alloc)?)?;
        }
        Ok(kept)
    }
}

/// Returns the kept rows of pass `x`, or no rows if the pass is not kept.
pub fn kept_rows(kept: &[KeptPass], x: u32) -> &[ComparedRow]
    ensures { result.now ≡ rows_of_kept kept.now x }
{
    match kept.get(x as usize) {
        None => &[],
        Some(pass) => pass.rows.as_slice(),
    }
}

/// Returns the kept drivers of pass `x`, net by net, or no drivers if the pass is not kept.
pub fn kept_drivers(kept: &[KeptPass], x: u32) -> &[Option<EnabledDriver>]
    ensures { result.now ≡ kept_drivers kept.now x }
{
    match kept.get(x as usize) {
        None => &[],
        Some(pass) => pass.drivers.as_slice(),
    }
}

/// Returns the kept driver of a net. The outer option is `None` if the pass keeps no entry for the net. The
/// inner option is `None` if the pass enables no driver on the net or the net is guarded.
pub fn kept_driver(kept: &[Option<EnabledDriver>], net: u32) -> Option<Option<EnabledDriver>>
    ensures { result ≡ slice_get kept.now net }
{
    match kept.get(net as usize) {
        None => None,
        Some(driver) => Some(*driver),
    }
}
