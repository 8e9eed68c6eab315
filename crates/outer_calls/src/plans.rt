//! Calls of `scan_planner`, `btest_core`, `plan_tables` and `walk_test` that make the plan of a board's test, fill rows with a scan of this
//! test, return the quiet row of a plan and the cell of a control, and make a board's walking test.
ghost use Rattle.std.specs.Prelude.{◌≡◌, ◌<◌, ◌^◌, length, slice_get, IfOk};
ghost use Rattle.board_defs.specs.declared.board.RawBoard.{RawBoard};
ghost use Rattle.board_defs.specs.Passes.{passes_of};
ghost use Rattle.board_defs.specs.Pins.{cell_count, data_bits, device_at};
ghost use Rattle.net_classes.specs.Kept.{AreClasses};
ghost use Rattle.plan_tables.specs.Tables.{AreFirsts, held_cell};
ghost use Rattle.tap_defs.specs.board.BoardScans.{first_row_scan, row_bits};
ghost use Rattle.tap_defs.specs.chain.Scan.{joined, tdi_bits};
ghost use Rattle.scan_planner.specs.Plans.{ArePlannable, FillsScan, IsPlanOf, IsRoom, scan_count};
ghost use Rattle.walk_test.specs.Tables.{IsWalkOf};

use board_defs::{Board, Ctl, Setting};
use bt_bits::Row;
use net_classes::Classes;
use plan_tables::HeldCell;
use scan_planner::Plan;
use std::alloc::{AllocError, Global};
use tap_defs::Shape;
use walk_test::Walk;

/// Returns the plan of the passes. There must be fewer than 2^32 passes. Each pass must be safe, and each of its controls must control a
/// driver of the board.
pub fn plan(alloc: Global, board: &Board, passes: Vec<Setting>) -> Result<Plan, AllocError>
    requires few { length passes.items < 2 ^ 32 }
    requires plannable { ArePlannable board.now passes.items }
    ensures plan { IfOk result (λ plan. IsPlanOf board.now plan) }
    ensures passes { IfOk result (λ plan. plan.passes ≡ passes.items) }
{
    Plan::new(alloc, board, passes)
}

/// Returns the plan of the board's test. `classes` must be the classes of the board, which say what the board's nets, pins and controls can
/// do in safe settings.
pub fn board_plan(alloc: Global, board: &Board, classes: &Classes) -> Result<Plan, AllocError>
    requires { AreClasses board.now classes.now }
    ensures plan { IfOk result (λ plan. IsPlanOf board.now plan) }
    ensures passes { IfOk result (λ plan. plan.passes ≡ passes_of board.now) }
{
    btest_core::plan(alloc, board, classes)
}

/// Fills the rows with the bits of scan `k` of the plan's test, counted from 0, and returns the shape of the scan: whether it is an
/// instruction scan, and whether it compares bits. The plan must be a plan of the board, and `k` must be below the number of scans. Each
/// row must have room for an instruction scan and for a data scan.
pub fn fill(
    board: &Board,
    plan: &Plan,
    k: u64,
    tdi: &mut Row,
    tdo: &mut Row,
    mask: &mut Row,
) -> Shape
    requires plan { IsPlanOf board.now plan.now }
    requires scan { k < scan_count plan.now }
    requires tdi_room { IsRoom board.now tdi.old.room }
    requires tdo_room { IsRoom board.now tdo.old.room }
    requires mask_room { IsRoom board.now mask.old.room }
    ensures filled { FillsScan board.now plan.now.passes plan.now.width k result tdi.new.bits
        tdo.new.bits mask.new.bits }
    ensures tdi_kept { tdi.new.room ≡ tdi.old.room }
    ensures tdo_kept { tdo.new.room ≡ tdo.old.room }
    ensures mask_kept { mask.new.room ≡ mask.old.room }
{
    plan.fill(board, k, tdi, tdo, mask)
}

/// Returns the plan's quiet row, which the second scan and the last scan of each pass shift in.
pub fn quiet_row(plan: &Plan) -> &Row
    ensures row { result.now ≡ plan.now.quiet }
    ensures shifted { (board : RawBoard) → IsPlanOf board plan.now
        → result.now.bits ≡ tdi_bits (joined (row_bits board first_row_scan)) }
{
    plan.quiet_row()
}

/// Returns the position of a control's cell in data scans, and the opposite of the cell's bit in `quiet`. `firsts` must have the position
/// of each part's first bit in data scans, and `quiet` must be as long as a data scan. The control must be a cell of its part.
pub fn held_cell(board: &Board, firsts: &[u32], quiet: &Row, c: Ctl) -> HeldCell
    requires firsts { AreFirsts board.now.chain firsts.now }
    requires quiet { length quiet.now.bits ≡ data_bits board.now }
    requires cell { c.cell < cell_count (device_at board.now c.part) }
    ensures value { result ≡ held_cell board.now quiet.now.bits c }
    ensures within { result.position < data_bits board.now }
{
    plan_tables::held_cell(board, firsts, quiet, c)
}

/// Returns the walking test of the board. It uses only the first of `passes`, which must be the first pass of the board's test. If that
/// test has no pass, `passes` must be empty.
pub fn walk(alloc: Global, board: &Board, passes: &[Setting]) -> Result<Walk, AllocError>
    requires { slice_get passes.now 0 ≡ slice_get (passes_of board.now) 0 }
    ensures { IfOk result (λ walk. IsWalkOf board.now walk) }
{
    Walk::new(alloc, board, passes)
}
