// The plan of a board's test.
ghost use Rattle.std.specs.Prelude.{◌≡◌, IfOk};
ghost use Rattle.board_defs.specs.Passes.{passes_of};
ghost use Rattle.net_classes.specs.Kept.{AreClasses};
ghost use Rattle.net_pins.specs.Tables.{AreNetPins};
ghost use Rattle.scan_planner.specs.Plans.{IsPlanOf};

use board_defs::Board;
use board_defs::law::terms_decided;
use driver_passes::passes;
use net_classes::Classes;
use net_pins::NetPins;
use scan_planner::Plan;
use scan_planner::law::useful_planned;
use std::alloc::{AllocError, Global};

/// Returns the plan of the board's test. `classes` must be the classes of the board, which say what
/// the board's nets, pins and controls can do in safe settings. A caller that has the pins of the board's
/// nets calls `plan_by` instead.
pub fn plan(alloc: Global, board: &Board, classes: &Classes) -> Result<Plan, AllocError>
    requires { AreClasses board.now classes.now }
    ensures plan { IfOk result (λ plan. IsPlanOf board.now plan) }
    ensures passes { IfOk result (λ plan. plan.passes ≡ passes_of board.now) }
{
    let pins = NetPins::new(alloc, board)?;
    plan_by(alloc, board, pins, classes)
}

/// Like `plan`, but takes ownership of `pins`, which must be the pins of the board's nets. `classes`
/// must be the classes of the board.
pub fn plan_by(
    alloc: Global,
    board: &Board,
    pins: NetPins,
    classes: &Classes,
) -> Result<Plan, AllocError>
    requires pins { AreNetPins board.now pins }
    requires classes { AreClasses board.now classes.now }
    ensures plan { IfOk result (λ plan. IsPlanOf board.now plan) }
    ensures passes { IfOk result (λ plan. plan.passes ≡ passes_of board.now) }
{
    let _rules = board.raw();
    useful_planned();
    terms_decided();
    let passes = passes(alloc, board, classes)?;
    let plan = Plan::of(alloc, board, pins, passes)?;
    Ok(plan)
}
