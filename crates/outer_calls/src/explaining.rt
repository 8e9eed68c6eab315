//! Calls of `fault_sim` that compare a log with the expected log or with a single fault, and that number the single faults of a board.
ghost use Rattle.std.specs.Prelude.{◌≡◌, ◌↔◌, ◌*◌, ◌<◌, length, All, IfOk, IsTrue, slice_get, Some};
ghost use Rattle.board_defs.specs.declared.board.RawBoard.{RawBoard};
ghost use Rattle.board_defs.specs.BoardRules.{IsBoard};
ghost use Rattle.board_defs.specs.Faults.{IsSingle};
ghost use Rattle.board_defs.specs.Passes.{passes_of};
ghost use Rattle.board_defs.specs.Pins.{data_bits};
ghost use Rattle.scan_planner.specs.Plans.{IsPlanOf};
ghost use Rattle.tap_defs.specs.board.BoardScans.{svf_row_scans};
ghost use Rattle.tap_defs.specs.board.Explaining.{Explains, IsExpected};
ghost use Rattle.fault_sim.specs.Places.{IsUniverse, place_count, places_of};
ghost use Rattle.fault_sim.specs.Suspects.{AreSuspects};

use board_defs::{Board, Single};
use fault_sim::{Suspects, Universe};
use response_log::Log;
use scan_planner::Plan;
use std::alloc::{AllocError, Global};

/// Returns whether every compared bit of the log is the expected bit. The plan must be built from the board's passes. The log must have the
/// plan's rows, each as long as a data scan.
pub fn is_pass(board: &Board, plan: &Plan, log: &Log) -> bool
    requires plan { IsPlanOf board.now plan.now }
    requires passes { plan.now.passes ≡ passes_of board.now }
    requires rows { length log.now ≡ length plan.now.passes * plan.now.width }
    requires bits { All (λ row. length row ≡ data_bits board.now) log.now }
    ensures { IsTrue result ↔ IsExpected board.now (svf_row_scans board.now) log.now }
{
    fault_sim::is_pass(board, plan, log)
}

/// Returns whether a single fault of the board explains the log: every run of the test with this fault alone gives the log's compared bits.
/// The plan must be built from the board's passes. The log must have the plan's rows, each as long as a data scan.
pub fn matches(board: &Board, plan: &Plan, fault: Single, log: &Log) -> bool
    requires plan { IsPlanOf board.now plan.now }
    requires passes { plan.now.passes ≡ passes_of board.now }
    requires fault { IsSingle board.now fault }
    requires rows { length log.now ≡ length plan.now.passes * plan.now.width }
    requires bits { All (λ row. length row ≡ data_bits board.now) log.now }
    ensures { IsTrue result ↔ Explains board.now fault log.now }
{
    fault_sim::matches(board, plan, fault, log)
}

/// Returns the universe of the board, which numbers the board's possible single faults. The plan must be built from the board's passes.
pub fn universe(alloc: Global, board: &Board, plan: &Plan) -> Result<Universe, AllocError>
    requires plan { IsPlanOf board.now plan.now }
    requires passes { plan.now.passes ≡ passes_of board.now }
    ensures { IfOk result (λ universe. IsUniverse board.now universe) }
{
    Universe::new(alloc, board, plan)
}

/// Returns the number of places of the universe. The universe of a board numbers its possible single faults, and the number of a fault is
/// its place. There are two places for each covered net, two for each tested pin and four for each pair of covered nets.
pub fn place_count(universe: &Universe) -> u64
    ensures { result ≡ place_count universe.now }
{
    universe.places()
}

/// Returns the single fault at place `i` of the board for which the plan and the universe are built, or None if the place belongs to a
/// short of two nets that no pass observes together. `i` must be below the number of places.
pub fn fault_at(universe: &Universe, plan: &Plan, i: u64) -> Option<Single>
    requires { i < place_count universe.now }
    ensures { (board : RawBoard) → IsBoard board → IsPlanOf board plan.now
        → plan.now.passes ≡ passes_of board → IsUniverse board universe.now
        → slice_get (places_of board) i ≡ Some result }
{
    universe.at(plan, i)
}

/// Returns the suspects of the log: the places whose faults may explain it. The plan must be built from the board's passes, and the
/// universe for this board. The log must have the plan's rows, each as long as a data scan.
pub fn suspects(
    alloc: Global,
    board: &Board,
    plan: &Plan,
    universe: &Universe,
    log: &Log,
) -> Result<Suspects, AllocError>
    requires plan { IsPlanOf board.now plan.now }
    requires passes { plan.now.passes ≡ passes_of board.now }
    requires universe { IsUniverse board.now universe.now }
    requires rows { length log.now ≡ length plan.now.passes * plan.now.width }
    requires bits { All (λ row. length row ≡ data_bits board.now) log.now }
    ensures { IfOk result
        (λ suspects. AreSuspects board.now plan.now universe.now log.now suspects) }
{
    Suspects::new(alloc, board, plan, universe, log)
}
