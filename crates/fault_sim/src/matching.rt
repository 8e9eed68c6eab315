// Decides whether a single fault explains a log, and whether a log has the expected bits.
ghost use Rattle.std.specs.Prelude.{◌≡◌, ◌↔◌, ◌*◌, ◌==◌, ◌||◌, length, All, IsTrue, None, Some};
ghost use Rattle.std.specs.List.{list_all};
ghost use Rattle.board_defs.specs.declared.fault.Single.{Single};
ghost use Rattle.board_defs.specs.Faults.{IsSingle};
ghost use Rattle.board_defs.specs.Passes.{passes_of};
ghost use Rattle.board_defs.specs.Pins.{data_bits};
ghost use Rattle.scan_planner.specs.Plans.{IsPlanOf};
ghost use Rattle.tap_defs.specs.board.BoardScans.{svf_row_scans};
ghost use Rattle.tap_defs.specs.board.Explaining.{Explains, IsExpected};
ghost use Rattle.fault_sim.specs.Fits.{ShowsAll};

use crate::board_test::LoggedTest;
use crate::differing::ComparedLog;
use crate::effect::{first_net, second_net};
use board_defs::{Board, Single, law};
use response_log::Log;
use scan_planner::Plan;
use tap_defs::board_law;

/// Returns whether every compared bit of a log is the expected bit. The plan must be built from the board's passes. The log must have the
/// plan's rows, each as long as a data scan.
pub fn is_pass(board: &Board, plan: &Plan, log: &Log) -> bool
    requires plan { IsPlanOf board.now plan.now }
    requires passes { plan.now.passes ≡ passes_of board.now }
    requires rows { length log.now ≡ length plan.now.passes * plan.now.width }
    requires bits { All (λ row. length row ≡ data_bits board.now) log.now }
    ensures { IsTrue result ↔ IsExpected board.now (svf_row_scans board.now) log.now }
{
    LoggedTest::of(board, plan, log).is_pass()
}

/// Returns whether `fault` explains a log. `fault` must be a single fault of the board. A fault explains a log if every run of the test
/// with this fault alone gives the log's compared bits. The plan must be built from the board's passes. The log must have the plan's rows,
/// each as long as a data scan. Checks the cells of the fault's own nets first, since they rule out most faults that do not explain the
/// log.
pub fn matches(board: &Board, plan: &Plan, fault: Single, log: &Log) -> bool
    requires plan { IsPlanOf board.now plan.now }
    requires passes { plan.now.passes ≡ passes_of board.now }
    requires fault { IsSingle board.now fault }
    requires rows { length log.now ≡ length plan.now.passes * plan.now.width }
    requires bits { All (λ row. length row ≡ data_bits board.now) log.now }
    ensures { IsTrue result ↔ Explains board.now fault log.now }
{
    LoggedTest::of(board, plan, log).matches(fault)
}

// Returns whether each of `nets` is net `a` or net `b`.
fn are_of(nets: &[u32], a: u32, b: u32) -> bool
    ensures { result ≡ list_all (λ n. (n == a) || (n == b)) nets.now }
{
    nets.iter().all(|n| *n == a || *n == b)
}

impl<'a> LoggedTest<'a> {
    /// Does nothing. Its contract states two facts. Every compared bit of the log is the expected bit if and only if
    /// the compared cells of every net have the expected bits in every pass of the log. A single fault explains the log
    /// if and only if the compared cells of every net have, in every pass of the log, the bits that the fault gives
    /// them.
    pub(crate) fn laws(&self)
        ensures expected { IsExpected self.now.test.board (svf_row_scans self.now.test.board)
            self.now.log ↔ ShowsAll self.now.test.board self.now.test.plan None self.now.log }
        ensures explains { (single : Single) → IsSingle self.now.test.board single
            → (Explains self.now.test.board single self.now.log
            ↔ ShowsAll self.now.test.board self.now.test.plan (Some single) self.now.log) }
    {
        let _plan = self.plan();
        let _log = self.log();
        let _rules = self.board().raw();
        law::passes_kept();
        board_law::rows_compared();
        board_law::singles_respond();
        board_law::expected_bits();
    }

    /// Like the function `is_pass`, but takes the board, the plan and the log from this value.
    pub fn is_pass(&self) -> bool
        ensures { IsTrue result
            ↔ IsExpected self.now.test.board (svf_row_scans self.now.test.board) self.now.log }
    {
        self.laws();
        self.shows_all(None)
    }

    /// Like the function `matches`, but takes the board, the plan and the log from this value.
    pub fn matches(&self, fault: Single) -> bool
        requires { IsSingle self.now.test.board fault }
        ensures { IsTrue result ↔ Explains self.now.test.board fault self.now.log }
    {
        self.laws();
        if !self.shows_own(fault) {
            return false;
        }
        self.shows_all(Some(fault))
    }
}

impl<'a> ComparedLog<'a> {
    /// Like the function `matches`, but takes the board, the plan and the log from this value. Checks no cell if some
    /// net that differs in the log is not a net of the fault. Otherwise, checks only the cells of the fault's nets,
    /// since the other nets have the expected bits.
    pub fn matches(&self, fault: Single) -> bool
        requires { IsSingle self.now.test.board fault }
        ensures { IsTrue result ↔ Explains self.now.test.board fault self.now.log }
    {
        let logged = self.logged();
        logged.laws();
        if !are_of(self.nets(), first_net(fault), second_net(fault)) {
            return false;
        }
        logged.shows_own(fault)
    }
}
