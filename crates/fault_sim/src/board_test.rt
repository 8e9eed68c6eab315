// A board's test, and a log of the test. A test can have kept passes, which store rows and drivers of the
// first passes of the test, so that many logs can share them.
ghost use Rattle.std.specs.Prelude.{◌≡◌, ◌<◌, length};
ghost use Rattle.board_defs.specs.Passes.{passes_of};
ghost use Rattle.scan_planner.specs.Plans.{IsPlanOf};
ghost use Rattle.fault_sim.specs.Kept.{IsLogOfTest, KeepDrivers, KeepRows};
ghost use Rattle.fault_sim.specs.Planned.{logged_board, pass_of_log, planned_board, planned_pass};

use crate::kept::{KeptPass, kept_rows};
use crate::passes::{LoggedPass, PassDrivers, TestPass};
use board_defs::Board;
use response_log::Log;
use scan_planner::{BoardPlan, Plan};
use std::marker::Model;

/// The test of a board: the board with the plan that is built from the board's passes, and the kept passes of the plan. The model is the
/// board and the plan.
#[derive(Drop)]
pub struct BoardTest<'a> {
    planned: BoardPlan<'a>,
    kept: &'a [KeptPass],
}

impl<'a> Model for BoardTest<'a> {
    ghost use Rattle.fault_sim.specs.Kept.{HasKeptPasses};
    ghost use Rattle.fault_sim.specs.Planned.{PlannedBoard};

    ghost Value = { PlannedBoard };

    ghost view = { λ a. a.planned };

    ghost invariant = { λ a. HasKeptPasses a.planned a.kept.now };
}

/// A log with its test. The model is the test and the log.
#[derive(Drop)]
pub struct LoggedTest<'a> {
    pub(crate) test: BoardTest<'a>,
    pub(crate) log: &'a Log,
}

impl<'a> Model for LoggedTest<'a> {
    ghost use Rattle.fault_sim.specs.Kept.{IsLogOfTest};
    ghost use Rattle.fault_sim.specs.Planned.{LoggedBoard, logged_board};

    ghost Value = { LoggedBoard };

    ghost view = { λ a. logged_board a.test a.log.now };

    ghost invariant = { λ a. IsLogOfTest a.test a.log.now };
}

impl<'a> BoardTest<'a> {
    /// Returns the test of `board` that `plan` describes, with no kept passes. The plan must be built from the board's passes.
    pub fn of(board: &'a Board, plan: &'a Plan) -> BoardTest<'a>
        requires plan { IsPlanOf board.now plan.now }
        requires passes { plan.now.passes ≡ passes_of board.now }
        ensures { result ≡ planned_board board.now plan.now }
    {
        BoardTest {
            planned: BoardPlan::new(board, plan),
            kept: &[],
        }
    }

    /// Returns this test with `kept` as its kept passes. Item `x` of `kept` must have rows and drivers of pass `x` of
    /// this test.
    pub(crate) fn with_kept(&self, kept: &'a [KeptPass]) -> BoardTest<'a>
        requires rows { KeepRows self.now.board self.now.plan kept.now }
        requires drivers { KeepDrivers self.now.plan kept.now }
        ensures { result ≡ self.now }
    {
        BoardTest {
            planned: self.planned.again(),
            kept,
        }
    }

    /// Returns a copy of this value.
    pub(crate) fn again(&self) -> BoardTest<'a>
        ensures { result ≡ self.now }
    {
        self.with_kept(self.kept())
    }

    /// Returns the board with its plan.
    pub fn board_plan(&self) -> &BoardPlan<'a>
        ensures { result.now ≡ self.now }
    {
        &self.planned
    }

    /// Returns the board.
    pub fn board(&self) -> &'a Board
        ensures { result.now ≡ self.now.board }
    {
        self.planned.board()
    }

    /// Returns the plan.
    pub fn plan(&self) -> &'a Plan
        ensures value { result.now ≡ self.now.plan }
        ensures plan { IsPlanOf self.now.board self.now.plan }
        ensures passes { self.now.plan.passes ≡ passes_of self.now.board }
    {
        self.planned.plan()
    }

    /// Returns the stored rows and drivers of the first passes of the plan, one item for each of these passes. The list
    /// may be empty.
    pub(crate) fn kept(&self) -> &'a [KeptPass]
        ensures rows { KeepRows self.now.board self.now.plan result.now }
        ensures drivers { KeepDrivers self.now.plan result.now }
    {
        self.kept
    }

    /// Returns `log` together with this test. The log must have the test's rows, each as long as a data scan.
    pub fn with_log(&self, log: &'a Log) -> LoggedTest<'a>
        requires { IsLogOfTest self.now log.now }
        ensures { result ≡ logged_board self.now log.now }
    {
        LoggedTest {
            test: self.again(),
            log,
        }
    }

    /// Returns pass `x`, counted from 0. `x` must be below the number of passes.
    pub(crate) fn pass(&self, x: u32) -> TestPass<'a>
        requires { x < length self.now.plan.passes }
        ensures { result ≡ planned_pass self.now x }
    {
        let kept = self.kept();
        TestPass {
            pass: self.board_plan().pass(x),
            drivers: PassDrivers::of(self.plan(), kept, x),
            rows: kept_rows(kept, x),
        }
    }
}

impl<'a> LoggedTest<'a> {
    /// Returns `log` together with its test, which is the test of `board` that `plan` describes, with no kept passes. The plan must be
    /// built from the board's passes. The log must have the plan's rows, each as long as a data scan.
    pub fn of(board: &'a Board, plan: &'a Plan, log: &'a Log) -> LoggedTest<'a>
        requires plan { IsPlanOf board.now plan.now }
        requires passes { plan.now.passes ≡ passes_of board.now }
        requires log { IsLogOfTest (planned_board board.now plan.now) log.now }
        ensures { result ≡ logged_board (planned_board board.now plan.now) log.now }
    {
        BoardTest::of(board, plan).with_log(log)
    }

    /// Returns the test.
    pub fn test(&self) -> &BoardTest<'a>
        ensures { result.now ≡ self.now.test }
    {
        &self.test
    }

    /// Returns the board.
    pub fn board(&self) -> &'a Board
        ensures { result.now ≡ self.now.test.board }
    {
        self.test.board()
    }

    /// Returns the plan.
    pub fn plan(&self) -> &'a Plan
        ensures value { result.now ≡ self.now.test.plan }
        ensures plan { IsPlanOf self.now.test.board self.now.test.plan }
        ensures passes { self.now.test.plan.passes ≡ passes_of self.now.test.board }
    {
        self.test.plan()
    }

    /// Returns the number of passes.
    pub(crate) fn pass_count(&self) -> u32
        ensures { result ≡ length self.now.test.plan.passes }
    {
        self.test.plan().pass_count()
    }

    /// Returns the log.
    pub fn log(&self) -> &'a Log
        ensures value { result.now ≡ self.now.log }
        ensures rows { IsLogOfTest self.now.test self.now.log }
    {
        self.log
    }

    /// Returns pass `x` of the log, counted from 0. `x` must be below the number of passes.
    pub(crate) fn pass(&self, x: u32) -> LoggedPass<'a>
        requires { x < length self.now.test.plan.passes }
        ensures { result ≡ pass_of_log self.now x }
    {
        LoggedPass {
            pass: self.test.pass(x),
            log: self.log,
        }
    }
}
