// A board with a plan of it, and a pass of the plan.
ghost use Rattle.std.specs.Prelude.{◌≡◌, ◌<◌, ◌≤◌, ◌^◌, length};
ghost use Rattle.board_defs.specs.BoardRules.{IsBoard};
ghost use Rattle.plan_tables.specs.Plans.{IsPlanOf, most_rows};
ghost use Rattle.scan_planner.specs.PassRows.{AreCommonRows};
ghost use Rattle.scan_planner.specs.Planned.{planned_board, planned_pass};
ghost use Rattle.scan_planner.specs.Plans.{scan_count};

use crate::common_rows::CommonRows;
use crate::plan::Plan;
use board_defs::Board;
use plan_tables::PlanTables;
use std::marker::Model;

/// A board with a plan of it. Its value in contracts is the board and the plan.
#[derive(Drop)]
pub struct BoardPlan<'a> {
    board: &'a Board,
    plan: &'a Plan,
}

impl<'a> Model for BoardPlan<'a> {
    ghost use Rattle.plan_tables.specs.Plans.{IsPlanOf};
    ghost use Rattle.scan_planner.specs.Planned.{PlannedBoard, planned_board};

    ghost Value = { PlannedBoard };

    ghost view = { λ a. planned_board a.board.now a.plan.now };

    ghost invariant = { λ a. IsPlanOf a.board.now a.plan.now };
}

/// A pass of a board's plan. Its value in contracts is the board, the plan and the number of the pass.
#[derive(Drop)]
pub struct PassOfPlan<'a> {
    test: BoardPlan<'a>,
    pub(crate) number: u32,
}

impl<'a> Model for PassOfPlan<'a> {
    ghost use Rattle.std.specs.Prelude.{◌<◌, length};
    ghost use Rattle.scan_planner.specs.Planned.{PlannedPass, planned_pass};

    ghost Value = { PlannedPass };

    ghost view = { λ a. planned_pass a.test a.number };

    ghost invariant = { λ a. a.number < length a.test.plan.passes };
}

impl<'a> BoardPlan<'a> {
    /// Returns the board with the plan, which must be a plan of the board.
    pub fn new(board: &'a Board, plan: &'a Plan) -> BoardPlan<'a>
        requires { IsPlanOf board.now plan.now }
        ensures { result ≡ planned_board board.now plan.now }
    {
        BoardPlan { board, plan }
    }

    /// Returns the board.
    pub fn board(&self) -> &'a Board
        ensures { result.now ≡ self.now.board }
    {
        self.board
    }

    /// Returns the plan.
    pub fn plan(&self) -> &'a Plan
        ensures value { result.now ≡ self.now.plan }
        ensures plan { IsPlanOf self.now.board self.now.plan }
    {
        self.plan
    }

    /// Returns a copy of this value.
    pub fn again(&self) -> BoardPlan<'a>
        ensures { result ≡ self.now }
    {
        BoardPlan {
            board: self.board,
            plan: self.plan,
        }
    }

    /// Returns pass `number`, counted from 0, which must be below the number of passes.
    pub fn pass(&self, number: u32) -> PassOfPlan<'a>
        requires { number < length self.now.plan.passes }
        ensures { result ≡ planned_pass self.now number }
    {
        let test = self.again();
        PassOfPlan { test, number }
    }

    /// Returns the tables of the plan.
    pub(crate) fn tables(&self) -> &'a PlanTables
        ensures { result.now ≡ self.now.plan }
    {
        self.plan.tables()
    }

    /// Returns the number of scans of the test.
    pub fn scans(&self) -> u64
        ensures { result ≡ scan_count self.now.plan }
    {
        self.plan.scans()
    }

    /// Returns the number of rows of each pass.
    pub(crate) fn width(&self) -> u32
        ensures { result ≡ self.now.plan.width }
    {
        self.plan.width()
    }

    /// Does nothing. The contract states the facts about a board with a plan: the board keeps the rules of boards, the
    /// plan is a plan of the board, there are fewer than 2^32 passes, and a pass has at most `most_rows` rows.
    pub(crate) fn laws(&self)
        ensures rules { IsBoard self.now.board }
        ensures plan { IsPlanOf self.now.board self.now.plan }
        ensures counted { length self.now.plan.passes < 2 ^ 32 }
        ensures few { self.now.plan.width ≤ most_rows }
    {
        let _rules = self.board.raw();
        let _counted = self.plan.pass_count();
        let _few = self.plan.width();
    }
}

impl<'a> PassOfPlan<'a> {
    /// Returns the board with the plan.
    pub fn test(&self) -> &BoardPlan<'a>
        ensures { result.now ≡ self.now.test }
    {
        &self.test
    }

    /// Returns the number of the pass, counted from 0.
    pub fn number(&self) -> u32
        ensures value { result ≡ self.now.number }
        ensures within { result < length self.now.test.plan.passes }
    {
        self.number
    }

    /// Returns the number of rows of the pass.
    pub(crate) fn width(&self) -> u32
        ensures { result ≡ self.now.test.plan.width }
    {
        self.test.width()
    }

    /// Returns the rows that all passes share.
    pub(crate) fn common(&self) -> &'a CommonRows
        ensures { AreCommonRows self.now.test.plan result.now }
    {
        self.test.plan().common()
    }

    /// Does nothing. The contract states the facts about a pass of a board's plan: the board keeps the rules of boards,
    /// the plan is a plan of the board, the plan has the pass, and the pass has at most `most_rows` rows.
    pub(crate) fn laws(&self)
        ensures rules { IsBoard self.now.test.board }
        ensures plan { IsPlanOf self.now.test.board self.now.test.plan }
        ensures within { self.now.number < length self.now.test.plan.passes }
        ensures few { self.now.test.plan.width ≤ most_rows }
    {
        self.test.laws();
    }
}
