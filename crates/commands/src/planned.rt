// The board that the texts denote, the classes of the board (what the board's nets, pins and controls can do
// in safe settings), the pins of the board's nets, and the plan of the board's test.
ghost use Rattle.std.specs.Prelude.{◌≡◌, ◌*◌, Ok, IfOk, IfErr, length};
ghost use Rattle.board_defs.specs.Passes.{passes_of};
ghost use Rattle.board_defs.specs.Pins.{data_bits};
ghost use Rattle.net_classes.specs.Kept.{AreClasses};
ghost use Rattle.net_pins.specs.Tables.{AreNetPins};
ghost use Rattle.scan_planner.specs.Plans.{IsPlanOf};
ghost use Rattle.response_log.specs.LogRows.{HasSize};
ghost use Rattle.fault_sim.specs.Planned.{logged_board};
ghost use Rattle.commands.specs.Answers.{IsBoardOf};
ghost use Rattle.commands.specs.LogRead.{test_rows};
ghost use Rattle.commands.specs.inner.Unput.{NoBoard};

use crate::texts::BoardTexts;
use crate::unput::{Unput, unput_by};
use board_defs::Board;
use btest_core::{plan_by, read_board};
use fault_sim::{BoardTest, LoggedTest};
use net_classes::{Classes, classify_by};
use net_pins::NetPins;
use response_log::Log;
use scan_planner::Plan;
use std::alloc::{AllocError, Global};
use std::marker::Model;

/// A board and the plan of its test. The plan has the passes of the board. The value in contracts is the pair
/// of the board and the plan. A `BoardTest` only borrows a board and a plan. `Planned` owns them, so it has
/// an invariant of its own.
#[derive(Drop)]
pub struct Planned {
    pub board: Board,
    pub plan: Plan,
}

impl Model for Planned {
    ghost use Rattle.fault_sim.specs.Planned.{IsPlanned, PlannedBoard, planned_board};

    ghost Value = { PlannedBoard };

    ghost view = { λ p. planned_board p.board p.plan };

    ghost invariant = { λ p. IsPlanned (planned_board p.board p.plan) };
}

impl Planned {
    /// Returns the board alone, without the plan of its test.
    pub fn board(&self) -> &Board
        ensures { result.now ≡ self.now.board }
    {
        &self.board
    }

    /// Returns the board's test.
    pub fn test(&self) -> BoardTest<'_>
        ensures test { result ≡ self.now }
        ensures rows { length self.now.plan.passes * self.now.plan.width
            ≡ test_rows self.now.board }
    {
        BoardTest::of(&self.board, &self.plan)
    }

    /// Returns `log` together with the board's test. The log must have `log_rows` rows of `log_bits` bits each.
    pub fn with_log<'a>(&'a self, log: &'a Log) -> LoggedTest<'a>
        requires { HasSize (test_rows self.now.board) (data_bits self.now.board) log.now }
        ensures { result ≡ logged_board self.now log.now }
    {
        self.test().with_log(log)
    }

    /// Returns the number of rows of a log of the board's test.
    pub fn log_rows(&self) -> u64
        ensures { result ≡ test_rows self.now.board }
    {
        self.plan.rows()
    }

    /// Returns the number of bits in each row of a log of the board's test.
    pub fn log_bits(&self) -> u32
        ensures { result ≡ data_bits self.now.board }
    {
        self.board.dr_bits()
    }
}

/// The classes of a board and the pins of its nets. Both are made from the same tables of the board's pins.
#[derive(Drop)]
pub struct ClassesWithPins {
    pub classes: Classes,
    pub pins: NetPins,
}

impl ClassesWithPins {
    /// Finds the classes of the board and the pins of its nets.
    pub fn of(alloc: Global, board: &Board) -> Result<ClassesWithPins, AllocError>
        ensures classes { IfOk result (λ known. AreClasses board.now known.classes) }
        ensures pins { IfOk result (λ known. AreNetPins board.now known.pins) }
    {
        let pins = NetPins::new(alloc, board)?;
        let classes = classify_by(alloc, board, &pins.tables)?;
        Ok(ClassesWithPins { classes, pins })
    }
}

/// Reads the board that the texts denote. The error is the first fault of the texts, or lack of memory.
pub fn board_of(alloc: Global, texts: &BoardTexts) -> Result<Board, Unput>
    ensures denoted { IfOk result (λ board. IsBoardOf texts.now (Ok board)) }
    ensures none { IfErr result (NoBoard texts.now) }
{
    let BoardTexts { chain, nets, bsdl } = texts;
    match read_board(alloc, chain.as_bytes(), nets.as_bytes(), bsdl.as_slice()) {
        Ok(board) => Ok(board),
        Err(fault) => Err(unput_by(fault)),
    }
}

/// Reads the board that the texts denote and plans its test. The error is the first fault of the texts, or lack of memory.
pub fn planned_board(alloc: Global, texts: &BoardTexts) -> Result<Planned, Unput>
    ensures denoted { IfOk result (λ planned. IsBoardOf texts.now (Ok planned.board)) }
    ensures none { IfErr result (NoBoard texts.now) }
{
    match board_of(alloc, texts) {
        Ok(board) => Ok(with_plan(alloc, board)?),
        Err(failure) => Err(failure),
    }
}

// Returns the board with the plan of its test.
fn with_plan(alloc: Global, board: Board) -> Result<Planned, AllocError>
    ensures { IfOk result (λ planned. planned.board ≡ board) }
{
    let plan = board_plan(alloc, &board)?;
    Ok(Planned { board, plan })
}

// Returns the plan of the board's test. The plan has the passes of the board.
fn board_plan(alloc: Global, board: &Board) -> Result<Plan, AllocError>
    ensures plan { IfOk result (λ plan. IsPlanOf board.now plan) }
    ensures passes { IfOk result (λ plan. plan.passes ≡ passes_of board.now) }
{
    let ClassesWithPins { classes, pins } = ClassesWithPins::of(alloc, board)?;
    let plan = plan_by(alloc, board, pins, &classes);
    drop(classes);
    plan
}
