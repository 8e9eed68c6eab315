// The command `walk`, which writes the walking test of a board.
ghost use Rattle.std.specs.Prelude.{◌≡◌, ◌<◌, length, Ok, slice_get, IfErr, IfOk, IfSome};
ghost use Rattle.bt_base.specs.Puts.{Puts};
ghost use Rattle.board_defs.specs.Pins.{data_bits};
ghost use Rattle.tap_defs.specs.board.BoardTest.{IsHarmless};
ghost use Rattle.tap_defs.specs.chain.Text.{scan_text};
ghost use Rattle.net_classes.specs.Kept.{AreClasses};
ghost use Rattle.net_pins.specs.Tables.{AreNetPins};
ghost use Rattle.scan_planner.specs.Plans.{IsRoom};
ghost use Rattle.walk_test.specs.Tables.{IsWalkOf, count_walk_scans};
ghost use Rattle.walk_test.specs.WalkTest.{board_walk_text, walk_scans};
ghost use Rattle.commands.specs.Answers.{BoardAnswers, IsBoardOf};
ghost use Rattle.commands.specs.LogRead.{walk_rows};
ghost use Rattle.commands.specs.inner.Rows.{EachStoredHasRoom};
ghost use Rattle.commands.specs.inner.Unput.{NoBoard, PutsText};
ghost use Rattle.commands.specs.Worth.{IsWalkText};

use crate::board_test::longest_scan;
use crate::planned::{ClassesWithPins, board_of};
use crate::rows::Rows;
use crate::texts::BoardTexts;
use crate::unput::{Unput, answer_by};
use board_defs::Board;
use bt_base::{PutFault, Sink};
use driver_passes::first_pass;
use net_classes::Classes;
use net_pins::NetPins;
use std::alloc::{AllocError, Global};
use std::marker::Model;
use svf_writer::{write_head, write_scan, write_tail};
use walk_test::Walk;
use walk_test::law::{scans_counted, walk_harmless};

/// A board and the walking test of this board. The value in contracts is the pair of the two.
#[derive(Drop)]
pub struct Walked {
    pub board: Board,
    pub walk: Walk,
}

impl Model for Walked {
    ghost use Rattle.walk_test.specs.Tables.{IsWalkOf};
    ghost use Rattle.commands.specs.inner.Boards.{WalkedBoard, walked_board};

    ghost Value = { WalkedBoard };

    ghost view = { λ w. walked_board w.board w.walk };

    ghost invariant = { λ w. IsWalkOf w.board w.walk };
}

impl Walked {
    /// Returns the board alone, without its walking test.
    pub fn board(&self) -> &Board
        ensures { result.now ≡ self.now.board }
    {
        &self.board
    }

    /// Returns the number of rows of a log of the board's walking test.
    pub fn log_rows(&self) -> u64
        ensures { result ≡ walk_rows self.now.board }
    {
        self.walk.nets().len() as u64
    }

    /// Returns the number of bits in each row of a log of the board's walking test.
    pub fn log_bits(&self) -> u32
        ensures { result ≡ data_bits self.now.board }
    {
        self.board.dr_bits()
    }

    // Returns the number of scans of the walking test.
    fn scans(&self) -> u64
        ensures count { result ≡ count_walk_scans self.now.walk }
        ensures scans { result ≡ length (walk_scans self.now.board) }
    {
        scans_counted();
        self.walk.scans()
    }
}

/// Reads the board that the texts denote and makes its walking test. The error is the first fault of the texts, or lack of memory.
pub fn walked_board(alloc: Global, texts: &BoardTexts) -> Result<Walked, Unput>
    ensures denoted { IfOk result (λ walked. IsBoardOf texts.now (Ok walked.board)) }
    ensures none { IfErr result (NoBoard texts.now) }
{
    match board_of(alloc, texts) {
        Ok(board) => Ok(with_walk(alloc, board)?),
        Err(failure) => Err(failure),
    }
}

// Returns the board with its walking test.
fn with_walk(alloc: Global, board: Board) -> Result<Walked, AllocError>
    ensures { IfOk result (λ walked. walked.board ≡ board) }
{
    let walk = walk_of(alloc, &board)?;
    Ok(Walked { board, walk })
}

// Returns the walking test of the board.
fn walk_of(alloc: Global, board: &Board) -> Result<Walk, AllocError>
    ensures { IfOk result (λ walk. IsWalkOf board.now walk) }
{
    let ClassesWithPins { classes, pins } = ClassesWithPins::of(alloc, board)?;
    let walk = walk_by(alloc, board, &classes, pins);
    drop(classes);
    walk
}

// Like `walk_of`, but also takes `classes` and `pins`. These must be the board's classes (what the board's
// nets, pins and controls can do in safe settings) and the pins of the board's nets.
fn walk_by(
    alloc: Global,
    board: &Board,
    classes: &Classes,
    pins: NetPins,
) -> Result<Walk, AllocError>
    requires classes { AreClasses board.now classes.now }
    requires pins { AreNetPins board.now pins }
    ensures { IfOk result (λ walk. IsWalkOf board.now walk) }
{
    let first = first_pass(alloc, board, classes)?;
    Walk::of(alloc, board, pins, &first)
}

/// Writes the walking test of the board that the texts denote. Allocates all memory before the first write.
pub fn walk<K: Sink>(alloc: Global, texts: &BoardTexts, out: &mut K) -> Result<(), Unput>
    ensures { BoardAnswers board_walk_text IsWalkText texts.now (K.shown out.old) (K.shown out.new)
        result }
{
    match walked_board(alloc, texts) {
        Ok(walked) => {
            is_harmless(walked.board());
            let put = put_walk(alloc, &walked, out);
            drop(walked);
            put
        }
        Err(failure) => Err(failure),
    }
}

// Writes the text of a walking test that is already made.
fn put_walk<K: Sink>(alloc: Global, walked: &Walked, out: &mut K) -> Result<(), Unput>
    ensures { PutsText (board_walk_text walked.now.board) (K.shown out.old) (K.shown out.new)
        result }
{
    let mut rows = Rows::with_room(alloc, longest_scan(walked.board()))?;
    answer_by(write_walk(walked, &mut rows, out))
}

// States that the text of the walking test is harmless (`IsHarmless`). Does nothing.
fn is_harmless(board: &Board)
    ensures { IsHarmless board.now (board_walk_text board.now) }
{
    let _rules = board.raw();
    walk_harmless();
}

// Like `put_walk`, but also takes `rows`, the buffers for the bits of each scan. The rows must have room for every scan.
#[tactic(auto, unfolding(tap_defs::specs::chain::Text::svf_text))]
fn write_walk<K: Sink>(walked: &Walked, rows: &mut Rows, out: &mut K) -> Result<(), PutFault>
    requires { EachStoredHasRoom (IsRoom walked.now.board) rows.old.scan }
    ensures { Puts (K.shown out.old) (K.shown out.new) (board_walk_text walked.now.board) result }
{
    write_head(out)?;
    for k in 0..walked.scans() {
        write_walk_scan(walked, k, rows, out)?;
    }
    write_tail(out)
}

// Writes scan `k` of a walking test. `k` must be below the number of scans, and the rows must have room for the scan.
fn write_walk_scan<K: Sink>(
    walked: &Walked,
    k: u64,
    rows: &mut Rows,
    out: &mut K,
) -> Result<(), PutFault>
    requires scan { k < count_walk_scans walked.now.walk }
    requires room { EachStoredHasRoom (IsRoom walked.now.board) rows.old.scan }
    ensures text { IfSome (slice_get (walk_scans walked.now.board) k)
        (λ scan. Puts (K.shown out.old) (K.shown out.new) (scan_text scan) result) }
    ensures room { EachStoredHasRoom (IsRoom walked.now.board) rows.new.scan }
{
    let Walked { board, walk } = walked;
    let Rows { scan, line } = rows;
    let shape = walk.fill(board, k, &mut scan.tdi, &mut scan.tdo, &mut scan.mask);
    write_scan(shape, &scan.tdi, &scan.tdo, &scan.mask, line, out)
}
