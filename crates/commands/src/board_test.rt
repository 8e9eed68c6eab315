// The command `svf`, which writes the test of a board.
ghost use Rattle.std.specs.Prelude.{◌≡◌, ◌-◌, ◌<◌, IfOk, IfSome, List, slice_get};
ghost use Rattle.bt_base.specs.Puts.{Puts};
ghost use Rattle.board_defs.specs.BoardRules.{IsBoard};
ghost use Rattle.tap_defs.specs.board.BoardScans.{RowScan, board_scans, board_text, pass_text, test_scans};
ghost use Rattle.tap_defs.specs.board.BoardTest.{IsBoardTest};
ghost use Rattle.tap_defs.specs.chain.Clocks.{test_clocks};
ghost use Rattle.tap_defs.specs.chain.Svf.{meaning};
ghost use Rattle.tap_defs.specs.chain.Text.{scan_text, svf_text};
ghost use Rattle.plan_tables.specs.declared.tables.PlanTables.{PlanTables as PlanRecord};
ghost use Rattle.scan_planner.specs.PassRows.{AreKept};
ghost use Rattle.scan_planner.specs.Plans.{IsRoom, scan_count};
ghost use Rattle.diagnoser.specs.Laws.{ExplainingListed, PassingUnexplained};
ghost use Rattle.commands.specs.Worth.{RespondOnce, IsSvfText};
ghost use Rattle.commands.specs.Answers.{BoardAnswers};
ghost use Rattle.commands.specs.inner.Rows.{EachStoredHasRoom, HoldScan};
ghost use Rattle.commands.specs.inner.Unput.{PutsText};

use crate::planned::{Planned, planned_board};
use crate::rows::Rows;
use crate::texts::BoardTexts;
use crate::unput::{Unput, answer_by};
use board_defs::Board;
use bt_base::{PutFault, Sink};
use diagnoser::law::{explaining_listed, passing_unexplained};
use scan_planner::{BoardPlan, PassRows};
use std::alloc::{AllocError, Global};
use svf_writer::{write_head, write_scan, write_tail};
use tap_defs::board_law::{board_texts_test, one_log, scans_in_turn, scans_placed};
use tap_defs::chain_law::texts_mean;
use tap_defs::{ScanRows, Shape, StoredRows};

/// Writes the test of the board that the texts denote. Allocates all memory before the first write.
pub fn svf<K: Sink>(alloc: Global, texts: &BoardTexts, out: &mut K) -> Result<(), Unput>
    ensures { BoardAnswers board_text IsSvfText texts.now (K.shown out.old) (K.shown out.new)
        result }
{
    match planned_board(alloc, texts) {
        Ok(planned) => {
            tests_board(planned.board());
            let put = put_test(alloc, &planned, out);
            drop(planned);
            put
        }
        Err(failure) => Err(failure),
    }
}

// Writes the test of a board whose plan is already made.
fn put_test<K: Sink>(alloc: Global, planned: &Planned, out: &mut K) -> Result<(), Unput>
    ensures { PutsText (board_text planned.now.board) (K.shown out.old) (K.shown out.new) result }
{
    let test = planned.test();
    let _passes = test.plan();
    let mut rows = TestRows::for_board(alloc, test.board())?;
    answer_by(write_test(test.board_plan(), &mut rows, out))
}

// States that the text of the board's test is a test of the board (`IsBoardTest`). Does nothing.
fn tests_board(board: &Board)
    ensures { IsBoardTest board.now (board_text board.now) }
{
    let _rules = board.raw();
    board_texts_test();
}

/// States that the text of any data scans of the board has a meaning (`meaning`): the TAP clocks of
/// the test with these scans. Does nothing.
pub fn test_means(board: &Board)
    ensures { (scans : List RowScan)
        → meaning (svf_text (board_scans board.now scans))
        ≡ Some (test_clocks (board_scans board.now scans)) }
{
    let _rules = board.raw();
    texts_mean();
}

// States that each single fault of a board has one response to the board's test. Does nothing.
fn singles_respond(board: &Board)
    ensures { RespondOnce board.now }
{
    let _rules = board.raw();
    one_log();
    scans_in_turn();
}

/// States the laws on which the diagnoses of a board rest. The board satisfies the rules of a board
/// (`IsBoard`). The text of any data scans has a meaning (`meaning`): the TAP clocks of the test with these
/// scans. Each single fault of the board has one response. A diagnosis lists exactly the faults that explain
/// the diagnosed log. No fault explains a log that passes. Does nothing.
pub fn judging_laws(board: &Board)
    ensures rules { IsBoard board.now }
    ensures means { (scans : List RowScan)
        → meaning (svf_text (board_scans board.now scans))
        ≡ Some (test_clocks (board_scans board.now scans)) }
    ensures respond { RespondOnce board.now }
    ensures listed { ExplainingListed }
    ensures unexplained { PassingUnexplained }
{
    let _rules = board.raw();
    test_means(board);
    singles_respond(board);
    explaining_listed();
    passing_unexplained();
}

/// Returns the length in bits of the board's longer scan, the instruction scan or the data scan.
pub fn longest_scan(board: &Board) -> u32
    ensures { IsRoom board.now result }
{
    board.ir_bits().max(board.dr_bits())
}

/// The buffers for the bits of each scan of a test, and the rows of one whole pass, which are computed once for all scans of the pass.
#[derive(Drop)]
pub struct TestRows {
    pub rows: Rows,
    pub kept: PassRows,
}

impl TestRows {
    /// Allocates rows with room for the scans of a board.
    pub fn for_board(alloc: Global, board: &Board) -> Result<TestRows, AllocError>
        ensures room { IfOk result (λ made. EachStoredHasRoom (IsRoom board.now) made.rows.scan) }
        ensures kept { IfOk result
            (λ made. (plan : PlanRecord) → AreKept board.now plan made.kept) }
    {
        Ok(TestRows {
            rows: Rows::with_room(alloc, longest_scan(board))?,
            kept: PassRows::with_room(alloc, board.dr_bits())?,
        })
    }
}

/// Writes the test of a plan. `made` must have been made for the board of the test, and must not have been used for another test.
pub fn write_test<K: Sink>(
    test: &BoardPlan<'_>,
    made: &mut TestRows,
    out: &mut K,
) -> Result<(), PutFault>
    requires kept { AreKept test.now.board test.now.plan made.old.kept }
    requires room { EachStoredHasRoom (IsRoom test.now.board) made.old.rows.scan }
    ensures { Puts (K.shown out.old) (K.shown out.new)
        (pass_text test.now.board test.now.plan.passes test.now.plan.width) result }
{
    write_scans(test, &mut made.kept, &mut made.rows, out)
}

// Like `write_test`, but takes the two fields of `TestRows` as separate arguments.
#[tactic(auto, unfolding(tap_defs::specs::chain::Text::svf_text))]
fn write_scans<K: Sink>(
    test: &BoardPlan<'_>,
    kept: &mut PassRows,
    rows: &mut Rows,
    out: &mut K,
) -> Result<(), PutFault>
    requires kept { AreKept test.now.board test.now.plan kept.old }
    requires room { EachStoredHasRoom (IsRoom test.now.board) rows.old.scan }
    ensures { Puts (K.shown out.old) (K.shown out.new)
        (pass_text test.now.board test.now.plan.passes test.now.plan.width) result }
{
    scans_placed();
    write_head(out)?;
    let mut held = None;
    for k in 0..test.scans() {
        write_scan_at(test, k, &mut held, kept, rows, out)?;
    }
    write_tail(out)
}

// Writes scan `k` of a plan. A shape says whether a scan is an instruction scan and whether it compares bits. If `held` has a shape before
// the call, the rows must hold scan `k - 1`, and this must be the shape of that scan. After the call, the rows hold scan `k`, and `held`
// has the shape of scan `k`. `k` must be below the number of scans, and above 0 if `held` has a shape. The rows must have room for a scan
// of the board, and `kept` must hold no rows of another test.
fn write_scan_at<K: Sink>(
    test: &BoardPlan<'_>,
    k: u64,
    held: &mut Option<Shape>,
    kept: &mut PassRows,
    rows: &mut Rows,
    out: &mut K,
) -> Result<(), PutFault>
    requires scan { k < scan_count test.now.plan }
    requires later { IfSome held.old (λ shape. 0 < k) }
    requires held { IfSome held.old
        (λ shape. HoldScan test.now.board test.now.plan (k - 1) shape rows.old.scan) }
    requires kept { AreKept test.now.board test.now.plan kept.old }
    requires room { EachStoredHasRoom (IsRoom test.now.board) rows.old.scan }
    ensures text { IfSome
        (slice_get (test_scans test.now.board test.now.plan.passes test.now.plan.width) k)
        (λ scan. Puts (K.shown out.old) (K.shown out.new) (scan_text scan) result) }
    ensures held { IfSome held.new
        (λ shape. HoldScan test.now.board test.now.plan k shape rows.new.scan) }
    ensures kept { AreKept test.now.board test.now.plan kept.new }
    ensures room { EachStoredHasRoom (IsRoom test.now.board) rows.new.scan }
{
    let Rows { scan, line } = rows;
    let shape = fill_at(test, k, *held, kept, scan);
    *held = Some(shape);
    write_scan(shape, &scan.tdi, &scan.tdo, &scan.mask, line, out)
}

// Fills the rows with scan `k` of a plan and returns the scan's shape. If `before` has a shape, the rows must hold scan `k - 1`, and this
// must be the shape of that scan. The call is then faster. The conditions on `k`, the room of the rows and `kept` are as in
// `write_scan_at`.
fn fill_at(
    test: &BoardPlan<'_>,
    k: u64,
    before: Option<Shape>,
    kept: &mut PassRows,
    rows: &mut StoredRows,
) -> Shape
    requires scan { k < scan_count test.now.plan }
    requires later { IfSome before (λ shape. 0 < k) }
    requires held { IfSome before
        (λ shape. HoldScan test.now.board test.now.plan (k - 1) shape rows.old) }
    requires kept { AreKept test.now.board test.now.plan kept.old }
    requires room { EachStoredHasRoom (IsRoom test.now.board) rows.old }
    ensures filled { HoldScan test.now.board test.now.plan k result rows.new }
    ensures kept { AreKept test.now.board test.now.plan kept.new }
    ensures room { EachStoredHasRoom (IsRoom test.now.board) rows.new }
{
    let StoredRows { tdi, tdo, mask } = rows;
    match before {
        None => test.fill(k, &mut ScanRows { tdi, tdo, mask }),
        Some(shape) => test.fill_next(k - 1, shape, kept, &mut ScanRows { tdi, tdo, mask }),
    }
}
