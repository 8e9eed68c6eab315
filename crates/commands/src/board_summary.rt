// The command `make`, which summarizes a generated board.
ghost use Rattle.std.specs.Prelude.{◌≡◌, [], ◌∷◌, length, min, IfOk};
ghost use Rattle.bt_base.specs.Counts.{last_count};
ghost use Rattle.line_printer.specs.Prints.{Prints};
ghost use Rattle.tap_defs.specs.board.BoardScans.{pass_text};
ghost use Rattle.net_classes.specs.Kept.{AreClasses};
ghost use Rattle.net_pins.specs.Tables.{AreNetPins};
ghost use Rattle.coverage_list.specs.CoverText.{covered};
ghost use Rattle.scan_planner.specs.Plans.{scan_count};
ghost use Rattle.board_gen.specs.BoardTexts.{chain_file_text, net_text};
ghost use Rattle.board_gen.specs.DeviceText.{bsdl_text};
ghost use Rattle.answers.specs.Gives.{Gives};
ghost use Rattle.btest_core.specs.Answers.{input_told};
ghost use Rattle.btest_core.specs.BoardRead.{IsBoardRead};
ghost use Rattle.commands.specs.Summary.{counts_line, summary_text};
ghost use Rattle.commands.specs.Answers.{Answers, Nothing};
ghost use Rattle.commands.specs.inner.Unput.{PutsText};

use crate::board_test::{TestRows, write_test};
use crate::planned::ClassesWithPins;
use crate::unput::{Unput, answer_by, unput_by};
use board_defs::Board;
use board_gen::{Made, make};
use bt_base::{CountSink, PutFault, Sink};
use bt_bits::Line;
use btest_core::{InputFault, plan_by, read_board};
use command_line::PartCount;
use coverage_list::covered_nets;
use fault_sim::BoardTest;
use itoa::Buffer;
use line_printer::put_line;
use net_classes::Classes;
use net_pins::NetPins;
use scan_planner::{BoardPlan, Plan};
use std::alloc::{AllocError, Global};
use tap_defs::board_law::scans_placed;

/// The numbers in the summary of a board and its test.
#[derive(Clone, Copy)]
struct Counts {
    devices: u32,
    nets: u32,
    covered: u32,
    passes: u64,
    scans: u64,
    bytes: u64,
}

/// Writes the summary of the generated board with `number` parts, from 1 to 255. Allocates all memory before the first write.
pub fn summary<K: Sink>(alloc: Global, number: PartCount, out: &mut K) -> Result<(), Unput>
    ensures { Answers (IsBoardRead (chain_file_text number) (net_text number) (bsdl_text ∷ []))
        summary_text Nothing (K.shown out.old) (K.shown out.new) result }
{
    match generated_board(alloc, number) {
        Ok(board) => {
            let put = put_summary(alloc, &board, out);
            drop(board);
            put
        }
        Err(fault) => Err(unput_by(fault)),
    }
}

// Writes the summary of a board.
fn put_summary<K: Sink>(alloc: Global, board: &Board, out: &mut K) -> Result<(), Unput>
    ensures { PutsText (summary_text board.now) (K.shown out.old) (K.shown out.new) result }
{
    let counts = board_counts(alloc, board)?;
    let mut line = Line::new(alloc)?;
    answer_by(put_counts(&counts, &mut line, out))
}

// Returns the generated board with `number` parts.
fn generated_board(alloc: Global, number: PartCount) -> Result<Board, InputFault>
    ensures { Gives input_told (λ board. board)
        (IsBoardRead (chain_file_text number) (net_text number) (bsdl_text ∷ [])) result }
{
    let Made { chain, nets, bsdl } = make(alloc, number.number())?;
    let mut texts = Vec::new(alloc);
    texts.push(bsdl)?;
    read_board(alloc, &chain, &nets, &texts)
}

// Returns the number of parts in the chain.
fn device_count(board: &Board) -> u32
    ensures { result ≡ length board.now.chain }
{
    board.raw().chain.len() as u32
}

// Returns the number of nets of the board.
fn net_count(board: &Board) -> u32
    ensures { result ≡ length board.now.nets }
{
    board.raw().nets.len() as u32
}

// Returns the number of bytes of the text of the plan's test, or the largest 64-bit number if the text has more bytes. Writes the text to a
// sink that only counts bytes.
fn text_bytes(alloc: Global, test: &BoardPlan<'_>) -> Result<u64, AllocError>
    ensures { IfOk result
        (λ bytes. bytes
        ≡ min (length (pass_text test.now.board test.now.plan.passes test.now.plan.width))
        last_count) }
{
    let mut rows = TestRows::for_board(alloc, test.board())?;
    let mut counter = CountSink::new();
    // A sink that only counts never fails.
    let _ = write_test(test, &mut rows, &mut counter);
    Ok(counter.count())
}

// Returns the counts of a board and its test.
fn board_counts(alloc: Global, board: &Board) -> Result<Counts, AllocError>
    ensures { IfOk result
        (λ counts. counts_line counts.devices counts.nets counts.covered counts.passes
        counts.scans counts.bytes ≡ summary_text board.now) }
{
    let ClassesWithPins { classes, pins } = ClassesWithPins::of(alloc, board)?;
    let counts = classed_counts(alloc, board, &classes, pins);
    drop(classes);
    counts
}

// Like `board_counts`, but also takes `classes` and `pins`. These must be the board's classes (what the
// board's nets, pins and controls can do in safe settings) and the pins of the board's nets.
fn classed_counts(
    alloc: Global,
    board: &Board,
    classes: &Classes,
    pins: NetPins,
) -> Result<Counts, AllocError>
    requires classes { AreClasses board.now classes.now }
    requires pins { AreNetPins board.now pins }
    ensures { IfOk result
        (λ counts. counts_line counts.devices counts.nets counts.covered counts.passes
        counts.scans counts.bytes ≡ summary_text board.now) }
{
    let plan = plan_by(alloc, board, pins, classes)?;
    let counts = planned_counts(alloc, &BoardTest::of(board, &plan), classes);
    drop(plan);
    counts
}

// Like `board_counts`, but takes the board's test. `classes` must be the board's classes.
fn planned_counts(
    alloc: Global,
    test: &BoardTest<'_>,
    classes: &Classes,
) -> Result<Counts, AllocError>
    requires { AreClasses test.now.board classes.now }
    ensures { IfOk result
        (λ counts. counts_line counts.devices counts.nets counts.covered counts.passes
        counts.scans counts.bytes ≡ summary_text test.now.board) }
{
    let bytes = text_bytes(alloc, test.board_plan())?;
    scans_placed();
    Ok(counts_of(test.board(), classes, test.plan(), bytes))
}

// Returns the counts of a board and of its plan's test. `bytes` is the number of bytes of the test's text. `classes` must be the board's
// classes.
fn counts_of(board: &Board, classes: &Classes, plan: &Plan, bytes: u64) -> Counts
    requires { AreClasses board.now classes.now }
    ensures devices { result.devices ≡ length board.now.chain }
    ensures nets { result.nets ≡ length board.now.nets }
    ensures covered { result.covered ≡ length (covered board.now) }
    ensures passes { result.passes ≡ length plan.now.passes }
    ensures scans { result.scans ≡ scan_count plan.now }
    ensures bytes { result.bytes ≡ bytes }
{
    Counts {
        devices: device_count(board),
        nets: net_count(board),
        covered: covered_nets(board, classes),
        passes: plan.passes().len() as u64,
        scans: plan.scans(),
        bytes,
    }
}

// Writes the line with these counts.
fn put_counts<K: Sink>(counts: &Counts, line: &mut Line, out: &mut K) -> Result<(), PutFault>
    ensures { Prints (K.shown out.old) (K.shown out.new) [] []
        (counts_line counts.now.devices counts.now.nets counts.now.covered counts.now.passes counts.now.scans counts.now.bytes) result }
{
    let mut buffer = Buffer::new();
    let devices = buffer.format(counts.devices).as_bytes();
    let mut buffer = Buffer::new();
    let nets = buffer.format(counts.nets).as_bytes();
    let mut buffer = Buffer::new();
    let covered = buffer.format(counts.covered).as_bytes();
    let mut buffer = Buffer::new();
    let passes = buffer.format(counts.passes).as_bytes();
    let mut buffer = Buffer::new();
    let scans = buffer.format(counts.scans).as_bytes();
    let mut buffer = Buffer::new();
    let bytes = buffer.format(counts.bytes).as_bytes();
    put_line(
        &[
            b"DEVICES ".as_slice(),
            devices,
            b" NETS ",
            nets,
            b" COVERED ",
            covered,
            b" PASSES ",
            passes,
            b" SCANS ",
            scans,
            b" BYTES ",
            bytes,
        ],
        line,
        out,
    )
}
