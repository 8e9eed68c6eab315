// The command `batch`, which diagnoses each log of a batch.
ghost use Rattle.std.specs.Prelude.{◌≡◌, All, Ok, length};
ghost use Rattle.diagnoser.specs.Diagnosis.{IsFaultOnBoard};
ghost use Rattle.board_defs.specs.Pins.{data_bits};
ghost use Rattle.response_log.specs.LogRows.{HasSize};
ghost use Rattle.batch_diag.specs.BatchText.{batch_text};
ghost use Rattle.command_line.specs.Words.{Text};
ghost use Rattle.commands.specs.LogRead.{judging_each, test_blocks, test_rows, verdicts_text};
ghost use Rattle.commands.specs.Worth.{DiagnosesEach};
ghost use Rattle.commands.specs.Answers.{AnswersOn, JudgedAnswers};
ghost use Rattle.commands.specs.inner.Unput.{PutsText};

use crate::board_test::judging_laws;
use crate::planned::{Planned, planned_board};
use crate::texts::LogTexts;
use crate::unput::{Unput, answer_by, unput_by_batch};
use batch_diag::{Block, Verdict, blocks_by, diagnose_blocks, write_batch};
use board_defs::Board;
use bt_base::{Gate, Sink};
use bt_bits::Line;
use command_line::LogFiles;
use short_lists::ShortText;
use side_by_side::Workers;
use std::alloc::Global;
use std::thread::Threads;

/// Writes the diagnoses of `texts.log`, a batch of logs of the board's test. The board is the one that
/// `texts.board` denotes. `workers` is the number of threads that work on the diagnoses. Directly before a
/// thread diagnoses a log, it calls `gate.enter`. The gate does not change the text. Allocates all memory
/// before the first write.
pub fn batch<R: Threads + Sync, K: Sink, G: Gate>(
    rt: &R,
    alloc: Global,
    texts: LogTexts,
    workers: Workers,
    gate: &G,
    out: &mut K,
) -> Result<(), Unput>
    ensures { JudgedAnswers judging_each verdicts_text DiagnosesEach texts (K.shown out.old)
        (K.shown out.new) result }
{
    let LogFiles { log, board } = texts;
    match planned_board(alloc, &board) {
        Ok(planned) => {
            let put = put_batch(rt, alloc, &planned, &log, workers, gate, out);
            drop(planned);
            put
        }
        Err(failure) => Err(failure),
    }
}

// Reads a batch of logs of the board's test from `text` and writes the diagnoses.
fn put_batch<R: Threads + Sync, K: Sink, G: Gate>(
    rt: &R,
    alloc: Global,
    planned: &Planned,
    text: &ShortText,
    workers: Workers,
    gate: &G,
    out: &mut K,
) -> Result<(), Unput>
    ensures { AnswersOn judging_each verdicts_text DiagnosesEach text.now planned.now.board
        (K.shown out.old) (K.shown out.new) result }
{
    let (rows, bits) = (planned.log_rows(), planned.log_bits());
    match blocks_by(rt, alloc, text.as_slice(), rows, bits, workers) {
        Ok(blocks) => put_blocks(rt, alloc, planned, &blocks, workers, gate, out),
        Err(fault) => Err(unput_by_batch(rows, fault)),
    }
}

// Diagnoses the logs in these blocks of a batch, and writes the diagnoses. A block has the log and
// the id of one board. Each log must have `planned.log_rows()` rows of `planned.log_bits()` bits each.
fn put_blocks<R: Threads + Sync, K: Sink, G: Gate>(
    rt: &R,
    alloc: Global,
    planned: &Planned,
    blocks: &[Block],
    workers: Workers,
    gate: &G,
    out: &mut K,
) -> Result<(), Unput>
    requires size { All
        (λ block. HasSize (test_rows planned.now.board) (data_bits planned.now.board) block.log)
        blocks.now }
    ensures { (text : Text) → test_blocks text planned.now.board ≡ Ok blocks.now
        → AnswersOn judging_each verdicts_text DiagnosesEach text planned.now.board
        (K.shown out.old) (K.shown out.new) result }
{
    let test = planned.test();
    let verdicts = diagnose_blocks(rt, alloc, &test, blocks, workers, gate)?;
    let board = planned.board();
    judging_laws(board);
    put_verdicts(alloc, board, blocks, &verdicts, out)
}

// Writes the verdicts on the blocks. A verdict says whether a log passes and which single faults
// explain it. There must be exactly one verdict for each block, in the same order, and the faults
// of the verdicts must name nets and pins of the board.
fn put_verdicts<K: Sink>(
    alloc: Global,
    board: &Board,
    blocks: &[Block],
    verdicts: &[Verdict],
    out: &mut K,
) -> Result<(), Unput>
    requires count { length verdicts.now ≡ length blocks.now }
    requires named { All (λ verdict. All (IsFaultOnBoard board.now) verdict.faults) verdicts.now }
    ensures { PutsText (batch_text board.now blocks.now verdicts.now) (K.shown out.old)
        (K.shown out.new) result }
{
    let mut line = Line::new(alloc)?;
    answer_by(write_batch(board, blocks, verdicts, &mut line, out))
}
