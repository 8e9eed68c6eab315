// The command `diagnose`, which diagnoses a log of a board's test.
ghost use Rattle.std.specs.Prelude.{◌≡◌, All, Ok};
ghost use Rattle.diagnoser.specs.DiagText.{diag_text};
ghost use Rattle.diagnoser.specs.Diagnosis.{IsFaultOnBoard};
ghost use Rattle.command_line.specs.Words.{Text};
ghost use Rattle.commands.specs.LogRead.{diagnosing, diagnosis_text, test_log};
ghost use Rattle.commands.specs.Worth.{Diagnoses};
ghost use Rattle.commands.specs.Answers.{AnswersOn, JudgedAnswers};
ghost use Rattle.commands.specs.inner.Unput.{PutsText};

use crate::board_test::judging_laws;
use crate::planned::{Planned, planned_board};
use crate::texts::LogTexts;
use crate::unput::{Unput, answer_by, unput_by_log};
use board_defs::Board;
use bt_base::{Gate, Sink};
use bt_bits::Line;
use command_line::LogFiles;
use diagnoser::{Verdict, diagnose_logged, write_diagnosis};
use fault_sim::LoggedTest;
use response_log::log_of;
use short_lists::ShortText;
use side_by_side::Workers;
use std::alloc::Global;
use std::thread::Threads;

/// Writes the diagnosis of `texts.log`, a log of the board's test. The board is the one that `texts.board`
/// denotes. `workers` is the number of threads that work on the diagnosis. Directly before a thread tries a
/// fault, it calls `gate.enter`. The gate does not change the text. Allocates all memory before the first
/// write.
pub fn diagnosis<R: Threads + Sync, K: Sink, G: Gate>(
    rt: &R,
    alloc: Global,
    texts: LogTexts,
    workers: Workers,
    gate: &G,
    out: &mut K,
) -> Result<(), Unput>
    ensures { JudgedAnswers diagnosing diagnosis_text Diagnoses texts (K.shown out.old)
        (K.shown out.new) result }
{
    let LogFiles { log, board } = texts;
    match planned_board(alloc, &board) {
        Ok(planned) => {
            let put = put_diagnosis(rt, alloc, &planned, log, workers, gate, out);
            drop(planned);
            put
        }
        Err(failure) => Err(failure),
    }
}

// Reads a log of the board's test from `text` and writes the diagnosis of the log. The log reuses the memory
// of the text.
fn put_diagnosis<R: Threads + Sync, K: Sink, G: Gate>(
    rt: &R,
    alloc: Global,
    planned: &Planned,
    text: ShortText,
    workers: Workers,
    gate: &G,
    out: &mut K,
) -> Result<(), Unput>
    ensures { AnswersOn diagnosing diagnosis_text Diagnoses text planned.now.board (K.shown out.old)
        (K.shown out.new) result }
{
    let (rows, bits) = (planned.log_rows(), planned.log_bits());
    match log_of(alloc, text, rows, bits) {
        Ok(log) => {
            let logged = planned.with_log(&log);
            put_judged(rt, alloc, &logged, workers, gate, out)
        }
        Err(fault) => Err(unput_by_log(rows, fault)),
    }
}

// Diagnoses a log of the board's test and writes the diagnosis.
fn put_judged<R: Threads + Sync, K: Sink, G: Gate>(
    rt: &R,
    alloc: Global,
    logged: &LoggedTest<'_>,
    workers: Workers,
    gate: &G,
    out: &mut K,
) -> Result<(), Unput>
    ensures { (text : Text) → test_log text logged.now.test.board ≡ Ok logged.now.log
        → AnswersOn diagnosing diagnosis_text Diagnoses text logged.now.test.board
        (K.shown out.old) (K.shown out.new) result }
{
    let verdict = diagnose_logged(rt, alloc, logged, workers, gate)?;
    let _plan = logged.plan();
    let _log = logged.log();
    let board = logged.board();
    judging_laws(board);
    put_verdict(alloc, board, &verdict, out)
}

// Writes the verdict on a log, which says whether the log passes and which single faults explain
// it. The faults of the verdict must name nets and pins of the board.
fn put_verdict<K: Sink>(
    alloc: Global,
    board: &Board,
    verdict: &Verdict,
    out: &mut K,
) -> Result<(), Unput>
    requires { All (IsFaultOnBoard board.now) verdict.now.faults }
    ensures { PutsText (diag_text board.now verdict.now.pass verdict.now.faults) (K.shown out.old)
        (K.shown out.new) result }
{
    let mut line = Line::new(alloc)?;
    let put = write_diagnosis(
        board,
        verdict.pass,
        verdict.faults.as_slice(),
        &mut line,
        out,
    );
    answer_by(put)
}
