// Finds the single faults that explain a log.
ghost use Rattle.std.specs.Prelude.{◌≡◌, ◌*◌, ◌≤◌, length, All, IfOk};
ghost use Rattle.board_defs.specs.Passes.{passes_of};
ghost use Rattle.board_defs.specs.Pins.{data_bits};
ghost use Rattle.scan_planner.specs.Plans.{IsPlanOf};
ghost use Rattle.fault_sim.specs.Diagnosis.{IsDiagnosis};
ghost use Rattle.fault_sim.specs.Kept.{IsLogOfTest};
ghost use Rattle.diagnoser.specs.Diagnosis.{AreExplaining, IsFaultOnBoard};

use crate::search::Search;
use crate::verdict::Verdict;
use board_defs::{Board, Items, Single};
use bt_base::Gate;
use fault_sim::{BoardTest, LoggedTest, TestUniverse, law};
use response_log::Log;
use scan_planner::Plan;
use side_by_side::Workers;
use std::alloc::{AllocError, Global};
use std::thread::Threads;

/// Returns the single faults of a board that explain a log of its test, each once and in the order of the board's list of single faults.
/// Neither the number of workers nor the gate changes the result. The plan must be built from the board's passes. The log must have the
/// plan's rows, each as long as a data scan. There must be 1 to 64 workers.
///
/// The possible single faults of a board are numbered, and the number of a fault is its place. The candidates are the places of the faults
/// that may explain the log. The candidates are cut into as many pieces as there are workers, and the sizes of the pieces differ by at most
/// one candidate. Directly before a piece tries a candidate, it calls `gate.enter` with two numbers: the number of the piece, counted from
/// 0, and the candidate's place. The first half of the pieces runs side by side with the second half. Each half is halved again in the same
/// way, down to single pieces. If memory runs out in any piece, the call returns the error.
pub fn diagnose<R: Threads + Sync, G: Gate>(
    rt: &R,
    alloc: Global,
    board: &Board,
    plan: &Plan,
    log: &Log,
    workers: u32,
    gate: &G,
) -> Result<Vec<Single>, AllocError>
    requires some { 1 ≤ workers }
    requires few { workers ≤ 64 }
    requires plan { IsPlanOf board.now plan.now }
    requires passes { plan.now.passes ≡ passes_of board.now }
    requires rows { length log.now ≡ length plan.now.passes * plan.now.width }
    requires bits { All (λ row. length row ≡ data_bits board.now) log.now }
    ensures faults { IfOk result (λ faults. AreExplaining board.now log.now faults.items) }
    ensures named { IfOk result (λ faults. All (IsFaultOnBoard board.now) faults.items) }
{
    let test = BoardTest::of(board, plan).with_universe(alloc)?;
    let search = Search::new(alloc, &test, log)?;
    explaining(rt, alloc, &search, Workers::of(workers), gate)
}

// Returns the single faults that explain the log of a search, each once and in the order of the board's list of single faults.
fn explaining<R: Threads + Sync, G: Gate>(
    rt: &R,
    alloc: Global,
    search: &Search<'_>,
    workers: Workers,
    gate: &G,
) -> Result<Vec<Single>, AllocError>
    ensures faults { IfOk result
        (λ faults. AreExplaining search.now.logged.test.board search.now.logged.log faults.items) }
    ensures named { IfOk result
        (λ faults. All (IsFaultOnBoard search.now.logged.test.board) faults.items) }
{
    let _rules = search.compared().logged().board().raw();
    let _suspects = search.suspects();
    law::suspects_suffice();
    search.faults(rt, alloc, workers, gate)
}

/// Returns the verdict on a log. `logged` has the log and the board's test. The candidates are tried as in `diagnose`. If memory runs out,
/// the call returns the error.
pub fn diagnose_logged<R: Threads + Sync, G: Gate>(
    rt: &R,
    alloc: Global,
    logged: &LoggedTest<'_>,
    workers: Workers,
    gate: &G,
) -> Result<Verdict, AllocError>
    ensures diagnosis { IfOk result
        (λ verdict. IsDiagnosis logged.now.test.board logged.now.log verdict.pass verdict.faults) }
    ensures named { IfOk result
        (λ verdict. All (IsFaultOnBoard logged.now.test.board) verdict.faults) }
{
    let test = logged.test().with_universe(alloc)?;
    diagnose_in(rt, alloc, &test, logged.log(), workers, gate)
}

/// Like `diagnose_logged`, but takes the test and the log separately. `test` also has the universe of the board, which numbers the possible
/// single faults. Many logs of the test can share it. `log` must be a log of the test: it must have the plan's rows, each as long as a data
/// scan.
pub fn diagnose_in<R: Threads + Sync, G: Gate>(
    rt: &R,
    alloc: Global,
    test: &TestUniverse<'_>,
    log: &Log,
    workers: Workers,
    gate: &G,
) -> Result<Verdict, AllocError>
    requires log { IsLogOfTest test.now log.now }
    ensures diagnosis { IfOk result
        (λ verdict. IsDiagnosis test.now.board log.now verdict.pass verdict.faults) }
    ensures named { IfOk result (λ verdict. All (IsFaultOnBoard test.now.board) verdict.faults) }
{
    let search = Search::new(alloc, test, log)?;
    let faults = explaining(rt, alloc, &search, workers, gate)?;
    Ok(Verdict {
        pass: search.compared().none_differs(),
        faults: Items::of(faults),
    })
}
