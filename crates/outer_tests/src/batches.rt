// Tests of `diagnose_all`, which returns a verdict on each log of a batch. The logs are logs of the test of the board `PAIR`.
ghost use Rattle.std.specs.Prelude.{◌≡◌, IfOk};
ghost use Rattle.batch_diag.specs.Verdicts.{AreLogs};
ghost use Rattle.board_defs.specs.Passes.{passes_of};
ghost use Rattle.scan_planner.specs.Plans.{IsPlanOf};

use crate::boards::{PAIR, UNREAD, board_of, plan_of};
use crate::explaining::shown;
use batch_diag::{Block, Verdict, blocks, diagnose_all};
use board_defs::Board;
use bt_base::OpenGate;
use run_bench::{RowFault, expect};
use scan_planner::Plan;
use std::alloc::{AllocError, Global};
use std::thread::Threads;

// The logs of three boards. The first log passes. Exactly one single fault explains the second log, and none explains the third.
const BATCH: &str = "BOARD A\n1\n2\nBOARD B\n0\n0\nBOARD C\n1\n1\n";

// The expected verdict on a log.
struct Expected {
    pass: bool,
    faults: &'static [&'static str],
}

static VERDICTS: [Expected; 3] = [
    Expected {
        pass: true,
        faults: &[],
    },
    Expected {
        pass: false,
        faults: &["and 0 1"],
    },
    Expected {
        pass: false,
        faults: &[],
    },
];

// Returns whether a verdict is the expected verdict.
fn is_expected(alloc: Global, verdict: &Verdict, expected: &Expected) -> Result<bool, AllocError> {
    let faults = verdict.faults.as_slice();
    if verdict.pass != expected.pass || faults.len() != expected.faults.len() {
        return Ok(false);
    }
    for (fault, words) in faults.iter().zip(expected.faults) {
        let found = shown(alloc, Some(*fault))?;
        if found.as_str() != *words {
            return Ok(false);
        }
    }
    Ok(true)
}

// Checks that the verdicts are those of `VERDICTS`, in this order.
fn are_expected(alloc: Global, verdicts: &[Verdict]) -> Result<(), RowFault> {
    expect("verdicts", 0, verdicts.len() == VERDICTS.len())?;
    for (row, (verdict, expected)) in verdicts.iter().zip(&VERDICTS).enumerate() {
        expect("verdicts", row, is_expected(alloc, verdict, expected)?)?;
    }
    Ok(())
}

// Checks that `diagnose_all` returns the expected verdicts with 1, 2 and 64 workers. The plan must be built from the board's passes. Each
// log must have the plan's rows, each as long as a data scan.
fn logs_hold(
    rt: &(impl Threads + Sync),
    alloc: Global,
    board: &Board,
    plan: &Plan,
    logs: &[Block],
) -> Result<(), RowFault>
    requires plan { IsPlanOf board.now plan.now }
    requires passes { plan.now.passes ≡ passes_of board.now }
    requires logs { AreLogs board.now plan.now logs.now }
{
    for workers in [1u32, 2, 64] {
        let verdicts = diagnose_all(rt, alloc, board, plan, logs, workers, &OpenGate)?;
        let held = are_expected(alloc, &verdicts);
        drop(verdicts);
        held?;
    }
    Ok(())
}

// Returns the logs of `BATCH`.
fn logs_of(alloc: Global, board: &Board, plan: &Plan) -> Result<Vec<Block>, RowFault>
    ensures { IfOk result (λ logs. AreLogs board.now plan.now logs.items) }
{
    let bytes = BATCH.as_bytes();
    if bytes.len() > 10_000 {
        return Err(UNREAD);
    }
    match blocks(alloc, bytes, plan.rows(), board.dr_bits()) {
        Ok(logs) => Ok(logs),
        Err(_) => Err(UNREAD),
    }
}

fn planned_holds(
    rt: &(impl Threads + Sync),
    alloc: Global,
    board: &Board,
    plan: &Plan,
) -> Result<(), RowFault>
    requires plan { IsPlanOf board.now plan.now }
    requires passes { plan.now.passes ≡ passes_of board.now }
{
    let logs = logs_of(alloc, board, plan)?;
    let held = logs_hold(rt, alloc, board, plan, &logs);
    drop(logs);
    held
}

fn board_holds(rt: &(impl Threads + Sync), alloc: Global, board: &Board) -> Result<(), RowFault> {
    let plan = plan_of(alloc, board)?;
    let held = planned_holds(rt, alloc, board, &plan);
    drop(plan);
    held
}

#[test]
fn each_log_of_a_batch_has_its_verdict(rt: HostRuntime) -> Result<(), RowFault> {
    let board = board_of(rt.alloc(), PAIR)?;
    let held = board_holds(&rt, rt.alloc(), &board);
    drop(board);
    held
}
