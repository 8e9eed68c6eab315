// Finds the verdicts on the blocks of a batch, in pieces that run side by side.
ghost use Rattle.std.specs.Prelude.{◌≡◌, ◌+◌, ◌<◌, ◌≤◌, [], ◌∷◌, length, All, IfOk};
ghost use Rattle.std.specs.Thread.{IsSync};
ghost use Rattle.board_defs.specs.Passes.{passes_of};
ghost use Rattle.scan_planner.specs.Plans.{IsPlanOf};
ghost use Rattle.diagnoser.specs.Diagnosis.{IsFaultOnBoard};
ghost use Rattle.batch_diag.specs.Verdicts.{AreLogs, AreVerdicts};
ghost use Rattle.batch_diag.specs.inner.Judging.{Judged};

use crate::batch::Batch;
use crate::block::Block;
use board_defs::Board;
use bt_base::{Gate, OpenGate};
use diagnoser::{Entered, Verdict, diagnose_in};
use fault_sim::BoardTest;
use scan_planner::Plan;
use side_by_side::{Piece, Workers, in_pieces};
use std::alloc::{AllocError, Global};
use std::thread::Threads;

/// Returns the verdict on each block of a batch, in the order of the blocks. Neither the number of workers nor the gate changes
/// the verdicts. The plan must be built from the board's passes. Each log must have as many rows as the plan's test, and each
/// row must be as long as a data scan.
///
/// There must be 1 to 64 workers. The blocks are cut into as many pieces as there are workers. The sizes of the pieces differ by at most
/// one block. Directly before a piece takes a block, it calls `gate.enter` with its own number and the number of the block, both counted
/// from 0. The first half of the pieces runs side by side with the second half, and each half is halved again in the same way, down to
/// single pieces. Each block is diagnosed by one worker. If memory runs out in any piece, the call returns the error.
pub fn diagnose_all<R: Threads + Sync, G: Gate>(
    rt: &R,
    alloc: Global,
    board: &Board,
    plan: &Plan,
    blocks: &[Block],
    workers: u32,
    gate: &G,
) -> Result<Vec<Verdict>, AllocError>
    requires some { 1 ≤ workers }
    requires few { workers ≤ 64 }
    requires plan { IsPlanOf board.now plan.now }
    requires passes { plan.now.passes ≡ passes_of board.now }
    requires logs { AreLogs board.now plan.now blocks.now }
    ensures verdicts { IfOk result (λ verdicts. AreVerdicts board.now blocks.now verdicts.items) }
    ensures count { IfOk result (λ verdicts. length verdicts.items ≡ length blocks.now) }
    ensures named { IfOk result
        (λ verdicts. All (λ verdict. All (IsFaultOnBoard board.now) verdict.faults) verdicts.items) }
{
    let test = BoardTest::of(board, plan);
    diagnose_blocks(rt, alloc, &test, blocks, Workers::of(workers), gate)
}

/// Like `diagnose_all`, but takes the board and the plan as the board's test.
pub fn diagnose_blocks<R: Threads + Sync, G: Gate>(
    rt: &R,
    alloc: Global,
    test: &BoardTest<'_>,
    blocks: &[Block],
    workers: Workers,
    gate: &G,
) -> Result<Vec<Verdict>, AllocError>
    requires logs { AreLogs test.now.board test.now.plan blocks.now }
    ensures verdicts { IfOk result
        (λ verdicts. AreVerdicts test.now.board blocks.now verdicts.items) }
    ensures count { IfOk result (λ verdicts. length verdicts.items ≡ length blocks.now) }
    ensures named { IfOk result
        (λ verdicts. All (λ verdict. All (IsFaultOnBoard test.now.board) verdict.faults)
        verdicts.items) }
{
    let kept = test.with_kept_passes(alloc, blocks.len())?;
    let test = kept.test().with_universe(alloc)?;
    let batch = Batch {
        test: &test,
        blocks,
    };
    judge_pieces(rt, alloc, batch, workers, gate)
}

// Returns the verdict on block `i`, which one worker finds. `i` is counted from 0 and must be below the number of blocks. `_entered` shows
// that the gate was entered, so no log is diagnosed before that.
fn verdict_on<R: Threads + Sync>(
    rt: &R,
    alloc: Global,
    batch: Batch<'_, '_>,
    i: u64,
    _entered: &Entered,
) -> Result<Verdict, AllocError>
    requires { i < length batch.blocks.now }
    ensures { IfOk result (λ verdict. Judged batch.entry i (i + 1) (verdict ∷ [])) }
{
    let log = &batch.blocks[i as usize].log;
    diagnose_in(rt, alloc, batch.test, log, Workers::of(1), &OpenGate)
}

// Enters the gate for the piece with number `piece`, and then returns the verdict on block `i`. `i` is counted from 0 and must be below the
// number of blocks.
fn judge<R: Threads + Sync, G: Gate>(
    rt: &R,
    alloc: Global,
    batch: Batch<'_, '_>,
    piece: u32,
    i: u64,
    gate: &G,
) -> Result<Verdict, AllocError>
    requires { i < length batch.blocks.now }
    ensures { IfOk result (λ verdict. Judged batch.entry i (i + 1) (verdict ∷ [])) }
{
    let entered = Entered::by(gate, piece, i);
    verdict_on(rt, alloc, batch, i, &entered)
}

// Returns the verdicts on the blocks of a piece, which must be a range of the batch's blocks.
fn judge_piece<R: Threads + Sync, G: Gate>(
    rt: &R,
    alloc: Global,
    batch: Batch<'_, '_>,
    piece: Piece,
    gate: &G,
) -> Result<Vec<Verdict>, AllocError>
    requires order { piece.first ≤ piece.end }
    requires within { piece.end ≤ length batch.blocks.now }
    ensures { IfOk result (λ verdicts. Judged batch.entry piece.first piece.end verdicts.items) }
{
    let mut verdicts = Vec::new(alloc);
    for i in piece.first..piece.end {
        verdicts.push(judge(rt, alloc, batch, piece.number, i, gate)?)?;
    }
    Ok(verdicts)
}

// Returns the verdicts on all blocks, which are cut into as many pieces as there are workers.
fn judge_pieces<R: Threads + Sync, G: Gate>(
    rt: &R,
    alloc: Global,
    batch: Batch<'_, '_>,
    workers: Workers,
    gate: &G,
) -> Result<Vec<Verdict>, AllocError>
    ensures { IfOk result
        (λ verdicts. Judged batch.entry 0 (length batch.entry.blocks.now) verdicts.items) }
{
    let count = batch.blocks.len() as u64;
    let find = move |piece: Piece| -> Result<Vec<Verdict>, AllocError>
        requires { IsSync R.row × (piece.first ≤ piece.end)
            × (piece.end ≤ length batch.blocks.now) }
        ensures { IfOk result
            (λ verdicts. Judged batch.entry piece.first piece.end verdicts.items) }
    { judge_piece(rt, alloc, batch, piece, gate) };
    in_pieces(rt, alloc, count, workers.number(), &find)
}
