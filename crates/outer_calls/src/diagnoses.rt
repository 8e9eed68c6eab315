//! Calls of `diagnoser`, `batch_diag` and `walk_test` that diagnose one log, read the blocks of a batch, diagnose all blocks of a batch,
//! and find the groups of shorted nets that explain a log of a walking test.
ghost use Rattle.std.specs.Prelude.{◌≡◌, ◌*◌, ◌<◌, ◌≤◌, ◌^◌, length, option_map, All, IfOk, MatchResult};
ghost use Rattle.answers.specs.Gives.{Gives};
ghost use Rattle.board_defs.specs.Passes.{passes_of};
ghost use Rattle.board_defs.specs.Pins.{data_bits};
ghost use Rattle.scan_planner.specs.Plans.{IsPlanOf};
ghost use Rattle.diagnoser.specs.Diagnosis.{AreExplaining, IsFaultOnBoard};
ghost use Rattle.response_log.specs.LogRows.{HasSize};
ghost use Rattle.batch_diag.specs.Batch.{IsOfLines, blocks_of_text, batch_told};
ghost use Rattle.batch_diag.specs.Laws.{OneBatchText};
ghost use Rattle.batch_diag.specs.Verdicts.{AreLogs, AreVerdicts};
ghost use Rattle.walk_test.specs.Groups.{AreFound, AreNamed, Rise};
ghost use Rattle.walk_test.specs.Tables.{IsWalkOf};

use batch_diag::{BatchFault, Block, Verdict, law};
use board_defs::{Board, Single};
use bt_base::Gate;
use response_log::Log;
use scan_planner::Plan;
use short_lists::TextSlice;
use side_by_side::Workers;
use std::alloc::{AllocError, Global};
use std::thread::Threads;
use walk_test::{Group, Walk};

/// Returns the single faults of the board that explain the log, each once and in the order of the board's list of single faults. The plan
/// must be built from the board's passes. The log must have the plan's rows, each as long as a data scan. There must be 1 to 64 workers.
pub fn diagnose<R: Threads + Sync, G: Gate>(
    rt: &R,
    alloc: Global,
    board: &Board,
    plan: &Plan,
    log: &Log,
    workers: u32,
    gate: &G,
) -> Result<Vec<Single>, AllocError>
    requires some { 1 ≤ workers }
    requires few { workers ≤ 64 }
    requires plan { IsPlanOf board.now plan.now }
    requires passes { plan.now.passes ≡ passes_of board.now }
    requires rows { length log.now ≡ length plan.now.passes * plan.now.width }
    requires bits { All (λ row. length row ≡ data_bits board.now) log.now }
    ensures faults { IfOk result (λ faults. AreExplaining board.now log.now faults.items) }
    ensures named { IfOk result (λ faults. All (IsFaultOnBoard board.now) faults.items) }
{
    diagnoser::diagnose(rt, alloc, board, plan, log, workers, gate)
}

/// Returns the blocks of a batch, or the first fault of the text `bytes`. The log of each block has `rows` rows of `len` bits. The text
/// must be shorter than 2^32 bytes.
pub fn blocks(alloc: Global, bytes: &[u8], rows: u64, len: u32) -> Result<Vec<Block>, BatchFault>
    requires { length bytes.now < 2 ^ 32 }
    ensures read { Gives batch_told (λ blocks. blocks.items)
        (λ said. blocks_of_text bytes.now rows len ≡ said) result }
    ensures size { IfOk result (λ blocks. All (λ block. HasSize rows len block.log) blocks.items) }
    ensures inner { MatchResult result (λ _. Unit {0}) IsOfLines }
{
    batch_diag::blocks(alloc, bytes, rows, len)
}

/// Like `blocks`, but reads the logs in as many pieces as there are workers.
pub fn blocks_by<R: Threads + Sync>(
    rt: &R,
    alloc: Global,
    text: TextSlice<'_>,
    rows: u64,
    len: u32,
    workers: Workers,
) -> Result<Vec<Block>, BatchFault>
    ensures read { Gives batch_told (λ blocks. blocks.items)
        (λ said. blocks_of_text text.entry.items.now rows len ≡ said) result }
    ensures size { IfOk result (λ blocks. All (λ block. HasSize rows len block.log) blocks.items) }
    ensures inner { MatchResult result (λ _. Unit {0}) IsOfLines }
{
    batch_diag::blocks_by(rt, alloc, text, rows, len, workers)
}

/// Returns the verdict on each block, in the order of the blocks. The plan must be built from the board's passes. The log of each block
/// must have the plan's rows, each as long as a data scan. There must be 1 to 64 workers.
pub fn diagnose_all<R: Threads + Sync, G: Gate>(
    rt: &R,
    alloc: Global,
    board: &Board,
    plan: &Plan,
    blocks: &[Block],
    workers: u32,
    gate: &G,
) -> Result<Vec<Verdict>, AllocError>
    requires some { 1 ≤ workers }
    requires few { workers ≤ 64 }
    requires plan { IsPlanOf board.now plan.now }
    requires passes { plan.now.passes ≡ passes_of board.now }
    requires logs { AreLogs board.now plan.now blocks.now }
    ensures verdicts { IfOk result (λ verdicts. AreVerdicts board.now blocks.now verdicts.items) }
    ensures count { IfOk result (λ verdicts. length verdicts.items ≡ length blocks.now) }
    ensures named { IfOk result
        (λ verdicts. All (λ verdict. All (IsFaultOnBoard board.now) verdict.faults) verdicts.items) }
{
    batch_diag::diagnose_all(rt, alloc, board, plan, blocks, workers, gate)
}

/// States that a board and the blocks of a batch have at most one text of their diagnoses. So neither the number of workers nor the gate
/// changes this text.
pub fn one_batch_text()
    ensures { OneBatchText }
{
    law::one_batch_text();
}

/// Returns the set of groups of walk nets that explains a log of the walking test, or None if no set does. The walk must be made for the
/// board. The log must have a row for each walk net, and each row must be as long as a data scan. The nets of the groups are nets of the
/// board.
pub fn groups(
    alloc: Global,
    board: &Board,
    walk: &Walk,
    log: &Log,
) -> Result<Option<Vec<Group>>, AllocError>
    requires walk { IsWalkOf board.now walk.now }
    requires rows { length log.now ≡ length walk.now.nets }
    requires bits { All (λ row. length row ≡ data_bits board.now) log.now }
    ensures found { IfOk result
        (λ found. AreFound board.now log.now (option_map (λ groups. groups.items) found)) }
    ensures named { IfOk result
        (λ found. AreNamed board.now (option_map (λ groups. groups.items) found)) }
{
    walk_test::groups(alloc, board, walk, log)
}

/// Returns the numbers of the nets of the group, in ascending order.
pub fn group_nets(group: &Group) -> &[u32]
    ensures nets { result.now ≡ group.now }
    ensures order { Rise group.now }
{
    group.nets()
}
