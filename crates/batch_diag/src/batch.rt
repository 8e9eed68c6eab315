// A batch: blocks with logs of a board's test.
ghost use Rattle.batch_diag.specs.Verdicts.{AreLogs};

use crate::block::Block;
use fault_sim::TestUniverse;

/// The test of a board, with the board's universe (the numbered possible single faults), and blocks with logs
/// of the test.
#[derive(Clone, Copy)]
pub struct Batch<'a, 'b> {
    pub test: &'a TestUniverse<'b>,
    pub blocks: &'a [Block],
    ghost logs: { AreLogs test.now.board test.now.plan blocks.now },
}
