// A board's test that owns its kept passes.
ghost use Rattle.std.specs.Prelude.{◌≡◌, IfOk};

use crate::board_test::BoardTest;
use crate::kept::KeptPass;
use std::alloc::{AllocError, Global};
use std::marker::Model;

/// The test of a board with kept passes, which many logs of the test can share. The model is the board and the plan.
#[derive(Drop)]
pub struct KeptTest<'a> {
    test: BoardTest<'a>,
    kept: Vec<KeptPass>,
}

impl<'a> Model for KeptTest<'a> {
    ghost use Rattle.fault_sim.specs.Kept.{HasKeptPasses};
    ghost use Rattle.fault_sim.specs.Planned.{PlannedBoard};

    ghost Value = { PlannedBoard };

    ghost view = { λ a. a.test };

    ghost invariant = { λ a. HasKeptPasses a.test a.kept.items };
}

impl<'a> KeptTest<'a> {
    /// Returns the test, with the kept passes.
    pub fn test(&self) -> BoardTest<'_>
        ensures { result ≡ self.now }
    {
        self.test.with_kept(&self.kept)
    }
}

impl<'a> BoardTest<'a> {
    /// Returns this test with its first passes as kept passes, for use with `logs` logs. The kept passes take at most about 64 MiB. For
    /// fewer than two logs, keeps no passes.
    pub fn with_kept_passes(&self, alloc: Global, logs: usize) -> Result<KeptTest<'a>, AllocError>
        ensures { IfOk result (λ found. found ≡ self.now) }
    {
        let _plan = self.plan();
        let kept = self.kept_passes(alloc, logs)?;
        Ok(KeptTest {
            test: self.again(),
            kept,
        })
    }
}
