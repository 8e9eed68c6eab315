// A board's test with the universe of the board, which numbers the board's possible single faults.
ghost use Rattle.std.specs.Prelude.{◌≡◌, IfOk};
ghost use Rattle.fault_sim.specs.Places.{IsUniverse};

use crate::board_test::BoardTest;
use crate::universe::Universe;
use std::alloc::{AllocError, Global};
use std::marker::Model;

/// The test of a board with the universe of the board, which many logs of the test can share. The model is the board and the plan.
#[derive(Drop)]
pub struct TestUniverse<'a> {
    test: BoardTest<'a>,
    universe: Universe,
}

impl<'a> Model for TestUniverse<'a> {
    ghost use Rattle.fault_sim.specs.Places.{IsUniverse};
    ghost use Rattle.fault_sim.specs.Planned.{PlannedBoard};

    ghost Value = { PlannedBoard };

    ghost view = { λ a. a.test };

    ghost invariant = { λ a. IsUniverse a.test.board a.universe };
}

impl<'a> TestUniverse<'a> {
    /// Returns the test.
    pub fn test(&self) -> &BoardTest<'a>
        ensures { result.now ≡ self.now }
    {
        &self.test
    }

    /// Returns the universe of the board.
    pub fn universe(&self) -> &Universe
        ensures { IsUniverse self.now.board result.now }
    {
        &self.universe
    }
}

impl<'a> BoardTest<'a> {
    /// Returns this test with the universe of its board.
    pub fn with_universe(&self, alloc: Global) -> Result<TestUniverse<'a>, AllocError>
        ensures { IfOk result (λ found. found ≡ self.now) }
    {
        let universe = Universe::of(alloc, self)?;
        Ok(TestUniverse {
            test: self.again(),
            universe,
        })
    }
}
