// Compares a log with the expected bits, net by net.
ghost use Rattle.std.specs.Prelude.{◌≡◌, ◌↔◌, length, IsTrue, IfOk};
ghost use Rattle.tap_defs.specs.board.BoardScans.{svf_row_scans};
ghost use Rattle.tap_defs.specs.board.Explaining.{IsExpected};
ghost use Rattle.fault_sim.specs.Suspects.{AreDiffering};
ghost use Rattle.fault_sim.specs.Fits.{ShowsOn};
ghost use Rattle.fault_sim.specs.inner.Marks.{AreMarks};

use crate::board_test::LoggedTest;
use crate::fits::net_count;
use crate::marks::are_marked;
use lists::push_if;
use std::alloc::{AllocError, Global};
use std::marker::Model;

/// A log with its test, and the nets that differ in the log, in net order. A net differs if, in some row, a
/// cell of the net that the test compares in this row has a bit other than the expected bit. The model is the
/// test and the log.
#[derive(Drop)]
pub struct ComparedLog<'a> {
    logged: LoggedTest<'a>,
    nets: Vec<u32>,
}

impl<'a> Model for ComparedLog<'a> {
    ghost use Rattle.fault_sim.specs.Planned.{LoggedBoard};
    ghost use Rattle.fault_sim.specs.Suspects.{AreDiffering};

    ghost Value = { LoggedBoard };

    ghost view = { λ a. a.logged };

    ghost invariant = { λ a. AreDiffering a.logged.test.board a.logged.test.plan a.logged.log
        a.nets.items };
}

impl<'a> LoggedTest<'a> {
    // Returns whether net `n` has the expected bits in every pass. `marks` must have an item for each hexadecimal digit
    // of a row. If an item is 0, every compared bit of its digit must be the expected bit in all rows of the log. If
    // the items of all digits of the net's cells are 0, the result is true, and no cell is checked.
    fn shows_expected(&self, marks: &[u8], n: u32) -> bool
        requires { AreMarks self.now.test.board self.now.test.plan self.now.log
            (length self.now.test.plan.passes) marks.now }
        ensures { IsTrue result
            ↔ ShowsOn self.now.test.board self.now.test.plan None self.now.log n }
    {
        let _rules = self.board().raw();
        if !are_marked(marks, self.plan().readers(n)) {
            return true;
        }
        self.shows_on(None, n)
    }

    // Returns the nets that differ in the log, in net order. Reads each row once. Then reads only the cells of nets
    // that may differ, which are the nets that differ and few others.
    fn differing(&self, alloc: Global) -> Result<Vec<u32>, AllocError>
        ensures { IfOk result
            (λ nets. AreDiffering self.now.test.board self.now.test.plan self.now.log nets.items) }
    {
        let marks = self.marks(alloc)?;
        let mut nets = Vec::new(alloc);
        for n in 0..net_count(self.board()) {
            push_if(&mut nets, n, !self.shows_expected(&marks, n))?;
        }
        Ok(nets)
    }

    /// Finds the nets that differ in the log.
    pub fn compared(self, alloc: Global) -> Result<ComparedLog<'a>, AllocError>
        ensures { IfOk result (λ compared. compared ≡ self.entry) }
    {
        let nets = self.differing(alloc)?;
        Ok(ComparedLog { logged: self, nets })
    }
}

impl<'a> ComparedLog<'a> {
    /// Returns the log with its test.
    pub fn logged(&self) -> &LoggedTest<'a>
        ensures { result.now ≡ self.now }
    {
        &self.logged
    }

    /// Returns the nets that differ in the log, in net order.
    pub(crate) fn nets(&self) -> &[u32]
        ensures { AreDiffering self.now.test.board self.now.test.plan self.now.log result.now }
    {
        &self.nets
    }

    /// Returns whether every compared bit of the log is the expected bit.
    pub fn none_differs(&self) -> bool
        ensures { IsTrue result
            ↔ IsExpected self.now.test.board (svf_row_scans self.now.test.board) self.now.log }
    {
        self.logged().laws();
        self.nets().is_empty()
    }
}
