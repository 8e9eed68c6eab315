// Fills rows that hold one scan with the next scan. The rows of a pass are made once, and each scan of the pass is copied from them.
ghost use Rattle.std.specs.Prelude.{◌≡◌, ◌+◌, ◌*◌, ◌<◌, ◌≤◌, suc};
ghost use Rattle.std.specs.List.{list_any};
ghost use Rattle.board_defs.specs.Pins.{data_bits};
ghost use Rattle.tap_defs.specs.chain.Scan.{tdi_bits, tdo_bits, mask_bits};
ghost use Rattle.tap_defs.specs.chain.ScanRows.{AreSameRows, EachHasRoom};
ghost use Rattle.scan_planner.specs.PassRows.{AreKept};
ghost use Rattle.scan_planner.specs.Planned.{FillsRows, scan_bits_of};
ghost use Rattle.scan_planner.specs.Plans.{IsRoom, scan_count};
ghost use Rattle.scan_planner.specs.inner.Compared.{AreBothKept, BothHaveRoom, HoldCompared};

use crate::board_plan::{BoardPlan, PassOfPlan};
use crate::compared_rows::ComparedRows;
use crate::pass_rows::{PassRows, StackedRows};
use bt_bits::Row;
use std::marker::Model;
use tap_defs::{ScanRows, Shape};

// A pass with its rows, from which the scans of the pass are copied. Its value in contracts is only the pass.
#[derive(Drop)]
struct PassWithRows<'a, 'k> {
    pass: PassOfPlan<'a>,
    rows: &'k StackedRows,
}

impl<'a, 'k> Model for PassWithRows<'a, 'k> {
    ghost use Rattle.scan_planner.specs.PassRows.{ArePassRows};
    ghost use Rattle.scan_planner.specs.Planned.{PlannedPass};

    ghost Value = { PlannedPass };

    ghost view = { λ a. a.pass };

    ghost invariant = { λ a. ArePassRows a.pass.test.board a.pass.test.plan a.pass.number
        a.rows.now };
}

impl<'a, 'k> PassWithRows<'a, 'k> {
    // Fills `tdi` with row `j` of the pass, or with the quiet row if the pass has no row `j`. The quiet row
    // disables every driver that has a control. `tdi` must have room for a data scan.
    fn shift(&self, j: u32, tdi: &mut Row)
        requires { data_bits self.now.test.board ≤ tdi.old.room }
        ensures bits { tdi.new.bits ≡ tdi_bits (scan_bits_of self.now j) }
        ensures kept { tdi.new.room ≡ tdi.old.room }
    {
        self.pass.laws();
        if j < self.pass.width() {
            tdi.copy_stacked(&self.rows.shifted, j)
        } else {
            self.pass.test().shift_quiet(tdi)
        }
    }

    // Fills `tdo` with the expected bits of row `j`, which must be a row of the pass. `tdo` must have room
    // for a data scan.
    fn expect(&self, j: u32, tdo: &mut Row)
        requires row { j < self.now.test.plan.width }
        requires room { data_bits self.now.test.board ≤ tdo.old.room }
        ensures bits { tdo.new.bits ≡ tdo_bits (scan_bits_of self.now (suc j)) }
        ensures kept { tdo.new.room ≡ tdo.old.room }
    {
        self.pass.laws();
        tdo.copy_stacked(&self.rows.expected, j);
    }

    // Fills `mask` with the mask of row `j`, which must be a row of the pass. `mask` must have room for a
    // data scan.
    fn mark(&self, j: u32, mask: &mut Row)
        requires row { j < self.now.test.plan.width }
        requires room { data_bits self.now.test.board ≤ mask.old.room }
        ensures bits { mask.new.bits ≡ mask_bits (scan_bits_of self.now (suc j)) }
        ensures kept { mask.new.room ≡ mask.old.room }
    {
        mask.copy_row(&self.rows.mask);
    }

    // Fills the rows with the expected bits and the mask of row `j - 1`, or with zeros if `j` is 0. Returns
    // whether any bit is compared. All rows of a pass have the same mask. So if `j` is above 1, the call
    // leaves the mask unchanged and returns `told`. In this case, `rows` must already have the mask, and
    // `told` must say whether some bit of it is 1. `j` must be at most the number of rows of a pass, and each
    // row must have room for a data scan.
    fn compare_before(&self, j: u32, told: bool, rows: &mut ComparedRows) -> bool
        requires row { j ≤ self.now.test.plan.width }
        requires stands { 1 < j
            → (rows.old.mask.now.bits ≡ mask_bits (scan_bits_of self.now j))
            × (told ≡ list_any (λ bit. bit) rows.old.mask.now.bits) }
        requires room { BothHaveRoom (data_bits self.now.test.board) rows.old }
        ensures bits { HoldCompared (scan_bits_of self.now j) rows.new }
        ensures compare { result ≡ list_any (λ bit. bit) rows.new.mask.now.bits }
        ensures kept { AreBothKept rows.old rows.new }
    {
        if j == 0 {
            self.pass.test().compare_nothing(rows);
            return false;
        }
        self.expect(j - 1, rows.tdo);
        if j > 1 {
            return told;
        }
        self.mark(j - 1, rows.mask);
        rows.mask.has_one()
    }

    // Fills the rows with scan `j` of the pass, and returns its shape (whether it is an instruction scan, and
    // whether it compares a bit). The rows must hold the previous scan of the test, and `before` must be its
    // shape. `j` must be at most the number of rows of a pass. Each row must have room for an instruction
    // scan and for a data scan.
    fn fill(&self, j: u32, before: Shape, rows: &mut ScanRows) -> Shape
        requires row { j ≤ self.now.test.plan.width }
        requires before { FillsRows self.now.test
            (2 + (self.now.number * suc self.now.test.plan.width + j)) before rows.old }
        requires room { EachHasRoom (IsRoom self.now.test.board) rows.old }
        ensures filled { FillsRows self.now.test
            (3 + (self.now.number * suc self.now.test.plan.width + j)) result rows.new }
        ensures kept { AreSameRows rows.old rows.new }
    {
        self.pass.laws();
        self.shift(j, rows.tdi);
        Shape {
            ir: false,
            compare: self.compare_before(
                j,
                before.compare,
                &mut ComparedRows {
                    tdo: rows.tdo,
                    mask: rows.mask,
                },
            ),
        }
    }
}

impl<'a> BoardPlan<'a> {
    /// Fills the rows with scan `k + 1`, which must be a scan of the test, and returns its shape. The rows
    /// must hold scan `k`, and `before` must be its shape. Each row must have room for an instruction scan
    /// and for a data scan. If scan `k + 1` belongs to a pass, `kept` has the rows of that pass after the
    /// call. `kept` must have room for a data scan. If `kept` already has rows of a pass, they must be rows
    /// of this plan.
    pub fn fill_next(
        &self,
        k: u64,
        before: Shape,
        kept: &mut PassRows,
        rows: &mut ScanRows,
    ) -> Shape
        requires next { k + 1 < scan_count self.now.plan }
        requires before { FillsRows self.now k before rows.old }
        requires kept { AreKept self.now.board self.now.plan kept.old }
        requires room { EachHasRoom (IsRoom self.now.board) rows.old }
        ensures filled { FillsRows self.now (k + 1) result rows.new }
        ensures kept { AreKept self.now.board self.now.plan kept.new }
        ensures same_rows { AreSameRows rows.old rows.new }
    {
        if k < 2 {
            return self.fill(k + 1, rows);
        }
        self.laws();
        let scans = u64::from(self.width()) + 1;
        let pass = self.pass(((k - 2) / scans) as u32);
        pass.keep_rows(kept);
        let filled = PassWithRows {
            pass,
            rows: &kept.rows,
        };
        filled.fill(((k - 2) % scans) as u32, before, rows)
    }
}
