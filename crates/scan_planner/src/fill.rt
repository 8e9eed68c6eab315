// Fills rows with a scan of a plan's test.
ghost use Rattle.std.specs.Prelude.{◌≡◌, ◌+◌, ◌*◌, ◌<◌, ◌≤◌, suc, true, false, List};
ghost use Rattle.std.specs.List.{list_any};
ghost use Rattle.board_defs.specs.Pins.{data_bits};
ghost use Rattle.tap_defs.specs.board.TestRows.{quiet_row};
ghost use Rattle.tap_defs.specs.board.BoardScans.{RowScan, row_bits};
ghost use Rattle.tap_defs.specs.chain.Scan.{ScanBit, joined, mask_bits, tdi_bits, tdo_bits};
ghost use Rattle.tap_defs.specs.chain.ScanRows.{AreRowsOf, AreSameRows, EachHasRoom, HaveRoomFor, HoldBits};
ghost use Rattle.scan_planner.specs.Planned.{FillsRows, scan_bits_of};
ghost use Rattle.scan_planner.specs.Plans.{IsRoom, scan_count};
ghost use Rattle.scan_planner.specs.inner.Compared.{AreBothKept, BothHaveRoom, HoldCompared};

use crate::board_plan::{BoardPlan, PassOfPlan};
use crate::code_rows::{NoRows, RowAt};
use crate::compared_rows::ComparedRows;
use bt_bits::Row;
use tap_defs::{ScanRows, Shape, StoredRows};

// Fills the rows with a stored instruction scan. Returns its shape, which says whether the scan is an instruction scan
// and whether it compares any bit. The rows must have room for this scan.
fn fill_codes(codes: &StoredRows, rows: &mut ScanRows) -> Shape
    requires { HaveRoomFor codes.now rows.old }
    ensures bits { (bits : List ScanBit) → AreRowsOf bits codes.now → HoldBits bits rows.new }
    ensures ir { result.ir ≡ true }
    ensures compare { result.compare ≡ list_any (λ bit. bit) rows.new.mask.now.bits }
    ensures kept { AreSameRows rows.old rows.new }
{
    rows.copy_from(codes);
    Shape {
        ir: true,
        compare: rows.mask.has_one(),
    }
}

impl<'a> BoardPlan<'a> {
    /// Fills `tdi` with the quiet row, which disables every driver that has a control. `tdi` must have room
    /// for a data scan.
    pub fn shift_quiet(&self, tdi: &mut Row)
        requires { data_bits self.now.board ≤ tdi.old.room }
        ensures bits { (scan : RowScan) → scan.now ≡ quiet_row
            → tdi.new.bits ≡ tdi_bits (joined (row_bits self.now.board scan)) }
        ensures kept { tdi.new.room ≡ tdi.old.room }
    {
        self.laws();
        let tables = self.tables();
        tdi.copy_row(&tables.quiet);
    }

    /// Fills both rows with zeros. These are the expected bits and the mask of the scan after the quiet row,
    /// since that scan compares nothing. Each row must have room for a data scan.
    pub fn compare_nothing(&self, rows: &mut ComparedRows)
        requires { BothHaveRoom (data_bits self.now.board) rows.old }
        ensures bits { (scan : RowScan) → scan.before ≡ quiet_row
            → HoldCompared (joined (row_bits self.now.board scan)) rows.new }
        ensures nothing { list_any (λ bit. bit) rows.new.mask.now.bits ≡ false }
        ensures kept { AreBothKept rows.old rows.new }
    {
        let len = self.board().dr_bits();
        rows.tdo.clear(len);
        rows.mask.clear(len);
    }

    // Fills the rows with the second scan, which shifts in the quiet row and compares nothing. Returns its
    // shape. Each row must have room for an instruction scan and for a data scan.
    fn fill_quiet(&self, rows: &mut ScanRows) -> Shape
        requires { EachHasRoom (IsRoom self.now.board) rows.old }
        ensures filled { FillsRows self.now 1 result rows.new }
        ensures kept { AreSameRows rows.old rows.new }
    {
        self.laws();
        self.shift_quiet(rows.tdi);
        self.compare_nothing(&mut ComparedRows {
            tdo: rows.tdo,
            mask: rows.mask,
        });
        Shape {
            ir: false,
            compare: false,
        }
    }

    // Fills the rows with scan `k`, which must be one of the first three scans, and returns its shape. These
    // scans shift in the preload codes, the quiet row and the EXTEST codes, in this order. Each row must have
    // room for an instruction scan and for a data scan.
    fn fill_early(&self, k: u64, rows: &mut ScanRows) -> Shape
        requires early { k < 3 }
        requires room { EachHasRoom (IsRoom self.now.board) rows.old }
        ensures filled { FillsRows self.now k result rows.new }
        ensures kept { AreSameRows rows.old rows.new }
    {
        self.laws();
        let tables = self.tables();
        if k == 0 {
            fill_codes(&tables.preload, rows)
        } else if k == 1 {
            self.fill_quiet(rows)
        } else {
            fill_codes(&tables.extest, rows)
        }
    }

    /// Fills the rows with scan `k` of the test, counted from 0, and returns its shape. `k` must be below the
    /// number of scans, and each row must have room for an instruction scan and for a data scan. Allocates
    /// nothing.
    pub fn fill(&self, k: u64, rows: &mut ScanRows) -> Shape
        requires scan { k < scan_count self.now.plan }
        requires room { EachHasRoom (IsRoom self.now.board) rows.old }
        ensures filled { FillsRows self.now k result rows.new }
        ensures kept { AreSameRows rows.old rows.new }
    {
        if k < 3 {
            self.fill_early(k, rows)
        } else {
            self.laws();
            let scans = u64::from(self.width()) + 1;
            let pass = self.pass(((k - 3) / scans) as u32);
            pass.fill(((k - 3) % scans) as u32, rows)
        }
    }
}

impl<'a> PassOfPlan<'a> {
    /// Fills `tdi` with the bits that row `j` of the pass shifts in. `j` must be below the number of rows of
    /// a pass, and `tdi` must have room for a data scan. Allocates nothing.
    pub fn fill_shifted(&self, j: u32, tdi: &mut Row)
        requires row { j < self.now.test.plan.width }
        requires room { data_bits self.now.test.board ≤ tdi.old.room }
        ensures bits { tdi.new.bits ≡ tdi_bits (scan_bits_of self.now j) }
        ensures kept { tdi.new.room ≡ tdi.old.room }
    {
        self.laws();
        tdi.copy_stacked(&self.common().stacked.shifted, j);
        let mut shifted = RowAt {
            row: tdi,
            number: j,
        };
        self.walk(&mut shifted, &mut NoRows, &mut NoRows);
    }

    /// Fills two rows with the expected bits and the mask of row `j` of the pass, which the next scan
    /// compares. `j` must be below the number of rows of a pass, and each row must have room for a data scan.
    /// Allocates nothing.
    pub fn fill_compared(&self, j: u32, tdo: &mut Row, mask: &mut Row)
        requires row { j < self.now.test.plan.width }
        requires tdo_room { data_bits self.now.test.board ≤ tdo.old.room }
        requires mask_room { data_bits self.now.test.board ≤ mask.old.room }
        ensures tdo { tdo.new.bits ≡ tdo_bits (scan_bits_of self.now (suc j)) }
        ensures mask { mask.new.bits ≡ mask_bits (scan_bits_of self.now (suc j)) }
        ensures tdo_kept { tdo.new.room ≡ tdo.old.room }
        ensures mask_kept { mask.new.room ≡ mask.old.room }
    {
        self.compare_row(j, &mut ComparedRows { tdo, mask });
    }

    // Fills the rows with the expected bits and the mask of row `j` of the pass. `j` must be below the number
    // of rows of a pass, and each row must have room for a data scan.
    fn compare_row(&self, j: u32, rows: &mut ComparedRows)
        requires row { j < self.now.test.plan.width }
        requires room { BothHaveRoom (data_bits self.now.test.board) rows.old }
        ensures bits { HoldCompared (scan_bits_of self.now (suc j)) rows.new }
        ensures kept { AreBothKept rows.old rows.new }
    {
        self.laws();
        let common = self.common();
        rows.tdo.copy_row(common.expected_row(j));
        rows.mask.copy_row(&common.stacked.mask);
        let mut expected = RowAt {
            row: rows.tdo,
            number: j,
        };
        let mut marks = RowAt {
            row: rows.mask,
            number: 0,
        };
        self.walk(&mut NoRows, &mut expected, &mut marks);
    }

    // Fills `tdi` with row `j` of the pass, or with the quiet row if the pass has no row `j`. `tdi` must have
    // room for a data scan.
    fn shift(&self, j: u32, tdi: &mut Row)
        requires { data_bits self.now.test.board ≤ tdi.old.room }
        ensures bits { tdi.new.bits ≡ tdi_bits (scan_bits_of self.now j) }
        ensures kept { tdi.new.room ≡ tdi.old.room }
    {
        if j < self.width() {
            self.fill_shifted(j, tdi)
        } else {
            self.test().shift_quiet(tdi)
        }
    }

    // Fills the rows with the expected bits and the mask of row `j - 1`, or with zeros if `j` is 0. Returns
    // whether any bit is compared. `j` must be at most the number of rows of a pass, and each row must have
    // room for a data scan.
    fn compare_before(&self, j: u32, rows: &mut ComparedRows) -> bool
        requires row { j ≤ self.now.test.plan.width }
        requires room { BothHaveRoom (data_bits self.now.test.board) rows.old }
        ensures bits { HoldCompared (scan_bits_of self.now j) rows.new }
        ensures compare { result ≡ list_any (λ bit. bit) rows.new.mask.now.bits }
        ensures kept { AreBothKept rows.old rows.new }
    {
        if j > 0 {
            self.compare_row(j - 1, rows);
            rows.mask.has_one()
        } else {
            self.test().compare_nothing(rows);
            false
        }
    }

    // Fills the rows with scan `j` of the pass, and returns its shape. `j` must be at most the number of rows
    // of a pass. Each row must have room for an instruction scan and for a data scan.
    fn fill(&self, j: u32, rows: &mut ScanRows) -> Shape
        requires row { j ≤ self.now.test.plan.width }
        requires room { EachHasRoom (IsRoom self.now.test.board) rows.old }
        ensures filled { FillsRows self.now.test
            (3 + (self.now.number * suc self.now.test.plan.width + j)) result rows.new }
        ensures kept { AreSameRows rows.old rows.new }
    {
        self.laws();
        self.shift(j, rows.tdi);
        Shape {
            ir: false,
            compare: self.compare_before(
                j,
                &mut ComparedRows {
                    tdo: rows.tdo,
                    mask: rows.mask,
                },
            ),
        }
    }
}
