// Fills the rows of a scan of the walking test.
ghost use Rattle.std.specs.Prelude.{◌≡◌, ◌+◌, ◌<◌, ◌≤◌, true, length, slice_get, option_copied};
ghost use Rattle.board_defs.specs.Pins.{data_bits};
ghost use Rattle.plan_tables.specs.Assigned.{assigned};
ghost use Rattle.scan_planner.specs.Plans.{IsRoom};
ghost use Rattle.tap_defs.specs.chain.ScanRows.{AreSameRows, EachHasRoom};
ghost use Rattle.walk_test.specs.Tables.{IsWalkOf, count_walk_scans};
ghost use Rattle.walk_test.specs.inner.Tables.{board_walk, cells_before, walk_mask, walk_expected, shifted_in};
ghost use Rattle.walk_test.specs.inner.Filled.{FillsWalkRows};

use crate::tables::{NetCells, WalkTables};
use board_defs::Board;
use bt_bits::Row;
use scan_planner::BoardPlan;
use std::marker::Model;
use tap_defs::{ScanRows, Shape};

// A board that has a pass, with the tables of its walking test. Fills the scans after the EXTEST codes.
#[derive(Drop)]
struct RowFiller<'a> {
    board: &'a Board,
    tables: &'a WalkTables,
}

impl<'a> Model for RowFiller<'a> {
    ghost use Rattle.std.specs.Prelude.{◌<◌, length};
    ghost use Rattle.walk_test.specs.Tables.{IsWalkOf};
    ghost use Rattle.walk_test.specs.inner.Tables.{BoardWalk, board_walk};

    ghost Value = { BoardWalk };

    ghost view = { λ a. board_walk a.board.now a.tables.now };

    ghost invariant = { λ a. IsWalkOf a.board.now a.tables.now
        × (0 < length a.tables.now.plan.passes) };
}

// Returns the cells of walk net `j`, if there is one.
fn cells_at(tables: &WalkTables, j: usize) -> Option<&NetCells>
    ensures { option_copied result ≡ slice_get tables.now.cells j }
{
    tables.cells.as_slice().get(j)
}

// Returns the cells of the walk net before walk net `j`, if there is one.
fn cells_before(tables: &WalkTables, j: usize) -> Option<&NetCells>
    ensures { option_copied result ≡ cells_before tables.now.cells j }
{
    if j > 0 { cells_at(tables, j - 1) } else { None }
}

/// Sets the bits at these positions to 1. Positions past the end are ignored.
pub fn set_all(positions: &[u32], row: &mut Row)
    ensures bits { row.new.bits ≡ assigned (λ p. p) (λ p. true) row.old.bits positions.now }
    ensures room { row.new.room ≡ row.old.room }
{
    for position in positions {
        if *position < row.len() {
            row.set(*position, true);
        }
    }
}

impl<'a> RowFiller<'a> {
    fn of(board: &'a Board, tables: &'a WalkTables) -> RowFiller<'a>
        requires walk { IsWalkOf board.now tables.now }
        requires some { 0 < length tables.now.plan.passes }
        ensures { result ≡ board_walk board.now tables.now }
    {
        RowFiller { board, tables }
    }

    // Fills `tdi` with row `j`, in which walk net `j` carries 1. After the last walk net, the row is the quiet row,
    // which disables every driver that has a control. `tdi` must have room for a scan of data.
    fn shift(&self, j: usize, tdi: &mut Row)
        requires { data_bits self.now.board ≤ tdi.old.room }
        ensures bits { tdi.new.bits ≡ shifted_in self.now j }
        ensures kept { tdi.new.room ≡ tdi.old.room }
    {
        let _rules = self.board.raw();
        match cells_at(self.tables, j) {
            None => tdi.copy_row(self.tables.plan.quiet_row()),
            Some(cells) => {
                tdi.copy_row(&self.tables.rows.still);
                tdi.set(cells.driver, true);
            }
        }
    }

    // Fills `tdo` and `mask` for scan `j` after the EXTEST codes. The first of these scans is scan 0, and it compares
    // nothing. Any other scan captures while row `j - 1` is in the update latches. The compared cells of the walk net
    // that carries 1 in that row should read 1, and all other compared cells should read 0. `j` must be at most the
    // number of walk nets, and each row must have room for a scan of data.
    fn compare(&self, j: usize, tdo: &mut Row, mask: &mut Row)
        requires row { j ≤ length self.now.tables.nets }
        requires tdo_room { data_bits self.now.board ≤ tdo.old.room }
        requires mask_room { data_bits self.now.board ≤ mask.old.room }
        ensures tdo { tdo.new.bits ≡ walk_expected self.now j }
        ensures mask { mask.new.bits ≡ walk_mask self.now j }
        ensures tdo_kept { tdo.new.room ≡ tdo.old.room }
        ensures mask_kept { mask.new.room ≡ mask.old.room }
    {
        let _rules = self.board.raw();
        let len = self.board.dr_bits();
        tdo.clear(len);
        match cells_before(self.tables, j) {
            None => mask.clear(len),
            Some(cells) => {
                set_all(cells.compared.as_slice(), tdo);
                mask.copy_row(&self.tables.rows.mask);
            }
        }
    }

    // Fills the three rows with scan `j` after the EXTEST codes. The first of these scans is scan 0. Returns the scan's
    // shape (whether it is an instruction scan, and whether it compares a bit). `j` must be at most the number of walk
    // nets. Each row must have room for a scan of instructions and for a scan of data.
    fn fill(&self, j: usize, rows: &mut ScanRows) -> Shape
        requires row { j ≤ length self.now.tables.nets }
        requires room { EachHasRoom (IsRoom self.now.board) rows.old }
        ensures filled { FillsWalkRows self.now.board (3 + j) result rows.new }
        ensures kept { AreSameRows rows.old rows.new }
    {
        let _rules = self.board.raw();
        self.shift(j, rows.tdi);
        self.compare(j, rows.tdo, rows.mask);
        Shape {
            ir: false,
            compare: j > 0,
        }
    }
}

/// Fills the rows with scan `k` of the walking test, counted from 0, and returns the scan's shape (whether it
/// is an instruction scan, and whether it compares a bit). `k` must be below the number of scans, and
/// `tables` must be made for the board. Each row must have room for a scan of instructions and for a scan of
/// data.
pub fn fill_scan(board: &Board, tables: &WalkTables, k: u64, rows: &mut ScanRows) -> Shape
    requires walk { IsWalkOf board.now tables.now }
    requires scan { k < count_walk_scans tables.now }
    requires room { EachHasRoom (IsRoom board.now) rows.old }
    ensures filled { FillsWalkRows board.now k result rows.new }
    ensures kept { AreSameRows rows.old rows.new }
{
    let _rules = board.raw();
    if k < 3 {
        BoardPlan::new(board, &tables.plan).fill(k, rows)
    } else {
        RowFiller::of(board, tables).fill((k - 3) as usize, rows)
    }
}
