// The type `Plan`, which makes a plan, counts its scans and rows, and fills rows with a scan.
ghost use Rattle.std.specs.Prelude.{◌≡◌, ◌*◌, ◌<◌, ◌^◌, length, IfOk};
ghost use Rattle.net_pins.specs.Tables.{AreNetPins};
ghost use Rattle.plan_tables.specs.Plans.{ArePlannable, IsPlanOf};
ghost use Rattle.scan_planner.specs.PassRows.{AreCommonRows};
ghost use Rattle.scan_planner.specs.Plans.{FillsScan, IsRoom, scan_count};

use crate::board_plan::BoardPlan;
use crate::common_rows::CommonRows;
use board_defs::{Board, Items, Setting};
use bt_bits::Row;
use net_pins::NetPins;
use plan_tables::{PlanTables, tables_of};
use std::alloc::{AllocError, Global};
use std::marker::Model;
use tap_defs::{ScanRows, Shape};

/// The plan of a board's test: its passes, the tables from which each scan is made, and the rows that all passes
/// share.
#[derive(Drop)]
pub struct Plan {
    pub(crate) tables: PlanTables,
    // The rows that all passes share.
    common: CommonRows,
}

impl Model for Plan {
    ghost use Rattle.plan_tables.specs.Plans.{most_rows};
    ghost use Rattle.std.specs.Prelude.{◌<◌, ◌≤◌, ◌^◌, length};
    ghost use Rattle.plan_tables.specs.declared.tables.PlanTables.{PlanTables};
    ghost use Rattle.scan_planner.specs.PassRows.{AreCommonRows};

    ghost Value = { PlanTables };

    ghost view = { λ a. a.tables };

    ghost invariant = { λ a. (length a.tables.passes < 2 ^ 32) × (a.tables.width ≤ most_rows)
        × AreCommonRows a.tables a.common };
}

impl Plan {
    /// Makes the plan of these passes. There must be fewer than 2^32 passes. Each pass must be safe, and each of its
    /// controls must control a driver of the board. The nets that some pass observes are numbered from 1 in net order,
    /// and these numbers are their codes. Like `of`, but collects the pins of the board's nets itself.
    pub fn new(alloc: Global, board: &Board, passes: Vec<Setting>) -> Result<Plan, AllocError>
        requires few { length passes.items < 2 ^ 32 }
        requires plannable { ArePlannable board.now passes.items }
        ensures plan { IfOk result (λ plan. IsPlanOf board.now plan) }
        ensures passes { IfOk result (λ plan. plan.passes ≡ passes.items) }
    {
        let pins = NetPins::new(alloc, board)?;
        Plan::of(alloc, board, pins, passes)
    }

    /// Like `new`, but takes ownership of `pins`, the pins of the board's nets.
    pub fn of(
        alloc: Global,
        board: &Board,
        pins: NetPins,
        passes: Vec<Setting>,
    ) -> Result<Plan, AllocError>
        requires pins { AreNetPins board.now pins }
        requires few { length passes.items < 2 ^ 32 }
        requires plannable { ArePlannable board.now passes.items }
        ensures plan { IfOk result (λ plan. IsPlanOf board.now plan) }
        ensures passes { IfOk result (λ plan. plan.passes ≡ passes.items) }
    {
        let tables = tables_of(alloc, board, pins, Items::of(passes))?;
        let common = CommonRows::of(alloc, &tables)?;
        Ok(Plan { tables, common })
    }

    /// Returns the tables of the plan.
    pub(crate) fn tables(&self) -> &PlanTables
        ensures { result.now ≡ self.now }
    {
        &self.tables
    }

    /// Returns the rows that all passes share.
    pub(crate) fn common(&self) -> &CommonRows
        ensures { AreCommonRows self.now result.now }
    {
        &self.common
    }

    /// Returns the number of scans of the test.
    pub fn scans(&self) -> u64
        ensures { result ≡ scan_count self.now }
    {
        3 + self.tables.passes.len() as u64 * (u64::from(self.tables.width) + 1)
    }

    /// Returns the number of rows of the test: one for each pass and each bit of the codes. If a pass observes a net, each of its
    /// rows is compared once. Each pass of a board's own test observes a net, so this is the number of rows of the test's log.
    pub fn rows(&self) -> u64
        ensures { result ≡ length self.now.passes * self.now.width }
    {
        self.tables.passes.len() as u64 * u64::from(self.tables.width)
    }

    /// Fills the rows with scan `k` of the test, counted from 0, and returns its shape (whether it is an instruction
    /// scan, and whether it compares a bit). The board must be the board of the plan, `k` must be below the number of
    /// scans, and each row must have room for an instruction scan and for a data scan. Allocates nothing.
    pub fn fill(&self, board: &Board, k: u64, tdi: &mut Row, tdo: &mut Row, mask: &mut Row) -> Shape
        requires plan { IsPlanOf board.now self.now }
        requires scan { k < scan_count self.now }
        requires tdi_room { IsRoom board.now tdi.old.room }
        requires tdo_room { IsRoom board.now tdo.old.room }
        requires mask_room { IsRoom board.now mask.old.room }
        ensures filled { FillsScan board.now self.now.passes self.now.width k result tdi.new.bits
            tdo.new.bits mask.new.bits }
        ensures tdi_kept { tdi.new.room ≡ tdi.old.room }
        ensures tdo_kept { tdo.new.room ≡ tdo.old.room }
        ensures mask_kept { mask.new.room ≡ mask.old.room }
    {
        BoardPlan::new(board, self).fill(k, &mut ScanRows { tdi, tdo, mask })
    }
}
