// A walk, which is the walking test of one board, and its scans.
ghost use Rattle.std.specs.Prelude.{◌≡◌, ◌<◌, slice_get, IfOk};
ghost use Rattle.board_defs.specs.Passes.{passes_of};
ghost use Rattle.net_pins.specs.Tables.{AreNetPins};
ghost use Rattle.scan_planner.specs.Plans.{IsRoom};
ghost use Rattle.walk_test.specs.Tables.{IsWalkOf, count_walk_scans};
ghost use Rattle.walk_test.specs.Scans.{FillsWalk};

use crate::filling::fill_scan;
use crate::nets::{fill_rows, walk_parts};
use crate::tables::{WalkParts, WalkTables};
use board_defs::{Board, Setting};
use bt_bits::Row;
use net_pins::NetPins;
use scan_planner::{BoardPlan, Plan};
use std::alloc::{AllocError, Global};
use std::marker::Model;
use tap_defs::{ScanRows, Shape};

/// The walking test of a board: its walk nets with their cells, and the rows that its scans share.
///
/// The walk setting is the setting of the first pass of the board's test, but without the controls of
/// switching drivers. A switching driver is enabled by its own cell, on an unguarded net that is pulled to
/// the driver's disable value. A net is guarded if, for example, it carries a supply. The walk nets are the
/// nets that the walk setting observes. A board without a pass has no walk nets.
#[derive(Drop)]
pub struct Walk {
    pub(crate) tables: WalkTables,
}

impl Model for Walk {
    ghost use Rattle.std.specs.Prelude.{◌<◌, ◌^◌, length};
    ghost use Rattle.walk_test.specs.declared.tables.WalkTables.{WalkTables};

    ghost Value = { WalkTables };

    ghost view = { λ a. a.tables };

    ghost invariant = { λ a. length a.tables.nets < 2 ^ 32 };
}

impl Walk {
    /// Returns the walk of a board, made from the first pass of the board's test, if there is a pass. The
    /// first of `passes` must be this pass. Later passes are ignored. If a caller has the pins of the board's
    /// nets already, it calls `of` instead.
    pub fn new(alloc: Global, board: &Board, passes: &[Setting]) -> Result<Walk, AllocError>
        requires { slice_get passes.now 0 ≡ slice_get (passes_of board.now) 0 }
        ensures { IfOk result (λ walk. IsWalkOf board.now walk) }
    {
        let pins = NetPins::new(alloc, board)?;
        Walk::of(alloc, board, pins, passes)
    }

    /// Like `new`, but takes ownership of `pins`, the pins of the board's nets.
    pub fn of(
        alloc: Global,
        board: &Board,
        pins: NetPins,
        passes: &[Setting],
    ) -> Result<Walk, AllocError>
        requires pins { AreNetPins board.now pins }
        requires passes { slice_get passes.now 0 ≡ slice_get (passes_of board.now) 0 }
        ensures { IfOk result (λ walk. IsWalkOf board.now walk) }
    {
        let _rules = board.raw();
        let parts = walk_parts(alloc, board, &pins, passes)?;
        let WalkParts {
            settings,
            nets,
            cells,
            mut rows,
        } = parts;
        let plan = Plan::of(alloc, board, pins, settings)?;
        fill_rows(&BoardPlan::new(board, &plan), cells.as_slice(), &mut rows);
        Ok(Walk {
            tables: WalkTables {
                plan,
                nets,
                cells,
                rows,
            },
        })
    }

    /// Returns the numbers of the walk nets, in net order.
    pub fn nets(&self) -> &[u32]
        ensures { result.now ≡ self.now.nets }
    {
        self.tables.nets.as_slice()
    }

    /// Returns the number of scans. There are three. If the board has a pass, there is one more for each walk net and one for the quiet
    /// row, which disables every driver that has a control.
    pub fn scans(&self) -> u64
        ensures { result ≡ count_walk_scans self.now }
    {
        if self.tables.plan.pass_count() == 0 {
            3
        } else {
            4 + self.tables.nets.len() as u64
        }
    }

    /// Fills the rows with scan `k` of the walking test, counted from 0, and returns its shape (whether it is an
    /// instruction scan, and whether it compares a bit). The walk must be made for `board`, and `k` must be below the
    /// number of scans. Each row must have room for a scan of instructions and for a scan of data. Allocates nothing.
    pub fn fill(&self, board: &Board, k: u64, tdi: &mut Row, tdo: &mut Row, mask: &mut Row) -> Shape
        requires walk { IsWalkOf board.now self.now }
        requires scan { k < count_walk_scans self.now }
        requires tdi_room { IsRoom board.now tdi.old.room }
        requires tdo_room { IsRoom board.now tdo.old.room }
        requires mask_room { IsRoom board.now mask.old.room }
        ensures filled { FillsWalk board.now k result tdi.new.bits tdo.new.bits mask.new.bits }
        ensures tdi_kept { tdi.new.room ≡ tdi.old.room }
        ensures tdo_kept { tdo.new.room ≡ tdo.old.room }
        ensures mask_kept { mask.new.room ≡ mask.old.room }
    {
        fill_scan(board, &self.tables, k, &mut ScanRows { tdi, tdo, mask })
    }
}
