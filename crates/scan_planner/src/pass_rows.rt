// The rows of one pass, which are made once and stored side by side. Each scan of the pass is copied from these rows.
ghost use Rattle.std.specs.Prelude.{◌≡◌, ◌<◌, ◌≤◌, ℕ, length, IfOk};
ghost use Rattle.board_defs.specs.declared.board.RawBoard.{RawBoard};
ghost use Rattle.board_defs.specs.Pins.{data_bits};
ghost use Rattle.bt_bits.specs.Stacks.{stacked};
ghost use Rattle.plan_tables.specs.declared.tables.PlanTables.{PlanTables as PlanRecord};
ghost use Rattle.scan_planner.specs.PassRows.{AreCommonStacks, AreKept, ArePassRows, HaveRoomOf, HaveRoomForStack, KeepRoom};

use crate::board_plan::PassOfPlan;
use crate::code_rows::RowAt;
use crate::pass_cells::drive_nets;
use bt_bits::{Row, RowStack};
use plan_tables::PlanTables;
use std::alloc::{AllocError, Global};

/// The bits that the data scans of one pass shift in and compare, stored side by side. Also the form of the rows that
/// all passes share, from which the rows of each pass are made.
#[derive(Drop)]
pub struct StackedRows {
    /// The bits that are shifted in.
    pub shifted: RowStack,
    /// The expected bits of each row. The next scan compares them.
    pub expected: RowStack,
    /// The mask of the compared bits, which is the same for all rows.
    pub mask: Row,
}

impl StackedRows {
    // Creates empty rows, with room for scans of `bits` bits.
    fn with_room(alloc: Global, bits: u32) -> Result<StackedRows, AllocError>
        ensures { IfOk result (HaveRoomOf bits) }
    {
        Ok(StackedRows {
            shifted: RowStack::with_room(alloc, bits)?,
            expected: RowStack::with_room(alloc, bits)?,
            mask: Row::with_room(alloc, bits)?,
        })
    }

    /// Creates the rows that all passes of a plan share, side by side.
    pub(crate) fn common(alloc: Global, tables: &PlanTables) -> Result<StackedRows, AllocError>
        ensures { IfOk result (AreCommonStacks tables.now) }
    {
        let mut rows = StackedRows::with_room(alloc, tables.quiet.len())?;
        rows.fill_common(tables);
        Ok(rows)
    }

    // Fills the rows with the rows that all passes of a plan share. There must be room for a data scan.
    fn fill_common(&mut self, tables: &PlanTables)
        requires { HaveRoomOf (length tables.now.quiet.bits) self.old }
        ensures { AreCommonStacks tables.now self.new }
    {
        self.shifted.fill_with(&tables.quiet);
        self.mask.clear(tables.quiet.len());
        self.expected.fill_with(&self.mask);
        let mut marks = RowAt {
            row: &mut self.mask,
            number: 0,
        };
        drive_nets(
            tables.steady.as_slice(),
            &tables.nets,
            tables.codes.as_slice(),
            &mut self.shifted,
            &mut self.expected,
            &mut marks,
        );
    }

    // Copies `rows`, for which there must be room.
    fn copy_from(&mut self, rows: &StackedRows)
        requires { HaveRoomForStack rows.now self.old }
        ensures shifted { (j : ℕ) → j < 16
            → stacked self.new.shifted j ≡ stacked rows.now.shifted j }
        ensures expected { (j : ℕ) → j < 16
            → stacked self.new.expected j ≡ stacked rows.now.expected j }
        ensures mask { self.new.mask.bits ≡ rows.now.mask.bits }
        ensures room { KeepRoom self.old self.new }
    {
        self.shifted.copy_from(&rows.shifted);
        self.expected.copy_from(&rows.expected);
        self.mask.copy_row(&rows.mask);
    }
}

/// The rows of one pass, which a caller keeps from one call to the next. If a call needs another pass, the rows of that
/// pass replace them.
#[derive(Drop)]
pub struct PassRows {
    // The number of the pass, counted from 0, or `None` before the first pass.
    pass: Option<u32>,
    pub(crate) rows: StackedRows,
}

impl PassRows {
    /// Creates rows that belong to no pass yet, with room for a board whose data scans have at most `bits` bits.
    pub fn with_room(alloc: Global, bits: u32) -> Result<PassRows, AllocError>
        ensures { IfOk result
            (λ kept. (board : RawBoard) (plan : PlanRecord) → data_bits board ≤ bits
            → AreKept board plan kept) }
    {
        Ok(PassRows {
            pass: None,
            rows: StackedRows::with_room(alloc, bits)?,
        })
    }
}

impl<'a> PassOfPlan<'a> {
    // Fills the rows with the rows of the pass, starting from a copy of the rows that all passes share. The
    // rows must have room for a data scan.
    fn fill_rows(&self, rows: &mut StackedRows)
        requires { HaveRoomOf (data_bits self.now.test.board) rows.old }
        ensures rows { ArePassRows self.now.test.board self.now.test.plan self.now.number rows.new }
        ensures room { KeepRoom rows.old rows.new }
    {
        self.laws();
        rows.copy_from(&self.common().stacked);
        let mut marks = RowAt {
            row: &mut rows.mask,
            number: 0,
        };
        self.walk(&mut rows.shifted, &mut rows.expected, &mut marks);
    }

    /// Fills `kept` with the rows of the pass, unless it already has them. `kept` must have room for a data
    /// scan. If it already has rows of a pass, they must be rows of this plan.
    pub fn keep_rows(&self, kept: &mut PassRows)
        requires { AreKept self.now.test.board self.now.test.plan kept.old }
        ensures kept { AreKept self.now.test.board self.now.test.plan kept.new }
        ensures rows { ArePassRows self.now.test.board self.now.test.plan self.now.number
            kept.new.rows }
    {
        if kept.pass != Some(self.number) {
            self.fill_rows(&mut kept.rows);
            kept.pass = Some(self.number);
        }
    }
}
