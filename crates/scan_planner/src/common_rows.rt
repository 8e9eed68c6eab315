// The rows that all passes of a plan share. A plan makes them once.
ghost use Rattle.plan_tables.specs.Plans.{most_rows};
ghost use Rattle.std.specs.Prelude.{◌≡◌, ◌<◌, ◌≤◌, Some, length, slice_get, IfOk};
ghost use Rattle.scan_planner.specs.PassRows.{AreCommonRows, AreFirstRows};

use crate::pass_rows::StackedRows;
use board_defs::Items;
use bt_bits::{Row, RowStack};
use plan_tables::PlanTables;
use std::alloc::{AllocError, Global};

/// The rows that all passes of a plan share. Each pass sets the bits of its own cells in copies of these rows.
#[derive(Drop)]
pub struct CommonRows {
    /// The rows side by side, from which all rows of a pass are made at once.
    pub stacked: StackedRows,
    /// The expected bits of `stacked`, again as separate rows, since reading one row of a stack costs as much as
    /// reading all its rows.
    pub expected: Items<Row>,
}

impl CommonRows {
    /// Creates the rows that all passes of a plan share. A pass must have at most `most_rows` rows.
    pub fn of(alloc: Global, tables: &PlanTables) -> Result<CommonRows, AllocError>
        requires { tables.now.width ≤ most_rows }
        ensures { IfOk result (AreCommonRows tables.now) }
    {
        let stacked = StackedRows::common(alloc, tables)?;
        let expected = first_rows(alloc, &stacked.expected, tables.width)?;
        Ok(CommonRows { stacked, expected })
    }

    /// Returns the expected bits that all passes share in their row `j`. All other bits of the returned row are 0. `j`
    /// must be below the number of rows of a pass.
    pub fn expected_row(&self, j: u32) -> &Row
        requires { j < length self.now.expected }
        ensures { slice_get self.now.expected j ≡ Some result.now }
    {
        row_at(self.expected.as_slice(), j as usize)
    }
}

fn row_at(rows: &[Row], j: usize) -> &Row
    requires { j < length rows.now }
    ensures { slice_get rows.now j ≡ Some result.now }
{
    &rows[j]
}

// Returns the first `count` rows of a stack as separate rows. `count` must be at most `most_rows`.
fn first_rows(alloc: Global, stack: &RowStack, count: u32) -> Result<Items<Row>, AllocError>
    requires { count ≤ most_rows }
    ensures count { IfOk result (λ rows. length rows ≡ count) }
    ensures rows { IfOk result (AreFirstRows stack.now) }
{
    let mut rows = Vec::new(alloc);
    for number in 0..count {
        let mut row = Row::with_room(alloc, stack.len())?;
        row.copy_stacked(stack, number);
        rows.push(row)?;
    }
    Ok(Items::of(rows))
}
