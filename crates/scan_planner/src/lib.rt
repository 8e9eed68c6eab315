//! Makes the scans of a board's test one at a time, from tables that `plan_tables` makes. A plan also returns
//! the code and the compared cells of each net, the driver that a pass enables on an unguarded net, and the bit
//! at each position of the quiet row.
//!
//! All passes of a plan share rows that the plan makes only once. For each pass, a walk over the pass's cells sets the
//! bits of these cells in copies of the shared rows. The walk sets them in all rows at once, which are stored side by
//! side, or in a single row.
#![tactic(auto)]

mod board_plan;
mod code_rows;
mod common_rows;
mod compared_rows;
mod fill;
pub mod law;
mod next;
mod pass_cells;
mod pass_rows;
mod plan;
mod questions;

pub use board_plan::{BoardPlan, PassOfPlan};
pub use pass_rows::{PassRows, StackedRows};
pub use plan::Plan;
pub use plan_tables::{NetDriver, ReaderCell};
