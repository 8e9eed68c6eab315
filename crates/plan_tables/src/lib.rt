//! The tables of a plan, from which each scan of a board's test is made.
//!
//! `tables_of` makes the tables for a board and passes. Each pass must be safe, and each of its controls must control a
//! driver of the board. The tables have:
//!
//! - the two instruction scans and the quiet row, which disables every driver that has a control;
//! - the positions of the cells at which the data rows differ from the quiet row;
//! - for each net, its code, the cells that read the net and, if the net is not guarded, its drivers.
//!
//! The other public functions find the cells of a pass in these tables. `scan_planner` uses these cells to fill the
//! scans.
#![tactic(auto)]

mod build;
mod codes;
mod controls;
mod held;
mod instructions;
mod observers;
mod placed;
mod quiet;
mod rows;
mod tables;
mod uses;

pub use build::tables_of;
pub use controls::{ControlCells, DriverTable, controlled};
pub use held::held_cell;
pub use net_pins::{NetDriver, NetTables, ReaderCell};
pub use tables::{DriverCell, HeldCell, PlanTables};
