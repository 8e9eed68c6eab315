//! Helpers for the crates that test whole runs of btest, with texts and sinks in memory. The call of the program is proved here once. The
//! contracts of the helpers do not say how a run ends, so a test that calls a helper has little to prove.
#![tactic(auto)]

mod bench;
mod board;
mod devices;
mod row;
mod text;

pub use bench::Bench;
pub use board::{CHAIN, NETS, SCANS};
pub use devices::{BI, BUF2, BUF2_LISTING, DEVICES, DRV, DRV1, RCV, RCV1, TS};
pub use row::{
    Case, Change, Ending, Line, Named, Row, RowFault, Rows, Run, Table, Trouble, expect,
    sixty_devices_hold, tables_hold,
};
pub use text::Text;
