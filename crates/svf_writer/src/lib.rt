//! Writes scans as text in the Serial Vector Format (SVF), Revision E.
#![tactic(auto)]

mod chain;
mod ends;
mod scan;

pub use chain::write_chain;
pub use ends::{write_head, write_tail};
pub use scan::write_scan;
