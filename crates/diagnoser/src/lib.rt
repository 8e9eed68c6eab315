//! The diagnosis of a log of a board's test: the single faults of the board that explain the log, and the text that lists them.
//!
//! The faults that may explain the log are tried in pieces, which run side by side. The result does not depend on the number of
//! pieces.
#![tactic(auto)]

mod diagnosis;
mod entered;
pub mod law;
mod lines;
mod listing;
mod search;
mod verdict;

pub use diagnosis::{diagnose, diagnose_in, diagnose_logged};
pub use entered::Entered;
pub use listing::write_diagnosis;
pub use verdict::Verdict;
