//! Decides which single faults of a board explain a log of its test.
//!
//! The crate simulates no run. The bit that a compared cell has under a single fault follows from the row that is in the update
//! latches. Only cells of the faulty nets can differ from the expected bits.
#![tactic(auto)]

mod board_test;
mod differing;
mod effect;
mod fault_lists;
mod feed;
mod fits;
mod kept;
mod kept_test;
pub mod law;
mod marks;
mod matching;
mod net_rows;
mod passes;
mod shown;
mod suspects;
mod telling;
mod test_universe;
mod tested;
mod universe;
mod words;

pub use board_test::{BoardTest, LoggedTest};
pub use differing::ComparedLog;
pub use kept_test::KeptTest;
pub use matching::{is_pass, matches};
pub use suspects::Suspects;
pub use telling::TellingNet;
pub use test_universe::TestUniverse;
pub use universe::Universe;
