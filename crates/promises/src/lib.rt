//! The promises of the program, command by command, in terms of the board and of its model. Each
//! promise follows from the contract of `run`, the function of `btest_cli` that runs a command
//! line, and from the laws that the same texts or logs never give two different results.
#![tactic(auto)]

mod desk;
mod promised;

pub use desk::{Desk, lines_are_read};
pub use promised::{make, read_fault};
