//! The commands. Each command reads its texts and writes its output. A command that does not write its whole output returns the reason.
//!
//! Explicit calls of `drop` drop boards, plans and other large values, which makes the proofs short (docs/PROVING.md, "Time").
#![tactic(auto)]

mod board_cover;
mod board_summary;
mod board_test;
mod board_walk;
mod chain_test;
mod device_listing;
mod ident_codes;
mod log_batch;
mod log_diagnosis;
mod log_groups;
mod planned;
mod rows;
mod texts;
mod unput;

pub use board_cover::cover;
pub use board_summary::summary;
pub use board_test::svf;
pub use board_walk::walk;
pub use chain_test::chain;
pub use device_listing::device;
pub use ident_codes::ident;
pub use log_batch::batch;
pub use log_diagnosis::diagnosis;
pub use log_groups::groups;
pub use texts::{BoardTexts, ChainTexts, LogTexts, Request};
pub use unput::Unput;
