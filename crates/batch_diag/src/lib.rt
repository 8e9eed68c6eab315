//! Diagnoses many logs of one test side by side. The logs are in one text.
//!
//! A line whose first word is `BOARD` is a title. It begins a block, and its second word is the id of a board. The lines after a title, up
//! to the next title or the end of the text, are the log of that board. Each block is diagnosed as if it were alone.
#![tactic(auto)]

mod batch;
mod block;
mod fault;
mod judging;
pub mod law;
mod lines;
mod listing;
mod reader;
mod unread;

pub use block::Block;
pub use diagnoser::Verdict;
pub use fault::BatchFault;
pub use judging::{diagnose_all, diagnose_blocks};
pub use listing::write_batch;
pub use reader::{blocks, blocks_by};
