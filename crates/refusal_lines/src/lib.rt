//! The lines that btest writes to standard error. A line says what is wrong with the words or the
//! texts of a command, or what failed.
#![tactic(auto)]

mod ends;
mod logs;
mod names;
mod pieces;
mod texts;

pub use ends::{put_memory, put_not_read, put_not_written, put_too_long, put_usage};
pub use logs::{put_batch_fault, put_log_fault};
pub use names::{Names, TextNames};
pub use texts::put_input_fault;
