//! Rows, which are the bits of registers; stacks of 16 rows; and lines, which are buffers of bytes
//! for a sink.
#![tactic(auto)]

mod digits;
mod line;
mod row;
mod stack;

pub use digits::{digit_bit, digit_count};
pub use line::{Line, MAX_LINE};
pub use row::{HexFault, Row, read_digits};
pub use stack::{Column, RowStack};
