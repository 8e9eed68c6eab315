//! Prints text to a sink through a `Line`, which is a buffer of `MAX_LINE` bytes. A line of the
//! text may be longer than the buffer.
#![tactic(auto)]

mod printing;

pub use printing::{begin_line, bit_word, end_line, print, print_all, put_line};
