//! The response log: what the parts of a board captured while its test ran.
//!
//! Each line with words is a row: the bits that one compared SDR statement of the SVF text captured. The rows are in the
//! order of these statements. A row is one word of hexadecimal digits. The rightmost digit has the bits that left the chain
//! first.
#![tactic(auto)]

mod fault;
mod kept;
pub mod law;
mod reader;

pub use fault::LogFault;
pub use kept::Log;
pub use reader::{log, log_of};
