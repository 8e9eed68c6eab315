//! The reasons why `parse` returns no entity.
use std::alloc::AllocError;
use thiserror::Error;

/// The first fault of a text that is not in the grammar, with the fault's line, counted from 1, or lack of memory.
#[derive(Clone, Copy, Debug, PartialEq, Eq, Error)]
pub enum ParseFault {
    /// Either a token on this line is the first that cannot continue a file of the grammar, and the fault is not
    /// `Package`. Or the text ends before the file is complete, and this is the text's last line.
    #[error("line {0}: not in the grammar")]
    Expected(u32),
    /// The word `package` is the first token of the text, or the first token after a whole file.
    #[error("line {0}: package text")]
    Package(u32),
    #[error("out of memory")]
    Memory(AllocError),
}
