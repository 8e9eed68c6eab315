// The reasons why a text is not a batch of logs.
ghost use Rattle.std.specs.Prelude.{◌≡◌, alloc_error};
ghost use Rattle.batch_diag.specs.declared.fault.BatchFault.TheVariants.{Memory};

use response_log::LogFault;
use std::alloc::{AllocError, AllocFailed};
use std::fmt;
use thiserror::Error;

/// The reason why a text is not a batch of logs, or lack of memory. Lines are counted in the whole text, from 1.
///
/// The `Display` text of a fault is the line that the program prints for it, without the name of the file. If rows are missing, the printed
/// line also has the number of rows that a log needs.
#[derive(Debug, Drop, Error)]
pub enum BatchFault {
    /// This line has words, but comes before the first title.
    #[error("line {0}: no board yet")]
    Start(u32),
    /// This line is a title, but does not have exactly two words, or its id breaks the word rule.
    #[error("line {0}: board not allowed")]
    Title(u32),
    /// The lines of the block with number `board`, counted from 1, are not a log. `fault` is never lack of memory.
    #[error("{}", block_text(*.board, .fault))]
    Inner { board: u32, fault: LogFault },
    #[error("out of memory")]
    Memory(AllocError),
}

// The text of a block's fault. If rows are missing, the text has the number of the block. Otherwise it has
// the number of the line, since `fault` is never lack of memory.
#[derive(Clone, Copy)]
struct BlockText<'a> {
    board: u32,
    fault: &'a LogFault,
}

fn block_text(board: u32, fault: &LogFault) -> BlockText<'_> {
    BlockText { board, fault }
}

impl fmt::Display for BlockText<'_> {
    fn fmt<W: fmt::Write>(&self, f: &mut fmt::Formatter<W>) -> fmt::Result {
        match self.fault {
            LogFault::Missing(_) => write!(f, "board {}: {}", self.board, self.fault),
            fault => write!(f, "{fault}"),
        }
    }
}

impl From<AllocError> for BatchFault {
    ghost from_gives = { λ e fault. fault ≡ Memory e };

    fn from(e: AllocError) -> BatchFault {
        BatchFault::Memory(e)
    }
}

impl<T: Drop> From<AllocFailed<T>> for BatchFault {
    ghost from_gives = { λ _ fault. fault ≡ Memory alloc_error };

    fn from(e: AllocFailed<T>) -> BatchFault {
        BatchFault::Memory(AllocError::from(e))
    }
}
