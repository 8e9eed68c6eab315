// The reasons why a text is not a log.
ghost use Rattle.std.specs.Prelude.{◌≡◌};
ghost use Rattle.response_log.specs.declared.fault.LogFault.TheVariants.{Memory};

use std::alloc::AllocError;
use thiserror::Error;

/// The reason why a text is not a log, or lack of memory. Lines are numbered from 1.
#[derive(Debug, Drop, Error)]
pub enum LogFault {
    /// A byte of the row is not a hexadecimal digit, or a bit above the bits of the row is 1.
    #[error("line {0}: digit not allowed")]
    Digit(u32),
    /// The row has more or fewer digits than its bits need, or the line has more than one word.
    #[error("line {0}: wrong length")]
    Length(u32),
    /// Each line with words is a row, but there are only this many rows, which is fewer than expected.
    #[error("{0} rows")]
    Missing(u64),
    /// This line has words, but comes after the last expected row. It may contain anything.
    #[error("line {0}: row too many")]
    Extra(u32),
    #[error("out of memory")]
    Memory(AllocError),
}

impl From<AllocError> for LogFault {
    ghost from_gives = { λ e fault. fault ≡ Memory e };

    fn from(e: AllocError) -> LogFault {
        LogFault::Memory(e)
    }
}
