// The error with which a test of this crate fails.
use std::alloc::AllocError;
use std::io;
use thiserror::Error;

/// The reason why a test fails.
#[derive(Debug, Drop, Error)]
pub enum Missed {
    /// The row with this number, counted from 0, has an unexpected result.
    #[error("row {0} gives something else")]
    Row(usize),
    #[error("out of memory")]
    Memory(AllocError),
    #[error("a file of the system: {0:?}")]
    File(io::Error),
}

impl From<AllocError> for Missed {
    fn from(error: AllocError) -> Missed {
        Missed::Memory(error)
    }
}

impl From<io::Error> for Missed {
    fn from(error: io::Error) -> Missed {
        Missed::File(error)
    }
}

/// Returns `Ok` if `holds` is true, and an error with the number of the row otherwise.
pub fn expect(row: usize, holds: bool) -> Result<(), Missed> {
    if holds { Ok(()) } else { Err(Missed::Row(row)) }
}

#[test]
fn a_row_that_gives_something_else_is_named(_rt: HostRuntime) -> Result<(), Missed> {
    expect(0, true)?;
    match expect(3, false) {
        Err(Missed::Row(3)) => Ok(()),
        _ => Err(Missed::Row(3)),
    }
}
