// The error of the helpers of this crate.
use bsdl_strings::StringFault;
use std::alloc::{AllocError, AllocFailed};
use thiserror::Error;

/// The reason why the check of a table of cases fails.
#[derive(Debug, Drop, Error)]
pub enum CaseFault {
    /// The first case with an unexpected result.
    #[error("case {case} ends otherwise: {found}")]
    Ended {
        /// The number of the case, counted from 0.
        case: usize,
        /// The result of the case.
        found: String,
    },
    /// A text has 2^32 bytes or more, or its contents have 1,000 or more ports, pin map entries, instructions or boundary register entries.
    #[error("too long")]
    TooLong,
    /// A string that a case needs, such as a pin map, is not in its grammar.
    #[error("{0}")]
    String(StringFault),
    #[error("out of memory")]
    Memory(AllocError),
}

impl From<AllocError> for CaseFault {
    fn from(error: AllocError) -> CaseFault {
        CaseFault::Memory(error)
    }
}

impl<T: Drop> From<AllocFailed<T>> for CaseFault {
    fn from(_failed: AllocFailed<T>) -> CaseFault {
        CaseFault::Memory(AllocError)
    }
}

impl From<StringFault> for CaseFault {
    fn from(fault: StringFault) -> CaseFault {
        CaseFault::String(fault)
    }
}

/// Returns `Ok` if the result of a case is `wanted`, and an error with the case and its result otherwise.
pub fn compare(case: usize, found: String, wanted: &str) -> Result<(), CaseFault> {
    if found.as_str() == wanted {
        Ok(())
    } else {
        Err(CaseFault::Ended { case, found })
    }
}
