//! The reasons why a string has no value.
ghost use Rattle.std.specs.Prelude.{◌≡◌, alloc_error};
ghost use Rattle.bsdl_strings.specs.declared.fault.StringFault.TheVariants.{Memory};

use std::alloc::{AllocError, AllocFailed};
use thiserror::Error;

/// The reason why a string has no value: the first entry that does not fit the grammar, or lack of
/// memory.
#[derive(Clone, Copy, Debug, PartialEq, Eq, Error)]
pub enum StringFault {
    /// The number of the first wrong entry, counted from 1. Each entry before it is whole and followed by a comma. For
    /// a pattern, the number is the place of the first character that is not 0, 1 or X, counted from 1, or 1 if the
    /// pattern is empty. For a compliance string, the number is 1 if the list of port bits is wrong, and 2 if the rest
    /// of the string is wrong.
    #[error("entry {0}")]
    At(u32),
    #[error("out of memory")]
    Memory(AllocError),
}

impl From<AllocError> for StringFault {
    ghost from_gives = { λ _ fault. fault ≡ Memory alloc_error };

    fn from(error: AllocError) -> Self {
        StringFault::Memory(error)
    }
}

impl<T: Drop> From<AllocFailed<T>> for StringFault {
    ghost from_gives = { λ _ fault. fault ≡ Memory alloc_error };

    fn from(_failed: AllocFailed<T>) -> Self {
        StringFault::Memory(AllocError)
    }
}
