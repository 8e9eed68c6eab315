//! The reasons why a cursor stops.
ghost use Rattle.std.specs.Prelude.{◌≡◌, alloc_error};
ghost use Rattle.bsdl_parser.specs.declared.stop.Stop.TheVariants.{Memory};

use std::alloc::{AllocError, AllocFailed};

/// The reason why a cursor stops: memory ran out, or the next token does not fit the grammar.
#[derive(Clone, Copy)]
pub(crate) enum Stop {
    Memory(AllocError),
    Stray,
}

impl From<AllocError> for Stop {
    ghost from_gives = { λ _ stop. stop ≡ Memory alloc_error };

    fn from(error: AllocError) -> Self {
        Stop::Memory(error)
    }
}

impl<T: Drop> From<AllocFailed<T>> for Stop {
    ghost from_gives = { λ _ stop. stop ≡ Memory alloc_error };

    fn from(_failed: AllocFailed<T>) -> Self {
        Stop::Memory(AllocError)
    }
}
