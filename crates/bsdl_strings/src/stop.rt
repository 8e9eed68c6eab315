//! The reasons why reading stops.
ghost use Rattle.std.specs.Prelude.{◌≡◌, alloc_error};
ghost use Rattle.bsdl_strings.specs.declared.stop.Stop.TheVariants.{Memory};

use std::alloc::{AllocError, AllocFailed};

/// The reason why reading stops: memory ran out, or a piece (a token of the string) does not fit the grammar. `At`
/// contains the text from that piece to the end.
#[derive(Drop)]
pub(crate) enum Stop<'a> {
    Memory(AllocError),
    At(&'a [u8]),
}

impl From<AllocError> for Stop<'_> {
    ghost from_gives = { λ _ stop. stop ≡ Memory alloc_error };

    fn from(error: AllocError) -> Self {
        Stop::Memory(error)
    }
}

impl<T: Drop> From<AllocFailed<T>> for Stop<'_> {
    ghost from_gives = { λ _ stop. stop ≡ Memory alloc_error };

    fn from(_failed: AllocFailed<T>) -> Self {
        Stop::Memory(AllocError)
    }
}
