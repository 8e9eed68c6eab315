// The faults of joining a chain file and a net file.
ghost use Rattle.std.specs.Prelude.{◌≡◌, alloc_error};
ghost use Rattle.series_parts.specs.declared.fault.LinkFault.TheVariants.{Memory};

use board_defs::Spot;
use std::alloc::{AllocError, AllocFailed};

/// The reason why the files cannot be joined: the first LINK pin that is in no net, or lack of
/// memory.
#[derive(Debug, Drop, thiserror::Error)]
pub enum LinkFault {
    /// The line of the chain file on which the pin is, and the number of the pin's word, which is 3
    /// or 4.
    #[error("line {} word {}: link pin not in a net", .0.line, .0.word)]
    NoLinkPin(Spot),
    #[error("out of memory")]
    Memory(AllocError),
}

impl From<AllocError> for LinkFault {
    ghost from_gives = { λ e fault. fault ≡ Memory e };

    fn from(e: AllocError) -> LinkFault {
        LinkFault::Memory(e)
    }
}

impl<T: Drop> From<AllocFailed<T>> for LinkFault {
    ghost from_gives = { λ _ fault. fault ≡ Memory alloc_error };

    fn from(e: AllocFailed<T>) -> LinkFault {
        LinkFault::Memory(AllocError::from(e))
    }
}
