// The faults of a board's files.
ghost use Rattle.std.specs.Prelude.{◌≡◌, alloc_error};
ghost use Rattle.board_lines.specs.declared.fault.BoardFault.TheVariants.{Memory};

use crate::limit::limit_name;
use board_defs::Spot;
use std::alloc::{AllocError, AllocFailed};

/// The first fault of a board's files, or lack of memory.
#[derive(Debug, Drop, thiserror::Error)]
pub enum BoardFault {
    #[error("no part in the chain")]
    NoChain,
    #[error("line {}: part twice", .0.line)]
    PartTwice(Spot),
    #[error("line {}: entity not given", .0.line)]
    NoEntity(Spot),
    #[error("entity given twice")]
    EntityTwice(u32),
    #[error("line {} word {}: no such pin", .0.line, .0.word)]
    NoPin(Spot),
    #[error("line {} word {}: pin in two nets", .0.line, .0.word)]
    PinTwice(Spot),
    #[error("line {}: inert part in the chain", .0.line)]
    InertInChain(Spot),
    #[error("line {}: supply net not there", .0.line)]
    NoSupplyNet(Spot),
    #[error("line {} word {}: driver on a guarded net", .0.line, .0.word)]
    GuardedDriver(Spot),
    #[error("line {} word {}: two drivers always on", .0.line, .0.word)]
    TwoAlwaysOn(Spot),
    /// The number of the limit that is exceeded (`Limit::number`).
    #[error("limit: {}", limit_name(*.0))]
    Limit(u32),
    #[error("out of memory")]
    Memory(AllocError),
    #[error("line {}: pulled net not there", .0.line)]
    NoPullNet(Spot),
    #[error("line {}: net pulled twice", .0.line)]
    PullTwice(Spot),
}

impl From<AllocError> for BoardFault {
    ghost from_gives = { λ _ fault. fault ≡ Memory alloc_error };

    fn from(e: AllocError) -> BoardFault {
        BoardFault::Memory(e)
    }
}

impl<T: Drop> From<AllocFailed<T>> for BoardFault {
    ghost from_gives = { λ _ fault. fault ≡ Memory alloc_error };

    fn from(e: AllocFailed<T>) -> BoardFault {
        BoardFault::Memory(AllocError::from(e))
    }
}
