// The faults of the texts of a device, a chain or a board.
ghost use Rattle.std.specs.Prelude.{◌≡◌, alloc_error};
ghost use Rattle.btest_core.specs.declared.fault.InputFault.TheVariants.{Memory};

use board_build::BoardFault;
use board_files::LineFault;
use bsdl_lexer::LexFault;
use bsdl_parser::ParseFault;
use device_check::DeviceFault;
use series_parts::LinkFault;
use std::alloc::{AllocError, AllocFailed};
use thiserror::Error;

/// The first fault of the texts, or lack of memory. Lack of memory in a lower crate also becomes
/// `Memory`.
#[derive(Debug, Drop, Error)]
pub enum InputFault {
    /// The chain file's first faulty line.
    #[error("{0}")]
    Chain(LineFault),
    /// The net file's first faulty line.
    #[error("{0}")]
    Nets(LineFault),
    /// The point at which the lexer stops in a BSDL text: a byte that begins no blank, comment or
    /// token, an unclosed string, or a token beyond the limit. The texts are numbered from 0 in the
    /// order in which the caller gives them.
    #[error("{fault}")]
    Lex { text: u32, fault: LexFault },
    /// The reason why the grammar derives no entity from the tokens of a BSDL text.
    #[error("{fault}")]
    Parse { text: u32, fault: ParseFault },
    /// The first board rule that fails.
    #[error("{0}")]
    Board(BoardFault),
    /// The first rule or string of a device that fails, with the number of the device's text.
    #[error("{fault}")]
    Device { text: u32, fault: DeviceFault },
    /// The first LINK pin that is in no net.
    #[error("{0}")]
    Link(LinkFault),
    /// The line number of the chain file's first BYPASS line. The part on this line has no BSDL
    /// description, so it is not known which register the part selects after a reset.
    #[error("line {0}: part without a description")]
    NoIdent(u32),
    #[error("out of memory")]
    Memory(AllocError),
}

impl From<AllocError> for InputFault {
    ghost from_gives = { λ e fault. fault ≡ Memory e };

    fn from(e: AllocError) -> InputFault {
        InputFault::Memory(e)
    }
}

impl<T: Drop> From<AllocFailed<T>> for InputFault {
    ghost from_gives = { λ _ fault. fault ≡ Memory alloc_error };

    fn from(e: AllocFailed<T>) -> InputFault {
        InputFault::Memory(AllocError::from(e))
    }
}
