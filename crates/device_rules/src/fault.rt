//! The reasons why a draft describes no device.
ghost use Rattle.std.specs.Prelude.{◌≡◌, alloc_error};
ghost use Rattle.device_rules.specs.declared.fault.DraftFault.TheVariants.{Memory};

use crate::broken::Broken;
use std::alloc::AllocError;
use thiserror::Error;

/// The reason why a draft, which is a device as its BSDL text states it, describes no device. It is the first rule that
/// the draft breaks, with the first item that breaks the rule, or lack of memory.
#[derive(Clone, Copy, Debug, PartialEq, Eq, Error)]
pub enum DraftFault {
    #[error("rule V{} item {}", .0.rule, .0.item)]
    Rule(Broken),
    #[error("out of memory")]
    Memory(AllocError),
}

impl From<AllocError> for DraftFault {
    ghost from_gives = { λ e fault. fault ≡ Memory e };

    fn from(e: AllocError) -> DraftFault {
        DraftFault::Memory(e)
    }
}
