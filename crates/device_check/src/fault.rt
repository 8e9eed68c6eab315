//! The reasons why an entity describes no device.
ghost use Rattle.std.specs.Prelude.{◌≡◌, alloc_error};
ghost use Rattle.device_check.specs.declared.fault.DeviceFault.TheVariants.{Memory};

use crate::sources::string_name;
use std::alloc::{AllocError, AllocFailed};
use thiserror::Error;

/// The first rule or string of a device that fails, or lack of memory.
#[derive(Clone, Copy, Debug, PartialEq, Eq, Error)]
pub enum DeviceFault {
    /// A rule, by its number from 1 to 14, and the first item that breaks it.
    ///
    /// For rule 1 the item is the number of an attribute, or 15 for the pin map of the package. For
    /// the other rules the variants of `device_rules::Rule` say what the item is.
    #[error("rule V{number} item {item}")]
    Rule { number: u32, item: u32 },
    /// A string that does not fit its grammar. `attribute` is the number of its attribute, or 15
    /// for the pin map of the package. `entry` is the number of the first entry that does not fit,
    /// as `bsdl_strings::StringFault` counts it.
    #[error("{} entry {entry}", string_name(*.attribute))]
    Text { attribute: u32, entry: u32 },
    #[error("out of memory")]
    Memory(AllocError),
}

impl From<AllocError> for DeviceFault {
    ghost from_gives = { λ e fault. fault ≡ Memory e };

    fn from(e: AllocError) -> DeviceFault {
        DeviceFault::Memory(e)
    }
}

impl<T: Drop> From<AllocFailed<T>> for DeviceFault {
    ghost from_gives = { λ _ fault. fault ≡ Memory alloc_error };

    fn from(e: AllocFailed<T>) -> DeviceFault {
        DeviceFault::Memory(AllocError::from(e))
    }
}
