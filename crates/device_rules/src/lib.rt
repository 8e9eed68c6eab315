//! The rules for a device in a BSDL text, as far as an interconnect test needs them (IEEE 1149.1b-1994 and IEEE
//! 1149.1-2001, Annex B), and the record of the device that a text without a broken rule describes.
#![tactic(auto)]

mod broken;
mod cells;
mod compliance;
mod controls;
mod draft;
mod fault;
mod indexed;
pub mod law;
mod name_index;
mod pin_map;
mod places;
mod port_index;
mod ports;
mod raw;
mod rules;
mod taps;

pub use broken::{Broken, Rule};
pub use draft::{Draft, TapPorts};
pub use fault::DraftFault;
pub use raw::raw_device;
