//! Makes the device that a BSDL text describes, if an interconnect test can use it (IEEE 1149.1b-1994 and IEEE
//! 1149.1-2001, Annex B), and writes its listing.
#![tactic(auto)]

mod answer;
mod attributes;
mod draft;
mod fault;
pub mod law;
mod listing;
mod listing_table;
mod needed;
mod sources;
mod strings;

pub use answer::device;
pub use fault::DeviceFault;
pub use listing::write_device;
pub use sources::string_name;
