//! The strings inside a BSDL text and their values: pin maps, opcodes, patterns, boundary registers and compliance
//! patterns (IEEE 1149.1b-1994 and IEEE 1149.1-2001, Annex B).
#![tactic(auto)]

mod compliance_string;
mod entries;
mod fault;
pub mod law;
mod listed;
mod pieces;
mod places;
mod stop;
mod strings;
mod values;

pub use compliance_string::compliance;
pub use fault::StringFault;
pub use strings::{boundary, opcodes, pattern, pin_map};
pub use values::{Compliance, Entry, MapEntry, Opcode, PortWord};
