//! The board that a chain file, a net file and the devices of the chain denote.
#![tactic(auto)]

mod building;
mod drivers;
pub mod law;
mod lookups;
mod marked;
mod nets;
mod rules;
mod seen_pins;
mod selected_chain;
mod standing;

pub use board_defs::Spot;
pub use board_lines::{BoardFault, select};
pub use building::{board, parts_of_chain};
