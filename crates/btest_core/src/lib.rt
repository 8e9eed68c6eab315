//! Reads the texts of a board: the chain file, the net file and the BSDL texts. Finds what they
//! denote, or their first fault.
#![tactic(auto)]

mod board;
mod chain;
mod copies;
mod devices;
mod fault;
mod idents;
pub mod law;
mod planning;
mod texts;

pub use board::read_board;
pub use chain::read_chain;
pub use devices::read_device;
pub use fault::InputFault;
pub use idents::read_idents;
pub use planning::{plan, plan_by};
pub use texts::read_entity;
