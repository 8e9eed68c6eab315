//! The boundary cells that drive and read the nets of a board. They are collected once, so that a question about a pin
//! or a net needs no search through all cells of a part.
//!
//! [`PinTables`] has the entries of each port bit, the position of each part's first bit in data scans, and the guarded
//! nets. [`BoardPins`] is a board with these tables, and answers questions about its pins. [`NetTables`] has the
//! compared cells of each net and the drivers of each unguarded net. It answers which driver of an unguarded net a
//! setting enables (the first one in pin order), and by which driver a setting observes a net. [`NetPins`] has the
//! tables of both kinds.
#![tactic(auto)]

mod board_pins;
mod drivers;
mod guards;
mod net_tables;
mod nets;
mod pin_tables;
mod pins;
mod positions;
mod readers;

pub use board_pins::BoardPins;
pub use net_tables::NetTables;
pub use nets::{NetDriver, ReaderCell};
pub use pin_tables::PinTables;
pub use pins::NetPins;
pub use positions::cell_position;
