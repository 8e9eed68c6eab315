//! The classes of a board: what its nets, pins and controls can do in some safe setting.
//!
//! [`classify`] computes the classes of a board. [`classify_by`] does the same for a caller that has the board's pin
//! tables already. [`BoardClasses`] is a board with its classes. It answers which nets are covered and why a net is not
//! covered, which pins are tested, which controls are useful, whether one safe setting enables two given drivers, and
//! which nets are paired with a given net, 64 at a time. `net_facts` finds the facts about a single net, pin or
//! control.
#![tactic(auto)]

mod classes;
mod closed_nets;
mod control_sets;
mod known;
pub mod law;
mod net_rows;
mod pair_rows;
mod questions;
mod words;

pub use classes::{Classes, classify, classify_by};
pub use net_facts::{ControlClass, NetClass, NetNumbers, PinClass, meet};
pub use questions::BoardClasses;
