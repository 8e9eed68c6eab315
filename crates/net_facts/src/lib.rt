//! The facts about the single nets, pins and controls of a board.
//!
//! [`board_facts`] returns these facts for a board:
//!
//! - for each net: the facts that do not depend on settings, such as its pull and whether it is guarded;
//! - for each net: whether it is covered, the reason if it is not, and the ways in which its tested drivers are
//!   enabled;
//! - for each pin: whether it is a driver or a receiver, and in which of these roles it is tested;
//! - for each control: the nets with drivers of the control, whether the control is safe alone (the setting with only
//!   this control is safe), and whether it is useful (safe alone, and it enables a tested driver);
//! - for each control: the nets that it shares with another control. Two controls that are safe alone can be unsafe
//!   together only if they share a net.
//!
//! The crate `net_classes` answers whether one safe setting observes two nets, and whether the setting of two controls
//! is safe.
#![tactic(auto)]

mod cells;
mod classes;
mod controls;
mod facts;
mod found;
mod net_numbers;
mod pulled_board;
mod shared;
mod switching;
mod tested;
mod useful;

pub use cells::{filled_table, item_at, put_at};
pub use classes::{BoardFacts, ControlClass, NetClass, PinClass, board_facts};
pub use facts::{NetFacts, PinFacts};
pub use found::meet;
pub use net_numbers::{NetNumbers, copy_of, push_if};
