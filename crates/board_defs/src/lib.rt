//! The vocabulary of boards: names, devices, boards, settings and faults.
#![tactic(auto)]

mod board;
mod coverage;
mod device;
mod fault;
pub mod law;
mod lengths;
mod limits;
mod name;
mod pins;
mod setting;
mod spot;

pub use board::{Board, Ctl, Drive, Net, NetPin, Part, PartKind, PinAt, PinRef, RawBoard};
pub use coverage::Reason;
pub use device::{Cell, Code, Control, Device, Edition, Mode, PortBit, RawDevice, Role, Symbol};
pub use fault::{Kind, Single};
pub use limits::{MOST_BITS, MOST_INSTRUCTION_BITS, MOST_NETS, MOST_PARTS, MOST_PINS};
pub use lists::Items;
pub use name::Name;
pub use setting::{Setting, place_in};
pub use spot::Spot;
