//! A device as a BSDL text states it, before its rules are checked.
use board_defs::{Code, Edition, Items, Name};
use bsdl_parser::Port;
use bsdl_strings::{Compliance, Entry, MapEntry, Opcode};

/// The ports that the TAP attributes name.
#[derive(Debug, Drop)]
pub struct TapPorts {
    /// The port of TAP_SCAN_IN, which is TDI.
    pub scan_in: Name,
    /// The port of TAP_SCAN_OUT, which is TDO.
    pub scan_out: Name,
    /// The port of TAP_SCAN_MODE, which is TMS.
    pub mode: Name,
    /// The port of TAP_SCAN_CLOCK, which is TCK.
    pub clock: Name,
    /// The port of TAP_SCAN_RESET, which is TRST*, if the device has one.
    pub reset: Option<Name>,
}

/// A device as a BSDL text states it, before its rules are checked. Names are in upper case, and lists are in the order
/// of the text.
#[derive(Drop)]
pub struct Draft {
    pub entity: Name,
    /// The name of the package, which is the constant whose pin map was chosen.
    pub package: Name,
    pub edition: Edition,
    pub ports: Items<Port>,
    pub taps: TapPorts,
    /// The value of INSTRUCTION_LENGTH, in bits.
    pub ir: u32,
    pub opcodes: Items<Opcode>,
    pub capture: Code,
    pub idcode: Option<Code>,
    pub compliance: Option<Compliance>,
    /// The value of BOUNDARY_LENGTH, in cells.
    pub boundary: u32,
    /// The pin map of the package.
    pub map: Items<MapEntry>,
    /// The entries of the boundary register.
    pub entries: Items<Entry>,
}
