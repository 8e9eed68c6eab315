//! The values of the strings. Names are in upper case, and lists are in the order of the string.
use board_defs::{Code, Control, Items, Name, Role, Symbol};

/// An entry of a pin map: a port and its pins.
#[derive(Debug, Drop)]
pub struct MapEntry {
    pub port: Name,
    /// The pins in the order of the string. If the entry is correct, they are the pins of the port's bits from left to
    /// right.
    pub pins: Items<Name>,
}

/// An entry of an opcode string: an instruction and its codes.
#[derive(Debug, Drop)]
pub struct Opcode {
    pub name: Name,
    pub codes: Items<Code>,
}

/// A word of a string that names a port bit, or `*` for no port bit.
#[derive(Debug, Drop)]
pub enum PortWord {
    /// `*`, which means that the cell has no port.
    Star,
    /// A port without an index.
    Plain(Name),
    /// A port with an index of at most nine digits.
    Index(Name, u32),
}

/// An entry of a boundary register.
#[derive(Debug, Drop)]
pub struct Entry {
    /// The number of the boundary cell. Cell 0 is nearest TDO.
    pub num: u32,
    pub port: PortWord,
    /// The function of the cell in this entry.
    pub role: Role,
    /// The value that the designer wants in the cell if no test uses the cell.
    pub safe: Symbol,
    /// The control cell and the disable value, if the entry has them.
    pub ctl: Option<Control>,
}

/// The compliance bits, which are port bits, and the patterns that enable the test logic.
#[derive(Debug, Drop)]
pub struct Compliance {
    pub ports: Items<PortWord>,
    pub patterns: Items<Code>,
}
