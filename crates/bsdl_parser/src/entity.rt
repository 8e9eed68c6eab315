//! The contents of a BSDL text's entity. All names and texts are in upper case.
ghost use Rattle.std.specs.Prelude.{◌≡◌};
ghost use Rattle.bsdl_parser.specs.AttributeNumbers.{attribute_number};

use board_defs::{Items, Mode, Name};

/// The range of a vector port: `left to right` if `up` is true, and `left downto right` otherwise.
#[derive(Clone, Copy, Debug, PartialEq, Eq)]
pub struct Range {
    pub left: u32,
    pub right: u32,
    /// True for `to`, and false for `downto`.
    pub up: bool,
}

/// A port of the entity. A port without a range has one bit.
#[derive(Drop)]
pub struct Port {
    pub name: Name,
    pub mode: Mode,
    pub range: Option<Range>,
}

/// A constant that is a pin map. `name` is the constant's name, which is also the name of a package. `text` is the
/// constant's string.
#[derive(Drop)]
pub struct Constant {
    pub name: Name,
    pub text: Name,
}

/// The value of an attribute, as far as this program uses it.
#[derive(Drop)]
pub enum AttrValue {
    /// The value of PIN_MAP, which is always PHYSICAL_PIN_MAP.
    Plain,
    /// The value of a TAP attribute: the name of its port.
    Port(Name),
    /// The value of INSTRUCTION_LENGTH or BOUNDARY_LENGTH.
    Number(u32),
    /// The value of any other attribute: the content of its string.
    Text(Name),
}

/// An attribute that this program uses (IEEE 1149.1-2001, B.8). The variants are in the order of
/// the attributes' numbers.
#[derive(Clone, Copy)]
pub enum Attribute {
    PinMap,
    TapScanIn,
    TapScanOut,
    TapScanMode,
    TapScanClock,
    InstructionLength,
    InstructionOpcode,
    InstructionCapture,
    BoundaryLength,
    BoundaryRegister,
    TapScanReset,
    IdcodeRegister,
    CompliancePatterns,
    ComponentConformance,
}

impl Attribute {
    /// Returns the attribute's number, from 1 to 14. Entities and faults refer to attributes by
    /// this number.
    pub fn number(self) -> u32
        ensures { result ≡ attribute_number self }
    {
        match self {
            Attribute::PinMap => 1,
            Attribute::TapScanIn => 2,
            Attribute::TapScanOut => 3,
            Attribute::TapScanMode => 4,
            Attribute::TapScanClock => 5,
            Attribute::InstructionLength => 6,
            Attribute::InstructionOpcode => 7,
            Attribute::InstructionCapture => 8,
            Attribute::BoundaryLength => 9,
            Attribute::BoundaryRegister => 10,
            Attribute::TapScanReset => 11,
            Attribute::IdcodeRegister => 12,
            Attribute::CompliancePatterns => 13,
            Attribute::ComponentConformance => 14,
        }
    }
}

/// An attribute item of an entity.
#[derive(Drop)]
pub struct Attr {
    /// The number of the attribute, as `Attribute::number` returns it.
    pub number: u32,
    pub value: AttrValue,
}

/// An entity. Its lists are in the order of the text.
#[derive(Drop)]
pub struct Entity {
    pub name: Name,
    /// The default of PHYSICAL_PIN_MAP: the package that is used if the caller does not name one.
    pub fallback: Option<Name>,
    pub ports: Items<Port>,
    /// The names of the packages in the `use` items.
    pub uses: Items<Name>,
    pub constants: Items<Constant>,
    pub attributes: Items<Attr>,
}
