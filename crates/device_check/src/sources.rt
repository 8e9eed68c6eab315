//! The places in an entity that a fault may name, which are called sources, and the names of their strings.
ghost use Rattle.std.specs.Prelude.{◌≡◌};
ghost use Rattle.device_check.specs.Sources.{source_number, string_name};

use bsdl_parser::Attribute;

/// The place of a value in an entity: an attribute, or the constant of the pin map.
#[derive(Clone, Copy)]
pub enum Source {
    Attribute(Attribute),
    /// The constant that is the pin map of the package.
    PinMapConstant,
}

impl Source {
    /// Returns the number that a fault has for the source: the attribute's number, or 15 for the
    /// pin map.
    pub(crate) fn number(self) -> u32
        ensures { result ≡ source_number self }
    {
        match self {
            Source::Attribute(attribute) => attribute.number(),
            Source::PinMapConstant => 15,
        }
    }
}

/// Returns the name that a fault's message has for the string of the source with this number. This
/// is the attribute's name for INSTRUCTION_OPCODE, INSTRUCTION_CAPTURE, BOUNDARY_REGISTER,
/// IDCODE_REGISTER and COMPLIANCE_PATTERNS, and PIN_MAP_STRING for every other number.
pub fn string_name(source: u32) -> &'static str
    ensures { result.now ≡ string_name source }
{
    if source == Attribute::InstructionOpcode.number() {
        "INSTRUCTION_OPCODE"
    } else if source == Attribute::InstructionCapture.number() {
        "INSTRUCTION_CAPTURE"
    } else if source == Attribute::BoundaryRegister.number() {
        "BOUNDARY_REGISTER"
    } else if source == Attribute::IdcodeRegister.number() {
        "IDCODE_REGISTER"
    } else if source == Attribute::CompliancePatterns.number() {
        "COMPLIANCE_PATTERNS"
    } else {
        "PIN_MAP_STRING"
    }
}
