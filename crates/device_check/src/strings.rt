//! Reads the strings of an entity: the pin map of the package, and the values of five attributes.
ghost use Rattle.std.specs.Prelude.{◌≡◌, ◌<◌, ◌^◌, length, All, IfOk, IfErr};
ghost use Rattle.bsdl_parser.specs.Entity.{HasShortText};
ghost use Rattle.bsdl_strings.specs.Strings.{IsPinMap, IsNoPinMap, AreOpcodes, AreNoOpcodes, IsPattern, IsNoPattern, IsCompliance, IsBoundary, IsNoBoundary};
ghost use Rattle.bsdl_parser.specs.declared.entity.Entity.{Entity};
ghost use Rattle.bsdl_parser.specs.declared.entity.Attribute.TheVariants.{IdcodeRegister, CompliancePatterns};
ghost use Rattle.device_check.specs.Attributes.{text_of_attribute};
ghost use Rattle.device_check.specs.Needed.{FoundValues};
ghost use Rattle.device_check.specs.DeviceStrings.{MayBe, LeavesBy, pin_map, opcodes, capture, idcode, compliance, boundary};
ghost use Rattle.device_check.specs.inner.Reading.{source_fault, needed_view, HasShortStrings, NamesPlace, Gathers};

use crate::attributes::text_of;
use crate::fault::DeviceFault;
use crate::needed::Needed;
use crate::sources::Source;
use board_defs::{Code, Items};
use bsdl_parser::{Attribute, Entity};
use bsdl_strings::{Compliance, Entry, MapEntry, Opcode, StringFault};
use std::alloc::Global;

/// The values of the strings of an entity.
#[derive(Drop)]
pub struct Strings {
    pub map: Items<MapEntry>,
    pub opcodes: Items<Opcode>,
    pub capture: Code,
    pub idcode: Option<Code>,
    pub compliance: Option<Compliance>,
    pub entries: Items<Entry>,
}

/// Returns the device fault for `fault`, the fault of the string in this source. A source is an
/// attribute, or the constant that is the pin map.
fn fault(source: Source, fault: StringFault) -> DeviceFault
    ensures { result ≡ source_fault source fault }
{
    match fault {
        StringFault::At(entry) => DeviceFault::Text {
            attribute: source.number(),
            entry,
        },
        StringFault::Memory(error) => DeviceFault::Memory(error),
    }
}

fn read_pin_map(alloc: Global, needed: &Needed) -> Result<Items<MapEntry>, DeviceFault>
    requires { length needed.now.chosen.pin_map.now < 2 ^ 32 }
    ensures value { IfOk result (λ map. IsPinMap needed.now.chosen.pin_map.now map) }
    ensures fault { (entity : Entity)
        → IfErr result (NamesPlace (LeavesBy entity (needed_view needed.now) pin_map)) }
{
    match bsdl_strings::pin_map(alloc, needed.chosen.pin_map) {
        Ok(map) => Ok(Items::of(map)),
        Err(stop) => Err(fault(Source::PinMapConstant, stop)),
    }
}

fn read_opcodes(alloc: Global, needed: &Needed) -> Result<Items<Opcode>, DeviceFault>
    requires { length needed.now.registers.opcodes.now < 2 ^ 32 }
    ensures value { IfOk result (λ opcodes. AreOpcodes needed.now.registers.opcodes.now opcodes) }
    ensures fault { (entity : Entity)
        → IfErr result (NamesPlace (LeavesBy entity (needed_view needed.now) opcodes)) }
{
    match bsdl_strings::opcodes(alloc, needed.registers.opcodes) {
        Ok(opcodes) => Ok(Items::of(opcodes)),
        Err(stop) => Err(fault(Source::Attribute(Attribute::InstructionOpcode), stop)),
    }
}

fn read_capture(alloc: Global, needed: &Needed) -> Result<Code, DeviceFault>
    requires { length needed.now.registers.capture.now < 2 ^ 32 }
    ensures value { IfOk result (λ code. IsPattern needed.now.registers.capture.now code) }
    ensures fault { (entity : Entity)
        → IfErr result (NamesPlace (LeavesBy entity (needed_view needed.now) capture)) }
{
    match bsdl_strings::pattern(alloc, needed.registers.capture) {
        Ok(code) => Ok(code),
        Err(stop) => Err(fault(Source::Attribute(Attribute::InstructionCapture), stop)),
    }
}

fn read_idcode(alloc: Global, entity: &Entity) -> Result<Option<Code>, DeviceFault>
    requires { All (λ attribute. HasShortText attribute.value) entity.now.attributes }
    ensures value { IfOk result
        (λ code. MayBe IsPattern (text_of_attribute entity.now IdcodeRegister) code) }
    ensures fault { (found : FoundValues)
        → IfErr result (NamesPlace (LeavesBy entity.now found idcode)) }
{
    match text_of(entity, Attribute::IdcodeRegister) {
        None => Ok(None),
        Some(text) => match bsdl_strings::pattern(alloc, text) {
            Ok(code) => Ok(Some(code)),
            Err(stop) => Err(fault(Source::Attribute(Attribute::IdcodeRegister), stop)),
        },
    }
}

fn read_compliance(alloc: Global, entity: &Entity) -> Result<Option<Compliance>, DeviceFault>
    ensures value { IfOk result
        (λ value. MayBe IsCompliance (text_of_attribute entity.now CompliancePatterns) value) }
    ensures fault { (found : FoundValues)
        → IfErr result (NamesPlace (LeavesBy entity.now found compliance)) }
{
    match text_of(entity, Attribute::CompliancePatterns) {
        None => Ok(None),
        Some(text) => match bsdl_strings::compliance(alloc, text) {
            Ok(value) => Ok(Some(value)),
            Err(stop) => Err(fault(Source::Attribute(Attribute::CompliancePatterns), stop)),
        },
    }
}

fn read_boundary(alloc: Global, needed: &Needed) -> Result<Items<Entry>, DeviceFault>
    requires { length needed.now.registers.boundary.now < 2 ^ 32 }
    ensures value { IfOk result (λ entries. IsBoundary needed.now.registers.boundary.now entries) }
    ensures fault { (entity : Entity)
        → IfErr result (NamesPlace (LeavesBy entity (needed_view needed.now) boundary)) }
{
    match bsdl_strings::boundary(alloc, needed.registers.boundary) {
        Ok(entries) => Ok(Items::of(entries)),
        Err(stop) => Err(fault(Source::Attribute(Attribute::BoundaryRegister), stop)),
    }
}

/// Returns the values of all strings, or the fault of the first string that does not fit its
/// grammar, or lack of memory. Reads the strings in the order of the fields of `Strings`. The strings
/// must be shorter than 2^32 bytes.
pub(crate) fn read_strings(
    alloc: Global,
    entity: &Entity,
    needed: &Needed,
) -> Result<Strings, DeviceFault>
    requires needed { HasShortStrings (needed_view needed.now) }
    requires attributes { All (λ attribute. HasShortText attribute.value) entity.now.attributes }
    ensures { Gathers entity.now (needed_view needed.now) result }
{
    let map = match read_pin_map(alloc, needed) {
        Ok(map) => map,
        Err(fault) => return Err(fault),
    };
    let opcodes = match read_opcodes(alloc, needed) {
        Ok(opcodes) => opcodes,
        Err(fault) => return Err(fault),
    };
    let capture = match read_capture(alloc, needed) {
        Ok(capture) => capture,
        Err(fault) => return Err(fault),
    };
    let idcode = match read_idcode(alloc, entity) {
        Ok(idcode) => idcode,
        Err(fault) => return Err(fault),
    };
    let compliance = match read_compliance(alloc, entity) {
        Ok(compliance) => compliance,
        Err(fault) => return Err(fault),
    };
    let entries = match read_boundary(alloc, needed) {
        Ok(entries) => entries,
        Err(fault) => return Err(fault),
    };
    Ok(Strings {
        map,
        opcodes,
        capture,
        idcode,
        compliance,
        entries,
    })
}
