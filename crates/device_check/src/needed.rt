//! Rule V1. An entity must have certain attributes and the pin map of its package. It must not repeat the optional
//! attributes, and COMPONENT_CONFORMANCE must name an edition if the entity has this attribute.
ghost use Rattle.std.specs.Prelude.{◌≡◌, option_copied, option_map};
ghost use Rattle.device_check.specs.Attributes.{chosen_package};
ghost use Rattle.device_check.specs.Needed.{within, is_repeated, is_edition, conforms, found_taps, found_registers, wrong_option, found_package, v1};
ghost use Rattle.device_check.specs.inner.Reading.{Says, taps_view, registers_view, package_view, needed_view};

use crate::attributes::{
    chosen, is_text, only_constant, only_number, only_port, only_text, only_value, times,
};
use crate::sources::Source;
use board_defs::{MOST_BITS, MOST_INSTRUCTION_BITS};
use bsdl_parser::{Attribute, Entity};

/// The ports that the mandatory TAP attributes name.
#[derive(Clone, Copy)]
pub struct NeededTaps<'a> {
    pub scan_in: &'a [u8],
    pub scan_out: &'a [u8],
    pub mode: &'a [u8],
    pub clock: &'a [u8],
}

/// The values of the attributes of the instruction register and the boundary-scan register.
#[derive(Clone, Copy)]
pub struct NeededRegisters<'a> {
    /// The length of the instruction register, in bits, from 2 to 255.
    pub instruction_length: u32,
    pub opcodes: &'a [u8],
    pub capture: &'a [u8],
    /// The length of the boundary register, in cells, from 1 to 65,535.
    pub boundary_length: u32,
    pub boundary: &'a [u8],
}

/// The chosen package: its name, and the string of its pin map.
#[derive(Clone, Copy)]
pub struct NeededPackage<'a> {
    pub name: &'a [u8],
    pub pin_map: &'a [u8],
}

/// The values that an entity has if rule V1 holds.
#[derive(Clone, Copy)]
pub struct Needed<'a> {
    pub taps: NeededTaps<'a>,
    pub registers: NeededRegisters<'a>,
    pub chosen: NeededPackage<'a>,
}

/// Returns the ports of the four mandatory TAP attributes. Checks PIN_MAP before them. The error is
/// the first of these five attributes that is missing or repeated, or the first TAP attribute whose
/// value has the wrong kind, whichever comes first.
#[tactic(auto, unfolding(crate::specs::Needed::found_taps))]
fn needed_taps(entity: &Entity) -> Result<NeededTaps<'_>, Source>
    ensures { Says taps_view (found_taps entity.now) result }
{
    if only_value(entity, Attribute::PinMap).is_none() {
        return Err(Source::Attribute(Attribute::PinMap));
    }
    let Some(scan_in) = only_port(entity, Attribute::TapScanIn) else {
        return Err(Source::Attribute(Attribute::TapScanIn));
    };
    let Some(scan_out) = only_port(entity, Attribute::TapScanOut) else {
        return Err(Source::Attribute(Attribute::TapScanOut));
    };
    let Some(mode) = only_port(entity, Attribute::TapScanMode) else {
        return Err(Source::Attribute(Attribute::TapScanMode));
    };
    let Some(clock) = only_port(entity, Attribute::TapScanClock) else {
        return Err(Source::Attribute(Attribute::TapScanClock));
    };
    Ok(NeededTaps {
        scan_in,
        scan_out,
        mode,
        clock,
    })
}

/// Returns the number, if it is from `least` to `most`.
fn within(least: u32, most: u32, number: Option<u32>) -> Option<u32>
    ensures { result ≡ within least most number }
{
    match number {
        Some(number) if least <= number && number <= most => Some(number),
        _ => None,
    }
}

/// Returns the values of INSTRUCTION_LENGTH, INSTRUCTION_OPCODE, INSTRUCTION_CAPTURE,
/// BOUNDARY_LENGTH and BOUNDARY_REGISTER. The error is the first of these attributes that is
/// missing, repeated or has a wrong value.
#[tactic(auto, unfolding(crate::specs::Needed::found_registers))]
fn needed_registers(entity: &Entity) -> Result<NeededRegisters<'_>, Source>
    ensures { Says registers_view (found_registers entity.now) result }
{
    let length = only_number(entity, Attribute::InstructionLength);
    let Some(instruction_length) = within(2, MOST_INSTRUCTION_BITS, length) else {
        return Err(Source::Attribute(Attribute::InstructionLength));
    };
    let Some(opcodes) = only_text(entity, Attribute::InstructionOpcode) else {
        return Err(Source::Attribute(Attribute::InstructionOpcode));
    };
    let Some(capture) = only_text(entity, Attribute::InstructionCapture) else {
        return Err(Source::Attribute(Attribute::InstructionCapture));
    };
    let length = only_number(entity, Attribute::BoundaryLength);
    let Some(boundary_length) = within(1, MOST_BITS, length) else {
        return Err(Source::Attribute(Attribute::BoundaryLength));
    };
    let Some(boundary) = only_text(entity, Attribute::BoundaryRegister) else {
        return Err(Source::Attribute(Attribute::BoundaryRegister));
    };
    Ok(NeededRegisters {
        instruction_length,
        opcodes,
        capture,
        boundary_length,
        boundary,
    })
}

fn is_repeated(entity: &Entity, attribute: Attribute) -> bool
    ensures { result ≡ is_repeated entity.now attribute }
{
    times(entity, attribute) > 1
}

fn is_edition(text: Option<&[u8]>) -> bool
    ensures { result ≡ is_edition (option_copied text.entry) }
{
    is_text(b"STD_1149_1_1990", text)
        || is_text(b"STD_1149_1_1993", text)
        || is_text(b"STD_1149_1_2001", text)
}

/// Returns whether COMPONENT_CONFORMANCE is missing, or appears exactly once and names an edition.
fn conforms(entity: &Entity) -> bool
    ensures { result ≡ conforms entity.now }
{
    times(entity, Attribute::ComponentConformance) == 0
        || is_edition(only_text(entity, Attribute::ComponentConformance))
}

/// Returns the first of TAP_SCAN_RESET, IDCODE_REGISTER and COMPLIANCE_PATTERNS that is repeated.
/// If there is none, returns COMPONENT_CONFORMANCE if it is repeated or names no edition.
#[tactic(auto, unfolding(crate::specs::Needed::wrong_option))]
fn wrong_option(entity: &Entity) -> Option<Attribute>
    ensures { result ≡ wrong_option entity.now }
{
    if is_repeated(entity, Attribute::TapScanReset) {
        return Some(Attribute::TapScanReset);
    }
    if is_repeated(entity, Attribute::IdcodeRegister) {
        return Some(Attribute::IdcodeRegister);
    }
    if is_repeated(entity, Attribute::CompliancePatterns) {
        return Some(Attribute::CompliancePatterns);
    }
    if conforms(entity) {
        None
    } else {
        Some(Attribute::ComponentConformance)
    }
}

/// Returns the name and the pin map of a package. This is the package that the caller gives, or otherwise the default
/// package of the entity's generic item. Returns None if there is no package, or if no constant or more than one has
/// the package's name.
fn needed_package<'a>(entity: &'a Entity, package: Option<&'a [u8]>) -> Option<NeededPackage<'a>>
    ensures { option_map package_view result
        ≡ found_package entity.now (chosen_package entity.now (option_copied «package».entry)) }
{
    let name = chosen(entity, package)?;
    let constant = only_constant(entity, name)?;
    Some(NeededPackage {
        name,
        pin_map: constant.text.bytes(),
    })
}

/// Checks rule V1. Returns the values that the entity must have. The error is the attribute with the
/// lowest number that breaks the rule. If no attribute breaks it, the error is the pin map of the
/// package, if it is missing or not unique.
#[tactic(auto, unfolding(crate::specs::Needed::v1))]
pub(crate) fn find_needed<'a>(
    entity: &'a Entity,
    package: Option<&'a [u8]>,
) -> Result<Needed<'a>, Source>
    ensures { Says needed_view (v1 entity.now (option_copied «package».entry)) result }
{
    let taps = match needed_taps(entity) {
        Ok(taps) => taps,
        Err(source) => return Err(source),
    };
    let registers = match needed_registers(entity) {
        Ok(registers) => registers,
        Err(source) => return Err(source),
    };
    if let Some(attribute) = wrong_option(entity) {
        return Err(Source::Attribute(attribute));
    }
    match needed_package(entity, package) {
        Some(chosen) => Ok(Needed {
            taps,
            registers,
            chosen,
        }),
        None => Err(Source::PinMapConstant),
    }
}
