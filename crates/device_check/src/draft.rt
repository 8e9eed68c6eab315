//! The draft of a device, made from an entity. A draft is a device as its BSDL text states it, before the rules V2 to V14
//! are checked.
ghost use Rattle.std.specs.Prelude.{◌≡◌, IfOk};
ghost use Rattle.bsdl_parser.specs.declared.entity.Attribute.TheVariants.{TapScanReset};
ghost use Rattle.device_check.specs.Attributes.{port_of_attribute};
ghost use Rattle.device_check.specs.inner.Reading.{needed_view};
ghost use Rattle.device_check.specs.SoundDevice.{taps_of, draft_of};

use crate::attributes::{edition, port_of};
use crate::needed::Needed;
use crate::strings::Strings;
use board_defs::{Items, Name};
use bsdl_parser::{Attribute, Entity, Port};
use device_rules::{Draft, TapPorts};
use std::alloc::{AllocError, Global};

fn copied_port(alloc: Global, port: &Port) -> Result<Port, AllocError>
    ensures { IfOk result (λ copy. copy ≡ port.now) }
{
    Ok(Port {
        name: port.name.copy(alloc)?,
        mode: port.mode,
        range: port.range,
    })
}

fn copied_ports(alloc: Global, ports: &[Port]) -> Result<Vec<Port>, AllocError>
    ensures { IfOk result (λ copies. copies.items ≡ ports.now) }
{
    let mut copies = Vec::new(alloc);
    for port in ports {
        copies.push(copied_port(alloc, port)?)?;
    }
    Ok(copies)
}

fn reset_port(alloc: Global, entity: &Entity) -> Result<Option<Name>, AllocError>
    ensures { IfOk result (λ port. port ≡ port_of_attribute entity.now TapScanReset) }
{
    match port_of(entity, Attribute::TapScanReset) {
        Some(port) => Ok(Some(Name::of(alloc, port)?)),
        None => Ok(None),
    }
}

/// Returns copies of the names of the ports that the TAP attributes name.
fn taps_of(alloc: Global, entity: &Entity, needed: &Needed) -> Result<TapPorts, AllocError>
    ensures { IfOk result (λ taps. taps ≡ taps_of entity.now (needed_view needed.now)) }
{
    Ok(TapPorts {
        scan_in: Name::of(alloc, needed.taps.scan_in)?,
        scan_out: Name::of(alloc, needed.taps.scan_out)?,
        mode: Name::of(alloc, needed.taps.mode)?,
        clock: Name::of(alloc, needed.taps.clock)?,
        reset: reset_port(alloc, entity)?,
    })
}

/// The names and the ports of a draft: the name of the entity, the name of the package, the ports
/// of the entity, and the ports that the TAP attributes name.
type EntityParts = (Name, Name, Items<Port>, TapPorts);

fn parts_of(alloc: Global, entity: &Entity, needed: &Needed) -> Result<EntityParts, AllocError>
    ensures { IfOk result
        (λ parts. parts
        ≡ (
          entity.now.name,
          needed.now.chosen.name.now,
          entity.now.ports,
          taps_of entity.now (needed_view needed.now),
        )) }
{
    let name = entity.name.copy(alloc)?;
    let package = Name::of(alloc, needed.chosen.name)?;
    let ports = copied_ports(alloc, entity.ports.as_slice())?;
    let taps = taps_of(alloc, entity, needed)?;
    Ok((name, package, Items::of(ports), taps))
}

/// Returns the draft of the entity, made from the values that rule V1 found and the values of the strings.
pub(crate) fn draft_of(
    alloc: Global,
    entity: &Entity,
    needed: &Needed,
    strings: Strings,
) -> Result<Draft, AllocError>
    ensures { IfOk result (λ draft. draft ≡ draft_of entity.now (needed_view needed.now) strings) }
{
    let (name, package, ports, taps) = parts_of(alloc, entity, needed)?;
    Ok(Draft {
        entity: name,
        package,
        edition: edition(entity),
        ports,
        taps,
        ir: needed.registers.instruction_length,
        opcodes: strings.opcodes,
        capture: strings.capture,
        idcode: strings.idcode,
        compliance: strings.compliance,
        boundary: needed.registers.boundary_length,
        map: strings.map,
        entries: strings.entries,
    })
}
