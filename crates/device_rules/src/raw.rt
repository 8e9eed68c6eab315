//! The record of the device that a draft without a broken rule describes. A draft is a device as its BSDL text states it.
ghost use Rattle.std.specs.Prelude.{◌≡◌, ◌<◌, ◌^◌, ◌++◌, true, map, slice_get, option_and_then, IfOk, OnOk};
ghost use Rattle.std.specs.Option.{option_copied};
ghost use Rattle.board_defs.specs.DeviceRules.{IsDevice};
ghost use Rattle.device_rules.specs.Ports.{range_in_order, width, bits_in_port};
ghost use Rattle.device_rules.specs.Rules.{HasShortLists, IfSound};
ghost use Rattle.device_rules.specs.inner.Index.{index_at};
ghost use Rattle.instruction_rules.specs.Instructions.{preload as preload_code, extest as extest_code};
ghost use Rattle.device_rules.specs.Raw.{port_bit, cell_of, raw_bits, raw_cells, raw_device, HasLengths};
ghost use Rattle.device_rules.specs.inner.Parts.{parts_of};

use crate::compliance::NamedBits;
use crate::draft::{Draft, TapPorts};
use crate::fault::DraftFault;
use crate::indexed::IndexedDraft;
use crate::name_index::NameIndex;
use crate::port_index::{Near, PortIndex};
use crate::ports::bit_count;
use crate::rules::checked;
use crate::taps::is_tap;
use board_defs::{Cell, Code, Items, Name, PortBit, RawDevice};
use bsdl_parser::{Port, Range};
use bsdl_strings::{Entry, MapEntry};
use instruction_rules::{extest, preload};
use std::alloc::{AllocError, Global};

/// Returns the names of the ports, in the order of the list.
fn port_names(alloc: Global, ports: &[Port]) -> Result<Vec<Name>, AllocError>
    ensures { IfOk result (λ names. names.items ≡ map (λ port. port.name) ports.now) }
{
    let mut names = Vec::new(alloc);
    for port in ports {
        names.push(port.name.copy(alloc)?)?;
    }
    Ok(names)
}

/// Returns the pin at `place` of the entry. Returns None if there is no entry, or if the entry has
/// no pin at this place.
fn pin_of(alloc: Global, entry: Option<&MapEntry>, place: u32) -> Result<Option<Name>, AllocError>
    ensures { IfOk result (λ pin. pin
        ≡ option_and_then (λ entry. slice_get entry.pins place) (option_copied entry.entry)) }
{
    match entry {
        None => Ok(None),
        Some(entry) => match entry.pins.as_slice().get(place as usize) {
            None => Ok(None),
            Some(pin) => Ok(Some(pin.copy(alloc)?)),
        },
    }
}

/// Returns the index at `place` in the range, or None without a range. Places count from 0, from
/// left to right. `place` must be below the number of bits of the range.
fn index_at(range: Option<Range>, place: u32) -> Option<u32>
    requires { place < width range }
    ensures { result ≡ index_at range place }
{
    match range {
        None => None,
        Some(range) => {
            if range.up {
                Some(range.left + place)
            } else {
                Some(range.left - place)
            }
        }
    }
}

/// Appends the bits of a port to the list, in order from left to right. The port's range must be in
/// order and have fewer than 2^32 bits.
fn push_bits(
    alloc: Global,
    pins: &NameIndex<MapEntry>,
    taps: &TapPorts,
    named: &NamedBits,
    number: u32,
    port: &Port,
    bits: &mut Vec<PortBit>,
) -> Result<(), AllocError>
    requires ordered { range_in_order port.now.range ≡ true }
    requires few { width port.now.range < 2 ^ 32 }
    ensures { OnOk result (bits.new.items ≡ bits.old.items
        ++ map (port_bit pins.now taps.now named.now) (bits_in_port number port.now)) }
{
    let name = port.name.bytes();
    let entry = pins.item_of(name);
    let tap = is_tap(taps, name);
    for place in 0..bit_count(port.range) as u32 {
        let index = index_at(port.range, place);
        let pin = pin_of(alloc, entry, place)?;
        bits.push(PortBit {
            port: number,
            index,
            mode: port.mode,
            pin,
            tap,
            compliance: named.has(name, index),
        })?;
    }
    Ok(())
}

/// Returns the bits of all ports, in the order of the ports.
#[tactic(auto, unfolding(crate::specs::Raw::raw_bits))]
fn all_bits(
    alloc: Global,
    ports: &PortIndex,
    pins: &NameIndex<MapEntry>,
    taps: &TapPorts,
    named: &NamedBits,
) -> Result<Vec<PortBit>, AllocError>
    ensures { IfOk result (λ bits. bits.items ≡ raw_bits ports.now pins.now taps.now named.now) }
{
    let ports = ports.as_slice();
    let mut bits = Vec::new(alloc);
    for (i, port) in ports.iter().enumerate() {
        push_bits(alloc, pins, taps, named, i as u32, port, &mut bits)?;
    }
    Ok(bits)
}

/// Returns the bits of the draft's ports, in the order of the ports.
fn described_bits(alloc: Global, draft: &IndexedDraft) -> Result<Vec<PortBit>, AllocError>
    ensures { IfOk result (λ bits. bits.items
        ≡ raw_bits draft.now.ports draft.now.map draft.now.taps draft.now.compliance) }
{
    let text = draft.text();
    let pins = NameIndex::of(alloc, text.map.as_slice())?;
    let named = NamedBits::of(alloc, &text.compliance)?;
    all_bits(alloc, draft.ports(), &pins, &text.taps, &named)
}

/// Returns the `Cell` that the record has for the entry. The `Cell` has the number of the port bit that the entry
/// names, if the entry names one.
fn cell_of(ports: &PortIndex, near: &mut Near, entry: &Entry) -> Cell
    ensures { result ≡ cell_of ports.now entry.now }
{
    Cell {
        num: entry.num,
        role: entry.role,
        bit: ports.bit_at(near, &entry.port),
        safe: entry.safe,
        ctl: entry.ctl,
    }
}

/// Returns the `Cell` of each entry, in the order of the text. Each `Cell` has the number of the port bit that the
/// entry names, if the entry names one.
#[tactic(auto, unfolding(crate::specs::Raw::raw_cells))]
fn all_cells(alloc: Global, ports: &PortIndex, entries: &[Entry]) -> Result<Vec<Cell>, AllocError>
    ensures { IfOk result (λ cells. cells.items ≡ raw_cells ports.now entries.now) }
{
    let mut near = Near::new();
    let mut cells = Vec::new(alloc);
    for entry in entries {
        cells.push(cell_of(ports, &mut near, entry))?;
    }
    Ok(cells)
}

/// The fields of a device's record that are computed from the draft. The other fields are moved out
/// of the draft unchanged.
#[derive(Drop)]
struct Parts {
    ports: Items<Name>,
    sample: Code,
    extest: Code,
    bits: Items<PortBit>,
    cells: Items<Cell>,
}

/// Returns the preload code and the EXTEST code.
fn codes_of(alloc: Global, text: &Draft) -> Result<(Code, Code), AllocError>
    ensures { IfOk result
        (λ codes. codes
        ≡ (
          preload_code text.now.edition text.now.opcodes,
          extest_code text.now.edition text.now.ir text.now.opcodes,
        )) }
{
    let opcodes = text.opcodes.as_slice();
    let sample = preload(alloc, text.edition, opcodes)?;
    let extest = extest(alloc, text.edition, text.ir, opcodes)?;
    Ok((sample, extest))
}

fn parts_of(alloc: Global, draft: &IndexedDraft) -> Result<Parts, AllocError>
    ensures { IfOk result (λ parts. parts ≡ parts_of draft.now) }
{
    let text = draft.text();
    let bits = described_bits(alloc, draft)?;
    let cells = all_cells(alloc, draft.ports(), text.entries.as_slice())?;
    let ports = port_names(alloc, text.ports.as_slice())?;
    let (sample, extest) = codes_of(alloc, text)?;
    Ok(Parts {
        ports: Items::of(ports),
        sample,
        extest,
        bits: Items::of(bits),
        cells: Items::of(cells),
    })
}

/// Returns the computed fields of the device's record, or the first of the rules V2 to V14 that the
/// draft breaks, or lack of memory. The draft's lists must be shorter than 2^32.
fn checked_parts(alloc: Global, draft: &Draft) -> Result<Parts, DraftFault>
    requires { HasShortLists draft.now }
    ensures { IfSound draft.now (λ parts. parts ≡ parts_of draft.now) result }
{
    match checked(alloc, draft) {
        Ok(draft) => Ok(parts_of(alloc, &draft)?),
        Err(fault) => Err(fault),
    }
}

/// Returns the record of the device that the draft describes. `parts` must be computed from this
/// draft. Moves everything else out of the draft.
fn with_parts(draft: Draft, parts: Parts) -> RawDevice
    requires { parts ≡ parts_of draft }
    ensures { result ≡ raw_device draft }
{
    RawDevice {
        entity: draft.entity,
        package: draft.package,
        edition: draft.edition,
        ports: parts.ports,
        ir: draft.ir,
        sample: parts.sample,
        extest: parts.extest,
        idcode: draft.idcode,
        boundary: draft.boundary,
        bits: parts.bits,
        cells: parts.cells,
    }
}

/// Returns the record of the device that the draft describes, if the draft breaks none of the rules
/// V2 to V14. Otherwise returns the first of these rules that the draft breaks, with the first item
/// that breaks it. If memory runs out, returns `DraftFault::Memory`. The draft's lists must be shorter
/// than 2^32.
///
/// The record keeps the rules of devices if the lengths of the registers are in their ranges. These
/// are 2 to 255 bits for the instruction register and 1 to 65,535 cells for the boundary register.
pub fn raw_device(alloc: Global, draft: Draft) -> Result<RawDevice, DraftFault>
    requires { HasShortLists draft }
    ensures raw { IfSound draft (λ raw. raw ≡ raw_device draft) result }
    ensures device { HasLengths draft → IfOk result (λ raw. IsDevice raw) }
{
    match checked_parts(alloc, &draft) {
        Ok(parts) => Ok(with_parts(draft, parts)),
        Err(fault) => Err(fault),
    }
}
