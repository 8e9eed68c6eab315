//! The rules on the ports of boundary entries.
ghost use Rattle.std.specs.Prelude.{◌≡◌, ◌<◌, ◌^◌, ◌&&◌, not, length, IfOk, IfSome};
ghost use Rattle.std.specs.Option.{option_copied};
ghost use Rattle.board_defs.specs.DeviceRules.{is_driving, is_inner, may_drive};
ghost use Rattle.device_rules.specs.Ports.{bit_total, bit_number, named_port};
ghost use Rattle.device_rules.specs.Places.{is_star, breaks_place, v9, driven_bit_number, breaks_driver, v13, breaks_mode, v14};

use crate::draft::TapPorts;
use crate::port_index::{Near, PortIndex};
use crate::taps::is_tap;
use board_defs::{Mode, Role};
use bsdl_parser::Port;
use bsdl_strings::{Entry, PortWord};
use std::alloc::{AllocError, Global};

fn is_star(word: &PortWord) -> bool
    ensures { result ≡ is_star word.now }
{
    matches!(word, PortWord::Star)
}

/// Returns whether the entry breaks rule V9. A CONTROL, CONTROLR or INTERNAL entry must have `*` in place of a port,
/// and any other entry must name a port bit.
fn breaks_place(ports: &PortIndex, near: &mut Near, entry: &Entry) -> bool
    ensures { result ≡ breaks_place ports.now entry.now }
{
    if entry.role.is_inner() {
        !is_star(&entry.port)
    } else {
        ports.bit_at(near, &entry.port).is_none()
    }
}

/// Checks rule V9. Returns the number of the first entry that breaks it, counted from 1. A CONTROL, CONTROLR or
/// INTERNAL entry must have `*` in place of a port, and any other entry must name a port bit. There must be fewer than
/// 2^32 entries.
#[tactic(auto, unfolding(crate::specs::Places::v9))]
pub(crate) fn wrong_place(ports: &PortIndex, entries: &[Entry]) -> Option<u32>
    requires { length entries.now < 2 ^ 32 }
    ensures { result ≡ v9 ports.now entries.now }
{
    let mut near = Near::new();
    for (i, entry) in entries.iter().enumerate() {
        if breaks_place(ports, &mut near, entry) {
            return Some(i as u32 + 1);
        }
    }
    None
}

/// Returns the number of the port bit that the entry drives, or None if the entry drives no port bit.
fn driven_bit(ports: &PortIndex, near: &mut Near, entry: &Entry) -> Option<u32>
    ensures number { result ≡ driven_bit_number ports.now entry.now }
    ensures few { IfSome result (λ bit. bit < bit_total ports.now) }
{
    if entry.role.is_driving() {
        ports.bit_at(near, &entry.port)
    } else {
        None
    }
}

/// Checks rule V13. Returns the number of the first entry, counted from 1, that drives the same
/// port bit as an earlier entry. There must be fewer than 2^32 entries.
#[tactic(auto, unfolding(crate::specs::Places::v13))]
pub(crate) fn second_driver(
    alloc: Global,
    ports: &PortIndex,
    entries: &[Entry],
) -> Result<Option<u32>, AllocError>
    requires { length entries.now < 2 ^ 32 }
    ensures { IfOk result (λ item. item ≡ v13 ports.now entries.now) }
{
    let mut driven = vec![in alloc; false; ports.total_bits() as usize]?;
    let mut near = Near::new();
    for (i, entry) in entries.iter().enumerate() {
        if let Some(bit) = driven_bit(ports, &mut near, entry) {
            if driven[bit as usize] {
                return Ok(Some(i as u32 + 1));
            }
            driven[bit as usize] = true;
        }
    }
    Ok(None)
}

/// Returns the port that the word names, if there is such a port.
fn named_port<'a>(ports: &'a PortIndex, near: &mut Near, word: &PortWord) -> Option<&'a Port>
    ensures { option_copied result ≡ named_port ports.now word.now }
{
    match word {
        PortWord::Star => None,
        PortWord::Plain(name) => ports.port_at(near, name.bytes()),
        PortWord::Index(name, _) => ports.port_at(near, name.bytes()),
    }
}

/// Returns whether an entry with this function drives its port although the mode of the port does not allow this.
fn drives_wrongly(role: Role, mode: Mode) -> bool
    ensures { result ≡ (is_driving role && not (may_drive mode)) }
{
    role.is_driving() && !mode.may_drive()
}

/// Returns whether the entry is on a TAP port, or drives a port of mode in or linkage.
fn is_misfit(ports: &PortIndex, near: &mut Near, taps: &TapPorts, entry: &Entry) -> bool
    ensures { result ≡ breaks_mode ports.now taps.now entry.now }
{
    match named_port(ports, near, &entry.port) {
        None => false,
        Some(port) => is_tap(taps, port.name.bytes()) || drives_wrongly(entry.role, port.mode),
    }
}

/// Checks rule V14. Returns the number of the first entry, counted from 1, that is on a TAP port or
/// drives a port of mode in or linkage. There must be fewer than 2^32 entries.
#[tactic(auto, unfolding(crate::specs::Places::v14))]
pub(crate) fn misfit(ports: &PortIndex, taps: &TapPorts, entries: &[Entry]) -> Option<u32>
    requires { length entries.now < 2 ^ 32 }
    ensures { result ≡ v14 ports.now taps.now entries.now }
{
    let mut near = Near::new();
    for (i, entry) in entries.iter().enumerate() {
        if is_misfit(ports, &mut near, taps, entry) {
            return Some(i as u32 + 1);
        }
    }
    None
}
