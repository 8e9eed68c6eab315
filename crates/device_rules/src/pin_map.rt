//! The rule on the pin map.
ghost use Rattle.std.specs.Prelude.{◌≡◌, ◌<◌, ◌^◌, ◌++◌, ◌||◌, not, List, ℕ, false, length, IfOk};
ghost use Rattle.std.specs.Option.{option_copied};
ghost use Rattle.device_rules.specs.inner.Seen.{HasNames};
ghost use Rattle.device_rules.specs.Ports.{port_of};
ghost use Rattle.device_rules.specs.PinMap.{has_width, some_repeats, v4};

use crate::port_index::{Near, PortIndex};
use crate::ports::bit_count;
use board_defs::Name;
use bsdl_parser::Port;
use bsdl_strings::MapEntry;
use std::alloc::{AllocError, Global};
use std::collections::HashSet;

/// Returns whether there is a port and it has `count` bits.
fn has_width(port: Option<&Port>, count: usize) -> bool
    ensures { result ≡ has_width (option_copied port.entry) count }
{
    match port {
        Some(port) => bit_count(port.range) == count as u64,
        None => false,
    }
}

/// Returns whether the entry names a port and has as many pins as that port has bits.
fn fits_port(ports: &PortIndex, entry: &MapEntry) -> bool
    ensures { result ≡ has_width (port_of ports.now entry.now.port) (length entry.now.pins) }
{
    has_width(
        ports.port_at(&mut Near::new(), entry.port.bytes()),
        entry.pins.len(),
    )
}

/// Returns whether an entry breaks rule V4. `known` says whether an earlier entry names the entry's
/// port. `fits` says whether the port exists and has as many bits as the entry has pins. `repeats`
/// says whether one of the entry's pins is in an earlier entry or occurs twice in the entry.
fn is_broken(known: bool, fits: bool, repeats: bool) -> bool
    ensures { result ≡ (known || (not fits || repeats)) }
{
    known || !fits || repeats
}

/// Returns whether one of the pins is in `seen` or occurs twice in `pins`. If the result is false, adds all pins to
/// `seen`.
fn some_repeats<'a>(seen: &mut HashSet<&'a [u8]>, pins: &'a [Name]) -> Result<bool, AllocError>
    ensures answer { IfOk result (λ repeats. (before : List (List ℕ))
        → HasNames seen.old before → repeats ≡ some_repeats before pins.now) }
    ensures seen { IfOk result (λ repeats. (before : List (List ℕ))
        → HasNames seen.old before → repeats ≡ false → HasNames seen.new (before ++ pins.now)) }
{
    for pin in pins {
        let fresh = seen.insert(pin.bytes())?;
        if !fresh {
            return Ok(true);
        }
    }
    Ok(false)
}

/// Checks rule V4. Returns the number of the first wrong entry, counted from 1. An entry is wrong
/// if it names no port, if an earlier entry names its port, if it does not have as many pins as its
/// port has bits, or if one of its pins occurs twice in the entry or is in an earlier entry. There
/// must be fewer than 2^32 entries.
#[tactic(auto, unfolding(crate::specs::PinMap::v4))]
pub(crate) fn wrong_map_entry(
    alloc: Global,
    ports: &PortIndex,
    entries: &[MapEntry],
) -> Result<Option<u32>, AllocError>
    requires { length entries.now < 2 ^ 32 }
    ensures { IfOk result (λ item. item ≡ v4 ports.now entries.now) }
{
    let mut named: HashSet<&[u8]> = HashSet::new(alloc);
    let mut pins: HashSet<&[u8]> = HashSet::new(alloc);
    for (i, entry) in entries.iter().enumerate() {
        let name = entry.port.bytes();
        let known = named.contains(name);
        let fits = fits_port(ports, entry);
        let repeats = some_repeats(&mut pins, entry.pins.as_slice())?;
        if is_broken(known, fits, repeats) {
            return Ok(Some(i as u32 + 1));
        }
        named.insert(name)?;
    }
    Ok(None)
}
