//! The rule on the test access port and the compliance patterns.
ghost use Rattle.std.specs.Prelude.{◌≡◌, length, map, ◌==◌, is_some};
ghost use Rattle.std.specs.Option.{option_copied};
ghost use Rattle.std.specs.List.{list_any, list_all};
ghost use Rattle.std.specs.Str.{bytes_eq};
ghost use Rattle.device_rules.specs.Ports.{bit_number};
ghost use Rattle.device_rules.specs.Taps.{is_inward, is_outward, is_plain_port, breaks_tap, reset_breaks, wrong_tap, complies, v3, listed_name, tap_names, is_named_among};

use crate::draft::TapPorts;
use crate::port_index::{Near, PortIndex};
use board_defs::{Code, Mode, Name};
use bsdl_parser::{Attribute, Port};
use bsdl_strings::{Compliance, PortWord};

/// Returns whether there is a port, and it has type bit and mode in.
fn is_plain_in(port: Option<&Port>) -> bool
    ensures { result ≡ is_plain_port is_inward (option_copied port.entry) }
{
    match port {
        Some(port) => port.range.is_none() && matches!(port.mode, Mode::Inward),
        None => false,
    }
}

/// Returns whether there is a port, and it has type bit and mode out.
fn is_plain_out(port: Option<&Port>) -> bool
    ensures { result ≡ is_plain_port is_outward (option_copied port.entry) }
{
    match port {
        Some(port) => port.range.is_none() && matches!(port.mode, Mode::Outward),
        None => false,
    }
}

fn is_lent(names: &[&[u8]], name: &[u8]) -> bool
    ensures { result ≡ list_any (λ other. bytes_eq name.now other.now) names.now }
{
    names.iter().any(|other| name == *other)
}

fn is_in(names: &[&[u8]], name: &[u8]) -> bool
    ensures { result ≡ is_named_among (map (λ n. n.now) names.now) name.now }
{
    is_lent(names, name)
}

/// Returns whether `name`, the port name in a TAP attribute, is one of `before`, or no port of type bit and mode in has this name.
fn breaks_inward(ports: &PortIndex, before: &[&[u8]], name: &[u8]) -> bool
    ensures { result ≡ breaks_tap is_inward ports.now (map (λ n. n.now) before.now) name.now }
{
    is_in(before, name) || !is_plain_in(ports.port_at(&mut Near::new(), name))
}

/// Like `breaks_inward`, but for mode out.
fn breaks_outward(ports: &PortIndex, before: &[&[u8]], name: &[u8]) -> bool
    ensures { result ≡ breaks_tap is_outward ports.now (map (λ n. n.now) before.now) name.now }
{
    is_in(before, name) || !is_plain_out(ports.port_at(&mut Near::new(), name))
}

/// Like `breaks_inward`, but for TRST*, which a device need not have.
fn breaks_reset(ports: &PortIndex, before: &[&[u8]], reset: &Option<Name>) -> bool
    ensures { result ≡ reset_breaks ports.now (map (λ n. n.now) before.now) reset.now }
{
    match reset {
        Some(name) => breaks_inward(ports, before, name.bytes()),
        None => false,
    }
}

/// Returns the number of the first wrong TAP attribute. A TAP attribute must name a port of type
/// bit, with mode out for TAP_SCAN_OUT and mode in for the others. No earlier TAP attribute may name
/// the same port.
fn wrong_tap(ports: &PortIndex, taps: &TapPorts) -> Option<u32>
    ensures { result ≡ wrong_tap ports.now taps.now }
{
    let names = [
        taps.scan_in.bytes(),
        taps.scan_out.bytes(),
        taps.mode.bytes(),
        taps.clock.bytes(),
    ];
    if breaks_inward(ports, &names[..0], names[0]) {
        Some(Attribute::TapScanIn.number())
    } else if breaks_outward(ports, &names[..1], names[1]) {
        Some(Attribute::TapScanOut.number())
    } else if breaks_inward(ports, &names[..2], names[2]) {
        Some(Attribute::TapScanMode.number())
    } else if breaks_inward(ports, &names[..3], names[3]) {
        Some(Attribute::TapScanClock.number())
    } else if breaks_reset(ports, &names, &taps.reset) {
        Some(Attribute::TapScanReset.number())
    } else {
        None
    }
}

/// Returns whether `name` is the name of a TAP port.
pub fn is_tap(taps: &TapPorts, name: &[u8]) -> bool
    ensures { result ≡ is_named_among (tap_names taps.now) name.now }
{
    name == taps.scan_in.bytes()
        || name == taps.scan_out.bytes()
        || name == taps.mode.bytes()
        || name == taps.clock.bytes()
        || is_reset(&taps.reset, name)
}

fn is_reset(reset: &Option<Name>, name: &[u8]) -> bool
    ensures { result ≡ is_named_among (listed_name reset.now) name.now }
{
    match reset {
        Some(reset) => name == reset.bytes(),
        None => false,
    }
}

/// Returns whether each word names a port bit.
fn are_bits(ports: &PortIndex, words: &[PortWord]) -> bool
    ensures { result ≡ list_all (λ word. is_some (bit_number ports.now word)) words.now }
{
    let mut near = Near::new();
    for word in words {
        if ports.bit_at(&mut near, word).is_none() {
            return false;
        }
    }
    true
}

/// Returns whether each pattern has `count` symbols.
fn have_length(count: usize, patterns: &[Code]) -> bool
    ensures { result ≡ list_all (λ pattern. length pattern == count) patterns.now }
{
    patterns
        .iter()
        .all(|pattern| pattern.symbols().len() == count)
}

/// Returns whether each word in the list of ports of the compliance patterns names a port bit, and each pattern has one
/// symbol for each of these words. Returns true if there are no compliance patterns.
fn complies(ports: &PortIndex, compliance: &Option<Compliance>) -> bool
    ensures { result ≡ complies ports.now compliance.now }
{
    match compliance {
        None => true,
        Some(compliance) => {
            are_bits(ports, compliance.ports.as_slice())
                && have_length(compliance.ports.len(), compliance.patterns.as_slice())
        }
    }
}

/// Checks rule V3. Returns the number of the first TAP attribute that breaks the rule. If there is none, returns the
/// number of COMPLIANCE_PATTERNS if this attribute breaks the rule.
#[tactic(auto, unfolding(crate::specs::Taps::v3))]
pub(crate) fn wrong_attribute(
    ports: &PortIndex,
    taps: &TapPorts,
    compliance: &Option<Compliance>,
) -> Option<u32>
    ensures { result ≡ v3 ports.now taps.now compliance.now }
{
    match wrong_tap(ports, taps) {
        Some(number) => Some(number),
        None => {
            if complies(ports, compliance) {
                None
            } else {
                Some(Attribute::CompliancePatterns.number())
            }
        }
    }
}
