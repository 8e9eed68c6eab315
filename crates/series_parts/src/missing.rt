// The first LINK pin that is in no net.
ghost use Rattle.std.specs.Prelude.{◌≡◌, is_none};
ghost use Rattle.series_parts.specs.LinkPins.{is_missing_pin, missing_link_pin, missing_of, missing_on};

use crate::pins::Pins;
use board_defs::Spot;
use board_files::{ChainLine, ChainStatement};

/// Returns whether the pin is in no net.
fn is_missing(pins: &Pins<'_>, part: &[u8], pin: &[u8]) -> bool
    ensures { result ≡ is_missing_pin pins.now part.now pin.now }
{
    is_none(pins.place_of(part, pin))
}

fn is_none(place: Option<u32>) -> bool
    ensures { result ≡ is_none place }
{
    place.is_none()
}

fn missing_of(pins: &Pins<'_>, line: u32, part: &[u8], first: &[u8], second: &[u8]) -> Option<Spot>
    ensures { result ≡ missing_of pins.now line part.now first.now second.now }
{
    if is_missing(pins, part, first) {
        Some(Spot { line, word: 3 })
    } else if is_missing(pins, part, second) {
        Some(Spot { line, word: 4 })
    } else {
        None
    }
}

fn missing_on(pins: &Pins<'_>, line: u32, statement: &ChainStatement) -> Option<Spot>
    ensures { result ≡ missing_on pins.now line statement.now }
{
    match statement {
        ChainStatement::Link {
            part,
            first,
            second,
        } => missing_of(pins, line, part.bytes(), first.bytes(), second.bytes()),
        _ => None,
    }
}

/// Returns the line and word of the first LINK pin that is in no net. Returns None if there is no
/// such pin.
pub fn missing_link_pin(pins: &Pins<'_>, lines: &[ChainLine]) -> Option<Spot>
    ensures { result ≡ missing_link_pin pins.now lines.now }
{
    for line in lines {
        if let Some(spot) = missing_on(pins, line.line, &line.statement) {
            return Some(spot);
        }
    }
    None
}
