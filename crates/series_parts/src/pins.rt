// Finds the first line of a net file that has a given pin.
ghost use Rattle.std.specs.Prelude.{◌≡◌, ◌<◌, ◌^◌, ◌&&◌, if◌then◌else◌, length, IfOk, OnOk, List, ℕ, Some};
ghost use Rattle.std.proofs.Common.{Bor};
ghost use Rattle.indexmap.specs.IndexMap.{get_by};
ghost use Rattle.board_files.specs.Names.{same_word};
ghost use Rattle.series_parts.specs.Nets.{has_word};
ghost use Rattle.series_parts.specs.inner.Edges.{pin_place};

use board_files::{NetLine, PinWord};
use indexmap::IndexMap;
use std::alloc::{AllocError, Global};
use std::marker::Model;

/// The key of a pin: the name of its part, and the pin's own name.
type PinKey<'a> = (&'a [u8], &'a [u8]);

/// Maps each of these pins to `place`, the index of their line. Replaces the map's earlier value
/// for each of the pins.
fn put_pins<'a>(
    places: &mut IndexMap<PinKey<'a>, u32>,
    words: &'a [PinWord],
    place: u32,
) -> Result<(), AllocError>
    ensures { OnOk result
        ((q : Bor (List ℕ) × Bor (List ℕ))
        → get_by (λ p. same_word q.0.now p.0.now && same_word q.1.now p.1.now) places.new
        ≡ (if has_word q.0.now q.1.now words.now then Some place
        else get_by (λ p. same_word q.0.now p.0.now && same_word q.1.now p.1.now)
        places.old)) }
{
    for word in words {
        places.insert((word.part.bytes(), word.pin.bytes()), place)?;
    }
    Ok(())
}

/// Returns a map from each pin to the index of the first line with that pin. There must be fewer
/// than 2^32 lines.
fn pin_places<'a>(
    alloc: Global,
    lines: &'a [NetLine],
) -> Result<IndexMap<PinKey<'a>, u32>, AllocError>
    requires { length lines.now < 2 ^ 32 }
    ensures { IfOk result
        (λ places. (q : Bor (List ℕ) × Bor (List ℕ))
        → get_by (λ p. same_word q.0.now p.0.now && same_word q.1.now p.1.now) places
        ≡ pin_place lines.now q.0.now q.1.now) }
{
    let mut places = IndexMap::new(alloc);
    let mut i = lines.len();
    while 0 < i {
        i -= 1;
        put_pins(&mut places, lines[i].pins.as_slice(), i as u32)?;
    }
    Ok(places)
}

/// The pins on the lines of a net file. In contracts, the value is the list of the lines.
#[derive(Drop)]
pub struct Pins<'a> {
    lines: &'a [NetLine],
    places: IndexMap<PinKey<'a>, u32>,
}

impl<'a> Model for Pins<'a> {
    ghost use Rattle.std.specs.Prelude.{◌≡◌, ◌&&◌, List, ℕ};
    ghost use Rattle.std.proofs.Common.{Bor};
    ghost use Rattle.indexmap.specs.IndexMap.{get_by};
    ghost use Rattle.board_files.specs.declared.net_file.NetLine.{NetLine};
    ghost use Rattle.board_files.specs.Names.{same_word};
    ghost use Rattle.series_parts.specs.inner.Edges.{pin_place};

    ghost Value = { List NetLine };

    ghost view = { λ a. a.lines.now };

    ghost invariant = { λ a. (q : Bor (List ℕ) × Bor (List ℕ))
        → get_by (λ p. same_word q.0.now p.0.now && same_word q.1.now p.1.now) a.places
        ≡ pin_place a.lines.now q.0.now q.1.now };
}

impl<'a> Pins<'a> {
    /// Returns the pins on these lines. There must be fewer than 2^32 lines.
    pub fn of(alloc: Global, lines: &'a [NetLine]) -> Result<Pins<'a>, AllocError>
        requires { length lines.now < 2 ^ 32 }
        ensures { IfOk result (λ pins. pins ≡ lines.now) }
    {
        let places = pin_places(alloc, lines)?;
        Ok(Pins { lines, places })
    }

    /// Returns the index of the first line with this pin, or None if there is none.
    pub fn place_of(&self, part: &[u8], pin: &[u8]) -> Option<u32>
        ensures { result ≡ pin_place self.now part.now pin.now }
    {
        self.places.get(&(part, pin)).copied()
    }
}
