// Finds the place of a pin in the chain: the number of its part, and the number of its port bit in
// the part. The part is looked up by its name, and then the port bit by the pin's own name.
ghost use Rattle.std.specs.Prelude.{◌≡◌, ◌≢◌, AllPairs, map, option_and_then, slice_get, IfOk, List, Option, Some, ℕ};
ghost use Rattle.std.proofs.Common.{Bor};
ghost use Rattle.indexmap.specs.IndexMap.{get_by};
ghost use Rattle.first_places.specs.Places.{first_place};
ghost use Rattle.board_files.specs.Names.{same_word};
ghost use Rattle.board_lines.specs.NetWords.{lent_pin};
ghost use Rattle.board_lines.specs.ChainParts.{pin_places, place_of_pin};
ghost use Rattle.board_lines.specs.PinRows.{ArePinRows, bit_of_pin, place_by_part, row_at};

use crate::names::{first_places_of, place_of};
use crate::pin_rows::{PinRow, bits_of, row_of};
use crate::words::PinName;
use board_defs::{Part, PinAt};
use indexmap::IndexMap;
use short_lists::ShortSlice;
use std::alloc::{AllocError, Global};
use std::marker::Model;

fn part_names<'a>(alloc: Global, parts: &'a [Part]) -> Result<Vec<&'a [u8]>, AllocError>
    ensures { IfOk result
        (λ names. map (λ n. n.now) names.items ≡ map (λ part. part.name) parts.now) }
{
    let mut names = Vec::with_capacity(alloc, parts.len())?;
    for part in parts {
        names.push(part.name.bytes())?;
    }
    Ok(names)
}

/// Returns a map from each part name to the number of the first part with this name.
fn parts_by_name<'a>(
    alloc: Global,
    parts: ShortSlice<'a, Part>,
) -> Result<IndexMap<&'a [u8], u32>, AllocError>
    ensures { IfOk result
        (λ numbers. (q : Bor (List ℕ))
        → get_by (λ n. same_word q.now n.now) numbers
        ≡ first_place same_word (map (λ part. part.name) parts.entry.items.now) q.now) }
{
    let names = part_names(alloc, parts.items)?;
    first_places_of(alloc, ShortSlice { items: &names })
}

/// The pin row of each part. Parts with the same pins can share a row.
#[derive(Drop)]
struct PartRows<'a> {
    rows: Vec<PinRow<'a>>,
    /// The number of each part's row.
    numbers: Vec<usize>,
}

fn rows_of<'a>(alloc: Global, parts: &'a [Part]) -> Result<PartRows<'a>, AllocError>
    ensures { IfOk result
        (λ part_rows. ArePinRows part_rows.rows.items part_rows.numbers.items parts.now) }
{
    let mut rows = Vec::new(alloc);
    let mut numbers = Vec::with_capacity(alloc, parts.len())?;
    for part in parts {
        let number = row_of(alloc, &mut rows, bits_of(&part.kind))?;
        numbers.push(number)?;
    }
    Ok(PartRows { rows, numbers })
}

/// Returns the number of the first port bit of part `part` with this pin, or None if there is none.
/// Looks the pin up in the part's row.
fn bit_in(rows: &[PinRow<'_>], numbers: &[usize], part: u32, pin: &[u8]) -> Option<u32>
    ensures { result
        ≡ option_and_then (λ row. bit_of_pin row pin.now) (row_at rows.now numbers.now part) }
{
    match numbers.get(part as usize) {
        Some(number) => match rows.get(*number) {
            Some(row) => row.bit_of(pin),
            None => None,
        },
        None => None,
    }
}

/// Returns the place of a pin, or None if it has none. Looks up the number of the pin's part by the
/// part's name, and then the pin in the part's row.
fn place_in(
    by_name: &IndexMap<&[u8], u32>,
    rows: &[PinRow<'_>],
    numbers: &[usize],
    pin: &PinName<'_>,
) -> Option<PinAt>
    ensures { result
        ≡ place_by_part rows.now numbers.now
        (get_by (λ n. same_word pin.now.0.now n.now) by_name.now) pin.now.1.now }
{
    match place_of(by_name, pin.0) {
        None => None,
        Some(part) => match bit_in(rows, numbers, part, pin.1) {
            None => None,
            Some(bit) => Some(PinAt { part, bit }),
        },
    }
}

/// The places of the pins of a chain's parts. In contracts, the value is the list of the parts.
///
/// Most boards have many equal devices. A row of pins for each different device stays in the
/// processor's cache, but one table of all pins does not.
#[derive(Drop)]
pub struct PinPlaces<'a> {
    parts: &'a [Part],
    by_name: IndexMap<&'a [u8], u32>,
    part_rows: PartRows<'a>,
}

impl<'a> Model for PinPlaces<'a> {
    ghost use Rattle.std.specs.Prelude.{List};
    ghost use Rattle.board_defs.specs.declared.board.Part.{Part};
    ghost use Rattle.board_lines.specs.PinRows.{ArePlaces};

    ghost Value = { List Part };

    ghost view = { λ a. a.parts.now };

    ghost invariant = { λ a. ArePlaces a.by_name a.part_rows.rows.items a.part_rows.numbers.items
        a.parts.now };
}

impl<'a> PinPlaces<'a> {
    /// Returns the places of the pins of these parts. The names of the parts must differ.
    pub fn of(alloc: Global, parts: ShortSlice<'a, Part>) -> Result<PinPlaces<'a>, AllocError>
        requires { AllPairs (λ a b. a ≢ b) (map (λ part. part.name) parts.items.now) }
        ensures { IfOk result (λ places. places ≡ parts.entry.items.now) }
    {
        let by_name = parts_by_name(alloc, parts)?;
        let part_rows = rows_of(alloc, parts.items)?;
        Ok(PinPlaces {
            parts: parts.items,
            by_name,
            part_rows,
        })
    }

    /// Returns the place of the pin in the chain, or None if no port bit of the chain has the pin.
    pub fn place_of_pin(&self, pin: &PinName<'_>) -> Option<PinAt>
        ensures { result ≡ place_of_pin (pin_places self.now) (lent_pin pin.now) }
    {
        place_in(
            &self.by_name,
            &self.part_rows.rows,
            &self.part_rows.numbers,
            pin,
        )
    }
}
