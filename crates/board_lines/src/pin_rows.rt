// Pin rows. A pin row lists the pin of each port bit of a part, and maps each pin to the first port
// bit with this pin. A port bit is one bit of a port. Parts with the same pins can share a row.
ghost use Rattle.std.specs.Prelude.{◌≡◌, ◌≤◌, if◌then◌else◌, length, slice_get, true, IfOk, IfSome, List, OnOk, Option, Some, ℕ};
ghost use Rattle.board_defs.specs.Limits.{most_bits};
ghost use Rattle.std.proofs.Common.{Bor};
ghost use Rattle.indexmap.specs.IndexMap.{get_by};
ghost use Rattle.board_files.specs.Names.{same_word};
ghost use Rattle.board_lines.specs.PinRows.{bit_of_pin, has_pin_named, pins_of_part, pins_of_bits};

use board_defs::{Name, PartKind, PortBit};
use indexmap::IndexMap;
use short_lists::ShortSlice;
use std::alloc::{AllocError, Global};
use std::marker::Model;

/// The search for a row with the same pins compares at most this many rows. On a board with many
/// different devices, few parts can share a row, and comparing with every row would take too long.
const ROWS_COMPARED: usize = 16;

/// Returns the port bits of a part. A part in BYPASS has no port bits.
pub fn bits_of(kind: &PartKind) -> ShortSlice<'_, PortBit>
    ensures pins { pins_of_bits result.items.now ≡ pins_of_part kind.now }
    ensures few { length result.items.now ≤ most_bits }
{
    match kind {
        PartKind::Described(device) => ShortSlice {
            items: device.raw().bits.as_slice(),
        },
        PartKind::Bypass(_) => ShortSlice { items: &[] },
    }
}

/// Sets the map's value for the pin to `bit`. Does nothing if there is no pin.
fn put_pin<'a>(
    bits: &mut IndexMap<&'a [u8], u32>,
    pin: &'a Option<Name>,
    bit: u32,
) -> Result<(), AllocError>
    ensures { OnOk result
        ((q : Bor (List ℕ))
        → get_by (λ n. same_word q.now n.now) bits.new
        ≡ (if has_pin_named q.now pin.now then Some bit
        else get_by (λ n. same_word q.now n.now) bits.old)) }
{
    if let Some(name) = pin {
        bits.insert(name.bytes(), bit)?;
    }
    Ok(())
}

/// Returns a map from each pin to the number of the first port bit with this pin.
fn bits_by_pin<'a>(
    alloc: Global,
    bits: ShortSlice<'a, PortBit>,
) -> Result<IndexMap<&'a [u8], u32>, AllocError>
    ensures { IfOk result
        (λ by_pin. (q : Bor (List ℕ))
        → get_by (λ n. same_word q.now n.now) by_pin
        ≡ bit_of_pin (pins_of_bits bits.entry.items.now) q.now) }
{
    let mut by_pin = IndexMap::with_capacity(alloc, bits.items.len())?;
    let mut i = bits.items.len();
    while 0 < i {
        i -= 1;
        put_pin(&mut by_pin, &bits.items[i].pin, i as u32)?;
    }
    Ok(by_pin)
}

/// Returns true only if the names are equal or both are missing.
fn is_same_name(a: &Option<Name>, b: &Option<Name>) -> bool
    ensures { result ≡ true → a.now ≡ b.now }
{
    match (a, b) {
        (Some(a), Some(b)) => a.bytes() == b.bytes(),
        (None, None) => true,
        _ => false,
    }
}

/// Returns true only if the port bits have the same pins in the same order.
fn have_same_pins(a: &[PortBit], b: &[PortBit]) -> bool
    ensures { result ≡ true → pins_of_bits a.now ≡ pins_of_bits b.now }
{
    if a.len() != b.len() {
        return false;
    }
    for i in 0..a.len() {
        if !is_same_name(&a[i].pin, &b[i].pin) {
            return false;
        }
    }
    true
}

/// The pins of the port bits of a part. In contracts, the value is the list of these pins, with
/// None for a port bit without a pin.
#[derive(Drop)]
pub struct PinRow<'a> {
    bits: &'a [PortBit],
    by_pin: IndexMap<&'a [u8], u32>,
}

impl<'a> Model for PinRow<'a> {
    ghost use Rattle.std.specs.Prelude.{◌≡◌, List, Option, ℕ};
    ghost use Rattle.std.proofs.Common.{Bor};
    ghost use Rattle.indexmap.specs.IndexMap.{get_by};
    ghost use Rattle.board_files.specs.Names.{same_word};
    ghost use Rattle.board_lines.specs.PinRows.{bit_of_pin, pins_of_bits};

    ghost Value = { List (Option (List ℕ)) };

    ghost view = { λ a. pins_of_bits a.bits.now };

    ghost invariant = { λ a. (q : Bor (List ℕ))
        → get_by (λ n. same_word q.now n.now) a.by_pin
        ≡ bit_of_pin (pins_of_bits a.bits.now) q.now };
}

impl<'a> PinRow<'a> {
    fn of(alloc: Global, bits: ShortSlice<'a, PortBit>) -> Result<PinRow<'a>, AllocError>
        ensures { IfOk result (λ row. row ≡ pins_of_bits bits.entry.items.now) }
    {
        let by_pin = bits_by_pin(alloc, bits)?;
        Ok(PinRow {
            bits: bits.items,
            by_pin,
        })
    }

    /// Returns the number of the first port bit with this pin, or None if no port bit has it.
    pub fn bit_of(&self, pin: &[u8]) -> Option<u32>
        ensures { result ≡ bit_of_pin self.now pin.now }
    {
        self.by_pin.get(&pin).copied()
    }

    /// Returns true only if the port bits have the pins of this row, in the same order.
    fn has_pins(&self, bits: &[PortBit]) -> bool
        ensures { result ≡ true → self.now ≡ pins_of_bits bits.now }
    {
        have_same_pins(self.bits, bits)
    }
}

/// Returns the number of a row with the pins of these port bits, if there is one among the first
/// `ROWS_COMPARED` rows.
fn row_among(rows: &[PinRow<'_>], bits: &[PortBit]) -> Option<usize>
    ensures { IfSome result (λ number. slice_get rows.now number ≡ Some (pins_of_bits bits.now)) }
{
    for (number, row) in rows.iter().enumerate() {
        if number == ROWS_COMPARED {
            return None;
        }
        if row.has_pins(bits) {
            return Some(number);
        }
    }
    None
}

/// Returns the number of a row with the pins of these port bits. Adds a row if there is none among
/// the first `ROWS_COMPARED` rows. The old rows keep their numbers.
pub fn row_of<'a>(
    alloc: Global,
    rows: &mut Vec<PinRow<'a>>,
    bits: ShortSlice<'a, PortBit>,
) -> Result<usize, AllocError>
    ensures number { IfOk result
        (λ number. slice_get rows.new.items number ≡ Some (pins_of_bits bits.entry.items.now)) }
    ensures kept { OnOk result
        ((k : ℕ) (row : List (Option (List ℕ))) → slice_get rows.old.items k ≡ Some row
        → slice_get rows.new.items k ≡ Some row) }
{
    if let Some(number) = row_among(rows, bits.items) {
        return Ok(number);
    }
    let number = rows.len();
    rows.push(PinRow::of(alloc, bits)?)?;
    Ok(number)
}
