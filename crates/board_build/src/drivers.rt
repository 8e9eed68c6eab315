// Always-on drivers: port bits that a cell without a control drives. Each part has a flag for each
// port bit, so a look-up of a pin does not search the cells.
ghost use Rattle.std.specs.Prelude.{◌≡◌, ◌∷◌, ℕ, List, length, slice_index_or, false, IfOk};
ghost use Rattle.board_defs.specs.declared.device.Cell.{Cell};
ghost use Rattle.board_defs.specs.DeviceRules.{driving_entry};
ghost use Rattle.board_defs.specs.Pins.{described};
ghost use Rattle.board_build.specs.inner.Marked.{AreFlags, has_no_control, is_free_bit, is_free_at};

use board_defs::{Cell, Device, Part, PartKind, PinAt};
use std::alloc::{AllocError, Global};
use std::marker::Model;

/// Sets or clears the flag of the port bit that this entry drives. The flag says whether the driver
/// is always on. Does nothing if the entry drives no port bit, or if there is no flag for the bit.
fn flag_entry(flags: &mut [bool], cell: Cell)
    ensures { (cells : List Cell) (bits : ℕ) → AreFlags cells bits flags.old
        → AreFlags (cell ∷ cells) bits flags.new }
{
    if let Some(bit) = cell.bit {
        if cell.role.is_driving() {
            if (bit as usize) < flags.len() {
                flags[bit as usize] = cell.ctl.is_none();
            }
        }
    }
}

/// Returns a flag for each port bit, which says whether the bit has an always-on driver. If several
/// entries drive a bit, the first of them decides, so the loop goes from the last entry to the
/// first.
fn flags_of(alloc: Global, bits: usize, cells: &[Cell]) -> Result<Vec<bool>, AllocError>
    ensures { IfOk result (λ flags. AreFlags cells.now bits flags.items) }
{
    let mut flags = vec![in alloc; false; bits]?;
    for i in (0..cells.len()).rev() {
        flag_entry(&mut flags, cells[i]);
    }
    Ok(flags)
}

fn device_flags(alloc: Global, device: &Device) -> Result<Vec<bool>, AllocError>
    ensures { IfOk result
        (λ flags. (bit : ℕ)
        → slice_index_or flags.items bit false ≡ has_no_control (driving_entry device.now bit)) }
{
    let raw = device.raw();
    flags_of(alloc, raw.bits.len(), raw.cells.as_slice())
}

fn part_flags(alloc: Global, kind: &PartKind) -> Result<Vec<bool>, AllocError>
    ensures { IfOk result
        (λ flags. (bit : ℕ)
        → slice_index_or flags.items bit false ≡ is_free_bit (described kind.now) bit) }
{
    match kind {
        PartKind::Described(device) => device_flags(alloc, device),
        PartKind::Bypass(_) => Ok(Vec::new(alloc)),
    }
}

/// A part, with a flag for each port bit that says whether the bit has an always-on driver. In
/// contracts, the value is the part.
#[derive(Drop)]
pub struct PartDrivers<'a> {
    part: &'a Part,
    /// A flag for each port bit, which says whether the bit has an always-on driver.
    always_on: Vec<bool>,
}

impl<'a> Model for PartDrivers<'a> {
    ghost use Rattle.std.specs.Prelude.{◌≡◌, ℕ, false, slice_index_or};
    ghost use Rattle.board_defs.specs.declared.board.Part.{Part};
    ghost use Rattle.board_defs.specs.Pins.{described};
    ghost use Rattle.board_build.specs.inner.Marked.{is_free_bit};

    ghost Value = { Part };

    ghost view = { λ a. a.part.now };

    ghost invariant = { λ a. (bit : ℕ)
        → slice_index_or a.always_on.items bit false ≡ is_free_bit (described a.part.now.kind) bit };
}

impl<'a> PartDrivers<'a> {
    fn of(alloc: Global, part: &'a Part) -> Result<PartDrivers<'a>, AllocError>
        ensures { IfOk result (λ drivers. drivers ≡ part.now) }
    {
        let always_on = part_flags(alloc, &part.kind)?;
        Ok(PartDrivers { part, always_on })
    }

    /// Returns whether the port bit has an always-on driver.
    fn is_free(&self, bit: u32) -> bool
        ensures { result ≡ is_free_bit (described self.now.kind) bit }
    {
        match self.always_on.get(bit as usize) {
            Some(flag) => *flag,
            None => false,
        }
    }
}

/// Returns the parts, in the order of the list, each with the flags of its port bits.
pub fn drivers_of<'a>(alloc: Global, parts: &'a [Part]) -> Result<Vec<PartDrivers<'a>>, AllocError>
    ensures { IfOk result (λ drivers. drivers.items ≡ parts.now) }
{
    let mut drivers = Vec::new(alloc);
    for part in parts {
        drivers.push(PartDrivers::of(alloc, part)?)?;
    }
    Ok(drivers)
}

/// Returns whether the port bit at this place of the chain has an always-on driver. Returns false
/// if there is no place.
pub fn is_free_at(parts: &[PartDrivers<'_>], at: Option<PinAt>) -> bool
    ensures { result ≡ is_free_at parts.now at }
{
    match at {
        None => false,
        Some(at) => match parts.get(at.part as usize) {
            Some(part) => part.is_free(at.bit),
            None => false,
        },
    }
}
