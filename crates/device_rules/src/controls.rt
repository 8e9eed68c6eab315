//! The rule on the controls of boundary entries.
ghost use Rattle.std.specs.Prelude.{◌≡◌, ◌<◌, ◌^◌, length, All, IfOk};
ghost use Rattle.device_rules.specs.Cells.{needs_control, is_entry_of_control, has_control_entry, breaks_control, v10};
ghost use Rattle.device_rules.specs.inner.Tables.{MarksItems};

use board_defs::Role;
use bsdl_strings::Entry;
use lists::is_set;
use std::alloc::{AllocError, Global};
use std::marker::Model;

fn wants_control(role: Role) -> bool
    ensures { result ≡ needs_control role }
{
    matches!(role, Role::Output3 | Role::Bidir)
}

/// Returns a flag for each of the `boundary` cells, which is true if the cell has a CONTROL or CONTROLR entry.
fn control_cells(alloc: Global, boundary: u32, entries: &[Entry]) -> Result<Vec<bool>, AllocError>
    ensures { IfOk result
        (λ table. MarksItems is_entry_of_control entries.now boundary table.items) }
{
    let mut table = vec![in alloc; false; boundary as usize]?;
    for entry in entries {
        if entry.role.is_controlling() {
            if entry.num < boundary {
                table[entry.num as usize] = true;
            }
        }
    }
    Ok(table)
}

/// The entries of a boundary register, and a flag for each cell. The value in contracts is the list of the entries.
#[derive(Drop)]
struct Controls<'a> {
    entries: &'a [Entry],
    /// The flag of a cell says whether the cell has a CONTROL or CONTROLR entry.
    flags: Vec<bool>,
}

impl<'a> Model for Controls<'a> {
    ghost use Rattle.std.specs.Prelude.{◌≡◌, List, ℕ, false, slice_index_or};
    ghost use Rattle.bsdl_strings.specs.declared.values.Entry.{Entry};
    ghost use Rattle.device_rules.specs.Cells.{has_control_entry};

    ghost Value = { List Entry };

    ghost view = { λ a. a.entries.now };

    ghost invariant = { λ a. (cell : ℕ)
        → slice_index_or a.flags.items cell false ≡ has_control_entry a.entries.now cell };
}

impl<'a> Controls<'a> {
    /// Returns these entries with the flags of the cells of a register of length `boundary`. The cell number of each
    /// entry must be below `boundary`.
    fn of(alloc: Global, boundary: u32, entries: &'a [Entry]) -> Result<Controls<'a>, AllocError>
        requires { All (λ entry. entry.num < boundary) entries.now }
        ensures { IfOk result (λ controls. controls ≡ entries.now) }
    {
        let flags = control_cells(alloc, boundary, entries)?;
        Ok(Controls { entries, flags })
    }

    fn entries(&self) -> &[Entry]
        ensures { result.now ≡ self.now }
    {
        self.entries
    }

    /// Returns whether the cell has a CONTROL or CONTROLR entry.
    fn has(&self, cell: u32) -> bool
        ensures { result ≡ has_control_entry self.now cell }
    {
        is_set(&self.flags, cell as usize)
    }

    /// Returns whether the entry breaks rule V10: it lacks a control that it needs, it has one that
    /// it may not have, or its control is neither the entry's own cell nor a cell with a CONTROL or
    /// CONTROLR entry.
    fn breaks(&self, entry: &Entry) -> bool
        ensures { result ≡ breaks_control self.now entry.now }
    {
        match entry.ctl {
            None => wants_control(entry.role),
            Some(control) => {
                if entry.role.is_driving() {
                    !(control.cell == entry.num || self.has(control.cell))
                } else {
                    true
                }
            }
        }
    }

    #[tactic(auto, unfolding(crate::specs::Cells::v10))]
    fn first_wrong(&self) -> Option<u32>
        requires { length self.now < 2 ^ 32 }
        ensures { result ≡ v10 self.now }
    {
        let entries = self.entries();
        for (i, entry) in entries.iter().enumerate() {
            if self.breaks(entry) {
                return Some(i as u32 + 1);
            }
        }
        None
    }
}

/// Checks rule V10. Returns the number of the first entry, counted from 1, that breaks it. An
/// OUTPUT3 or BIDIR entry must have a control, an OUTPUT2 entry may have one, and no other entry
/// may. The control cell must be the entry's own cell or have a CONTROL or CONTROLR entry.
///
/// The cell number of each entry must be below `boundary`, and there must be fewer than 2^32
/// entries.
pub(crate) fn wrong_control(
    alloc: Global,
    boundary: u32,
    entries: &[Entry],
) -> Result<Option<u32>, AllocError>
    requires below { All (λ entry. entry.num < boundary) entries.now }
    requires short { length entries.now < 2 ^ 32 }
    ensures { IfOk result (λ item. item ≡ v10 entries.now) }
{
    let controls = Controls::of(alloc, boundary, entries)?;
    Ok(controls.first_wrong())
}
