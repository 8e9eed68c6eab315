//! The rules on the cells of the boundary register.
ghost use Rattle.std.specs.Prelude.{◌≡◌, ◌<◌, ◌+◌, ◌^◌, ◌&&◌, ◌||◌, not, length, IfOk, false, nat_lt, vec_len, slice_index, slice_index_or, slice_set};
ghost use Rattle.first_places.specs.Items.{least_below};
ghost use Rattle.device_rules.specs.Cells.{is_entry_of, controls_entry, too_large, v8, v11, v12};
ghost use Rattle.device_rules.specs.inner.Tables.{MarksItems, Counts};
ghost use Rattle.device_rules.specs.inner.Stages.{is_for, is_for_cell};

use board_defs::Role;
use bsdl_strings::Entry;
use lists::is_set;
use std::alloc::{AllocError, Global};

/// Returns a flag for each of the `boundary` cells, which is true if the cell has an entry.
fn cells_with_entry(
    alloc: Global,
    boundary: u32,
    entries: &[Entry],
) -> Result<Vec<bool>, AllocError>
    ensures { IfOk result (λ table. MarksItems is_entry_of entries.now boundary table.items) }
{
    let mut table = vec![in alloc; false; boundary as usize]?;
    for entry in entries {
        if entry.num < boundary {
            table[entry.num as usize] = true;
        }
    }
    Ok(table)
}

/// Returns a flag for each of the `boundary` cells, which is true if the cell controls an entry with disable value `value`.
fn cells_disabling_by(
    alloc: Global,
    value: bool,
    boundary: u32,
    entries: &[Entry],
) -> Result<Vec<bool>, AllocError>
    ensures { IfOk result (λ table.
        MarksItems (controls_entry value) entries.now boundary table.items) }
{
    let mut table = vec![in alloc; false; boundary as usize]?;
    for entry in entries {
        if let Some(control) = entry.ctl {
            if control.disable == value {
                if control.cell < boundary {
                    table[control.cell as usize] = true;
                }
            }
        }
    }
    Ok(table)
}

/// Returns the lowest cell below `boundary` whose flag is not set, or None if there is none.
fn least_clear(boundary: u32, flags: &[bool]) -> Option<u32>
    ensures { result ≡ least_below (λ cell. not (slice_index_or flags.now cell false)) boundary }
{
    for cell in 0..boundary {
        if !is_set(flags, cell as usize) {
            return Some(cell);
        }
    }
    None
}

/// Returns the cell number of the first entry whose cell number is `boundary` or more, or None if
/// there is no such entry.
fn too_large_cell(boundary: u32, entries: &[Entry]) -> Option<u32>
    ensures { result ≡ too_large boundary entries.now }
{
    entries
        .iter()
        .find(|entry| boundary <= entry.num)
        .map(|entry| entry.num)
}

/// Checks rule V8. Returns the cell number of the first entry whose cell number is `boundary` or
/// more. If there is no such entry, returns the lowest cell number below `boundary` that has no
/// entry, or None if each has one.
#[tactic(auto, unfolding(crate::specs::Cells::v8))]
pub(crate) fn wrong_cell(
    alloc: Global,
    boundary: u32,
    entries: &[Entry],
) -> Result<Option<u32>, AllocError>
    ensures { IfOk result (λ item. item ≡ v8 boundary entries.now) }
{
    match too_large_cell(boundary, entries) {
        Some(cell) => Ok(Some(cell)),
        None => {
            let table = cells_with_entry(alloc, boundary, entries)?;
            Ok(least_clear(boundary, &table))
        }
    }
}

/// Returns whether the flag at `place` is set in both tables. A flag past the end of its table is
/// not set.
fn are_set(on: &[bool], off: &[bool], place: usize) -> bool
    ensures { result ≡ (slice_index_or on.now place false && slice_index_or off.now place false) }
{
    is_set(on, place) && is_set(off, place)
}

/// Returns the lowest cell below `boundary` whose flag is set in both tables, or None if there is
/// none.
fn least_with_both(boundary: u32, on: &[bool], off: &[bool]) -> Option<u32>
    ensures { result ≡ least_below (λ cell.
        slice_index_or on.now cell false && slice_index_or off.now cell false) boundary }
{
    for cell in 0..boundary {
        if are_set(on, off, cell as usize) {
            return Some(cell);
        }
    }
    None
}

/// Checks rule V11. Returns the lowest cell below `boundary` that controls one entry with disable
/// value 0 and another with disable value 1, or None if there is none.
#[tactic(auto, unfolding(crate::specs::Cells::v11))]
pub(crate) fn two_valued_control(
    alloc: Global,
    boundary: u32,
    entries: &[Entry],
) -> Result<Option<u32>, AllocError>
    ensures { IfOk result (λ item. item ≡ v11 boundary entries.now) }
{
    let on = cells_disabling_by(alloc, true, boundary, entries)?;
    let off = cells_disabling_by(alloc, false, boundary, entries)?;
    Ok(least_with_both(boundary, &on, &off))
}

/// The two stages of a boundary cell: the flip-flop that captures a value, and the update latch. An entry is for the
/// capture stage if it defines what the cell captures. It is for the update latch if it takes its value from the latch.
#[derive(Clone, Copy, Debug, PartialEq, Eq)]
pub enum Stage {
    Capture,
    Update,
}

/// Returns whether an entry with this function is for this stage of its cell. For the capture stage the function must
/// be INPUT, CLOCK, OBSERVE_ONLY, BIDIR or INTERNAL. For the update latch it must be OUTPUT2, OUTPUT3, BIDIR, CONTROL,
/// CONTROLR or INTERNAL.
fn is_for(stage: Stage, role: Role) -> bool
    ensures { result ≡ is_for stage role }
{
    match stage {
        Stage::Capture => role.is_loading(),
        Stage::Update => role.is_writing(),
    }
}

fn count_one(table: &mut Vec<u32>, cell: u32)
    requires within { cell < vec_len table.old }
    requires room { slice_index table.old.items cell + 1 < 2 ^ 32 }
    ensures { table.new.items
        ≡ slice_set table.old.items cell (slice_index table.old.items cell + 1) }
{
    table[cell as usize] += 1;
}

/// Returns, for each of the `boundary` cells, the number of its entries for this stage. There must be fewer than 2^32
/// entries.
fn counts_of(
    alloc: Global,
    stage: Stage,
    boundary: u32,
    entries: &[Entry],
) -> Result<Vec<u32>, AllocError>
    requires { length entries.now < 2 ^ 32 }
    ensures { IfOk result (λ table. Counts (is_for_cell stage) entries.now boundary table.items) }
{
    let mut table = vec![in alloc; 0u32; boundary as usize]?;
    for entry in entries {
        if is_for(stage, entry.role) {
            if entry.num < boundary {
                count_one(&mut table, entry.num);
            }
        }
    }
    Ok(table)
}

/// Returns whether the count at `place` is more than 1. Returns false past the end.
fn is_several(counts: &[u32], place: usize) -> bool
    ensures { result ≡ nat_lt 1 (slice_index counts.now place) }
{
    match counts.get(place) {
        Some(count) => 1 < *count,
        None => false,
    }
}

/// Returns the lowest cell below `boundary` whose count in `loaders` or in `writers` is more than 1,
/// or None if there is none. `loaders` counts the entries for the capture stage of each cell, and
/// `writers` those for the update latch.
fn least_several(boundary: u32, loaders: &[u32], writers: &[u32]) -> Option<u32>
    ensures { result ≡ least_below (λ cell.
        nat_lt 1 (slice_index loaders.now cell) || nat_lt 1 (slice_index writers.now cell)) boundary }
{
    for cell in 0..boundary {
        if is_several(loaders, cell as usize) || is_several(writers, cell as usize) {
            return Some(cell);
        }
    }
    None
}

/// Checks rule V12. Returns the lowest cell below `boundary` that has more than one entry for its
/// capture stage or more than one for its update latch, or None if there is none. There must be
/// fewer than 2^32 entries.
#[tactic(auto, unfolding(crate::specs::Cells::v12))]
pub(crate) fn crowded_cell(
    alloc: Global,
    boundary: u32,
    entries: &[Entry],
) -> Result<Option<u32>, AllocError>
    requires { length entries.now < 2 ^ 32 }
    ensures { IfOk result (λ item. item ≡ v12 boundary entries.now) }
{
    let loaders = counts_of(alloc, Stage::Capture, boundary, entries)?;
    let writers = counts_of(alloc, Stage::Update, boundary, entries)?;
    Ok(least_several(boundary, &loaders, &writers))
}
