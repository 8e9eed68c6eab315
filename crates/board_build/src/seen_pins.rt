// Tests whether the words of a net file name different pins. The place of a pin in the chain is the
// number of its part and the number of its port bit. A flag for each port bit shows which pins with a
// place were named, so the names of these pins are not compared.
ghost use Rattle.std.specs.Prelude.{◌≡◌, ℕ, true, false, [], replicate, length, map, slice_index_or, None, IfOk, OnOk};
ghost use Rattle.first_places.specs.Places.{first_repeated};
ghost use Rattle.board_lines.specs.PinRows.{pins_of_part};
ghost use Rattle.board_build.specs.declared.marked.MarkedWord.{MarkedWord};
ghost use Rattle.board_build.specs.inner.Marked.{seen_word};
ghost use Rattle.board_build.specs.inner.SeenPins.{are_one, is_flagged, is_known_pin};

use crate::marked::MarkedWord;
use board_defs::{Part, PinAt};
use board_lines::{PinName, bits_of};
use indexmap::IndexSet;
use std::alloc::{AllocError, Global};
use std::marker::Model;

/// A flag for each port bit of a part. In contracts, the value is the list of the flags.
#[derive(Drop)]
struct BitFlags {
    flags: Vec<bool>,
}

impl Model for BitFlags {
    ghost use Rattle.std.specs.Prelude.{Bool, List};

    ghost Value = { List Bool };

    ghost view = { λ a. a.flags.items };
}

impl BitFlags {
    /// Returns `count` flags, none of them set.
    fn unset(alloc: Global, count: usize) -> Result<BitFlags, AllocError>
        ensures { IfOk result (λ flags. flags ≡ replicate count false) }
    {
        let flags = vec![in alloc; false; count]?;
        Ok(BitFlags { flags })
    }

    /// Sets flag `bit`. Returns true only if the flag exists and was not set before.
    fn set_first(&mut self, bit: usize) -> bool
        ensures free { result ≡ true → slice_index_or self.old bit false ≡ false }
        ensures set { result ≡ true → slice_index_or self.new bit false ≡ true }
        ensures kept { (k : ℕ) → slice_index_or self.old k false ≡ true
            → slice_index_or self.new k false ≡ true }
    {
        if bit < self.flags.len() {
            if self.flags[bit] {
                return false;
            }
            self.flags[bit] = true;
            return true;
        }
        false
    }
}

/// Returns a row of flags for each part, with a flag for each of the part's port bits. No flag is
/// set.
fn unset_rows(alloc: Global, parts: &[Part]) -> Result<Vec<BitFlags>, AllocError>
    ensures { IfOk result
        (λ rows. rows.items
        ≡ map (λ part. replicate (length (pins_of_part part.kind)) false) parts.now) }
{
    let mut rows = Vec::with_capacity(alloc, parts.len())?;
    for part in parts {
        rows.push(BitFlags::unset(alloc, bits_of(&part.kind).items.len())?)?;
    }
    Ok(rows)
}

/// Sets the flag of the port bit at this place. Returns true only if the flag exists and was not
/// set before.
fn set_first_at(rows: &mut [BitFlags], at: PinAt) -> bool
    ensures free { result ≡ true → is_flagged rows.old at ≡ false }
    ensures set { result ≡ true → is_flagged rows.new at ≡ true }
    ensures kept { (p : PinAt) → is_flagged rows.old p ≡ true → is_flagged rows.new p ≡ true }
{
    let part = at.part as usize;
    if part < rows.len() {
        return rows[part].set_first(at.bit as usize);
    }
    false
}

/// The pins that the words handled so far name.
#[derive(Drop)]
struct SeenPins<'a> {
    /// A flag for each port bit of each part. A flag is true if a word has named the bit's pin.
    rows: Vec<BitFlags>,
    /// The pins without a place in the chain that a word has named.
    unplaced: IndexSet<PinName<'a>>,
}

impl<'a> SeenPins<'a> {
    /// Adds the pin of a word. Returns true only if the pin had not been added before.
    fn is_new(&mut self, word: &MarkedWord<'a>) -> Result<bool, AllocError>
        ensures fresh { IfOk result
            (λ new. new ≡ true
            → is_known_pin self.old.rows.items self.old.unplaced word.now ≡ false) }
        ensures added { IfOk result
            (λ new. new ≡ true → (m : MarkedWord)
            → are_one (seen_word word.now) (seen_word m) ≡ true
            → is_known_pin self.new.rows.items self.new.unplaced m ≡ true) }
        ensures kept { OnOk result
            ((m : MarkedWord) → is_known_pin self.old.rows.items self.old.unplaced m ≡ true
            → is_known_pin self.new.rows.items self.new.unplaced m ≡ true) }
    {
        match word.at {
            Some(at) => Ok(set_first_at(&mut self.rows, at)),
            None => Ok(self.unplaced.insert((word.part, word.pin))?),
        }
    }
}

/// Returns true only if no two words name the same pin.
pub fn pins_differ(
    alloc: Global,
    parts: &[Part],
    words: &[MarkedWord<'_>],
) -> Result<bool, AllocError>
    ensures { IfOk result
        (λ differ. differ ≡ true → first_repeated are_one (map seen_word words.now) ≡ None) }
{
    let mut known = SeenPins {
        rows: unset_rows(alloc, parts)?,
        unplaced: IndexSet::new(alloc),
    };
    for word in words {
        if !known.is_new(word)? {
            return Ok(false);
        }
    }
    Ok(true)
}
