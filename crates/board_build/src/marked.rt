// The words of a net file, each with facts about the pin that it names.
ghost use Rattle.std.specs.Prelude.{◌≡◌, map, IfOk, OnOk, is_none, is_some, option_copied, slice_get};
ghost use Rattle.indexmap.specs.IndexMap.{get_by};
ghost use Rattle.board_files.specs.Names.{same_word};
ghost use Rattle.board_lines.specs.Names.{named, names_of};
ghost use Rattle.board_lines.specs.declared.names.Naming.TheVariants.{Inert};
ghost use Rattle.board_lines.specs.NetWords.{lent_pin, lent_word};
ghost use Rattle.board_lines.specs.ChainParts.{pin_places, place_of_pin};
ghost use Rattle.board_build.specs.inner.Marked.{is_free_at, mark_word, mark_by, marks_after, seen_word};

use crate::drivers::{PartDrivers, drivers_of, is_free_at};
use crate::lookups::{described_by_place, names_by_place};
use crate::selected_chain::SelectedChain;
use board_defs::{Part, PinAt, Spot};
use board_lines::{Naming, NetWord, PinPlaces, place_of};
use indexmap::IndexMap;
use short_lists::ShortSlice;
use std::alloc::{AllocError, Global};

/// A word of a net file that names a pin, with facts about the pin.
#[derive(Clone, Copy)]
pub struct MarkedWord<'a> {
    /// The number of the net.
    pub net: u32,
    pub part: &'a [u8],
    pub pin: &'a [u8],
    pub spot: Spot,
    /// True if the pin's part is described, that is, has a DEVICE line.
    pub described: bool,
    /// The place of the pin in the chain: the numbers of its part and port bit. None if no port bit
    /// has the pin.
    pub at: Option<PinAt>,
    /// True if an INERT line names the pin's part.
    pub inert: bool,
    /// True if the pin is an always-on driver, that is, if a cell without a control drives it.
    pub always_on: bool,
}

/// Returns whether the map has the name.
pub fn is_known(names: &IndexMap<&[u8], u32>, name: &[u8]) -> bool
    ensures { result ≡ is_some (get_by (λ n. same_word name.now n.now) names.now) }
{
    place_of(names, name).is_some()
}

fn mark<'a>(
    word: &NetWord<'a>,
    parts: &[PartDrivers<'_>],
    places: &PinPlaces<'_>,
    described: &IndexMap<&[u8], u32>,
    inerts: &IndexMap<&[u8], u32>,
) -> MarkedWord<'a>
    ensures { result
        ≡ mark_by parts.now (λ q. is_some (get_by (λ n. same_word q.now n.now) described.now))
        (λ q. place_of_pin (pin_places places.now) (lent_pin q))
        (λ q. is_some (get_by (λ n. same_word q.now n.now) inerts.now)) word.now }
{
    let at = places.place_of_pin(&word.0.1);
    MarkedWord {
        net: word.0.0,
        part: word.0.1.0,
        pin: word.0.1.1,
        spot: word.1,
        // A pin with a place belongs to a described part, so the part's name need not be looked up.
        described: at.is_some() || is_known(described, word.0.1.0),
        at,
        inert: is_known(inerts, word.0.1.0),
        always_on: is_free_at(parts, at),
    }
}

fn mark_at<'a>(
    marked: &mut Vec<MarkedWord<'a>>,
    words: &[NetWord<'a>],
    place: usize,
    parts: &[PartDrivers<'_>],
    places: &PinPlaces<'_>,
    described: &IndexMap<&[u8], u32>,
    inerts: &IndexMap<&[u8], u32>,
) -> Result<(), AllocError>
    ensures { OnOk result
        (marked.new.items
        ≡ marks_after
        (mark_by parts.now
        (λ q. is_some (get_by (λ n. same_word q.now n.now) described.now))
        (λ q. place_of_pin (pin_places places.now) (lent_pin q))
        (λ q. is_some (get_by (λ n. same_word q.now n.now) inerts.now)))
        (slice_get words.now place) marked.old.items) }
{
    match words.get(place) {
        Some(word) => {
            marked.push(mark(word, parts, places, described, inerts))?;
            Ok(())
        }
        None => Ok(()),
    }
}

fn mark_each<'a>(
    alloc: Global,
    words: &[NetWord<'a>],
    parts: &[PartDrivers<'_>],
    places: &PinPlaces<'_>,
    described: &IndexMap<&[u8], u32>,
    inerts: &IndexMap<&[u8], u32>,
) -> Result<Vec<MarkedWord<'a>>, AllocError>
    ensures { IfOk result
        (λ marked. marked.items
        ≡ map
        (mark_by parts.now
        (λ q. is_some (get_by (λ n. same_word q.now n.now) described.now))
        (λ q. place_of_pin (pin_places places.now) (lent_pin q))
        (λ q. is_some (get_by (λ n. same_word q.now n.now) inerts.now))) words.now) }
{
    let mut marked = Vec::with_capacity(alloc, words.len())?;
    for i in 0..words.len() {
        mark_at(&mut marked, words, i, parts, places, described, inerts)?;
    }
    Ok(marked)
}

fn mark_all<'a>(
    alloc: Global,
    words: &[NetWord<'a>],
    parts: &[Part],
    places: &PinPlaces<'_>,
    described: &IndexMap<&[u8], u32>,
    inerts: &IndexMap<&[u8], u32>,
) -> Result<Vec<MarkedWord<'a>>, AllocError>
    ensures { IfOk result
        (λ marked. marked.items
        ≡ map
        (mark_by parts.now
        (λ q. is_some (get_by (λ n. same_word q.now n.now) described.now))
        (λ q. place_of_pin (pin_places places.now) (lent_pin q))
        (λ q. is_some (get_by (λ n. same_word q.now n.now) inerts.now))) words.now) }
{
    let drivers = drivers_of(alloc, parts)?;
    mark_each(alloc, words, &drivers, places, described, inerts)
}

/// Returns the words, each with the facts about its pin. `places` must have the places of the
/// chain's pins.
fn mark_known<'a>(
    alloc: Global,
    chain: &SelectedChain<'_>,
    words: &[NetWord<'a>],
    places: &PinPlaces<'_>,
) -> Result<Vec<MarkedWord<'a>>, AllocError>
    requires { places.now ≡ chain.now.parts }
    ensures { IfOk result
        (λ marked. map seen_word marked.items
        ≡ map
        (mark_word chain.now.parts (pin_places chain.now.parts)
        (names_of (named Inert chain.now.lines))) (map lent_word words.now)) }
{
    let parts = chain.parts();
    let lines = chain.lines();
    let described = described_by_place(alloc, parts)?;
    let inerts = names_by_place(alloc, lines, Naming::Inert)?;
    mark_all(alloc, words, parts, places, &described, &inerts)
}

/// Returns the words, each with the facts about its pin.
pub fn marked_words<'a>(
    alloc: Global,
    chain: &SelectedChain<'_>,
    words: &[NetWord<'a>],
) -> Result<Vec<MarkedWord<'a>>, AllocError>
    ensures { IfOk result
        (λ marked. map seen_word marked.items
        ≡ map
        (mark_word chain.now.parts (pin_places chain.now.parts)
        (names_of (named Inert chain.now.lines))) (map lent_word words.now)) }
{
    let parts = ShortSlice {
        items: chain.parts(),
    };
    let places = PinPlaces::of(alloc, parts)?;
    mark_known(alloc, chain, words, &places)
}
