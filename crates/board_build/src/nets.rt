// Makes the nets of a board from the words that name their pins. The group of a net is the list of
// its pins.
ghost use Rattle.std.specs.Prelude.{◌≡◌, ◌<◌, ◌^◌, ◌∷◌, [], ◌++◌, ℕ, List, vec_len, length, map, zip, drop, slice_get, slice_index_or, slice_set, nat_lt, IfOk, OnOk, Option, option_map, is_some, if◌then◌else◌};
ghost use Rattle.std.specs.Option.{option_to_list};
ghost use Rattle.std.specs.Vec.Iter.{into_iter_items};
ghost use Rattle.indexmap.specs.IndexMap.{get_by};
ghost use Rattle.board_files.specs.Names.{same_word};
ghost use Rattle.board_lines.specs.Names.{named, names_of};
ghost use Rattle.board_lines.specs.declared.names.Naming.TheVariants.{Supply};
ghost use Rattle.board_lines.specs.LineRules.{Pulled, pull_of_net as pulled_to, pulls_of};
ghost use Rattle.board_lines.specs.NetWords.{is_among};
ghost use Rattle.std.specs.Borrow.{Bor};
ghost use Rattle.board_build.specs.inner.Marked.{board_by, marked_group, groups_after, net_by, nets_after, nets_with, pin_with, seen_word};

use crate::lookups::{names_by_place, pulls_in};
use crate::marked::{MarkedWord, is_known};
use crate::selected_chain::SelectedChain;
use crate::standing::StandingWords;
use board_defs::{Items, Name, Net, NetPin, RawBoard};
use board_lines::{Naming, pull_of_net};
use indexmap::IndexMap;
use std::alloc::{AllocError, Global};
use std::vec::IntoIter;

fn pin_with(alloc: Global, word: &MarkedWord<'_>) -> Result<NetPin, AllocError>
    ensures { IfOk result (λ pin. pin ≡ pin_with (seen_word word.now)) }
{
    Ok(NetPin {
        part: Name::of(alloc, word.part)?,
        pin: Name::of(alloc, word.pin)?,
        at: word.at,
        inert: word.inert,
    })
}

fn push_pin(groups: &mut Vec<Vec<NetPin>>, number: usize, pin: NetPin) -> Result<(), AllocError>
    requires { number < vec_len groups.old }
    ensures count { OnOk result (vec_len groups.new ≡ vec_len groups.old) }
    ensures groups { OnOk result
        (map (λ g. g.items) groups.new.items
        ≡ slice_set (map (λ g. g.items) groups.old.items) number
        (slice_index_or (map (λ g. g.items) groups.old.items) number [] ++ pin ∷ [])) }
{
    groups[number].push(pin)?;
    Ok(())
}

/// Adds the pin of a word to the group of the word's net, if there is a group for the net.
fn add_word(
    alloc: Global,
    groups: &mut Vec<Vec<NetPin>>,
    word: &MarkedWord<'_>,
) -> Result<(), AllocError>
    ensures count { OnOk result (vec_len groups.new ≡ vec_len groups.old) }
    ensures groups { OnOk result
        (map (λ g. g.items) groups.new.items
        ≡ (if nat_lt word.now.net (vec_len groups.old)
        then slice_set (map (λ g. g.items) groups.old.items) word.now.net
        (slice_index_or (map (λ g. g.items) groups.old.items) word.now.net []
        ++ pin_with (seen_word word.now) ∷ []) else map (λ g. g.items) groups.old.items)) }
{
    let number = word.net as usize;
    if number < groups.len() {
        let pin = pin_with(alloc, word)?;
        push_pin(groups, number, pin)?;
    }
    Ok(())
}

fn add_at(
    alloc: Global,
    groups: &mut Vec<Vec<NetPin>>,
    words: &[MarkedWord<'_>],
    place: usize,
) -> Result<(), AllocError>
    ensures count { OnOk result (vec_len groups.new ≡ vec_len groups.old) }
    ensures groups { OnOk result
        (map (λ g. g.items) groups.new.items
        ≡ groups_after (slice_get words.now place) (vec_len groups.old)
        (map (λ g. g.items) groups.old.items)) }
{
    match words.get(place) {
        Some(word) => add_word(alloc, groups, word),
        None => Ok(()),
    }
}

fn count_pin(counts: &mut [usize], net: usize)
    ensures { length counts.new ≡ length counts.old }
{
    if net < counts.len() {
        counts[net] = counts[net].saturating_add(1);
    }
}

/// Returns the number of words of each of the first `count` nets. The counts only determine how
/// much capacity is reserved.
fn pin_counts(
    alloc: Global,
    count: usize,
    words: &[MarkedWord<'_>],
) -> Result<Vec<usize>, AllocError>
    ensures { IfOk result (λ counts. length counts.items ≡ count) }
{
    let mut counts = vec![in alloc; 0; count]?;
    for word in words {
        count_pin(&mut counts, word.net as usize);
    }
    Ok(counts)
}

/// Returns an empty group for each net. `counts` has the capacity of each group.
fn empty_groups(alloc: Global, counts: &[usize]) -> Result<Vec<Vec<NetPin>>, AllocError>
    ensures count { IfOk result (λ groups. vec_len groups ≡ length counts.now) }
    ensures empty { IfOk result
        (λ groups. (n : ℕ) → slice_index_or (map (λ g. g.items) groups.items) n [] ≡ []) }
{
    let mut groups = Vec::with_capacity(alloc, counts.len())?;
    for count in counts {
        groups.push(Vec::with_capacity(alloc, *count)?)?;
    }
    Ok(groups)
}

/// Returns the pins of each of nets `0..count`, in the order of the words.
fn groups(
    alloc: Global,
    count: usize,
    words: &[MarkedWord<'_>],
) -> Result<Vec<Vec<NetPin>>, AllocError>
    ensures count { IfOk result (λ groups. vec_len groups ≡ count) }
    ensures groups { IfOk result
        (λ groups. (n : ℕ) → n < count
        → slice_index_or (map (λ g. g.items) groups.items) n []
        ≡ marked_group (map seen_word words.now) n) }
{
    let counts = pin_counts(alloc, count, words)?;
    let mut groups = empty_groups(alloc, &counts)?;
    for i in 0..words.len() {
        add_at(alloc, &mut groups, words, i)?;
    }
    Ok(groups)
}

fn net(
    alloc: Global,
    name: &[u8],
    supplies: &IndexMap<&[u8], u32>,
    pulls: &IndexMap<&[u8], bool>,
    pins: Vec<NetPin>,
) -> Result<Net, AllocError>
    ensures { IfOk result
        (λ net. net
        ≡ record {
          name = name.now;
          supply = is_some
              (get_by (λ n. same_word name.now n.now) supplies.now);
          pull = get_by
              (λ n. same_word name.now n.now) pulls.now;
          pins = pins.items;
        }) }
{
    Ok(Net {
        name: Name::of(alloc, name)?,
        supply: is_known(supplies, name),
        pull: pull_of_net(pulls, name),
        pins: Items::of(pins),
    })
}

fn next_group(groups: &mut IntoIter<Vec<NetPin>>) -> Option<Vec<NetPin>>
    ensures head { option_map (λ g. g.items) result
        ≡ slice_get (map (λ g. g.items) (into_iter_items groups.old)) 0 }
    ensures rest { map (λ g. g.items) (into_iter_items groups.new)
        ≡ drop 1 (map (λ g. g.items) (into_iter_items groups.old)) }
{
    groups.next()
}

/// Appends the net with this name and this group of pins, if there is a group.
fn push_net(
    alloc: Global,
    nets: &mut Vec<Net>,
    name: &[u8],
    supplies: &IndexMap<&[u8], u32>,
    pulls: &IndexMap<&[u8], bool>,
    group: Option<Vec<NetPin>>,
) -> Result<(), AllocError>
    ensures { OnOk result
        (nets.new.items
        ≡ nets.old.items
        ++ option_to_list
        (option_map
        (λ g. record {
          name = name.now;
          supply = is_some
              (get_by (λ n. same_word name.now n.now) supplies.now);
          pull = get_by
              (λ n. same_word name.now n.now) pulls.now;
          pins = g;
        })
        (option_map (λ g. g.items) group))) }
{
    if let Some(pins) = group {
        nets.push(net(alloc, name, supplies, pulls, pins)?)?;
    }
    Ok(())
}

fn push_at(
    alloc: Global,
    nets: &mut Vec<Net>,
    names: &[&[u8]],
    place: usize,
    supplies: &IndexMap<&[u8], u32>,
    pulls: &IndexMap<&[u8], bool>,
    group: Option<Vec<NetPin>>,
) -> Result<(), AllocError>
    ensures { OnOk result
        (nets.new.items
        ≡ nets_after
        (net_by (λ q. is_some (get_by (λ n. same_word q.now n.now) supplies.now))
        (λ q. get_by (λ n. same_word q.now n.now) pulls.now)) (slice_get names.now place)
        (option_map (λ g. g.items) group) nets.old.items) }
{
    match names.get(place) {
        Some(name) => push_net(alloc, nets, name, supplies, pulls, group),
        None => Ok(()),
    }
}

fn nets_by(
    alloc: Global,
    names: &[&[u8]],
    supplies: &IndexMap<&[u8], u32>,
    pulls: &IndexMap<&[u8], bool>,
    groups: Vec<Vec<NetPin>>,
) -> Result<Vec<Net>, AllocError>
    ensures { IfOk result
        (λ nets. nets.items
        ≡ map
        (net_by (λ q. is_some (get_by (λ n. same_word q.now n.now) supplies.now))
        (λ q. get_by (λ n. same_word q.now n.now) pulls.now))
        (zip names.now (map (λ g. g.items) groups.items))) }
{
    let mut nets = Vec::with_capacity(alloc, names.len())?;
    let mut groups = groups.into_iter();
    for i in 0..names.len() {
        let group = next_group(&mut groups);
        push_at(alloc, &mut nets, names, i, supplies, pulls, group)?;
    }
    Ok(nets)
}

/// Returns the nets with these names, each with the pins of its words. The contract holds for every
/// list of supply nets and every list of pulls that agree with the two maps.
fn nets_of(
    alloc: Global,
    names: &[&[u8]],
    words: &StandingWords<'_>,
    supplies: &IndexMap<&[u8], u32>,
    pulls: &IndexMap<&[u8], bool>,
) -> Result<Vec<Net>, AllocError>
    ensures { IfOk result
        (λ nets. (known : List (List ℕ)) (pulled : List Pulled)
        → ((q : Bor (List ℕ))
        → is_some (get_by (λ n. same_word q.now n.now) supplies.now)
        ≡ is_among known q.now)
        → ((q : Bor (List ℕ))
        → get_by (λ n. same_word q.now n.now) pulls.now ≡ pulled_to pulled q.now)
        → nets.items ≡ nets_with known pulled words.now 0 (map (λ n. n.now) names.now)) }
{
    let groups = groups(alloc, names.len(), words.words())?;
    nets_by(alloc, names, supplies, pulls, groups)
}

fn board_nets(
    alloc: Global,
    chain: &SelectedChain<'_>,
    names: &[&[u8]],
    words: &StandingWords<'_>,
) -> Result<Vec<Net>, AllocError>
    ensures { IfOk result
        (λ nets. nets.items
        ≡ nets_with (names_of (named Supply chain.now.lines)) (pulls_of chain.now.lines)
        words.now 0 (map (λ n. n.now) names.now)) }
{
    let lines = chain.lines();
    let supplies = names_by_place(alloc, lines, Naming::Supply)?;
    let pulls = pulls_in(alloc, lines)?;
    nets_of(alloc, names, words, &supplies, &pulls)
}

/// Returns the board with the chain's parts and the nets of these names and words.
pub fn board_by(
    alloc: Global,
    chain: SelectedChain<'_>,
    names: &[&[u8]],
    words: &StandingWords<'_>,
) -> Result<RawBoard, AllocError>
    ensures { IfOk result
        (λ board. board
        ≡ board_by chain.entry.lines chain.entry.parts (map (λ n. n.now) names.now) words.now) }
{
    let nets = board_nets(alloc, &chain, names, words)?;
    Ok(RawBoard {
        chain: Items::of(chain.into_parts()),
        nets: Items::of(nets),
    })
}
