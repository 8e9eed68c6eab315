// The rules on the INERT, SUPPLY and PULL lines of a board.
ghost use Rattle.std.specs.Prelude.{◌≡◌, ◌≤◌, map, length, vec_len, IfOk, position, is_some, option_map, Option, List, ℕ};
ghost use Rattle.std.proofs.Common.{Bor};
ghost use Rattle.indexmap.specs.IndexMap.{get_by};
ghost use Rattle.board_files.specs.Names.{same_word};
ghost use Rattle.board_lines.specs.Names.{named, names_of};
ghost use Rattle.board_lines.specs.LineRules.{line_fault};
ghost use Rattle.board_lines.specs.LineRules.{first_places_among, inert_in_chain, no_supply_net, no_pull_net, pull_twice, pulls_of, pull_of_line, Pulled, pull_of_net};

use crate::fault::BoardFault;
use crate::names::{Naming, first_repeat_of, named, names_of, places_among};
use crate::selection::{missing, spot_at};
use board_files::{ChainLine, ChainStatement};
use first_places::first_values;
use indexmap::IndexMap;
use lists::push_some;
use short_lists::ShortSlice;
use std::alloc::{AllocError, Global};

/// Returns, for each name of the list, the index of its first occurrence in `others`, or None if
/// `others` does not have the name.
fn places_of(
    alloc: Global,
    named: &[(u32, &[u8])],
    others: ShortSlice<'_, &[u8]>,
) -> Result<Vec<Option<u32>>, AllocError>
    ensures { IfOk result
        (λ places. places.items
        ≡ first_places_among (map (λ n. (n.0, n.1.now)) named.now)
        (map (λ n. n.now) others.entry.items.now)) }
{
    let names = names_of(alloc, named)?;
    places_among(alloc, &names, others)
}

fn found(places: &[Option<u32>]) -> Option<usize>
    ensures { result ≡ position is_some places.now }
{
    places.iter().position(|place| place.is_some())
}

/// Returns the fault of the first INERT line that names a part of the chain, or None if there is no
/// such line. `parts` has the names of the chain's parts.
#[tactic(auto, unfolding(crate::specs::LineRules::inert_in_chain))]
pub fn inert_in_chain(
    alloc: Global,
    inerts: &[(u32, &[u8])],
    parts: ShortSlice<'_, &[u8]>,
) -> Result<Option<BoardFault>, AllocError>
    ensures { IfOk result
        (λ fault. fault
        ≡ inert_in_chain (map (λ n. (n.0, n.1.now)) inerts.now) (map (λ n. n.now) parts.entry.items.now)) }
{
    let places = places_of(alloc, inerts, parts)?;
    match found(&places) {
        Some(place) => Ok(spot_at(inerts, place).map(BoardFault::InertInChain)),
        None => Ok(None),
    }
}

/// Returns the fault of the first SUPPLY line whose net does not exist, or None if there is no such
/// line. `nets` has the names of the nets.
#[tactic(auto, unfolding(crate::specs::LineRules::no_supply_net))]
pub fn no_supply_net(
    alloc: Global,
    supplies: &[(u32, &[u8])],
    nets: ShortSlice<'_, &[u8]>,
) -> Result<Option<BoardFault>, AllocError>
    ensures { IfOk result
        (λ fault. fault
        ≡ no_supply_net (map (λ n. (n.0, n.1.now)) supplies.now) (map (λ n. n.now) nets.entry.items.now)) }
{
    let places = places_of(alloc, supplies, nets)?;
    match missing(&places) {
        Some(place) => Ok(spot_at(supplies, place).map(BoardFault::NoSupplyNet)),
        None => Ok(None),
    }
}

/// Returns the fault of the first PULL line whose net does not exist, or None if there is no such
/// line. `nets` has the names of the nets.
#[tactic(auto, unfolding(crate::specs::LineRules::no_pull_net))]
pub fn no_pull_net(
    alloc: Global,
    pulls: &[(u32, &[u8])],
    nets: ShortSlice<'_, &[u8]>,
) -> Result<Option<BoardFault>, AllocError>
    ensures { IfOk result
        (λ fault. fault
        ≡ no_pull_net (map (λ n. (n.0, n.1.now)) pulls.now) (map (λ n. n.now) nets.entry.items.now)) }
{
    let places = places_of(alloc, pulls, nets)?;
    match missing(&places) {
        Some(place) => Ok(spot_at(pulls, place).map(BoardFault::NoPullNet)),
        None => Ok(None),
    }
}

/// Returns the fault of the first PULL line whose net an earlier PULL line names, or None if there
/// is no such line.
#[tactic(auto, unfolding(crate::specs::LineRules::pull_twice))]
pub fn pull_twice(
    alloc: Global,
    pulls: ShortSlice<'_, (u32, &[u8])>,
) -> Result<Option<BoardFault>, AllocError>
    ensures { IfOk result
        (λ fault. fault ≡ pull_twice (map (λ n. (n.0, n.1.now)) pulls.entry.items.now)) }
{
    let names = names_of(alloc, pulls.items)?;
    match first_repeat_of(alloc, ShortSlice { items: &names })? {
        Some(place) => Ok(spot_at(pulls.items, place as usize).map(BoardFault::PullTwice)),
        None => Ok(None),
    }
}

fn pull_of_line(statement: &ChainStatement) -> Option<(&[u8], bool)>
    ensures { option_map (λ p. (p.0.now, p.1)) result ≡ pull_of_line statement.now }
{
    match statement {
        ChainStatement::Pull { net, value } => Some((net.bytes(), *value)),
        _ => None,
    }
}

/// Returns the net and the value on each PULL line, in the order of the lines.
pub fn pulls_of<'a>(
    alloc: Global,
    lines: &'a [ChainLine],
) -> Result<Vec<(&'a [u8], bool)>, AllocError>
    ensures { IfOk result (λ pulls. map (λ p. (p.0.now, p.1)) pulls.items ≡ pulls_of lines.now) }
{
    let mut pulls = Vec::new(alloc);
    for line in lines {
        push_some(&mut pulls, pull_of_line(&line.statement))?;
    }
    Ok(pulls)
}

/// Returns a map from each net of the list to the value in the first pair with this net.
pub fn pulls_by_net<'a>(
    alloc: Global,
    pulls: &[(&'a [u8], bool)],
) -> Result<IndexMap<&'a [u8], bool>, AllocError>
    ensures { IfOk result
        (λ known. (q : Bor (List ℕ))
        → get_by (λ n. same_word q.now n.now) known
        ≡ pull_of_net (map (λ p. (p.0.now, p.1)) pulls.now) q.now) }
{
    first_values(alloc, pulls)
}

/// Returns the value that the map has for the net, or None if the map has no value for the net.
pub fn pull_of_net(pulls: &IndexMap<&[u8], bool>, net: &[u8]) -> Option<bool>
    ensures { result ≡ get_by (λ n. same_word net.now n.now) pulls.now }
{
    // Looking up a name hashes it, which is wasted work if the map is empty.
    if pulls.is_empty() {
        return None;
    }
    pulls.get(&net).copied()
}

/// Returns the first fault of the INERT, SUPPLY and PULL lines, or None if they have no fault. The
/// rules are checked in the order InertInChain, NoSupplyNet, NoPullNet, PullTwice. `nets` has the
/// names of the nets.
#[tactic(auto, unfolding(crate::specs::LineRules::line_fault))]
pub fn line_fault(
    alloc: Global,
    lines: ShortSlice<'_, ChainLine>,
    nets: ShortSlice<'_, &[u8]>,
) -> Result<Option<BoardFault>, AllocError>
    ensures { IfOk result
        (λ fault. fault ≡ line_fault lines.entry.items.now (map (λ n. n.now) nets.entry.items.now)) }
{
    let parts = names_in(alloc, lines.items, Naming::Part)?;
    let inerts = named(alloc, lines.items, Naming::Inert)?;
    if let Some(fault) = inert_in_chain(alloc, &inerts, ShortSlice { items: &parts })? {
        return Ok(Some(fault));
    }
    let supplies = named(alloc, lines.items, Naming::Supply)?;
    if let Some(fault) = no_supply_net(alloc, &supplies, nets)? {
        return Ok(Some(fault));
    }
    let pulls = named(alloc, lines.items, Naming::Pull)?;
    if let Some(fault) = no_pull_net(alloc, &pulls, nets)? {
        return Ok(Some(fault));
    }
    pull_twice(alloc, ShortSlice { items: &pulls })
}

/// Returns the names with the role `naming` on these lines, in the order of the lines.
pub fn names_in<'a>(
    alloc: Global,
    lines: &'a [ChainLine],
    naming: Naming,
) -> Result<Vec<&'a [u8]>, AllocError>
    ensures names { IfOk result
        (λ names. map (λ n. n.now) names.items ≡ names_of (named naming lines.now)) }
    ensures few { IfOk result (λ names. vec_len names ≤ length lines.now) }
{
    let list = named(alloc, lines, naming)?;
    names_of(alloc, &list)
}
