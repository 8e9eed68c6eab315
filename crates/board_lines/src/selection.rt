// The entity of each DEVICE line of a chain.
ghost use Rattle.std.specs.Prelude.{◌≡◌, ◌<◌, ◌^◌, All, map, length, vec_len, IfOk, unwrap_or, Option, position, is_none};
ghost use Rattle.answers.specs.Gives.{Gives};
ghost use Rattle.board_lines.specs.Faults.{board_told};
ghost use Rattle.board_lines.specs.Names.{named};
ghost use Rattle.board_lines.specs.declared.names.Naming.TheVariants.{Entity as EntityName, Part as PartName};
ghost use Rattle.board_lines.specs.ChainParts.{IsChain};
ghost use Rattle.board_lines.specs.Selection.{spot_at, no_chain, part_twice, no_entity, entity_twice, chain_limit, first_fault, entity_names, entity_places, answer, selection};

use crate::fault::BoardFault;
use crate::limit::Limit;
use crate::names::{Naming, first_repeat_of, named, names_of, places_among};
use board_defs::{MOST_PARTS, Spot};
use board_files::ChainFile;
use bsdl_parser::Entity;
use short_lists::ShortSlice;
use std::alloc::{AllocError, Global};

/// Returns the index in `entities` of each DEVICE line's entity, or the first fault of the chain, or
/// lack of memory. If there is no fault, the chain has 1 to 255 parts with different names. There
/// must be fewer than 2^32 entities.
pub fn select(alloc: Global, chain: &ChainFile, entities: &[Entity]) -> Result<Vec<u32>, BoardFault>
    requires { length entities.now < 2 ^ 32 }
    ensures numbers { Gives board_told (λ numbers. numbers.items)
        (λ said. selection chain.now entities.now ≡ said) result }
    ensures chain { IfOk result (λ numbers. IsChain chain.now) }
    ensures count { IfOk result (λ numbers. vec_len numbers ≡ length (named EntityName chain.now)) }
    ensures within { IfOk result
        (λ numbers. All (λ number. number < length entities.now) numbers.items) }
{
    entity_numbers(alloc, chain, ShortSlice { items: entities })
}

fn entity_numbers(
    alloc: Global,
    chain: &ChainFile,
    entities: ShortSlice<'_, Entity>,
) -> Result<Vec<u32>, BoardFault>
    ensures { Gives board_told (λ numbers. numbers.items)
        (λ said. selection chain.now entities.entry.items.now ≡ said) result }
{
    let names = entity_names(alloc, entities.items)?;
    numbers_among(alloc, chain, ShortSlice { items: &names })
}

/// Returns the index of each DEVICE line's entity among these names, or the first fault of the
/// chain.
fn numbers_among(
    alloc: Global,
    chain: &ChainFile,
    entities: ShortSlice<'_, &[u8]>,
) -> Result<Vec<u32>, BoardFault>
    ensures { Gives board_told (λ numbers. numbers.items)
        (λ said. answer (named PartName chain.now) (named EntityName chain.now)
        (entity_places (named EntityName chain.now) (map (λ n. n.now) entities.entry.items.now))
        (map (λ n. n.now) entities.entry.items.now) ≡ said) result }
{
    let parts = named(alloc, chain.lines(), Naming::Part)?;
    let devices = named(alloc, chain.lines(), Naming::Entity)?;
    let places = entity_places(alloc, &devices, entities)?;
    answer(
        alloc,
        ShortSlice { items: &parts },
        &devices,
        &places,
        entities,
    )
}

/// Returns the index of each DEVICE line's entity, or the first fault. `places` has, for each of
/// `devices`, the index of its entity in `entities`, or None if the entity is not there.
#[tactic(auto, unfolding(crate::specs::Selection::answer))]
fn answer(
    alloc: Global,
    parts: ShortSlice<'_, (u32, &[u8])>,
    devices: &[(u32, &[u8])],
    places: &[Option<u32>],
    entities: ShortSlice<'_, &[u8]>,
) -> Result<Vec<u32>, BoardFault>
    ensures { Gives board_told (λ numbers. numbers.items)
        (λ said. answer (map (λ n. (n.0, n.1.now)) parts.entry.items.now)
        (map (λ n. (n.0, n.1.now)) devices.now) places.now (map (λ n. n.now) entities.entry.items.now)
        ≡ said) result }
{
    match first_fault(alloc, parts, devices, places, entities)? {
        Some(fault) => Err(fault),
        None => Ok(numbers(alloc, places)?),
    }
}

/// Returns the index in `entities` of each DEVICE line's entity, or None if the entity is not
/// there.
fn entity_places(
    alloc: Global,
    devices: &[(u32, &[u8])],
    entities: ShortSlice<'_, &[u8]>,
) -> Result<Vec<Option<u32>>, AllocError>
    ensures { IfOk result
        (λ places. places.items
        ≡ entity_places (map (λ n. (n.0, n.1.now)) devices.now)
        (map (λ n. n.now) entities.entry.items.now)) }
{
    let names = names_of(alloc, devices)?;
    places_among(alloc, &names, entities)
}

fn entity_names<'a>(alloc: Global, entities: &'a [Entity]) -> Result<Vec<&'a [u8]>, AllocError>
    ensures names { IfOk result
        (λ names. map (λ n. n.now) names.items ≡ entity_names entities.now) }
    ensures count { IfOk result (λ names. vec_len names ≡ length entities.now) }
{
    let mut names = Vec::new(alloc);
    for entity in entities {
        names.push(entity.name.bytes())?;
    }
    Ok(names)
}

fn numbers(alloc: Global, places: &[Option<u32>]) -> Result<Vec<u32>, AllocError>
    ensures { IfOk result (λ numbers. numbers.items ≡ map (λ place. unwrap_or place 0) places.now) }
{
    places.iter().map(|place| place.unwrap_or(0)).collect(alloc)
}

#[tactic(auto, unfolding(crate::specs::Selection::first_fault))]
fn first_fault(
    alloc: Global,
    parts: ShortSlice<'_, (u32, &[u8])>,
    devices: &[(u32, &[u8])],
    places: &[Option<u32>],
    entities: ShortSlice<'_, &[u8]>,
) -> Result<Option<BoardFault>, AllocError>
    ensures { IfOk result
        (λ fault. fault
        ≡ first_fault (map (λ n. (n.0, n.1.now)) parts.entry.items.now)
        (map (λ n. (n.0, n.1.now)) devices.now) places.now (map (λ n. n.now) entities.entry.items.now)) }
{
    if let Some(fault) = no_chain(parts.items) {
        return Ok(Some(fault));
    }
    if let Some(fault) = part_twice(alloc, parts)? {
        return Ok(Some(fault));
    }
    if let Some(fault) = no_entity(devices, places) {
        return Ok(Some(fault));
    }
    if let Some(fault) = entity_twice(alloc, entities)? {
        return Ok(Some(fault));
    }
    Ok(chain_limit(parts.items))
}

#[tactic(auto, unfolding(crate::specs::Selection::no_chain))]
fn no_chain(parts: &[(u32, &[u8])]) -> Option<BoardFault>
    ensures { result ≡ no_chain (map (λ n. (n.0, n.1.now)) parts.now) }
{
    if parts.is_empty() {
        Some(BoardFault::NoChain)
    } else {
        None
    }
}

#[tactic(auto, unfolding(crate::specs::Selection::chain_limit))]
fn chain_limit(parts: &[(u32, &[u8])]) -> Option<BoardFault>
    ensures { result ≡ chain_limit (map (λ n. (n.0, n.1.now)) parts.now) }
{
    if MOST_PARTS < parts.len() {
        Some(BoardFault::Limit(Limit::ChainParts.number()))
    } else {
        None
    }
}

/// Returns the line of the name at index `place` of the list, as a `Spot`, or None past the end of
/// the list. The spot's word is always 1, since the faults that are made from these spots report
/// only the line.
pub fn spot_at(named: &[(u32, &[u8])], place: usize) -> Option<Spot>
    ensures { result ≡ spot_at (map (λ n. (n.0, n.1.now)) named.now) place }
{
    match named.get(place) {
        Some(n) => Some(Spot { line: n.0, word: 1 }),
        None => None,
    }
}

#[tactic(auto, unfolding(crate::specs::Selection::part_twice))]
fn part_twice(
    alloc: Global,
    parts: ShortSlice<'_, (u32, &[u8])>,
) -> Result<Option<BoardFault>, AllocError>
    ensures { IfOk result
        (λ fault. fault ≡ part_twice (map (λ n. (n.0, n.1.now)) parts.entry.items.now)) }
{
    let names = names_of(alloc, parts.items)?;
    match first_repeat_of(alloc, ShortSlice { items: &names })? {
        Some(place) => Ok(spot_at(parts.items, place as usize).map(BoardFault::PartTwice)),
        None => Ok(None),
    }
}

pub fn missing(places: &[Option<u32>]) -> Option<usize>
    ensures { result ≡ position is_none places.now }
{
    places.iter().position(|place| place.is_none())
}

#[tactic(auto, unfolding(crate::specs::Selection::no_entity))]
fn no_entity(devices: &[(u32, &[u8])], places: &[Option<u32>]) -> Option<BoardFault>
    ensures { result ≡ no_entity (map (λ n. (n.0, n.1.now)) devices.now) places.now }
{
    match missing(places) {
        Some(place) => spot_at(devices, place).map(BoardFault::NoEntity),
        None => None,
    }
}

#[tactic(auto, unfolding(crate::specs::Selection::entity_twice))]
fn entity_twice(
    alloc: Global,
    entities: ShortSlice<'_, &[u8]>,
) -> Result<Option<BoardFault>, AllocError>
    ensures { IfOk result
        (λ fault. fault ≡ entity_twice (map (λ n. n.now) entities.entry.items.now)) }
{
    match first_repeat_of(alloc, entities)? {
        Some(text) => Ok(Some(BoardFault::EntityTwice(text))),
        None => Ok(None),
    }
}
