// The names on the lines of a chain file.
ghost use Rattle.std.specs.Prelude.{◌≡◌, ◌≤◌, vec_len, List, length, ℕ, map, IfOk, option_copied, Option};
ghost use Rattle.std.proofs.Common.{Bor};
ghost use Rattle.first_places.specs.Places.{first_place, first_repeat, place_or_zero, once};
ghost use Rattle.indexmap.specs.IndexMap.{get_by};
ghost use Rattle.board_files.specs.Names.{same_word};
ghost use Rattle.board_lines.specs.Names.{name_in_role, named, names_of};

use board_defs::Name;
use board_files::{ChainLine, ChainStatement};
use first_places::{first_places, first_repeat, numbered};
use indexmap::IndexMap;
use lists::push_some;
use short_lists::ShortSlice;
use std::alloc::{AllocError, Global};

/// The role of a name on a line of a chain file. `Part` is a part of the chain, on a DEVICE or BYPASS
/// line. `Entity` is the entity on a DEVICE line. The others are the names on INERT, SUPPLY and PULL
/// lines.
#[derive(Clone, Copy)]
pub enum Naming {
    Part,
    Entity,
    Inert,
    Supply,
    Pull,
}

pub fn name_of(statement: &ChainStatement, naming: Naming) -> Option<&Name>
    ensures { option_copied result ≡ name_in_role naming statement.now }
{
    match (naming, statement) {
        (Naming::Part, ChainStatement::Device { part, .. }) => Some(part),
        (Naming::Part, ChainStatement::Bypass { part, .. }) => Some(part),
        (Naming::Entity, ChainStatement::Device { entity, .. }) => Some(entity),
        (Naming::Inert, ChainStatement::Inert { part }) => Some(part),
        (Naming::Supply, ChainStatement::Supply { net }) => Some(net),
        (Naming::Pull, ChainStatement::Pull { net, .. }) => Some(net),
        _ => None,
    }
}

/// Returns the names with the role `naming` on these lines, each with the number of its line.
pub fn named<'a>(
    alloc: Global,
    lines: &'a [ChainLine],
    naming: Naming,
) -> Result<Vec<(u32, &'a [u8])>, AllocError>
    ensures named { IfOk result
        (λ list. map (λ n. (n.0, n.1.now)) list.items ≡ named naming lines.now) }
    ensures few { IfOk result (λ list. vec_len list ≤ length lines.now) }
{
    let mut list = Vec::new(alloc);
    for line in lines {
        let name = name_of(&line.statement, naming);
        push_some(&mut list, name.map(|name| (line.line, name.bytes())))?;
    }
    Ok(list)
}

/// Returns the names of the list, without the numbers of their lines.
pub fn names_of<'a>(alloc: Global, named: &[(u32, &'a [u8])]) -> Result<Vec<&'a [u8]>, AllocError>
    ensures { IfOk result
        (λ names. map (λ n. n.now) names.items ≡ names_of (map (λ n. (n.0, n.1.now)) named.now)) }
{
    let mut names = Vec::new(alloc);
    for n in named {
        names.push(n.1)?;
    }
    Ok(names)
}

/// Returns the index of the first name that also occurs earlier in the list, or None if the names
/// differ.
pub fn first_repeat_of(
    alloc: Global,
    names: ShortSlice<'_, &[u8]>,
) -> Result<Option<u32>, AllocError>
    ensures { IfOk result
        (λ place. place ≡ first_repeat same_word (map (λ n. n.now) names.entry.items.now)) }
{
    first_repeat(alloc, names.items)
}

/// Returns a map from each name to the index of its first occurrence in the list.
pub fn first_places_of<'a>(
    alloc: Global,
    names: ShortSlice<'_, &'a [u8]>,
) -> Result<IndexMap<&'a [u8], u32>, AllocError>
    ensures { IfOk result
        (λ places. (q : Bor (List ℕ))
        → get_by (λ n. same_word q.now n.now) places
        ≡ first_place same_word (map (λ n. n.now) names.entry.items.now) q.now) }
{
    first_places(alloc, names.items)
}

/// Returns the index that the map has for this name, or None if the map does not have the name.
pub fn place_of(places: &IndexMap<&[u8], u32>, name: &[u8]) -> Option<u32>
    ensures { result ≡ get_by (λ n. same_word name.now n.now) places.now }
{
    // Looking up a name hashes it, which is wasted work if the map is empty.
    if places.is_empty() {
        return None;
    }
    places.get(&name).copied()
}

fn places_by(
    alloc: Global,
    names: &[&[u8]],
    known: &IndexMap<&[u8], u32>,
) -> Result<Vec<Option<u32>>, AllocError>
    ensures { IfOk result
        (λ places. places.items
        ≡ map (λ name. get_by (λ n. same_word name.now n.now) known.now) names.now) }
{
    names
        .iter()
        .map(|name| place_of(known, name))
        .collect(alloc)
}

/// Returns, for each of `names`, the index of its first occurrence in `others`, or None if `others`
/// does not have the name.
pub fn places_among(
    alloc: Global,
    names: &[&[u8]],
    others: ShortSlice<'_, &[u8]>,
) -> Result<Vec<Option<u32>>, AllocError>
    ensures { IfOk result
        (λ places. places.items
        ≡ map (first_place same_word (map (λ n. n.now) others.entry.items.now))
        (map (λ n. n.now) names.now)) }
{
    // If there are no names to look up, `others` needs no map.
    if names.is_empty() {
        return Ok(Vec::new(alloc));
    }
    let known = first_places_of(alloc, others)?;
    places_by(alloc, names, &known)
}

/// Returns the distinct names in the order of their first occurrences, and, for each of `names`,
/// its index among the distinct names.
pub fn numbered_names<'a>(
    alloc: Global,
    names: ShortSlice<'_, &'a [u8]>,
) -> Result<(Vec<&'a [u8]>, Vec<u32>), AllocError>
    ensures once { IfOk result
        (λ r. map (λ n. n.now) r.0.items ≡ once same_word (map (λ n. n.now) names.entry.items.now)) }
    ensures few { IfOk result (λ r. vec_len r.0 ≤ length names.entry.items.now) }
    ensures numbers { IfOk result
        (λ r. r.1.items
        ≡ map (place_or_zero same_word (once same_word (map (λ n. n.now) names.entry.items.now)))
        (map (λ n. n.now) names.entry.items.now)) }
{
    numbered(alloc, names.items)
}
