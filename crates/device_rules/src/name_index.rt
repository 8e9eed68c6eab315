//! An index that finds the items of a list by their names.
ghost use Rattle.std.specs.Prelude.{◌≡◌, ◌<◌, ◌^◌, List, ℕ, length, map, vec_len, find, IfOk};
ghost use Rattle.std.specs.Option.{option_copied};
ghost use Rattle.std.specs.Str.{bytes_eq};
ghost use Rattle.indexmap.specs.IndexMap.{get_by};
ghost use Rattle.first_places.specs.Places.{first_place};
ghost use Rattle.device_rules.specs.inner.Index.{AreLent, FindsPlaces, is_item_called, place_called};

use bsdl_parser::Port;
use bsdl_strings::MapEntry;
use first_places::first_places;
use indexmap::IndexMap;
use std::alloc::{AllocError, Global};
use std::marker::Model;

/// An item that has the name of a port.
pub trait Named {
    ghost name_in: { Self → List ℕ };

    /// Returns the name of the port.
    fn name(&self) -> &[u8]
        ensures { result.now ≡ name_in self.now };
}

impl Named for Port {
    ghost name_in = { λ port. port.name };

    fn name(&self) -> &[u8] {
        self.name.bytes()
    }
}

impl Named for MapEntry {
    ghost name_in = { λ entry. entry.port };

    fn name(&self) -> &[u8] {
        self.port.bytes()
    }
}

fn names_of<'a, T: Named>(alloc: Global, items: &'a [T]) -> Result<Vec<&'a [u8]>, AllocError>
    ensures names { IfOk result (λ names. AreLent names.items (map T.name_in items.now)) }
    ensures count { IfOk result (λ names. vec_len names ≡ length items.now) }
{
    let mut names = Vec::new(alloc);
    for item in items {
        names.push(item.name())?;
    }
    Ok(names)
}

/// Returns a map from each name to its first place in the list, counted from 0. There must be fewer
/// than 2^32 names.
fn first_places_of<'a>(
    alloc: Global,
    names: &[&'a [u8]],
) -> Result<IndexMap<&'a [u8], u32>, AllocError>
    requires { length names.now < 2 ^ 32 }
    ensures { IfOk result (λ places.
        FindsPlaces places (first_place bytes_eq (map (λ n. n.now) names.now))) }
{
    first_places(alloc, names)
}

/// Returns a map from each name to the place of the first item with this name, counted from 0.
/// There must be fewer than 2^32 items.
fn places_of<'a, T: Named>(
    alloc: Global,
    items: &'a [T],
) -> Result<IndexMap<&'a [u8], u32>, AllocError>
    requires { length items.now < 2 ^ 32 }
    ensures { IfOk result (λ places. FindsPlaces places (place_called T.name_in items.now)) }
{
    let names = names_of(alloc, items)?;
    first_places_of(alloc, &names)
}

/// Returns the place that the map has for the name, or None if the map lacks the name.
fn mapped_place(places: &IndexMap<&[u8], u32>, name: &[u8]) -> Option<u32>
    ensures { result ≡ get_by (λ n. bytes_eq name.now n.now) places.now }
{
    places.get(&name).copied()
}

/// Fewer than 2^32 items, with a map from each name to the place of the first item with this name. The value in
/// contracts is the list of the items.
#[derive(Drop)]
pub struct NameIndex<'a, T: Named> {
    items: &'a [T],
    places: IndexMap<&'a [u8], u32>,
}

impl<'a, T: Named> Model for NameIndex<'a, T> {
    ghost use Rattle.std.specs.Prelude.{◌<◌, ◌^◌, List, length};
    ghost use Rattle.device_rules.specs.inner.Index.{FindsPlaces, place_called};

    ghost Value = { List T };

    ghost view = { λ a. a.items.now };

    ghost invariant = { λ a. (length a.items.now < 2 ^ 32)
        × FindsPlaces a.places (place_called T.name_in a.items.now) };
}

impl<'a, T: Named> NameIndex<'a, T> {
    /// Returns these items, fewer than 2^32, with their index.
    pub fn of(alloc: Global, items: &'a [T]) -> Result<NameIndex<'a, T>, AllocError>
        requires { length items.now < 2 ^ 32 }
        ensures { IfOk result (λ index. index ≡ items.now) }
    {
        let places = places_of(alloc, items)?;
        Ok(NameIndex { items, places })
    }

    /// Returns the list of the items.
    pub fn as_slice(&self) -> &[T]
        ensures items { result.now ≡ self.now }
        ensures short { length result.now < 2 ^ 32 }
    {
        self.items
    }

    /// Returns the place of the first item with this name, counted from 0, if there is one.
    pub fn place_of(&self, name: &[u8]) -> Option<u32>
        ensures { result ≡ place_called T.name_in self.now name.now }
    {
        mapped_place(&self.places, name)
    }

    /// Returns the first item with this name, if there is one.
    pub fn item_of(&self, name: &[u8]) -> Option<&T>
        ensures { option_copied result ≡ find (is_item_called T.name_in name.now) self.now }
    {
        let items = self.as_slice();
        match self.place_of(name) {
            Some(place) => Some(&items[place as usize]),
            None => None,
        }
    }
}
