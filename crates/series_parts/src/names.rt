// The names on the lines of a net file.
ghost use Rattle.std.specs.Prelude.{◌≡◌, ◌<◌, ◌^◌, slice_get, Some, length, map, IfOk, List, ℕ};
ghost use Rattle.std.proofs.Common.{Bor};
ghost use Rattle.indexmap.specs.IndexMap.{get_by};
ghost use Rattle.first_places.specs.Places.{first_place};
ghost use Rattle.board_files.specs.Names.{same_word, line_names};
ghost use Rattle.series_parts.specs.inner.Edges.{name_place};

use board_files::{NetLine, line_names};
use first_places::first_places;
use indexmap::IndexMap;
use std::alloc::{AllocError, Global};
use std::marker::Model;

/// Returns a map from each name to the index of the first line with this name. There must be fewer
/// than 2^32 names.
fn name_places<'a>(alloc: Global, names: &[&'a [u8]]) -> Result<IndexMap<&'a [u8], u32>, AllocError>
    requires { length names.now < 2 ^ 32 }
    ensures { IfOk result
        (λ places. (q : Bor (List ℕ))
        → get_by (λ n. same_word q.now n.now) places
        ≡ name_place (map (λ n. n.now) names.now) q.now) }
{
    first_places(alloc, names)
}

/// The names on the lines of a net file. In contracts, the value is the list of these names.
#[derive(Drop)]
pub struct Names<'a> {
    names: Vec<&'a [u8]>,
    places: IndexMap<&'a [u8], u32>,
}

impl<'a> Model for Names<'a> {
    ghost use Rattle.std.specs.Prelude.{◌≡◌, [], List, ℕ, map};
    ghost use Rattle.std.proofs.Common.{Bor};
    ghost use Rattle.indexmap.specs.IndexMap.{get_by};
    ghost use Rattle.board_files.specs.Names.{same_word};
    ghost use Rattle.series_parts.specs.inner.Edges.{name_place};

    ghost Value = { List (List ℕ) };

    ghost view = { λ a. map (λ n. n.now) a.names.items };

    ghost invariant = { λ a. (q : Bor (List ℕ))
        → get_by (λ n. same_word q.now n.now) a.places
        ≡ name_place (map (λ n. n.now) a.names.items) q.now };
}

impl<'a> Names<'a> {
    /// Returns the names on these lines. There must be fewer than 2^32 lines.
    pub fn of(alloc: Global, lines: &'a [NetLine]) -> Result<Names<'a>, AllocError>
        requires { length lines.now < 2 ^ 32 }
        ensures { IfOk result (λ names. names ≡ line_names lines.now) }
    {
        let names = line_names(alloc, lines)?;
        let places = name_places(alloc, &names)?;
        Ok(Names { names, places })
    }

    /// Returns the index of the first line with this name, or None if there is none.
    pub fn place_of(&self, name: &[u8]) -> Option<u32>
        ensures { result ≡ name_place self.now name.now }
    {
        self.places.get(&name).copied()
    }

    /// Returns the number of lines.
    pub fn len(&self) -> usize
        ensures { result ≡ length self.now }
    {
        self.names.len()
    }

    /// Returns the name on the line at index `place`, which must be less than the number of lines.
    pub fn at(&self, place: usize) -> &'a [u8]
        requires { place < length self.now }
        ensures { slice_get self.now place ≡ Some result.now }
    {
        self.names[place]
    }
}
