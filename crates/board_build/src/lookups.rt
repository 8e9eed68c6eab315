// Maps for look-ups by the names of parts and nets.
ghost use Rattle.std.specs.Prelude.{◌≡◌, ◌<◌, ◌^◌, ℕ, List, length, IfOk};
ghost use Rattle.std.specs.Borrow.{Bor};
ghost use Rattle.indexmap.specs.IndexMap.{get_by};
ghost use Rattle.first_places.specs.Places.{first_place};
ghost use Rattle.board_files.specs.Names.{same_word};
ghost use Rattle.board_lines.specs.Names.{named, names_of};
ghost use Rattle.board_lines.specs.LineRules.{pulls_of, pull_of_net};
ghost use Rattle.board_lines.specs.ChainParts.{described_names};

use board_defs::Part;
use board_files::ChainLine;
use board_lines::{Naming, described_names, first_places_of, names_in, pulls_by_net, pulls_of};
use indexmap::IndexMap;
use short_lists::ShortSlice;
use std::alloc::{AllocError, Global};

/// Returns a map from each name with the role `naming` on the lines to the index of its first
/// occurrence among these names. There must be fewer than 2^32 lines.
pub fn names_by_place<'a>(
    alloc: Global,
    lines: &'a [ChainLine],
    naming: Naming,
) -> Result<IndexMap<&'a [u8], u32>, AllocError>
    requires { length lines.now < 2 ^ 32 }
    ensures { IfOk result
        (λ places. (q : Bor (List ℕ))
        → get_by (λ n. same_word q.now n.now) places
        ≡ first_place same_word (names_of (named naming lines.now)) q.now) }
{
    let names = names_in(alloc, lines, naming)?;
    first_places_of(alloc, ShortSlice { items: &names })
}

/// Returns a map from the name of each described part to the index of its first occurrence among
/// these names. There must be fewer than 2^32 parts.
pub fn described_by_place<'a>(
    alloc: Global,
    parts: &'a [Part],
) -> Result<IndexMap<&'a [u8], u32>, AllocError>
    requires { length parts.now < 2 ^ 32 }
    ensures { IfOk result
        (λ places. (q : Bor (List ℕ))
        → get_by (λ n. same_word q.now n.now) places
        ≡ first_place same_word (described_names parts.now) q.now) }
{
    let names = described_names(alloc, parts)?;
    first_places_of(alloc, ShortSlice { items: &names })
}

/// Returns a map from each net that a PULL line names to the value of the first such line.
pub fn pulls_in<'a>(
    alloc: Global,
    lines: &'a [ChainLine],
) -> Result<IndexMap<&'a [u8], bool>, AllocError>
    ensures { IfOk result
        (λ known. (q : Bor (List ℕ))
        → get_by (λ n. same_word q.now n.now) known ≡ pull_of_net (pulls_of lines.now) q.now) }
{
    let pulls = pulls_of(alloc, lines)?;
    pulls_by_net(alloc, &pulls)
}
