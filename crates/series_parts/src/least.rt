// The joined names of the nets on the lines of a net file.
ghost use Rattle.std.specs.Prelude.{◌≡◌, ◌<◌, ℕ, List, [], All, slice_index_or, length, map, IfOk};
ghost use Rattle.board_files.specs.Names.{line_names};
ghost use Rattle.series_parts.specs.inner.Edges.{renamed};
ghost use Rattle.series_parts.specs.Joining.{joined_name, links};

use crate::classes::labels;
use crate::edges::edges;
use crate::names::Names;
use crate::pins::Pins;
use board_files::ChainLine;
use std::alloc::{AllocError, Global};

/// Returns the names on the lines at these indices, in the order of `places`. Each index must be
/// less than the number of lines.
fn names_at<'a>(
    alloc: Global,
    names: &Names<'a>,
    places: &[usize],
) -> Result<Vec<&'a [u8]>, AllocError>
    requires { All (λ place. place < length names.now) places.now }
    ensures { IfOk result
        (λ found. map (λ n. n.now) found.items
        ≡ map (λ place. slice_index_or names.now place []) places.now) }
{
    let mut found = Vec::new(alloc);
    for place in places {
        found.push(names.at(*place))?;
    }
    Ok(found)
}

/// Returns the joined name of each line's net: the name of the first net in the net file that is
/// joined with the line's net. `names` must be the names on the lines of `pins`.
pub fn least_names<'a>(
    alloc: Global,
    chain: &[ChainLine],
    names: &Names<'a>,
    pins: &Pins<'_>,
) -> Result<Vec<&'a [u8]>, AllocError>
    requires { names.now ≡ line_names pins.now }
    ensures { IfOk result
        (λ least. (name : List ℕ)
        → renamed names.now (map (λ n. n.now) least.items) name
        ≡ joined_name (links pins.now chain.now) names.now name) }
{
    let edges = edges(alloc, chain, names, pins)?;
    let labels = labels(alloc, names.len(), &edges)?;
    names_at(alloc, names, &labels)
}
