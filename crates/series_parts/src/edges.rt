// The edges between lines of a net file. An edge joins two lines whose nets have the same name or
// are linked by a LINK line. It is the pair of the indices of these lines.
ghost use Rattle.std.specs.Prelude.{All, ◌≡◌, ◌<◌, ◌^◌, ◌++◌, length, unwrap_or, IfOk, OnOk};
ghost use Rattle.board_files.specs.Names.{line_names};
ghost use Rattle.series_parts.specs.inner.Edges.{edge_between, edge_of, edge_on, edges, link_edges, name_edges, name_place};

use crate::names::Names;
use crate::pins::Pins;
use board_files::{ChainLine, ChainStatement};
use lists::push_some;
use std::alloc::{AllocError, Global};

/// Returns the edge between two ends, or None if an end is missing.
fn edge_of(first: Option<u32>, second: Option<u32>) -> Option<(usize, usize)>
    ensures { result ≡ edge_of first second }
{
    match (first, second) {
        (Some(first), Some(second)) => Some((first as usize, second as usize)),
        _ => None,
    }
}

/// Returns the edge between the first line with pin `first` of a part and the first line with pin
/// `second` of this part. Returns None if one of the pins is on no line.
#[tactic(auto, unfolding(crate::specs::inner::Edges::edge_between))]
fn edge_between(pins: &Pins<'_>, part: &[u8], first: &[u8], second: &[u8]) -> Option<(usize, usize)>
    ensures { result ≡ edge_between pins.now part.now first.now second.now }
{
    edge_of(pins.place_of(part, first), pins.place_of(part, second))
}

/// Returns the edge of a LINK line. Returns None for any other line, or if one of the pins is on no line.
fn edge_on(pins: &Pins<'_>, statement: &ChainStatement) -> Option<(usize, usize)>
    ensures { result ≡ edge_on pins.now statement.now }
{
    match statement {
        ChainStatement::Link {
            part,
            first,
            second,
        } => edge_between(pins, part.bytes(), first.bytes(), second.bytes()),
        _ => None,
    }
}

/// Appends the edges of the LINK lines, in the order of these lines. A LINK line has no edge if one
/// of its pins is on no line of the net file.
fn push_link_edges(
    edges: &mut Vec<(usize, usize)>,
    pins: &Pins<'_>,
    lines: &[ChainLine],
) -> Result<(), AllocError>
    ensures { OnOk result (edges.new.items ≡ edges.old.items ++ link_edges pins.now lines.now) }
{
    for line in lines {
        push_some(edges, edge_on(pins, &line.statement))?;
    }
    Ok(())
}

/// Returns the index of the first line with this name, or `place` if no line has the name.
fn first_of(names: &Names<'_>, name: &[u8], place: usize) -> usize
    ensures { result ≡ unwrap_or (name_place names.now name.now) place }
{
    match names.place_of(name) {
        Some(first) => first as usize,
        None => place,
    }
}

/// Returns an edge from each line to the first line with the same name.
fn name_edges(alloc: Global, names: &Names<'_>) -> Result<Vec<(usize, usize)>, AllocError>
    ensures { IfOk result (λ edges. edges.items ≡ name_edges names.now 0 names.now) }
{
    let mut edges = Vec::new(alloc);
    for place in 0..names.len() {
        let first = first_of(names, names.at(place), place);
        edges.push((place, first))?;
    }
    Ok(edges)
}

/// Returns an edge from each line to the first line with the same name, and an edge for each LINK
/// line both of whose pins are on lines. `names` must be the names on the lines of `pins`.
pub fn edges(
    alloc: Global,
    chain: &[ChainLine],
    names: &Names<'_>,
    pins: &Pins<'_>,
) -> Result<Vec<(usize, usize)>, AllocError>
    requires { names.now ≡ line_names pins.now }
    ensures edges { IfOk result (λ list. list.items ≡ edges pins.now chain.now) }
    ensures within { IfOk result
        (λ list. All (λ e. (e.0 < length names.now) × (e.1 < length names.now)) list.items) }
{
    let mut edges = name_edges(alloc, names)?;
    push_link_edges(&mut edges, pins, chain)?;
    Ok(edges)
}
