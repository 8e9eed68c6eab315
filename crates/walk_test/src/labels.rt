// Finds the label of each walk net: the place, in the list of walk nets, of the first walk net whose 1 the net reads.
ghost use Rattle.std.specs.Prelude.{◌≡◌, map, slice_index_or, IfOk, MatchOption};
ghost use Rattle.std.specs.List.{list_all};
ghost use Rattle.walk_test.specs.inner.Reading.{first_at, first_in, is_even, label_of, ShowsLabels};

use crate::reading::read_rows;
use crate::tables::NetCells;
use crate::walk_log::WalkLog;
use std::alloc::{AllocError, Global};

/// Returns the first compared position of a net, or 0 if it has none.
#[inline]
pub fn first_of(net: &NetCells) -> u32
    ensures { result ≡ first_at net.now }
{
    match net.compared.as_slice().first() {
        None => 0,
        Some(position) => *position,
    }
}

/// Returns the first row in which position `at` reads 1. `firsts` has this row for each position, or `none` if there is
/// no such row. The result is `none` past the end.
#[inline]
pub fn row_at(firsts: &[u32], at: u32, none: u32) -> u32
    ensures { result ≡ slice_index_or firsts.now at none }
{
    match firsts.get(at as usize) {
        None => none,
        Some(row) => *row,
    }
}

// Returns whether all compared positions of a net have the same first row. `firsts` has the first row in which each
// position reads 1, or `none` if there is no such row.
fn is_even(firsts: &[u32], net: &NetCells, none: u32) -> bool
    ensures { result ≡ is_even none firsts.now net.now }
{
    let first = row_at(firsts, first_of(net), none);
    net.compared
        .as_slice()
        .iter()
        .all(|at| row_at(firsts, *at, none) == first)
}

fn are_even(firsts: &[u32], nets: &[NetCells], none: u32) -> bool
    ensures { result ≡ list_all (is_even none firsts.now) nets.now }
{
    nets.iter().all(|net| is_even(firsts, net, none))
}

// Returns the labels of nets. `firsts` has the first row in which each position reads 1, or `none` if there is no such
// row.
fn labels_in(
    alloc: Global,
    firsts: &[u32],
    nets: &[NetCells],
    none: u32,
) -> Result<Vec<u32>, AllocError>
    ensures { IfOk result (λ labels. labels.items ≡ map (first_in none firsts.now) nets.now) }
{
    let mut labels = Vec::new(alloc);
    for net in nets {
        labels.push(row_at(firsts, first_of(net), none))?;
    }
    Ok(labels)
}

/// Returns the labels of the walk nets of a log. Returns `None` if, in some row, some compared cell reads a bit that contradicts the
/// labels. Reads the log once, row by row.
pub fn shown_labels(alloc: Global, log: &WalkLog<'_>) -> Result<Option<Vec<u32>>, AllocError>
    ensures { IfOk result
        (λ found. MatchOption found
        (ShowsLabels log.now.log (map (label_of log.now.log) log.now.nets) log.now.nets → ⊥)
        (λ labels. (labels.items ≡ map (label_of log.now.log) log.now.nets)
        × ShowsLabels log.now.log labels.items log.now.nets)) }
{
    log.laws();
    let none = log.rows();
    let nets = log.nets();
    let mut firsts = vec![in alloc; none; log.len() as usize]?;
    if !read_rows(log, &mut firsts) {
        return Ok(None);
    }
    if !are_even(&firsts, nets, none) {
        return Ok(None);
    }
    Ok(Some(labels_in(alloc, &firsts, nets, none)?))
}
