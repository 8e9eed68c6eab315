// Finds, for each net, the useful controls that share the net with another control. Two controls share a net
// if each of them controls a driver of the net. A control is useful if it is safe alone and enables a tested
// driver.
ghost use Rattle.std.specs.Prelude.{◌≡◌, ◌<◌, ◌==◌, ◌&&◌, ◌||◌, ℕ, [], not, length, slice_index_or, All, IfOk, OnOk};
ghost use Rattle.board_defs.specs.Passes.{useful_controls};
ghost use Rattle.driver_passes.specs.inner.Blocks.{has_place};
ghost use Rattle.driver_passes.specs.inner.Drafts.{has_number};
ghost use Rattle.driver_passes.specs.inner.NumberSets.{is_in};
ghost use Rattle.driver_passes.specs.inner.Sharers.{AreSharers, AreSharersBelow, is_listed};

use crate::blocks::{Block, Blocks, blocks_of};
use crate::number_set::NumberSet;
use lists::{Items, blank, note};
use net_classes::BoardClasses;
use std::alloc::{AllocError, Global};

/// Places in the list of useful controls, in ascending order.
type Places = Items<usize>;

/// Appends the place to the list of each of these nets. `sharers` must have a list for each of them.
fn list_place(sharers: &mut [Places], nets: &[u32], place: usize) -> Result<(), AllocError>
    requires { All (λ n. n < length sharers.old) nets.now }
    ensures { OnOk result ((n q : ℕ) → has_number (slice_index_or sharers.new n []) q
        ≡ ((q == place && has_number nets.now n)
        || has_number (slice_index_or sharers.old n []) q)) }
{
    for net in nets {
        note(sharers, *net as usize, place)?;
    }
    Ok(())
}

/// Returns, for each net, the list of the places of the useful controls that share the net with another control.
fn lists_of(alloc: Global, board: &BoardClasses<'_>) -> Result<Vec<Places>, AllocError>
    ensures { IfOk result (λ lists.
        AreSharersBelow board.now (length (useful_controls board.now)) lists.items) }
{
    let mut sharers = blank(alloc, board.net_count())?;
    for (place, c) in board.useful().iter().enumerate() {
        list_place(&mut sharers, board.shared_nets(*c), place)?;
    }
    Ok(sharers)
}

/// Returns, for each list, the set of its places.
fn sets_of(alloc: Global, lists: &[Places]) -> Result<Vec<Blocks>, AllocError>
    ensures { IfOk result (λ sets. (n q : ℕ) → has_place (slice_index_or sets.items n []) q
        ≡ has_number (slice_index_or lists.now n []) q) }
{
    let mut sets = Vec::new(alloc);
    for places in lists {
        sets.push(blocks_of(alloc, places.as_slice())?)?;
    }
    Ok(sets)
}

/// Returns, for each net, the set of the places of the useful controls that share the net with another control.
pub fn sharers_of(alloc: Global, board: &BoardClasses<'_>) -> Result<Vec<Blocks>, AllocError>
    ensures { IfOk result (λ sharers. AreSharers board.now sharers.items) }
{
    let lists = lists_of(alloc, board)?;
    let sharers = sets_of(alloc, &lists)?;
    Ok(sharers)
}

/// Returns the blocks of the net's set, or no blocks if `sharers` has no such net.
fn blocks_at(sharers: &[Blocks], net: usize) -> &[Block]
    ensures { result.now ≡ slice_index_or sharers.now net [] }
{
    match sharers.get(net) {
        None => &[],
        Some(blocks) => blocks.as_slice(),
    }
}

/// Removes from `free` the places in these blocks.
fn close(free: &mut NumberSet, blocks: &[Block])
    ensures { (q : ℕ) → is_in free.new q ≡ (is_in free.old q && not (has_place blocks.now q)) }
{
    for block in blocks {
        free.take_out_bits(block.word, block.bits);
    }
}

/// Removes from `free` the places that `sharers` has for these nets.
pub fn close_sharers(free: &mut NumberSet, sharers: &[Blocks], nets: &[u32])
    ensures { (q : ℕ) → is_in free.new q
        ≡ (is_in free.old q && not (is_listed sharers.now nets.now q)) }
{
    for net in nets {
        close(free, blocks_at(sharers, *net as usize));
    }
}
