// Sets of places in the list of useful controls, stored as lists of blocks. Each block has places that belong
// to one word of 64 places. A control is useful if it is safe alone and enables a tested driver.
ghost use Rattle.std.specs.Prelude.{◌≡◌, ◌/◌, ◌==◌, ◌||◌, ℕ, IfOk, OnOk};
ghost use Rattle.driver_passes.specs.inner.Blocks.{block_has, has_place};
ghost use Rattle.driver_passes.specs.inner.Drafts.{has_number};

use lists::Items;
use std::alloc::{AllocError, Global};

/// Some places of a set. All of them belong to word `word`. Place `n` belongs to word `n / 64`, and is in the
/// block if bit `n % 64` of `bits` is 1.
#[derive(Clone, Copy, Drop)]
pub struct Block {
    pub word: usize,
    pub bits: u64,
}

/// A set of places. A `NumberSet` can lose a whole block in one step, which is fast when many controls share a net.
pub type Blocks = Items<Block>;

/// Returns the block that has only this place.
fn block_of(place: usize) -> Block
    ensures { (q : ℕ) → block_has result q ≡ (place == q) }
{
    Block {
        word: place / 64,
        bits: 1 << (place % 64),
    }
}

/// Returns the block with one more place, which must belong to the block's word.
fn with_place(block: Block, place: usize) -> Block
    requires { place / 64 ≡ block.word }
    ensures { (q : ℕ) → block_has result q ≡ (block_has block q || place == q) }
{
    Block {
        word: block.word,
        bits: block.bits | 1 << (place % 64),
    }
}

/// Appends the block unless it is empty.
fn push_filled(blocks: &mut Blocks, block: Block) -> Result<(), AllocError>
    ensures { OnOk result ((q : ℕ) →
        has_place blocks.new q ≡ (has_place blocks.old q || block_has block q)) }
{
    if block.bits != 0 {
        blocks.push(block)?;
    }
    Ok(())
}

/// Adds a place to the set that consists of `blocks` and the block `last`. If the place belongs to the word of `last`,
/// returns `last` with this place. Otherwise, appends `last` to `blocks` and returns a new block that has only this
/// place.
fn next_block(blocks: &mut Blocks, last: Block, place: usize) -> Result<Block, AllocError>
    ensures { IfOk result (λ block. (q : ℕ) → (has_place blocks.new q || block_has block q)
        ≡ ((has_place blocks.old q || block_has last q) || place == q)) }
{
    if place / 64 == last.word {
        return Ok(with_place(last, place));
    }
    push_filled(blocks, last)?;
    Ok(block_of(place))
}

/// Returns the set of these places. If the places are in ascending order, the set has at most one block for each word.
pub fn blocks_of(alloc: Global, places: &[usize]) -> Result<Blocks, AllocError>
    ensures { IfOk result (λ blocks. (q : ℕ) → has_place blocks q ≡ has_number places.now q) }
{
    let mut blocks = Items::none(alloc);
    let mut last = Block { word: 0, bits: 0 };
    for place in places {
        last = next_block(&mut blocks, last, *place)?;
    }
    push_filled(&mut blocks, last)?;
    Ok(blocks)
}
