// Collects the compared cells of all nets.
ghost use Rattle.std.specs.Prelude.{◌≡◌, ◌≤◌, length, map, IfOk, All};
ghost use Rattle.board_defs.specs.Limits.{most_pins};
ghost use Rattle.net_pins.specs.NetCells.{all_readers, readers_of};

use crate::board_pins::BoardPins;
use crate::nets::{ReaderCell, readers_of};
use board_defs::{Items, Net};
use std::alloc::{AllocError, Global};

fn readers_of_nets(
    alloc: Global,
    board: &BoardPins<'_>,
    nets: &[Net],
) -> Result<Items<Items<ReaderCell>>, AllocError>
    requires { All (λ net. length net.pins ≤ most_pins) nets.now }
    ensures { IfOk result
        (λ readers. readers ≡ map (λ net. readers_of board.now net.pins) nets.now) }
{
    let mut readers = Vec::with_capacity(alloc, nets.len())?;
    for net in nets {
        readers.push(readers_of(alloc, board, net.pins.as_slice())?)?;
    }
    Ok(Items::of(readers))
}

/// Returns, for each net, its compared cells in pin order. A guarded net has its compared cells, too.
pub fn all_readers(
    alloc: Global,
    board: &BoardPins<'_>,
) -> Result<Items<Items<ReaderCell>>, AllocError>
    ensures { IfOk result (λ readers. readers ≡ all_readers board.now) }
{
    let raw = board.raw();
    readers_of_nets(alloc, board, raw.nets.as_slice())
}
