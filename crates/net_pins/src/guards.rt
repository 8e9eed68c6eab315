// Finds the guarded nets from the entries of their pins. A net is guarded if it carries a supply, or has a
// pin of a test access port, a pin that compliance patterns name, or a dark pin.
ghost use Rattle.std.specs.Prelude.{◌≡◌, map, IfOk};
ghost use Rattle.board_defs.specs.Pins.{guarded};
ghost use Rattle.port_entries.specs.Entries.{AreEntries};

use board_defs::{Board, Items, Net, RawBoard};
use port_entries::{BitEntries, is_guarded};
use std::alloc::{AllocError, Global};

fn guarded_of(
    alloc: Global,
    board: &RawBoard,
    entries: &[Items<BitEntries>],
    nets: &[Net],
) -> Result<Vec<bool>, AllocError>
    requires { AreEntries board.now entries.now }
    ensures { IfOk result (λ flags. flags.items ≡ map (guarded board.now) nets.now) }
{
    let mut flags = Vec::with_capacity(alloc, nets.len())?;
    for net in nets {
        flags.push(is_guarded(entries, board, net))?;
    }
    Ok(flags)
}

/// Returns a flag for each net that is true if the net is guarded. No safe setting enables a controlled or a one-sided
/// driver of a guarded net. `entries` must be the entries of the board's port bits.
pub fn guarded_nets(
    alloc: Global,
    board: &Board,
    entries: &[Items<BitEntries>],
) -> Result<Items<bool>, AllocError>
    requires { AreEntries board.now entries.now }
    ensures { IfOk result (λ flags. flags ≡ map (guarded board.now) board.now.nets) }
{
    let raw = board.raw();
    let flags = guarded_of(alloc, raw, entries, raw.nets.as_slice())?;
    Ok(Items::of(flags))
}
