// Collects the drivers of each net. Leaves out the drivers of guarded nets. A net is guarded if it carries a
// supply, or has a pin of a test access port, a pin that compliance patterns name, or a dark pin.
ghost use Rattle.std.specs.Prelude.{◌≡◌, ◌≤◌, length, map, IfOk, All};
ghost use Rattle.board_defs.specs.Limits.{most_pins};
ghost use Rattle.net_pins.specs.NetCells.{all_drivers, drivers_of};

use crate::board_pins::BoardPins;
use crate::nets::{NetDriver, drivers_of};
use board_defs::{Items, Net};
use std::alloc::{AllocError, Global};

fn drivers_of_nets(
    alloc: Global,
    board: &BoardPins<'_>,
    nets: &[Net],
) -> Result<Items<Items<NetDriver>>, AllocError>
    requires nets { nets.now ≡ board.now.nets }
    requires few { All (λ net. length net.pins ≤ most_pins) nets.now }
    ensures { IfOk result (λ drivers. drivers ≡ map (drivers_of board.now) nets.now) }
{
    let mut drivers = Vec::with_capacity(alloc, nets.len())?;
    for n in 0..nets.len() {
        let is_guarded = board.is_guarded(n);
        drivers.push(drivers_of(alloc, board, is_guarded, &nets[n])?)?;
    }
    Ok(Items::of(drivers))
}

/// Returns, for each net, its drivers in pin order. The list of a guarded net is empty.
pub fn all_drivers(
    alloc: Global,
    board: &BoardPins<'_>,
) -> Result<Items<Items<NetDriver>>, AllocError>
    ensures { IfOk result (λ drivers. drivers ≡ all_drivers board.now) }
{
    let raw = board.raw();
    drivers_of_nets(alloc, board, raw.nets.as_slice())
}
