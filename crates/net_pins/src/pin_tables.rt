// Tables that answer questions about a pin without a search through all cells of its part, and the guarded nets.
ghost use Rattle.std.specs.Prelude.{IfOk};
ghost use Rattle.net_pins.specs.Tables.{ArePinTables};

use crate::guards::guarded_nets;
use crate::positions::first_positions;
use board_defs::{Board, Items};
use port_entries::{BitEntries, port_entries};
use std::alloc::{AllocError, Global};

/// Tables that find the cells of a board's pins, and the guarded nets of the board.
#[derive(Drop)]
pub struct PinTables {
    /// The position of each part's first bit in data scans.
    pub firsts: Items<u32>,
    /// The entries of each port bit of each part.
    pub entries: Items<Items<BitEntries>>,
    /// A flag for each net, which is true if the net is guarded. No safe setting enables a controlled or a one-sided
    /// driver of a guarded net. No setting observes a guarded net, so `NetTables` leaves out all its drivers, even
    /// those that are always on.
    pub guarded: Items<bool>,
}

impl PinTables {
    /// Returns the tables of a board.
    pub fn new(alloc: Global, board: &Board) -> Result<PinTables, AllocError>
        ensures { IfOk result (λ tables. ArePinTables board.now tables) }
    {
        let firsts = Items::of(first_positions(alloc, board)?);
        let entries = port_entries(alloc, board.raw())?;
        let guarded = guarded_nets(alloc, board, entries.as_slice())?;
        Ok(PinTables {
            firsts,
            entries,
            guarded,
        })
    }
}
