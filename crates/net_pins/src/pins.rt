// The pin tables of a board, with the drivers and the compared cells of its nets.
ghost use Rattle.std.specs.Prelude.{IfOk};
ghost use Rattle.net_pins.specs.Tables.{AreNetPins, ArePinTables};

use crate::board_pins::BoardPins;
use crate::net_tables::NetTables;
use crate::pin_tables::PinTables;
use board_defs::Board;
use std::alloc::{AllocError, Global};

/// The pin tables of a board, and the drivers and the compared cells of each net.
#[derive(Drop)]
pub struct NetPins {
    /// The positions of the parts, the entries of the port bits, and the guarded nets.
    pub tables: PinTables,
    /// The drivers and the compared cells of each net.
    pub nets: NetTables,
}

impl NetPins {
    /// Makes the pin tables of the board, and collects the drivers and the compared cells of each net.
    pub fn new(alloc: Global, board: &Board) -> Result<NetPins, AllocError>
        ensures { IfOk result (λ pins. AreNetPins board.now pins) }
    {
        let tables = PinTables::new(alloc, board)?;
        NetPins::of(alloc, board, tables)
    }

    /// Like `new`, but takes ownership of the pin tables, which must be those of the board.
    pub fn of(alloc: Global, board: &Board, tables: PinTables) -> Result<NetPins, AllocError>
        requires { ArePinTables board.now tables }
        ensures { IfOk result (λ pins. AreNetPins board.now pins) }
    {
        let lent = BoardPins::of(board, &tables);
        let nets = NetTables::of(alloc, &lent)?;
        Ok(NetPins { tables, nets })
    }
}
