// A board with its pin tables, and questions about its pins.
ghost use Rattle.std.specs.Prelude.{◌≡◌, ◌+◌, ◌<◌};
ghost use Rattle.std.specs.List.{list_any};
ghost use Rattle.board_defs.specs.BoardRules.{IsBoard};
ghost use Rattle.board_defs.specs.Pins.{cell_count, device_at, entry_at, guarded_at, is_dark, receives_where};
ghost use Rattle.port_entries.specs.Entries.{entries_of};
ghost use Rattle.net_pins.specs.Positions.{first_position};
ghost use Rattle.net_pins.specs.Tables.{ArePinTables};

use crate::pin_tables::PinTables;
use crate::positions::cell_position;
use board_defs::{Board, Cell, NetPin, PinAt, RawBoard};
use lists::is_set;
use port_entries::{driving_entry, entries_at, has_dark_pin, receives};
use std::marker::Model;

/// A board with its pin tables. Its value in contracts is the board. The tables answer a question about a pin without a
/// search through all cells of its part.
#[derive(Drop)]
pub struct BoardPins<'a> {
    board: &'a Board,
    tables: &'a PinTables,
}

impl<'a> Model for BoardPins<'a> {
    ghost use Rattle.board_defs.specs.declared.board.RawBoard.{RawBoard};
    ghost use Rattle.net_pins.specs.Tables.{ArePinTables};

    ghost Value = { RawBoard };

    ghost view = { λ a. a.board.now };

    ghost invariant = { λ a. ArePinTables a.board.now a.tables.now };
}

impl<'a> BoardPins<'a> {
    /// Returns the board with these tables, which must be the tables of this board.
    pub fn of(board: &'a Board, tables: &'a PinTables) -> BoardPins<'a>
        requires { ArePinTables board.now tables.now }
        ensures { result ≡ board.now }
    {
        BoardPins { board, tables }
    }

    /// Returns the record of the board. The record meets the rules of boards.
    pub fn raw(&self) -> &'a RawBoard
        ensures value { result.now ≡ self.now }
        ensures rules { IsBoard self.now }
    {
        self.board.raw()
    }

    /// Returns whether the net with this number is guarded. Returns false if there is no such net.
    pub fn is_guarded(&self, net: usize) -> bool
        ensures { result ≡ guarded_at self.now net }
    {
        is_set(self.tables.guarded.as_slice(), net)
    }

    /// Returns the entries of the port bit at `at`, in the order of the device's list of entries. Returns no entries if
    /// the part has no such port bit.
    pub fn entries(&self, at: PinAt) -> &'a [Cell]
        ensures { result.now ≡ entries_of (device_at self.now at.part) at.bit }
    {
        entries_at(self.tables.entries.as_slice(), at)
    }

    /// Returns the driving entry of the port bit at `at`, if there is one.
    pub fn driving_entry(&self, at: PinAt) -> Option<Cell>
        ensures { result ≡ entry_at self.now at }
    {
        driving_entry(self.tables.entries.as_slice(), self.board.raw(), at)
    }

    /// Returns whether the pin at `at` is a receiver. Returns false if `at` is `None`.
    pub fn receives(&self, at: Option<PinAt>) -> bool
        ensures { result ≡ receives_where self.now at }
    {
        receives(self.tables.entries.as_slice(), self.board.raw(), at)
    }

    /// Returns whether one of the pins is dark. If a pin of a net is dark, something that no setting controls may
    /// drive the net.
    pub fn has_dark_pin(&self, pins: &[NetPin]) -> bool
        ensures { result ≡ list_any (is_dark self.now) pins.now }
    {
        has_dark_pin(self.tables.entries.as_slice(), self.board.raw(), pins)
    }

    /// Returns the position of a described part's cell in data scans. The part must have this boundary cell.
    pub fn position(&self, part: u32, cell: u32) -> u32
        requires { cell < cell_count (device_at self.now part) }
        ensures { result ≡ first_position self.now part + cell }
    {
        cell_position(self.board, self.tables.firsts.as_slice(), part, cell)
    }
}
