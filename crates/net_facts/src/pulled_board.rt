// A board with tables of the port bits that are on pulled nets. The tables decide which drivers are one-sided: a driver
// whose control is its own cell is one-sided unless it is on an unguarded net that is pulled to the driver's disable
// value. `NetFacts` says when a net is guarded.
ghost use Rattle.std.specs.Prelude.{◌≡◌, ◌<◌, length, map, option_and_then, IfOk};
ghost use Rattle.board_defs.specs.BoardRules.{IsBoard};
ghost use Rattle.board_defs.specs.Decided.{is_switching, own_control, own_where, count_port_bits};
ghost use Rattle.board_defs.specs.Pins.{is_pinned};
ghost use Rattle.net_facts.specs.Facts.{net_facts_of};

use crate::facts::NetFacts;
use crate::switching::{is_marked, pulled_bits};
use board_defs::{Cell, Control, PinAt};
use net_pins::BoardPins;
use std::alloc::{AllocError, Global};
use std::marker::Model;

/// A board with the port bits whose pins are on unguarded nets with a pull. Its value in contracts is the board.
#[derive(Drop)]
pub struct PulledBoard<'a, 'b> {
    board: &'a BoardPins<'b>,
    /// A flag for each port bit of each part, which is true if the bit's pin is on an unguarded net that is pulled to
    /// 0.
    low: Vec<Vec<bool>>,
    /// A flag for each port bit of each part, which is true if the bit's pin is on an unguarded net that is pulled to
    /// 1.
    high: Vec<Vec<bool>>,
}

impl<'a, 'b> Model for PulledBoard<'a, 'b> {
    ghost use Rattle.std.specs.Prelude.{false, true};
    ghost use Rattle.board_defs.specs.declared.board.RawBoard.{RawBoard};
    ghost use Rattle.net_facts.specs.Cells.{table};
    ghost use Rattle.net_facts.specs.inner.Switching.{SaysPulled};

    ghost Value = { RawBoard };

    ghost view = { λ a. a.board.now };

    ghost invariant = { λ a. SaysPulled a.board.now (table a.low.items) false
        × SaysPulled a.board.now (table a.high.items) true };
}

fn own_of(cell: Cell) -> Option<Control>
    ensures { result ≡ own_where cell cell.ctl }
{
    match cell.ctl {
        None => None,
        Some(control) => {
            if control.cell == cell.num {
                Some(control)
            } else {
                None
            }
        }
    }
}

fn own_control(entry: Option<Cell>) -> Option<Control>
    ensures { result ≡ option_and_then (λ cell. own_where cell cell.ctl) entry }
{
    match entry {
        None => None,
        Some(cell) => own_of(cell),
    }
}

impl<'a, 'b> PulledBoard<'a, 'b> {
    /// Returns the board with the tables of port bits. `nets` must have the facts about the board's nets.
    pub fn of(
        alloc: Global,
        board: &'a BoardPins<'b>,
        nets: &[NetFacts],
    ) -> Result<PulledBoard<'a, 'b>, AllocError>
        requires { nets.now ≡ map (net_facts_of board.now) board.now.nets }
        ensures { IfOk result (λ pulled. pulled ≡ board.now) }
    {
        let chain = board.raw().chain.as_slice();
        let low = pulled_bits(alloc, chain, nets, false)?;
        let high = pulled_bits(alloc, chain, nets, true)?;
        Ok(PulledBoard { board, low, high })
    }

    /// States that the board meets the rules of boards (`IsBoard`). Does nothing.
    pub fn meets_rules(&self)
        ensures { IsBoard self.now }
    {
        let _rules = self.board.raw();
    }

    /// Returns the number of parts in the chain.
    pub fn parts(&self) -> usize
        ensures { result ≡ length self.now.chain }
    {
        self.board.raw().chain.len()
    }

    /// Returns the number of port bits of the part. A part without a description has none.
    pub fn port_bits(&self, part: u32) -> usize
        ensures { result ≡ count_port_bits self.now part }
    {
        match self.board.raw().device(part) {
            None => 0,
            Some(device) => device.bits.len(),
        }
    }

    /// Returns whether the chosen pin map assigns a pin to the port bit.
    pub fn is_pinned(&self, at: PinAt) -> bool
        ensures { result ≡ is_pinned self.now at }
    {
        self.board.raw().is_pinned(at)
    }

    /// Returns the control of the port bit's driving entry, if the control is the entry's own cell.
    pub fn own_control(&self, at: PinAt) -> Option<Control>
        ensures { result ≡ own_control self.now at }
    {
        own_control(self.board.driving_entry(at))
    }

    /// Returns whether the pin at `at` is on an unguarded net that is pulled to `value`. The part must have this port
    /// bit.
    pub fn is_switching(&self, at: PinAt, value: bool) -> bool
        requires { at.bit < count_port_bits self.now at.part }
        ensures { result ≡ is_switching self.now at value }
    {
        if value {
            is_marked(&self.high, at)
        } else {
            is_marked(&self.low, at)
        }
    }
}
