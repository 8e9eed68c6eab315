// The facts about a board from which `pair_rows` makes its rows of bits.
ghost use Rattle.std.specs.Prelude.{◌≡◌, true, is_some, length, map, slice_get, IfOk};
ghost use Rattle.board_defs.specs.declared.board.Ctl.{Ctl};
ghost use Rattle.board_defs.specs.declared.board.RawBoard.{RawBoard};
ghost use Rattle.board_defs.specs.Decided.{is_by};
ghost use Rattle.board_defs.specs.Passes.{useful_controls};
ghost use Rattle.board_defs.specs.Pins.{IsCell};
ghost use Rattle.net_classes.specs.inner.Known.{IsKnown, driven_in, pins_there};
ghost use Rattle.net_classes.specs.Pairs.{drivers_at};
ghost use Rattle.net_facts.specs.Cells.{item_of_cell, table};
ghost use Rattle.net_facts.specs.Kept.{AreBoardFacts, net_class_of, shared_nets};

use board_defs::{Board, Ctl, Drive};
use net_facts::{BoardFacts, NetClass, NetNumbers, PinFacts};
use std::alloc::{AllocError, Global};
use std::marker::Model;

/// A board with the facts about its nets and controls, and the first tested driver of each net. Its value in contracts
/// is the board with the table of its controls.
#[derive(Drop)]
pub struct Known<'a> {
    board: &'a Board,
    facts: &'a BoardFacts,
    firsts: Vec<Option<Drive>>,
}

impl<'a> Model for Known<'a> {
    ghost use Rattle.std.specs.Prelude.{◌≡◌, map, slice_get};
    ghost use Rattle.net_classes.specs.inner.Known.{KnownBoard, known_board};
    ghost use Rattle.net_facts.specs.Cells.{table};
    ghost use Rattle.net_facts.specs.Kept.{AreBoardFacts};

    ghost Value = { KnownBoard };

    ghost view = { λ a. known_board a.board.now (table a.facts.now.controls.items) };

    ghost invariant = { λ a. AreBoardFacts a.board.now a.facts.now
        × (a.firsts.items ≡ map (λ net. slice_get net.drivers 0) a.facts.now.nets.items) };
}

/// Returns whether there is a driver that is neither always on nor one-sided, and control `c` enables it.
pub fn is_by(c: Ctl, drive: Option<Drive>) -> bool
    ensures { result ≡ is_by c drive }
{
    match drive {
        Some(Drive::By(d)) => d.part == c.part && d.cell == c.cell,
        _ => false,
    }
}

/// Returns the first tested driver of each net.
fn first_drivers(alloc: Global, nets: &[NetClass]) -> Result<Vec<Option<Drive>>, AllocError>
    ensures { IfOk result (λ firsts. firsts.items ≡ map (λ net. slice_get net.drivers 0) nets.now) }
{
    let mut firsts = Vec::new(alloc);
    for net in nets {
        firsts.push(net.drivers.as_slice().first().copied())?;
    }
    Ok(firsts)
}

/// Returns how the tested drivers of the net are enabled. There are none if no net has this number.
pub fn drivers_in(nets: &[NetClass], net: usize) -> &[Drive]
    ensures { (board : RawBoard) → nets.now ≡ map (net_class_of board) board.nets →
        result.now ≡ drivers_at board net }
{
    match nets.get(net) {
        None => &[],
        Some(class) => class.drivers.as_slice(),
    }
}

impl<'a> Known<'a> {
    /// Returns the board with these facts, which must be the board's own.
    pub fn of(
        alloc: Global,
        board: &'a Board,
        facts: &'a BoardFacts,
    ) -> Result<Known<'a>, AllocError>
        requires { AreBoardFacts board.now facts.now }
        ensures { IfOk result (λ known. known.board ≡ board.now) }
    {
        let firsts = first_drivers(alloc, &facts.nets)?;
        Ok(Known {
            board,
            facts,
            firsts,
        })
    }

    /// Does nothing. Its contract says that the board meets the rules of boards, and that the table has the class of
    /// each control.
    pub fn laws(&self)
        ensures { IsKnown self.now }
    {
        let _rules = self.board.raw();
    }

    /// Returns the number of nets of the board.
    pub fn net_count(&self) -> u32
        ensures { result ≡ length self.now.board.nets }
    {
        self.board.raw().nets.len() as u32
    }

    /// Returns a table with an item for each boundary cell of the board. The contract says nothing about the items, so
    /// a caller can use the table only as a pattern for a table of the same size.
    pub fn cells(&self) -> &[Vec<NetNumbers>]
        ensures { (c : Ctl) → IsCell self.now.board c
            → is_some (item_of_cell (table result.now) c) ≡ true }
    {
        &self.facts.shared
    }

    /// Returns the useful controls, in control order. A control is useful if it is safe alone and enables a
    /// tested driver.
    pub fn useful(&self) -> &[Ctl]
        ensures { result.now ≡ useful_controls self.now.board }
    {
        &self.facts.useful
    }

    /// Returns how the tested drivers of the net are enabled. There are none if no net has this number.
    pub fn drivers(&self, net: u32) -> &[Drive]
        ensures { result.now ≡ drivers_at self.now.board net }
    {
        drivers_in(&self.facts.nets, net as usize)
    }

    /// Returns the facts about the pins of the net. There are none if no net has this number.
    pub fn pins(&self, net: u32) -> &[PinFacts]
        ensures { result.now ≡ pins_there self.now.board (slice_get self.now.board.nets net) }
    {
        match self.facts.facts.get(net as usize) {
            None => &[],
            Some(facts) => facts.pins.as_slice(),
        }
    }

    /// Returns the numbers of the nets with a driver of the control. There are none if the table has no such control.
    pub fn driven(&self, c: Ctl) -> &[u32]
        ensures { result.now ≡ driven_in self.now c }
    {
        match self.facts.controls.get(c.part as usize) {
            None => &[],
            Some(row) => match row.get(c.cell as usize) {
                None => &[],
                Some(class) => class.nets.as_slice(),
            },
        }
    }

    /// Returns the numbers of the nets that the control shares with another control. The control must be a boundary
    /// cell of the board.
    pub fn shared(&self, c: Ctl) -> &[u32]
        requires { IsCell self.now.board c }
        ensures { result.now ≡ shared_nets self.now.board c }
    {
        self.facts.shared[c.part as usize][c.cell as usize].as_slice()
    }

    /// Returns whether the control enables the net's first tested driver. Returns false if the net has no tested driver
    /// or if no net has this number.
    pub fn is_first(&self, c: Ctl, net: u32) -> bool
        ensures { result ≡ is_by c (slice_get (drivers_at self.now.board net) 0) }
    {
        match self.firsts.get(net as usize) {
            None => false,
            Some(first) => is_by(c, *first),
        }
    }
}
