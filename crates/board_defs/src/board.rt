// A board: its chain and its nets, with functions that return facts about their pins.
ghost use Rattle.std.specs.Prelude.{◌≡◌, ◌<◌, length};
ghost use Rattle.board_defs.specs.BoardRules.{IsBoard};
ghost use Rattle.board_defs.specs.Pins.{instruction_bits, data_bits, net_name, drive_at, switches_at, receives_at, guarded_at, IsOnBoard};
ghost use Rattle.board_defs.specs.Settings.{same_ctl};

use crate::device::Device;
use crate::lengths::{data_bits, instruction_bits};
use crate::name::Name;
use lists::Items;
use std::marker::Model;

/// The kind of a part of the chain. A described part is a device. A part without a description has an instruction
/// register of known length, in bits, and stays in BYPASS.
#[derive(Drop)]
pub enum PartKind {
    Described(Device),
    Bypass(u32),
}

/// A part of the chain, with its name.
#[derive(Drop)]
pub struct Part {
    pub name: Name,
    pub kind: PartKind,
}

/// The place of a pin in the chain: the number of its part and the number of its port bit, both from 0.
#[derive(Clone, Copy)]
pub struct PinAt {
    pub part: u32,
    pub bit: u32,
}

/// A pin of a net.
#[derive(Drop)]
pub struct NetPin {
    pub part: Name,
    pub pin: Name,
    /// The place of the pin in the chain. Only pins of described parts have one.
    pub at: Option<PinAt>,
    /// True if the pin's part is inert. An inert part drives no net and connects no two nets.
    pub inert: bool,
}

/// A net, with the list of its pins.
#[derive(Drop)]
pub struct Net {
    pub name: Name,
    /// True if the net carries a supply, such as power or ground.
    pub supply: bool,
    /// The value to which a resistor pulls the net, or None if no resistor pulls it.
    pub pull: Option<bool>,
    pub pins: Items<NetPin>,
}

/// A board as a plain record: its chain, in the order from TDI to TDO, and its nets.
#[derive(Drop)]
pub struct RawBoard {
    pub chain: Items<Part>,
    pub nets: Items<Net>,
}

/// A reference to a pin: the number of its net and its place in that net, both from 0.
#[derive(Clone, Copy)]
pub struct PinRef {
    pub net: u32,
    pub place: u32,
}

/// A control: the number of a part in the chain and the number of a cell in that part's boundary register.
#[derive(Clone, Copy, PartialEq, Eq)]
pub struct Ctl {
    pub part: u32,
    pub cell: u32,
}

impl Ctl {
    /// Returns whether both values name the same cell of the same part.
    #[inline]
    pub fn is_same(self, other: Ctl) -> bool
        ensures { result ≡ same_ctl self other }
    {
        self.part == other.part && self.cell == other.cell
    }
}

/// The way in which a driver is enabled.
#[derive(Clone, Copy, PartialEq, Eq)]
pub enum Drive {
    AlwaysOn,
    /// The driver's own cell enables it, and the net is guarded or is not pulled to the cell's disable value.
    /// No safe setting enables such a driver.
    OneSided,
    /// The control enables the driver: a control cell, or the driver's own cell. The second case needs an unguarded net
    /// that is pulled to the cell's disable value: the pull then gives the bit while the driver is off.
    By(Ctl),
}

/// A board that keeps the rules of boards, which `IsBoard` defines.
#[derive(Drop)]
pub struct Board {
    raw: RawBoard,
}

impl Model for Board {
    ghost use Rattle.board_defs.specs.declared.board.RawBoard.{RawBoard};

    ghost Value = { RawBoard };

    ghost use Rattle.board_defs.specs.BoardRules.{IsBoard};

    ghost view = { λ a. a.raw };

    ghost invariant = { λ a. IsBoard a.raw };
}

impl Board {
    /// Returns the board with this record, which must keep the rules of boards.
    pub fn new(raw: RawBoard) -> Board
        requires { IsBoard raw }
        ensures { result ≡ raw }
    {
        Board { raw }
    }

    /// Returns the record, which keeps the rules of boards.
    pub fn raw(&self) -> &RawBoard
        ensures value { result.now ≡ self.now }
        ensures rules { IsBoard self.now }
    {
        &self.raw
    }

    /// Returns the length of an instruction scan of the whole chain, in bits.
    pub fn ir_bits(&self) -> u32
        ensures { result ≡ instruction_bits self.now }
    {
        instruction_bits(self.raw().chain.as_slice())
    }

    /// Returns the length of a data scan of the whole chain, in bits. A described part counts with its boundary
    /// register, and any other part with its bypass register.
    pub fn dr_bits(&self) -> u32
        ensures { result ≡ data_bits self.now }
    {
        data_bits(self.raw().chain.as_slice())
    }

    /// Returns the name of the net, or an empty name if the board has no net with this number.
    pub fn net_name(&self, net: u32) -> &[u8]
        ensures { result.now ≡ net_name self.now net }
    {
        match self.raw().nets.as_slice().get(net as usize) {
            None => &[],
            Some(found) => found.name.bytes(),
        }
    }

    /// Returns whether the net is guarded: it carries a supply, or has a pin of a test access port, a pin that
    /// compliance patterns name, or a dark pin. If a pin is dark, something that no setting controls may drive its net.
    /// On a guarded net, only drivers that are always on may be enabled. The board must have a net with this number.
    pub fn is_guarded(&self, net: u32) -> bool
        requires { net < length self.now.nets }
        ensures { result ≡ guarded_at self.now net }
    {
        let raw = self.raw();
        raw.is_guarded(&raw.nets.as_slice()[net as usize])
    }

    /// Returns how the pin's driver is enabled, or None if the pin is not a driver. The pin must be on the board.
    pub fn drive(&self, pin: PinRef) -> Option<Drive>
        requires { IsOnBoard self.now pin }
        ensures { result ≡ drive_at self.now pin }
    {
        self.raw().drive_at(pin)
    }

    /// Returns whether the pin is a switching driver: its own cell enables it, and its net is unguarded and is pulled
    /// to the cell's disable value. The pin must be on the board.
    pub fn switches(&self, pin: PinRef) -> bool
        requires { IsOnBoard self.now pin }
        ensures { result ≡ switches_at self.now pin }
    {
        self.raw().switches_at(pin)
    }

    /// Returns whether the pin is a receiver: its port bit has mode in or inout, and an INPUT, CLOCK or BIDIR entry.
    /// The pin must be on the board.
    pub fn receives(&self, pin: PinRef) -> bool
        requires { IsOnBoard self.now pin }
        ensures { result ≡ receives_at self.now pin }
    {
        self.raw().receives_at(pin)
    }
}
