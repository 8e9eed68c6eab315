// A device as its BSDL description defines it.
ghost use Rattle.std.specs.Prelude.{◌≡◌, ◌==◌, ◌<◌, ◌^◌, length, slice_get, Some, IfOk};
ghost use Rattle.board_defs.specs.DeviceRules.{IsDevice};

use crate::name::Name;
use lists::Items;
use std::alloc::{AllocError, Global};
use std::marker::Model;

/// A symbol of a pattern: 0, 1, or X, which matches both bits.
#[derive(Clone, Copy, Debug, PartialEq, Eq)]
pub enum Symbol {
    Zero,
    One,
    Any,
}

/// A pattern of symbols: the code of an instruction, or an identification code. The first symbol is nearest TDO. A
/// pattern has fewer than 2^32 symbols.
#[derive(Debug, Drop)]
pub struct Code {
    symbols: Vec<Symbol>,
}

impl Model for Code {
    ghost use Rattle.std.specs.Prelude.{List, ◌<◌, ◌^◌, length};
    ghost use Rattle.board_defs.specs.declared.device.Symbol.{Symbol};

    ghost Value = { List Symbol };

    ghost view = { λ a. a.symbols.items };

    ghost invariant = { λ a. length a.symbols.items < 2 ^ 32 };
}

impl Code {
    /// Returns a code with a copy of these symbols. There must be fewer than 2^32 of them.
    pub fn of(alloc: Global, symbols: &[Symbol]) -> Result<Code, AllocError>
        requires { length symbols.now < 2 ^ 32 }
        ensures { IfOk result (λ code. code ≡ symbols.now) }
    {
        Ok(Code {
            symbols: symbols.to_vec(alloc)?,
        })
    }

    /// Returns a copy of the code. Fails only if memory runs out.
    pub fn copy(&self, alloc: Global) -> Result<Code, AllocError>
        ensures { IfOk result (λ code. code ≡ self.now) }
    {
        Code::of(alloc, self.symbols())
    }

    /// Returns the code with these symbols. Takes ownership of the vector. There must be fewer than 2^32 symbols.
    pub fn from_vec(symbols: Vec<Symbol>) -> Code
        requires { length symbols.items < 2 ^ 32 }
        ensures { result ≡ symbols.items }
    {
        Code { symbols }
    }

    /// Returns the symbols. The first one is nearest TDO.
    pub fn symbols(&self) -> &[Symbol]
        ensures value { result.now ≡ self.now }
        ensures short { length self.now < 2 ^ 32 }
    {
        &self.symbols
    }

    /// Returns the number of symbols, which is less than 2^32.
    pub fn len(&self) -> u32
        ensures { result ≡ length self.now }
    {
        self.symbols.len() as u32
    }

    /// Returns whether the code has no symbols.
    pub fn is_empty(&self) -> bool
        ensures { result ≡ (length self.now == 0) }
    {
        self.symbols.is_empty()
    }

    /// Returns symbol `i`, which must exist. Symbol 0 is nearest TDO.
    pub fn at(&self, i: u32) -> Symbol
        requires { i < length self.now }
        ensures { slice_get self.now i ≡ Some result }
    {
        self.symbols[i as usize]
    }
}

/// The mode of a port: in, out, inout, buffer or linkage.
#[derive(Clone, Copy, Debug)]
pub enum Mode {
    Inward,
    Outward,
    Both,
    Buffer,
    Linkage,
}

/// The function of an entry of the boundary register (IEEE 1149.1-2001, annex B).
#[derive(Clone, Copy, Debug)]
pub enum Role {
    Input,
    Output2,
    Output3,
    Control,
    ControlR,
    Internal,
    Clock,
    Bidir,
    ObserveOnly,
}

/// The edition of IEEE 1149.1 that a description follows. The 2001 edition splits the instruction SAMPLE/PRELOAD into
/// two, and no longer requires that the EXTEST code has only zeros.
#[derive(Clone, Copy, Debug)]
pub enum Edition {
    Old,
    Of2001,
}

/// The cell that enables and disables a driver: a control cell, or the driver's own cell. The cell disables
/// the driver at the value `disable`.
#[derive(Clone, Copy, Debug)]
pub struct Control {
    pub cell: u32,
    pub disable: bool,
}

/// An entry of the boundary register. A cell can have two entries: one for the value that the cell captures from its
/// pin, and one for the cell's update latch.
#[derive(Clone, Copy)]
pub struct Cell {
    /// The number of the boundary cell. Cell 0 is nearest TDO.
    pub num: u32,
    pub role: Role,
    /// The number of the entry's port bit in the device's list of port bits. Entries with the function CONTROL,
    /// CONTROLR or INTERNAL have none.
    pub bit: Option<u32>,
    /// The value that the designer wants in the cell while no test uses the cell.
    pub safe: Symbol,
    pub ctl: Option<Control>,
}

/// A bit of a port.
#[derive(Drop)]
pub struct PortBit {
    /// The number of the bit's port in the device's list of ports.
    pub port: u32,
    /// The bit's index in its vector, if the port is a vector.
    pub index: Option<u32>,
    pub mode: Mode,
    /// The pin that the chosen pin map assigns to the bit, if the map names the port.
    pub pin: Option<Name>,
    /// True if the port belongs to the test access port.
    pub tap: bool,
    /// True if the compliance patterns name the bit.
    pub compliance: bool,
}

/// A device as a plain record of what its description says.
#[derive(Drop)]
pub struct RawDevice {
    pub entity: Name,
    pub package: Name,
    pub edition: Edition,
    pub ports: Items<Name>,
    /// The length of the instruction register, from 2 to 255 bits.
    pub ir: u32,
    /// The code of the instruction that preloads the boundary register: SAMPLE/PRELOAD or PRELOAD.
    pub sample: Code,
    pub extest: Code,
    /// The pattern of the identification code, if the device has one.
    pub idcode: Option<Code>,
    /// The length of the boundary register, from 1 to 65,535 cells.
    pub boundary: u32,
    /// The port bits, in the order of the ports. The bits of a vector are in order from left to right.
    pub bits: Items<PortBit>,
    pub cells: Items<Cell>,
}

/// A device that keeps the rules of devices, which `IsDevice` defines.
#[derive(Drop)]
pub struct Device {
    raw: RawDevice,
}

impl Model for Device {
    ghost use Rattle.board_defs.specs.declared.device.RawDevice.{RawDevice};

    ghost Value = { RawDevice };

    ghost use Rattle.board_defs.specs.DeviceRules.{IsDevice};

    ghost view = { λ a. a.raw };

    ghost invariant = { λ a. IsDevice a.raw };
}

impl Device {
    /// Returns the device with this record, which must keep the rules of devices.
    pub fn new(raw: RawDevice) -> Device
        requires { IsDevice raw }
        ensures { result ≡ raw }
    {
        Device { raw }
    }

    /// Returns the record, which keeps the rules of devices.
    pub fn raw(&self) -> &RawDevice
        ensures value { result.now ≡ self.now }
        ensures rules { IsDevice self.now }
    {
        &self.raw
    }
}
