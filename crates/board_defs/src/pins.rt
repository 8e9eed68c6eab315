// Functions that return facts about the pins of a board or a device. They take the plain records.
ghost use Rattle.std.specs.Prelude.{◌≡◌, ◌≤◌, ◌^◌, ◌<◌, ◌&&◌, option_copied, option_and_then, length, slice_get};
ghost use Rattle.std.specs.List.{list_any};
ghost use Rattle.board_defs.specs.DeviceRules.{is_driving, is_reading, is_receiving, is_writing, is_loading, is_controlling, is_inner, may_receive, may_drive, is_linkage, bit_of, is_on, drives_bit, reads_bit, driving_entry};
ghost use Rattle.board_defs.specs.BoardRules.{IsBoard};
ghost use Rattle.board_defs.specs.Pins.{described, instruction_length, data_length, instruction_bits, data_bits, device_at, entry_at, bit_at, is_pinned, is_test_bit, is_test_pin, is_dark_bit, is_dark_in, is_dark, guards, guarded, is_pulled_to, lets_switch, drive_by, drive, switches_by, switches_entry, switches, receives_bit, receives_in, receives, drive_at, switches_at, receives_at};

use crate::board::{Ctl, Drive, Net, NetPin, Part, PartKind, PinAt, PinRef, RawBoard};
use crate::device::{Cell, Control, Mode, PortBit, RawDevice, Role, Symbol};

impl Role {
    /// Returns whether an entry with this function drives its port: OUTPUT2, OUTPUT3 or BIDIR.
    pub fn is_driving(self) -> bool
        ensures { result ≡ is_driving self }
    {
        matches!(self, Role::Output2 | Role::Output3 | Role::Bidir)
    }

    /// Returns whether an entry with this function reads its port: INPUT, CLOCK, OBSERVE_ONLY or BIDIR.
    pub fn is_reading(self) -> bool
        ensures { result ≡ is_reading self }
    {
        matches!(
            self,
            Role::Input | Role::Clock | Role::ObserveOnly | Role::Bidir
        )
    }

    /// Returns whether an entry with this function can make its pin a receiver: INPUT, CLOCK or BIDIR.
    pub fn is_receiving(self) -> bool
        ensures { result ≡ is_receiving self }
    {
        matches!(self, Role::Input | Role::Clock | Role::Bidir)
    }

    /// Returns whether an entry with this function is for its cell's update latch: OUTPUT2, OUTPUT3, BIDIR, CONTROL,
    /// CONTROLR or INTERNAL.
    pub fn is_writing(self) -> bool
        ensures { result ≡ is_writing self }
    {
        self.is_driving() || self.is_inner()
    }

    /// Returns whether an entry with this function defines what its cell captures: a reading function, or INTERNAL.
    pub fn is_loading(self) -> bool
        ensures { result ≡ is_loading self }
    {
        self.is_reading() || matches!(self, Role::Internal)
    }

    /// Returns whether an entry with this function makes its cell a control cell: CONTROL or CONTROLR.
    pub fn is_controlling(self) -> bool
        ensures { result ≡ is_controlling self }
    {
        matches!(self, Role::Control | Role::ControlR)
    }

    /// Returns whether an entry with this function has no port: CONTROL, CONTROLR or INTERNAL.
    pub fn is_inner(self) -> bool
        ensures { result ≡ is_inner self }
    {
        matches!(self, Role::Control | Role::ControlR | Role::Internal)
    }
}

impl Mode {
    /// Returns whether the part can receive from a pin of this mode: in or inout.
    pub fn may_receive(self) -> bool
        ensures { result ≡ may_receive self }
    {
        matches!(self, Mode::Inward | Mode::Both)
    }

    /// Returns whether the part can drive a pin of this mode: out, inout or buffer.
    pub fn may_drive(self) -> bool
        ensures { result ≡ may_drive self }
    {
        matches!(self, Mode::Outward | Mode::Both | Mode::Buffer)
    }

    /// Returns whether the mode is linkage: power, ground or another connection that is not digital.
    pub fn is_linkage(self) -> bool
        ensures { result ≡ is_linkage self }
    {
        matches!(self, Mode::Linkage)
    }
}

impl Symbol {
    /// Returns the bit of the symbol. X counts as 0.
    pub fn bit(self) -> bool
        ensures { result ≡ bit_of self }
    {
        matches!(self, Symbol::One)
    }
}

impl Cell {
    /// Returns whether the entry belongs to port bit `bit`.
    pub fn is_on(&self, bit: u32) -> bool
        ensures { result ≡ is_on bit self.now.bit }
    {
        match self.bit {
            Some(b) => b == bit,
            None => false,
        }
    }

    fn drives(&self, bit: u32) -> bool
        ensures { result ≡ drives_bit bit self.now }
    {
        self.is_on(bit) && self.role.is_driving()
    }

    fn reads(&self, bit: u32) -> bool
        ensures { result ≡ reads_bit bit self.now }
    {
        self.is_on(bit) && self.role.is_receiving()
    }
}

impl RawDevice {
    /// Returns the driving entry of a port bit, or None if the port bit has no driving entry.
    pub fn driving_entry(&self, bit: u32) -> Option<Cell>
        ensures { result ≡ driving_entry self.now bit }
    {
        self.cells
            .as_slice()
            .iter()
            .copied()
            .find(|cell| cell.drives(bit))
    }

    fn has_entry(&self, bit: u32) -> bool
        ensures { result ≡ list_any (λ cell. is_on bit cell.bit) self.now.cells }
    {
        self.cells.as_slice().iter().any(|cell| cell.is_on(bit))
    }

    fn has_driving_entry(&self, bit: u32) -> bool
        ensures { result ≡ list_any (drives_bit bit) self.now.cells }
    {
        self.cells.as_slice().iter().any(|cell| cell.drives(bit))
    }

    fn has_receiving_entry(&self, bit: u32) -> bool
        ensures { result ≡ list_any (reads_bit bit) self.now.cells }
    {
        self.cells.as_slice().iter().any(|cell| cell.reads(bit))
    }

    fn port_bit(&self, bit: u32) -> Option<&PortBit>
        ensures { option_copied result ≡ slice_get self.now.bits bit }
    {
        self.bits.as_slice().get(bit as usize)
    }

    fn is_dark(&self, n: u32) -> bool
        ensures { result ≡ is_dark_bit self.now n (slice_get self.now.bits n) }
    {
        let any = self.has_entry(n);
        let driven = self.has_driving_entry(n);
        match self.port_bit(n) {
            None => true,
            Some(bit) => {
                if bit.tap {
                    false
                } else if bit.mode.is_linkage() {
                    true
                } else if any {
                    bit.mode.may_drive() && !driven
                } else {
                    true
                }
            }
        }
    }

    fn receives(&self, n: u32) -> bool
        ensures { result ≡ receives_bit self.now n (slice_get self.now.bits n) }
    {
        match self.port_bit(n) {
            None => false,
            Some(bit) => bit.mode.may_receive() && self.has_receiving_entry(n),
        }
    }
}

impl PartKind {
    /// Returns the part's device, or None if the part is not described.
    pub fn device(&self) -> Option<&RawDevice>
        ensures { option_copied result ≡ described self.now }
    {
        match self {
            PartKind::Described(device) => Some(device.raw()),
            PartKind::Bypass(_) => None,
        }
    }
}

impl RawBoard {
    /// Returns the device of part `part`, or None if the chain has no such part or the part is not described.
    pub fn device(&self, part: u32) -> Option<&RawDevice>
        ensures { option_copied result ≡ device_at self.now part }
    {
        match self.chain.as_slice().get(part as usize) {
            Some(part) => part.kind.device(),
            None => None,
        }
    }

    /// Returns the driving entry of the port bit at `at`, if there is one.
    pub fn driving_entry(&self, at: PinAt) -> Option<Cell>
        ensures { result ≡ entry_at self.now at }
    {
        match self.device(at.part) {
            Some(device) => device.driving_entry(at.bit),
            None => None,
        }
    }

    /// Returns the port bit at `at`. Returns None if the chain has no such part, the part is not described, or the
    /// device has no such bit.
    pub fn port_bit(&self, at: PinAt) -> Option<&PortBit>
        ensures { option_copied result ≡ bit_at self.now at }
    {
        match self.device(at.part) {
            Some(device) => device.port_bit(at.bit),
            None => None,
        }
    }

    /// Returns whether there is a port bit at `at` and the chosen pin map assigns a pin to it.
    pub fn is_pinned(&self, at: PinAt) -> bool
        ensures { result ≡ is_pinned self.now at }
    {
        match self.port_bit(at) {
            Some(bit) => bit.pin.is_some(),
            None => false,
        }
    }

    /// Returns whether the pin belongs to a test access port or is named by compliance patterns.
    fn is_test_pin(&self, pin: &NetPin) -> bool
        ensures { result ≡ is_test_pin self.now pin.now }
    {
        match pin.at {
            None => false,
            Some(at) => match self.port_bit(at) {
                Some(bit) => bit.tap || bit.compliance,
                None => false,
            },
        }
    }

    /// Returns whether one of the pins belongs to a test access port or is named by compliance patterns.
    pub fn any_test_pin(&self, pins: &[NetPin]) -> bool
        ensures { result ≡ list_any (is_test_pin self.now) pins.now }
    {
        pins.iter().any(|pin| self.is_test_pin(pin))
    }

    /// Returns whether the pin is dark: something that no setting controls may drive its net.
    pub fn is_dark(&self, pin: &NetPin) -> bool
        ensures { result ≡ is_dark self.now pin.now }
    {
        match pin.at {
            None => !pin.inert,
            Some(at) => match self.device(at.part) {
                Some(device) => device.is_dark(at.bit),
                None => true,
            },
        }
    }

    fn guards(&self, pin: &NetPin) -> bool
        ensures { result ≡ guards self.now pin.now }
    {
        self.is_test_pin(pin) || self.is_dark(pin)
    }

    fn any_guards(&self, pins: &[NetPin]) -> bool
        ensures { result ≡ list_any (guards self.now) pins.now }
    {
        pins.iter().any(|pin| self.guards(pin))
    }

    /// Returns whether the net is guarded: it carries a supply, or has a pin of a test access port, a pin that
    /// compliance patterns name, or a dark pin. On a guarded net, only drivers that are always on may be enabled.
    pub fn is_guarded(&self, net: &Net) -> bool
        ensures { result ≡ guarded self.now net.now }
    {
        if net.supply {
            true
        } else {
            self.any_guards(net.pins.as_slice())
        }
    }

    fn lets_switch(&self, net: &Net, value: bool) -> bool
        ensures { result ≡ lets_switch self.now net.now value }
    {
        !self.is_guarded(net) && is_pull(value, net.pull)
    }

    fn drive_by(&self, net: &Net, part: u32, cell: Cell) -> Drive
        ensures { result ≡ drive_by self.now net.now part cell cell.ctl }
    {
        match cell.ctl {
            None => Drive::AlwaysOn,
            Some(control) => {
                let by = Drive::By(Ctl {
                    part,
                    cell: control.cell,
                });
                if control.cell == cell.num {
                    if self.lets_switch(net, control.disable) {
                        by
                    } else {
                        Drive::OneSided
                    }
                } else {
                    by
                }
            }
        }
    }

    /// Returns how the pin's driver on `net` is enabled, or None if the pin is not a driver.
    pub fn drive(&self, net: &Net, pin: &NetPin) -> Option<Drive>
        ensures { result ≡ drive self.now net.now pin.now }
    {
        match pin.at {
            None => None,
            Some(at) => match self.driving_entry(at) {
                None => None,
                Some(cell) => Some(self.drive_by(net, at.part, cell)),
            },
        }
    }

    fn switches_by(&self, net: &Net, cell: Cell) -> bool
        ensures { result ≡ switches_by self.now net.now cell cell.ctl }
    {
        match cell.ctl {
            None => false,
            Some(control) => { control.cell == cell.num && self.lets_switch(net, control.disable) }
        }
    }

    /// Returns whether the pin is a switching driver of the net: its own cell enables it, and the net is unguarded and
    /// is pulled to the cell's disable value.
    pub fn switches(&self, net: &Net, pin: &NetPin) -> bool
        ensures { result ≡ switches self.now net.now pin.now }
    {
        match pin.at {
            None => false,
            Some(at) => match self.driving_entry(at) {
                None => false,
                Some(cell) => self.switches_by(net, cell),
            },
        }
    }

    /// Returns whether the pin is a receiver: its port bit has mode in or inout, and an INPUT, CLOCK or BIDIR entry.
    pub fn receives(&self, pin: &NetPin) -> bool
        ensures { result ≡ receives self.now pin.now }
    {
        match pin.at {
            None => false,
            Some(at) => match self.device(at.part) {
                Some(device) => device.receives(at.bit),
                None => false,
            },
        }
    }

    pub(crate) fn drive_at(&self, pin: PinRef) -> Option<Drive>
        ensures { result ≡ drive_at self.now pin }
    {
        match self.nets.as_slice().get(pin.net as usize) {
            None => None,
            Some(net) => match net.pins.as_slice().get(pin.place as usize) {
                None => None,
                Some(pin) => self.drive(net, pin),
            },
        }
    }

    pub(crate) fn switches_at(&self, pin: PinRef) -> bool
        ensures { result ≡ switches_at self.now pin }
    {
        match self.nets.as_slice().get(pin.net as usize) {
            None => false,
            Some(net) => match net.pins.as_slice().get(pin.place as usize) {
                None => false,
                Some(pin) => self.switches(net, pin),
            },
        }
    }

    pub(crate) fn receives_at(&self, pin: PinRef) -> bool
        ensures { result ≡ receives_at self.now pin }
    {
        match self.nets.as_slice().get(pin.net as usize) {
            None => false,
            Some(net) => match net.pins.as_slice().get(pin.place as usize) {
                None => false,
                Some(pin) => self.receives(pin),
            },
        }
    }
}

fn is_pull(value: bool, pull: Option<bool>) -> bool
    ensures { result ≡ is_pulled_to value pull }
{
    match pull {
        None => false,
        Some(b) => value == b,
    }
}
