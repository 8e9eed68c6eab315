// The cells that drive and read each net. A compared cell is a boundary cell that has an INPUT, CLOCK or
// BIDIR entry for the port bit of a receiver. A test compares the bit that such a cell captures. A net is
// guarded if it carries a supply, or has a pin of a test access port, a pin that compliance patterns name, or
// a dark pin.
ghost use Rattle.std.specs.Prelude.{◌≡◌, ◌<◌, ◌≤◌, ◌++◌, length, map, filter, Some, IfOk, OnOk, All};
ghost use Rattle.board_defs.specs.Limits.{most_pins};
ghost use Rattle.board_defs.specs.DeviceRules.{is_receiving};
ghost use Rattle.board_defs.specs.Pins.{device_at, bit_at, cell_count, guarded};
ghost use Rattle.board_defs.specs.Settings.{holds};
ghost use Rattle.net_pins.specs.NetCells.{net_driver, driver_of, drivers_of_pins, drivers_of, reader_cell, readers_at, readers_of};
ghost use Rattle.net_pins.specs.Enabled.{is_driver_on, is_read_beside};
ghost use Rattle.net_pins.specs.inner.Receiving.{receives_by};

use crate::board_pins::BoardPins;
use board_defs::{Cell, Ctl, Items, Net, NetPin, PinAt, RawBoard, Setting};
use lists::push_some;
use std::alloc::{AllocError, Global};

/// A driver of a net: the place of its pin in the net, its control if it has one, the cell of its driving entry
/// (`own`), and the position of this cell in data scans.
#[derive(Clone, Copy)]
pub struct NetDriver {
    pub place: u32,
    pub ctl: Option<Ctl>,
    pub own: Ctl,
    pub position: u32,
}

impl NetDriver {
    /// Returns whether the setting enables the driver. A driver without a control is always on.
    #[inline]
    pub fn is_on(&self, setting: &Setting) -> bool
        ensures { result ≡ is_driver_on (holds setting.now) self.now.ctl }
    {
        match self.ctl {
            None => true,
            Some(c) => setting.has(c),
        }
    }

    /// Returns whether at least one of these cells reads a pin of the net other than the driver's.
    #[inline]
    pub fn is_read_beside(&self, readers: &[ReaderCell]) -> bool
        ensures { result ≡ is_read_beside readers.now self.now }
    {
        let place = self.place;
        readers.iter().any(|r| r.place != place)
    }
}

/// A compared cell of a net: the place of its pin in the net, and the position of the cell in data scans.
#[derive(Clone, Copy)]
pub struct ReaderCell {
    pub place: u32,
    pub position: u32,
}

// Returns the driver on the pin at `place` whose driving entry is this entry of part `part`. The part must have the
// entry's cell.
fn net_driver(board: &BoardPins<'_>, part: u32, place: u32, cell: Cell) -> NetDriver
    requires { cell.num < cell_count (device_at board.now part) }
    ensures { result ≡ net_driver board.now part place cell }
{
    NetDriver {
        place,
        ctl: cell.ctl.map(|control| Ctl {
            part,
            cell: control.cell,
        }),
        own: Ctl {
            part,
            cell: cell.num,
        },
        position: board.position(part, cell.num),
    }
}

// Returns the driver on the pin, if the pin is a driver.
fn driver_of(board: &BoardPins<'_>, place: u32, at: Option<PinAt>) -> Option<NetDriver>
    ensures { result ≡ driver_of board.now place at }
{
    let _ = board.raw();
    match at {
        None => None,
        Some(at) => match board.driving_entry(at) {
            None => None,
            Some(cell) => Some(net_driver(board, at.part, place, cell)),
        },
    }
}

// Returns the drivers of a net with these pins, in pin order. There must be at most 65,535 pins.
fn drivers_of_pins(
    alloc: Global,
    board: &BoardPins<'_>,
    pins: &[NetPin],
) -> Result<Items<NetDriver>, AllocError>
    requires { length pins.now ≤ most_pins }
    ensures { IfOk result (λ drivers. drivers ≡ drivers_of_pins board.now pins.now) }
{
    let mut drivers = Vec::new(alloc);
    for place in 0..pins.len() {
        push_some(&mut drivers, driver_of(board, place as u32, pins[place].at))?;
    }
    Ok(Items::of(drivers))
}

/// Returns the drivers of a net, in pin order, or no drivers if the net is guarded. `is_guarded` must say whether the
/// net is guarded. The net must have at most 65,535 pins.
pub fn drivers_of(
    alloc: Global,
    board: &BoardPins<'_>,
    is_guarded: bool,
    net: &Net,
) -> Result<Items<NetDriver>, AllocError>
    requires guards { is_guarded ≡ guarded board.now net.now }
    requires few { length net.now.pins ≤ most_pins }
    ensures { IfOk result (λ drivers. drivers ≡ drivers_of board.now net.now) }
{
    if is_guarded {
        return Ok(Items::of(Vec::new(alloc)));
    }
    drivers_of_pins(alloc, board, net.pins.as_slice())
}

// Appends a compared cell for each INPUT, CLOCK and BIDIR entry among these entries of a port bit. `place` is the place
// of the port bit's pin in its net. The part must have the entries' cells.
fn push_readers(
    board: &BoardPins<'_>,
    part: u32,
    place: u32,
    entries: &[Cell],
    readers: &mut Vec<ReaderCell>,
) -> Result<(), AllocError>
    requires { All (λ cell. cell.num < cell_count (device_at board.now part)) entries.now }
    ensures { OnOk result
        (readers.new.items
        ≡ readers.old.items
        ++ map (reader_cell board.now part place)
        (filter (λ cell. is_receiving cell.role) entries.now)) }
{
    for cell in entries {
        if cell.role.is_receiving() {
            let position = board.position(part, cell.num);
            readers.push(ReaderCell { place, position })?;
        }
    }
    Ok(())
}

// Returns whether the mode of the port bit lets the part receive from it. Returns false if there is no such
// port bit.
fn may_receive(raw: &RawBoard, at: PinAt) -> bool
    ensures { result ≡ receives_by (bit_at raw.now at) }
{
    match raw.port_bit(at) {
        None => false,
        Some(bit) => bit.mode.may_receive(),
    }
}

// Appends the compared cells of the pin at `at` if the pin is a receiver.
fn push_at(
    board: &BoardPins<'_>,
    place: u32,
    at: PinAt,
    readers: &mut Vec<ReaderCell>,
) -> Result<(), AllocError>
    ensures { OnOk result
        (readers.new.items ≡ readers.old.items ++ readers_at board.now place (Some at)) }
{
    if may_receive(board.raw(), at) {
        push_readers(board, at.part, place, board.entries(at), readers)
    } else {
        Ok(())
    }
}

// Appends the compared cells of the pin if it is a receiver.
fn push_pin(
    board: &BoardPins<'_>,
    place: u32,
    pin: &NetPin,
    readers: &mut Vec<ReaderCell>,
) -> Result<(), AllocError>
    ensures { OnOk result
        (readers.new.items ≡ readers.old.items ++ readers_at board.now place pin.now.at) }
{
    match pin.at {
        None => Ok(()),
        Some(at) => push_at(board, place, at, readers),
    }
}

/// Returns the compared cells of a net with these pins, in pin order. There must be at most 65,535 pins.
pub fn readers_of(
    alloc: Global,
    board: &BoardPins<'_>,
    pins: &[NetPin],
) -> Result<Items<ReaderCell>, AllocError>
    requires { length pins.now ≤ most_pins }
    ensures { IfOk result (λ readers. readers ≡ readers_of board.now pins.now) }
{
    let mut readers = Vec::new(alloc);
    for place in 0..pins.len() {
        push_pin(board, place as u32, &pins[place], &mut readers)?;
    }
    Ok(Items::of(readers))
}
