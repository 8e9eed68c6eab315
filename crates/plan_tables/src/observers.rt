// Finds the drivers by which nets can be observed.
ghost use Rattle.std.specs.Prelude.{◌≡◌, ◌++◌, option_map, IfOk, OnOk, All};
ghost use Rattle.net_pins.specs.Tables.{AreNetTables};
ghost use Rattle.plan_tables.specs.Tables.{control_position};
ghost use Rattle.plan_tables.specs.inner.Building.{IsControlThere, observer, observers_of, observers};

use crate::placed::PlacedBoard;
use crate::tables::DriverCell;
use board_defs::{Ctl, Items};
use net_pins::{NetDriver, NetTables, ReaderCell, cell_position};
use std::alloc::{AllocError, Global};

/// A driver by which its net can be observed, because another pin of the net has a compared cell. `control` is the
/// position of the driver's control cell, if the driver has a control. `cell` is the driver's own cell.
#[derive(Clone, Copy)]
pub struct Observer {
    pub control: Option<u32>,
    pub cell: DriverCell,
}

fn control_position(placed: &PlacedBoard, ctl: Option<Ctl>) -> Option<u32>
    requires { IsControlThere placed.now.board.now ctl }
    ensures { result ≡ option_map (control_position placed.now.board.now) ctl }
{
    match ctl {
        None => None,
        Some(c) => Some(cell_position(placed.board, placed.firsts, c.part, c.cell)),
    }
}

fn as_observer(placed: &PlacedBoard, net: u32, driver: NetDriver) -> Observer
    requires { IsControlThere placed.now.board.now driver.ctl }
    ensures { result ≡ observer placed.now.board.now net driver }
{
    Observer {
        control: control_position(placed, driver.ctl),
        cell: DriverCell {
            net,
            place: driver.place,
            position: driver.position,
        },
    }
}

// Appends each of these drivers of net `net` as an observer, if some cell in `readers` reads a pin of the net other
// than the driver's pin. The control of each driver, if it has one, must be a cell of its part.
fn push_observers(
    placed: &PlacedBoard,
    net: u32,
    drivers: &[NetDriver],
    readers: &[ReaderCell],
    observers: &mut Vec<Observer>,
) -> Result<(), AllocError>
    requires { All (λ d. IsControlThere placed.now.board.now d.ctl) drivers.now }
    ensures { OnOk result
        (observers.new.items
        ≡ observers.old.items ++ observers_of placed.now.board.now net drivers.now readers.now) }
{
    for driver in drivers {
        if driver.is_read_beside(readers) {
            observers.push(as_observer(placed, net, *driver))?;
        }
    }
    Ok(())
}

/// Returns the drivers by which the nets of a board can be observed, in net order. A guarded net has no such driver.
/// `nets` must be the tables of the board's nets.
pub fn observers_of_nets(
    alloc: Global,
    placed: &PlacedBoard,
    nets: &NetTables,
) -> Result<Items<Observer>, AllocError>
    requires { AreNetTables placed.now.board.now nets.now }
    ensures { IfOk result
        (λ found. found ≡ observers placed.now.board.now placed.now.board.now.nets) }
{
    let count = placed.board.raw().nets.len() as u32;
    let mut observers = Vec::new(alloc);
    for n in 0..count {
        push_observers(placed, n, nets.drivers(n), nets.readers(n), &mut observers)?;
    }
    Ok(Items::of(observers))
}
