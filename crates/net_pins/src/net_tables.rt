// The drivers and the compared cells of each net, and questions about them. A net is guarded if it carries a
// supply, or has a pin of a test access port, a pin that compliance patterns name, or a dark pin.
ghost use Rattle.std.specs.Prelude.{◌≡◌, [], if◌then◌else◌, Some, None, slice_index_or, IfOk};
ghost use Rattle.board_defs.specs.Settings.{holds};
ghost use Rattle.net_pins.specs.Enabled.{drivers_on, enabled_in, enabled_on, is_read_beside, observer_on, readers_on};
ghost use Rattle.net_pins.specs.Tables.{AreNetTables};

use crate::board_pins::BoardPins;
use crate::drivers::all_drivers;
use crate::nets::{NetDriver, ReaderCell};
use crate::readers::all_readers;
use board_defs::{Items, Setting};
use std::alloc::{AllocError, Global};

/// The drivers and the compared cells of each net of a board. The tables leave out the drivers of guarded nets, because
/// no setting observes a guarded net. Every setting still enables the always-on drivers of such a net.
#[derive(Drop)]
pub struct NetTables {
    /// For each net, its drivers in pin order. The list of a guarded net is empty.
    pub drivers: Items<Items<NetDriver>>,
    /// For each net, the compared cells, in pin order.
    pub readers: Items<Items<ReaderCell>>,
}

// Returns the items of net `n`. Returns no items if no net has this number.
#[inline]
fn items_at<T>(rows: &[Items<T>], n: u32) -> &[T]
    ensures { result.now ≡ slice_index_or rows.now n [] }
{
    match rows.get(n as usize) {
        None => &[],
        Some(row) => row.as_slice(),
    }
}

// Returns the first of these drivers that the setting enables, if there is one.
fn enabled(drivers: &[NetDriver], setting: &Setting) -> Option<NetDriver>
    ensures { result ≡ enabled_in (holds setting.now) drivers.now }
{
    for driver in drivers {
        if driver.is_on(setting) {
            return Some(*driver);
        }
    }
    None
}

// Returns the driver if one of these cells reads a pin other than the driver's, or `None` otherwise.
fn where_read(driver: NetDriver, readers: &[ReaderCell]) -> Option<NetDriver>
    ensures { result ≡ (if is_read_beside readers.now driver then Some driver else None) }
{
    if driver.is_read_beside(readers) {
        Some(driver)
    } else {
        None
    }
}

impl NetTables {
    /// Returns the drivers and the compared cells of the nets of a board.
    pub fn of(alloc: Global, board: &BoardPins<'_>) -> Result<NetTables, AllocError>
        ensures { IfOk result (λ nets. AreNetTables board.now nets) }
    {
        let drivers = all_drivers(alloc, board)?;
        let readers = all_readers(alloc, board)?;
        Ok(NetTables { drivers, readers })
    }

    /// Returns the drivers of a net, in pin order. Returns no drivers if the net is guarded or no net has this number.
    #[inline]
    pub fn drivers(&self, net: u32) -> &[NetDriver]
        ensures { result.now ≡ drivers_on self.now net }
    {
        items_at(self.drivers.as_slice(), net)
    }

    /// Returns the compared cells of a net, in pin order. Returns no cells if no net has this number.
    #[inline]
    pub fn readers(&self, net: u32) -> &[ReaderCell]
        ensures { result.now ≡ readers_on self.now net }
    {
        items_at(self.readers.as_slice(), net)
    }

    /// Returns the first driver of an unguarded net, in pin order, that the setting enables, if there is one. A safe
    /// setting enables at most one driver of the net. Returns `None` for a guarded net, although the setting enables
    /// its always-on drivers.
    pub fn enabled(&self, setting: &Setting, net: u32) -> Option<NetDriver>
        ensures { result ≡ enabled_on self.now (holds setting.now) net }
    {
        enabled(self.drivers(net), setting)
    }

    /// Returns the driver by which a safe setting observes a net. This is the first driver of the net, in pin
    /// order, that the setting enables. Returns `None` if the setting enables no driver of the net, if no
    /// other pin of the net has a compared cell, or if the net is guarded.
    pub fn observer(&self, setting: &Setting, net: u32) -> Option<NetDriver>
        ensures { result ≡ observer_on self.now (holds setting.now) net }
    {
        match self.enabled(setting, net) {
            None => None,
            Some(driver) => where_read(driver, self.readers(net)),
        }
    }
}
