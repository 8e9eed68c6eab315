// Compares the cells of a log with the effect of a fault. The cells of a net are checked only in passes that
// enable a driver on the net. Cells that read the enabled driver's pin and cells of guarded nets are never
// checked. No pass observes a guarded net, for example a net that carries a supply.
ghost use Rattle.std.specs.Prelude.{◌≡◌, ◌↔◌, ◌<◌, [], length, slice_index_or, All, IsTrue};
ghost use Rattle.std.specs.List.{list_all};
ghost use Rattle.tap_defs.specs.board.TestRows.{code_bit};
ghost use Rattle.response_log.specs.LogRows.{bit_in};
ghost use Rattle.fault_sim.specs.Fits.{cell_shows, ShowRows, ShowBy, Shows, ShowsEffect, ShowsOwnIn, ShowsOwn, ShowsOn, ShowsIn, ShowsAll};

use crate::board_test::LoggedTest;
use crate::effect::{Effect, effect_bit, first_net, second_net};
use crate::feed::{code_bit, is_same};
use crate::net_rows::NetRows;
use crate::passes::LoggedPass;
use board_defs::{Board, Single};
use response_log::Log;
use scan_planner::ReaderCell;

// Returns the bit at position `at` of a row of a log. The log must have this row and this bit.
#[inline]
fn bit_in(log: &Log, row: u64, at: u32) -> bool
    requires row { row < length log.now }
    requires bit { at < length (slice_index_or log.now row []) }
    ensures { result ≡ bit_in log.now row at }
{
    log.bit(row, at)
}

// Returns whether a cell of a net has the bit that `effect` gives it in row `j` of a pass. Returns true for a
// cell that reads the enabled driver's pin, whose index in the net's list of pins is `driver`. `row` is the
// number of this row in the log. This row must have a bit at the cell's position.
#[inline]
fn cell_shows(
    log: &Log,
    row: u64,
    driver: u32,
    effect: Effect,
    j: u32,
    expected: bool,
    reader: ReaderCell,
) -> bool
    requires row { row < length log.now }
    requires at { reader.position < length (slice_index_or log.now row []) }
    ensures { result ≡ cell_shows log.now row driver effect j expected reader }
{
    if reader.place == driver {
        true
    } else {
        let bit = effect_bit(effect, j, reader.place, expected);
        is_same(bit_in(log, row, reader.position), bit)
    }
}

fn cells_show(
    log: &Log,
    row: u64,
    driver: u32,
    effect: Effect,
    j: u32,
    expected: bool,
    readers: &[ReaderCell],
) -> bool
    requires row { row < length log.now }
    requires at { All (λ r. r.position < length (slice_index_or log.now row [])) readers.now }
    ensures { result ≡ list_all (cell_shows log.now row driver effect j expected) readers.now }
{
    for reader in readers {
        if !cell_shows(log, row, driver, effect, j, expected, *reader) {
            return false;
        }
    }
    true
}

impl<'a> NetRows<'a> {
    // Returns whether all cells have the bits of an effect in all rows. The expected bits are the bits of
    // `code`. `driver` is the place of the enabled driver's pin, that is, its index in the net's list of
    // pins. Cells that read this pin are not checked.
    fn show(&self, code: u32, effect: Effect, driver: u32) -> bool
        ensures { IsTrue result
            ↔ ShowRows self.now.log self.now.first self.now.width code self.now.readers effect
            driver }
    {
        for j in 0..self.width {
            let row = self.first + u64::from(j);
            let expected = code_bit(code, j);
            if !cells_show(self.log, row, driver, effect, j, expected, self.readers) {
                return false;
            }
        }
        true
    }

    // Like `show`, but `driver` is `None` if the pass enables no driver on the net or the net is guarded. In
    // this case the result is true.
    fn show_by(&self, code: u32, effect: Effect, driver: Option<u32>) -> bool
        ensures { IsTrue result
            ↔ ShowBy self.now.log self.now.first self.now.width code self.now.readers effect
            driver }
    {
        match driver {
            None => true,
            Some(place) => self.show(code, effect, place),
        }
    }
}

/// Returns the number of nets of a board.
pub fn net_count(board: &Board) -> u32
    ensures { result ≡ length board.now.nets }
{
    board.raw().nets.len() as u32
}

impl<'a> LoggedPass<'a> {
    // Returns whether this pass of the log shows an effect on a net, that is, whether the net's compared
    // cells have the bits that the effect gives them. `driver` is the place of the enabled driver's pin,
    // whose cells are not checked. If `driver` is `None`, the result is true.
    fn shows_effect(&self, effect: Effect, driver: Option<u32>, net: u32) -> bool
        ensures { IsTrue result
            ↔ ShowsEffect self.now.logged.test.plan self.now.logged.log self.now.number net effect
            driver }
    {
        self.net_rows(net).show_by(self.code(net), effect, driver)
    }

    /// Returns whether this pass of the log shows the effect of a fault on a net, that is, whether the net's
    /// compared cells have the bits that the fault gives them. Without a fault, checks for the expected bits.
    /// Returns true if the pass enables no driver on the net or the net is guarded.
    pub fn shows(&self, fault: Option<Single>, net: u32) -> bool
        ensures { IsTrue result
            ↔ Shows self.now.logged.test.board self.now.logged.test.plan fault self.now.logged.log
            self.now.number net }
    {
        let effect = self.pass.effect(fault, net);
        self.shows_effect(effect, self.pass.driver_place(net), net)
    }

    // Returns whether this pass of the log shows the effect of a fault on the fault's own nets.
    fn shows_own(&self, fault: Single) -> bool
        ensures { IsTrue result
            ↔ ShowsOwnIn self.now.logged.test.board self.now.logged.test.plan fault
            self.now.logged.log self.now.number }
    {
        self.shows(Some(fault), first_net(fault)) && self.shows(Some(fault), second_net(fault))
    }

    // Returns whether this pass of the log shows the effect of a fault on every net. Without a fault, checks for the expected bits.
    fn shows_all(&self, fault: Option<Single>) -> bool
        ensures { IsTrue result
            ↔ ShowsIn self.now.logged.test.board self.now.logged.test.plan fault
            self.now.logged.log self.now.number }
    {
        for net in 0..net_count(self.pass.board()) {
            if !self.shows(fault, net) {
                return false;
            }
        }
        true
    }
}

impl<'a> LoggedTest<'a> {
    /// Returns whether every pass of the log shows the effect of a fault on the fault's own nets. Checks both nets in one pass before the
    /// next pass, since a fault that does not explain the log usually fails in an early pass.
    pub(crate) fn shows_own(&self, fault: Single) -> bool
        ensures { IsTrue result
            ↔ ShowsOwn self.now.test.board self.now.test.plan fault self.now.log }
    {
        for x in 0..self.pass_count() {
            let pass = self.pass(x);
            if !pass.shows_own(fault) {
                return false;
            }
        }
        true
    }

    /// Returns whether every pass of the log shows the effect of a fault on a net. Without a fault, checks for the expected bits.
    pub(crate) fn shows_on(&self, fault: Option<Single>, net: u32) -> bool
        ensures { IsTrue result
            ↔ ShowsOn self.now.test.board self.now.test.plan fault self.now.log net }
    {
        for x in 0..self.pass_count() {
            let pass = self.pass(x);
            if !pass.shows(fault, net) {
                return false;
            }
        }
        true
    }

    /// Returns whether every pass of the log shows the effect of a fault on every net. Without a fault, checks for the expected bits.
    pub(crate) fn shows_all(&self, fault: Option<Single>) -> bool
        ensures { IsTrue result
            ↔ ShowsAll self.now.test.board self.now.test.plan fault self.now.log }
    {
        for x in 0..self.pass_count() {
            let pass = self.pass(x);
            if !pass.shows_all(fault) {
                return false;
            }
        }
        true
    }
}
