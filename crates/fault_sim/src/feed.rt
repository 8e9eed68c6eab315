// The driver that a pass enables on a net, and the bits that the net gets from this driver. No pass observes
// a guarded net, for example a net that carries a supply.
ghost use Rattle.std.specs.Prelude.{◌≡◌, ◌<◌};
ghost use Rattle.board_defs.specs.Pins.{is_same};
ghost use Rattle.tap_defs.specs.board.TestRows.{code_bit};
ghost use Rattle.fault_sim.specs.Effects.{source_bit, unless_off, feed_bit, is_own, steady_in, source_in, pull_in};
ghost use Rattle.fault_sim.specs.Kept.{enabled_by, enabled_driver};
ghost use Rattle.fault_sim.specs.inner.Kept.{net_fed_by, feed_of, observes_coded};

use board_defs::{Board, Ctl, Setting};
use counting_codes::bit;
use scan_planner::{NetDriver, Plan};

/// The bits of a driver's cell in the rows of a pass.
#[derive(Clone, Copy)]
pub enum Source {
    /// The bits of the code of the driver's net.
    Code(u32),
    /// This bit in all rows.
    Fixed(bool),
}

/// The driver that a pass enables on a net.
#[derive(Clone, Copy)]
pub struct EnabledDriver {
    /// The index of the driver's pin in the net's list of pins.
    pub place: u32,
    pub source: Source,
    /// True if the driver's own cell controls the driver.
    pub own: bool,
}

/// The bits that a net gets from its enabled driver in the rows of a pass.
#[derive(Clone, Copy)]
pub struct Feed {
    pub source: Source,
    /// The bit of the driver's own cell that switches the driver off, or `None` if neither bit of this cell does.
    pub off: Option<bool>,
}

/// A net in a pass: the feed of its enabled driver, if there is one, and the value to which the net is pulled, if any.
#[derive(Clone, Copy)]
pub struct FedNet {
    pub feed: Option<Feed>,
    pub pull: Option<bool>,
}

/// Returns whether two bits are equal.
#[inline]
pub fn is_same(a: bool, b: bool) -> bool
    ensures { result ≡ is_same a b }
{
    if a { b } else { !b }
}

/// Returns bit `j` of a code. Bit 0 is the least significant.
#[inline]
pub fn code_bit(code: u32, j: u32) -> bool
    ensures { result ≡ code_bit code j }
{
    j < 32 && bit(code, j)
}

fn source_bit(source: Source, j: u32) -> bool
    ensures { result ≡ source_bit source j }
{
    match source {
        Source::Code(code) => code_bit(code, j),
        Source::Fixed(bit) => bit,
    }
}

fn unless_off(off: Option<bool>, bit: bool) -> Option<bool>
    ensures { result ≡ unless_off off bit }
{
    match off {
        None => Some(bit),
        Some(off) => { if is_same(bit, off) { None } else { Some(bit) } }
    }
}

/// Returns the bit to which a net is driven in row `j`, or `None` if the net is not driven in this row.
pub fn feed_bit(feed: Option<Feed>, j: u32) -> Option<bool>
    ensures { result ≡ feed_bit feed j }
{
    match feed {
        None => None,
        Some(feed) => unless_off(feed.off, source_bit(feed.source, j)),
    }
}

fn is_own(own: Ctl, ctl: Option<Ctl>) -> bool
    ensures { result ≡ is_own own ctl }
{
    match ctl {
        None => false,
        Some(c) => c.is_same(own),
    }
}

fn steady_in(plan: &Plan, pass: &Setting, driver: NetDriver) -> bool
    ensures { result ≡ steady_in plan.now pass.now driver }
{
    let quiet = plan.quiet(driver.position);
    if pass.has(driver.own) { !quiet } else { quiet }
}

fn source_in(plan: &Plan, pass: &Setting, net: u32, driver: NetDriver) -> Source
    ensures { result ≡ source_in plan.now pass.now net driver }
{
    if driver.is_read_beside(plan.readers(net)) {
        Source::Code(plan.code(net))
    } else {
        Source::Fixed(steady_in(plan, pass, driver))
    }
}

fn enabled_by(plan: &Plan, pass: &Setting, net: u32, driver: NetDriver) -> EnabledDriver
    ensures { result ≡ enabled_by plan.now pass.now net driver }
{
    EnabledDriver {
        place: driver.place,
        source: source_in(plan, pass, net, driver),
        own: is_own(driver.own, driver.ctl),
    }
}

/// Returns the driver that a pass enables on a net, with the bits of the driver's cell in the rows of the pass. Returns `None` if the pass
/// enables no driver on the net, or if the net is guarded.
pub fn enabled_driver(plan: &Plan, pass: &Setting, net: u32) -> Option<EnabledDriver>
    ensures { result ≡ enabled_driver plan.now pass.now net }
{
    match plan.driver(pass, net) {
        None => None,
        Some(driver) => Some(enabled_by(plan, pass, net, driver)),
    }
}

// Returns the feed that an enabled driver gives its net. `pull` is the value to which the net is pulled, if any.
fn feed_of(driver: EnabledDriver, pull: Option<bool>) -> Feed
    ensures { result ≡ feed_of pull driver }
{
    Feed {
        source: driver.source,
        off: if driver.own { pull } else { None },
    }
}

/// Returns the feed and the pull of a net in a pass, given the driver that the pass enables on the net and the net's pull.
pub fn net_fed_by(driver: Option<EnabledDriver>, pull: Option<bool>) -> FedNet
    ensures { result ≡ net_fed_by driver pull }
{
    match driver {
        None => FedNet { feed: None, pull },
        Some(driver) => FedNet {
            feed: Some(feed_of(driver, pull)),
            pull,
        },
    }
}

/// Returns whether a pass observes the net on which it enables `driver`. The pass observes the net if and only if the
/// driver's cell has the bits of the net's code. Returns false if there is no driver.
pub fn observes(driver: Option<EnabledDriver>) -> bool
    ensures { result ≡ observes_coded driver }
{
    match driver {
        None => false,
        Some(driver) => match driver.source {
            Source::Code(_) => true,
            Source::Fixed(_) => false,
        },
    }
}

/// Returns the value to which a net is pulled, or `None` if the net has no pull.
pub fn pull_in(board: &Board, net: u32) -> Option<bool>
    ensures { result ≡ pull_in board.now net }
{
    match board.raw().nets.as_slice().get(net as usize) {
        None => None,
        Some(net) => net.pull,
    }
}
