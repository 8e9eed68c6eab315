// The facts about nets and pins that do not depend on settings.
ghost use Rattle.std.specs.Prelude.{◌≡◌, ◌&&◌, ◌||◌, not, map, IfOk, Some};
ghost use Rattle.std.specs.List.{list_any};
ghost use Rattle.board_defs.specs.Pins.{is_dark, is_pulled_to, is_test_pin};
ghost use Rattle.board_defs.specs.Decided.{is_always_on};
ghost use Rattle.net_facts.specs.Facts.{net_facts_of};
ghost use Rattle.net_facts.specs.inner.Facts.{drive_from, drive_where_in, net_facts_in, pin_facts_in};

use board_defs::{Cell, Ctl, Drive, Net, NetPin, PinAt};
use few_items::Few;
use net_pins::BoardPins;
use std::alloc::{AllocError, Global};

/// The facts about a pin that do not depend on settings.
#[derive(Clone, Copy)]
pub struct PinFacts {
    /// The part and the port bit of the pin, or None if the pin's part is not described.
    pub at: Option<PinAt>,
    /// The way in which the pin's driver is enabled, or None if the pin is not a driver.
    pub drive: Option<Drive>,
    /// True if the pin is a receiver.
    pub receives: bool,
}

/// The facts about a net that do not depend on settings.
#[derive(Drop)]
pub struct NetFacts {
    /// True if the net carries a supply.
    pub supply: bool,
    /// The value to which the net is pulled, or None if it is not pulled.
    pub pull: Option<bool>,
    /// True if some pin of the net belongs to a test access port or is named by compliance patterns.
    pub test_port: bool,
    /// True if some pin of the net is dark. If so, something that no setting controls may drive the net.
    pub dark: bool,
    /// True if the net is guarded: it carries a supply, or it has a pin of a test access port, a pin that compliance
    /// patterns name, or a dark pin.
    pub guarded: bool,
    /// True if no control may enable a driver of the net. This is the case if the net is guarded or has a driver that
    /// is always on.
    pub closed: bool,
    /// The facts about the pins, in pin order.
    pub pins: Few<PinFacts>,
}

// Returns whether the net is guarded and has a pin of a test access port or a pin that compliance patterns name. An
// unguarded net has no such pin, so the function looks only at the pins of a guarded net.
fn has_test_pin(board: &BoardPins<'_>, guarded: bool, pins: &[NetPin]) -> bool
    ensures { result ≡ (guarded && list_any (is_test_pin board.now) pins.now) }
{
    guarded && board.raw().any_test_pin(pins)
}

// Like `has_test_pin`, but looks for dark pins.
fn has_dark_pin(board: &BoardPins<'_>, guarded: bool, pins: &[NetPin]) -> bool
    ensures { result ≡ (guarded && list_any (is_dark board.now) pins.now) }
{
    guarded && board.has_dark_pin(pins)
}

pub(crate) fn is_pull(value: bool, pull: Option<bool>) -> bool
    ensures { result ≡ is_pulled_to value pull }
{
    match pull {
        None => false,
        Some(b) => value == b,
    }
}

fn lets_switch(guarded: bool, pull: Option<bool>, value: bool) -> bool
    ensures { result ≡ (not guarded && is_pulled_to value pull) }
{
    !guarded && is_pull(value, pull)
}

fn drive_from(guarded: bool, pull: Option<bool>, part: u32, cell: Cell) -> Drive
    ensures { result ≡ drive_from guarded pull part cell cell.ctl }
{
    match cell.ctl {
        None => Drive::AlwaysOn,
        Some(control) => {
            let by = Drive::By(Ctl {
                part,
                cell: control.cell,
            });
            if control.cell == cell.num {
                if lets_switch(guarded, pull, control.disable) {
                    by
                } else {
                    Drive::OneSided
                }
            } else {
                by
            }
        }
    }
}

fn drive(
    board: &BoardPins<'_>,
    guarded: bool,
    pull: Option<bool>,
    at: Option<PinAt>,
) -> Option<Drive>
    ensures { result ≡ drive_where_in board.now guarded pull at }
{
    match at {
        None => None,
        Some(at) => match board.driving_entry(at) {
            None => None,
            Some(cell) => Some(drive_from(guarded, pull, at.part, cell)),
        },
    }
}

fn pin_facts(board: &BoardPins<'_>, guarded: bool, pull: Option<bool>, pin: &NetPin) -> PinFacts
    ensures { result ≡ pin_facts_in board.now guarded pull pin.now }
{
    PinFacts {
        at: pin.at,
        drive: drive(board, guarded, pull, pin.at),
        receives: board.receives(pin.at),
    }
}

fn all_pin_facts(
    alloc: Global,
    board: &BoardPins<'_>,
    guarded: bool,
    net: &Net,
) -> Result<Few<PinFacts>, AllocError>
    ensures { IfOk result
        (λ facts. facts ≡ map (pin_facts_in board.now guarded net.now.pull) net.now.pins) }
{
    let mut facts = Few::with_capacity(alloc, net.pins.len())?;
    for pin in net.pins.as_slice() {
        facts.push(alloc, pin_facts(board, guarded, net.pull, pin))?;
    }
    Ok(facts)
}

fn is_always_on(drive: Option<Drive>) -> bool
    ensures { result ≡ is_always_on drive }
{
    matches!(drive, Some(Drive::AlwaysOn))
}

fn has_always_on(pins: &[PinFacts]) -> bool
    ensures { result ≡ list_any (λ pin. is_always_on pin.drive) pins.now }
{
    pins.iter().any(|pin| is_always_on(pin.drive))
}

/// Returns whether no control may enable a driver of the net, because the net is guarded or has a driver that is always
/// on.
fn is_closed(guarded: bool, pins: &[PinFacts]) -> bool
    ensures { result ≡ (guarded || list_any (λ pin. is_always_on pin.drive) pins.now) }
{
    if guarded { true } else { has_always_on(pins) }
}

fn net_facts(
    alloc: Global,
    board: &BoardPins<'_>,
    guarded: bool,
    net: &Net,
) -> Result<NetFacts, AllocError>
    ensures { IfOk result (λ facts. facts ≡ net_facts_in board.now guarded net.now) }
{
    let test_port = has_test_pin(board, guarded, net.pins.as_slice());
    let dark = has_dark_pin(board, guarded, net.pins.as_slice());
    let pins = all_pin_facts(alloc, board, guarded, net)?;
    let closed = is_closed(guarded, pins.as_slice());
    Ok(NetFacts {
        supply: net.supply,
        pull: net.pull,
        test_port,
        dark,
        guarded,
        closed,
        pins,
    })
}

/// Returns the facts about the nets of a board that do not depend on settings, in net order.
pub fn all_net_facts(alloc: Global, board: &BoardPins<'_>) -> Result<Vec<NetFacts>, AllocError>
    ensures { IfOk result (λ facts. facts.items ≡ map (net_facts_of board.now) board.now.nets) }
{
    let nets = board.raw().nets.as_slice();
    let mut facts = Vec::with_capacity(alloc, nets.len())?;
    for n in 0..nets.len() {
        facts.push(net_facts(alloc, board, board.is_guarded(n), &nets[n])?)?;
    }
    Ok(facts)
}
