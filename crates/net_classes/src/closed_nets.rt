// Closed nets. A list of nets closes net `n` if net `n` is covered and each tested driver of net `n` has a control with
// a driver on a net in the list.
ghost use Rattle.std.specs.Prelude.{◌≡◌, ◌<◌, ◌&&◌, ◌||◌, ◌++◌, ◌∷◌, [], Bool, Contains, filter, length, not, IfOk, OnOk};
ghost use Rattle.std.specs.List.{flat_map, list_all, list_any};
ghost use Rattle.board_defs.specs.declared.board.Ctl.{Ctl};
ghost use Rattle.board_defs.specs.declared.board.RawBoard.{RawBoard};
ghost use Rattle.board_defs.specs.Settings.{same_ctl};
ghost use Rattle.board_defs.specs.Decided.{is_by};
ghost use Rattle.net_classes.specs.inner.Closed.{AreClosed, AreClosedNets, AreOthers, closed_beside, closed_in, closes, closes_beside, drives_some, has_either, is_by_one};
ghost use Rattle.net_classes.specs.inner.Known.{driven_in};
ghost use Rattle.net_classes.specs.inner.ControlSets.{IsSet, has_control};

use crate::control_sets::ControlSet;
use crate::known::Known;
use board_defs::{Ctl, Drive};
use lists::Items;
use net_facts::{NetNumbers, PinFacts, copy_of, push_if};
use std::alloc::{AllocError, Global};

fn add_drive(set: &mut ControlSet, drive: Option<Drive>) -> Result<(), AllocError>
    ensures { (board : RawBoard) (passes : Ctl → Bool) → IsSet board passes set.old
        → OnOk result (IsSet board (λ c. passes c || is_by c drive) set.new) }
{
    match drive {
        Some(Drive::By(c)) => set.insert(c),
        _ => Ok(()),
    }
}

fn add_pins(set: &mut ControlSet, pins: &[PinFacts]) -> Result<(), AllocError>
    ensures { (board : RawBoard) (passes : Ctl → Bool) → IsSet board passes set.old
        → OnOk result
        (IsSet board (λ c. passes c || list_any (λ pin. is_by c pin.drive) pins.now) set.new) }
{
    for pin in pins {
        add_drive(set, pin.drive)?;
    }
    Ok(())
}

/// Makes `set` the set of the controls with a driver on one of `nets`.
fn gather(set: &mut ControlSet, known: &Known<'_>, nets: &[u32]) -> Result<(), AllocError>
    ensures { (passes : Ctl → Bool) → IsSet known.now.board passes set.old
        → OnOk result (IsSet known.now.board (drives_some known.now.board nets.now) set.new) }
{
    set.clear();
    for net in nets {
        add_pins(set, known.pins(*net))?;
    }
    Ok(())
}

fn is_by_member(set: &ControlSet, d: Drive) -> bool
    ensures { result ≡ is_by_one (has_control set.now) d }
{
    match d {
        Drive::By(c) => set.has(c),
        _ => false,
    }
}

fn are_by_members(set: &ControlSet, drivers: &[Drive]) -> bool
    ensures { result ≡ list_all (is_by_one (has_control set.now)) drivers.now }
{
    drivers.iter().all(|d| is_by_member(set, *d))
}

fn add_other(
    others: &mut ControlSet,
    set: &ControlSet,
    drive: Option<Drive>,
) -> Result<(), AllocError>
    ensures { (board : RawBoard) (passes : Ctl → Bool) → IsSet board passes others.old
        → OnOk result
        (IsSet board (λ c. passes c || (is_by c drive && not (has_control set.now c)))
        others.new) }
{
    match drive {
        Some(Drive::By(c)) => add_outside(others, set, c),
        _ => Ok(()),
    }
}

/// Adds the control to `others` unless it is in `set`.
fn add_outside(others: &mut ControlSet, set: &ControlSet, c: Ctl) -> Result<(), AllocError>
    ensures { (board : RawBoard) (passes : Ctl → Bool) → IsSet board passes others.old
        → OnOk result
        (IsSet board (λ d. passes d || (same_ctl c d && not (has_control set.now d))) others.new) }
{
    if set.has(c) {
        return Ok(());
    }
    others.insert(c)?;
    Ok(())
}

fn add_other_pins(
    others: &mut ControlSet,
    set: &ControlSet,
    pins: &[PinFacts],
) -> Result<(), AllocError>
    ensures { (board : RawBoard) (passes : Ctl → Bool) → IsSet board passes others.old
        → OnOk result
        (IsSet board
        (λ c. passes c
        || list_any (λ pin. is_by c pin.drive && not (has_control set.now c)) pins.now)
        others.new) }
{
    for pin in pins {
        add_other(others, set, pin.drive)?;
    }
    Ok(())
}

/// Makes `others` the set of the controls that have a driver on one of `nets` and are not in `set`. `set` must be the
/// set of the controls with a driver on net `core`.
fn gather_others(
    others: &mut ControlSet,
    set: &ControlSet,
    known: &Known<'_>,
    core: u32,
    nets: &[u32],
) -> Result<(), AllocError>
    requires { IsSet known.now.board (drives_some known.now.board (core ∷ [])) set.now }
    ensures { (passes : Ctl → Bool) → IsSet known.now.board passes others.old
        → OnOk result (AreOthers known.now.board set.now nets.now others.new) }
{
    others.clear();
    for net in nets {
        if *net != core {
            add_other_pins(others, set, known.pins(*net))?;
        }
    }
    Ok(())
}

fn is_by_either(set: &ControlSet, others: &ControlSet, d: Drive) -> bool
    ensures { result ≡ is_by_one (has_either set.now others.now) d }
{
    match d {
        Drive::By(c) => set.has(c) || others.has(c),
        _ => false,
    }
}

fn are_by_either(set: &ControlSet, others: &ControlSet, drivers: &[Drive]) -> bool
    ensures { result ≡ list_all (is_by_one (has_either set.now others.now)) drivers.now }
{
    drivers.iter().all(|d| is_by_either(set, others, *d))
}

fn closes_beside(set: &ControlSet, others: &ControlSet, known: &Known<'_>, net: u32) -> bool
    ensures { result ≡ closes_beside known.now.board set.now others.now net }
{
    let drivers = known.drivers(net);
    drivers.len() > 0 && are_by_either(set, others, drivers)
}

fn add_closed_by(
    nets: &mut NetNumbers,
    set: &ControlSet,
    others: &ControlSet,
    known: &Known<'_>,
    c: Ctl,
) -> Result<(), AllocError>
    ensures { OnOk result (nets.new ≡ nets.old ++ closed_beside known.now set.now others.now c) }
{
    for net in known.driven(c) {
        push_if(nets, *net, closes_beside(set, others, known, *net))?;
    }
    Ok(())
}

/// Returns the nets in `closed`, followed by the covered nets that have a driver of a control in `others` and on which
/// each tested driver has a control in `set` or `others`.
fn closed_by_both(
    alloc: Global,
    closed: &[u32],
    set: &ControlSet,
    others: &ControlSet,
    known: &Known<'_>,
) -> Result<NetNumbers, AllocError>
    ensures { IfOk result
        (λ nets. nets
        ≡ closed.now
        ++ flat_map (closed_beside known.now set.now others.now) others.now.members.items) }
{
    let mut nets = copy_of(alloc, closed)?;
    for c in &others.members {
        add_closed_by(&mut nets, set, others, known, *c)?;
    }
    Ok(nets)
}

/// Returns a net with the largest number of pins among `nets`, which must not be empty.
fn core_of(known: &Known<'_>, nets: &[u32]) -> u32
    requires { 0 < length nets.now }
    ensures { Contains nets.now result }
{
    let mut core = nets[0];
    for net in nets {
        if known.pins(*net).len() > known.pins(core).len() {
            core = *net;
        }
    }
    core
}

fn closes(set: &ControlSet, known: &Known<'_>, c: Ctl, net: u32) -> bool
    ensures { result ≡ closes known.now.board set.now c net }
{
    known.is_first(c, net) && are_by_members(set, known.drivers(net))
}

fn add_closed(
    nets: &mut NetNumbers,
    set: &ControlSet,
    known: &Known<'_>,
    c: Ctl,
) -> Result<(), AllocError>
    ensures { OnOk result
        (nets.new ≡ nets.old ++ filter (closes known.now.board set.now c) (driven_in known.now c)) }
{
    for net in known.driven(c) {
        push_if(nets, *net, closes(set, known, c, *net))?;
    }
    Ok(())
}

fn all_closed(alloc: Global, set: &ControlSet, known: &Known<'_>) -> Result<NetNumbers, AllocError>
    ensures { IfOk result (λ nets. nets ≡ closed_in known.now set.now set.now.members.items) }
{
    let mut nets = Items::none(alloc);
    for c in &set.members {
        add_closed(&mut nets, set, known, *c)?;
    }
    Ok(nets)
}

/// Returns the nets that `nets` closes, and makes `set` the set of the controls with a driver on one of `nets`.
fn closed_nets(
    alloc: Global,
    set: &mut ControlSet,
    known: &Known<'_>,
    nets: &[u32],
) -> Result<NetNumbers, AllocError>
    ensures closed { (passes : Ctl → Bool) → IsSet known.now.board passes set.old
        → IfOk result (λ closed. AreClosed known.now.board nets.now closed) }
    ensures set { (passes : Ctl → Bool) → IsSet known.now.board passes set.old
        → OnOk result (IsSet known.now.board (drives_some known.now.board nets.now) set.new) }
{
    known.laws();
    gather(set, known, nets)?;
    let closed = all_closed(alloc, set, known)?;
    Ok(closed)
}

/// The nets that the list `by` closes. They are kept for the next call, since many controls share the same nets or are
/// on one bus.
#[derive(Drop)]
pub struct ClosedNets {
    pub(crate) by: NetNumbers,
    pub(crate) set: ControlSet,
    pub(crate) nets: NetNumbers,
    /// A set that `closed_by` clears and fills again. It is kept here only so that the next call can reuse the memory
    /// of the set.
    pub(crate) others: ControlSet,
}

impl ClosedNets {
    /// Returns the closed nets of an empty list, which closes no nets.
    pub fn nothing(alloc: Global, known: &Known<'_>) -> Result<ClosedNets, AllocError>
        ensures { IfOk result (λ closed. AreClosedNets known.now.board closed) }
    {
        Ok(ClosedNets {
            by: Items::none(alloc),
            set: ControlSet::new(alloc, known.cells())?,
            nets: Items::none(alloc),
            others: ControlSet::new(alloc, known.cells())?,
        })
    }

    /// Returns the nets that `nets` closes. `nets` must not be empty, and `self` must be made for the board
    /// of `known`. Afterwards `self` has the nets that one net in `nets` closes, or those that `nets` closes.
    /// The next call can reuse them.
    pub fn closed_by(
        &mut self,
        alloc: Global,
        known: &Known<'_>,
        nets: &[u32],
    ) -> Result<NetNumbers, AllocError>
        requires some { 0 < length nets.now }
        requires closed { AreClosedNets known.now.board self.old }
        ensures closed { OnOk result (AreClosedNets known.now.board self.new) }
        ensures nets { IfOk result (λ closed. AreClosed known.now.board nets.now closed) }
    {
        if self.by.as_slice() == nets {
            return copy_of(alloc, self.nets.as_slice());
        }
        known.laws();
        let core = core_of(known, nets);
        self.turn_to(alloc, known, &[core])?;
        gather_others(&mut self.others, &self.set, known, core, nets)?;
        if self.others.members.len() > self.set.members.len() / 8 {
            return self.closed_anew(alloc, known, nets);
        }
        let closed = self.nets.as_slice();
        let both = closed_by_both(alloc, closed, &self.set, &self.others, known)?;
        Ok(both)
    }

    fn closed_anew(
        &mut self,
        alloc: Global,
        known: &Known<'_>,
        nets: &[u32],
    ) -> Result<NetNumbers, AllocError>
        requires closed { AreClosedNets known.now.board self.old }
        ensures closed { OnOk result (AreClosedNets known.now.board self.new) }
        ensures nets { IfOk result (λ closed. AreClosed known.now.board nets.now closed) }
    {
        self.turn_to(alloc, known, nets)?;
        copy_of(alloc, self.nets.as_slice())
    }

    /// Makes `self` the nets that `nets` closes. Does nothing if `self` has them already.
    fn turn_to(&mut self, alloc: Global, known: &Known<'_>, nets: &[u32]) -> Result<(), AllocError>
        requires closed { AreClosedNets known.now.board self.old }
        ensures closed { OnOk result (AreClosedNets known.now.board self.new) }
        ensures by { OnOk result (self.new.by ≡ nets.now) }
    {
        if self.by.as_slice() != nets {
            self.nets = closed_nets(alloc, &mut self.set, known, nets)?;
            self.by = copy_of(alloc, nets)?;
        }
        Ok(())
    }
}
