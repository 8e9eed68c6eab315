// The facts about nets that depend on safe settings. The code finds them from the other facts about the nets and from
// the table of controls.
ghost use Rattle.std.specs.Prelude.{◌≡◌, ◌++◌, [], None, if◌then◌else◌, length, map, option_copied, is_some, IfOk, OnOk};
ghost use Rattle.std.specs.List.{cons_option, list_any, range_with_len};
ghost use Rattle.net_facts.specs.Cells.{item_of_cell, table};
ghost use Rattle.net_facts.specs.inner.Answers.{class_in, drive_of, tested_drives_in, may_be_enabled, enablers_of, enables_at_place, first_reason_in, pin_class_in, reader_tested_in, receiver_places, reads_at, reason_in, safe_in, tested_in, useful_in};

use crate::classes::{ControlClass, NetClass, PinClass};
use crate::facts::{NetFacts, PinFacts};
use crate::found::Found;
use board_defs::{Ctl, Drive, Reason};
use few_items::Few;
use std::alloc::{AllocError, Global};

fn row_of(rows: &[Vec<ControlClass>], c: Ctl) -> Option<&ControlClass>
    ensures { option_copied result ≡ item_of_cell (table rows.now) c }
{
    match rows.get(c.part as usize) {
        None => None,
        Some(row) => row.get(c.cell as usize),
    }
}

/// Returns whether the table has the control and says that it is safe alone.
pub fn is_safe(rows: &[Vec<ControlClass>], c: Ctl) -> bool
    ensures { result ≡ safe_in (table rows.now) c }
{
    match row_of(rows, c) {
        None => false,
        Some(row) => row.safe,
    }
}

/// Returns whether the table has the control and says that it is useful. A control is useful if it is safe
/// alone and enables a tested driver.
pub fn is_useful(rows: &[Vec<ControlClass>], c: Ctl) -> bool
    ensures { result ≡ useful_in (table rows.now) c }
{
    match row_of(rows, c) {
        None => false,
        Some(row) => row.useful,
    }
}

/// Returns whether there is a driver and some safe setting enables it. The table must say which controls are safe
/// alone.
pub fn can_enable(rows: &[Vec<ControlClass>], drive: Option<Drive>) -> bool
    ensures { result ≡ may_be_enabled (table rows.now) drive }
{
    match drive {
        None => false,
        Some(Drive::AlwaysOn) => true,
        Some(Drive::OneSided) => false,
        Some(Drive::By(c)) => is_safe(rows, c),
    }
}

fn drive_of(pins: &[PinFacts], place: usize) -> Option<Drive>
    ensures { result ≡ drive_of pins.now place }
{
    match pins.get(place) {
        None => None,
        Some(pin) => pin.drive,
    }
}

fn reads_at(pins: &[PinFacts], place: usize) -> bool
    ensures { result ≡ reads_at pins.now place }
{
    match pins.get(place) {
        None => false,
        Some(pin) => pin.receives,
    }
}

fn enables_at(rows: &[Vec<ControlClass>], pins: &[PinFacts], place: usize) -> bool
    ensures { result ≡ enables_at_place (table rows.now) pins.now place }
{
    can_enable(rows, drive_of(pins, place))
}

/// Returns the place of the net's receiver if it has just one. Otherwise, returns whether it has none or several.
fn readers(pins: &[PinFacts]) -> Found
    ensures { result ≡ receiver_places pins.now }
{
    let mut found = Found::Nowhere;
    for place in 0..pins.len() {
        found = found.with_if(place, reads_at(pins, place));
    }
    found
}

/// Returns the place of the driver that some safe setting enables, if the net has just one such driver. Otherwise,
/// returns whether it has none or several.
fn enablers(rows: &[Vec<ControlClass>], pins: &[PinFacts]) -> Found
    ensures { result ≡ enablers_of (table rows.now) pins.now }
{
    let mut found = Found::Nowhere;
    for place in 0..pins.len() {
        found = found.with_if(place, enables_at(rows, pins, place));
    }
    found
}

fn is_tested(rows: &[Vec<ControlClass>], net: &NetFacts, readers: Found, place: usize) -> bool
    requires { readers ≡ receiver_places net.now.pins }
    ensures { result ≡ tested_in (table rows.now) net.now place }
{
    let enabled = enables_at(rows, net.pins.as_slice(), place);
    !net.guarded && enabled && readers.is_elsewhere(place)
}

fn is_reader_tested(
    rows: &[Vec<ControlClass>],
    net: &NetFacts,
    enablers: Found,
    place: usize,
) -> bool
    requires { enablers ≡ enablers_of (table rows.now) net.now.pins }
    ensures { result ≡ reader_tested_in (table rows.now) net.now place }
{
    let reads = reads_at(net.pins.as_slice(), place);
    !net.guarded && reads && enablers.is_elsewhere(place)
}

fn pin_class(
    rows: &[Vec<ControlClass>],
    net: &NetFacts,
    readers: Found,
    enablers: Found,
    place: usize,
) -> PinClass
    requires readers { readers ≡ receiver_places net.now.pins }
    requires enablers { enablers ≡ enablers_of (table rows.now) net.now.pins }
    ensures { result ≡ pin_class_in (table rows.now) net.now place }
{
    PinClass {
        driver_tested: is_tested(rows, net, readers, place),
        receiver_tested: is_reader_tested(rows, net, enablers, place),
        drives: drive_of(net.pins.as_slice(), place).is_some(),
        receives: reads_at(net.pins.as_slice(), place),
    }
}

fn tested_drive(pins: &[PinFacts], place: usize, tested: bool) -> Option<Drive>
    ensures { result ≡ (if tested then drive_of pins.now place else None) }
{
    if tested { drive_of(pins, place) } else { None }
}

fn push_some(
    alloc: Global,
    drivers: &mut Few<Drive>,
    drive: Option<Drive>,
) -> Result<(), AllocError>
    ensures { OnOk result (drivers.new ≡ drivers.old ++ cons_option drive []) }
{
    if let Some(drive) = drive {
        drivers.push(alloc, drive)?;
    }
    Ok(())
}

/// The facts about a net's pins, and the ways in which its tested drivers are enabled.
struct TestedPins {
    classes: Few<PinClass>,
    drivers: Few<Drive>,
}

fn tested_pins(
    alloc: Global,
    rows: &[Vec<ControlClass>],
    net: &NetFacts,
) -> Result<TestedPins, AllocError>
    ensures classes { IfOk result
        (λ tested. tested.classes
        ≡ map (pin_class_in (table rows.now) net.now) (range_with_len 0 (length net.now.pins))) }
    ensures drivers { IfOk result
        (λ tested. tested.drivers ≡ tested_drives_in (table rows.now) net.now) }
{
    let pins = net.pins.as_slice();
    let readers = readers(pins);
    let enablers = enablers(rows, pins);
    let mut classes = Few::with_capacity(alloc, net.pins.len())?;
    let mut drivers = Few::none();
    for place in 0..net.pins.len() {
        let class = pin_class(rows, net, readers, enablers, place);
        let drive = tested_drive(pins, place, class.driver_tested);
        push_some(alloc, &mut drivers, drive)?;
        classes.push(alloc, class)?;
    }
    Ok(TestedPins { classes, drivers })
}

fn has_driver(pins: &[PinFacts]) -> bool
    ensures { result ≡ list_any (λ pin. is_some pin.drive) pins.now }
{
    pins.iter().any(|pin| pin.drive.is_some())
}

fn has_enabled(rows: &[Vec<ControlClass>], pins: &[PinFacts]) -> bool
    ensures { result ≡ list_any (λ pin. may_be_enabled (table rows.now) pin.drive) pins.now }
{
    pins.iter().any(|pin| can_enable(rows, pin.drive))
}

/// Returns the first reason that applies to a net that is not covered.
fn first_reason(rows: &[Vec<ControlClass>], net: &NetFacts) -> Reason
    ensures { result ≡ first_reason_in (table rows.now) net.now }
{
    if net.supply {
        Reason::Supply
    } else if net.test_port {
        Reason::TestPort
    } else if net.dark {
        Reason::Dark
    } else if !has_driver(net.pins.as_slice()) {
        Reason::NoDriver
    } else if !has_enabled(rows, net.pins.as_slice()) {
        Reason::Blocked
    } else {
        Reason::NoReceiver
    }
}

fn reason(rows: &[Vec<ControlClass>], net: &NetFacts, drivers: &[Drive]) -> Option<Reason>
    requires { drivers.now ≡ tested_drives_in (table rows.now) net.now }
    ensures { result ≡ reason_in (table rows.now) net.now }
{
    if drivers.len() == 0 {
        Some(first_reason(rows, net))
    } else {
        None
    }
}

fn net_class(
    alloc: Global,
    rows: &[Vec<ControlClass>],
    net: &NetFacts,
) -> Result<NetClass, AllocError>
    ensures { IfOk result (λ class. class ≡ class_in (table rows.now) net.now) }
{
    let TestedPins { classes, drivers } = tested_pins(alloc, rows, net)?;
    let reason = reason(rows, net, drivers.as_slice());
    Ok(NetClass {
        reason,
        drivers,
        pins: classes,
    })
}

/// Returns the facts about the nets that depend on safe settings, in net order. Computes them from `rows`, the table of
/// controls, and `nets`, the facts that do not depend on settings.
pub fn net_classes(
    alloc: Global,
    rows: &[Vec<ControlClass>],
    nets: &[NetFacts],
) -> Result<Vec<NetClass>, AllocError>
    ensures { IfOk result (λ classes. classes.items ≡ map (class_in (table rows.now)) nets.now) }
{
    let mut classes = Vec::with_capacity(alloc, nets.len())?;
    for net in nets {
        classes.push(net_class(alloc, rows, net)?)?;
    }
    Ok(classes)
}
