// The nets that the passes of a plan observe, and the pins that these passes test. A pass observes a net if it enables a driver on the net
// and some compared cell reads another pin of the net.
ghost use Rattle.std.specs.Prelude.{◌≡◌, ◌≤◌, ◌++◌, length, fold, IfOk, OnOk};
ghost use Rattle.std.specs.List.{list_all};
ghost use Rattle.board_defs.specs.Limits.{most_pins};
ghost use Rattle.fault_sim.specs.Kept.{KeepDrivers};
ghost use Rattle.fault_sim.specs.Places.{observes_fault};
ghost use Rattle.fault_sim.specs.inner.Tested.{coded_nets, paired_in, marked_readers, marked_by, marked_in, tested_flags, pin_where, flagged_pins, pin_count, tested_pins_of, all_pins};

use crate::fits::net_count;
use crate::kept::KeptPass;
use crate::passes::PassDrivers;
use board_defs::{Board, PinRef, Setting, Single};
use lists::{is_set, mark, push_if};
use scan_planner::{NetDriver, Plan, ReaderCell};
use std::alloc::{AllocError, Global};

/// Returns the nets below `count` that have a code, in net order. These are the nets that some pass observes.
pub fn coded_nets(alloc: Global, plan: &Plan, count: u32) -> Result<Vec<u32>, AllocError>
    ensures { IfOk result (λ nets. nets.items ≡ coded_nets plan.now count) }
{
    let mut nets = Vec::new(alloc);
    for n in 0..count {
        push_if(&mut nets, n, plan.code(n) > 0)?;
    }
    Ok(nets)
}

// Returns whether some pass observes both nets. `kept` must have the stored drivers of the plan's first passes. It may
// be empty.
fn paired_in(plan: &Plan, kept: &[KeptPass], a: u32, b: u32) -> bool
    requires { KeepDrivers plan.now kept.now }
    ensures { result ≡ paired_in plan.now a b }
{
    for x in 0..plan.pass_count() {
        let pass = PassDrivers::of(plan, kept, x);
        if pass.observes_both(a, b) {
            return true;
        }
    }
    false
}

/// Returns whether some pass observes both nets of a short. Returns true for a fault of one net. `kept` must have the
/// stored drivers of the plan's first passes. It may be empty.
pub fn observes_fault(plan: &Plan, kept: &[KeptPass], fault: Single) -> bool
    requires { KeepDrivers plan.now kept.now }
    ensures { result ≡ observes_fault plan.now fault }
{
    match fault {
        Single::StuckNet { .. } => true,
        Single::OpenPin { .. } => true,
        Single::Short { a, b, .. } => paired_in(plan, kept, a, b),
    }
}

fn mark_readers(flags: &mut [bool], readers: &[ReaderCell])
    ensures { flags.new ≡ marked_readers flags.old readers.now }
{
    for reader in readers {
        mark(flags, reader.place as usize);
    }
}

fn mark_by(flags: &mut [bool], driver: Option<NetDriver>, readers: &[ReaderCell])
    ensures { flags.new ≡ marked_by driver readers.now flags.old }
{
    if let Some(driver) = driver {
        if driver.is_read_beside(readers) {
            mark(flags, driver.place as usize);
            mark_readers(flags, readers);
        }
    }
}

fn mark_pass(flags: &mut [bool], plan: &Plan, pass: &Setting, net: u32)
    ensures { flags.new ≡ marked_in plan.now net flags.old pass.now }
{
    mark_by(flags, plan.driver(pass, net), plan.readers(net));
}

fn are_set(flags: &[bool]) -> bool
    ensures { result ≡ list_all (λ flag. flag) flags.now }
{
    flags.iter().all(|flag| *flag)
}

// Sets the flags of a net's pins that some pass tests. Stops after all flags are set, since one pass usually tests all pins of a net.
fn mark_passes(flags: &mut [bool], plan: &Plan, net: u32)
    ensures { flags.new ≡ fold (marked_in plan.now net) flags.old plan.now.passes }
{
    for pass in plan.passes() {
        if are_set(flags) {
            return;
        }
        mark_pass(flags, plan, pass, net);
    }
}

// Returns a flag for each of a net's `count` pins. The flag is true if some pass tests the pin.
fn tested_flags(alloc: Global, plan: &Plan, count: usize, net: u32) -> Result<Vec<bool>, AllocError>
    ensures { IfOk result (λ flags. flags.items ≡ tested_flags plan.now count net) }
{
    let mut flags = vec![in alloc; false; count]?;
    mark_passes(&mut flags, plan, net);
    Ok(flags)
}

fn push_pin(pins: &mut Vec<PinRef>, net: u32, place: u32, is_tested: bool) -> Result<(), AllocError>
    ensures { OnOk result (pins.new.items ≡ pins.old.items ++ pin_where is_tested net place) }
{
    if is_tested {
        pins.push(PinRef { net, place })?;
    }
    Ok(())
}

fn push_flagged(net: u32, flags: &[bool], pins: &mut Vec<PinRef>) -> Result<(), AllocError>
    requires { length flags.now ≤ most_pins }
    ensures { OnOk result (pins.new.items ≡ pins.old.items ++ flagged_pins net flags.now) }
{
    for place in 0..flags.len() {
        push_pin(pins, net, place as u32, is_set(flags, place))?;
    }
    Ok(())
}

fn pin_count(board: &Board, net: u32) -> usize
    ensures { result ≡ pin_count board.now net }
{
    match board.raw().nets.as_slice().get(net as usize) {
        None => 0,
        Some(net) => net.pins.len(),
    }
}

fn push_pins(
    alloc: Global,
    board: &Board,
    plan: &Plan,
    net: u32,
    pins: &mut Vec<PinRef>,
) -> Result<(), AllocError>
    ensures { OnOk result
        (pins.new.items ≡ pins.old.items ++ tested_pins_of board.now plan.now net) }
{
    let _rules = board.raw();
    let flags = tested_flags(alloc, plan, pin_count(board, net), net)?;
    push_flagged(net, &flags, pins)
}

/// Returns the pins of the board that some pass tests, as a driver or as a receiver. The pins are in net
/// order, and the pins of a net are in the order of its list of pins.
pub fn tested_pins(alloc: Global, board: &Board, plan: &Plan) -> Result<Vec<PinRef>, AllocError>
    ensures { IfOk result
        (λ pins. pins.items ≡ all_pins board.now plan.now (length board.now.nets)) }
{
    let mut pins = Vec::new(alloc);
    for net in 0..net_count(board) {
        push_pins(alloc, board, plan, net, &mut pins)?;
    }
    Ok(pins)
}
