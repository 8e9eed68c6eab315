// The walk setting: the first pass of a board's test, but without the controls of switching drivers. A
// switching driver is a driver whose own cell is also its control cell, on an unguarded net that is pulled to
// the driver's disable value. A net is guarded if, for example, it carries a supply.
ghost use Rattle.std.specs.Prelude.{◌≡◌, ◌<◌, ◌∷◌, [], if◌then◌else◌, filter, not, slice_get, Some, IfOk, OnOk};
ghost use Rattle.std.specs.Option.{option_to_list};
ghost use Rattle.board_defs.specs.Passes.{passes_of};
ghost use Rattle.board_defs.specs.Pins.{guarded_at};
ghost use Rattle.board_defs.specs.Settings.{holds};
ghost use Rattle.scan_planner.specs.Plans.{ArePlannable};
ghost use Rattle.walk_test.specs.WalkTest.{without_switching, walk_setting};
ghost use Rattle.walk_test.specs.inner.Setting.{own_switch, entry_switch, pin_switch, with_some, with_pins, all_switching};

use board_defs::{Cell, Control, Ctl, Net, NetPin, Setting, law};
use lists::push_if;
use net_pins::BoardPins;
use scan_planner::law::useful_planned;
use std::alloc::{AllocError, Global};

// Returns the control of a driver with own cell `num`, if the control cell is this cell and the net is pulled to the
// disable value.
fn own_switch(part: u32, num: u32, pull: Option<bool>, control: Control) -> Option<Ctl>
    ensures { result ≡ own_switch part num pull (Some control) }
{
    let cell = control.cell;
    if cell == num && pull == Some(control.disable) {
        Some(Ctl { part, cell })
    } else {
        None
    }
}

// Returns the control of a pin with this driving entry, if the pin is a switching driver. The pin must be on an
// unguarded net with this pull.
fn entry_switch(part: u32, pull: Option<bool>, entry: Cell) -> Option<Ctl>
    ensures { result ≡ entry_switch part pull (Some entry) }
{
    match entry.ctl {
        None => None,
        Some(control) => own_switch(part, entry.num, pull, control),
    }
}

// Returns the control of this pin, if the pin is a switching driver. The pin must be on an unguarded net with this
// pull.
fn pin_switch(board: &BoardPins<'_>, pull: Option<bool>, pin: &NetPin) -> Option<Ctl>
    ensures { result ≡ pin_switch board.now pull pin.now.at }
{
    match pin.at {
        None => None,
        Some(at) => match board.driving_entry(at) {
            None => None,
            Some(entry) => entry_switch(at.part, pull, entry),
        },
    }
}

fn add_some(setting: &mut Setting, control: Option<Ctl>) -> Result<(), AllocError>
    ensures { OnOk result (setting.new ≡ with_some setting.old control) }
{
    match control {
        None => Ok(()),
        Some(c) => setting.add(c),
    }
}

// Adds the controls of the switching drivers among these pins of a net. The net must be unguarded and have this pull.
fn add_pins(
    board: &BoardPins<'_>,
    pull: Option<bool>,
    pins: &[NetPin],
    setting: &mut Setting,
) -> Result<(), AllocError>
    ensures { OnOk result (setting.new ≡ with_pins board.now pull setting.old pins.now) }
{
    for pin in pins {
        add_some(setting, pin_switch(board, pull, pin))?;
    }
    Ok(())
}

// Adds the controls of the switching drivers of net `n`. A guarded net has no switching driver.
fn add_net(
    board: &BoardPins<'_>,
    n: usize,
    net: &Net,
    setting: &mut Setting,
) -> Result<(), AllocError>
    ensures { OnOk result
        (setting.new
        ≡ (if guarded_at board.now n then setting.old
        else with_pins board.now net.now.pull setting.old net.now.pins)) }
{
    if board.is_guarded(n) {
        return Ok(());
    }
    add_pins(board, net.pull, net.pins.as_slice(), setting)
}

// Returns the controls of all switching drivers of the board.
fn switching_of(alloc: Global, board: &BoardPins<'_>) -> Result<Setting, AllocError>
    ensures { IfOk result (λ setting. setting ≡ all_switching board.now board.now.nets) }
{
    let nets = board.raw().nets.as_slice();
    let mut setting = Setting::new(alloc);
    for n in 0..nets.len() {
        add_net(board, n, &nets[n], &mut setting)?;
    }
    Ok(setting)
}

// Returns those of `controls` that `set` does not hold, in the same order.
fn others(alloc: Global, controls: &[Ctl], set: &Setting) -> Result<Vec<Ctl>, AllocError>
    ensures { IfOk result (λ left. left.items ≡ filter (λ c. not (holds set.now c)) controls.now) }
{
    let mut left = Vec::new(alloc);
    for c in controls {
        push_if(&mut left, *c, !set.has(*c))?;
    }
    Ok(left)
}

// Returns a pass without the controls of switching drivers.
fn without_switching(
    alloc: Global,
    board: &BoardPins<'_>,
    pass: &Setting,
) -> Result<Setting, AllocError>
    ensures { IfOk result (λ setting. setting ≡ without_switching board.now pass.now) }
{
    let switching = switching_of(alloc, board)?;
    let left = others(alloc, pass.controls(), &switching)?;
    Ok(Setting::of(left))
}

fn only(alloc: Global, setting: Setting) -> Result<Vec<Setting>, AllocError>
    ensures { IfOk result (λ settings. settings.items ≡ setting ∷ []) }
{
    let mut settings = Vec::new(alloc);
    settings.push(setting)?;
    Ok(settings)
}

/// Returns the passes of a plan for the walk: the walk setting if the board has a pass, and otherwise no pass. The
/// first of `passes` must be the first pass of the board's test.
pub fn walk_settings(
    alloc: Global,
    board: &BoardPins<'_>,
    passes: &[Setting],
) -> Result<Vec<Setting>, AllocError>
    requires { slice_get passes.now 0 ≡ slice_get (passes_of board.now) 0 }
    ensures settings { IfOk result
        (λ settings. settings.items ≡ option_to_list (walk_setting board.now)) }
    ensures plannable { IfOk result (λ settings. ArePlannable board.now settings.items) }
{
    let _rules = board.raw();
    law::passes_kept();
    law::terms_decided();
    useful_planned();
    match passes.first() {
        None => Ok(Vec::new(alloc)),
        Some(pass) => only(alloc, without_switching(alloc, board, pass)?),
    }
}
