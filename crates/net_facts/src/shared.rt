// The nets with drivers of two or more controls. Two controls that are safe alone can be unsafe together only if they
// share such a net.
ghost use Rattle.std.specs.Prelude.{◌≡◌, false, filter, map, slice_index_or, IfOk};
ghost use Rattle.net_facts.specs.Cells.{table};
ghost use Rattle.net_facts.specs.inner.Shared.{contended_in, controls_of_pins, flags_of, shared_in, with_control, with_drive};

use crate::classes::ControlClass;
use crate::facts::{NetFacts, PinFacts};
use crate::net_numbers::{NetNumbers, push_if};
use board_defs::{Ctl, Drive};
use lists::{Items, is_set};
use std::alloc::{AllocError, Global};

/// The controls of the drivers seen so far: none, one, or several. The control is known only if there is just one.
#[derive(Clone, Copy)]
pub enum Controls {
    Nobody,
    One(Ctl),
    Several,
}

impl Controls {
    fn with_control(self, c: Ctl) -> Controls
        ensures { result ≡ with_control self c }
    {
        match self {
            Controls::Nobody => Controls::One(c),
            Controls::One(d) => {
                if d.is_same(c) {
                    Controls::One(d)
                } else {
                    Controls::Several
                }
            }
            Controls::Several => Controls::Several,
        }
    }

    fn with_drive(self, drive: Option<Drive>) -> Controls
        ensures { result ≡ with_drive self drive }
    {
        match drive {
            Some(Drive::By(c)) => self.with_control(c),
            _ => self,
        }
    }
}

fn controls_of(pins: &[PinFacts]) -> Controls
    ensures { result ≡ controls_of_pins pins.now }
{
    let mut controls = Controls::Nobody;
    for pin in pins {
        controls = controls.with_drive(pin.drive);
    }
    controls
}

/// Returns whether the net has drivers of two different controls.
fn is_contended(pins: &[PinFacts]) -> bool
    ensures { result ≡ contended_in pins.now }
{
    match controls_of(pins) {
        Controls::Nobody => false,
        Controls::One(_) => false,
        Controls::Several => true,
    }
}

/// Returns a flag for each net, which is true if the net has drivers of two different controls.
pub fn contended_nets(alloc: Global, nets: &[NetFacts]) -> Result<Vec<bool>, AllocError>
    ensures { IfOk result (λ flags. flags.items ≡ flags_of nets.now) }
{
    let mut flags = Vec::with_capacity(alloc, nets.len())?;
    for net in nets {
        flags.push(is_contended(net.pins.as_slice()))?;
    }
    Ok(flags)
}

fn shared_of(alloc: Global, flags: &[bool], nets: &[u32]) -> Result<NetNumbers, AllocError>
    ensures { IfOk result
        (λ shared. shared ≡ filter (λ n. slice_index_or flags.now n false) nets.now) }
{
    let mut shared = Items::none(alloc);
    for net in nets {
        push_if(&mut shared, *net, is_set(flags, *net as usize))?;
    }
    Ok(shared)
}

fn shared_row(
    alloc: Global,
    flags: &[bool],
    row: &[ControlClass],
) -> Result<Vec<NetNumbers>, AllocError>
    ensures { IfOk result (λ shared. shared.items ≡ map (shared_in flags.now) row.now) }
{
    let mut shared = Vec::with_capacity(alloc, row.len())?;
    for class in row {
        shared.push(shared_of(alloc, flags, class.nets.as_slice())?)?;
    }
    Ok(shared)
}

/// Returns, for each control, the numbers of the nets that it shares with another control. `flags` says of each net
/// whether it has drivers of two different controls.
pub fn shared_table(
    alloc: Global,
    flags: &[bool],
    rows: &[Vec<ControlClass>],
) -> Result<Vec<Vec<NetNumbers>>, AllocError>
    ensures { IfOk result
        (λ shared. table shared.items ≡ map (λ row. map (shared_in flags.now) row.items) rows.now) }
{
    let mut shared = Vec::with_capacity(alloc, rows.len())?;
    for row in rows {
        shared.push(shared_row(alloc, flags, row)?)?;
    }
    Ok(shared)
}
