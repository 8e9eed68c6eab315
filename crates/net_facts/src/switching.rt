// The port bits whose pins are on unguarded nets that are pulled to a given value. `NetFacts` says when a net is
// guarded.
ghost use Rattle.std.specs.Prelude.{◌≡◌, false, fold, replicate, IfOk};
ghost use Rattle.board_defs.specs.Pins.{described};
ghost use Rattle.board_defs.specs.Decided.{bit_count};
ghost use Rattle.net_facts.specs.Cells.{table};
ghost use Rattle.net_facts.specs.inner.Switching.{blank_bits, is_marked, mark_at, mark_pins, mark_pulled, pulled_bits};

use crate::cells::put_at;
use crate::facts::{NetFacts, PinFacts, is_pull};
use board_defs::{Ctl, Part, PartKind, PinAt};
use std::alloc::{AllocError, Global};

fn mark_place(rows: &mut [Vec<bool>], at: Option<PinAt>)
    ensures { table rows.new ≡ mark_at at (table rows.old) }
{
    match at {
        None => {}
        Some(at) => {
            let c = Ctl {
                part: at.part,
                cell: at.bit,
            };
            put_at(rows, c, true);
        }
    }
}

fn mark_pins(rows: &mut [Vec<bool>], pins: &[PinFacts])
    ensures { table rows.new ≡ mark_pins (table rows.old) pins.now }
{
    for pin in pins {
        mark_place(rows, pin.at);
    }
}

fn mark_net(rows: &mut [Vec<bool>], net: &NetFacts, value: bool)
    ensures { table rows.new ≡ mark_pulled value (table rows.old) net.now }
{
    let pulled = is_pull(value, net.pull);
    if !net.guarded && pulled {
        mark_pins(rows, net.pins.as_slice());
    }
}

fn mark_nets(rows: &mut [Vec<bool>], nets: &[NetFacts], value: bool)
    ensures { table rows.new ≡ fold (mark_pulled value) (table rows.old) nets.now }
{
    for net in nets {
        mark_net(rows, net, value);
    }
}

fn bits_of(kind: &PartKind) -> usize
    ensures { result ≡ bit_count (described kind.now) }
{
    match kind.device() {
        None => 0,
        Some(device) => device.bits.len(),
    }
}

fn blank_row(alloc: Global, bits: usize) -> Result<Vec<bool>, AllocError>
    ensures { IfOk result (λ row. row.items ≡ replicate bits false) }
{
    let row = vec![in alloc; false; bits]?;
    Ok(row)
}

fn blank_table(alloc: Global, chain: &[Part]) -> Result<Vec<Vec<bool>>, AllocError>
    ensures { IfOk result (λ rows. table rows.items ≡ blank_bits chain.now) }
{
    let mut rows = Vec::with_capacity(alloc, chain.len())?;
    for part in chain {
        rows.push(blank_row(alloc, bits_of(&part.kind))?)?;
    }
    Ok(rows)
}

/// Returns a flag for each port bit of each part, which is true if the bit's pin is on an unguarded net that is pulled
/// to `value`.
pub fn pulled_bits(
    alloc: Global,
    chain: &[Part],
    nets: &[NetFacts],
    value: bool,
) -> Result<Vec<Vec<bool>>, AllocError>
    ensures { IfOk result (λ rows. table rows.items ≡ pulled_bits chain.now nets.now value) }
{
    let mut rows = blank_table(alloc, chain)?;
    mark_nets(&mut rows, nets, value);
    Ok(rows)
}

/// Returns whether the flag of the port bit is set. Returns false if the table has no such port bit.
pub fn is_marked(rows: &[Vec<bool>], at: PinAt) -> bool
    ensures { result ≡ is_marked (table rows.now) at }
{
    match rows.get(at.part as usize) {
        None => false,
        Some(row) => match row.get(at.bit as usize) {
            None => false,
            Some(marked) => *marked,
        },
    }
}
