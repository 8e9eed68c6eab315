// The table of controls. For each control, it has the nets on which the control has drivers, and says whether
// the control is safe alone and whether it is useful. A control is useful if it is safe alone and enables a
// tested driver.
ghost use Rattle.std.specs.Prelude.{◌≡◌, ◌<◌, ◌≤◌, length, fold, map, OnOk, IfOk};
ghost use Rattle.board_defs.specs.Limits.{most_bits, most_nets};
ghost use Rattle.board_defs.specs.Pins.{cell_count, described};
ghost use Rattle.board_defs.specs.Decided.{own_control, count_port_bits};
ghost use Rattle.net_facts.specs.Cells.{table, at_control, update_at};
ghost use Rattle.net_facts.specs.Facts.{net_facts_of};
ghost use Rattle.net_facts.specs.inner.Rows.{with_one_driver, block_bits, block_parts, block_where, ends_with, copies, fresh, fresh_rows, made_rows, mark_drive, mark_nets, note_drive, note_nets, note_pins, unsafe_too, useful_too};

use crate::classes::{ControlClass, NetClass};
use crate::facts::{NetFacts, PinFacts};
use crate::pulled_board::PulledBoard;
use board_defs::{Ctl, Drive, Items, Part, PartKind, PinAt};
use net_pins::BoardPins;
use std::alloc::{AllocError, Global};

fn is_last(nets: &[u32], net: u32) -> bool
    ensures { result ≡ ends_with nets.now net }
{
    match nets.last() {
        Some(last) => *last == net,
        None => false,
    }
}

/// Records in `row` that its control has one more driver, on net number `net`. Marks the control as unsafe if it now
/// has two drivers on this net, or if `closed` is true. `closed` says that no control may enable a driver of this net.
/// Drivers are added in net order, so only the last net in the row can be `net`.
fn add(row: &mut ControlClass, net: u32, closed: bool) -> Result<(), AllocError>
    ensures { OnOk result (row.new ≡ with_one_driver net closed row.old) }
{
    if is_last(row.nets.as_slice(), net) {
        row.safe = false;
    } else {
        row.nets.push(net)?;
        row.safe = row.safe && !closed;
    }
    Ok(())
}

fn add_in_part(
    row: &mut Vec<ControlClass>,
    cell: u32,
    net: u32,
    closed: bool,
) -> Result<(), AllocError>
    ensures { OnOk result
        (row.new.items ≡ update_at cell (with_one_driver net closed) row.old.items) }
{
    if (cell as usize) < row.len() {
        add(&mut row[cell as usize], net, closed)
    } else {
        Ok(())
    }
}

fn add_at(rows: &mut [Vec<ControlClass>], c: Ctl, net: u32, closed: bool) -> Result<(), AllocError>
    ensures { OnOk result
        (table rows.new ≡ at_control c (with_one_driver net closed) (table rows.old)) }
{
    if (c.part as usize) < rows.len() {
        add_in_part(&mut rows[c.part as usize], c.cell, net, closed)
    } else {
        Ok(())
    }
}

fn note_pin(
    rows: &mut [Vec<ControlClass>],
    net: u32,
    closed: bool,
    drive: Option<Drive>,
) -> Result<(), AllocError>
    ensures { OnOk result (table rows.new ≡ note_drive net closed drive (table rows.old)) }
{
    match drive {
        Some(Drive::By(c)) => add_at(rows, c, net, closed),
        _ => Ok(()),
    }
}

fn note_net(
    rows: &mut [Vec<ControlClass>],
    net: u32,
    closed: bool,
    pins: &[PinFacts],
) -> Result<(), AllocError>
    ensures { OnOk result (table rows.new ≡ note_pins net closed (table rows.old) pins.now) }
{
    for pin in pins {
        note_pin(rows, net, closed, pin.drive)?;
    }
    Ok(())
}

/// Adds to each control the nets on which it has drivers. Marks a control as unsafe if it has two drivers on one of the
/// nets, or a driver on a net on which no control may enable a driver. There must be at most 16,382 nets.
fn note_all(rows: &mut [Vec<ControlClass>], nets: &[NetFacts]) -> Result<(), AllocError>
    requires { length nets.now ≤ most_nets }
    ensures { OnOk result (table rows.new ≡ note_nets nets.now (length nets.now) (table rows.old)) }
{
    for (n, net) in nets.iter().enumerate() {
        note_net(rows, n as u32, net.closed, net.pins.as_slice())?;
    }
    Ok(())
}

fn block(row: &mut Vec<ControlClass>, cell: u32)
    ensures { row.new.items ≡ update_at cell unsafe_too row.old.items }
{
    if (cell as usize) < row.len() {
        row[cell as usize].safe = false;
    }
}

fn block_at(rows: &mut [Vec<ControlClass>], c: Ctl)
    ensures { table rows.new ≡ at_control c unsafe_too (table rows.old) }
{
    if (c.part as usize) < rows.len() {
        block(&mut rows[c.part as usize], c.cell);
    }
}

fn mark(row: &mut Vec<ControlClass>, cell: u32)
    ensures { row.new.items ≡ update_at cell useful_too row.old.items }
{
    if (cell as usize) < row.len() {
        row[cell as usize].useful = true;
    }
}

fn mark_at(rows: &mut [Vec<ControlClass>], c: Ctl)
    ensures { table rows.new ≡ at_control c useful_too (table rows.old) }
{
    if (c.part as usize) < rows.len() {
        mark(&mut rows[c.part as usize], c.cell);
    }
}

fn mark_one(rows: &mut [Vec<ControlClass>], drive: Drive)
    ensures { table rows.new ≡ mark_drive (table rows.old) drive }
{
    match drive {
        Drive::By(c) => mark_at(rows, c),
        _ => {}
    }
}

fn mark_drivers(rows: &mut [Vec<ControlClass>], drivers: &[Drive])
    ensures { table rows.new ≡ fold mark_drive (table rows.old) drivers.now }
{
    for drive in drivers {
        mark_one(rows, *drive);
    }
}

/// Marks the controls of the nets' tested drivers as useful.
pub fn mark_useful(rows: &mut [Vec<ControlClass>], nets: &[NetClass])
    ensures { table rows.new ≡ mark_nets (table rows.old) nets.now }
{
    for net in nets {
        mark_drivers(rows, net.drivers.as_slice());
    }
}

/// Returns the number of the part's boundary cells. A part without a description has none. The table of controls has an
/// item for each cell.
pub fn cells_of(kind: &PartKind) -> u32
    ensures { result ≡ cell_count (described kind.now) }
{
    match kind.device() {
        Some(device) => device.boundary,
        None => 0,
    }
}

fn fresh_part(alloc: Global, cells: u32) -> Result<Vec<ControlClass>, AllocError>
    ensures { IfOk result (λ row. row.items ≡ copies fresh cells) }
{
    let mut row = Vec::with_capacity(alloc, cells as usize)?;
    for _cell in 0..cells {
        let class = ControlClass {
            nets: Items::none(alloc),
            safe: true,
            useful: false,
        };
        row.push(class)?;
    }
    Ok(row)
}

fn fresh_table(alloc: Global, chain: &[Part]) -> Result<Vec<Vec<ControlClass>>, AllocError>
    ensures { IfOk result (λ rows. table rows.items ≡ fresh_rows chain.now) }
{
    let mut rows = Vec::with_capacity(alloc, chain.len())?;
    for part in chain {
        rows.push(fresh_part(alloc, cells_of(&part.kind))?)?;
    }
    Ok(rows)
}

/// Marks the control of the port bit's driver as unsafe if the driver is one-sided. The part must have this port bit.
fn block_pin(rows: &mut [Vec<ControlClass>], board: &PulledBoard<'_, '_>, at: PinAt)
    requires { at.bit < count_port_bits board.now at.part }
    ensures { table rows.new
        ≡ block_where board.now at (own_control board.now at) (table rows.old) }
{
    match board.own_control(at) {
        None => {}
        Some(control) => {
            let ctl = Ctl {
                part: at.part,
                cell: control.cell,
            };
            if board.is_pinned(at) && !board.is_switching(at, control.disable) {
                block_at(rows, ctl);
            }
        }
    }
}

fn block_part(rows: &mut [Vec<ControlClass>], board: &PulledBoard<'_, '_>, part: u32)
    requires { count_port_bits board.now part ≤ most_bits }
    ensures { table rows.new
        ≡ block_bits board.now part (count_port_bits board.now part) (table rows.old) }
{
    for bit in 0..board.port_bits(part) {
        block_pin(
            rows,
            board,
            PinAt {
                part,
                bit: bit as u32,
            },
        );
    }
}

fn block_all(rows: &mut [Vec<ControlClass>], board: &PulledBoard<'_, '_>)
    ensures { table rows.new ≡ block_parts board.now (length board.now.chain) (table rows.old) }
{
    board.meets_rules();
    for part in 0..board.parts() {
        block_part(rows, board, part as u32);
    }
}

/// Returns the table of controls, in which no control is marked as useful yet. `nets` must have the facts about the
/// board's nets.
pub fn control_rows(
    alloc: Global,
    board: &BoardPins<'_>,
    nets: &[NetFacts],
) -> Result<Vec<Vec<ControlClass>>, AllocError>
    requires { nets.now ≡ map (net_facts_of board.now) board.now.nets }
    ensures { IfOk result (λ rows. table rows.items ≡ made_rows board.now nets.now) }
{
    let pulled = PulledBoard::of(alloc, board, nets)?;
    let mut rows = fresh_table(alloc, board.raw().chain.as_slice())?;
    note_all(&mut rows, nets)?;
    block_all(&mut rows, &pulled);
    Ok(rows)
}
