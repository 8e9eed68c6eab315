// Finds the useful controls. A control is useful if it is safe alone and enables a tested driver.
ghost use Rattle.std.specs.Prelude.{◌≡◌, ◌++◌, filter, IfOk, OnOk};
ghost use Rattle.board_defs.specs.Passes.{all_cells, cells_of};
ghost use Rattle.net_facts.specs.Cells.{table};
ghost use Rattle.net_facts.specs.inner.Answers.{useful_in};

use crate::classes::ControlClass;
use crate::controls::cells_of;
use crate::tested::is_useful;
use board_defs::{Ctl, PartKind};
use lists::push_if;
use net_pins::BoardPins;
use std::alloc::{AllocError, Global};

fn add_part(
    useful: &mut Vec<Ctl>,
    rows: &[Vec<ControlClass>],
    part: u32,
    kind: &PartKind,
) -> Result<(), AllocError>
    ensures { OnOk result
        (useful.new.items
        ≡ useful.old.items ++ filter (useful_in (table rows.now)) (cells_of part kind.now)) }
{
    for cell in 0..cells_of(kind) {
        let c = Ctl { part, cell };
        push_if(useful, c, is_useful(rows, c))?;
    }
    Ok(())
}

/// Returns the controls that the table marks as useful, in control order.
pub fn useful_controls(
    alloc: Global,
    rows: &[Vec<ControlClass>],
    board: &BoardPins<'_>,
) -> Result<Vec<Ctl>, AllocError>
    ensures { IfOk result
        (λ useful. useful.items ≡ filter (useful_in (table rows.now)) (all_cells board.now)) }
{
    let mut useful = Vec::new(alloc);
    for (part, item) in board.raw().chain.as_slice().iter().enumerate() {
        add_part(&mut useful, rows, part as u32, &item.kind)?;
    }
    Ok(useful)
}
