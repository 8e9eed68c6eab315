// Tables with one item for each boundary cell of each part.
ghost use Rattle.std.specs.Prelude.{◌≡◌, map, IfOk};
ghost use Rattle.net_facts.specs.Cells.{item_of_cell, table, filled_with, put, at_control, update_at};

use board_defs::Ctl;
use std::alloc::{AllocError, Global};

/// Returns the item of the cell, or None if the table has no such cell.
pub fn item_at<T: Copy>(rows: &[Vec<T>], c: Ctl) -> Option<T>
    ensures { result ≡ item_of_cell (table rows.now) c }
{
    match rows.get(c.part as usize) {
        None => None,
        Some(row) => row.get(c.cell as usize).copied(),
    }
}

fn put_in<T: Copy>(row: &mut Vec<T>, cell: u32, item: T)
    ensures { row.new.items ≡ update_at cell (put item) row.old.items }
{
    if (cell as usize) < row.len() {
        row[cell as usize] = item;
    }
}

/// Replaces the item of the cell. Does nothing if the table has no such cell.
pub fn put_at<T: Copy>(rows: &mut [Vec<T>], c: Ctl, item: T)
    ensures { table rows.new ≡ at_control c (put item) (table rows.old) }
{
    if (c.part as usize) < rows.len() {
        put_in(&mut rows[c.part as usize], c.cell, item);
    }
}

fn filled_row<S, T: Copy>(alloc: Global, row: &[S], item: T) -> Result<Vec<T>, AllocError>
    ensures { IfOk result (λ items. items.items ≡ map (λ before. item) row.now) }
{
    let mut items = Vec::new(alloc);
    items.resize(row.len(), item)?;
    Ok(items)
}

/// Returns the table `rows` with every item replaced by `item`.
pub fn filled_table<S, T: Copy>(
    alloc: Global,
    rows: &[Vec<S>],
    item: T,
) -> Result<Vec<Vec<T>>, AllocError>
    ensures { IfOk result (λ made. table made.items ≡ filled_with item (table rows.now)) }
{
    let mut made = Vec::with_capacity(alloc, rows.len())?;
    for row in rows {
        made.push(filled_row(alloc, row, item)?)?;
    }
    Ok(made)
}
