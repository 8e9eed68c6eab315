// Tables in which each row is a list.
ghost use Rattle.std.specs.Prelude.{◌≡◌, [], Some, replicate, IfOk, OnOk};
ghost use Rattle.lists.specs.Rows.{noted};

use crate::items::Items;
use std::alloc::{AllocError, Global};

/// Returns a table of `count` empty lists. Fails only if memory runs out.
pub fn blank<T: Drop>(alloc: Global, count: usize) -> Result<Vec<Items<T>>, AllocError>
    ensures { IfOk result (λ rows. rows.items ≡ replicate count []) }
{
    let mut rows = Vec::new(alloc);
    for _place in 0..count {
        rows.push(Items::none(alloc))?;
    }
    Ok(rows)
}

/// Appends the item to the list at `place`, counted from 0. Does nothing past the end. If memory
/// runs out, the content of the table is unspecified.
pub fn note<T: Drop>(rows: &mut [Items<T>], place: usize, item: T) -> Result<(), AllocError>
    ensures { OnOk result (rows.new ≡ noted rows.old (Some place) item) }
{
    if place < rows.len() {
        rows[place].push(item)?;
    }
    Ok(())
}

/// Like `note`, but also does nothing if `place` is None.
pub fn note_where<T: Drop>(
    rows: &mut [Items<T>],
    place: Option<u32>,
    item: T,
) -> Result<(), AllocError>
    ensures { OnOk result (rows.new ≡ noted rows.old place item) }
{
    match place {
        None => Ok(()),
        Some(place) => note(rows, place as usize, item),
    }
}
