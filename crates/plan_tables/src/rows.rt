// Makes a row from a slice of bits.
ghost use Rattle.std.specs.Prelude.{◌≡◌, ◌≤◌, length, IfOk};
ghost use Rattle.board_defs.specs.Limits.{most_bits};

use bt_bits::Row;
use std::alloc::{AllocError, Global};

/// Returns a row with these bits. There must be at most `most_bits` bits.
pub fn row_of(alloc: Global, bits: &[bool]) -> Result<Row, AllocError>
    requires { length bits.now ≤ most_bits }
    ensures { IfOk result (λ row. row.bits ≡ bits.now) }
{
    let mut row = Row::with_room(alloc, bits.len() as u32)?;
    row.copy_from(bits);
    Ok(row)
}
