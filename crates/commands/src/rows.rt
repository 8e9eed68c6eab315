// The buffers that a command uses for the bits of each scan and for its output.
ghost use Rattle.std.specs.Prelude.{◌≡◌, IfOk};
ghost use Rattle.commands.specs.inner.Rows.{EachStoredHasRoom};

use bt_bits::{Line, Row};
use std::alloc::{AllocError, Global};
use tap_defs::StoredRows;

/// The rows of a scan, one each for its TDI, TDO and MASK bits, and the line, a buffer in which output is collected. A command allocates
/// them once for its whole output.
#[derive(Drop)]
pub struct Rows {
    pub scan: StoredRows,
    pub line: Line,
}

impl Rows {
    /// Allocates three rows with room for `room` bits each, and a line.
    pub fn with_room(alloc: Global, room: u32) -> Result<Rows, AllocError>
        ensures { IfOk result (λ rows. EachStoredHasRoom (λ bits. bits ≡ room) rows.scan) }
    {
        Ok(Rows {
            scan: StoredRows {
                tdi: Row::with_room(alloc, room)?,
                tdo: Row::with_room(alloc, room)?,
                mask: Row::with_room(alloc, room)?,
            },
            line: Line::new(alloc)?,
        })
    }
}
