// Writes the lines for words that form no command, for a text that was not read or is too long, for
// a failed write, and for lack of memory.
ghost use Rattle.bt_base.specs.Puts.{Puts};
ghost use Rattle.refusal_lines.specs.Refusals.{long_line, memory_line, read_line, usage_line, write_line};

use crate::pieces::put_all;
use bt_base::{PutFault, Sink};
use itoa::Buffer;

/// Writes the line for words that form no command.
pub fn put_usage<N: Sink>(notes: &mut N) -> Result<(), PutFault>
    ensures { Puts (N.shown notes.old) (N.shown notes.new) usage_line result }
{
    notes.put(
        b"usage: btest chain, device, cover, svf, diagnose, make, ident, walk, groups or batch\n",
    )
}

/// Writes the line for a text that could not be read.
pub fn put_not_read<N: Sink>(name: &str, notes: &mut N) -> Result<(), PutFault>
    ensures { Puts (N.shown notes.old) (N.shown notes.new) (read_line name.now) result }
{
    put_all(b"cannot read ", &[name.as_bytes(), b"\n"], notes)
}

/// Writes the line for a text with more than `limit` bytes.
pub fn put_too_long<N: Sink>(name: &str, limit: u32, notes: &mut N) -> Result<(), PutFault>
    ensures { Puts (N.shown notes.old) (N.shown notes.new) (long_line name.now limit) result }
{
    let mut number = Buffer::new();
    let limit = number.format(limit).as_bytes();
    put_all(
        name.as_bytes(),
        &[b": longer than ".as_slice(), limit, b" bytes\n".as_slice()],
        notes,
    )
}

/// Writes the line for a failed write.
pub fn put_not_written<N: Sink>(notes: &mut N) -> Result<(), PutFault>
    ensures { Puts (N.shown notes.old) (N.shown notes.new) write_line result }
{
    notes.put(b"cannot write\n")
}

/// Writes the line for lack of memory.
pub fn put_memory<N: Sink>(notes: &mut N) -> Result<(), PutFault>
    ensures { Puts (N.shown notes.old) (N.shown notes.new) memory_line result }
{
    notes.put(b"out of memory\n")
}
