// Writes the lines of the text of a set of groups. A group consists of walk nets that are shorted together.
// The walk nets are the nets that the walking test observes.
ghost use Rattle.std.specs.Prelude.{◌≡◌, [], ◌∷◌, codes};
ghost use Rattle.line_printer.specs.Prints.{Prints, line_of};
ghost use Rattle.walk_test.specs.GroupText.{size_line, group_count_line};

use bt_base::{PutFault, Sink};
use bt_bits::Line;
use itoa::Buffer;
use line_printer::put_line;

/// Writes the line that says that no set of groups explains the log.
pub fn put_none<K: Sink>(line: &mut Line, out: &mut K) -> Result<(), PutFault>
    ensures { Prints (K.shown out.old) (K.shown out.new) [] [] (line_of (codes "GROUPS none" ∷ []))
        result }
{
    put_line(&[b"GROUPS none"], line, out)
}

/// Writes the line with the number of groups.
pub fn put_count<K: Sink>(count: u64, line: &mut Line, out: &mut K) -> Result<(), PutFault>
    ensures { Prints (K.shown out.old) (K.shown out.new) [] [] (group_count_line count) result }
{
    let mut buffer = Buffer::new();
    let count = buffer.format(count).as_bytes();
    put_line(&[b"GROUPS ".as_slice(), count], line, out)
}

/// Writes the line with the number of nets of a group.
pub fn put_size<K: Sink>(size: u64, line: &mut Line, out: &mut K) -> Result<(), PutFault>
    ensures { Prints (K.shown out.old) (K.shown out.new) [] [] (size_line size) result }
{
    let mut buffer = Buffer::new();
    let size = buffer.format(size).as_bytes();
    put_line(&[b"GROUP ".as_slice(), size], line, out)
}

/// Writes the line of a net of a group.
pub fn put_net<K: Sink>(name: &[u8], line: &mut Line, out: &mut K) -> Result<(), PutFault>
    ensures { Prints (K.shown out.old) (K.shown out.new) [] []
        (line_of (codes "NET " ∷ name.now ∷ [])) result }
{
    put_line(&[b"NET ".as_slice(), name], line, out)
}
