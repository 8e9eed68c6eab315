// Prints text of any length to a sink through a `Line`, which is a buffer of `MAX_LINE` bytes.
ghost use Rattle.std.specs.Prelude.{◌≡◌, ◌<◌, ℕ, List, [], ◌∷◌, ◌++◌, length, map, OnOk};
ghost use Rattle.bt_base.specs.Puts.{Puts};
ghost use Rattle.line_printer.specs.Prints.{Prints, bit_word, line_of, whole};

use bt_base::{PutFault, Sink};
use bt_bits::{Line, MAX_LINE};

// If the buffer `line` is full, writes it to the sink and empties it.
fn make_room<K: Sink>(line: &mut Line, out: &mut K) -> Result<(), PutFault>
    ensures text { Prints (K.shown out.old) (K.shown out.new) line.old line.new [] result }
    ensures room { OnOk result (length line.new < 1024) }
{
    if line.len() < MAX_LINE {
        return Ok(());
    }
    out.put(line.bytes())?;
    line.clear();
    Ok(())
}

// Like `print`, but for a text that may not fit into the buffer `line`.
fn print_parts<K: Sink>(text: &[u8], line: &mut Line, out: &mut K) -> Result<(), PutFault>
    ensures { Prints (K.shown out.old) (K.shown out.new) line.old line.new text.now result }
{
    let mut at = 0;
    while at < text.len() {
        make_room(line, out)?;
        let count = (text.len() - at).min(MAX_LINE - line.len());
        line.push(&text[at..at + count]);
        at += count;
    }
    Ok(())
}

/// Appends a text to the buffer `line`. Whenever the buffer is full and more bytes follow, writes
/// it to the sink and empties it. The call fails only if the sink fails. The sink has then taken
/// some prefix of these bytes: the old content of the buffer, and after it the text.
#[inline]
pub fn print<K: Sink>(text: &[u8], line: &mut Line, out: &mut K) -> Result<(), PutFault>
    ensures { Prints (K.shown out.old) (K.shown out.new) line.old line.new text.now result }
{
    // Most texts fit into the line.
    if text.len() <= MAX_LINE - line.len() {
        line.push(text);
        return Ok(());
    }
    print_parts(text, line, out)
}

/// Prints the pieces in order, each as `print` does.
pub fn print_all<K: Sink>(pieces: &[&[u8]], line: &mut Line, out: &mut K) -> Result<(), PutFault>
    ensures { Prints (K.shown out.old) (K.shown out.new) line.old line.new
        (whole (map (λ p. p.now) pieces.now)) result }
{
    for piece in pieces {
        print(piece, line, out)?;
    }
    Ok(())
}

/// Empties the buffer `line`, and then prints the pieces as `print_all` does. The old content of
/// the buffer is lost.
pub fn begin_line<K: Sink>(pieces: &[&[u8]], line: &mut Line, out: &mut K) -> Result<(), PutFault>
    ensures { Prints (K.shown out.old) (K.shown out.new) [] line.new
        (whole (map (λ p. p.now) pieces.now)) result }
{
    line.clear();
    print_all(pieces, line, out)
}

/// Appends a line feed to the buffer `line` and writes the buffer to the sink. If the buffer is
/// full, first writes and empties it. After the call, the content of the buffer is unspecified.
pub fn end_line<K: Sink>(line: &mut Line, out: &mut K) -> Result<(), PutFault>
    ensures { Prints (K.shown out.old) (K.shown out.new) line.old [] (10 ∷ []) result }
{
    make_room(line, out)?;
    line.push(b"\n");
    out.put(line.bytes())
}

/// Writes a line of text that consists of these pieces and a line feed. If this text has at most
/// `MAX_LINE` bytes, the sink gets it in one write. The old content of the buffer `line` is lost.
pub fn put_line<K: Sink>(pieces: &[&[u8]], line: &mut Line, out: &mut K) -> Result<(), PutFault>
    ensures { Prints (K.shown out.old) (K.shown out.new) [] []
        (line_of (map (λ p. p.now) pieces.now)) result }
{
    begin_line(pieces, line, out)?;
    end_line(line, out)
}

/// Returns the digit of a bit.
pub fn bit_word(bit: bool) -> &'static [u8]
    ensures { result.now ≡ bit_word bit }
{
    if bit { b"1" } else { b"0" }
}
