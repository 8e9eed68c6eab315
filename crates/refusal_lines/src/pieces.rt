// Writes a line in several pieces, with one write for each piece.
ghost use Rattle.std.specs.Prelude.{◌≡◌, ◌++◌, map};
ghost use Rattle.bt_base.specs.Puts.{Puts};
ghost use Rattle.line_printer.specs.Prints.{whole};
ghost use Rattle.refusal_lines.specs.Refusals.{about, at_line, at_spot};

use board_defs::Spot;
use bt_base::{PutFault, Sink};
use itoa::Buffer;

// Writes the first piece, and then the pieces in `others`, from the first to the last.
pub fn put_all<N: Sink>(first: &[u8], others: &[&[u8]], notes: &mut N) -> Result<(), PutFault>
    ensures { Puts (N.shown notes.old) (N.shown notes.new)
        (first.now ++ whole (map (λ p. p.now) others.now)) result }
{
    notes.put(first)?;
    for piece in others {
        notes.put(piece)?;
    }
    Ok(())
}

// Writes the name of a text, the number of a line, and what is wrong with the line.
pub fn put_at_line<N: Sink>(
    name: &str,
    line: u32,
    wrong: &[u8],
    notes: &mut N,
) -> Result<(), PutFault>
    ensures { Puts (N.shown notes.old) (N.shown notes.new) (at_line name.now line wrong.now)
        result }
{
    let mut number = Buffer::new();
    let number = number.format(line).as_bytes();
    put_all(
        name.as_bytes(),
        &[b" line ".as_slice(), number, wrong],
        notes,
    )
}

// Writes the name of a text, the numbers of a line and a word, and what is wrong with the word.
pub fn put_at_spot<N: Sink>(
    name: &str,
    spot: Spot,
    wrong: &[u8],
    notes: &mut N,
) -> Result<(), PutFault>
    ensures { Puts (N.shown notes.old) (N.shown notes.new) (at_spot name.now spot wrong.now)
        result }
{
    let mut line = Buffer::new();
    let line = line.format(spot.line).as_bytes();
    let mut word = Buffer::new();
    let word = word.format(spot.word).as_bytes();
    put_all(
        name.as_bytes(),
        &[
            b" line ".as_slice(),
            line,
            b" word ".as_slice(),
            word,
            wrong,
        ],
        notes,
    )
}

// Writes the name of a text, and what is wrong with the text.
pub fn put_about<N: Sink>(name: &str, wrong: &[u8], notes: &mut N) -> Result<(), PutFault>
    ensures { Puts (N.shown notes.old) (N.shown notes.new) (about name.now wrong.now) result }
{
    put_all(name.as_bytes(), &[wrong], notes)
}
