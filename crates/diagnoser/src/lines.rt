// Writes the lines of a diagnosis.
ghost use Rattle.std.specs.Prelude.{[], ◌∷◌, Some, codes};
ghost use Rattle.line_printer.specs.Prints.{Prints, line_of};
ghost use Rattle.diagnoser.specs.DiagText.{stuck_line, open_line, short_fault_line, short_line, fail_line};

use board_defs::{Kind, NetPin};
use bt_base::{PutFault, Sink};
use bt_bits::Line;
use itoa::Buffer;
use line_printer::{bit_word, put_line};

/// Writes the line `PASS`.
pub fn put_pass<K: Sink>(line: &mut Line, out: &mut K) -> Result<(), PutFault>
    ensures { Prints (K.shown out.old) (K.shown out.new) [] [] (line_of (codes "PASS" ∷ []))
        result }
{
    put_line(&[b"PASS"], line, out)
}

/// Writes the line `FAIL` with the number of faults.
pub fn put_fail<K: Sink>(count: u64, line: &mut Line, out: &mut K) -> Result<(), PutFault>
    ensures { Prints (K.shown out.old) (K.shown out.new) [] [] (fail_line count) result }
{
    let mut buffer = Buffer::new();
    let count = buffer.format(count).as_bytes();
    put_line(&[b"FAIL ".as_slice(), count], line, out)
}

fn put_stuck_word<K: Sink>(
    name: &[u8],
    word: &[u8],
    line: &mut Line,
    out: &mut K,
) -> Result<(), PutFault>
    ensures { Prints (K.shown out.old) (K.shown out.new) [] []
        (line_of (codes "stuck " ∷ name.now ∷ codes " " ∷ word.now ∷ [])) result }
{
    put_line(&[b"stuck ".as_slice(), name, b" ", word], line, out)
}

/// Writes the line of a stuck net, with the net's name and the value that the net is stuck at.
pub fn put_stuck<K: Sink>(
    name: &[u8],
    value: bool,
    line: &mut Line,
    out: &mut K,
) -> Result<(), PutFault>
    ensures { Prints (K.shown out.old) (K.shown out.new) [] [] (stuck_line name.now value) result }
{
    put_stuck_word(name, bit_word(value), line, out)
}

fn put_open_word<K: Sink>(
    pin: &NetPin,
    word: &[u8],
    line: &mut Line,
    out: &mut K,
) -> Result<(), PutFault>
    ensures { Prints (K.shown out.old) (K.shown out.new) [] []
        (line_of
        (codes "open " ∷ pin.now.part ∷ codes "." ∷ pin.now.pin ∷ codes " " ∷ word.now ∷ []))
        result }
{
    put_line(
        &[
            b"open ".as_slice(),
            pin.part.bytes(),
            b".",
            pin.pin.bytes(),
            b" ",
            word,
        ],
        line,
        out,
    )
}

/// Writes the line of an open pin, with the pin and the value that the pin reads.
pub fn put_open<K: Sink>(
    pin: &NetPin,
    value: bool,
    line: &mut Line,
    out: &mut K,
) -> Result<(), PutFault>
    ensures { Prints (K.shown out.old) (K.shown out.new) [] [] (open_line (Some pin.now) value)
        result }
{
    put_open_word(pin, bit_word(value), line, out)
}

fn put_pair<K: Sink>(
    word: &[u8],
    x: &[u8],
    y: &[u8],
    line: &mut Line,
    out: &mut K,
) -> Result<(), PutFault>
    ensures { Prints (K.shown out.old) (K.shown out.new) [] []
        (short_fault_line word.now x.now y.now) result }
{
    put_line(&[b"short ".as_slice(), word, b" ", x, b" ", y], line, out)
}

/// Writes the line of a short of the nets named `a` and `b`. If one net dominates the other, the line has the name of the dominating net
/// first.
pub fn put_short<K: Sink>(
    kind: Kind,
    a: &[u8],
    b: &[u8],
    line: &mut Line,
    out: &mut K,
) -> Result<(), PutFault>
    ensures { Prints (K.shown out.old) (K.shown out.new) [] [] (short_line kind a.now b.now)
        result }
{
    match kind {
        Kind::And => put_pair(b"AND", a, b, line, out),
        Kind::Or => put_pair(b"OR", a, b, line, out),
        Kind::First => put_pair(b"DOM", a, b, line, out),
        Kind::Second => put_pair(b"DOM", b, a, line, out),
    }
}
