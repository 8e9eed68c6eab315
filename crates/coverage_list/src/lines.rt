// Writes the lines of the coverage list. The parameter `line` of these functions is a buffer for the bytes of one line.
ghost use Rattle.std.specs.Prelude.{◌≡◌, [], ◌∷◌, Some, codes, decimal};
ghost use Rattle.line_printer.specs.Prints.{Prints, line_of};
ghost use Rattle.coverage_list.specs.CoverText.{reason_word, use_word, reason_line, pin_line, pair_line};

use board_defs::{Name, Net, NetPin, Reason};
use bt_base::{PutFault, Sink};
use bt_bits::Line;
use itoa::Buffer;
use line_printer::put_line;

/// A role in which a pin can be tested.
#[derive(Clone, Copy, Debug, PartialEq, Eq)]
pub enum PinUse {
    Driver,
    Receiver,
}

/// A section of the list: lines of one kind, in net order.
#[derive(Clone, Copy, Debug, PartialEq, Eq)]
pub enum Section {
    /// The nets that are not covered, each with its reason.
    Reasons,
    /// The untested pins of covered nets in one role, as drivers or as receivers.
    Untested(PinUse),
    /// Any two covered nets that are not *paired*: no safe setting observes both.
    Pairs,
}

fn reason_word(reason: Reason) -> &'static [u8]
    ensures { result.now ≡ reason_word reason }
{
    match reason {
        Reason::Supply => b"SUPPLY",
        Reason::TestPort => b"TESTPORT",
        Reason::Dark => b"DARK",
        Reason::NoDriver => b"NODRIVER",
        Reason::Blocked => b"BLOCKED",
        Reason::NoReceiver => b"NORECEIVER",
    }
}

fn use_word(pin_use: PinUse) -> &'static [u8]
    ensures { result.now ≡ use_word pin_use }
{
    match pin_use {
        PinUse::Driver => b"DRIVER ",
        PinUse::Receiver => b"RECEIVER ",
    }
}

/// Writes the line with the number of nets and the number of covered nets.
pub fn put_counts<K: Sink>(
    nets: u32,
    covered: u32,
    line: &mut Line,
    out: &mut K,
) -> Result<(), PutFault>
    ensures { Prints (K.shown out.old) (K.shown out.new) [] []
        (line_of (codes "NETS " ∷ decimal nets ∷ codes " COVERED " ∷ decimal covered ∷ [])) result }
{
    let mut buffer = Buffer::new();
    let nets = buffer.format(nets).as_bytes();
    let mut buffer = Buffer::new();
    let covered = buffer.format(covered).as_bytes();
    put_line(
        &[b"NETS ".as_slice(), nets, b" COVERED ", covered],
        line,
        out,
    )
}

fn put_uncovered<K: Sink>(
    name: &[u8],
    word: &[u8],
    line: &mut Line,
    out: &mut K,
) -> Result<(), PutFault>
    ensures { Prints (K.shown out.old) (K.shown out.new) [] []
        (line_of (codes "NET " ∷ name.now ∷ codes " " ∷ word.now ∷ [])) result }
{
    put_line(&[b"NET ".as_slice(), name, b" ", word], line, out)
}

/// Writes the line of a net with the reason why the net is not covered, or nothing if there is no reason.
pub fn put_reason<K: Sink>(
    name: &Name,
    reason: Option<Reason>,
    line: &mut Line,
    out: &mut K,
) -> Result<(), PutFault>
    ensures { Prints (K.shown out.old) (K.shown out.new) [] [] (reason_line name.now reason)
        result }
{
    match reason {
        None => Ok(()),
        Some(reason) => put_uncovered(name.bytes(), reason_word(reason), line, out),
    }
}

fn put_word_and_pin<K: Sink>(
    word: &[u8],
    pin: &NetPin,
    line: &mut Line,
    out: &mut K,
) -> Result<(), PutFault>
    ensures { Prints (K.shown out.old) (K.shown out.new) [] []
        (line_of (word.now ∷ pin.now.part ∷ codes "." ∷ pin.now.pin ∷ [])) result }
{
    put_line(&[word, pin.part.bytes(), b".", pin.pin.bytes()], line, out)
}

/// Writes the line of an untested pin.
pub fn put_pin<K: Sink>(
    pin_use: PinUse,
    pin: &NetPin,
    line: &mut Line,
    out: &mut K,
) -> Result<(), PutFault>
    ensures { Prints (K.shown out.old) (K.shown out.new) [] [] (pin_line pin_use (Some pin.now))
        result }
{
    put_word_and_pin(use_word(pin_use), pin, line, out)
}

/// Writes the line of two covered nets that are not paired.
pub fn put_pair<K: Sink>(
    low: &Net,
    high: &Net,
    line: &mut Line,
    out: &mut K,
) -> Result<(), PutFault>
    ensures { Prints (K.shown out.old) (K.shown out.new) [] [] (pair_line low.now high.now) result }
{
    put_line(
        &[
            b"PAIR ".as_slice(),
            low.name.bytes(),
            b" ",
            high.name.bytes(),
        ],
        line,
        out,
    )
}
