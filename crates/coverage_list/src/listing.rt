// Writes the coverage list of a board, section by section and net by net. The parameter `line` of these functions is a
// buffer for the bytes of one line.
ghost use Rattle.std.specs.Prelude.{◌≡◌, ◌<◌, ◌≤◌, ◌+◌, ◌*◌, ◌/◌, ◌==◌, [], length, Some, slice_get};
ghost use Rattle.std.specs.Int.{bit_at};
ghost use Rattle.bt_base.specs.Puts.{Puts};
ghost use Rattle.line_printer.specs.Prints.{Prints};
ghost use Rattle.net_classes.specs.Kept.{AreClasses};
ghost use Rattle.net_classes.specs.inner.Kept.{HoldsOfNet};
ghost use Rattle.net_classes.specs.Pairs.{AreWordBits, unpaired_with};
ghost use Rattle.coverage_list.specs.CoverText.{cover_text, covered, count_line};
ghost use Rattle.coverage_list.specs.inner.CoverForms.{is_unpaired, pair_at, untested_pair_lines, untested_lines_at, pin_text_at, reason_at, section_at, section_lines, texts_from};

use crate::lines::{PinUse, Section, put_counts, put_pair, put_pin, put_reason};
use crate::questions::{covered_count, is_untested, may_be_unpaired, net_at, pin_count};
use board_defs::{Board, Net, NetPin, PinRef};
use bt_base::{PutFault, Sink};
use bt_bits::Line;
use net_classes::{BoardClasses, Classes};

/// Returns the pin at a place of a net. The net must have a pin at this place.
fn pin_at(net: &Net, place: u32) -> &NetPin
    requires { place < length net.now.pins }
    ensures { slice_get net.now.pins place ≡ Some result.now }
{
    &net.pins.as_slice()[place as usize]
}

/// Returns the number of covered nets of the board, at most 16,382. The classes must be those of the board.
pub fn covered_nets(board: &Board, classes: &Classes) -> u32
    requires { AreClasses board.now classes.now }
    ensures { result ≡ length (covered board.now) }
{
    covered_count(&BoardClasses::of(board, classes))
}

/// Writes the line with the number of nets and the number of covered nets.
fn put_count<K: Sink>(
    board: &BoardClasses<'_>,
    line: &mut Line,
    out: &mut K,
) -> Result<(), PutFault>
    ensures { Prints (K.shown out.old) (K.shown out.new) [] [] (count_line board.now) result }
{
    put_counts(board.net_count() as u32, covered_count(board), line, out)
}

/// Writes the line of net `n` if the net is not covered, or nothing if it is covered. The board must have net `n`.
fn put_reason_at<K: Sink>(
    board: &BoardClasses<'_>,
    n: u32,
    line: &mut Line,
    out: &mut K,
) -> Result<(), PutFault>
    requires { n < length board.now.nets }
    ensures { Prints (K.shown out.old) (K.shown out.new) [] [] (reason_at board.now n) result }
{
    let net = net_at(board, n);
    put_reason(&net.name, board.reason(n), line, out)
}

/// Writes the line of the pin if the pin is untested in this role. `net` must be the pin's net, with a pin at this
/// place.
fn put_place<K: Sink>(
    board: &BoardClasses<'_>,
    pin_use: PinUse,
    net: &Net,
    pin: PinRef,
    line: &mut Line,
    out: &mut K,
) -> Result<(), PutFault>
    requires net { slice_get board.now.nets pin.net ≡ Some net.now }
    requires place { pin.place < length net.now.pins }
    ensures { Prints (K.shown out.old) (K.shown out.new) [] []
        (pin_text_at board.now pin_use net.now pin.place) result }
{
    if is_untested(board, pin_use, pin) {
        put_pin(pin_use, pin_at(net, pin.place), line, out)
    } else {
        Ok(())
    }
}

/// Writes the lines of the net's pins that are untested in this role. `net` must be net number `n`.
fn put_net_pins<K: Sink>(
    board: &BoardClasses<'_>,
    pin_use: PinUse,
    net: &Net,
    n: u32,
    line: &mut Line,
    out: &mut K,
) -> Result<(), PutFault>
    requires { slice_get board.now.nets n ≡ Some net.now }
    ensures { Prints (K.shown out.old) (K.shown out.new) [] []
        (texts_from (pin_text_at board.now pin_use net.now) 0 (length net.now.pins)) result }
{
    for place in 0..pin_count(board, net, n) {
        let pin = PinRef { net: n, place };
        put_place(board, pin_use, net, pin, line, out)?;
    }
    Ok(())
}

/// Writes the lines of the net's pins that are untested in this role, if the net is covered. The board must have net
/// `n`.
fn put_pins_at<K: Sink>(
    board: &BoardClasses<'_>,
    pin_use: PinUse,
    n: u32,
    line: &mut Line,
    out: &mut K,
) -> Result<(), PutFault>
    requires { n < length board.now.nets }
    ensures { Prints (K.shown out.old) (K.shown out.new) [] []
        (untested_lines_at board.now pin_use n) result }
{
    if board.is_covered(n) {
        put_net_pins(board, pin_use, net_at(board, n), n, line, out)
    } else {
        Ok(())
    }
}

/// Returns whether bit `place` of the word is set. `place` must be below 64.
fn has_bit(word: u64, place: u32) -> bool
    requires { place < 64 }
    ensures { result ≡ (bit_at word place == 1) }
{
    word >> place & 1 == 1
}

/// Returns whether net `high` is covered and not paired with net `low`. `unpaired` must be word `high / 64` of the bits
/// that say which nets are covered and not paired with net `low`.
fn is_unpaired(board: &BoardClasses<'_>, unpaired: u64, low: u32, high: u32) -> bool
    requires { AreWordBits (unpaired_with board.now low) (high / 64) unpaired }
    ensures { HoldsOfNet board.now low
        (λ one. HoldsOfNet board.now high (λ two. result ≡ is_unpaired board.now one two)) }
{
    has_bit(unpaired, high % 64)
}

/// Writes the line of the pair of nets `low` and `high` if net `high` is covered and not paired with net `low`. The
/// board must have both nets. `unpaired` must be word `high / 64` of the bits that say which nets are covered and not
/// paired with net `low`.
fn put_pair_at<K: Sink>(
    board: &BoardClasses<'_>,
    unpaired: u64,
    low: u32,
    high: u32,
    line: &mut Line,
    out: &mut K,
) -> Result<(), PutFault>
    requires first { low < length board.now.nets }
    requires second { high < length board.now.nets }
    requires unpaired { AreWordBits (unpaired_with board.now low) (high / 64) unpaired }
    ensures { HoldsOfNet board.now low
        (λ net. Prints (K.shown out.old) (K.shown out.new) [] [] (pair_at board.now net high)
        result) }
{
    if is_unpaired(board, unpaired, low, high) {
        put_pair(net_at(board, low), net_at(board, high), line, out)
    } else {
        Ok(())
    }
}

/// Writes, for each net in `from..end` that is covered and not paired with net `low`, the line of the pair of net `low`
/// and this net. The board must have all these nets. The nets `from..end` must have their bits in one word.
fn put_word<K: Sink>(
    board: &BoardClasses<'_>,
    low: u32,
    from: u32,
    end: u32,
    line: &mut Line,
    out: &mut K,
) -> Result<(), PutFault>
    requires net { low < length board.now.nets }
    requires within { end ≤ length board.now.nets }
    requires word { end ≤ 64 * (from / 64 + 1) }
    ensures { HoldsOfNet board.now low
        (λ net. Prints (K.shown out.old) (K.shown out.new) [] []
        (texts_from (pair_at board.now net) from end) result) }
{
    let unpaired = board.unpaired_word(low as usize, (from / 64) as usize);
    if unpaired == 0 {
        return Ok(());
    }
    for high in from..end {
        put_pair_at(board, unpaired, low, high, line, out)?;
    }
    Ok(())
}

/// Writes, for each later net that is covered and not paired with net `low`, the line of the pair of net `low` and this
/// net. The board must have net `low`.
fn put_later<K: Sink>(
    board: &BoardClasses<'_>,
    low: u32,
    line: &mut Line,
    out: &mut K,
) -> Result<(), PutFault>
    requires { low < length board.now.nets }
    ensures { HoldsOfNet board.now low
        (λ net. Prints (K.shown out.old) (K.shown out.new) [] []
        (texts_from (pair_at board.now net) (low + 1) (length board.now.nets)) result) }
{
    let count = board.net_count() as u32;
    let mut from = low + 1;
    while from < count {
        let end = count.min(64 * (from / 64 + 1));
        put_word(board, low, from, end, line, out)?;
        from = end;
    }
    Ok(())
}

/// Like `put_later`, but writes nothing if net `low` is not covered.
fn put_pairs_at<K: Sink>(
    board: &BoardClasses<'_>,
    low: u32,
    line: &mut Line,
    out: &mut K,
) -> Result<(), PutFault>
    requires { low < length board.now.nets }
    ensures { Prints (K.shown out.old) (K.shown out.new) [] [] (untested_pair_lines board.now low)
        result }
{
    if may_be_unpaired(board, low) {
        put_later(board, low, line, out)
    } else {
        Ok(())
    }
}

/// Writes the lines of one section for one net, which the board must have.
fn put_at<K: Sink>(
    board: &BoardClasses<'_>,
    section: Section,
    n: u32,
    line: &mut Line,
    out: &mut K,
) -> Result<(), PutFault>
    requires { n < length board.now.nets }
    ensures { Prints (K.shown out.old) (K.shown out.new) [] [] (section_at board.now section n)
        result }
{
    match section {
        Section::Reasons => put_reason_at(board, n, line, out),
        Section::Untested(pin_use) => put_pins_at(board, pin_use, n, line, out),
        Section::Pairs => put_pairs_at(board, n, line, out),
    }
}

/// Writes one section of the list, net by net.
fn put_section<K: Sink>(
    board: &BoardClasses<'_>,
    section: Section,
    line: &mut Line,
    out: &mut K,
) -> Result<(), PutFault>
    ensures { Prints (K.shown out.old) (K.shown out.new) [] [] (section_lines board.now section)
        result }
{
    for n in 0..board.net_count() as u32 {
        put_at(board, section, n, line, out)?;
    }
    Ok(())
}

/// Writes the whole list.
fn put_list<K: Sink>(board: &BoardClasses<'_>, line: &mut Line, out: &mut K) -> Result<(), PutFault>
    ensures { Prints (K.shown out.old) (K.shown out.new) [] [] (cover_text board.now) result }
{
    put_count(board, line, out)?;
    put_section(board, Section::Reasons, line, out)?;
    put_section(board, Section::Untested(PinUse::Driver), line, out)?;
    put_section(board, Section::Untested(PinUse::Receiver), line, out)?;
    put_section(board, Section::Pairs, line, out)
}

/// Writes the coverage list of a board: the number of nets and of covered nets; each net that is not covered, with its
/// reason; the untested drivers and then the untested receivers of covered nets; and the pairs of covered nets that are
/// not paired. The classes must be those of the board. Each line of at most `MAX_LINE` bytes is written by one call of
/// `put`. A longer line is written by several calls. Each call but the last writes `MAX_LINE` bytes, and the last call
/// writes the rest. The function allocates nothing. It uses `line` as a buffer, whose content afterwards is
/// unspecified. Fails only if the sink fails. The sink has then taken a prefix of the list.
pub fn write_cover<K: Sink>(
    board: &Board,
    classes: &Classes,
    line: &mut Line,
    out: &mut K,
) -> Result<(), PutFault>
    requires { AreClasses board.now classes.now }
    ensures { Puts (K.shown out.old) (K.shown out.new) (cover_text board.now) result }
{
    put_list(&BoardClasses::of(board, classes), line, out)
}
