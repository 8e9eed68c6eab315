// Checks the rules on a board's files, in the order of the definitions. A driver is always on if its
// cell has no control.
ghost use Rattle.std.specs.Prelude.{◌≡◌, ◌<◌, ◌≤◌, ◌^◌, ◌==◌, ◌&&◌, length, vec_len, map, filter, find, nat_lt, sum_by, slice_index_or, IfOk, Option, Some, None, option_map, is_none, true, false, if◌then◌else◌};
ghost use Rattle.board_defs.specs.Limits.{most_parts, most_pins};
ghost use Rattle.first_places.specs.Places.{first_repeated, once};
ghost use Rattle.board_defs.specs.Pins.{data_length};
ghost use Rattle.board_lines.specs.declared.fault.BoardFault.TheVariants.{Limit as LimitFault, NoPin, PinTwice, GuardedDriver, TwoAlwaysOn};
ghost use Rattle.board_lines.specs.declared.limit.Limit.TheVariants.{Pins};
ghost use Rattle.board_lines.specs.BoardLimits.{limit_number};
ghost use Rattle.board_lines.specs.NetWords.{lent_pin, same_pin};
ghost use Rattle.board_build.specs.BoardRules.{data_limit, net_limit, is_kept};
ghost use Rattle.board_build.specs.inner.Marked.{always_on, file_fault, marked_drivers, marked_guarded, marked_limit, marked_pins, marked_twice, marked_two, marked_unknown, seen_word};

use crate::marked::MarkedWord;
use crate::selected_chain::SelectedChain;
use crate::standing::StandingWords;
use board_defs::{MOST_BITS, MOST_NETS, MOST_PINS, Net, Part, RawBoard, Spot};
use board_lines::{BoardFault, Limit, PinName, line_fault};
use first_places::{first_repeated, once_by};
use lists::is_set;
use short_lists::ShortSlice;
use std::alloc::{AllocError, Global};

/// Returns the number of bits of a data scan of the whole chain. There must be at most 255 parts.
fn data_bits(parts: &[Part]) -> u64
    requires { length parts.now ≤ most_parts }
    ensures { result ≡ sum_by (λ part. data_length part.kind) parts.now }
{
    let mut bits = 0u64;
    for part in parts {
        bits += part.kind.data_length() as u64;
    }
    bits
}

#[tactic(auto, unfolding(crate::specs::BoardRules::data_limit))]
fn data_limit(parts: &[Part]) -> Option<BoardFault>
    requires { length parts.now ≤ most_parts }
    ensures { result ≡ data_limit parts.now }
{
    if u64::from(MOST_BITS) < data_bits(parts) {
        Some(BoardFault::Limit(Limit::BoundaryBits.number()))
    } else {
        None
    }
}

#[tactic(auto, unfolding(crate::specs::BoardRules::net_limit))]
fn net_limit(names: &[&[u8]]) -> Option<BoardFault>
    ensures { result ≡ net_limit (map (λ n. n.now) names.now) }
{
    if MOST_NETS < names.len() {
        Some(BoardFault::Limit(Limit::Nets.number()))
    } else {
        None
    }
}

/// Returns the pin that each word names, with the line and number of the word.
fn by_pin<'a>(
    alloc: Global,
    words: &[MarkedWord<'a>],
) -> Result<Vec<(PinName<'a>, Spot)>, AllocError>
    ensures { IfOk result (λ pins. pins.items ≡ map (λ w. ((w.part, w.pin), w.spot)) words.now) }
{
    words
        .iter()
        .map(|word| ((word.part, word.pin), word.spot))
        .collect(alloc)
}

fn count_pins(alloc: Global, pins: &[(PinName<'_>, Spot)]) -> Result<usize, AllocError>
    ensures { IfOk result
        (λ count. count ≡ length (once (λ a b. same_pin (lent_pin a.0) (lent_pin b.0)) pins.now)) }
{
    let different = once_by(alloc, pins)?;
    Ok(different.len())
}

fn pin_limit(alloc: Global, pins: &[(PinName<'_>, Spot)]) -> Result<Option<BoardFault>, AllocError>
    ensures { IfOk result
        (λ fault. fault
        ≡ (if nat_lt most_pins
        (length (once (λ a b. same_pin (lent_pin a.0) (lent_pin b.0)) pins.now))
        then Some (LimitFault (limit_number Pins)) else None)) }
{
    let count = count_pins(alloc, pins)?;
    if MOST_PINS < count {
        Ok(Some(BoardFault::Limit(Limit::Pins.number())))
    } else {
        Ok(None)
    }
}

fn pin_twice(alloc: Global, pins: &[(PinName<'_>, Spot)]) -> Result<Option<BoardFault>, AllocError>
    ensures { IfOk result
        (λ fault. fault
        ≡ option_map (λ p. PinTwice p.1)
        (first_repeated (λ a b. same_pin (lent_pin a.0) (lent_pin b.0)) pins.now)) }
{
    match first_repeated(alloc, pins)? {
        Some(spot) => Ok(Some(BoardFault::PinTwice(spot))),
        None => Ok(None),
    }
}

fn unknown_pin(words: &[MarkedWord<'_>]) -> Option<BoardFault>
    ensures { result
        ≡ option_map (λ w. NoPin w.spot) (find (λ w. w.described && is_none w.at) words.now) }
{
    for word in words {
        if word.described && word.at.is_none() {
            return Some(BoardFault::NoPin(word.spot));
        }
    }
    None
}

fn marked_limit(alloc: Global, words: &[MarkedWord<'_>]) -> Result<Option<BoardFault>, AllocError>
    ensures { IfOk result (λ fault. fault ≡ marked_limit (map seen_word words.now)) }
{
    // At most `MOST_PINS` words name at most `MOST_PINS` pins.
    if words.len() <= MOST_PINS {
        return Ok(None);
    }
    let pins = by_pin(alloc, words)?;
    pin_limit(alloc, &pins)
}

fn marked_unknown(words: &[MarkedWord<'_>]) -> Option<BoardFault>
    ensures { result ≡ marked_unknown (map seen_word words.now) }
{
    unknown_pin(words)
}

fn marked_twice(alloc: Global, words: &StandingWords<'_>) -> Result<Option<BoardFault>, AllocError>
    ensures { IfOk result (λ fault. fault ≡ marked_twice words.now) }
{
    if words.differ() {
        return Ok(None);
    }
    let pins = by_pin(alloc, words.words())?;
    pin_twice(alloc, &pins)
}

/// Returns the first fault of the pins that the words name, or `None` if there is no fault. The rules
/// are checked in the order Limit 4 (the number of pins), NoPin, PinTwice.
#[tactic(auto, unfolding(crate::specs::inner::Marked::marked_pins))]
fn pin_fault(alloc: Global, words: &StandingWords<'_>) -> Result<Option<BoardFault>, AllocError>
    ensures { IfOk result (λ fault. fault ≡ marked_pins words.now) }
{
    if let Some(fault) = marked_limit(alloc, words.words())? {
        return Ok(Some(fault));
    }
    if let Some(fault) = marked_unknown(words.words()) {
        return Ok(Some(fault));
    }
    marked_twice(alloc, words)
}

/// Returns the first fault that the rules before GuardedDriver and TwoAlwaysOn find, or None if
/// they find no fault. There must be fewer than 2^32 names.
#[tactic(auto, unfolding(crate::specs::inner::Marked::file_fault))]
pub fn file_fault(
    alloc: Global,
    chain: &SelectedChain<'_>,
    names: &[&[u8]],
    words: &StandingWords<'_>,
) -> Result<Option<BoardFault>, AllocError>
    requires { length names.now < 2 ^ 32 }
    ensures { IfOk result
        (λ fault. fault
        ≡ file_fault chain.now.lines chain.now.parts (map (λ n. n.now) names.now) words.now) }
{
    if let Some(fault) = data_limit(chain.parts()) {
        return Ok(Some(fault));
    }
    if let Some(fault) = net_limit(names) {
        return Ok(Some(fault));
    }
    if let Some(fault) = pin_fault(alloc, words)? {
        return Ok(Some(fault));
    }
    let lines = ShortSlice {
        items: chain.lines(),
    };
    line_fault(alloc, lines, ShortSlice { items: names })
}

/// Returns whether the net must not have an always-on driver because it is a supply net or has a
/// TAP or compliance pin.
fn is_kept(board: &RawBoard, net: &Net) -> bool
    ensures { result ≡ is_kept board.now (Some net.now) }
{
    if net.supply {
        true
    } else {
        board.any_test_pin(net.pins.as_slice())
    }
}

fn kept_nets(alloc: Global, board: &RawBoard) -> Result<Vec<bool>, AllocError>
    ensures { IfOk result
        (λ kept. kept.items ≡ map (λ net. is_kept board.now (Some net)) board.now.nets) }
{
    let nets = board.nets.as_slice();
    nets.iter().map(|net| is_kept(board, net)).collect(alloc)
}

fn always_on<'a>(
    alloc: Global,
    nets: usize,
    words: &[MarkedWord<'a>],
) -> Result<Vec<MarkedWord<'a>>, AllocError>
    ensures { IfOk result
        (λ drivers. drivers.items ≡ filter (λ w. nat_lt w.net nets && w.always_on) words.now) }
{
    let mut drivers = Vec::new(alloc);
    for word in words {
        if (word.net as usize) < nets && word.always_on {
            drivers.push(*word)?;
        }
    }
    Ok(drivers)
}

fn guarded_driver(kept: &[bool], drivers: &[MarkedWord<'_>]) -> Option<BoardFault>
    ensures { result
        ≡ option_map (λ w. GuardedDriver w.spot)
        (find (λ w. slice_index_or kept.now w.net false) drivers.now) }
{
    for word in drivers {
        if is_set(kept, word.net as usize) {
            return Some(BoardFault::GuardedDriver(word.spot));
        }
    }
    None
}

fn by_net(alloc: Global, words: &[MarkedWord<'_>]) -> Result<Vec<(u32, Spot)>, AllocError>
    ensures { IfOk result (λ nets. nets.items ≡ map (λ w. (w.net, w.spot)) words.now) }
{
    words
        .iter()
        .map(|word| (word.net, word.spot))
        .collect(alloc)
}

fn two_always_on(alloc: Global, drivers: &[(u32, Spot)]) -> Result<Option<BoardFault>, AllocError>
    ensures { IfOk result
        (λ fault. fault
        ≡ option_map (λ p. TwoAlwaysOn p.1) (first_repeated (λ a b. a.0 == b.0) drivers.now)) }
{
    match first_repeated(alloc, drivers)? {
        Some(spot) => Ok(Some(BoardFault::TwoAlwaysOn(spot))),
        None => Ok(None),
    }
}

fn marked_drivers<'a>(
    alloc: Global,
    nets: usize,
    words: &[MarkedWord<'a>],
) -> Result<Vec<MarkedWord<'a>>, AllocError>
    ensures { IfOk result
        (λ drivers. map seen_word drivers.items ≡ always_on nets (map seen_word words.now)) }
{
    always_on(alloc, nets, words)
}

fn marked_guarded(
    alloc: Global,
    board: &RawBoard,
    drivers: &[MarkedWord<'_>],
) -> Result<Option<BoardFault>, AllocError>
    ensures { IfOk result (λ fault. fault ≡ marked_guarded board.now (map seen_word drivers.now)) }
{
    let kept = kept_nets(alloc, board)?;
    Ok(guarded_driver(&kept, drivers))
}

fn marked_two(alloc: Global, drivers: &[MarkedWord<'_>]) -> Result<Option<BoardFault>, AllocError>
    ensures { IfOk result (λ fault. fault ≡ marked_two (map seen_word drivers.now)) }
{
    let nets = by_net(alloc, drivers)?;
    two_always_on(alloc, &nets)
}

/// Returns the first fault of the always-on drivers, or None if they have no fault. The rule
/// GuardedDriver is checked before TwoAlwaysOn.
#[tactic(auto, unfolding(crate::specs::inner::Marked::marked_drivers))]
pub fn driver_fault(
    alloc: Global,
    board: &RawBoard,
    words: &StandingWords<'_>,
) -> Result<Option<BoardFault>, AllocError>
    ensures { IfOk result
        (λ fault. fault ≡ marked_drivers board.now (always_on (length board.now.nets) words.now)) }
{
    let drivers = marked_drivers(alloc, board.nets.len(), words.words())?;
    if let Some(fault) = marked_guarded(alloc, board, &drivers)? {
        return Ok(Some(fault));
    }
    marked_two(alloc, &drivers)
}
