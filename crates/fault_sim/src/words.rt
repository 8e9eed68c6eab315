// The bits of a net and of two shorted nets in the rows of a pass, as words of 32 bits. Bit `j` of a word belongs to row `j` of the pass.
ghost use Rattle.std.specs.Prelude.{◌≡◌, ◌<◌, ℕ, if◌then◌else◌, ◌||◌, None, Some, unwrap_or};
ghost use Rattle.tap_defs.specs.board.SingleBits.{shorted};
ghost use Rattle.fault_sim.specs.Effects.{feed_bit, source_bit, unless_off};
ghost use Rattle.fault_sim.specs.inner.Words.{AreWordsOf, driven_bit, short_word_bit, word_bit};

use crate::effect::shorted;
use crate::feed::{FedNet, Feed, Source};
use board_defs::Kind;

/// The rows in which a net is driven, and the bits to which it is driven. The bits of `value` in other rows have no meaning.
#[derive(Clone, Copy)]
pub struct FeedWords {
    pub driven: u32,
    pub value: u32,
}

/// A net in a pass: the bits to which the net is driven, and the value to which it is pulled, if any.
#[derive(Clone, Copy)]
pub struct FedWords {
    pub feed: FeedWords,
    pub pull: Option<bool>,
}

// Returns the word that has `bit` in all rows.
#[inline]
fn all_rows(bit: bool) -> u32
    ensures { (j : ℕ) → j < 32 → word_bit result j ≡ bit }
{
    if bit { u32::MAX } else { 0 }
}

// Returns the word that has the bits of `inside` in `rows`, and the bits of `outside` in the other rows.
#[inline]
fn choose(rows: u32, inside: u32, outside: u32) -> u32
    ensures { (j : ℕ) → j < 32
        → word_bit result j ≡ (if word_bit rows j then word_bit inside j else word_bit outside j) }
{
    inside & rows | outside & !rows
}

// Returns the bits of a driver's cell, as a word.
#[inline]
fn source_word(source: Source) -> u32
    ensures { (j : ℕ) → j < 32 → word_bit result j ≡ source_bit source j }
{
    match source {
        Source::Code(code) => code,
        Source::Fixed(bit) => all_rows(bit),
    }
}

// Returns the rows in which a driver is on. `value` has the bits of the driver's cell. `off` is the bit of this cell
// that switches the driver off, or `None` if neither bit of this cell does.
#[inline]
fn rows_on(off: Option<bool>, value: u32) -> u32
    ensures { (j : ℕ) → j < 32
        → (if word_bit result j then Some (word_bit value j) else None)
        ≡ unless_off off (word_bit value j) }
{
    match off {
        None => u32::MAX,
        Some(off) => { if off { !value } else { value } }
    }
}

// Returns the rows in which a net is driven, and the bits to which it is driven, as words. `feed` gives the
// bits of the net's enabled driver. If `feed` is `None`, the net is driven in no row.
#[inline]
fn feed_words(feed: Option<Feed>) -> FeedWords
    ensures { (j : ℕ) → j < 32 → driven_bit result j ≡ feed_bit feed j }
{
    match feed {
        None => FeedWords {
            driven: 0,
            value: 0,
        },
        Some(feed) => {
            let value = source_word(feed.source);
            FeedWords {
                driven: rows_on(feed.off, value),
                value,
            }
        }
    }
}

/// Returns the bits to which a net is driven in the rows of a pass, as words, and the net's pull.
#[inline]
pub fn fed_words(fed: FedNet) -> FedWords
    ensures { AreWordsOf fed result }
{
    FedWords {
        feed: feed_words(fed.feed),
        pull: fed.pull,
    }
}

// Returns the common bits of two shorted nets. In rows in which neither net is driven, the result has no meaning.
#[inline]
fn shorted_value(kind: Kind, first: FeedWords, second: FeedWords) -> u32
    ensures { (j : ℕ) → j < 32
        → (if word_bit first.driven j || word_bit second.driven j then Some (word_bit result j)
        else None) ≡ shorted kind (driven_bit first j) (driven_bit second j) }
{
    match kind {
        Kind::And => choose(first.driven, first.value, u32::MAX)
            & choose(second.driven, second.value, u32::MAX),
        Kind::Or => first.value & first.driven | second.value & second.driven,
        Kind::First => choose(first.driven, first.value, second.value),
        Kind::Second => choose(second.driven, second.value, first.value),
    }
}

// Returns the rows in which at least one of two shorted nets is driven, and the common bits of the nets in
// these rows.
#[inline]
fn shorted_words(kind: Kind, first: FeedWords, second: FeedWords) -> FeedWords
    ensures { (j : ℕ) → j < 32
        → driven_bit result j ≡ shorted kind (driven_bit first j) (driven_bit second j) }
{
    FeedWords {
        driven: first.driven | second.driven,
        value: shorted_value(kind, first, second),
    }
}

// Returns the bits of a net in rows in which nothing drives the net: the value to which the net is pulled, or the bits of `code` if the net
// has no pull.
#[inline]
fn undriven_word(pull: Option<bool>, code: u32) -> u32
    ensures { (j : ℕ) → j < 32 → word_bit result j ≡ unwrap_or pull (word_bit code j) }
{
    match pull {
        None => code,
        Some(bit) => all_rows(bit),
    }
}

/// Returns the common bits of two shorted nets in the rows of a pass. In a row in which neither net is driven, the
/// pulls of the nets give the bit in the same way as driven bits do. If neither net has a pull, the bit is the expected
/// bit, that is, the bit of `code`.
#[inline]
pub fn short_word(kind: Kind, first: FedWords, second: FedWords, code: u32) -> u32
    ensures { (j : ℕ) → j < 32 → word_bit result j ≡ short_word_bit kind first second code j }
{
    let short = shorted_words(kind, first.feed, second.feed);
    let undriven = undriven_word(shorted(kind, first.pull, second.pull), code);
    choose(short.driven, short.value, undriven)
}
