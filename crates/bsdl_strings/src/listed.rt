//! Reads lists of entries. A list is either a whole string or in parentheses.
ghost use Rattle.std.specs.Prelude.{◌≡◌, ◌<◌, ◌^◌, length, IfOk, IfErr};
ghost use Rattle.grammars.specs.inner.Reader.{found};
ghost use Rattle.grammars.specs.Grammar.{reader_of_grammar};
ghost use Rattle.grammars.specs.Lists.{list_of};
ghost use Rattle.bsdl_strings.specs.Faults.{stop_fault, NamesEntry};
ghost use Rattle.bsdl_strings.specs.Pieces.{pieces};
ghost use Rattle.bsdl_strings.specs.Places.{Part};
ghost use Rattle.bsdl_strings.specs.Strings.{comma_or_close, IsListOf, IsNoListOf};
ghost use Rattle.bsdl_strings.specs.inner.Reading.{ReadsPieces};
ghost use Rattle.bsdl_strings.specs.inner.Takes.{Takes};

use crate::fault::StringFault;
use crate::places::{comma, either_mark};
use crate::stop::Stop;
use board_defs::Items;
use std::alloc::Global;

/// A type whose values are the entries of a list. `grammar` is the grammar of an entry. `takes` is a proof that an
/// entry, and each turn of each repetition in an entry, takes at least one piece (token) of the text.
pub(crate) trait Listed: Drop {
    ghost grammar: { Part Self };

    /// Reads an entry. Returns the entry and the text after it, or the reason why reading stopped.
    fn read(alloc: Global, text: &[u8]) -> Result<(Self, &[u8]), Stop<'_>>
        ensures { ReadsPieces (λ x. found x.0 (pieces x.1.now)) result
            (reader_of_grammar grammar (pieces text.now)) };

    ghost takes: { Takes grammar };
}

/// Returns the fault of a list if reading stopped after `entries` whole entries. `entries` must be below 2^31.
pub(crate) fn fault(stop: Stop<'_>, entries: usize) -> StringFault
    requires { entries < 2 ^ 31 }
    ensures { result ≡ stop_fault stop.entry entries }
{
    match stop {
        Stop::Memory(error) => StringFault::Memory(error),
        Stop::At(_) => StringFault::At(entries as u32 + 1),
    }
}

/// Returns the entries of a string in which commas separate the entries. If the string is not such a list, returns
/// `StringFault::At` with the number of the first wrong entry, counted from 1. The text must be shorter than 2^32
/// bytes.
pub(crate) fn all_entries<T: Listed>(alloc: Global, text: &[u8]) -> Result<Vec<T>, StringFault>
    requires { length text.now < 2 ^ 32 }
    ensures value { IfOk result (λ entries. IsListOf T.grammar text.now entries.items) }
    ensures fault { IfErr result (NamesEntry (IsNoListOf T.grammar text.now)) }
{
    let mut entries = Vec::new(alloc);
    let mut rest = text;
    'entries: loop {
        let (one, after) = match T::read(alloc, rest) {
            Ok(found) => found,
            Err(stop) => return Err(fault(stop, entries.len())),
        };
        match comma(after) {
            Err(stop) => return Err(fault(stop, entries.len())),
            Ok(more) => {
                entries.push(one)?;
                match more {
                    None => return Ok(entries),
                    Some(next) => rest = next,
                }
            }
        }
    }
}

/// Reads entries, separated by commas, up to and including the closing parenthesis. Returns the entries and the text
/// after the parenthesis.
pub(crate) fn group<T: Listed>(alloc: Global, text: &[u8]) -> Result<(Items<T>, &[u8]), Stop<'_>>
    ensures { ReadsPieces (λ x. found x.0 (pieces x.1.now)) result
        (reader_of_grammar (list_of T.grammar comma_or_close) (pieces text.now)) }
{
    let mut entries = Vec::new(alloc);
    let mut rest = text;
    'entries: loop {
        let (one, after) = T::read(alloc, rest)?;
        entries.push(one)?;
        let (more, next) = either_mark(after, b',', b')')?;
        rest = next;
        if !more {
            return Ok((Items::of(entries), rest));
        }
    }
}
