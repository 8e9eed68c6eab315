//! Reads compliance strings. A compliance string has two lists in parentheses: first port bits, then patterns.
ghost use Rattle.std.specs.Prelude.{◌<◌, [], IfOk, IfErr};
ghost use Rattle.grammars.specs.inner.Reader.{found};
ghost use Rattle.grammars.specs.Grammar.{reader_of_grammar};
ghost use Rattle.bsdl_strings.specs.Pieces.{pieces};
ghost use Rattle.bsdl_strings.specs.inner.Reading.{ReadsPieces};
ghost use Rattle.bsdl_strings.specs.Faults.{NamesEntry};
ghost use Rattle.bsdl_strings.specs.Strings.{bit_behind, bit as any_bit, bits as any_bits, first_parenthesis as the_first, second_parenthesis as the_second, IsCompliance, IsNoCompliance};

use crate::fault::StringFault;
use crate::listed::{fault, group};
use crate::places::{either_mark, end, index, mark, mark_after_bit, word};
use crate::stop::Stop;
use crate::values::{Compliance, PortWord};
use board_defs::{Code, Items, Name};
use std::alloc::Global;

fn bit_from(
    name: Name,
    next: Option<bool>,
    text: &[u8],
) -> Result<((PortWord, bool), &[u8]), Stop<'_>>
    ensures { ReadsPieces (λ x. found x.0 (pieces x.1.now)) result
        (reader_of_grammar (bit_behind name next) (pieces text.now)) }
{
    match next {
        Some(more) => Ok(((PortWord::Plain(name), more), text)),
        None => {
            let (i, rest) = index(text)?;
            let rest = mark(rest, b')')?;
            let (more, rest) = either_mark(rest, b',', b')')?;
            Ok(((PortWord::Index(name, i), more), rest))
        }
    }
}

/// Reads a port bit and the comma or closing parenthesis after it. Returns the bit, whether another bit follows, and
/// the text after the comma or parenthesis.
#[tactic(auto, unfolding(crate::specs::Strings::bit))]
fn bit(alloc: Global, text: &[u8]) -> Result<((PortWord, bool), &[u8]), Stop<'_>>
    ensures { ReadsPieces (λ x. found x.0 (pieces x.1.now)) result
        (reader_of_grammar any_bit (pieces text.now)) }
{
    let (name, rest) = word(alloc, text)?;
    let (next, rest) = mark_after_bit(rest)?;
    bit_from(name, next, rest)
}

/// Reads port bits up to and including the closing parenthesis. Returns the bits and the text after the parenthesis.
fn bits(alloc: Global, text: &[u8]) -> Result<(Items<PortWord>, &[u8]), Stop<'_>>
    ensures { ReadsPieces (λ x. found x.0 (pieces x.1.now)) result
        (reader_of_grammar any_bits (pieces text.now)) }
{
    let mut bits = Vec::new(alloc);
    let mut rest = text;
    'bits: loop {
        let ((one, more), next) = bit(alloc, rest)?;
        bits.push(one)?;
        rest = next;
        if !more {
            return Ok((Items::of(bits), rest));
        }
    }
}

#[tactic(auto, unfolding(crate::specs::Strings::first_parenthesis))]
fn first_parenthesis(alloc: Global, text: &[u8]) -> Result<(Items<PortWord>, &[u8]), Stop<'_>>
    ensures { ReadsPieces (λ x. found x.0 (pieces x.1.now)) result
        (reader_of_grammar the_first (pieces text.now)) }
{
    let rest = mark(text, b'(')?;
    bits(alloc, rest)
}

#[tactic(auto, unfolding(crate::specs::Strings::second_parenthesis))]
fn second_parenthesis(alloc: Global, text: &[u8]) -> Result<Items<Code>, Stop<'_>>
    ensures { ReadsPieces (λ x. found x []) result
        (reader_of_grammar the_second (pieces text.now)) }
{
    let rest = mark(text, b'(')?;
    let (patterns, rest) = group(alloc, rest)?;
    end(rest)?;
    Ok(patterns)
}

/// Returns the value of a compliance string: the compliance bits, and the patterns that enable the
/// test logic.
///
/// Returns `StringFault::At` if the text is not a compliance string. The number in the fault is 2 if the text begins
/// with a whole list of bits in parentheses, and otherwise 1.
pub fn compliance(alloc: Global, text: &[u8]) -> Result<Compliance, StringFault>
    ensures value { IfOk result (λ value. IsCompliance text.now value) }
    ensures fault { IfErr result (NamesEntry (IsNoCompliance text.now)) }
{
    let (ports, rest) = match first_parenthesis(alloc, text) {
        Ok(found) => found,
        Err(stop) => return Err(fault(stop, 0)),
    };
    match second_parenthesis(alloc, rest) {
        Ok(patterns) => Ok(Compliance { ports, patterns }),
        Err(stop) => Err(fault(stop, 1)),
    }
}
