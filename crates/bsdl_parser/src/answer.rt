//! Parses a text: returns the entity that the text describes, or the text's first fault.
ghost use Rattle.std.specs.Prelude.{◌≡◌, ◌<◌, ◌^◌, length, count_by, ◌==◌, Result, IfOk};
ghost use Rattle.bsdl_lexer.specs.Tokens.{AreTokens};
ghost use Rattle.answers.specs.Gives.{Gives};
ghost use Rattle.grammars.specs.Grammar.{reader_of_grammar};
ghost use Rattle.bsdl_parser.specs.declared.entity.Entity.{Entity};
ghost use Rattle.bsdl_parser.specs.declared.fault.ParseFault.{ParseFault};
ghost use Rattle.bsdl_parser.specs.Lexeme.{lexemes};
ghost use Rattle.bsdl_parser.specs.Bsdl.{file};
ghost use Rattle.bsdl_parser.specs.Entity.{HaveKinds, IsSmall};
ghost use Rattle.bsdl_parser.specs.inner.Judged.{fault_on_line, judged};
ghost use Rattle.bsdl_parser.specs.Answer.{IsParseAnswer, last_line, parse_told};

use crate::cursor::Cursor;
use crate::entity::Entity;
use crate::fault::ParseFault;
use crate::stop::Stop;
use bsdl_lexer::Token;
use short_lists::{ShortSlice, TextSlice};
use std::alloc::Global;

fn count_line_feeds(bytes: &[u8]) -> usize
    ensures { result ≡ count_by (λ byte. byte == 10) bytes.now }
{
    bytes.iter().filter(|byte| **byte == b'\n').count()
}

/// Returns the line of the text's last byte, counted from 1, or 1 for an empty text.
fn last_line_of(text: TextSlice<'_>) -> u32
    ensures { result ≡ last_line text.entry.items.now }
{
    match text.items {
        [] => 1,
        [front @ .., _] => 1 + count_line_feeds(front) as u32,
    }
}

fn fault(starts_package: bool, line: u32) -> ParseFault
    ensures { result ≡ fault_on_line starts_package line }
{
    if starts_package {
        ParseFault::Package(line)
    } else {
        ParseFault::Expected(line)
    }
}

fn judge(alloc: Global, text: TextSlice<'_>, tokens: &[Token]) -> Result<Entity, ParseFault>
    ensures { Gives parse_told (λ entity. entity)
        (λ said. judged text.entry.items.now (lexemes text.entry.items.now tokens.now)
        (reader_of_grammar file (lexemes text.entry.items.now tokens.now)) ≡ said) result }
{
    let mut cursor = Cursor::new(alloc, text.items, tokens);
    match cursor.file() {
        Ok(entity) => match cursor.front() {
            None => Ok(entity),
            Some(front) => Err(fault(front.is_package, front.line)),
        },
        Err(Stop::Memory(error)) => Err(ParseFault::Memory(error)),
        Err(Stop::Stray) => match cursor.front() {
            None => Err(ParseFault::Expected(last_line_of(text))),
            Some(front) => {
                let is_first = cursor.len() == tokens.len();
                Err(fault(front.is_package && is_first, front.line))
            }
        },
    }
}

/// Returns the entity that the text describes, or the text's first fault.
///
/// `tokens` must be the tokens that `bsdl_lexer::lex` finds in `bytes`, and `bytes` must be shorter
/// than 2^32.
pub fn parse(alloc: Global, bytes: &[u8], tokens: &[Token]) -> Result<Entity, ParseFault>
    requires short { length bytes.now < 2 ^ 32 }
    requires tokens { AreTokens bytes.now tokens.now }
    // On Ok, the tokens are a whole file whose value is the entity. Otherwise the fault is at the
    // first token that cannot continue a file, or at the end of an unfinished file. If memory runs
    // out, nothing is claimed.
    ensures answer { Gives parse_told (λ entity. entity)
        (IsParseAnswer bytes.now (lexemes bytes.now tokens.now)) result }
    // No other result satisfies the definition.
    ensures only { Gives parse_told (λ entity. entity)
        (λ answer. (other : Result Entity ParseFault)
        → IsParseAnswer bytes.now (lexemes bytes.now tokens.now) other → other ≡ answer) result }

    // In a returned entity, each attribute has the kind of value that its number requires. The
    // entity has fewer than 2^32 ports, and its texts have fewer than 2^32 bytes each.
    ensures kinds { IfOk result HaveKinds }
    ensures small { IfOk result IsSmall }
{
    judge(alloc, ShortSlice { items: bytes }, tokens)
}
