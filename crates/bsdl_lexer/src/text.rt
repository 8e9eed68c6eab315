//! Reads all tokens of a text.
ghost use Rattle.std.specs.Prelude.{◌≡◌, ◌≤◌, ◌<◌, ◌^◌, ◌+◌, ◌++◌, ◌∷◌, [], List, Result, length, IsTrue, ◌↔◌, OnOk, OnErr, IfErr, alloc_error};
ghost use Rattle.bsdl_lexer.specs.declared.token.Token.{Token};
ghost use Rattle.bsdl_lexer.specs.declared.token.LexFault.{LexFault};
ghost use Rattle.answers.specs.Gives.{Gives};
ghost use Rattle.bsdl_lexer.specs.Answer.{IsLexAnswer, AreFirst, lex_told};
ghost use Rattle.bsdl_lexer.specs.inner.Steps.{bad_byte, step_at, step};

use crate::lengths::{gap_at, token_found};
use crate::token::{LexFault, Token};
use short_lists::{ShortSlice, TextSlice};
use std::alloc::AllocError;

/// The largest number of tokens that a text may have.
pub const TOKEN_LIMIT: usize = 1_048_576;

fn fault_at(byte: u8, line: u32) -> LexFault
    ensures { result ≡ bad_byte byte line }
{
    if byte == b'"' {
        LexFault::OpenString(line)
    } else {
        LexFault::Byte(line)
    }
}

/// Returns the token at the front of `bytes`. `bytes` is the rest of the text from byte `start` on, and that byte is on
/// line `line`. Returns None if `bytes` is empty. Returns a fault if `bytes` is not empty and no token begins at its
/// front. `start` plus the length of `bytes` must be below 2^32.
fn token_from(bytes: &[u8], start: usize, line: u32) -> Result<Option<Token>, LexFault>
    requires { start + length bytes.now < 2 ^ 32 }
    ensures { result ≡ step_at start line bytes.now }
{
    match bytes {
        [] => Ok(None),
        [first, ..] => match token_found(bytes) {
            None => Err(fault_at(*first, line)),
            Some((kind, length)) => Ok(Some(Token {
                kind,
                start: start as u32,
                end: (start + length) as u32,
                line,
            })),
        },
    }
}

/// Returns the next token at or after byte `place` of the text, which is on line `line`. Returns None if only blanks
/// and comments are left, and a fault if no token begins after the blanks and comments. `place` must be at most the
/// length of the text, and `line` at most `1 + place`.
fn next_token(text: TextSlice<'_>, place: usize, line: u32) -> Result<Option<Token>, LexFault>
    requires within { place ≤ length text.items.now }
    requires few { line ≤ 1 + place }
    ensures { result ≡ step text.entry.items.now place line }
{
    let gap = gap_at(ShortSlice {
        items: &text.items[place..],
    });
    let start = place + gap.length;
    if start == text.items.len() {
        return Ok(None);
    }
    token_from(&text.items[start..], start, line + gap.lines)
}

fn is_full(tokens: &[Token]) -> bool
    ensures { IsTrue result ↔ (length tokens.now ≡ TOKEN_LIMIT) }
{
    tokens.len() == TOKEN_LIMIT
}

fn add(out: &mut Vec<Token>, token: Token) -> Result<(), LexFault>
    ensures ok { OnOk result (out.new.items ≡ out.old.items ++ token ∷ []) }
    ensures err { IfErr result (λ fault. fault ≡ LexFault.Memory alloc_error) }
    ensures unchanged { OnErr result (out.new.items ≡ out.old.items) }
{
    match out.push(token) {
        Ok(()) => Ok(()),
        Err(_) => Err(LexFault::Memory(AllocError)),
    }
}

fn add_tokens(text: TextSlice<'_>, out: &mut Vec<Token>) -> Result<(), LexFault>
    requires { out.old.items ≡ [] }
    ensures answer { Gives lex_told (λ done. done)
        (IsLexAnswer text.entry.items.now out.new.items) result }
    ensures first { AreFirst text.entry.items.now out.new.items }
{
    let mut place = 0usize;
    let mut line = 1u32;
    while let Some(token) = next_token(text, place, line)? {
        if is_full(out) {
            return Err(LexFault::TooMany(token.line));
        }
        add(out, token)?;
        place = token.end as usize;
        line = token.line;
    }
    Ok(())
}

/// Appends the tokens of the text to `out`, which must be empty. The text may contain any bytes, but must be shorter
/// than 2^32 bytes.
///
/// On a fault of the text, `out` contains the tokens before the place of the fault. If memory runs
/// out, `out` contains the tokens found until then.
pub fn lex(bytes: &[u8], out: &mut Vec<Token>) -> Result<(), LexFault>
    requires short { length bytes.now < 2 ^ 32 }
    requires empty { out.old.items ≡ [] }
    // On Ok, `out` contains all tokens. On a fault of the text, `out` contains the tokens before
    // the place of the fault, and the fault has the line of this place.
    ensures answer { Gives lex_told (λ done. done) (IsLexAnswer bytes.now out.new.items) result }
    // No other result satisfies the definition.
    ensures only { Gives lex_told (λ done. done)
        (λ answer. (tokens : List Token) (other : Result (Unit {0}) LexFault)
        → IsLexAnswer bytes.now tokens other → (tokens ≡ out.new.items) × (other ≡ answer)) result }
    ensures first { AreFirst bytes.now out.new.items }
{
    add_tokens(ShortSlice { items: bytes }, out)
}
