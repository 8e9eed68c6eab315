//! A cursor that reads the tokens of a text from the first to the last. A mark is a token that is one punctuation
//! character. If the next token does not fit or is missing, a reading function returns `Stop::Stray` and does not read
//! it.
ghost use Rattle.std.specs.Prelude.{◌≡◌, map, length};
ghost use Rattle.std.specs.Char.{to_ascii_uppercase};
ghost use Rattle.grammars.specs.Grammar.{reader_of_grammar};
ghost use Rattle.bsdl_parser.specs.Lexeme.{bytes_of, lexeme_of, lexemes};
ghost use Rattle.bsdl_parser.specs.Places as places;
ghost use Rattle.bsdl_parser.specs.inner.Reading.{ReadsTokens};

use crate::numbers::integer_in;
use crate::stop::Stop;
use board_defs::{Mode, Name};
use bsdl_lexer::{Token, TokenKind};
use grammars::spells;
use std::alloc::Global;
use std::marker::Model;

/// The next token, as far as a fault depends on it: whether it is the word `package`, and its line.
#[derive(Clone, Copy)]
pub(crate) struct Front {
    pub is_package: bool,
    pub line: u32,
}

/// A cursor in the tokens of `text`. `rest` has the tokens that it has not read yet. `alloc` allocates the values that
/// it makes from tokens.
#[derive(Drop)]
pub(crate) struct Cursor<'a> {
    alloc: Global,
    pub text: &'a [u8],
    pub rest: &'a [Token],
}

impl<'a> Model for Cursor<'a> {
    ghost use Rattle.std.specs.Prelude.{List};
    ghost use Rattle.bsdl_parser.specs.Lexeme.{Lexeme, lexemes};

    ghost Value = { List Lexeme };

    ghost view = { λ c. lexemes c.text.now c.rest.now };
}

pub(crate) fn bytes_at<'t>(text: &'t [u8], token: &Token) -> &'t [u8]
    ensures { result.now ≡ bytes_of text.now token.now }
{
    let end = (token.end as usize).min(text.len());
    let start = token.start as usize;
    if start <= end { &text[start..end] } else { &[] }
}

pub(crate) fn is_word(kind: TokenKind) -> bool
    ensures { result ≡ places.is_word_token kind }
{
    matches!(kind, TokenKind::Word)
}

fn is_number(kind: TokenKind) -> bool
    ensures { result ≡ places.is_number_token kind }
{
    matches!(kind, TokenKind::Number)
}

fn is_text(kind: TokenKind) -> bool
    ensures { result ≡ places.is_text kind }
{
    matches!(kind, TokenKind::Text)
}

fn is_mark(kind: TokenKind) -> bool
    ensures { result ≡ places.is_mark kind }
{
    matches!(kind, TokenKind::Mark)
}

fn is_the_word(text: &[u8], token: &Token, name: &[u8]) -> bool
    ensures { result ≡ places.is_the_word name.now (lexeme_of text.now token.now) }
{
    is_word(token.kind) && spells(bytes_at(text, token), name)
}

fn is_the_mark(text: &[u8], token: &Token, name: &[u8]) -> bool
    ensures { result ≡ places.is_the_mark name.now (lexeme_of text.now token.now) }
{
    is_mark(token.kind) && spells(bytes_at(text, token), name)
}

/// Returns the bytes between the quotes of a string token, that is, between the first and the last byte. Returns no
/// bytes if there are fewer than two.
fn unquoted(bytes: &[u8]) -> &[u8]
    ensures { map to_ascii_uppercase result.now
        ≡ places.contents (map to_ascii_uppercase bytes.now) }
{
    match bytes {
        [_, inner @ .., _] => inner,
        _ => &[],
    }
}

fn mode_named(bytes: &[u8]) -> Option<Mode>
    ensures { result ≡ places.mode_of (map to_ascii_uppercase bytes.now) }
{
    if spells(bytes, b"IN") {
        Some(Mode::Inward)
    } else if spells(bytes, b"OUT") {
        Some(Mode::Outward)
    } else if spells(bytes, b"INOUT") {
        Some(Mode::Both)
    } else if spells(bytes, b"BUFFER") {
        Some(Mode::Buffer)
    } else if spells(bytes, b"LINKAGE") {
        Some(Mode::Linkage)
    } else {
        None
    }
}

impl<'a> Cursor<'a> {
    ghost use Rattle.bsdl_parser.specs.inner.Judged.{front_of};

    pub(crate) fn new(alloc: Global, text: &'a [u8], tokens: &'a [Token]) -> Self
        ensures { result ≡ lexemes text.now tokens.now }
    {
        Cursor {
            alloc,
            text,
            rest: tokens,
        }
    }

    pub(crate) fn allocator(&self) -> Global {
        self.alloc
    }

    /// Returns the number of tokens that are left.
    pub(crate) fn len(&self) -> usize
        ensures { result ≡ length self.now }
    {
        self.rest.len()
    }

    pub(crate) fn front(&self) -> Option<Front>
        ensures { result ≡ front_of self.now }
    {
        match self.rest {
            [] => None,
            [token, ..] => Some(Front {
                is_package: is_the_word(self.text, token, b"PACKAGE"),
                line: token.line,
            }),
        }
    }

    /// Reads the word `name`. The case of letters does not matter.
    pub(crate) fn keyword(&mut self, name: &[u8]) -> Result<(), Stop>
        ensures { ReadsTokens (reader_of_grammar (places.keyword name.now)) self.old self.new result
            (λ x. x) }
    {
        match self.rest {
            [token, rest @ ..] if is_the_word(self.text, token, name) => {
                self.rest = rest;
                Ok(())
            }
            _ => Err(Stop::Stray),
        }
    }

    /// Reads the mark `name`.
    pub(crate) fn mark(&mut self, name: &[u8]) -> Result<(), Stop>
        ensures { ReadsTokens (reader_of_grammar (places.mark name.now)) self.old self.new result
            (λ x. x) }
    {
        match self.rest {
            [token, rest @ ..] if is_the_mark(self.text, token, name) => {
                self.rest = rest;
                Ok(())
            }
            _ => Err(Stop::Stray),
        }
    }

    /// Reads one of two words. Returns whether it was the first.
    pub(crate) fn either_word(&mut self, first: &[u8], second: &[u8]) -> Result<bool, Stop>
        ensures { ReadsTokens (reader_of_grammar (places.either_word first.now second.now)) self.old
            self.new result (λ x. x) }
    {
        match self.rest {
            [token, rest @ ..] if is_the_word(self.text, token, first) => {
                self.rest = rest;
                Ok(true)
            }
            [token, rest @ ..] if is_the_word(self.text, token, second) => {
                self.rest = rest;
                Ok(false)
            }
            _ => Err(Stop::Stray),
        }
    }

    /// Reads one of two marks. Returns whether it was the first.
    pub(crate) fn either_mark(&mut self, first: &[u8], second: &[u8]) -> Result<bool, Stop>
        ensures { ReadsTokens (reader_of_grammar (places.either_mark first.now second.now)) self.old
            self.new result (λ x. x) }
    {
        match self.rest {
            [token, rest @ ..] if is_the_mark(self.text, token, first) => {
                self.rest = rest;
                Ok(true)
            }
            [token, rest @ ..] if is_the_mark(self.text, token, second) => {
                self.rest = rest;
                Ok(false)
            }
            _ => Err(Stop::Stray),
        }
    }

    /// Reads a word or the mark `name`. Returns whether it was a word.
    pub(crate) fn word_or_mark(&mut self, name: &[u8]) -> Result<bool, Stop>
        ensures { ReadsTokens (reader_of_grammar (places.word_or_mark name.now)) self.old self.new
            result (λ x. x) }
    {
        match self.rest {
            [token, rest @ ..] if is_word(token.kind) => {
                self.rest = rest;
                Ok(true)
            }
            [token, rest @ ..] if is_the_mark(self.text, token, name) => {
                self.rest = rest;
                Ok(false)
            }
            _ => Err(Stop::Stray),
        }
    }

    /// Reads any token. Returns false if the token was the mark `name`, and otherwise true.
    pub(crate) fn other_than(&mut self, name: &[u8]) -> Result<bool, Stop>
        ensures { ReadsTokens (reader_of_grammar (places.other_than name.now)) self.old self.new
            result (λ x. x) }
    {
        match self.rest {
            [] => Err(Stop::Stray),
            [token, rest @ ..] => {
                self.rest = rest;
                Ok(!is_the_mark(self.text, token, name))
            }
        }
    }

    pub(crate) fn number(&mut self) -> Result<(), Stop>
        ensures { ReadsTokens (reader_of_grammar places.any_number) self.old self.new result
            (λ x. x) }
    {
        match self.rest {
            [token, rest @ ..] if is_number(token.kind) => {
                self.rest = rest;
                Ok(())
            }
            _ => Err(Stop::Stray),
        }
    }

    /// Reads a number of 1 to 9 digits, without a point or an exponent.
    pub(crate) fn integer(&mut self) -> Result<u32, Stop>
        ensures { ReadsTokens (reader_of_grammar places.integer) self.old self.new result (λ x. x) }
    {
        match self.rest {
            [token, rest @ ..] if is_number(token.kind) => {
                let number = integer_in(bytes_at(self.text, token)).ok_or(Stop::Stray)?;
                self.rest = rest;
                Ok(number)
            }
            _ => Err(Stop::Stray),
        }
    }

    /// Reads any word. Returns its bytes unchanged.
    pub(crate) fn word_bytes(&mut self) -> Result<&'a [u8], Stop>
        ensures { ReadsTokens (reader_of_grammar places.any_word) self.old self.new result
            (λ bytes. map to_ascii_uppercase bytes.now) }
    {
        match self.rest {
            [token, rest @ ..] if is_word(token.kind) => {
                self.rest = rest;
                Ok(bytes_at(self.text, token))
            }
            _ => Err(Stop::Stray),
        }
    }

    /// Reads any word. Returns it in upper case.
    pub(crate) fn word(&mut self) -> Result<Name, Stop>
        ensures { ReadsTokens (reader_of_grammar places.any_word) self.old self.new result
            (λ name. name) }
    {
        let bytes = self.word_bytes()?;
        Ok(Name::in_upper_case(self.alloc, bytes)?)
    }

    /// Reads any string token. Returns the bytes between its quotes unchanged.
    pub(crate) fn text_bytes(&mut self) -> Result<&'a [u8], Stop>
        ensures { ReadsTokens (reader_of_grammar places.any_text) self.old self.new result
            (λ bytes. map to_ascii_uppercase bytes.now) }
    {
        match self.rest {
            [token, rest @ ..] if is_text(token.kind) => {
                self.rest = rest;
                Ok(unquoted(bytes_at(self.text, token)))
            }
            _ => Err(Stop::Stray),
        }
    }

    /// Reads the mode of a port.
    pub(crate) fn mode(&mut self) -> Result<Mode, Stop>
        ensures { ReadsTokens (reader_of_grammar places.mode) self.old self.new result
            (λ mode. mode) }
    {
        match self.rest {
            [token, rest @ ..] if is_word(token.kind) => {
                let mode = mode_named(bytes_at(self.text, token)).ok_or(Stop::Stray)?;
                self.rest = rest;
                Ok(mode)
            }
            _ => Err(Stop::Stray),
        }
    }
}
