//! Tokens, and the faults that stop the lexer.
use std::alloc::AllocError;
use thiserror::Error;

/// The kind of a token, which the token's form determines.
#[derive(Clone, Copy, Debug, PartialEq, Eq)]
pub enum TokenKind {
    /// A letter, followed by any letters, digits and `_`. BSDL ignores the case of words.
    Word,
    /// Digits, followed by an optional fraction (`.` and digits) and an optional exponent.
    Number,
    /// A string: two quotes on one line, and the bytes between them.
    Text,
    /// One byte from 33 to 126 that is not a letter, a digit or a quote.
    Mark,
}

/// A token: the bytes `start..end` of the text, counted from 0. `line` is the line of the first
/// byte, counted from 1.
#[derive(Clone, Copy, Debug, PartialEq, Eq)]
pub struct Token {
    pub kind: TokenKind,
    pub start: u32,
    pub end: u32,
    pub line: u32,
}

/// The reason why the lexer did not find all tokens of a text. It is either the first fault of the text, with its line,
/// counted from 1, or lack of memory.
#[derive(Clone, Copy, Debug, PartialEq, Eq, Error)]
pub enum LexFault {
    /// A byte other than a quote, at which no blank, comment or token begins.
    #[error("line {0}: byte not allowed")]
    Byte(u32),
    /// In a string, a line feed (10), a carriage return (13) or the end of the text comes before the closing quote. The
    /// line is the line of the opening quote.
    #[error("line {0}: string not closed")]
    OpenString(u32),
    /// Another token follows the first `TOKEN_LIMIT` tokens. The line is the line of that token.
    #[error("line {0}: too many tokens")]
    TooMany(u32),
    #[error("out of memory")]
    Memory(AllocError),
}
