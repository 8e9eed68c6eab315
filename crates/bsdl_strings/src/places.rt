//! Functions that read one piece of a text, and functions that they use. A piece is a group of letters, digits and `_`,
//! or a single other byte. A function that reads a piece returns the value of the piece, if it has one, and the text
//! after the piece, or `Stop::At` if the piece does not fit. A mark is a piece of one byte.
ghost use Rattle.std.specs.Prelude.{◌≡◌, ◌-◌, ◌*◌, ◌<◌, ◌≤◌, ◌^◌, [], length, IfOk};
ghost use Rattle.std.specs.List.{list_all, take_while};
ghost use Rattle.grammars.specs.inner.Reader.{found};
ghost use Rattle.grammars.specs.Grammar.{reader_of_grammar};
ghost use Rattle.grammars.specs.Values.{upper};
ghost use Rattle.bsdl_strings.specs.Pieces.{is_word_byte, pieces};
ghost use Rattle.bsdl_strings.specs.inner.Reading.{ReadsPieces, more_of};
ghost use Rattle.bsdl_strings.specs.Places.{is_pin, is_code_piece, is_symbol, symbol_of, code_of, role_of, is_result, comma_or_end, word_or_star, pin_or_open, safe_symbol, result_word, after_bit, the_end};
ghost use Rattle.bsdl_strings.specs.Places.{is_mark_piece as is_the_mark, is_word_piece as is_any_word, mark as the_mark, either_mark as either_of_marks, word as any_word, pin as any_pin, index as any_index, code as any_code, role as any_role};

use crate::pieces::{after_mark, joins_word, next_piece};
use crate::stop::Stop;
use board_defs::{Code, Name, Role, Symbol};
use grammars::{decimal_of, is_short_number, spells};
use std::alloc::{AllocError, Global};

fn is_mark(piece: &[u8], byte: u8) -> bool
    ensures { result ≡ is_the_mark byte piece.now }
{
    match piece {
        [only] => *only == byte,
        _ => false,
    }
}

fn are_word_bytes(piece: &[u8]) -> bool
    ensures { result ≡ list_all is_word_byte piece.now }
{
    piece.iter().all(|byte| joins_word(*byte))
}

fn names_pin(piece: &[u8]) -> bool
    ensures { result ≡ is_pin piece.now }
{
    !piece.is_empty() && are_word_bytes(piece)
}

fn is_word(piece: &[u8]) -> bool
    ensures { result ≡ is_any_word piece.now }
{
    match piece {
        [first, ..] => first.is_ascii_alphabetic() && are_word_bytes(piece),
        [] => false,
    }
}

fn fits_symbol(byte: u8) -> bool
    ensures { result ≡ is_symbol byte }
{
    byte == b'0' || byte == b'1' || byte.to_ascii_uppercase() == b'X'
}

fn symbol(byte: u8) -> Symbol
    ensures { result ≡ symbol_of byte }
{
    match byte {
        b'0' => Symbol::Zero,
        b'1' => Symbol::One,
        _ => Symbol::Any,
    }
}

fn are_symbols(piece: &[u8]) -> bool
    ensures { result ≡ list_all is_symbol piece.now }
{
    piece.iter().all(|byte| fits_symbol(*byte))
}

/// Returns how many characters at the front are 0, 1, X or x.
pub(crate) fn leading_symbols(text: &[u8]) -> usize
    ensures count { result ≡ length (take_while is_symbol text.now) }
    ensures within { result ≤ length text.now }
{
    text.iter().take_while(|byte| fits_symbol(**byte)).count()
}

pub(crate) fn spells_code(piece: &[u8]) -> bool
    ensures { result ≡ is_code_piece piece.now }
{
    !piece.is_empty() && are_symbols(piece)
}

fn symbols_from(alloc: Global, piece: &[u8]) -> Result<Vec<Symbol>, AllocError>
    ensures { IfOk result (λ symbols. symbols.items ≡ code_of piece.now) }
{
    piece.iter().rev().map(|byte| symbol(*byte)).collect(alloc)
}

/// Returns the code that the characters of the piece spell. The rightmost character is the code's
/// first symbol. The piece must be shorter than 2^32 bytes.
pub(crate) fn code_from(alloc: Global, piece: &[u8]) -> Result<Code, AllocError>
    requires { length piece.now < 2 ^ 32 }
    ensures { IfOk result (λ code. code ≡ code_of piece.now) }
{
    Ok(Code::from_vec(symbols_from(alloc, piece)?))
}

/// Like `code_from`, but for a piece of any length. If a piece is too long for a code, returns an
/// `AllocError`. A text of fewer than 2^32 bytes has no such piece.
fn short_code_from(alloc: Global, piece: &[u8]) -> Result<Code, AllocError>
    ensures { IfOk result (λ code. code ≡ code_of piece.now) }
{
    if piece.len() <= u32::MAX as usize {
        code_from(alloc, piece)
    } else {
        Err(AllocError)
    }
}

/// Reads the mark `byte`. Returns the text after it.
pub(crate) fn mark(text: &[u8], byte: u8) -> Result<&[u8], Stop<'_>>
    ensures { ReadsPieces (λ rest. found tt (pieces rest.now)) result
        (reader_of_grammar (the_mark byte) (pieces text.now)) }
{
    if let Some(rest) = after_mark(text, byte) {
        return Ok(rest);
    }
    match next_piece(text) {
        Some((piece, rest)) if is_mark(piece, byte) => Ok(rest),
        _ => Err(Stop::At(text)),
    }
}

/// Reads one of two marks. Returns whether it was the first.
pub(crate) fn either_mark(text: &[u8], first: u8, second: u8) -> Result<(bool, &[u8]), Stop<'_>>
    ensures { ReadsPieces (λ x. found x.0 (pieces x.1.now)) result
        (reader_of_grammar (either_of_marks first second) (pieces text.now)) }
{
    if let Some(rest) = after_mark(text, first) {
        return Ok((true, rest));
    }
    match next_piece(text) {
        Some((piece, rest)) if is_mark(piece, first) => Ok((true, rest)),
        Some((piece, rest)) if is_mark(piece, second) => Ok((false, rest)),
        _ => Err(Stop::At(text)),
    }
}

/// Reads a word, which is a letter followed by letters, digits and `_`. Returns it in upper case.
pub(crate) fn word(alloc: Global, text: &[u8]) -> Result<(Name, &[u8]), Stop<'_>>
    ensures { ReadsPieces (λ x. found x.0 (pieces x.1.now)) result
        (reader_of_grammar any_word (pieces text.now)) }
{
    match next_piece(text) {
        Some((piece, rest)) if is_word(piece) => Ok((Name::in_upper_case(alloc, piece)?, rest)),
        _ => Err(Stop::At(text)),
    }
}

/// Like `word`, but returns the letters unchanged, and so allocates nothing.
pub(crate) fn word_as_written(text: &[u8]) -> Result<(&[u8], &[u8]), Stop<'_>>
    ensures { ReadsPieces (λ x. found (upper x.0.now) (pieces x.1.now)) result
        (reader_of_grammar any_word (pieces text.now)) }
{
    match next_piece(text) {
        Some((piece, rest)) if is_word(piece) => Ok((piece, rest)),
        _ => Err(Stop::At(text)),
    }
}

/// Reads a pin, which is one or more letters, digits and `_`. Returns it in upper case.
pub(crate) fn pin(alloc: Global, text: &[u8]) -> Result<(Name, &[u8]), Stop<'_>>
    ensures { ReadsPieces (λ x. found x.0 (pieces x.1.now)) result
        (reader_of_grammar any_pin (pieces text.now)) }
{
    match next_piece(text) {
        Some((piece, rest)) if names_pin(piece) => Ok((Name::in_upper_case(alloc, piece)?, rest)),
        _ => Err(Stop::At(text)),
    }
}

/// Reads a number of 1 to 9 digits.
pub(crate) fn index(text: &[u8]) -> Result<(u32, &[u8]), Stop<'_>>
    ensures { ReadsPieces (λ x. found x.0 (pieces x.1.now)) result
        (reader_of_grammar any_index (pieces text.now)) }
{
    match next_piece(text) {
        Some((piece, rest)) if is_short_number(piece) => Ok((decimal_of(piece), rest)),
        _ => Err(Stop::At(text)),
    }
}

/// Reads a code, which is one or more of 0, 1 and X.
pub(crate) fn code(alloc: Global, text: &[u8]) -> Result<(Code, &[u8]), Stop<'_>>
    ensures { ReadsPieces (λ x. found x.0 (pieces x.1.now)) result
        (reader_of_grammar any_code (pieces text.now)) }
{
    match next_piece(text) {
        Some((piece, rest)) if spells_code(piece) => Ok((short_code_from(alloc, piece)?, rest)),
        _ => Err(Stop::At(text)),
    }
}

/// Reads a comma or the end of the string. Returns the text after the comma, or None at the end.
pub(crate) fn comma(text: &[u8]) -> Result<Option<&[u8]>, Stop<'_>>
    ensures { ReadsPieces (λ x. more_of x) result
        (reader_of_grammar comma_or_end (pieces text.now)) }
{
    match next_piece(text) {
        None => Ok(None),
        Some((piece, rest)) if is_mark(piece, b',') => Ok(Some(rest)),
        _ => Err(Stop::At(text)),
    }
}

/// Reads a pin or an opening parenthesis. Returns None for the parenthesis.
pub(crate) fn pin_or_group(alloc: Global, text: &[u8]) -> Result<(Option<Name>, &[u8]), Stop<'_>>
    ensures { ReadsPieces (λ x. found x.0 (pieces x.1.now)) result
        (reader_of_grammar pin_or_open (pieces text.now)) }
{
    match next_piece(text) {
        Some((piece, rest)) if is_mark(piece, b'(') => Ok((None, rest)),
        Some((piece, rest)) if names_pin(piece) => Ok((
            Some(Name::in_upper_case(alloc, piece)?),
            rest,
        )),
        _ => Err(Stop::At(text)),
    }
}

/// Reads a word or `*`. Returns None for `*`.
pub(crate) fn word_unless_star(
    alloc: Global,
    text: &[u8],
) -> Result<(Option<Name>, &[u8]), Stop<'_>>
    ensures { ReadsPieces (λ x. found x.0 (pieces x.1.now)) result
        (reader_of_grammar word_or_star (pieces text.now)) }
{
    match next_piece(text) {
        Some((piece, rest)) if is_mark(piece, b'*') => Ok((None, rest)),
        Some((piece, rest)) if is_word(piece) => Ok((
            Some(Name::in_upper_case(alloc, piece)?),
            rest,
        )),
        _ => Err(Stop::At(text)),
    }
}

/// Reads a safe value: 0, 1 or X.
pub(crate) fn safe(text: &[u8]) -> Result<(Symbol, &[u8]), Stop<'_>>
    ensures { ReadsPieces (λ x. found x.0 (pieces x.1.now)) result
        (reader_of_grammar safe_symbol (pieces text.now)) }
{
    match next_piece(text) {
        Some((piece, rest)) if is_mark(piece, b'0') => Ok((Symbol::Zero, rest)),
        Some((piece, rest)) if is_mark(piece, b'1') => Ok((Symbol::One, rest)),
        Some((piece, rest)) if spells(piece, b"X") => Ok((Symbol::Any, rest)),
        _ => Err(Stop::At(text)),
    }
}

fn role_named(piece: &[u8]) -> Option<Role>
    ensures { result ≡ role_of (upper piece.now) }
{
    if spells(piece, b"INPUT") {
        Some(Role::Input)
    } else if spells(piece, b"OUTPUT2") {
        Some(Role::Output2)
    } else if spells(piece, b"OUTPUT3") {
        Some(Role::Output3)
    } else if spells(piece, b"CONTROL") {
        Some(Role::Control)
    } else if spells(piece, b"CONTROLR") {
        Some(Role::ControlR)
    } else if spells(piece, b"INTERNAL") {
        Some(Role::Internal)
    } else if spells(piece, b"CLOCK") {
        Some(Role::Clock)
    } else if spells(piece, b"BIDIR") {
        Some(Role::Bidir)
    } else if spells(piece, b"OBSERVE_ONLY") {
        Some(Role::ObserveOnly)
    } else {
        None
    }
}

/// Reads the function of a cell.
pub(crate) fn role(text: &[u8]) -> Result<(Role, &[u8]), Stop<'_>>
    ensures { ReadsPieces (λ x. found x.0 (pieces x.1.now)) result
        (reader_of_grammar any_role (pieces text.now)) }
{
    match next_piece(text) {
        None => Err(Stop::At(text)),
        Some((piece, rest)) => match role_named(piece) {
            Some(role) => Ok((role, rest)),
            None => Err(Stop::At(text)),
        },
    }
}

fn names_result(piece: &[u8]) -> bool
    ensures { result ≡ is_result (upper piece.now) }
{
    spells(piece, b"Z")
        || spells(piece, b"WEAK0")
        || spells(piece, b"WEAK1")
        || spells(piece, b"PULL0")
        || spells(piece, b"PULL1")
        || spells(piece, b"KEEPER")
}

/// Reads a disable result, which is the state of a disabled driver. Returns only the text after it,
/// since the program makes no difference between these states.
pub(crate) fn result_of_disabling(text: &[u8]) -> Result<&[u8], Stop<'_>>
    ensures { ReadsPieces (λ rest. found tt (pieces rest.now)) result
        (reader_of_grammar result_word (pieces text.now)) }
{
    match next_piece(text) {
        Some((piece, rest)) if names_result(piece) => Ok(rest),
        _ => Err(Stop::At(text)),
    }
}

/// Reads the mark after the port name of a compliance bit. Returns None if an index follows.
/// Otherwise returns whether another bit follows.
pub(crate) fn mark_after_bit(text: &[u8]) -> Result<(Option<bool>, &[u8]), Stop<'_>>
    ensures { ReadsPieces (λ x. found x.0 (pieces x.1.now)) result
        (reader_of_grammar after_bit (pieces text.now)) }
{
    match next_piece(text) {
        Some((piece, rest)) if is_mark(piece, b'(') => Ok((None, rest)),
        Some((piece, rest)) if is_mark(piece, b',') => Ok((Some(true), rest)),
        Some((piece, rest)) if is_mark(piece, b')') => Ok((Some(false), rest)),
        _ => Err(Stop::At(text)),
    }
}

/// Checks that no piece is left.
pub(crate) fn end(text: &[u8]) -> Result<(), Stop<'_>>
    ensures { ReadsPieces (λ x. found tt []) result (reader_of_grammar the_end (pieces text.now)) }
{
    match next_piece(text) {
        None => Ok(()),
        Some(_) => Err(Stop::At(text)),
    }
}
