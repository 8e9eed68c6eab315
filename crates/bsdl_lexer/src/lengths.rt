//! Measures the token, and the gap of blanks and comments, at the front of a list of bytes.
ghost use Rattle.std.specs.Prelude.{◌≡◌, ◌+◌, ◌≤◌, ◌<◌, length, take, drop, slice_get, MatchOption, IfSome, false};
ghost use Rattle.std.specs.List.{prefix_len};
ghost use Rattle.std.specs.Char.{is_ascii_digit};
ghost use Rattle.bsdl_lexer.specs.Forms.{is_bsdl_blank, is_word_byte, is_text_byte, is_mark_byte, is_exponent_letter, is_sign, begins_comment};
ghost use Rattle.bsdl_lexer.specs.Tokens.{line_feeds};
ghost use Rattle.bsdl_lexer.specs.inner.Lengths.{with_digits, fraction_len, signed_len, exponent_len, number_len, closed_len, token_at, gap_len};

use crate::token::TokenKind;
use memchr::memchr3;
use short_lists::TextSlice;

fn is_blank_byte(byte: u8) -> bool
    ensures { result ≡ is_bsdl_blank byte }
{
    matches!(byte, b' ' | 9..=13)
}

fn is_in_word(byte: u8) -> bool
    ensures { result ≡ is_word_byte byte }
{
    byte.is_ascii_alphanumeric() || byte == b'_'
}

fn is_mark_byte(byte: u8) -> bool
    ensures { result ≡ is_mark_byte byte }
{
    byte.is_ascii_graphic() && !(byte.is_ascii_alphanumeric() || byte == b'"')
}

fn is_exponent_byte(byte: u8) -> bool
    ensures { result ≡ is_exponent_letter byte }
{
    matches!(byte, b'E' | b'e')
}

fn is_sign_byte(byte: u8) -> bool
    ensures { result ≡ is_sign byte }
{
    matches!(byte, b'+' | b'-')
}

fn starts_comment(bytes: &[u8]) -> bool
    ensures { result ≡ begins_comment bytes.now }
{
    matches!(bytes, [b'-', b'-', ..])
}

#[tactic(auto, using(crate::proofs::Bounds::short))]
fn digits_len(bytes: &[u8]) -> usize
    ensures value { result ≡ prefix_len is_ascii_digit bytes.now }
    ensures within { result ≤ length bytes.now }
{
    bytes
        .iter()
        .take_while(|byte| byte.is_ascii_digit())
        .count()
}

// A plain loop is faster here than a chain of iterators, and many bytes of a text are in words.
fn word_len(bytes: &[u8]) -> usize
    ensures value { result ≡ prefix_len is_word_byte bytes.now }
    ensures within { result ≤ length bytes.now }
{
    for (i, byte) in bytes.iter().enumerate() {
        if !is_in_word(*byte) {
            return i;
        }
    }
    bytes.len()
}

// Most bytes of a description are in strings, so this search compares many bytes at a time.
fn text_len(bytes: &[u8]) -> usize
    ensures value { result ≡ prefix_len is_text_byte bytes.now }
    ensures within { result ≤ length bytes.now }
{
    match memchr3(b'"', b'\n', b'\r', bytes) {
        Some(end) => end,
        None => bytes.len(),
    }
}

/// Returns `front` plus the number of digits at the front of `bytes`, or 0 if there are no digits.
/// `front` is the number of bytes before the digits, at most 2.
fn digits_behind(front: usize, bytes: &[u8]) -> usize
    requires { front ≤ 2 }
    ensures value { result ≡ with_digits front bytes.now }
    ensures within { result ≤ front + length bytes.now }
{
    let digits = digits_len(bytes);
    if digits == 0 { 0 } else { front + digits }
}

fn fraction_length(bytes: &[u8]) -> usize
    ensures value { result ≡ fraction_len bytes.now }
    ensures within { result ≤ length bytes.now }
{
    match bytes {
        [b'.', others @ ..] => digits_behind(1, others),
        _ => 0,
    }
}

/// Returns the length of the exponent whose letter is the byte before `bytes`. The length includes the letter. Returns
/// 0 if `bytes` does not begin with an optional sign and digits.
fn signed_length(bytes: &[u8]) -> usize
    ensures value { result ≡ signed_len bytes.now }
    ensures within { result ≤ 1 + length bytes.now }
{
    match bytes {
        [] => 0,
        [first, others @ ..] => {
            if is_sign_byte(*first) {
                digits_behind(2, others)
            } else {
                digits_behind(1, bytes)
            }
        }
    }
}

fn exponent_length(bytes: &[u8]) -> usize
    ensures value { result ≡ exponent_len bytes.now }
    ensures within { result ≤ length bytes.now }
{
    match bytes {
        [first, others @ ..] if is_exponent_byte(*first) => signed_length(others),
        _ => 0,
    }
}

fn number_length(bytes: &[u8]) -> usize
    ensures value { result ≡ number_len bytes.now }
    ensures within { result ≤ length bytes.now }
{
    let whole = digits_len(bytes);
    let behind = &bytes[whole..];
    let fraction = fraction_length(behind);
    let exponent = exponent_length(&behind[fraction..]);
    whole + (fraction + exponent)
}

/// Returns the kind and the length of the string token whose opening quote is the byte before
/// `bytes`. The length includes both quotes. Returns None if the string is not closed on its line.
fn closed_text(bytes: &[u8]) -> Option<(TokenKind, usize)>
    ensures value { result
        ≡ closed_len (slice_get bytes.now (prefix_len is_text_byte bytes.now))
        (prefix_len is_text_byte bytes.now) }
    ensures within { IfSome result (λ found. found.1 ≤ 1 + length bytes.now) }
{
    let inner = text_len(bytes);
    match bytes.get(inner) {
        Some(b'"') => Some((TokenKind::Text, inner + 2)),
        _ => None,
    }
}

/// Returns the kind and the length in bytes of the token at the front of `bytes`, or None if no token begins there.
pub(crate) fn token_found(bytes: &[u8]) -> Option<(TokenKind, usize)>
    ensures value { result ≡ token_at bytes.now }
    ensures within { IfSome result (λ found. found.1 ≤ length bytes.now) }
{
    match bytes {
        [] => None,
        [first, others @ ..] => {
            if starts_comment(bytes) {
                None
            } else if first.is_ascii_alphabetic() {
                Some((TokenKind::Word, 1 + word_len(others)))
            } else if first.is_ascii_digit() {
                Some((TokenKind::Number, number_length(bytes)))
            } else if *first == b'"' {
                closed_text(others)
            } else if is_mark_byte(*first) {
                Some((TokenKind::Mark, 1))
            } else {
                None
            }
        }
    }
}

/// Takes one step through a gap. Returns None if the first byte of `bytes` does not belong to the gap. Otherwise
/// returns whether the byte after it is inside a comment. `in_comment` says whether the first byte is inside a comment.
/// The line feed that ends a comment counts as inside the comment.
fn gap_step(in_comment: bool, bytes: &[u8]) -> Option<bool>
    ensures { MatchOption result (gap_len in_comment bytes.now ≡ 0)
        (λ next. (0 < length bytes.now)
        × (gap_len in_comment bytes.now ≡ 1 + gap_len next (drop 1 bytes.now))) }
{
    match bytes {
        [] => None,
        [first, ..] => {
            if in_comment {
                Some(*first != b'\n')
            } else if is_blank_byte(*first) {
                Some(false)
            } else if starts_comment(bytes) {
                Some(true)
            } else {
                None
            }
        }
    }
}

/// A gap between tokens, which consists of blanks and comments: its length in bytes, and the number
/// of line feeds in it.
#[derive(Clone, Copy)]
pub(crate) struct Gap {
    pub length: usize,
    pub lines: u32,
}

/// Returns the gap at the front of the text. The gap may be empty.
pub(crate) fn gap_at(text: TextSlice<'_>) -> Gap
    ensures length { result.length ≡ gap_len false text.entry.items.now }
    ensures within { result.length ≤ length text.entry.items.now }
    ensures lines { result.lines ≡ line_feeds (take result.length text.entry.items.now) }
    ensures few { result.lines ≤ result.length }
{
    let mut length = 0usize;
    let mut lines = 0u32;
    let mut in_comment = false;
    while let Some(next) = gap_step(in_comment, &text.items[length..]) {
        if text.items[length] == b'\n' {
            lines += 1;
        }
        length += 1;
        in_comment = next;
    }
    Gap { length, lines }
}
