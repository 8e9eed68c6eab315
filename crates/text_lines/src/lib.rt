//! The lines of a text, and the words of a line.
//!
//! Byte 10 separates lines. Carriage returns, tabs and spaces are blanks, which separate words. A
//! word that begins with `#` begins a comment, which ends at the end of the line.
#![tactic(auto)]

ghost use Rattle.std.specs.Prelude.{◌≡◌, ◌==◌, [], ◌∷◌, true, false, MatchOption, map, IfOk, IfSome, IfNone, option_map, option_copied, length, drop, ◌+◌, ◌≤◌};
ghost use Rattle.std.specs.List.{slice_split, list_all};
ghost use Rattle.std.specs.Char.{is_ascii_graphic};
ghost use Rattle.memchr.specs.Find.{IsFirstByte, is_byte};
ghost use Rattle.text_lines.specs.Words.{words_of, is_newline, is_line_blank, is_word, is_filled, begins_no_comment, begins_blank, begins_word, lines_of, IsCutAt};

use memchr::{memchr, memchr3};
use std::alloc::{AllocError, Global};

/// Returns whether the byte is a carriage return, a tab or a space.
pub fn is_blank(b: u8) -> bool
    ensures { result ≡ is_line_blank b }
{
    b == b'\r' || b == b'\t' || b == b' '
}

/// Returns whether the word has at least one byte.
pub fn is_filled(word: &[u8]) -> bool
    ensures { result ≡ is_filled word.now }
{
    !word.is_empty()
}

/// Returns false if the word begins with `#`, which begins a comment, and true otherwise.
pub fn begins_no_comment(word: &[u8]) -> bool
    ensures { result ≡ begins_no_comment word.now }
{
    match word {
        [] => true,
        [b, ..] => *b != b'#',
    }
}

/// Returns the words of a line. If the line has a comment, returns only the words before it. Fails
/// only if memory runs out.
#[tactic(auto, unfolding(crate::specs::Words::words_of))]
pub fn words(alloc: Global, line: &[u8]) -> Result<Vec<&[u8]>, AllocError>
    ensures { IfOk result (λ words. map (λ w. w.now) words.items ≡ words_of line.now) }
{
    line.split(|b| is_blank(*b))
        .filter(|word| is_filled(word))
        .take_while(|word| begins_no_comment(word))
        .collect(alloc)
}

fn is_graphic(word: &[u8]) -> bool
    ensures { result ≡ list_all is_ascii_graphic word.now }
{
    word.iter().all(|b| b.is_ascii_graphic())
}

/// The largest number of bytes that a word can have.
const MOST_WORD_BYTES: usize = 255;

/// Returns whether the word has 1 to 255 bytes, each from 33 to 126.
pub fn is_word(word: &[u8]) -> bool
    ensures { result ≡ is_word word.now }
{
    is_filled(word) && word.len() <= MOST_WORD_BYTES && is_graphic(word)
}

// Returns the index of the first byte that equals `byte`, or None if there is no such byte.
// Compares the first byte before it starts a search, because a text may have millions of empty
// lines.
fn place_of(text: &[u8], byte: u8) -> Option<usize>
    ensures { IsFirstByte (is_byte byte) text.now result }
{
    match text {
        [first, ..] if *first == byte => Some(0),
        _ => memchr(byte, text),
    }
}

/// Returns the parts before and after the first byte that equals `byte`, or None if there is no
/// such byte.
pub fn cut_at(text: &[u8], byte: u8) -> Option<(&[u8], &[u8])>
    ensures { IsCutAt (λ b. b == byte) text.now
        (option_map (λ cut. (cut.0.now, cut.1.now)) result) }
{
    match place_of(text, byte) {
        Some(i) => Some((&text[..i], &text[i + 1..])),
        None => None,
    }
}

/// Returns the first line, without the byte 10 that ends it, and the text after this byte. The
/// second value is None if the text has no byte 10.
pub fn first_line(text: &[u8]) -> (&[u8], Option<&[u8]>)
    ensures lines { slice_split is_newline text.now
        ≡ result.0.now ∷ lines_of (option_copied result.1) }
    ensures shorter { IfSome result.1
        (λ rest. length result.0.now + length rest.now + 1 ≡ length text.now) }
    ensures whole { IfNone result.1 (length result.0.now ≡ length text.now) }
    ensures behind { IfSome result.1 (λ rest. rest.now ≡ drop (length result.0.now + 1) text.now) }
{
    match cut_at(text, b'\n') {
        Some((line, rest)) => (line, Some(rest)),
        None => (text, None),
    }
}

// Returns the line without the blanks at its front.
fn behind_blanks(line: &[u8]) -> &[u8]
    ensures words { words_of result.now ≡ words_of line.now }
    ensures first { begins_blank result.now ≡ false }
    ensures within { length result.now ≤ length line.now }
{
    for (i, b) in line.iter().enumerate() {
        if !is_blank(*b) {
            return &line[i..];
        }
    }
    &line[line.len()..]
}

fn begins_word(line: &[u8]) -> bool
    ensures { result ≡ begins_word line.now }
{
    is_filled(line) && begins_no_comment(line)
}

// Returns the parts before and after the first blank, or None if there is no blank.
fn cut_at_blank(text: &[u8]) -> Option<(&[u8], &[u8])>
    ensures { IsCutAt is_line_blank text.now (option_map (λ cut. (cut.0.now, cut.1.now)) result) }
{
    match memchr3(b'\r', b'\t', b' ', text) {
        Some(i) => Some((&text[..i], &text[i + 1..])),
        None => None,
    }
}

// Returns the word at the front of the text, and the text after the word and the blank that ends
// it. The text must begin with a word.
fn cut_word(text: &[u8]) -> (&[u8], &[u8])
    requires first { begins_blank text.now ≡ false }
    requires word { begins_word text.now ≡ true }
    ensures words { words_of text.now ≡ result.0.now ∷ words_of result.1.now }
    ensures within { length result.0.now + length result.1.now ≤ length text.now }
{
    match cut_at_blank(text) {
        Some(cut) => cut,
        None => (text, &text[text.len()..]),
    }
}

/// Returns the first word of a line and the text after the word and the blank that ends it. Returns
/// None if the line has no word. A comment has no words.
pub fn next_word(line: &[u8]) -> Option<(&[u8], &[u8])>
    ensures words { MatchOption result (words_of line.now ≡ [])
        (λ cut. words_of line.now ≡ cut.0.now ∷ words_of cut.1.now) }
    ensures within { IfSome result (λ cut. length cut.0.now + length cut.1.now ≤ length line.now) }
{
    let text = behind_blanks(line);
    if begins_word(text) {
        Some(cut_word(text))
    } else {
        None
    }
}
