// Reads the rows of a log from a text.
ghost use Rattle.std.specs.Prelude.{◌≡◌, ◌+◌, ◌*◌, ◌<◌, ◌≤◌, ◌^◌, ◌∷◌, ◌++◌, length, take, drop, min, IfOk, IfSome, MatchResult, Some, None};
ghost use Rattle.std.specs.List.{slice_split};
ghost use Rattle.bt_bits.specs.Digits.{digit_row};
ghost use Rattle.bt_bits.specs.Hex.{digit_count};
ghost use Rattle.bt_bits.specs.Rows.{AreDigitsOf};
ghost use Rattle.answers.specs.Gives.{Gives};
ghost use Rattle.text_lines.specs.Words.{is_newline, lines_of};
ghost use Rattle.response_log.specs.LogRows.{HasSize, bits_of_line, line_with, log_rows, log_told, row_fault};
ghost use Rattle.response_log.specs.Kept.{AreWhole, kept_rows, text_at};

use crate::fault::LogFault;
use crate::kept::Log;
use bt_bits::{HexFault, digit_count, read_digits};
use short_lists::ShortText;
use std::alloc::Global;
use text_lines::{first_line, next_word};

/// Reads a log of `rows` rows with `len` bits each from any bytes. There must be fewer than 2^32 bytes. The error is
/// the fault of the first line with a fault. Each of the first `rows` lines with words must be a row. Such a line gives
/// `Length` if it is not one word, or if the word does not have one byte for each digit that the bits need. It gives
/// `Digit` if its length is right, but a byte is not a digit or a bit above the `len` bits is 1. A line with words gives
/// `Extra` if it comes after the last expected row. If no line has a fault but there are fewer than `rows` rows, the
/// error is `Missing`.
///
/// The log takes one byte of memory for each byte of the text.
pub fn log(alloc: Global, bytes: &[u8], rows: u64, len: u32) -> Result<Log, LogFault>
    requires { length bytes.now < 2 ^ 32 }
    ensures read { Gives log_told (λ log. log) (λ said. log_rows bytes.now rows len ≡ said) result }
    ensures size { IfOk result (HasSize rows len) }
{
    let text = ShortText::of(Vec::from_slice(alloc, bytes)?);
    log_of(alloc, text, rows, len)
}

/// Like `log`, but takes ownership of the text and writes the digits over it. Besides the text, it needs memory only for one row, and never
/// more bytes than the text has.
pub fn log_of(alloc: Global, text: ShortText, rows: u64, len: u32) -> Result<Log, LogFault>
    ensures read { Gives log_told (λ log. log) (λ said. log_rows text rows len ≡ said) result }
    ensures size { IfOk result (HasSize rows len) }
{
    let mut text = text.into_bytes();
    let kept = keep_rows(alloc, &mut text, rows, len)?;
    text.truncate(kept);
    Ok(Log::of(text, rows, len))
}

// Writes the digits of all rows, row after row, over the text from its start, and returns the number of digits. The
// text must have fewer than 2^32 bytes. A row has no more digits than its line has bytes, so the digits never reach a
// line that is still to be read. Each row is first read into `row`, since the last digit of a word is the first digit
// of its row.
fn keep_rows(alloc: Global, text: &mut [u8], rows: u64, len: u32) -> Result<usize, LogFault>
    requires { length text.old < 2 ^ 32 }
    ensures read { Gives log_told (λ kept. kept_rows len rows (take kept text.new))
        (λ said. log_rows text.old rows len ≡ said) result }
    ensures count { IfOk result (λ kept. length (take kept text.new) ≡ rows * digit_count len) }
    ensures whole { IfOk result (λ kept. AreWhole len rows (take kept text.new)) }
{
    let width = digit_count(len as usize);
    let mut row = vec![in alloc; 0u8; width.min(text.len())]?;
    let mut kept = 0usize;
    let mut found = 0u64;
    let mut next = Some(0usize);
    let mut number = 1usize;
    while let Some(from) = next {
        let (line, following) = line_at(text, from);
        next = following;
        if let Some((word, behind)) = next_word(line) {
            let line_number = number as u32;
            if found >= rows {
                return Err(LogFault::Extra(line_number));
            }
            read_row(line_number, word, behind, len, &mut row)?;
            put_row(text, kept, &row);
            kept += width;
            found += 1;
        }
        number += 1;
    }
    if found < rows {
        return Err(LogFault::Missing(found));
    }
    Ok(kept)
}

// Returns the line that begins at place `from`, and the place of the next line if there is one. `from` must not be past
// the end of the text.
fn line_at(text: &[u8], from: usize) -> (&[u8], Option<usize>)
    requires { from ≤ length text.now }
    ensures lines { slice_split is_newline (drop from text.now)
        ≡ result.0.now ∷ lines_of (text_at text.now result.1) }
    ensures next { IfSome result.1
        (λ next. (next ≡ from + length result.0.now + 1) × next ≤ length text.now) }
    ensures within { from + length result.0.now ≤ length text.now }
{
    let (line, after) = first_line(&text[from..]);
    match after {
        Some(_) => (line, Some(from + line.len() + 1)),
        None => (line, None),
    }
}

// Writes the digits of a row over a text, from place `at` on. The row must not reach past the end of the text.
fn put_row(text: &mut [u8], at: usize, row: &[u8])
    requires { at + length row.now ≤ length text.old }
    ensures { text.new ≡ take at text.old ++ (row.now ++ drop (at + length row.now) text.old) }
{
    text[at..at + row.len()].copy_from_slice(row);
}

// Reads a line that must be a row into `digits`. `word` is the line's first word, and `behind` is the rest of the line.
// `digits` must have one place for each digit of a row. If the word has fewer digits than a row, `digits` may have
// fewer places, but not fewer than the word has digits.
fn read_row(
    line: u32,
    word: &[u8],
    behind: &[u8],
    len: u32,
    digits: &mut [u8],
) -> Result<(), LogFault>
    requires most { length digits.old ≤ digit_count len }
    requires room { min (digit_count len) (length word.now) ≤ length digits.old }
    ensures fault { MatchResult result
        (λ _. row_fault len (line_with line word.now behind.now) ≡ None)
        (λ fault. row_fault len (line_with line word.now behind.now) ≡ Some fault) }
    ensures bits { IfOk result
        (λ _. bits_of_line len (line_with line word.now behind.now)
        ≡ Some (digit_row len digits.new)) }
    ensures kept { IfOk result (λ _. AreDigitsOf (digit_row len digits.new) len digits.new) }
    ensures long { IfOk result (λ _. length word.now ≡ digit_count len) }
{
    if next_word(behind).is_some() || word.len() != digit_count(len as usize) {
        return Err(LogFault::Length(line));
    }
    match read_digits(word, len, digits) {
        Ok(()) => Ok(()),
        Err(HexFault::Length) => Err(LogFault::Length(line)),
        Err(HexFault::Digit) => Err(LogFault::Digit(line)),
    }
}
