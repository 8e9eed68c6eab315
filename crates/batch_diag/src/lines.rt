// Cuts the text of a batch at its titles. A title is a line whose first word is `BOARD`, and it begins a block.
ghost use Rattle.std.specs.Prelude.{◌≡◌, ◌+◌, ◌<◌, ◌≤◌, ◌^◌, ◌∷◌, [], ◌&&◌, not, length, map, IfOk, IfSome, MatchOption, option_copied};
ghost use Rattle.text_lines.specs.Words.{words_of};
ghost use Rattle.response_log.specs.LogRows.{holds_word, row_lines};
ghost use Rattle.batch_diag.specs.Batch.{is_title, first_or_none, id_of, is_id, names_board, start_fault, title_fault, up_to_title, blocks_of};
ghost use Rattle.batch_diag.specs.inner.Reading.{lines_of_unread};
ghost use Rattle.batch_diag.specs.inner.Cutting.{IsFirstLine, NoneIs, rows_from, begins_row, blocks_at, is_of_kind, or_nothing};

use crate::fault::BatchFault;
use crate::unread::UnreadBlock;
use short_lists::TextSlice;
use std::alloc::{AllocError, Global};
use text_lines::{first_line, is_blank, is_word, next_word};

/// A title: its line number, the id in it, and the text after its line.
#[derive(Clone, Copy)]
pub struct Title<'a> {
    pub line: usize,
    pub id: &'a [u8],
    pub behind: &'a [u8],
}

fn has_words(line: &[u8]) -> bool
    ensures { result ≡ holds_word (words_of line.now) }
{
    next_word(line).is_some()
}

// Returns whether the first byte of the line is neither `B` nor blank, so the line is not a title. Most rows of a log begin with such a
// byte, so their words need not be read.
fn begins_row(line: &[u8]) -> bool
    ensures { result ≡ begins_row line.now }
{
    match line {
        [first, ..] => *first != b'B' && !is_blank(*first),
        [] => false,
    }
}

// Returns whether the first word of the line is `BOARD`.
fn is_title(line: &[u8]) -> bool
    ensures { result ≡ is_title (words_of line.now) }
{
    if begins_row(line) {
        return false;
    }
    match next_word(line) {
        Some((word, _)) => word == b"BOARD".as_slice(),
        None => false,
    }
}

// Returns the first word of a line, or no bytes if the line has no word.
fn first_or_none(line: &[u8]) -> &[u8]
    ensures { result.now ≡ first_or_none (words_of line.now) }
{
    match next_word(line) {
        Some((word, _)) => word,
        None => b"",
    }
}

// Returns the second word of a line, or no bytes if the line has no second word.
fn id_of(line: &[u8]) -> &[u8]
    ensures { result.now ≡ id_of (words_of line.now) }
{
    match next_word(line) {
        Some((_, behind)) => first_or_none(behind),
        None => b"",
    }
}

// Returns whether the line has exactly one word and this word satisfies the word rule (see `is_word`).
fn is_id(line: &[u8]) -> bool
    ensures { result ≡ is_id (words_of line.now) }
{
    match next_word(line) {
        Some((id, behind)) => !has_words(behind) && is_word(id),
        None => false,
    }
}

// Returns whether exactly one word follows the first word of the line and this second word satisfies the word rule.
fn names_board(line: &[u8]) -> bool
    ensures { result ≡ names_board (words_of line.now) }
{
    match next_word(line) {
        Some((_, behind)) => is_id(behind),
        None => false,
    }
}

// Returns whether the line is a title that does not have exactly two words or whose id breaks the word rule.
fn is_wrong_title(line: &[u8]) -> bool
    ensures { result ≡ (is_title (words_of line.now) && not (names_board (words_of line.now))) }
{
    is_title(line) && !names_board(line)
}

// A kind of line: a line with words, a title, or a wrong title.
#[derive(Clone, Copy)]
enum LineKind {
    WithWords,
    AnyTitle,
    WrongTitle,
}

// Returns whether a line belongs to `kind`.
fn is_of_kind(line: &[u8], kind: LineKind) -> bool
    ensures { result ≡ is_of_kind kind (words_of line.now) }
{
    match kind {
        LineKind::WithWords => has_words(line),
        LineKind::AnyTitle => is_title(line),
        LineKind::WrongTitle => is_wrong_title(line),
    }
}

// A line of a text: its number, the text before it, its bytes, and the text after it.
#[derive(Clone, Copy)]
struct FoundLine<'a> {
    number: usize,
    before: &'a [u8],
    line: &'a [u8],
    behind: &'a [u8],
}

// Returns the text, or no bytes if there is no text.
fn or_nothing(text: Option<&[u8]>) -> &[u8]
    ensures { result.now ≡ or_nothing (option_copied text.entry) }
{
    text.unwrap_or(b"")
}

// Returns the first line of this kind in a text, or `None` if no line is of this kind. The first line of the text has the number `number`.
// The sum of `number` and the length of the text must be below 2^33.
fn find_line(text: &[u8], number: usize, kind: LineKind) -> Option<FoundLine<'_>>
    requires { number + length text.now < 2 ^ 33 }
    ensures { MatchOption result (NoneIs (is_of_kind kind) (rows_from number text.now))
        (IsFirstLine (is_of_kind kind) number text.now) }
{
    let mut rest = Some(text);
    let mut line_number = number;
    while let Some(left) = rest {
        let (line, after) = first_line(left);
        if is_of_kind(line, kind) {
            return Some(FoundLine {
                number: line_number,
                before: &text[..text.len() - left.len()],
                line,
                behind: or_nothing(after),
            });
        }
        line_number += 1;
        rest = after;
    }
    None
}

/// Returns the fault of a text's first line with words, if this line is not a title. Otherwise returns `None`.
pub fn start_fault(text: TextSlice<'_>) -> Option<BatchFault>
    ensures { result ≡ start_fault (row_lines text.entry.items.now) }
{
    match find_line(text.items, 1, LineKind::WithWords) {
        Some(found) => no_title(found.line, found.number as u32),
        None => None,
    }
}

// Returns `Start(number)` unless the line is a title, and otherwise `None`. The line is the first line of the
// text that has words, and `number` is its number.
fn no_title(line: &[u8], number: u32) -> Option<BatchFault>
    ensures { result ≡ start_fault (record { number = number; words = words_of line.now } ∷ []) }
{
    if is_title(line) {
        None
    } else {
        Some(BatchFault::Start(number))
    }
}

/// Returns the fault of the first wrong title of a text. A title is wrong if it does not have exactly two words or its id breaks the word
/// rule. Returns `None` if no title is wrong.
pub fn title_fault(text: TextSlice<'_>) -> Option<BatchFault>
    ensures { result ≡ title_fault (row_lines text.entry.items.now) }
{
    match find_line(text.items, 1, LineKind::WrongTitle) {
        Some(found) => Some(BatchFault::Title(found.number as u32)),
        None => None,
    }
}

/// Cuts a text at its first title. Returns the text before the title, and the title. If the text has no title, returns the whole text and
/// `None`. The first line of the text has the number `number`. The sum of `number` and the length of the text must be below 2^33.
pub fn cut_at_title(text: &[u8], number: usize) -> (&[u8], Option<Title<'_>>)
    requires { number + length text.now < 2 ^ 33 }
    ensures own { up_to_title (rows_from number text.now) ≡ rows_from number result.0.now }
    ensures rest { blocks_of (rows_from number text.now) ≡ blocks_at result.1 }
    ensures within { length result.0.now ≤ length text.now }
    ensures later { IfSome result.1 (λ title. number ≤ title.line) }
    ensures place { IfSome result.1
        (λ title. title.line + length title.behind.now + 1 ≤ number + length text.now) }
{
    match find_line(text, number, LineKind::AnyTitle) {
        Some(found) => {
            let title = Title {
                line: found.number,
                id: id_of(found.line),
                behind: found.behind,
            };
            (found.before, Some(title))
        }
        None => (text, None),
    }
}

// Returns the block with this title and the text `own`, which follows the title and ends before the next title. The sum of the title's line
// number and the length of `own` must be below 2^32.
fn unread_block<'a>(title: Title<'a>, own: &'a [u8]) -> UnreadBlock<'a>
    requires { title.line + length own.now < 2 ^ 32 }
    ensures { lines_of_unread result
        ≡ record { id = title.entry.id.now; lines = rows_from (title.entry.line + 1) own.now } }
{
    UnreadBlock {
        line: title.line,
        id: title.id,
        own,
    }
}

/// Returns the blocks of a text with their logs unread. Wrong titles begin blocks as well.
pub fn list_blocks<'a>(
    alloc: Global,
    text: TextSlice<'a>,
) -> Result<Vec<UnreadBlock<'a>>, AllocError>
    ensures blocks { IfOk result
        (λ unread. blocks_of (row_lines text.entry.items.now) ≡ map lines_of_unread unread.items) }
    ensures few { IfOk result (λ unread. length unread.items < 2 ^ 32) }
{
    let mut unread = Vec::new(alloc);
    let mut next = cut_at_title(text.items, 1).1;
    while let Some(title) = next {
        let (own, following) = cut_at_title(title.behind, title.line + 1);
        unread.push(unread_block(title, own))?;
        next = following;
    }
    Ok(unread)
}
