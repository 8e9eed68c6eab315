// Reads a file line by line, up to its first faulty line.
ghost use Rattle.std.specs.Prelude.{◌≤◌, ℕ, List, Result, map, length, vec_len, IfOk, Some};
ghost use Rattle.text_lines.specs.Words.{Word};
ghost use Rattle.board_files.specs.declared.fault.LineFault.{LineFault};
ghost use Rattle.board_files.specs.Reading.{ReadsLines, lines_of_text};

use crate::fault::LineFault;
use short_lists::TextSlice;
use std::alloc::Global;
use text_lines::{first_line, words};

/// The type of the lines of a file. Each value is made from the number and the words of one line.
pub(crate) trait FileLine: Drop {
    ghost read: { ℕ → List Word → Result Self LineFault };

    /// Returns the line with this number and these words, or the fault of the line.
    fn from_words(alloc: Global, line: u32, words: &[&[u8]]) -> Result<Self, LineFault>
        ensures { ReadsLines (λ line. line) result (read line (map (λ w. w.now) words.now)) };
}

/// Returns the lines of a file, or the fault of its first faulty line. Lines without words are left
/// out. There are at most as many lines as the text has bytes.
pub(crate) fn read_lines<L: FileLine>(
    alloc: Global,
    text: TextSlice<'_>,
) -> Result<Vec<L>, LineFault>
    ensures read { ReadsLines (λ lines. lines.items) result
        (lines_of_text L.read text.entry.items.now) }
    ensures count { IfOk result (λ lines. vec_len lines ≤ length text.entry.items.now) }
{
    let mut lines = Vec::new(alloc);
    let mut rest = Some(text.items);
    let mut number = 1usize;
    while let Some(left) = rest {
        let (line, after) = first_line(left);
        let words = words(alloc, line)?;
        if !words.is_empty() {
            lines.push(L::from_words(alloc, number as u32, &words)?)?;
        }
        number += 1;
        rest = after;
    }
    Ok(lines)
}
