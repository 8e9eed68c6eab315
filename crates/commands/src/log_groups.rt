// The command `groups`, which finds the groups of shorted nets in a log of a board's walking test.
ghost use Rattle.std.specs.Prelude.{◌≡◌, Ok, option_map};
ghost use Rattle.board_defs.specs.Pins.{data_bits};
ghost use Rattle.response_log.specs.LogRows.{HasSize};
ghost use Rattle.walk_test.specs.GroupText.{groups_text};
ghost use Rattle.command_line.specs.Words.{Text};
ghost use Rattle.commands.specs.LogRead.{grouping, grouping_text, walk_log, walk_rows};
ghost use Rattle.commands.specs.Worth.{IsGroupsText};
ghost use Rattle.commands.specs.Answers.{AnswersOn, JudgedAnswers};
ghost use Rattle.commands.specs.inner.Unput.{PutsText};

use crate::board_test::test_means;
use crate::board_walk::{Walked, walked_board};
use crate::texts::LogTexts;
use crate::unput::{Unput, answer_by, unput_by_log};
use board_defs::Board;
use bt_base::Sink;
use bt_bits::Line;
use command_line::LogFiles;
use response_log::{Log, log_of};
use short_lists::ShortText;
use std::alloc::Global;
use walk_test::law::{groups_respond, one_set};
use walk_test::{Group, write_groups};

/// Writes the groups of nets that explain `texts.log`, a log of the board's walking test. The board is the one that `texts.board` denotes.
/// Allocates all memory before the first write.
pub fn groups<K: Sink>(alloc: Global, texts: LogTexts, out: &mut K) -> Result<(), Unput>
    ensures { JudgedAnswers grouping grouping_text IsGroupsText texts (K.shown out.old)
        (K.shown out.new) result }
{
    let LogFiles { log, board } = texts;
    match walked_board(alloc, &board) {
        Ok(walked) => {
            let put = put_groups(alloc, &walked, log, out);
            drop(walked);
            put
        }
        Err(failure) => Err(failure),
    }
}

// Returns the groups as a slice, or `None` if `found` is `None`.
fn lent(found: &Option<Vec<Group>>) -> Option<&[Group]>
    ensures { option_map (λ groups. groups.now) result
        ≡ option_map (λ groups. groups.items) found.now }
{
    match found {
        None => None,
        Some(groups) => Some(groups),
    }
}

// Reads a log of the board's walking test from `text` and writes the groups that explain the log. The log reuses the memory of the text.
fn put_groups<K: Sink>(
    alloc: Global,
    walked: &Walked,
    text: ShortText,
    out: &mut K,
) -> Result<(), Unput>
    ensures { AnswersOn grouping grouping_text IsGroupsText text walked.now.board (K.shown out.old)
        (K.shown out.new) result }
{
    let (rows, bits) = (walked.log_rows(), walked.log_bits());
    match log_of(alloc, text, rows, bits) {
        Ok(log) => put_grouped(alloc, walked, &log, out),
        Err(fault) => Err(unput_by_log(rows, fault)),
    }
}

// Finds the groups that explain a log of the board's walking test, and writes them. The log must have `walked.log_rows()` rows of
// `walked.log_bits()` bits each.
fn put_grouped<K: Sink>(alloc: Global, walked: &Walked, log: &Log, out: &mut K) -> Result<(), Unput>
    requires size { HasSize (walk_rows walked.now.board) (data_bits walked.now.board) log.now }
    ensures { (text : Text) → walk_log text walked.now.board ≡ Ok log.now
        → AnswersOn grouping grouping_text IsGroupsText text walked.now.board (K.shown out.old)
        (K.shown out.new) result }
{
    let Walked { board, walk } = walked;
    let found = walk_test::groups(alloc, board, walk, log)?;
    let _rules = board.raw();
    test_means(board);
    groups_respond();
    one_set();
    put_found(alloc, board, &found, out)
}

// Writes the groups that explain a log. If `found` is `None`, writes that no set of groups explains the log.
fn put_found<K: Sink>(
    alloc: Global,
    board: &Board,
    found: &Option<Vec<Group>>,
    out: &mut K,
) -> Result<(), Unput>
    ensures { PutsText (groups_text board.now (option_map (λ groups. groups.items) found.now))
        (K.shown out.old) (K.shown out.new) result }
{
    let mut line = Line::new(alloc)?;
    answer_by(write_groups(board, lent(found), &mut line, out))
}
