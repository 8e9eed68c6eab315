// The command `cover`, which writes the coverage list of a board.
ghost use Rattle.net_classes.specs.Kept.{AreClasses};
ghost use Rattle.coverage_list.specs.CoverText.{cover_text};
ghost use Rattle.commands.specs.Answers.{BoardAnswers};
ghost use Rattle.commands.specs.inner.Unput.{PutsText};
ghost use Rattle.commands.specs.Worth.{IsCoverText};

use crate::planned::board_of;
use crate::texts::BoardTexts;
use crate::unput::{Unput, answer_by};
use board_defs::Board;
use bt_base::Sink;
use bt_bits::Line;
use btest_core::law::inputs_keep_rules;
use coverage_list::law::lists_are_true;
use coverage_list::write_cover;
use net_classes::{Classes, classify};
use std::alloc::Global;

/// Writes the coverage list of the board that the texts denote. Allocates all memory before the first write.
pub fn cover<K: Sink>(alloc: Global, texts: &BoardTexts, out: &mut K) -> Result<(), Unput>
    ensures { BoardAnswers cover_text IsCoverText texts.now (K.shown out.old) (K.shown out.new)
        result }
{
    inputs_keep_rules();
    lists_are_true();
    match board_of(alloc, texts) {
        Ok(board) => {
            let put = put_cover(alloc, &board, out);
            drop(board);
            put
        }
        Err(failure) => Err(failure),
    }
}

// Writes the coverage list of the board.
fn put_cover<K: Sink>(alloc: Global, board: &Board, out: &mut K) -> Result<(), Unput>
    ensures { PutsText (cover_text board.now) (K.shown out.old) (K.shown out.new) result }
{
    let classes = classify(alloc, board)?;
    let put = put_list(alloc, board, &classes, out);
    drop(classes);
    put
}

// Like `put_cover`, but also takes `classes`, which must be the board's classes. They say what the board's nets, pins and controls can do
// in safe settings.
fn put_list<K: Sink>(
    alloc: Global,
    board: &Board,
    classes: &Classes,
    out: &mut K,
) -> Result<(), Unput>
    requires { AreClasses board.now classes.now }
    ensures { PutsText (cover_text board.now) (K.shown out.old) (K.shown out.new) result }
{
    let mut line = Line::new(alloc)?;
    answer_by(write_cover(board, classes, &mut line, out))
}
