//! Laws of batches. Each function does nothing, and its contract is the law.
ghost use Rattle.batch_diag.specs.Laws.{BlocksAreTheLines, FaultIsTheFirst, VerdictsMakeText, OneBatchText};
ghost use Rattle.batch_diag.specs.OwnTexts.{BlocksByThemselves, DiagnosesByThemselves, FaultByItself};

use diagnoser::law::one_diagnosis;

/// A text is a batch if and only if its lines with words are correct titles, each followed by the lines of a log. The batch has a block for
/// each title.
pub fn blocks_are_the_lines()
    ensures { BlocksAreTheLines }
{}

/// A fault is reported for a text if and only if it is the first fault of the text. If the first line with words is not a title, this is
/// the fault of that line. Otherwise, if some title is wrong, it is the fault of the first wrong title. Otherwise it is the fault of the
/// first block whose lines are not a log.
pub fn fault_is_the_first()
    ensures { FaultIsTheFirst }
{}

/// Each block is read and diagnosed as if it were alone. The lines below a block's title, as a text of their
/// own, hold the block's log. If the reported fault is the fault of a block, it is the fault of this text,
/// with the line number in the whole text. Below the title, the output has the diagnosis of the log that this
/// text holds.
pub fn blocks_stand_by_themselves()
    ensures logs { BlocksByThemselves }
    ensures fault { FaultByItself }
    ensures diagnoses { DiagnosesByThemselves }
{}

/// The text that `write_batch` writes for blocks and their verdicts consists of each block's title and the
/// diagnosis of the block's log, in the order of the blocks.
pub fn verdicts_make_text()
    ensures { VerdictsMakeText }
{}

/// A batch has at most one text of its diagnoses, so neither the number of workers nor the gate changes this text.
pub fn one_batch_text()
    ensures { OneBatchText }
{
    one_diagnosis();
}
