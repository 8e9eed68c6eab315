// Writes the text of the diagnoses of a batch.
ghost use Rattle.std.specs.Prelude.{◌≡◌, [], length, All};
ghost use Rattle.bt_base.specs.Puts.{Puts};
ghost use Rattle.line_printer.specs.Prints.{Prints};
ghost use Rattle.diagnoser.specs.Diagnosis.{IsFaultOnBoard};
ghost use Rattle.batch_diag.specs.BatchText.{title_line, block_text, batch_text};

use crate::block::Block;
use board_defs::Board;
use bt_base::{PutFault, Sink};
use bt_bits::Line;
use diagnoser::{Verdict, write_diagnosis};
use line_printer::put_line;

fn put_title<K: Sink>(id: &[u8], line: &mut Line, out: &mut K) -> Result<(), PutFault>
    ensures { Prints (K.shown out.old) (K.shown out.new) [] [] (title_line id.now) result }
{
    put_line(&[b"BOARD ".as_slice(), id], line, out)
}

fn put_block<K: Sink>(
    board: &Board,
    block: &Block,
    verdict: &Verdict,
    line: &mut Line,
    out: &mut K,
) -> Result<(), PutFault>
    requires { All (IsFaultOnBoard board.now) verdict.now.faults }
    ensures { Prints (K.shown out.old) (K.shown out.new) [] []
        (block_text board.now block.now verdict.now) result }
{
    put_title(block.id.bytes(), line, out)?;
    write_diagnosis(board, verdict.pass, verdict.faults.as_slice(), line, out)
}

fn put_blocks<K: Sink>(
    board: &Board,
    blocks: &[Block],
    verdicts: &[Verdict],
    line: &mut Line,
    out: &mut K,
) -> Result<(), PutFault>
    requires count { length verdicts.now ≡ length blocks.now }
    requires named { All (λ verdict. All (IsFaultOnBoard board.now) verdict.faults) verdicts.now }
    ensures { Prints (K.shown out.old) (K.shown out.new) [] []
        (batch_text board.now blocks.now verdicts.now) result }
{
    for (i, block) in blocks.iter().enumerate() {
        put_block(board, block, &verdicts[i], line, out)?;
    }
    Ok(())
}

/// For each block of a batch, in order, writes the block's title and its verdict as a diagnosis. There must be exactly one verdict for each
/// block, in the same order, and the faults of the verdicts must name nets and pins of the board. If there are no blocks, the text is
/// empty. Each line goes to the sink as one piece, but a line of more than `MAX_LINE` bytes goes out in pieces of `MAX_LINE` bytes and a
/// last piece with the rest. Allocates nothing. `line` is used as a buffer, and its content afterwards is unspecified. Fails only if the
/// sink fails. The sink then took a prefix of the text.
pub fn write_batch<K: Sink>(
    board: &Board,
    blocks: &[Block],
    verdicts: &[Verdict],
    line: &mut Line,
    out: &mut K,
) -> Result<(), PutFault>
    requires count { length verdicts.now ≡ length blocks.now }
    requires named { All (λ verdict. All (IsFaultOnBoard board.now) verdict.faults) verdicts.now }
    ensures { Puts (K.shown out.old) (K.shown out.new)
        (batch_text board.now blocks.now verdicts.now) result }
{
    if blocks.is_empty() {
        return out.put(b"");
    }
    put_blocks(board, blocks, verdicts, line, out)
}
