// Reads the blocks of a batch from a text.
ghost use Rattle.std.specs.Prelude.{◌≡◌, ◌+◌, ◌<◌, ◌≤◌, ◌^◌, length, slice_get, All, IfOk, IfErr, IfSome, MatchResult, Err, Some};
ghost use Rattle.answers.specs.Gives.{Gives};
ghost use Rattle.response_log.specs.LogRows.{HasSize, rows_of_lines};
ghost use Rattle.batch_diag.specs.Batch.{IsOfLines, blocks_of_text, batch_told};
ghost use Rattle.batch_diag.specs.inner.Cutting.{IsUpTo, in_block, moved_inner, rows_from};
ghost use Rattle.batch_diag.specs.inner.Reading.{AreBlocksRead, said_between, said_of};

use crate::block::Block;
use crate::fault::BatchFault;
use crate::lines::{list_blocks, start_fault, title_fault};
use crate::unread::{Reading, UnreadBlock};
use board_defs::Name;
use response_log::{Log, LogFault, log};
use short_lists::{ShortSlice, TextSlice};
use side_by_side::{Piece, Workers, in_pieces};
use std::alloc::Global;
use std::thread::Threads;

/// Reads the blocks of a batch, each with a log of `rows` rows of `len` bits each. The text may have any bytes, but must have fewer than
/// 2^32. A text without words has no blocks.
///
/// If a line with words comes before the first title, the error is `Start` with the number of the first such
/// line. Otherwise, if a title does not have exactly two words or its id breaks the word rule, the error is
/// `Title` with the number of the first such line. Otherwise, if the lines of a block are not a log, the
/// error is `Inner` with the number of the first such block. If memory runs out first, the error is `Memory`.
/// The blocks take no more memory than the ids and one byte for each byte of the text.
pub fn blocks(alloc: Global, bytes: &[u8], rows: u64, len: u32) -> Result<Vec<Block>, BatchFault>
    requires { length bytes.now < 2 ^ 32 }
    ensures read { Gives batch_told (λ blocks. blocks.items)
        (λ said. blocks_of_text bytes.now rows len ≡ said) result }
    ensures size { IfOk result (λ blocks. All (λ block. HasSize rows len block.log) blocks.items) }
    ensures inner { MatchResult result (λ _. Unit {0}) IsOfLines }
{
    let reading = match reading_of(alloc, ShortSlice { items: bytes }, rows, len) {
        Ok(reading) => reading,
        Err(fault) => return Err(fault),
    };
    read_between(alloc, &reading, 0, count(&reading))
}

/// Like `blocks`, but reads the logs in as many pieces as there are workers. The sizes of the pieces differ by at most one block. The first
/// half of the pieces runs side by side with the second half, and each half is halved again in the same way, down to single pieces. If
/// memory runs out for a block and no earlier block has a fault, the error is `Memory`. If memory runs out for the list of blocks, for
/// running the pieces or for joining their results, the error is also `Memory`, even if the lines of a block are not a log.
pub fn blocks_by<R: Threads + Sync>(
    rt: &R,
    alloc: Global,
    text: TextSlice<'_>,
    rows: u64,
    len: u32,
    workers: Workers,
) -> Result<Vec<Block>, BatchFault>
    ensures read { Gives batch_told (λ blocks. blocks.items)
        (λ said. blocks_of_text text.entry.items.now rows len ≡ said) result }
    ensures size { IfOk result (λ blocks. All (λ block. HasSize rows len block.log) blocks.items) }
    ensures inner { MatchResult result (λ _. Unit {0}) IsOfLines }
{
    let reading = match reading_of(alloc, text, rows, len) {
        Ok(reading) => reading,
        Err(fault) => return Err(fault),
    };
    read_pieces(rt, alloc, &reading, workers)
}

// Returns the number of blocks.
fn count(reading: &Reading<'_>) -> usize
    ensures { result ≡ length reading.now.unread.items }
{
    reading.unread.len()
}

// Returns the blocks of a text with their logs unread. If a line with words comes before the first title, or
// if a title is wrong, returns the fault instead. If memory runs out, returns `Memory`.
fn reading_of<'a>(
    alloc: Global,
    text: TextSlice<'a>,
    rows: u64,
    len: u32,
) -> Result<Reading<'a>, BatchFault>
    ensures said { IfOk result
        (λ reading. blocks_of_text text.entry.items.now rows len ≡ said_of reading) }
    ensures fault { IfErr result
        (λ fault. IfSome (batch_told fault)
        (λ f. blocks_of_text text.entry.items.now rows len ≡ Err f)) }
    ensures size { IfOk result (λ reading. (reading.rows ≡ rows) × (reading.len ≡ len)) }
    ensures inner { MatchResult result (λ _. Unit {0}) IsOfLines }
{
    if let Some(fault) = start_fault(text) {
        return Err(fault);
    }
    if let Some(fault) = title_fault(text) {
        return Err(fault);
    }
    let unread = list_blocks(alloc, text)?;
    Ok(Reading { unread, rows, len })
}

// Returns block `i`, counted from 0, with its log unread. `i` must be below the number of blocks.
fn unread_at<'a>(reading: &Reading<'a>, i: usize) -> UnreadBlock<'a>
    requires { i < length reading.now.unread.items }
    ensures { slice_get reading.now.unread.items i ≡ Some result }
{
    reading.unread[i]
}

// Returns the blocks `first..end`, counted from 0, or the fault of the first of these blocks whose lines are
// not a log, or `Memory` if memory runs out first. `first..end` must be a range of the blocks.
fn read_between(
    alloc: Global,
    reading: &Reading<'_>,
    first: usize,
    end: usize,
) -> Result<Vec<Block>, BatchFault>
    requires order { first ≤ end }
    requires within { end ≤ length reading.now.unread.items }
    ensures { AreBlocksRead (λ v. v.items) reading.now.rows reading.now.len
        (said_between reading.now first end) result }
{
    let mut found = Vec::new(alloc);
    for i in first..end {
        let unread = unread_at(reading, i);
        let block = match read_block(alloc, unread, reading.rows, reading.len, i as u32 + 1) {
            Ok(block) => block,
            Err(fault) => return Err(fault),
        };
        found.push(block)?;
    }
    Ok(found)
}

// Reads all blocks in as many pieces as there are workers and returns them. Returns the fault of the first
// block whose lines are not a log, if there is one. Returns `Memory` if memory runs out, as for `blocks_by`.
fn read_pieces<R: Threads + Sync>(
    rt: &R,
    alloc: Global,
    reading: &Reading<'_>,
    workers: Workers,
) -> Result<Vec<Block>, BatchFault>
    ensures { AreBlocksRead (λ v. v.items) reading.now.rows reading.now.len (said_of reading.now)
        result }
{
    let count = count(reading) as u64;
    let read = move |piece: Piece| -> Result<Vec<Block>, BatchFault>
        requires { (piece.first ≤ piece.end) × (piece.end ≤ length reading.now.unread.items) }
        ensures { AreBlocksRead (λ v. v.items) reading.entry.now.rows reading.entry.now.len
            (said_between reading.entry.now piece.first piece.end) result }
    { read_between(alloc, reading, piece.first as usize, piece.end as usize) };
    in_pieces(rt, alloc, count, workers.number(), &read)
}

// Reads the log of a block and returns the block. `board` is the number of the block, counted from 1.
fn read_block(
    alloc: Global,
    unread: UnreadBlock<'_>,
    rows: u64,
    len: u32,
    board: u32,
) -> Result<Block, BatchFault>
    ensures id { IfOk result (λ block. block.id ≡ unread.entry.id.now) }
    ensures log { Gives batch_told (λ block. block.log)
        (λ said. in_block board
        (rows_of_lines rows len (rows_from (unread.entry.line + 1) unread.entry.own.now))
        ≡ said) result }
    ensures size { IfOk result (λ block. HasSize rows len block.log) }
    ensures inner { MatchResult result (λ _. Unit {0}) IsOfLines }
{
    let log = read_log(alloc, unread, rows, len, board)?;
    Ok(Block {
        id: Name::of(alloc, unread.id)?,
        log,
    })
}

// Reads the log of a block from the text between the block's title and the next title. `board` is the number of the block, counted from 1.
fn read_log(
    alloc: Global,
    unread: UnreadBlock<'_>,
    rows: u64,
    len: u32,
    board: u32,
) -> Result<Log, BatchFault>
    ensures log { Gives batch_told (λ log. log)
        (λ said. in_block board
        (rows_of_lines rows len (rows_from (unread.entry.line + 1) unread.entry.own.now))
        ≡ said) result }
    ensures size { IfOk result (HasSize rows len) }
    ensures inner { MatchResult result (λ _. Unit {0}) IsOfLines }
{
    match log(alloc, unread.own, rows, len) {
        Ok(log) => Ok(log),
        Err(fault) => {
            let last = unread.own.len() as u32;
            Err(inner(board, unread.line as u32, last, fault))
        }
    }
}

// Returns the fault of block `board`. `fault` is the fault of the text between the block's title and the next title, and `before` lines of
// the whole text come before this text. Lack of memory becomes `BatchFault::Memory`. `last` must be at least the line number in `fault`,
// and `before + last` must be below 2^32.
fn inner(board: u32, before: u32, last: u32, fault: LogFault) -> BatchFault
    requires last { IsUpTo last fault }
    requires few { before + last < 2 ^ 32 }
    ensures fault { result ≡ moved_inner board before fault }
    ensures inner { IsOfLines result }
{
    let fault = match fault {
        LogFault::Digit(line) => LogFault::Digit(before + line),
        LogFault::Length(line) => LogFault::Length(before + line),
        LogFault::Extra(line) => LogFault::Extra(before + line),
        LogFault::Missing(found) => LogFault::Missing(found),
        LogFault::Memory(e) => return BatchFault::Memory(e),
    };
    BatchFault::Inner { board, fault }
}
