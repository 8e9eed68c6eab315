// Tests of reading a response log, and a batch of logs, from a text. A batch has a block for each board: a
// title line, which is the word BOARD and the board's id, and the lines of the board's log. The expected
// values are worked out by hand.
ghost use Rattle.std.specs.Prelude.{◌<◌, ◌^◌, length};

use crate::missed::{Missed, expect};
use batch_diag::{BatchFault, Block, blocks, blocks_by};
use response_log::{Log, log};
use short_lists::ShortSlice;
use side_by_side::Workers;
use std::alloc::{AllocError, Global};
use std::thread::Threads;

// Appends the bits of each row of a log, bit 0 first, and a space after each row.
fn push_bits(text: &mut String, log: &Log) -> Result<(), AllocError> {
    for row in 0..log.rows() {
        for at in 0..log.len() {
            text.push(if log.bit(row, at) { '1' } else { '0' })?;
        }
        text.push(' ')?;
    }
    Ok(())
}

fn bits_of(alloc: Global, log: &Log) -> Result<String, AllocError> {
    let mut text = String::new(alloc);
    push_bits(&mut text, log)?;
    Ok(text)
}

// The text of a log, the number of rows that the log must have, the number of bits in each row, and the expected answer: the bits of the
// log, or the message of the text's first fault.
type LogText = (&'static [u8], u64, u32, &'static str);

static LOGS: [LogText; 32] = [
    (b"", 0, 10, ""),
    (b"# 3FF\n\r\n\t ", 0, 10, ""),
    (b"3FF\n2A5", 2, 10, "1111111111 1010010101 "),
    (
        b"# log\r\n\n \t2a5 # row\r\n#3FF\n001 #",
        2,
        10,
        "1010010101 1000000000 ",
    ),
    (b"1\n0\n1\n", 3, 1, "1 0 1 "),
    (b"3F", 1, 10, "line 1: wrong length"),
    (b"\n# row\n03FF", 1, 10, "line 3: wrong length"),
    (b"3FF\n3 F", 2, 10, "line 2: wrong length"),
    (b"3FF 3FF", 2, 10, "line 1: wrong length"),
    (b"ZZZ ZZZ", 1, 10, "line 1: wrong length"),
    (b"3FF\n\n400", 2, 10, "line 3: digit not allowed"),
    (b"0G0", 1, 10, "line 1: digit not allowed"),
    (b"3F#\n3F", 2, 10, "line 1: digit not allowed"),
    (b"3F\n3F#", 2, 10, "line 1: wrong length"),
    (b"", 2, 10, "0 rows"),
    (b"3FF\n# 3FF\n", 2, 10, "1 rows"),
    (b"\n3FF", 0, 10, "line 2: row too many"),
    (b"3FF\n#\n3FF\n3FF", 1, 10, "line 3: row too many"),
    (b"3FF\nzz zz", 1, 10, "line 2: row too many"),
    (b"3FF\n4FF\n3FF", 1, 10, "line 2: row too many"),
    // All digits, in upper and lower case, and bytes just below and above the digits in ASCII.
    (
        b"0123456789abcdefABCDEF",
        1,
        88,
        "1111011110110011110101011111011110110011110101011001000111100110101000101100010010000000 ",
    ),
    (b"0/0", 1, 10, "line 1: digit not allowed"),
    (b"0:0", 1, 10, "line 1: digit not allowed"),
    (b"0@0", 1, 10, "line 1: digit not allowed"),
    (b"0`0", 1, 10, "line 1: digit not allowed"),
    (b"0g0", 1, 10, "line 1: digit not allowed"),
    // A carriage return is a blank, and does not end a line. A vertical tab and a form feed are not blanks.
    (b"\r3FF\r", 1, 10, "1111111111 "),
    (b"3FF\r3FF", 2, 10, "line 1: wrong length"),
    (b"3FF\x0b", 1, 10, "line 1: wrong length"),
    (b"3F\x0c", 1, 10, "line 1: digit not allowed"),
    // UTF-16, and a line of 66 words.
    (b"\xff\xfe3\0F\0F\0", 1, 10, "line 1: wrong length"),
    (
        b"3FF 0 0 0 0 0 0 0 0 0 0 0 0 0 0 0 0 0 0 0 0 0 0 0 0 0 0 0 0 0 0 0 0 0 \
          0 0 0 0 0 0 0 0 0 0 0 0 0 0 0 0 0 0 0 0 0 0 0 0 0 0 0 0 0 0 0 0",
        1,
        10,
        "line 1: wrong length",
    ),
];

// Returns the bits of the log in a text, or the message of the text's first fault. The text must be shorter than 2^32 bytes.
fn log_answer(alloc: Global, text: &[u8], rows: u64, len: u32) -> Result<String, AllocError>
    requires { length text.now < 2 ^ 32 }
{
    match log(alloc, text, rows, len) {
        Ok(log) => bits_of(alloc, &log),
        Err(fault) => fault.to_string(alloc),
    }
}

// Returns whether reading a log gives the answer `wanted`. Returns false if the text has 1,000 bytes or more.
fn reads_as(
    alloc: Global,
    text: &[u8],
    rows: u64,
    len: u32,
    wanted: &str,
) -> Result<bool, AllocError> {
    if text.len() >= 1000 {
        return Ok(false);
    }
    Ok(log_answer(alloc, text, rows, len)?.as_str() == wanted)
}

#[test]
fn logs(rt: HostRuntime) -> Result<(), Missed> {
    for (row, (text, rows, len, wanted)) in LOGS.iter().enumerate() {
        let holds = reads_as(rt.alloc(), text, *rows, *len, wanted)?;
        expect(row, holds)?;
    }
    Ok(())
}

// Returns the blocks of a batch as text: the id of each block, a colon, and the bits of its log.
fn shown(alloc: Global, blocks: &[Block]) -> Result<String, AllocError> {
    let mut text = String::new(alloc);
    for block in blocks {
        for byte in block.id.bytes() {
            text.push(*byte as char)?;
        }
        text.push(':')?;
        push_bits(&mut text, &block.log)?;
    }
    Ok(text)
}

// Reads a batch as a whole if `workers` is `None`, and in that many pieces otherwise. Returns its blocks or its first fault as text. Each
// log has `rows` rows of two bits. The text must be shorter than 2^32 bytes.
fn answer_in<R: Threads + Sync>(
    rt: &R,
    alloc: Global,
    text: &[u8],
    rows: u64,
    workers: Option<Workers>,
) -> Result<String, AllocError>
    requires { length text.now < 2 ^ 32 }
{
    let read = match workers {
        None => blocks(alloc, text, rows, 2),
        Some(workers) => blocks_by(rt, alloc, ShortSlice { items: text }, rows, 2, workers),
    };
    match read {
        Ok(blocks) => shown(alloc, &blocks),
        Err(BatchFault::Inner { board, fault }) => format!(in alloc; "board {board}: {fault}"),
        Err(fault) => fault.to_string(alloc),
    }
}

// Returns whether reading a batch gives the answer `wanted`, both as a whole and in 1, 2, 3 and 64 pieces. Returns false if the batch has
// 1,000 bytes or more.
fn answers<R: Threads + Sync>(
    rt: &R,
    alloc: Global,
    text: &[u8],
    rows: u64,
    wanted: &str,
) -> Result<bool, AllocError> {
    if text.len() >= 1000 {
        return Ok(false);
    }
    for number in [1, 2, 3, 64] {
        let workers = Some(Workers::of(number));
        if answer_in(rt, alloc, text, rows, workers)?.as_str() != wanted {
            return Ok(false);
        }
    }
    Ok(answer_in(rt, alloc, text, rows, None)?.as_str() == wanted)
}

// The text of a batch, the number of rows that each log must have, and the blocks or the first fault of the batch, as text.
type BatchText = (&'static [u8], u64, &'static str);

static BATCHES: [BatchText; 34] = [
    (b"", 2, ""),
    (b"# no board\n\n\t\r\n", 2, ""),
    (b"BOARD A\n1\n2\nBOARD B\n0\n2", 2, "A:10 01 B:00 01 "),
    (b"# log\n\nBOARD A\n1\n2\n", 2, "A:10 01 "),
    (
        b"BOARD A\r\n1\r\n2\r\nBOARD B\r\n3\r\n3\r\n",
        2,
        "A:10 01 B:11 11 ",
    ),
    (b"\t BOARD A # BOARD B\n\n1 # 2\n2", 2, "A:10 01 "),
    (b"BOARD A\n1\n1\nBOARD A\n2\n2\n", 2, "A:10 10 A:01 01 "),
    (b"BOARD A\nBOARD B", 0, "A:B:"),
    (
        b"BOARD A\n1\nBOARD B\n2\nBOARD C\n3\nBOARD D\n0\nBOARD E\n1",
        1,
        "A:10 B:01 C:11 D:00 E:10 ",
    ),
    (b"BOARD A\n\nBOARD B\n1", 1, "board 1: 0 rows"),
    (b"BOARD A\n1\nBOARD B\n2\n", 1, "A:10 B:01 "),
    (b"BOARD A\n1\nBOARD B\n1\n2", 2, "board 1: 1 rows"),
    (b"BOARD A\n1\nBOARD B\nzz\nzz", 2, "board 1: 1 rows"),
    (b"BOARD A\n1\n11\n", 2, "board 1: line 3: wrong length"),
    (b"BOARD A\n1 2\n", 2, "board 1: line 2: wrong length"),
    (
        b"BOARD A\n1\n2\n3\nBOARD B",
        2,
        "board 1: line 4: row too many",
    ),
    (
        b"#\nBOARD A\n1\n2\n\nBOARD B\n#\n1\n4\n",
        2,
        "board 2: line 9: digit not allowed",
    ),
    (
        b"BOARD A\n1\n2\nboard B\n",
        2,
        "board 1: line 4: row too many",
    ),
    (b"BOARD #\nBOARD A", 0, "line 1: board not allowed"),
    // Lines before the first title line, and title lines that do not have exactly one valid id.
    (b"1\nBOARD A", 2, "line 1: no board yet"),
    (b"\n# log\nboard A\nBOARD A", 2, "line 3: no board yet"),
    (b"1 # log\nBOARD\n", 2, "line 1: no board yet"),
    (b"BOARD", 2, "line 1: board not allowed"),
    (b"BOARD #x\n1\n2", 2, "line 1: board not allowed"),
    (b"BOARD A B\n1\n2", 2, "line 1: board not allowed"),
    (
        b"BOARD A #\n1\n2\nBOARD \x7F",
        2,
        "line 4: board not allowed",
    ),
    (b"BOARD A\nzz\n\nBOARD", 2, "line 4: board not allowed"),
    (
        b"BOARD A\n1\nBOARD\n2\nBOARD B C",
        2,
        "line 3: board not allowed",
    ),
    (b"BOARDS A", 2, "line 1: no board yet"),
    // A vertical tab and a form feed are not blanks. A carriage return is a blank, and does not end a line.
    (b"BOARD\x0bA\n1\n2", 2, "line 1: no board yet"),
    (b"BOARD A\x0c\n1\n2", 2, "line 1: board not allowed"),
    (b"BOARD A\r1\n2", 1, "line 1: board not allowed"),
    // UTF-16, and a title of 66 words.
    (b"\xff\xfeB\0O\0A\0R\0D\0 \0A\0", 0, "line 1: no board yet"),
    (
        b"BOARD A A A A A A A A A A A A A A A A A A A A A A A A A A A A A A A A A \
          A A A A A A A A A A A A A A A A A A A A A A A A A A A A A A A A",
        0,
        "line 1: board not allowed",
    ),
];

#[test]
fn batches(rt: HostRuntime) -> Result<(), Missed> {
    for (row, (text, rows, wanted)) in BATCHES.iter().enumerate() {
        expect(row, answers(&rt, rt.alloc(), text, *rows, wanted)?)?;
    }
    Ok(())
}

// Returns a title line whose id has `len` bytes.
fn title(alloc: Global, len: usize) -> Result<Vec<u8>, AllocError> {
    let mut text = b"BOARD ".to_vec(alloc)?;
    text.resize(len.saturating_add(6), b'A')?;
    Ok(text)
}

// Returns the text that `shown` gives for a block with an id of `len` bytes and no rows: the id and a colon.
fn shown_title(alloc: Global, len: usize) -> Result<String, AllocError> {
    let mut text = "A".repeat(alloc, len)?;
    text.push(':')?;
    Ok(text)
}

#[test]
fn ids_have_up_to_255_bytes(rt: HostRuntime) -> Result<(), Missed> {
    let longest = title(rt.alloc(), 255)?;
    let shown = shown_title(rt.alloc(), 255)?;
    expect(0, answers(&rt, rt.alloc(), &longest, 0, &shown)?)?;
    let longer = title(rt.alloc(), 256)?;
    let refused = "line 1: board not allowed";
    expect(1, answers(&rt, rt.alloc(), &longer, 0, refused)?)
}
