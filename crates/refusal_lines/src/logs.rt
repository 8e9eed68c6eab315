// Writes the lines for the first fault of a response log or of a batch of logs.
ghost use Rattle.std.specs.Prelude.{◌∷◌, [], codes, decimal};
ghost use Rattle.bt_base.specs.Puts.{Puts};
ghost use Rattle.line_printer.specs.Prints.{whole};
ghost use Rattle.refusal_lines.specs.Refusals.{batch_fault_line, block_fault_line, log_fault_line};

use crate::ends::put_memory;
use crate::pieces::{put_all, put_at_line};
use batch_diag::BatchFault;
use bt_base::{PutFault, Sink};
use itoa::Buffer;
use response_log::LogFault;

// Writes the line for a log with too few rows. The line says how many rows the log has, and how many it must have.
fn put_missing_rows<N: Sink>(
    name: &str,
    found: u64,
    rows: u64,
    notes: &mut N,
) -> Result<(), PutFault>
    ensures { Puts (N.shown notes.old) (N.shown notes.new)
        (whole
        (name.now ∷ codes ": " ∷ decimal found ∷ codes " rows of " ∷ decimal rows ∷ codes "\n"
        ∷ [])) result }
{
    let mut first = Buffer::new();
    let found = first.format(found).as_bytes();
    let mut second = Buffer::new();
    let rows = second.format(rows).as_bytes();
    put_all(
        name.as_bytes(),
        &[
            b": ".as_slice(),
            found,
            b" rows of ".as_slice(),
            rows,
            b"\n".as_slice(),
        ],
        notes,
    )
}

/// Writes the line for the first fault of a log. `rows` is the number of rows that the log should
/// have.
pub fn put_log_fault<N: Sink>(
    name: &str,
    rows: u64,
    fault: &LogFault,
    notes: &mut N,
) -> Result<(), PutFault>
    ensures { Puts (N.shown notes.old) (N.shown notes.new) (log_fault_line name.now rows fault.now)
        result }
{
    match fault {
        LogFault::Digit(line) => put_at_line(name, *line, b": digit not allowed\n", notes),
        LogFault::Length(line) => put_at_line(name, *line, b": wrong length\n", notes),
        LogFault::Extra(line) => put_at_line(name, *line, b": row too many\n", notes),
        LogFault::Missing(found) => put_missing_rows(name, *found, rows, notes),
        LogFault::Memory(_) => put_memory(notes),
    }
}

// Writes the line for a board's log with too few rows. The line says how many rows the log has, and how many it must have.
fn put_missing_of_board<N: Sink>(
    name: &str,
    board: u32,
    found: u64,
    rows: u64,
    notes: &mut N,
) -> Result<(), PutFault>
    ensures { Puts (N.shown notes.old) (N.shown notes.new)
        (whole
        (name.now ∷ codes " board " ∷ decimal board ∷ codes ": " ∷ decimal found
        ∷ codes " rows of " ∷ decimal rows ∷ codes "\n" ∷ [])) result }
{
    let mut first = Buffer::new();
    let board = first.format(board).as_bytes();
    let mut second = Buffer::new();
    let found = second.format(found).as_bytes();
    let mut third = Buffer::new();
    let rows = third.format(rows).as_bytes();
    put_all(
        name.as_bytes(),
        &[
            b" board ".as_slice(),
            board,
            b": ".as_slice(),
            found,
            b" rows of ".as_slice(),
            rows,
            b"\n".as_slice(),
        ],
        notes,
    )
}

// Writes the line for a block of a batch that is not a log of `rows` rows. A block has the lines of
// one board. This block is block `board`, counted from 1.
fn put_block_fault<N: Sink>(
    name: &str,
    rows: u64,
    board: u32,
    fault: &LogFault,
    notes: &mut N,
) -> Result<(), PutFault>
    ensures { Puts (N.shown notes.old) (N.shown notes.new)
        (block_fault_line name.now rows board fault.now) result }
{
    match fault {
        LogFault::Missing(found) => put_missing_of_board(name, board, *found, rows, notes),
        fault => put_log_fault(name, rows, fault, notes),
    }
}

/// Writes the line for the first fault of a batch of logs. `rows` is the number of rows that each log
/// should have.
pub fn put_batch_fault<N: Sink>(
    name: &str,
    rows: u64,
    fault: &BatchFault,
    notes: &mut N,
) -> Result<(), PutFault>
    ensures { Puts (N.shown notes.old) (N.shown notes.new)
        (batch_fault_line name.now rows fault.now) result }
{
    match fault {
        BatchFault::Start(line) => put_at_line(name, *line, b": no board yet\n", notes),
        BatchFault::Title(line) => put_at_line(name, *line, b": board not allowed\n", notes),
        BatchFault::Inner { board, fault } => put_block_fault(name, rows, *board, fault, notes),
        BatchFault::Memory(_) => put_memory(notes),
    }
}
