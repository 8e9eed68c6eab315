// Tables of runs with their expected results, and the functions that check them.
use crate::bench::Bench;
use crate::board::{CHAIN, NETS};
use crate::text::Text;
use bt_base::MemSink;
use btest_cli::Status;
use std::alloc::{AllocError, Global};
use std::thread::Threads;
use thiserror::Error;

/// The expected result of a run: its status, its output and its refusal line. The output is what the run writes to standard output. The
/// refusal line is what it writes to standard error, the reason why it is not successful. If a variant has no output or no refusal line,
/// the run must write none. The variant `Done` is an exception: with it, only the status is compared.
#[derive(Clone, Copy)]
pub enum Ending<'a> {
    /// The status is `Done`, and the output is this text.
    Puts(&'a str),
    /// Like `Puts`, but takes a `Text`, which can be large.
    PutsAll(Text),
    /// The status is `Done`, and the output is the SVF text with these scans.
    Scans(&'a str),
    /// The status is `Done`, and the output has this many bytes.
    Long(usize),
    /// The status is `Done`. Nothing else is compared.
    Done,
    /// The status is `Refused`, and this is the refusal line.
    Refused(&'a str),
    /// The status is `ReadFault`, and this is the refusal line.
    NotRead(&'a str),
    /// The status is `WriteFault`. These are the output that was written before the failure, and the refusal line or its written part.
    NotPut(&'a str, &'a str),
    /// The status is `Usage`, and the refusal line is the usage line.
    Usage,
}

/// The name of a text, and the text.
pub type Named = (&'static str, Text);

/// A run with its expected result.
#[derive(Clone, Copy)]
pub struct Row {
    /// Texts that the run can read, in addition to those of the table. A text replaces another text of the same name.
    pub texts: &'static [Named],
    /// The command line. Single spaces separate its words.
    pub line: &'static str,
    /// The expected result of the run.
    pub ending: Ending<'static>,
}

/// A failure that a row causes in its run.
#[derive(Clone, Copy)]
pub enum Trouble {
    /// The read with this number, counted from 1, fails.
    Read(u32),
    /// The write to standard output with this number, counted from 1, fails after this many bytes.
    Put(u32, u32),
    /// Writes to standard output fail after it has taken this many bytes.
    Out(u32),
    /// Writes to standard error fail after it has taken this many bytes.
    Notes(u32),
}

/// A text, and the expected result of a run that reads it.
pub type Run = (Text, Ending<'static>);

/// A command line or a log, and the expected result of the run with it.
pub type Line = (&'static str, Ending<'static>);

/// A part of a BSDL text, the text that replaces it, and the refusal line for the changed text. The refusal line is given without the name
/// of the text at its beginning and without the line feed at its end.
pub type Change = (&'static str, &'static str, &'static str);

/// A chain file, a net file, the names of the BSDL texts, and the expected refusal line. Single spaces separate the names.
pub type Case = (&'static str, &'static str, &'static str, &'static str);

/// The rows of a table.
#[derive(Clone, Copy)]
pub enum Rows {
    /// Runs, each with texts of its own.
    Runs(&'static [Row]),
    /// Runs, each with a read or a write that fails.
    Failing(&'static [(Trouble, Row)]),
    /// Command lines. Each runs on the texts of the table.
    Lines(&'static [Line]),
    /// A command line, and logs. The line runs once for each log, with the log as the text `g`.
    Logs(&'static str, &'static [Line]),
    /// A command line, the name of a text, and texts. The line runs once for each text, which has this name.
    Texts(&'static str, &'static str, &'static [Run]),
    /// A BSDL text, and changes to it. The command `device` must refuse the text after each change.
    Devices(&'static str, &'static [Change]),
    /// Texts that do not describe a board. Each command that reads a board must refuse them with the refusal line of the case.
    Boards(&'static [Case]),
    /// Command lines that are not valid. The first read would fail, so the rows show that btest reads nothing.
    NoCommands(&'static [&'static str]),
    /// Command lines, a word with a space before it, and numbers with expected results. For each number, each line is run with the word
    /// appended this many times. Each of these runs counts as a row: first the runs of all lines with the first number, in the order of
    /// the lines, then those with the second number, and so on.
    Words(&'static [&'static str], &'static str, &'static [(usize, Ending<'static>)]),
}

/// Rows of one kind, with a name and common texts.
#[derive(Clone, Copy)]
pub struct Table {
    /// The name of the table, which says what the rows show.
    pub name: &'static str,
    /// Texts that the runs can read, in addition to the chain file `c` and the net file `n` of a driver and a receiver and the BSDL texts
    /// of `DEVICES`. A text replaces another text of the same name.
    pub texts: &'static [Named],
    /// The rows.
    pub rows: Rows,
}

/// The reason why a check of a table fails.
#[derive(Debug, Drop, Error)]
pub enum RowFault {
    /// The first row whose run has an unexpected result.
    #[error("{table}: row {row} ended otherwise, with {status:?}")]
    Ended {
        /// The name of the table.
        table: &'static str,
        /// The number of the row, counted from 0.
        row: usize,
        /// The status of the row's run.
        status: Status,
    },
    /// A row in which a check by `expect` fails.
    #[error("{table}: row {row} gives something else")]
    Other {
        /// The name of the table.
        table: &'static str,
        /// The number of the row, counted from 0.
        row: usize,
    },
    #[error("out of memory")]
    Memory(AllocError),
}

impl From<AllocError> for RowFault {
    fn from(error: AllocError) -> RowFault {
        RowFault::Memory(error)
    }
}

/// Returns `Ok` if `holds` is true, and an error with the table and the row otherwise.
pub fn expect(table: &'static str, row: usize, holds: bool) -> Result<(), RowFault> {
    if holds {
        Ok(())
    } else {
        Err(RowFault::Other { table, row })
    }
}

/// Runs each row of each table, up to the first row with an unexpected result. Returns an error for this row.
pub fn tables_hold(
    rt: &(impl Threads + Sync),
    alloc: Global,
    tables: &[Table],
) -> Result<(), RowFault> {
    for table in tables {
        table_holds(rt, alloc, table)?;
    }
    Ok(())
}

fn table_holds(rt: &(impl Threads + Sync), alloc: Global, table: &Table) -> Result<(), RowFault> {
    match &table.rows {
        Rows::Runs(rows) => runs_hold(rt, alloc, table, rows),
        Rows::Failing(rows) => failing_hold(rt, alloc, table, rows),
        Rows::Lines(rows) => lines_hold(rt, alloc, table, rows),
        Rows::Logs(line, rows) => logs_hold(rt, alloc, table, line, rows),
        Rows::Texts(line, name, rows) => texts_hold(rt, alloc, table, line, name, rows),
        Rows::Devices(text, rows) => devices_hold(rt, alloc, table, text, rows),
        Rows::Boards(rows) => boards_hold(rt, alloc, table, rows),
        Rows::NoCommands(lines) => no_commands_hold(rt, alloc, table, lines),
        Rows::Words(lines, word, rows) => words_hold(rt, alloc, table, lines, word, rows),
    }
}

fn bench_of(alloc: Global, table: &Table) -> Result<Bench, AllocError> {
    let mut bench = Bench::with_board(alloc, CHAIN, NETS)?;
    bench.add(table.texts)?;
    Ok(bench)
}

fn runs_hold(
    rt: &(impl Threads + Sync),
    alloc: Global,
    table: &Table,
    rows: &[Row],
) -> Result<(), RowFault> {
    for (i, row) in rows.iter().enumerate() {
        let mut bench = bench_of(alloc, table)?;
        bench.add(row.texts)?;
        bench.ends(rt, table.name, i, row.line, row.ending)?;
    }
    Ok(())
}

fn make_trouble(bench: &mut Bench, alloc: Global, trouble: Trouble) -> Result<(), AllocError> {
    match trouble {
        Trouble::Read(call) => bench.store.fail_at(call)?,
        Trouble::Put(call, taken) => bench.out.fail_at(call, taken)?,
        Trouble::Out(room) => bench.out = MemSink::with_room(alloc, room)?,
        Trouble::Notes(room) => bench.notes = MemSink::with_room(alloc, room)?,
    }
    Ok(())
}

fn failing_hold(
    rt: &(impl Threads + Sync),
    alloc: Global,
    table: &Table,
    rows: &[(Trouble, Row)],
) -> Result<(), RowFault> {
    for (i, (what, row)) in rows.iter().enumerate() {
        let mut bench = bench_of(alloc, table)?;
        bench.add(row.texts)?;
        make_trouble(&mut bench, alloc, *what)?;
        bench.ends(rt, table.name, i, row.line, row.ending)?;
    }
    Ok(())
}

fn lines_hold(
    rt: &(impl Threads + Sync),
    alloc: Global,
    table: &Table,
    lines: &[Line],
) -> Result<(), RowFault> {
    for (i, (line, ending)) in lines.iter().enumerate() {
        let mut bench = bench_of(alloc, table)?;
        bench.ends(rt, table.name, i, line, *ending)?;
    }
    Ok(())
}

fn logs_hold(
    rt: &(impl Threads + Sync),
    alloc: Global,
    table: &Table,
    line: &str,
    logs: &[Line],
) -> Result<(), RowFault> {
    for (i, (log, ending)) in logs.iter().enumerate() {
        let mut bench = bench_of(alloc, table)?;
        bench.store.add("g", log.as_bytes())?;
        bench.ends(rt, table.name, i, line, *ending)?;
    }
    Ok(())
}

fn texts_hold(
    rt: &(impl Threads + Sync),
    alloc: Global,
    table: &Table,
    line: &str,
    name: &str,
    texts: &[Run],
) -> Result<(), RowFault> {
    for (i, (text, ending)) in texts.iter().enumerate() {
        let mut bench = bench_of(alloc, table)?;
        text.add_to(alloc, &mut bench.store, name)?;
        bench.ends(rt, table.name, i, line, *ending)?;
    }
    Ok(())
}

// Checks that the command `device` refuses the text after each of these changes. The changed text has the name `drv`.
fn devices_hold(
    rt: &(impl Threads + Sync),
    alloc: Global,
    table: &Table,
    text: &str,
    changes: &[Change],
) -> Result<(), RowFault> {
    for (i, (old, new, line)) in changes.iter().enumerate() {
        let mut bench = bench_of(alloc, table)?;
        let changed = text.replace(alloc, *old, new)?;
        bench.store.add("drv", changed.as_bytes())?;
        let note = format!(in alloc; "drv{line}\n")?;
        bench.ends(rt, table.name, i, "device drv", Ending::Refused(&note))?;
    }
    Ok(())
}

// The commands that read a board, with the names of the chain file and the net file. The log `g` is faulty, too, but btest reports a fault
// of the board first.
const COMMANDS: [&str; 6] = [
    "cover c n",
    "svf c n",
    "walk c n",
    "diagnose 2 g c n",
    "groups g c n",
    "batch 2 g c n",
];

fn boards_hold(
    rt: &(impl Threads + Sync),
    alloc: Global,
    table: &Table,
    cases: &[Case],
) -> Result<(), RowFault> {
    for (i, case) in cases.iter().enumerate() {
        board_is_refused(rt, alloc, table, i, case)?;
    }
    Ok(())
}

fn board_is_refused(
    rt: &(impl Threads + Sync),
    alloc: Global,
    table: &Table,
    row: usize,
    (chain, nets, words, note): &Case,
) -> Result<(), RowFault> {
    for command in &COMMANDS {
        let mut bench = Bench::with_board(alloc, chain, nets)?;
        bench.add(table.texts)?;
        bench.store.add("g", b"zz\n")?;
        let line = format!(in alloc; "{command} {words}")?;
        bench.ends(rt, table.name, row, &line, Ending::Refused(note))?;
    }
    Ok(())
}

fn no_commands_hold(
    rt: &(impl Threads + Sync),
    alloc: Global,
    table: &Table,
    lines: &[&'static str],
) -> Result<(), RowFault> {
    for (i, line) in lines.iter().enumerate() {
        let mut bench = bench_of(alloc, table)?;
        bench.store.fail_at(1)?;
        bench.ends(rt, table.name, i, line, Ending::Usage)?;
    }
    Ok(())
}

fn words_hold(
    rt: &(impl Threads + Sync),
    alloc: Global,
    table: &Table,
    lines: &[&'static str],
    word: &str,
    rows: &[(usize, Ending<'static>)],
) -> Result<(), RowFault> {
    let mut run = 0usize;
    for (count, ending) in rows {
        let words = word.repeat(alloc, *count)?;
        for line in lines {
            let mut bench = bench_of(alloc, table)?;
            let line = format!(in alloc; "{line}{words}")?;
            bench.ends(rt, table.name, run, &line, *ending)?;
            run = run.saturating_add(1);
        }
    }
    Ok(())
}

/// Runs each line with the files of a generated board of 60 devices, `c`, `n` and `gen`, and with this log as the text `g`. Returns an
/// error for the first line with an unexpected result.
pub fn sixty_devices_hold(
    rt: &(impl Threads + Sync),
    alloc: Global,
    log: &str,
    lines: &[Line],
) -> Result<(), RowFault> {
    for (i, (line, ending)) in lines.iter().enumerate() {
        let mut bench = Bench::with_sixty_devices(alloc)?;
        bench.store.add("g", log.as_bytes())?;
        bench.ends(rt, "60 devices", i, line, *ending)?;
    }
    Ok(())
}
