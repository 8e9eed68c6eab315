// Tests of texts that are too long, and of texts that are as long as the limit.
use crate::calls::{COMMANDS, Command, LOGS, bench_of};
use bt_base::Store;
use run_bench::Text::Repeated;
use run_bench::{Ending, Row, RowFault, Rows, Table, tables_hold};
use std::alloc::Global;
use std::thread::Threads;

// The maximum length of a chain file, a net file or a BSDL text, in bytes.
const MOST: usize = 4_194_304;

const MOST_OF_LOG: usize = 67_108_864;

// Returns the maximum length of the text with this name, in bytes. The logs `g` and `w` and the batch `b` may be longer than other texts.
fn limit(name: &str) -> usize {
    if name == "g" || name == "w" || name == "b" {
        MOST_OF_LOG
    } else {
        MOST
    }
}

// Checks that a command refuses the text `name` if it has one byte too many. The bytes of the text come from `blanks`.
fn is_too_long(
    rt: &(impl Threads + Sync),
    alloc: Global,
    line: &str,
    name: &'static str,
    blanks: &[u8],
) -> Result<(), RowFault> {
    let limit = limit(name);
    let mut bench = bench_of(alloc)?;
    bench.store.add(name, blanks.get(..=limit).unwrap_or(b""))?;
    let note = format!(in alloc; "{name}: longer than {limit} bytes\n")?;
    bench.ends(rt, name, 0, line, Ending::Refused(&note))
}

// Checks that a command still writes its output if the text `name` is extended with blanks to its maximum length.
fn may_be_as_long(
    rt: &(impl Threads + Sync),
    alloc: Global,
    command: &Command,
    name: &'static str,
    blanks: &[u8],
) -> Result<(), RowFault> {
    let mut bench = bench_of(alloc)?;
    let mut text = Vec::new(alloc);
    let _ = bench.store.fetch(name, &mut text, 1_000_000);
    let rest = blanks.get(text.len()..limit(name)).unwrap_or(b"");
    text.extend_from_slice(rest)?;
    bench.store.add(name, &text)?;
    bench.ends(rt, name, 1, command.line, Ending::Puts(command.text))
}

fn are_too_long(
    rt: &(impl Threads + Sync),
    alloc: Global,
    command: &Command,
    blanks: &[u8],
) -> Result<(), RowFault> {
    for name in command.names {
        is_too_long(rt, alloc, command.line, name, blanks)?;
    }
    Ok(())
}

#[test]
fn a_text_that_is_too_long_is_refused_by_every_command(rt: HostRuntime) -> Result<(), RowFault> {
    let blanks = " ".repeat(rt.alloc(), MOST_OF_LOG + 1)?;
    for command in &COMMANDS {
        are_too_long(&rt, rt.alloc(), command, blanks.as_bytes())?;
    }
    Ok(())
}

fn may_be_long(
    rt: &(impl Threads + Sync),
    alloc: Global,
    command: &Command,
    blanks: &[u8],
) -> Result<(), RowFault> {
    for name in command.names {
        may_be_as_long(rt, alloc, command, name, blanks)?;
    }
    Ok(())
}

#[test]
fn every_text_may_have_its_limit(rt: HostRuntime) -> Result<(), RowFault> {
    let blanks = " ".repeat(rt.alloc(), MOST_OF_LOG)?;
    for command in &COMMANDS {
        may_be_long(&rt, rt.alloc(), command, blanks.as_bytes())?;
    }
    Ok(())
}

const BLANKS: [Row; 2] = [
    // A log may be longer than the other texts.
    Row {
        texts: &[("w", Repeated(" ", MOST + 1))],
        line: "groups w c n drv rcv",
        ending: Ending::Refused("w: 0 rows of 2\n"),
    },
    // A batch of only blanks has no board's log.
    Row {
        texts: &[("b", Repeated(" ", MOST + 1))],
        line: "batch 2 b c n drv rcv",
        ending: Ending::Puts(""),
    },
];

static TABLES: [Table; 1] = [Table {
    name: "a log has a limit of its own",
    texts: &LOGS,
    rows: Rows::Runs(&BLANKS),
}];

#[test]
fn a_log_has_a_limit_of_its_own(rt: HostRuntime) -> Result<(), RowFault> {
    tables_hold(&rt, rt.alloc(), &TABLES)
}
