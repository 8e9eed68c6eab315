// Tests of writes that fail.
use crate::calls::{COMMANDS, Command, LOGS, bench_of};
use bt_base::MemSink;
use run_bench::Text::Plain;
use run_bench::{Ending, Row, RowFault, Rows, Table, Trouble, tables_hold};
use std::alloc::Global;
use std::thread::Threads;

// Returns the first `count` bytes of a text, or the whole text if it is shorter.
fn first(text: &str, count: usize) -> &str {
    text.get(..count).unwrap_or(text)
}

// Checks a run in which write number `call`, counted from 1, fails after `taken` bytes. The earlier writes have `before` bytes together.
fn is_cut(
    rt: &(impl Threads + Sync),
    alloc: Global,
    command: &Command,
    call: u32,
    taken: u32,
    before: usize,
) -> Result<(), RowFault> {
    let mut bench = bench_of(alloc)?;
    bench.out.fail_at(call, taken)?;
    let text = first(command.text, before.saturating_add(taken as usize));
    let ending = Ending::NotPut(text, "cannot write\n");
    bench.ends(rt, command.line, call as usize, command.line, ending)
}

// For each line of a command's output, checks a run in which the write of this line fails after `taken` bytes.
fn is_cut_at_each(
    rt: &(impl Threads + Sync),
    alloc: Global,
    command: &Command,
    taken: u32,
) -> Result<(), RowFault> {
    let mut call = 1u32;
    let mut before = 0usize;
    for line in command.text.split_inclusive('\n') {
        is_cut(rt, alloc, command, call, taken, before)?;
        call = call.saturating_add(1);
        before = before.saturating_add(line.len());
    }
    Ok(())
}

// If a write fails, the output has the lines of the earlier writes and perhaps the beginning of the next line.
#[test]
fn a_write_that_fails_leaves_the_lines_before_it(rt: HostRuntime) -> Result<(), RowFault> {
    for command in &COMMANDS {
        for taken in [0, 2] {
            is_cut_at_each(&rt, rt.alloc(), command, taken)?;
        }
    }
    Ok(())
}

fn puts_text(rt: &(impl Threads + Sync), alloc: Global, command: &Command) -> Result<(), RowFault> {
    let mut bench = bench_of(alloc)?;
    bench.ends(
        rt,
        command.line,
        0,
        command.line,
        Ending::Puts(command.text),
    )
}

// Checks that a run whose write fails has the status `WriteFault` even if standard error takes only a part of the refusal line.
fn has_short_note(
    rt: &(impl Threads + Sync),
    alloc: Global,
    command: &Command,
) -> Result<(), RowFault> {
    let mut bench = bench_of(alloc)?;
    bench.out = MemSink::with_room(alloc, 4)?;
    bench.notes = MemSink::with_room(alloc, 6)?;
    let ending = Ending::NotPut(first(command.text, 4), "cannot");
    bench.ends(rt, command.line, 1, command.line, ending)
}

#[test]
fn every_command_puts_its_text_or_keeps_its_status(rt: HostRuntime) -> Result<(), RowFault> {
    for command in &COMMANDS {
        puts_text(&rt, rt.alloc(), command)?;
        has_short_note(&rt, rt.alloc(), command)?;
    }
    Ok(())
}

// A batch without a board's log has an empty output. The command writes this empty text, too, so this write
// can fail.
const EMPTY: [(Trouble, Row); 1] = [(
    Trouble::Put(1, 0),
    Row {
        texts: &[("b", Plain(""))],
        line: "batch 2 b c n drv rcv",
        ending: Ending::NotPut("", "cannot write\n"),
    },
)];

static TABLES: [Table; 1] = [Table {
    name: "an empty text may fail",
    texts: &LOGS,
    rows: Rows::Failing(&EMPTY),
}];

#[test]
fn an_empty_text_may_fail(rt: HostRuntime) -> Result<(), RowFault> {
    tables_hold(&rt, rt.alloc(), &TABLES)
}
