// Tests of reads that fail.
use crate::calls::{COMMANDS, Command, bench_of};
use run_bench::{Ending, RowFault};
use std::alloc::Global;
use std::thread::Threads;

// Checks a run in which read number `call`, counted from 1, fails. This must be the read of the text `name`. The first write would fail,
// too, but the run must end before it.
fn ends_at(
    rt: &(impl Threads + Sync),
    alloc: Global,
    line: &str,
    call: u32,
    name: &'static str,
) -> Result<(), RowFault> {
    let mut bench = bench_of(alloc)?;
    bench.store.fail_at(call)?;
    bench.out.fail_at(1, 0)?;
    let note = format!(in alloc; "cannot read {name}\n")?;
    bench.ends(rt, name, call as usize, line, Ending::NotRead(&note))
}

// For each read of a command, checks a run in which this read fails.
fn ends_at_each(
    rt: &(impl Threads + Sync),
    alloc: Global,
    command: &Command,
) -> Result<(), RowFault> {
    let mut call = 1u32;
    for name in command.names {
        ends_at(rt, alloc, command.line, call, name)?;
        call = call.saturating_add(1);
    }
    Ok(())
}

#[test]
fn a_read_that_fails_ends_every_command(rt: HostRuntime) -> Result<(), RowFault> {
    for command in &COMMANDS {
        ends_at_each(&rt, rt.alloc(), command)?;
    }
    Ok(())
}
