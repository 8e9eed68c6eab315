//! Starts the program on the real files and streams. `start` passes the words of the command line
//! to `run`, and exits with the number of the status that `run` returns.
#![tactic(auto)]

ghost use Rattle.std.specs.Prelude.{◌≡◌, ◌≢◌, IfErr, IfOk, IsErr};
ghost use Rattle.std.specs.IoError.{error_kind};
ghost use Rattle.refusal_lines.specs.Refusals.{usage_line};
ghost use Rattle.btest_cli.specs.Outcome.{TookOrCut};
ghost use Rattle.host_start.specs.Ending.{IsEndOf};

use bt_base::{HostSink, HostStore, OpenGate, Sink, Store};
use btest_cli::{Status, put_usage, run};
use std::alloc::Global;
use std::io::{ErrorKind, Print, Write};
use std::process::ExitCode;
use std::rt::{Env, Files};
use std::thread::Threads;
use std::{env, io};

// Returns the words that come after the program's name.
fn words(rt: &(impl Env + AllocGlobal)) -> io::Result<Vec<String>> {
    let mut words = Vec::new(rt.alloc());
    for word in env::args(rt)?.skip(1) {
        words.push(word)?;
    }
    Ok(words)
}

// Runs the command that these words form, and returns the exit status. The command's output goes to
// `out`. A line for standard error, if there is one, goes to `notes`.
fn end_with<R: Threads + Sync, S: Store, K: Sink, N: Sink>(
    rt: &R,
    alloc: Global,
    words: &[String],
    store: &mut S,
    out: &mut K,
    notes: &mut N,
) -> u8
    ensures { IsEndOf words.now (S.held store.old) (S.faults store.old) (S.faults store.new) (S.asked store.old) (S.asked store.new)
        (K.shown out.old) (K.shown out.new) (N.shown notes.old) (N.shown notes.new) result }
{
    run(rt, alloc, words, store, out, notes, &OpenGate).number()
}

// Ends a run for which the system gave no words, and returns the exit status. If memory ran out, writes nothing and returns 5.
// Otherwise writes the usage line to `notes` and returns 2.
fn end_without<N: Sink>(error: &io::Error, notes: &mut N) -> u8
    ensures no_words { error_kind error.now ≢ ErrorKind.OutOfMemory
        → (result ≡ 2) × TookOrCut (N.shown notes.old) (N.shown notes.new) usage_line }
    ensures no_memory { error_kind error.now ≡ ErrorKind.OutOfMemory
        → (result ≡ 5) × (N.shown notes.new ≡ N.shown notes.old) }
{
    if error.kind() == ErrorKind::OutOfMemory {
        return Status::NoMemory.number();
    }
    let _ = put_usage(notes);
    Status::Usage.number()
}

// Runs the command that the words from the system form, and returns the exit status. If the system
// could not give the words, for example because they are not UTF-8, calls `end_without` instead.
fn end_of<R: Threads + Sync, S: Store, K: Sink, N: Sink>(
    rt: &R,
    alloc: Global,
    words: &io::Result<Vec<String>>,
    store: &mut S,
    out: &mut K,
    notes: &mut N,
) -> u8
    // If the system gave words, the program ran on these words and ended as `IsEndOf` says.
    ensures run { IfOk words.now (λ words. IsEndOf words.items (S.held store.old) (S.faults store.old) (S.faults store.new) (S.asked store.old) (S.asked store.new)
        (K.shown out.old) (K.shown out.new) (N.shown notes.old) (N.shown notes.new) result) }

    // If the system gave no words, nothing was read, and nothing was written to `out`. If memory
    // ran out, the status is 5. Otherwise the status is 2, and the usage line was written to
    // `notes`, or its first bytes if a write failed.
    ensures no_words { IfErr words.now (λ error. error_kind error ≢ ErrorKind.OutOfMemory
        → (result ≡ 2) × TookOrCut (N.shown notes.old) (N.shown notes.new) usage_line) }
    ensures no_memory { IfErr words.now (λ error. error_kind error ≡ ErrorKind.OutOfMemory
        → (result ≡ 5) × (N.shown notes.new ≡ N.shown notes.old)) }
    ensures nothing_else { IsErr words.now
        → (store.new ≡ store.old) × (K.shown out.new ≡ K.shown out.old) }
{
    match words {
        Ok(words) => end_with(rt, alloc, words, store, out, notes),
        Err(error) => end_without(error, notes),
    }
}

/// Runs the command that the words of the command line form. Reads files of the system, and writes
/// the output to standard output. If there is a line for standard error, writes it to `notes`.
/// Returns the exit status.
pub fn start<R, E>(rt: &R, notes: E) -> ExitCode
where
    R: AllocGlobal + Env + Files + Print + Sync + Threads,
    E: Write + Drop,
{
    let mut out = HostSink::over(io::writer(rt));
    let mut notes = HostSink::over(notes);
    let mut store = HostStore::over(rt);
    let words = words(rt);
    ExitCode::from(end_of(rt, rt.alloc(), &words, &mut store, &mut out, &mut notes))
}
