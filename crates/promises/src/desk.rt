// A run with a store, an output and notes in memory.
ghost use Rattle.promises.specs.Runs.{desk_run, ends_of, run_of};
ghost use Rattle.promises.specs.Logs.{LinesAreRead};
ghost use Rattle.promises.specs.inner.Facts.{IsRun, SayOne};

use batch_diag::law::blocks_stand_by_themselves;
use board_defs::law::passes_kept;
use bt_base::{Gate, MemSink, MemStore, Store};
use btest_cli::{Status, run};
use btest_core::law::{inputs_have_one_answer, inputs_keep_rules};
use fault_sim::law::logs_have_one_diagnosis;
use response_log::law::rows_are_the_lines;
use std::alloc::Global;
use std::thread::Threads;
use tap_defs::board_law::{rows_compared, statements_compared};
use walk_test::law::logs_have_one_set;

/// The store, the output and the notes of a run, in memory.
#[derive(Drop)]
pub struct Desk {
    pub alloc: Global,
    pub store: MemStore,
    pub out: MemSink,
    pub notes: MemSink,
}

impl Desk {
    /// Runs a command line with this store, this output and these notes.
    pub(crate) fn run<R: Threads + Sync, G: Gate>(
        &mut self,
        rt: &R,
        words: &[String],
        gate: &G,
    ) -> Status
        ensures run { IsRun (desk_run words.now self.old self.new result) }
        ensures one { SayOne }
    {
        let Desk {
            alloc,
            store,
            out,
            notes,
        } = self;
        run_on(rt, *alloc, words, store, out, notes, gate)
    }
}

/// Runs a command line with any store, and with an output and notes in memory.
pub(crate) fn run_on<R: Threads + Sync, S: Store, G: Gate>(
    rt: &R,
    alloc: Global,
    words: &[String],
    store: &mut S,
    out: &mut MemSink,
    notes: &mut MemSink,
    gate: &G,
) -> Status
    ensures run { IsRun
        (run_of words.now
        (ends_of (S.held store.old) (S.asked store.old) (S.faults store.old) out.old notes.old)
        (ends_of (S.held store.new) (S.asked store.new) (S.faults store.new) out.new notes.new)
        result) }
    ensures one { SayOne }
{
    inputs_have_one_answer();
    inputs_keep_rules();
    logs_have_one_diagnosis();
    logs_have_one_set();
    run(rt, alloc, words, store, out, notes, gate)
}

/// States that, for the board that files denote, a text is read as a log or a batch if and only if
/// its lines hold such a log or batch. Does nothing.
pub fn lines_are_read()
    ensures { LinesAreRead }
{
    inputs_keep_rules();
    passes_kept();
    rows_compared();
    statements_compared();
    rows_are_the_lines();
    blocks_stand_by_themselves();
}
