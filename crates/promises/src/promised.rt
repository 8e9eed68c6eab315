// The promises of the program: the promise of each command, and the meaning of each status other than Done.
ghost use Rattle.promises.specs.Runs.{desk_run, ends_of, run_of};
ghost use Rattle.promises.specs.Promises.{DiagnosesBlocks, DiagnosesLog, FindsGroups, FindsOutcome, ListsCover, ListsDevice, RestsOnBlocks, RestsOnFiles, RestsOnLog, RestsOnWalkLog, SumsUp, TellsFault, TellsLong, TellsMemory, TellsUnread, TellsUnwritten, TellsUsage, TestsBoard, TestsChain, TestsIdents, WalksBoard};

use crate::desk::{Desk, lines_are_read, run_on};
use bt_base::{Gate, MemSink, Store};
use btest_cli::Status;
use std::alloc::Global;
use std::thread::Threads;

impl Desk {
    /// Runs a command line. Promise: the text of `chain` passes on every chain of parts with the
    /// instruction lengths of its files. It fails on every chain that has another number of parts,
    /// at least one, each with two or more instruction bits, and no more instruction bits in total.
    pub fn chain<R: Threads + Sync, G: Gate>(
        &mut self,
        rt: &R,
        words: &[String],
        gate: &G,
    ) -> Status
        ensures { TestsChain (desk_run words.now self.old self.new result) }
    {
        self.run(rt, words, gate)
    }

    /// Runs a command line. Promise: the text of `ident` tests whether each part's identification code fits the pattern of the part.
    pub fn ident<R: Threads + Sync, G: Gate>(
        &mut self,
        rt: &R,
        words: &[String],
        gate: &G,
    ) -> Status
        ensures { TestsIdents (desk_run words.now self.old self.new result) }
    {
        self.run(rt, words, gate)
    }

    /// Runs a command line. Promise: `device` lists the device that its file describes.
    pub fn device<R: Threads + Sync, G: Gate>(
        &mut self,
        rt: &R,
        words: &[String],
        gate: &G,
    ) -> Status
        ensures { ListsDevice (desk_run words.now self.old self.new result) }
    {
        self.run(rt, words, gate)
    }

    /// Runs a command line. Promise: `cover` prints the number of nets and the number of nets that some safe
    /// setting observes, the covered nets. It lists each other net, with the reason. It also lists each
    /// driver and receiver of a covered net that no safe setting tests, and each pair of covered nets that no
    /// safe setting observes together. A safe setting is a set of controls that a test may enable together.
    pub fn cover<R: Threads + Sync, G: Gate>(
        &mut self,
        rt: &R,
        words: &[String],
        gate: &G,
    ) -> Status
        ensures { ListsCover (desk_run words.now self.old self.new result) }
    {
        self.run(rt, words, gate)
    }

    /// Runs a command line. Promise: the text of `svf` tests the board that its files denote.
    pub fn svf<R: Threads + Sync, G: Gate>(&mut self, rt: &R, words: &[String], gate: &G) -> Status
        ensures { TestsBoard (desk_run words.now self.old self.new result) }
    {
        self.run(rt, words, gate)
    }

    /// Runs a command line. Promise: `walk` prints a test that is harmless to the board. The test passes
    /// without faults. After its reset, it never enables two boundary-scan drivers on one net, whatever
    /// faults the board has.
    pub fn walk<R: Threads + Sync, G: Gate>(&mut self, rt: &R, words: &[String], gate: &G) -> Status
        ensures { WalksBoard (desk_run words.now self.old self.new result) }
    {
        self.run(rt, words, gate)
    }

    /// Runs a command line. Promise: `diagnose` lists exactly the single faults that explain a log, and
    /// prints only if the files denote a board and the log file holds a log of the board's test.
    pub fn diagnose<R: Threads + Sync, G: Gate>(
        &mut self,
        rt: &R,
        words: &[String],
        gate: &G,
    ) -> Status
        ensures text { DiagnosesLog (desk_run words.now self.old self.new result) }
        ensures only { RestsOnLog (desk_run words.now self.old self.new result) }
    {
        lines_are_read();
        self.run(rt, words, gate)
    }

    /// Runs a command line. Promise: `batch` writes the title and the diagnosis of each block, and prints
    /// only if the files denote a board and the batch holds logs of the board's test. The diagnosis of a
    /// block depends on the block's log alone.
    pub fn batch<R: Threads + Sync, G: Gate>(
        &mut self,
        rt: &R,
        words: &[String],
        gate: &G,
    ) -> Status
        ensures text { DiagnosesBlocks (desk_run words.now self.old self.new result) }
        ensures only { RestsOnBlocks (desk_run words.now self.old self.new result) }
    {
        lines_are_read();
        self.run(rt, words, gate)
    }

    /// Runs a command line. Promise: `groups` names the set of groups that explains a log, or says that no
    /// set does, and prints only if the files denote a board and the log file holds a log of the board's
    /// walking test.
    pub fn groups<R: Threads + Sync, G: Gate>(
        &mut self,
        rt: &R,
        words: &[String],
        gate: &G,
    ) -> Status
        ensures text { FindsGroups (desk_run words.now self.old self.new result) }
        ensures only { RestsOnWalkLog (desk_run words.now self.old self.new result) }
    {
        lines_are_read();
        self.run(rt, words, gate)
    }

    /// Runs a command line. Promise: unless memory ran out, the status is Usage if and only if the words ask for no command. For such words
    /// no file is read.
    pub fn usage<R: Threads + Sync, G: Gate>(
        &mut self,
        rt: &R,
        words: &[String],
        gate: &G,
    ) -> Status
        ensures { TellsUsage (desk_run words.now self.old self.new result) }
    {
        self.run(rt, words, gate)
    }

    /// Runs a command line. Promise: a text is printed, in whole or in part, only if the words ask for a
    /// command whose files give this text. The status is Refused only if the files give the line that is
    /// written. Nothing is said here about the lines of other statuses. The files of a command give a text or
    /// a line if the store holds them, or if no read of them failed and memory did not run out.
    pub fn outcome<R: Threads + Sync, G: Gate>(
        &mut self,
        rt: &R,
        words: &[String],
        gate: &G,
    ) -> Status
        ensures only { RestsOnFiles (desk_run words.now self.old self.new result) }
        ensures some { FindsOutcome (desk_run words.now self.old self.new result) }
    {
        self.run(rt, words, gate)
    }

    /// Runs a command line. Promise: unless a read of a file failed or memory ran out, the status is Refused
    /// if and only if the command's files have a fault or one of them is too long. The notes then take the
    /// line for the first fault.
    pub fn refused<R: Threads + Sync, G: Gate>(
        &mut self,
        rt: &R,
        words: &[String],
        gate: &G,
    ) -> Status
        ensures fault { TellsFault (desk_run words.now self.old self.new result) }
        ensures long { TellsLong (desk_run words.now self.old self.new result) }
    {
        self.run(rt, words, gate)
    }

    /// Runs a command line. Promise: if the status is WriteFault, a write of the output failed, and
    /// the output took a prefix of the text.
    pub fn write_fault<R: Threads + Sync, G: Gate>(
        &mut self,
        rt: &R,
        words: &[String],
        gate: &G,
    ) -> Status
        ensures { TellsUnwritten (desk_run words.now self.old self.new result) }
    {
        self.run(rt, words, gate)
    }

    /// Runs a command line. Promise: if the status is NoMemory, nothing was written to the output.
    pub fn no_memory<R: Threads + Sync, G: Gate>(
        &mut self,
        rt: &R,
        words: &[String],
        gate: &G,
    ) -> Status
        ensures { TellsMemory (desk_run words.now self.old self.new result) }
    {
        self.run(rt, words, gate)
    }
}

/// Runs a command line with any store. Promise: `make` writes the summary of a generated board.
pub fn make<R: Threads + Sync, S: Store, G: Gate>(
    rt: &R,
    alloc: Global,
    words: &[String],
    store: &mut S,
    out: &mut MemSink,
    notes: &mut MemSink,
    gate: &G,
) -> Status
    ensures { SumsUp
        (run_of words.now
        (ends_of (S.held store.old) (S.asked store.old) (S.faults store.old) out.old notes.old)
        (ends_of (S.held store.new) (S.asked store.new) (S.faults store.new) out.new notes.new)
        result) }
{
    run_on(rt, alloc, words, store, out, notes, gate)
}

/// Runs a command line with any store. Promise: if the status is ReadFault, a read of a file failed and the notes name this file.
pub fn read_fault<R: Threads + Sync, S: Store, G: Gate>(
    rt: &R,
    alloc: Global,
    words: &[String],
    store: &mut S,
    out: &mut MemSink,
    notes: &mut MemSink,
    gate: &G,
) -> Status
    ensures { TellsUnread
        (run_of words.now
        (ends_of (S.held store.old) (S.asked store.old) (S.faults store.old) out.old notes.old)
        (ends_of (S.held store.new) (S.asked store.new) (S.faults store.new) out.new notes.new)
        result) }
{
    run_on(rt, alloc, words, store, out, notes, gate)
}
