// A bench runs btest on texts in memory and keeps what the run writes.
use crate::board::{HEAD, TAIL};
use crate::devices::DEVICES;
use crate::row::{Ending, Named, RowFault};
use board_gen::make;
use bt_base::{Gate, MemSink, MemStore, OpenGate};
use btest_cli::{Status, run};
use std::alloc::{AllocError, Global};
use std::thread::Threads;

// The line that btest writes to standard error for a command line that is not valid.
const USAGE: &str =
    "usage: btest chain, device, cover, svf, diagnose, make, ident, walk, groups or batch\n";

/// The texts that a run can read, and the sinks in memory that take its standard output and its standard error.
#[derive(Drop)]
pub struct Bench {
    alloc: Global,
    /// The texts, each with its name.
    pub store: MemStore,
    /// The sink that takes the run's standard output.
    pub out: MemSink,
    /// The sink that takes the run's standard error.
    pub notes: MemSink,
}

impl Bench {
    /// Returns a bench without texts. Its sinks have room for the output of small boards.
    pub fn empty(alloc: Global) -> Result<Bench, AllocError> {
        Ok(Bench {
            alloc,
            store: MemStore::new(alloc),
            out: MemSink::with_room(alloc, 500_000)?,
            notes: MemSink::with_room(alloc, 1_000)?,
        })
    }

    /// Returns a bench with `chain` as the chain file `c`, `nets` as the net file `n`, and the BSDL texts of `DEVICES`.
    pub fn with_board(alloc: Global, chain: &str, nets: &str) -> Result<Bench, AllocError> {
        let mut bench = Bench::empty(alloc)?;
        for (name, text) in &DEVICES {
            bench.store.add(name, text.as_bytes())?;
        }
        bench.store.add("c", chain.as_bytes())?;
        bench.store.add("n", nets.as_bytes())?;
        Ok(bench)
    }

    /// Returns a bench with the files of a generated board of 60 devices. They are the chain file `c`, the net file `n` and the BSDL text
    /// `gen`. The sink for standard output has room for the board's tests.
    pub fn with_sixty_devices(alloc: Global) -> Result<Bench, AllocError> {
        let made = make(alloc, 60)?;
        let mut bench = Bench::empty(alloc)?;
        bench.out = MemSink::with_room(alloc, 8_000_000)?;
        bench.store.add("c", &made.chain)?;
        bench.store.add("n", &made.nets)?;
        bench.store.add("gen", &made.bsdl)?;
        Ok(bench)
    }

    /// Adds texts to the store. A text replaces another text of the same name.
    pub fn add(&mut self, texts: &[Named]) -> Result<(), AllocError> {
        for (name, text) in texts {
            text.add_to(self.alloc, &mut self.store, name)?;
        }
        Ok(())
    }

    /// Runs a command line and returns the status of the run. Single spaces separate the words. An empty line has no words.
    pub fn run(&mut self, rt: &(impl Threads + Sync), line: &str) -> Result<Status, AllocError> {
        self.run_watched(rt, line, &OpenGate)
    }

    /// Like `run`, but with a gate. If the command divides its work into pieces for its workers, it calls `enter` of the gate before each
    /// item of each piece.
    pub fn run_watched(
        &mut self,
        rt: &(impl Threads + Sync),
        line: &str,
        gate: &impl Gate,
    ) -> Result<Status, AllocError> {
        let mut words = Vec::new(self.alloc);
        if !line.is_empty() {
            for word in line.split(' ') {
                words.push(String::from_str(self.alloc, word)?)?;
            }
        }
        Ok(self.run_words(rt, &words, gate))
    }

    /// Like `run_watched`, but takes the command line as a list of words.
    pub fn run_words(
        &mut self,
        rt: &(impl Threads + Sync),
        words: &[String],
        gate: &impl Gate,
    ) -> Status {
        run(
            rt,
            self.alloc,
            words,
            &mut self.store,
            &mut self.out,
            &mut self.notes,
            gate,
        )
    }

    // Returns whether the run wrote exactly these bytes to standard output and this text to standard error.
    fn took(&self, out: &[u8], notes: &str) -> bool {
        self.out.bytes() == out && self.notes.bytes() == notes.as_bytes()
    }

    /// Runs a command line. Returns an error with the table and the row unless the status and the written bytes are as `ending` says.
    pub fn ends(
        &mut self,
        rt: &(impl Threads + Sync),
        table: &'static str,
        row: usize,
        line: &str,
        ending: Ending,
    ) -> Result<(), RowFault> {
        let status = self.run(rt, line)?;
        self.expect(table, row, status, ending)
    }

    /// Returns an error with the table and the row unless `status` and the bytes that the run wrote are as `ending` says.
    pub fn expect(
        &self,
        table: &'static str,
        row: usize,
        status: Status,
        ending: Ending,
    ) -> Result<(), RowFault> {
        if self.has_ended(status, ending)? {
            Ok(())
        } else {
            Err(RowFault::Ended { table, row, status })
        }
    }

    // Returns whether `status` and the bytes that the run wrote are as `ending` says.
    fn has_ended(&self, status: Status, ending: Ending) -> Result<bool, AllocError> {
        match ending {
            Ending::Puts(text) => Ok(status == Status::Done && self.took(text.as_bytes(), "")),
            Ending::PutsAll(text) => {
                let text = text.bytes(self.alloc)?;
                Ok(status == Status::Done && self.took(&text, ""))
            }
            Ending::Scans(scans) => {
                let text = format!(in self.alloc; "{HEAD}{scans}{TAIL}")?;
                Ok(status == Status::Done && self.took(text.as_bytes(), ""))
            }
            Ending::Long(bytes) => {
                let lengths = (self.out.bytes().len(), self.notes.bytes().len());
                Ok(status == Status::Done && lengths == (bytes, 0))
            }
            Ending::Done => Ok(status == Status::Done),
            Ending::Refused(line) => Ok(status == Status::Refused && self.took(b"", line)),
            Ending::NotRead(line) => Ok(status == Status::ReadFault && self.took(b"", line)),
            Ending::NotPut(text, line) => {
                Ok(status == Status::WriteFault && self.took(text.as_bytes(), line))
            }
            Ending::Usage => Ok(status == Status::Usage && self.took(b"", USAGE)),
        }
    }
}
