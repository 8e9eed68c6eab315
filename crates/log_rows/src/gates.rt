// Tests of how `diagnose` and `batch` share their work among workers. With `w` workers, a command divides its work into `w` pieces. Before
// each item of its work, a piece calls `enter` of a gate with its own number and the number of the item. This call is an entry. Pieces and
// items are numbered from 0. The gates of this file watch these entries.
use bt_base::Gate;
use run_bench::{Bench, CHAIN, Ending, NETS, RowFault, expect};
use std::alloc::{AllocError, Global};
use std::sync::atomic::Ordering::SeqCst;
use std::sync::atomic::{AtomicBool, AtomicU64};
use std::thread::Threads;

// The number of times that a waiting piece checks the other pieces before it gives up.
const TURNS: u32 = 100_000_000;

// The maximum number of pieces that `Entries` records. A command has at most this many workers.
const PIECES: u64 = 64;

// Returns `count` counters, all 0.
fn counters(alloc: Global, count: u64) -> Result<Vec<AtomicU64>, AllocError> {
    let mut counters = Vec::new(alloc);
    for _ in 0..count {
        counters.push(AtomicU64::new(0))?;
    }
    Ok(counters)
}

// A gate that keeps pieces in step. The first `held` entries of each piece wait: entry `i` of a piece waits until every other piece has
// made its entry `i`.
#[derive(Drop)]
struct InStep {
    entries: Vec<AtomicU64>,
    held: u64,
    // True once an entry has given up waiting, or a piece with an unexpected number has entered. From then on, no entry waits.
    late: AtomicBool,
}

impl InStep {
    // Returns a gate for `pieces` pieces at which the first `held` entries of each piece wait.
    fn new(alloc: Global, pieces: u64, held: u64) -> Result<InStep, AllocError> {
        Ok(InStep {
            entries: counters(alloc, pieces)?,
            held,
            late: AtomicBool::new(false),
        })
    }

    // Returns whether each piece has made at least this many entries.
    fn have_made(&self, entries: u64) -> bool {
        self.entries.iter().all(|own| entries <= own.load(SeqCst))
    }

    // Returns whether each piece has made at least `held` entries, no entry gave up waiting, and no piece with an unexpected number
    // entered.
    fn has_met(&self) -> bool {
        !self.late.load(SeqCst) && self.have_made(self.held)
    }
}

impl Gate for InStep {
    fn enter(&self, piece: u32, _item: u64) {
        let Some(own) = self.entries.get(piece as usize) else {
            self.late.store(true, SeqCst);
            return;
        };
        let before = own.fetch_add(1, SeqCst);
        if self.held <= before {
            return;
        }
        for _turn in 0..TURNS {
            if self.have_made(before + 1) || self.late.load(SeqCst) {
                return;
            }
        }
        self.late.store(true, SeqCst);
    }
}

// The maximum number of recorded entries of a piece.
const ENTRIES: u64 = 16;

// The numbers of a piece and of the item with which it entered the gate.
type Entry = (u64, u64);

// A gate that records the items with which each piece enters, in the order of the piece's entries. It records
// at most `ENTRIES` entries of each piece.
#[derive(Drop)]
struct Entries {
    counts: Vec<AtomicU64>,
    // The item of entry `i` of piece `p` is at index `p * ENTRIES + i`.
    items: Vec<AtomicU64>,
    others: AtomicU64,
}

impl Entries {
    fn new(alloc: Global) -> Result<Entries, AllocError> {
        Ok(Entries {
            counts: counters(alloc, PIECES)?,
            items: counters(alloc, PIECES * ENTRIES)?,
            others: AtomicU64::new(0),
        })
    }

    // Returns the counter of a piece's entries, or `others` if the number of the piece is `PIECES` or more.
    fn count(&self, piece: u64) -> &AtomicU64 {
        self.counts.get(piece as usize).unwrap_or(&self.others)
    }

    // Returns the counter that records the item of entry `number` of a piece. Returns `others` if `piece` is `PIECES` or more, or `number`
    // is `ENTRIES` or more.
    fn item(&self, piece: u64, number: u64) -> &AtomicU64 {
        if piece < PIECES && number < ENTRIES {
            let i = piece * ENTRIES + number;
            self.items.get(i as usize).unwrap_or(&self.others)
        } else {
            &self.others
        }
    }

    // Returns all entries of the pieces below `PIECES`, piece by piece. The entries of one piece are in the
    // order in which the piece made them. For an entry that is not recorded, the item has no meaning.
    fn all(&self, alloc: Global) -> Result<Vec<Entry>, AllocError> {
        let mut all = Vec::new(alloc);
        for piece in 0..PIECES {
            for number in 0..self.count(piece).load(SeqCst) {
                all.push((piece, self.item(piece, number).load(SeqCst)))?;
            }
        }
        Ok(all)
    }

    // Returns whether the entries are exactly these, piece by piece: entry `i` of all entries has the piece `pieces[i]` and the item
    // `items[i]`.
    fn are_of(&self, alloc: Global, pieces: &[u64], items: &[u64]) -> Result<bool, AllocError> {
        let all = self.all(alloc)?;
        let are_equal = all.len() == items.len()
            && all.iter().zip(pieces.iter().zip(items)).all(|(entry, (piece, item))| entry.0
                == *piece
                && entry.1 == *item);
        Ok(are_equal && self.others.load(SeqCst) == 0)
    }
}

impl Gate for Entries {
    fn enter(&self, piece: u32, item: u64) {
        let piece = u64::from(piece);
        let number = self.count(piece).fetch_add(1, SeqCst);
        self.item(piece, number).store(item, SeqCst);
    }
}

// Returns a bench with the files of a board with a driver and a receiver, and with this log as the text `g`.
fn bench_of(alloc: Global, log: &str) -> Result<Bench, AllocError> {
    let mut bench = Bench::with_board(alloc, CHAIN, NETS)?;
    bench.store.add("g", log.as_bytes())?;
    Ok(bench)
}

// A log in which the first of the two nets stays at 0.
const STUCK: &str = "0\n2\n";

const STUCK_TEXT: &str = "FAIL 3\nstuck N1 0\nopen U1.1 0\nopen U2.1 0\n";

const TWO_BOARDS: &str = "BOARD A\n1\n2\nBOARD B\n0\n2\n";

const TWO_VERDICTS: &str = "BOARD A\nPASS\nBOARD B\nFAIL 3\nstuck N1 0\nopen U1.1 0\nopen U2.1 0\n";

// A command line, the number of its workers, a log, the output of the command, and the number of entries at which each piece waits.
type Step = (&'static str, u64, &'static str, &'static str, u64);

// Commands whose pieces must work at the same time. Otherwise an entry waits in vain for the other pieces.
const STEPS: [Step; 4] = [
    ("diagnose 2 g c n drv rcv", 2, STUCK, STUCK_TEXT, 5),
    ("batch 2 g c n drv rcv", 2, TWO_BOARDS, TWO_VERDICTS, 1),
    ("diagnose 3 g c n drv rcv", 3, STUCK, STUCK_TEXT, 3),
    ("batch 7 g c n drv rcv", 7, TEN_BOARDS, TEN_VERDICTS, 1),
];

fn is_in_step(
    rt: &(impl Threads + Sync),
    alloc: Global,
    row: usize,
    (line, pieces, log, text, held): &Step,
) -> Result<(), RowFault> {
    let mut bench = bench_of(alloc, log)?;
    let gate = InStep::new(alloc, *pieces, *held)?;
    let status = bench.run_watched(rt, line, &gate)?;
    bench.expect("in step", row, status, Ending::Puts(text))?;
    expect("in step", row, gate.has_met())
}

#[test]
fn pieces_work_in_step(rt: HostRuntime) -> Result<(), RowFault> {
    for (row, step) in STEPS.iter().enumerate() {
        is_in_step(&rt, rt.alloc(), row, step)?;
    }
    Ok(())
}

const TEN_BOARDS: &str =
    "BOARD A\n1\n2\nBOARD B\n1\n2\nBOARD C\n1\n2\nBOARD D\n1\n2\nBOARD E\n1\n2\nBOARD F\n1\n2\nBOARD G\n1\n2\nBOARD H\n1\n2\nBOARD I\n1\n2\nBOARD J\n1\n2\n";

const TEN_VERDICTS: &str =
    "BOARD A\nPASS\nBOARD B\nPASS\nBOARD C\nPASS\nBOARD D\nPASS\nBOARD E\nPASS\nBOARD F\nPASS\nBOARD G\nPASS\nBOARD H\nPASS\nBOARD I\nPASS\nBOARD J\nPASS\n";

// The numbers of the single faults that `diagnose` tries for the log `STUCK`: the faults of the failing net, of its two pins, and of its
// shorts with the other net.
const CANDIDATES: [u64; 10] = [0, 1, 4, 5, 6, 7, 12, 13, 14, 15];

const NUMBERS: [u64; 10] = [0, 1, 2, 3, 4, 5, 6, 7, 8, 9];

// The number of workers as a word, and, for each of ten items, the number of the piece that the item belongs to.
type Share = (&'static str, [u64; 10]);

// Piece `p` of `w` pieces works on the items at positions `10 p / w..10 (p + 1) / w` of the list of ten items. Both quotients are rounded
// down.
const SHARES: [Share; 5] = [
    ("1", [0, 0, 0, 0, 0, 0, 0, 0, 0, 0]),
    ("2", [0, 0, 0, 0, 0, 1, 1, 1, 1, 1]),
    ("3", [0, 0, 0, 1, 1, 1, 2, 2, 2, 2]),
    ("7", [0, 1, 2, 2, 3, 4, 4, 5, 6, 6]),
    ("64", [6, 12, 19, 25, 31, 38, 44, 51, 57, 63]),
];

// A command with a number of workers, its log, its output, the items of all entries, and the piece that made each entry.
#[derive(Drop)]
struct Shared {
    command: &'static str,
    workers: &'static str,
    log: &'static str,
    text: &'static str,
    pieces: &'static [u64],
    items: &'static [u64],
}

// Runs the command. Checks its output and the entries that its pieces make.
fn is_shared(
    rt: &(impl Threads + Sync),
    alloc: Global,
    row: usize,
    shared: &Shared,
) -> Result<(), RowFault> {
    let mut bench = bench_of(alloc, shared.log)?;
    let mut line = String::new(alloc);
    write!(line, "{} {} g c n drv rcv", shared.command, shared.workers)?;
    let gate = Entries::new(alloc)?;
    let status = bench.run_watched(rt, &line, &gate)?;
    bench.expect(shared.command, row, status, Ending::Puts(shared.text))?;
    expect(
        shared.command,
        row,
        gate.are_of(alloc, shared.pieces, shared.items)?,
    )
}

#[test]
fn candidates_are_shared(rt: HostRuntime) -> Result<(), RowFault> {
    for (row, (workers, pieces)) in SHARES.iter().enumerate() {
        let shared = Shared {
            command: "diagnose",
            workers,
            log: STUCK,
            text: STUCK_TEXT,
            pieces,
            items: &CANDIDATES,
        };
        is_shared(&rt, rt.alloc(), row, &shared)?;
    }
    Ok(())
}

#[test]
fn boards_are_shared(rt: HostRuntime) -> Result<(), RowFault> {
    for (row, (workers, pieces)) in SHARES.iter().enumerate() {
        let shared = Shared {
            command: "batch",
            workers,
            log: TEN_BOARDS,
            text: TEN_VERDICTS,
            pieces,
            items: &NUMBERS,
        };
        is_shared(&rt, rt.alloc(), row, &shared)?;
    }
    Ok(())
}

// A log, the output for it, the items with which the two pieces enter the gate, and the piece of each entry.
type Try = (&'static str, &'static str, &'static [u64], &'static [u64]);

// For the expected log, the pieces try no single fault. If two nets have wrong bits in a log, the pieces try only the shorts of these two
// nets.
const TRIES: [Try; 2] = [
    ("1\n2\n", "PASS\n", &[], &[]),
    (
        "0\n0\n",
        "FAIL 1\nshort AND N1 N2\n",
        &[12, 13, 14, 15],
        &[0, 0, 1, 1],
    ),
];

#[test]
fn few_candidates_are_tried(rt: HostRuntime) -> Result<(), RowFault> {
    for (row, (log, text, items, pieces)) in TRIES.iter().enumerate() {
        let shared = Shared {
            command: "diagnose",
            workers: "2",
            log,
            text,
            pieces,
            items,
        };
        is_shared(&rt, rt.alloc(), row, &shared)?;
    }
    Ok(())
}
