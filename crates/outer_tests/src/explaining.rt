// Tests of the single faults of small boards and of the diagnosis of logs. The universe of a board numbers its single faults from 0. The
// number of a fault is its place. A net is covered if some pass observes it. Each pair of covered nets has four places for its shorts. If
// no pass observes both nets, these four places have no fault. The answers are worked out by hand from the definitions.
ghost use Rattle.std.specs.Prelude.{◌≡◌, ◌*◌, ◌≤◌, length, All, IfSome};
ghost use Rattle.board_defs.specs.Faults.{IsSingle};
ghost use Rattle.board_defs.specs.Passes.{passes_of};
ghost use Rattle.board_defs.specs.Pins.{data_bits};
ghost use Rattle.scan_planner.specs.Plans.{IsPlanOf};
ghost use Rattle.fault_sim.specs.Places.{IsUniverse};

use crate::boards::{BIDIR, Files, GROUPS, PAIR, PULLED, board_of, log_of, plan_of};
use board_defs::{Board, Kind, Single};
use bt_base::OpenGate;
use diagnoser::{Verdict, diagnose, diagnose_in};
use fault_sim::{BoardTest, ComparedLog, LoggedTest, Suspects, Universe, is_pass, matches};
use response_log::Log;
use run_bench::{RowFault, expect};
use scan_planner::Plan;
use side_by_side::Workers;
use std::alloc::{AllocError, Global};
use std::thread::Threads;

// A log of a board's test.
struct Logged {
    // The text of the log.
    log: &'static str,
    // True if every compared bit of the log is the expected bit.
    passes: bool,
    // The suspects. A fault can explain the log only if its place is one of these places.
    suspects: &'static [u64],
    // The places of the faults that explain the log.
    explaining: &'static [u64],
}

// A board, the fault at each place of its universe, and logs of its test. A place without a fault has an empty text.
struct Rows {
    name: &'static str,
    files: Files,
    places: &'static [&'static str],
    logs: &'static [Logged],
}

const PAIR_PLACES: [&str; 16] = [
    "stuck 0 0",
    "stuck 0 1",
    "stuck 1 0",
    "stuck 1 1",
    "open 0.0 0",
    "open 0.0 1",
    "open 0.1 0",
    "open 0.1 1",
    "open 1.0 0",
    "open 1.0 1",
    "open 1.1 0",
    "open 1.1 1",
    "and 0 1",
    "or 0 1",
    "first 0 1",
    "second 0 1",
];

// The places of the shorts of nets 0 and 1 of the board `PAIR`.
const PAIR_SHORTS: &[u64] = &[12, 13, 14, 15];

// The places of all faults of net 0 of the board `PAIR`: of the net itself, of its two pins, and of its shorts with net 1.
const OF_FIRST: &[u64] = &[0, 1, 4, 5, 6, 7, 12, 13, 14, 15];

// The places of all faults of net 1 of the board `PAIR`: of the net itself, of its two pins, and of its shorts with net 0.
const OF_SECOND: &[u64] = &[2, 3, 8, 9, 10, 11, 12, 13, 14, 15];

// Logs of the board `PAIR`. Net 0 carries 1 in the first row and 0 in the second. Net 1 carries 0 in the first row and 1 in the second. Bit
// 0 of a row is read from net 0, and bit 1 from net 1.
const PAIR_LOGS: [Logged; 10] = [
    Logged {
        log: "1\n2\n",
        passes: true,
        suspects: &[],
        explaining: &[],
    },
    // Bits 2 and 3 are not compared.
    Logged {
        log: "D\nE\n",
        passes: true,
        suspects: &[],
        explaining: &[],
    },
    Logged {
        log: "0\n2\n",
        passes: false,
        suspects: OF_FIRST,
        explaining: &[0, 4, 6],
    },
    Logged {
        log: "1\n3\n",
        passes: false,
        suspects: OF_FIRST,
        explaining: &[1, 5, 7],
    },
    Logged {
        log: "1\n0\n",
        passes: false,
        suspects: OF_SECOND,
        explaining: &[2, 8, 10],
    },
    Logged {
        log: "0\n0\n",
        passes: false,
        suspects: PAIR_SHORTS,
        explaining: &[12],
    },
    Logged {
        log: "3\n3\n",
        passes: false,
        suspects: PAIR_SHORTS,
        explaining: &[13],
    },
    Logged {
        log: "3\n0\n",
        passes: false,
        suspects: OF_SECOND,
        explaining: &[14],
    },
    Logged {
        log: "0\n3\n",
        passes: false,
        suspects: OF_FIRST,
        explaining: &[15],
    },
    Logged {
        log: "1\n1\n",
        passes: false,
        suspects: PAIR_SHORTS,
        explaining: &[],
    },
];

const GROUPS_PLACES: [&str; 32] = [
    "stuck 0 0",
    "stuck 0 1",
    "stuck 1 0",
    "stuck 1 1",
    "stuck 2 0",
    "stuck 2 1",
    "open 0.0 0",
    "open 0.0 1",
    "open 0.1 0",
    "open 0.1 1",
    "open 1.0 0",
    "open 1.0 1",
    "open 1.1 0",
    "open 1.1 1",
    "open 1.2 0",
    "open 1.2 1",
    "open 2.0 0",
    "open 2.0 1",
    "open 2.1 0",
    "open 2.1 1",
    "and 0 1",
    "or 0 1",
    "first 0 1",
    "second 0 1",
    "",
    "",
    "",
    "",
    "and 1 2",
    "or 1 2",
    "first 1 2",
    "second 1 2",
];

// The places of the shorts of nets 0 and 1 of the board `GROUPS`.
const GROUPS_SHORTS: &[u64] = &[20, 21, 22, 23];

// The places of net 0's faults, and the four places of nets 0 and 2, which have no fault because no pass observes both nets.
const OF_NET_0: &[u64] = &[0, 1, 6, 7, 8, 9, 20, 21, 22, 23, 24, 25, 26, 27];

const OF_NET_1: &[u64] = &[2, 3, 10, 11, 12, 13, 14, 15, 20, 21, 22, 23, 28, 29, 30, 31];

// Logs of the board `GROUPS`. Nets 0, 1 and 2 have the codes 1, 2 and 3. The test has two passes with three rows each. The first pass
// observes net 0 at bit 2 and net 1 at bit 3. The second pass observes net 1 at bit 3 and net 2 at bit 0.
const GROUPS_LOGS: [Logged; 7] = [
    Logged {
        log: "004\n008\n000\n001\n009\n000\n",
        passes: true,
        suspects: &[],
        explaining: &[],
    },
    Logged {
        log: "000\n008\n000\n001\n009\n000\n",
        passes: false,
        suspects: OF_NET_0,
        explaining: &[0, 6, 8],
    },
    Logged {
        log: "000\n000\n000\n001\n009\n000\n",
        passes: false,
        suspects: GROUPS_SHORTS,
        explaining: &[20],
    },
    Logged {
        log: "00C\n00C\n000\n001\n009\n000\n",
        passes: false,
        suspects: GROUPS_SHORTS,
        explaining: &[21],
    },
    Logged {
        log: "00C\n000\n000\n001\n009\n000\n",
        passes: false,
        suspects: OF_NET_1,
        explaining: &[22],
    },
    Logged {
        log: "000\n00C\n000\n001\n009\n000\n",
        passes: false,
        suspects: OF_NET_0,
        explaining: &[23],
    },
    // Only the bits of net 2 are wrong: they are the bits of net 1. The short `first 1 2` gives these bits, since both nets then have net
    // 1's value. The AND short gives them, too, since net 2 carries 1 in each row in which net 1 carries 1.
    Logged {
        log: "004\n008\n000\n000\n009\n000\n",
        passes: false,
        suspects: &[4, 5, 16, 17, 18, 19, 24, 25, 26, 27, 28, 29, 30, 31],
        explaining: &[28, 30],
    },
];

const ONE_NET_PLACES: [&str; 6] = [
    "stuck 0 0",
    "stuck 0 1",
    "open 0.0 0",
    "open 0.0 1",
    "open 0.1 0",
    "open 0.1 1",
];

const ALL_OF_ONE: &[u64] = &[0, 1, 2, 3, 4, 5];

// Logs of the board `PULLED`. If the driver is off or its pin is open, the net has the value 1, to which it is pulled.
const PULLED_LOGS: [Logged; 3] = [
    Logged {
        log: "1\n0\n",
        passes: true,
        suspects: &[],
        explaining: &[],
    },
    Logged {
        log: "1\n1\n",
        passes: false,
        suspects: ALL_OF_ONE,
        explaining: &[1, 2, 3, 5],
    },
    Logged {
        log: "0\n0\n",
        passes: false,
        suspects: ALL_OF_ONE,
        explaining: &[0, 4],
    },
];

static BOARDS: [Rows; 4] = [
    Rows {
        name: "a driver and a receiver",
        files: PAIR,
        places: &PAIR_PLACES,
        logs: &PAIR_LOGS,
    },
    Rows {
        name: "two groups of drivers",
        files: GROUPS,
        places: &GROUPS_PLACES,
        logs: &GROUPS_LOGS,
    },
    Rows {
        name: "a bidirectional pin",
        files: BIDIR,
        places: &ONE_NET_PLACES,
        logs: &[],
    },
    Rows {
        name: "a net that is pulled up",
        files: PULLED,
        places: &ONE_NET_PLACES,
        logs: &PULLED_LOGS,
    },
];

// A board, the plan of its test, and the universe of its single faults. The plan must be built from the board's passes, and the universe
// must be that of the board. If a function of this file also takes a log, the log must have the plan's rows, each as long as a data scan.
#[derive(Clone, Copy)]
struct Tested<'a> {
    board: &'a Board,
    plan: &'a Plan,
    universe: &'a Universe,
}

// A row of the logs of a board, with its number, counted from 0.
#[derive(Clone, Copy)]
struct LogRow<'a> {
    rows: &'a Rows,
    number: usize,
    wanted: &'a Logged,
}

impl<'a> LogRow<'a> {
    // Returns an error that names the row unless `holds` is true.
    fn expect(self, holds: bool) -> Result<(), RowFault> {
        expect(self.rows.name, self.number, holds)
    }

    // Returns whether these are the suspects, in the order of their places.
    fn has_suspects(self, suspects: Suspects) -> bool {
        are_places(&suspects, self.wanted.suspects)
    }

    // Returns whether these are the faults that explain the log, in the order of their places.
    fn has_faults(self, alloc: Global, faults: &[Single]) -> Result<bool, AllocError> {
        are_faults(alloc, faults, self.wanted.explaining, self.rows.places)
    }

    // Returns whether a diagnosis found the faults that explain the log.
    fn has_diagnosis(self, alloc: Global, faults: Vec<Single>) -> Result<bool, AllocError> {
        self.has_faults(alloc, &faults)
    }

    // Returns whether the verdict says whether the log passes, and has the faults that explain it.
    fn is_verdict(self, alloc: Global, verdict: &Verdict) -> Result<bool, AllocError> {
        if verdict.pass != self.wanted.passes {
            return Ok(false);
        }
        self.has_faults(alloc, verdict.faults.as_slice())
    }

    // Like `is_verdict`, but takes the result of a call that finds a verdict.
    fn has_verdict(
        self,
        alloc: Global,
        found: Result<Verdict, AllocError>,
    ) -> Result<bool, AllocError> {
        let verdict = found?;
        self.is_verdict(alloc, &verdict)
    }
}

fn word(kind: Kind) -> &'static str {
    match kind {
        Kind::And => "and",
        Kind::Or => "or",
        Kind::First => "first",
        Kind::Second => "second",
    }
}

/// Returns a fault as the tables of this file write it, or an empty text if there is no fault.
pub fn shown(alloc: Global, fault: Option<Single>) -> Result<String, AllocError> {
    match fault {
        None => Ok(String::new(alloc)),
        Some(Single::StuckNet { net, value }) => format!(in alloc;
            "stuck {net} {}",
            u32::from(value)
        ),
        Some(Single::OpenPin { pin, value }) => {
            format!(in alloc; "open {}.{} {}", pin.net, pin.place, u32::from(value))
        }
        Some(Single::Short { a, b, kind }) => format!(in alloc; "{} {a} {b}", word(kind)),
    }
}

// Returns the fault at a place, or `None` if the place has no fault or is too large.
#[tactic(auto, using(fault_sim::proofs::OrderLemmas::place_single))]
fn fault_at(tested: Tested<'_>, place: u64) -> Option<Single>
    requires plan { IsPlanOf tested.board.now tested.plan.now }
    requires passes { tested.plan.now.passes ≡ passes_of tested.board.now }
    requires universe { IsUniverse tested.board.now tested.universe.now }
    ensures { IfSome result (λ fault. IsSingle tested.entry.board.now fault) }
{
    let _rules = tested.board.raw();
    if tested.universe.places() <= place {
        return None;
    }
    tested.universe.at(tested.plan, place)
}

// Returns whether the universe has exactly these places: place `i` has the fault `places[i]`, written as `shown` writes it.
fn has_places(alloc: Global, tested: Tested<'_>, places: &[&str]) -> Result<bool, AllocError>
    requires plan { IsPlanOf tested.board.now tested.plan.now }
    requires passes { tested.plan.now.passes ≡ passes_of tested.board.now }
    requires universe { IsUniverse tested.board.now tested.universe.now }
{
    if tested.universe.places() != places.len() as u64 {
        return Ok(false);
    }
    for (place, wanted) in places.iter().enumerate() {
        let found = shown(alloc, fault_at(tested, place as u64))?;
        if found.as_str() != *wanted {
            return Ok(false);
        }
    }
    Ok(true)
}

// Returns whether the list contains this number.
fn has(list: &[u64], number: u64) -> bool {
    list.iter().any(|one| *one == number)
}

// Returns whether the fault at a place explains a log. Returns false if the place has no fault, and `None` if the function `matches` and
// the method `matches` of `compared` disagree. `compared` must belong to the same board.
fn explains(tested: Tested<'_>, log: &Log, compared: &ComparedLog<'_>, place: u64) -> Option<bool>
    requires plan { IsPlanOf tested.board.now tested.plan.now }
    requires passes { tested.plan.now.passes ≡ passes_of tested.board.now }
    requires universe { IsUniverse tested.board.now tested.universe.now }
    requires rows { length log.now ≡ length tested.plan.now.passes * tested.plan.now.width }
    requires bits { All (λ row. length row ≡ data_bits tested.board.now) log.now }
    requires same { compared.now.test.board ≡ tested.board.now }
{
    let Some(fault) = fault_at(tested, place) else {
        return Some(false);
    };
    let found = matches(tested.board, tested.plan, fault, log);
    if compared.matches(fault) == found {
        Some(found)
    } else {
        None
    }
}

// Returns whether the faults at these places explain a log, and no other fault does. Returns false if the function `matches` and the method
// `matches` of `compared` disagree on any fault. `compared` must belong to the same board.
fn only_these_explain(
    tested: Tested<'_>,
    log: &Log,
    compared: &ComparedLog<'_>,
    places: &[u64],
) -> bool
    requires plan { IsPlanOf tested.board.now tested.plan.now }
    requires passes { tested.plan.now.passes ≡ passes_of tested.board.now }
    requires universe { IsUniverse tested.board.now tested.universe.now }
    requires rows { length log.now ≡ length tested.plan.now.passes * tested.plan.now.width }
    requires bits { All (λ row. length row ≡ data_bits tested.board.now) log.now }
    requires same { compared.now.test.board ≡ tested.board.now }
{
    for place in 0..tested.universe.places() {
        match explains(tested, log, compared, place) {
            Some(found) if found == has(places, place) => (),
            _ => return false,
        }
    }
    true
}

// Returns whether the suspects are these places, in this order.
fn are_places(suspects: &Suspects, places: &[u64]) -> bool {
    let count = suspects.count();
    if count != places.len() as u64 {
        return false;
    }
    for (i, place) in places.iter().enumerate() {
        if count <= i as u64 || suspects.place(i as u64) != *place {
            return false;
        }
    }
    true
}

// Returns whether the faults are those at these places, in this order. `words` has the fault at each place of the universe, as `shown`
// writes it.
fn are_faults(
    alloc: Global,
    faults: &[Single],
    places: &[u64],
    words: &[&str],
) -> Result<bool, AllocError> {
    if faults.len() != places.len() {
        return Ok(false);
    }
    for (fault, place) in faults.iter().zip(places) {
        let found = shown(alloc, Some(*fault))?;
        if words.get(*place as usize).copied() != Some(found.as_str()) {
            return Ok(false);
        }
    }
    Ok(true)
}

// Returns whether the faults that explain a log are those of its row. Asks the functions that take a compared log.
fn is_compared(
    alloc: Global,
    tested: Tested<'_>,
    log: &Log,
    row: LogRow<'_>,
) -> Result<bool, AllocError>
    requires plan { IsPlanOf tested.board.now tested.plan.now }
    requires passes { tested.plan.now.passes ≡ passes_of tested.board.now }
    requires universe { IsUniverse tested.board.now tested.universe.now }
    requires rows { length log.now ≡ length tested.plan.now.passes * tested.plan.now.width }
    requires bits { All (λ row. length row ≡ data_bits tested.board.now) log.now }
{
    let compared = LoggedTest::of(tested.board, tested.plan, log).compared(alloc)?;
    let holds = only_these_explain(tested, log, &compared, row.wanted.explaining);
    Ok(holds)
}

// Returns whether three workers find the verdict of the row of a log. The universe in `tested` is not used.
fn is_judged(
    rt: &(impl Threads + Sync),
    alloc: Global,
    tested: Tested<'_>,
    log: &Log,
    row: LogRow<'_>,
) -> Result<bool, AllocError>
    requires plan { IsPlanOf tested.board.now tested.plan.now }
    requires passes { tested.plan.now.passes ≡ passes_of tested.board.now }
    requires rows { length log.now ≡ length tested.plan.now.passes * tested.plan.now.width }
    requires bits { All (λ row. length row ≡ data_bits tested.board.now) log.now }
{
    let test = BoardTest::of(tested.board, tested.plan).with_universe(alloc)?;
    let verdict = diagnose_in(rt, alloc, &test, log, Workers::of(3), &OpenGate);
    row.has_verdict(alloc, verdict)
}

// Checks the answers for a log against its row: whether the log passes, its suspects, the faults that `diagnose` finds with 1, 2 and 64
// workers, the faults that explain the log, and the verdict.
fn log_holds(
    rt: &(impl Threads + Sync),
    alloc: Global,
    tested: Tested<'_>,
    log: &Log,
    row: LogRow<'_>,
) -> Result<(), RowFault>
    requires plan { IsPlanOf tested.board.now tested.plan.now }
    requires passes { tested.plan.now.passes ≡ passes_of tested.board.now }
    requires universe { IsUniverse tested.board.now tested.universe.now }
    requires rows { length log.now ≡ length tested.plan.now.passes * tested.plan.now.width }
    requires bits { All (λ row. length row ≡ data_bits tested.board.now) log.now }
{
    let Tested {
        board,
        plan,
        universe,
    } = tested;
    row.expect(is_pass(board, plan, log) == row.wanted.passes)?;
    let suspects = Suspects::new(alloc, board, plan, universe, log)?;
    row.expect(row.has_suspects(suspects))?;
    for workers in [1u32, 2, 64] {
        let faults = diagnose(rt, alloc, board, plan, log, workers, &OpenGate)?;
        row.expect(row.has_diagnosis(alloc, faults)?)?;
    }
    row.expect(is_compared(alloc, tested, log, row)?)?;
    row.expect(is_judged(rt, alloc, tested, log, row)?)
}

fn read_log_holds(
    rt: &(impl Threads + Sync),
    alloc: Global,
    tested: Tested<'_>,
    row: LogRow<'_>,
) -> Result<(), RowFault>
    requires plan { IsPlanOf tested.board.now tested.plan.now }
    requires passes { tested.plan.now.passes ≡ passes_of tested.board.now }
    requires universe { IsUniverse tested.board.now tested.universe.now }
{
    let log = log_of(alloc, tested.board, tested.plan, row.wanted.log)?;
    let held = log_holds(rt, alloc, tested, &log, row);
    drop(log);
    held
}

fn tested_holds(
    rt: &(impl Threads + Sync),
    alloc: Global,
    tested: Tested<'_>,
    rows: &Rows,
) -> Result<(), RowFault>
    requires plan { IsPlanOf tested.board.now tested.plan.now }
    requires passes { tested.plan.now.passes ≡ passes_of tested.board.now }
    requires universe { IsUniverse tested.board.now tested.universe.now }
{
    expect("places", 0, has_places(alloc, tested, rows.places)?)?;
    for (number, wanted) in rows.logs.iter().enumerate() {
        let row = LogRow {
            rows,
            number,
            wanted,
        };
        read_log_holds(rt, alloc, tested, row)?;
    }
    Ok(())
}

fn planned_holds(
    rt: &(impl Threads + Sync),
    alloc: Global,
    board: &Board,
    plan: &Plan,
    rows: &Rows,
) -> Result<(), RowFault>
    requires plan { IsPlanOf board.now plan.now }
    requires passes { plan.now.passes ≡ passes_of board.now }
{
    let universe = Universe::new(alloc, board, plan)?;
    let tested = Tested {
        board,
        plan,
        universe: &universe,
    };
    let held = tested_holds(rt, alloc, tested, rows);
    drop(universe);
    held
}

fn board_holds(
    rt: &(impl Threads + Sync),
    alloc: Global,
    board: &Board,
    rows: &Rows,
) -> Result<(), RowFault> {
    let plan = plan_of(alloc, board)?;
    let held = planned_holds(rt, alloc, board, &plan, rows);
    drop(plan);
    held
}

fn rows_hold(rt: &(impl Threads + Sync), alloc: Global, rows: &Rows) -> Result<(), RowFault> {
    let board = board_of(alloc, rows.files)?;
    let held = board_holds(rt, alloc, &board, rows);
    drop(board);
    held
}

#[test]
fn faults_explain_the_logs_that_they_give(rt: HostRuntime) -> Result<(), RowFault> {
    for rows in &BOARDS {
        rows_hold(&rt, rt.alloc(), rows)?;
    }
    Ok(())
}
