// Tests of the plans and the walking tests of small boards. They compare the TDI, TDO and MASK bits of each scan. In each row of a walking
// test, one of the test's nets carries 1 and the other nets carry 0. The scans are worked out by hand from the definitions.
ghost use Rattle.std.specs.Prelude.{◌≡◌, ◌<◌, IfOk};
ghost use Rattle.board_defs.specs.Passes.{passes_of};
ghost use Rattle.scan_planner.specs.Plans.{IsPlanOf, IsRoom, scan_count};
ghost use Rattle.walk_test.specs.Tables.{IsWalkOf, count_walk_scans as walk_scan_count};

use crate::boards::{Files, PAIR, PULLED, board_of};
use board_defs::law::terms_decided;
use board_defs::{Board, Setting};
use bt_bits::Row;
use btest_core::plan_by;
use driver_passes::passes;
use net_classes::classify;
use net_pins::{NetPins, PinTables};
use run_bench::{RowFault, expect};
use scan_planner::Plan;
use scan_planner::law::useful_planned;
use std::alloc::{AllocError, Global};
use tap_defs::Shape;
use walk_test::Walk;

// A scan. Bit 0 of TDI, TDO and MASK belongs to the cell nearest TDO.
#[derive(Clone, Copy)]
enum Scan {
    // An instruction scan with these bits for TDI, TDO and MASK.
    Codes(u64, u64, u64),
    // A data scan with these bits for TDI. It compares nothing.
    Shifts(u64),
    // A data scan with these bits for TDI, TDO and MASK.
    Compares(u64, u64, u64),
}

// The rows of a scan.
#[derive(Drop)]
struct ScanBits {
    tdi: Row,
    tdo: Row,
    mask: Row,
}

// The way in which a plan is made.
#[derive(Clone, Copy)]
enum Making {
    // The plan is made from the passes of the board.
    Passes,
    // `plan_by` makes the plan from the tables of the nets' pins.
    Pins,
    // The plan is made from an empty list of passes.
    Nothing,
}

// A board, the way in which its plan is made, and the expected codes, rows and scans of the plan.
struct Planned {
    name: &'static str,
    files: Files,
    making: Making,
    // Pairs of the number of a net and the net's code.
    codes: &'static [(u32, u32)],
    rows: u64,
    scans: &'static [Scan],
}

const PAIR_SCANS: [Scan; 6] = [
    Scan::Codes(0xA, 0x5, 0xF),
    Scan::Shifts(0),
    Scan::Codes(0x0, 0x5, 0xF),
    Scan::Shifts(0x4),
    Scan::Compares(0x8, 0x1, 0x3),
    Scan::Compares(0x0, 0x2, 0x3),
];

const QUIET_SCANS: [Scan; 3] = [
    Scan::Codes(0xA, 0x5, 0xF),
    Scan::Shifts(0),
    Scan::Codes(0x0, 0x5, 0xF),
];

const PULLED_SCANS: [Scan; 6] = [
    Scan::Codes(0xA, 0x5, 0xF),
    Scan::Shifts(0x2),
    Scan::Codes(0x0, 0x5, 0xF),
    Scan::Shifts(0x2),
    Scan::Compares(0x0, 0x1, 0x1),
    Scan::Compares(0x2, 0x0, 0x1),
];

const BUS: Files = Files {
    chain: "DEVICE U1 TS -\nDEVICE U2 TS -\nDEVICE U3 RCV1 -\n",
    nets: "NET BUS U1.1 U2.1 U3.1\n",
};

const BUS_SCANS: [Scan; 9] = [
    Scan::Codes(0x2A, 0x15, 0x3F),
    Scan::Shifts(0x14),
    Scan::Codes(0x00, 0x15, 0x3F),
    Scan::Shifts(0x0C),
    Scan::Compares(0x04, 0x01, 0x01),
    Scan::Compares(0x14, 0x00, 0x01),
    Scan::Shifts(0x12),
    Scan::Compares(0x10, 0x01, 0x01),
    Scan::Compares(0x14, 0x00, 0x01),
];

static PLANS: [Planned; 5] = [
    Planned {
        name: "the plan of a driver and a receiver",
        files: PAIR,
        making: Making::Passes,
        codes: &[(0, 1), (1, 2)],
        rows: 2,
        scans: &PAIR_SCANS,
    },
    Planned {
        name: "a plan without a pass",
        files: PAIR,
        making: Making::Nothing,
        codes: &[(0, 0), (1, 0)],
        rows: 0,
        scans: &QUIET_SCANS,
    },
    Planned {
        name: "the plan of a net that is pulled up",
        files: PULLED,
        making: Making::Passes,
        codes: &[(0, 1), (1, 0)],
        rows: 2,
        scans: &PULLED_SCANS,
    },
    Planned {
        name: "the plan of a bus",
        files: BUS,
        making: Making::Passes,
        codes: &[(0, 1), (1, 0)],
        rows: 4,
        scans: &BUS_SCANS,
    },
    Planned {
        name: "the plan of a bus by its pins",
        files: BUS,
        making: Making::Pins,
        codes: &[(0, 1), (1, 0)],
        rows: 4,
        scans: &BUS_SCANS,
    },
];

// Returns the bits of a row as a number, or 2^64 - 1 if the number is larger. Bit 0 of the row is the least significant bit.
fn number(row: &Row) -> u64 {
    let count = row.len();
    let mut number = 0u64;
    for i in 0..count {
        let bit = if row.get(count - 1 - i) { 1 } else { 0 };
        number = number.saturating_mul(2).saturating_add(bit);
    }
    number
}

// Returns the number of bits of an instruction scan or of a data scan of the board, whichever is longer.
fn longest_scan(board: &Board) -> u32
    ensures { IsRoom board.now result }
{
    board.ir_bits().max(board.dr_bits())
}

// Returns empty rows with room for each scan of the board.
fn empty_rows(alloc: Global, board: &Board) -> Result<ScanBits, AllocError>
    ensures tdi { IfOk result (λ rows. IsRoom board.now rows.tdi.room) }
    ensures tdo { IfOk result (λ rows. IsRoom board.now rows.tdo.room) }
    ensures mask { IfOk result (λ rows. IsRoom board.now rows.mask.room) }
{
    let room = longest_scan(board);
    let tdi = Row::with_room(alloc, room)?;
    let tdo = Row::with_room(alloc, room)?;
    let mask = Row::with_room(alloc, room)?;
    Ok(ScanBits { tdi, tdo, mask })
}

// Returns whether a scan with this shape and these rows is `scan`.
fn is_scan(shape: Shape, rows: &ScanBits, scan: Scan) -> bool {
    let (ir, compare, bits) = match scan {
        Scan::Codes(tdi, tdo, mask) => (true, true, (tdi, tdo, mask)),
        Scan::Shifts(tdi) => (false, false, (tdi, 0, 0)),
        Scan::Compares(tdi, tdo, mask) => (false, true, (tdi, tdo, mask)),
    };
    let found = (number(&rows.tdi), number(&rows.tdo), number(&rows.mask));
    shape.ir == ir && shape.compare == compare && found == bits
}

// Returns whether scan `k` of the board's plan is the scan `wanted`. `k` must be below the number of scans.
fn scan_is(
    alloc: Global,
    board: &Board,
    plan: &Plan,
    k: u64,
    wanted: Scan,
) -> Result<bool, AllocError>
    requires plan { IsPlanOf board.now plan.now }
    requires scan { k < scan_count plan.now }
{
    let mut rows = empty_rows(alloc, board)?;
    let shape = plan.fill(board, k, &mut rows.tdi, &mut rows.tdo, &mut rows.mask);
    Ok(is_scan(shape, &rows, wanted))
}

// Returns whether the plan gives these codes to these nets.
fn has_codes(plan: &Plan, codes: &[(u32, u32)]) -> bool {
    codes.iter().all(|(net, code)| plan.code(*net) == *code)
}

// Checks the codes, the number of rows and the scans of the board's plan.
fn plan_holds(alloc: Global, board: &Board, plan: &Plan, wanted: &Planned) -> Result<(), RowFault>
    requires { IsPlanOf board.now plan.now }
{
    let count = plan.scans();
    expect("codes", 0, has_codes(plan, wanted.codes))?;
    expect("rows of a log", 0, plan.rows() == wanted.rows)?;
    expect("scans", 0, count == wanted.scans.len() as u64)?;
    for (k, scan) in wanted.scans.iter().enumerate() {
        if (k as u64) < count {
            expect(
                wanted.name,
                k,
                scan_is(alloc, board, plan, k as u64, *scan)?,
            )?;
        }
    }
    Ok(())
}

// Returns the passes of a board.
fn passes_of_board(alloc: Global, board: &Board) -> Result<Vec<Setting>, AllocError>
    ensures { IfOk result (λ passes. passes.items ≡ passes_of board.now) }
{
    let classes = classify(alloc, board)?;
    let found = passes(alloc, board, &classes)?;
    Ok(found)
}

// Returns the plan of the board's passes.
fn new_plan(alloc: Global, board: &Board) -> Result<Plan, AllocError>
    ensures { IfOk result (λ plan. IsPlanOf board.now plan) }
{
    let _rules = board.raw();
    useful_planned();
    terms_decided();
    let classes = classify(alloc, board)?;
    let passes = passes(alloc, board, &classes)?;
    let plan = Plan::new(alloc, board, passes)?;
    Ok(plan)
}

// Like `new_plan`, but calls `plan_by` with the tables of the nets' pins.
fn plan_by_pins(alloc: Global, board: &Board) -> Result<Plan, AllocError>
    ensures { IfOk result (λ plan. IsPlanOf board.now plan) }
{
    let classes = classify(alloc, board)?;
    let tables = PinTables::new(alloc, board)?;
    let pins = NetPins::of(alloc, board, tables)?;
    let plan = plan_by(alloc, board, pins, &classes)?;
    Ok(plan)
}

// Returns a plan that has no passes.
fn empty_plan(alloc: Global, board: &Board) -> Result<Plan, AllocError>
    ensures { IfOk result (λ plan. IsPlanOf board.now plan) }
{
    let plan = Plan::new(alloc, board, Vec::new(alloc))?;
    Ok(plan)
}

// Returns the plan that is made in this way.
fn made_plan(alloc: Global, board: &Board, making: Making) -> Result<Plan, AllocError>
    ensures { IfOk result (λ plan. IsPlanOf board.now plan) }
{
    match making {
        Making::Passes => new_plan(alloc, board),
        Making::Pins => plan_by_pins(alloc, board),
        Making::Nothing => empty_plan(alloc, board),
    }
}

fn made_plan_holds(alloc: Global, board: &Board, wanted: &Planned) -> Result<(), RowFault> {
    let plan = made_plan(alloc, board, wanted.making)?;
    let held = plan_holds(alloc, board, &plan, wanted);
    drop(plan);
    held
}

fn planned_holds(alloc: Global, wanted: &Planned) -> Result<(), RowFault> {
    let board = board_of(alloc, wanted.files)?;
    let held = made_plan_holds(alloc, &board, wanted);
    drop(board);
    held
}

#[test]
fn plans_make_the_scans_of_a_board(rt: HostRuntime) -> Result<(), RowFault> {
    for wanted in &PLANS {
        planned_holds(rt.alloc(), wanted)?;
    }
    Ok(())
}

// A board, and the expected nets and scans of its walking test.
struct Walked {
    name: &'static str,
    files: Files,
    nets: &'static [u32],
    scans: &'static [Scan],
}

const DRIVERS: Files = Files {
    chain: "DEVICE U1 DRV -\nDEVICE U2 DRV -\nDEVICE U3 RCV -\nDEVICE U4 RCV -\n",
    nets: "NET N1 U1.1 U3.1\nNET N2 U1.2 U3.2\nNET N3 U2.1 U4.1\n",
};

const DRIVERS_SCANS: [Scan; 7] = [
    Scan::Codes(0xAA, 0x55, 0xFF),
    Scan::Shifts(0x00),
    Scan::Codes(0x00, 0x55, 0xFF),
    Scan::Shifts(0x40),
    Scan::Compares(0x80, 0x04, 0x0D),
    Scan::Compares(0x10, 0x08, 0x0D),
    Scan::Compares(0x00, 0x01, 0x0D),
];

// A board without a driver. Its test has no pass.
const RECEIVER: Files = Files {
    chain: "DEVICE U2 RCV -\n",
    nets: "NET N1 U2.1\n",
};

const RECEIVER_SCANS: [Scan; 3] = [
    Scan::Codes(0x2, 0x1, 0x3),
    Scan::Shifts(0),
    Scan::Codes(0x0, 0x1, 0x3),
];

static WALKS: [Walked; 2] = [
    Walked {
        name: "the walk of two drivers",
        files: DRIVERS,
        nets: &[0, 1, 2],
        scans: &DRIVERS_SCANS,
    },
    Walked {
        name: "the walk of a receiver alone",
        files: RECEIVER,
        nets: &[],
        scans: &RECEIVER_SCANS,
    },
];

// Returns whether scan `k` of the board's walking test is the scan `wanted`. `k` must be below the number of scans.
fn walk_scan_is(
    alloc: Global,
    board: &Board,
    walk: &Walk,
    k: u64,
    wanted: Scan,
) -> Result<bool, AllocError>
    requires walk { IsWalkOf board.now walk.now }
    requires scan { k < walk_scan_count walk.now }
{
    let mut rows = empty_rows(alloc, board)?;
    let shape = walk.fill(board, k, &mut rows.tdi, &mut rows.tdo, &mut rows.mask);
    Ok(is_scan(shape, &rows, wanted))
}

// Checks the nets and the scans of the board's walking test.
fn walk_holds(alloc: Global, board: &Board, walk: &Walk, wanted: &Walked) -> Result<(), RowFault>
    requires { IsWalkOf board.now walk.now }
{
    let count = walk.scans();
    expect("walk nets", 0, walk.nets() == wanted.nets)?;
    expect("scans of a walk", 0, count == wanted.scans.len() as u64)?;
    for (k, scan) in wanted.scans.iter().enumerate() {
        if (k as u64) < count {
            expect(
                wanted.name,
                k,
                walk_scan_is(alloc, board, walk, k as u64, *scan)?,
            )?;
        }
    }
    Ok(())
}

// Returns the walking test of a board.
fn new_walk(alloc: Global, board: &Board) -> Result<Walk, AllocError>
    ensures { IfOk result (λ walk. IsWalkOf board.now walk) }
{
    let passes = passes_of_board(alloc, board)?;
    let walk = Walk::new(alloc, board, &passes)?;
    Ok(walk)
}

fn new_walk_holds(alloc: Global, board: &Board, wanted: &Walked) -> Result<(), RowFault> {
    let walk = new_walk(alloc, board)?;
    let held = walk_holds(alloc, board, &walk, wanted);
    drop(walk);
    held
}

fn walked_holds(alloc: Global, wanted: &Walked) -> Result<(), RowFault> {
    let board = board_of(alloc, wanted.files)?;
    let held = new_walk_holds(alloc, &board, wanted);
    drop(board);
    held
}

#[test]
fn walks_make_the_scans_of_a_board(rt: HostRuntime) -> Result<(), RowFault> {
    for wanted in &WALKS {
        walked_holds(rt.alloc(), wanted)?;
    }
    Ok(())
}
