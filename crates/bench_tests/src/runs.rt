// Tests with rows whose expected result is wrong. `run_bench` must report each such row, whatever part of the result is wrong.
use btest_cli::Status;
use run_bench::Text::Plain;
use run_bench::{
    Bench, CHAIN, Case, Change, DRV, Ending, Line, NETS, Row, RowFault, Rows, Run, SCANS, Table,
    Trouble, expect, sixty_devices_hold, tables_hold,
};
use std::alloc::Global;
use std::thread::Threads;

const COVER: &str = "cover c n drv rcv";

const SVF: &str = "svf c n drv rcv";

const WITHOUT_DRV: &str = "cover c n rcv";

const UNREAD: &str = "cover c n drv none";

const COVERED: Ending<'static> = Ending::Puts("NETS 2 COVERED 2\n");

const UNCOVERED: Ending<'static> = Ending::Puts("NETS 2 COVERED 1\n");

const NO_DRV: Ending<'static> = Ending::Refused("c line 1: entity not given\n");

const NOT_READ: Ending<'static> = Ending::NotRead("cannot read none\n");

// The scans of the board's test, without the last scan.
const FEW_SCANS: &str =
    "SIR 4 TDI (A) TDO (5) MASK (F);\nSDR 4 TDI (0);\nSIR 4 TDI (0) TDO (5) MASK (F);\n\
     SDR 4 TDI (4);\nSDR 4 TDI (8) TDO (1) MASK (3);\n";

// A command line, the right expected result of its run, the status of the run, and a wrong expected result.
type Wrong = (&'static str, Ending<'static>, Status, Ending<'static>);

static WRONG: [Wrong; 21] = [
    // Wrong output: a wrong byte, an extra line, a missing line, another wrong byte, a missing scan, no lines
    // around the scans, and a wrong length.
    (COVER, COVERED, Status::Done, UNCOVERED),
    (
        COVER,
        COVERED,
        Status::Done,
        Ending::Puts("NETS 2 COVERED 2\nNET N1 DARK\n"),
    ),
    (COVER, COVERED, Status::Done, Ending::Puts("")),
    (
        COVER,
        Ending::PutsAll(Plain("NETS 2 COVERED 2\n")),
        Status::Done,
        Ending::PutsAll(Plain("NETS 2 COVERED 1\n")),
    ),
    (
        SVF,
        Ending::Scans(SCANS),
        Status::Done,
        Ending::Scans(FEW_SCANS),
    ),
    (SVF, Ending::Scans(SCANS), Status::Done, Ending::Puts(SCANS)),
    (COVER, Ending::Long(17), Status::Done, Ending::Long(18)),
    // A wrong status. In the second of these rows, the output is right.
    (COVER, Ending::Done, Status::Done, Ending::Refused("")),
    (
        COVER,
        Ending::Done,
        Status::Done,
        Ending::NotPut("NETS 2 COVERED 2\n", ""),
    ),
    (COVER, Ending::Done, Status::Done, Ending::Usage),
    // A wrong refusal line, and no refusal line.
    (
        WITHOUT_DRV,
        NO_DRV,
        Status::Refused,
        Ending::Refused("c line 2: entity not given\n"),
    ),
    (WITHOUT_DRV, NO_DRV, Status::Refused, Ending::Refused("")),
    // A wrong status. In the first of these rows, the refusal line is right.
    (
        WITHOUT_DRV,
        NO_DRV,
        Status::Refused,
        Ending::NotRead("c line 1: entity not given\n"),
    ),
    (WITHOUT_DRV, NO_DRV, Status::Refused, Ending::Done),
    (WITHOUT_DRV, NO_DRV, Status::Refused, Ending::Puts("")),
    (WITHOUT_DRV, NO_DRV, Status::Refused, Ending::Long(0)),
    (WITHOUT_DRV, NO_DRV, Status::Refused, Ending::Usage),
    // A failed read: a wrong refusal line, no refusal line, and a wrong status.
    (
        UNREAD,
        NOT_READ,
        Status::ReadFault,
        Ending::NotRead("cannot read drv\n"),
    ),
    (UNREAD, NOT_READ, Status::ReadFault, Ending::NotRead("")),
    (
        UNREAD,
        NOT_READ,
        Status::ReadFault,
        Ending::Refused("cannot read none\n"),
    ),
    ("cover c", Ending::Usage, Status::Usage, Ending::Done),
];

// Runs a command line. Returns an error for row `row` unless the result is as `ending` says.
fn ends(
    rt: &(impl Threads + Sync),
    alloc: Global,
    row: usize,
    line: &str,
    ending: Ending,
) -> Result<(), RowFault> {
    let mut bench = Bench::with_board(alloc, CHAIN, NETS)?;
    bench.ends(rt, "endings", row, line, ending)
}

// Returns whether `found` reports this row of this table, with this status.
fn names(found: &Result<(), RowFault>, table: &str, row: usize, status: Status) -> bool {
    match found {
        Err(
            RowFault::Ended {
                table: name,
                row: number,
                status: own,
            },
        ) => *name == table && *number == row && *own == status,
        _ => false,
    }
}

fn is_noticed(
    rt: &(impl Threads + Sync),
    alloc: Global,
    row: usize,
    wrong: &Wrong,
) -> Result<(), RowFault> {
    let (line, right, status, other) = wrong;
    ends(rt, alloc, row, line, *right)?;
    let found = ends(rt, alloc, row, line, *other);
    expect(
        "endings that are noticed",
        row,
        names(&found, "endings", row, *status),
    )
}

#[test]
fn each_wrong_ending_is_noticed(rt: HostRuntime) -> Result<(), RowFault> {
    for (row, wrong) in WRONG.iter().enumerate() {
        is_noticed(&rt, rt.alloc(), row, wrong)?;
    }
    Ok(())
}

// A table, the number of the row whose expected result is wrong, and the status of that row's run.
type Failing = (Table, usize, Status);

fn is_named(rt: &(impl Threads + Sync), alloc: Global, failing: &Failing) -> bool {
    let (table, row, status) = failing;
    let found = tables_hold(rt, alloc, &[*table]);
    names(&found, table.name, *row, *status)
}

fn are_named(
    rt: &(impl Threads + Sync),
    alloc: Global,
    name: &'static str,
    tables: &[Failing],
) -> Result<(), RowFault> {
    for (row, failing) in tables.iter().enumerate() {
        expect(name, row, is_named(rt, alloc, failing))?;
    }
    Ok(())
}

const COVER_RUN: Row = Row {
    texts: &[],
    line: COVER,
    ending: COVERED,
};

const RUNS: [Row; 3] = [
    COVER_RUN,
    Row {
        texts: &[("n", Plain("NET N1 U1.1 U2.1\n"))],
        line: COVER,
        ending: Ending::Puts("NETS 1 COVERED 1\n"),
    },
    Row {
        texts: &[("n", Plain("NET N1 U1.1 U2.1\n"))],
        line: COVER,
        ending: COVERED,
    },
];

const LINES: [Line; 3] = [
    (COVER, COVERED),
    (WITHOUT_DRV, NO_DRV),
    (WITHOUT_DRV, COVERED),
];

const LOGS: [Line; 2] = [
    ("1\n2\n", Ending::Puts("PASS\n")),
    ("0\n2\n", Ending::Puts("PASS\n")),
];

const TEXTS: [Run; 2] = [
    (Plain(NETS), COVERED),
    (Plain("NET N1 U1.1 U2.1\n"), COVERED),
];

const WORDS: [(usize, Ending<'static>); 2] = [(1, COVERED), (2, COVERED)];

const ONE_WORD: [(usize, Ending<'static>); 1] = [(1, COVERED)];

static ROWS: [Failing; 6] = [
    (
        Table {
            name: "runs",
            texts: &[],
            rows: Rows::Runs(&RUNS),
        },
        2,
        Status::Done,
    ),
    (
        Table {
            name: "lines",
            texts: &[],
            rows: Rows::Lines(&LINES),
        },
        2,
        Status::Refused,
    ),
    (
        Table {
            name: "logs",
            texts: &[],
            rows: Rows::Logs("diagnose 1 g c n drv rcv", &LOGS),
        },
        1,
        Status::Done,
    ),
    (
        Table {
            name: "texts",
            texts: &[],
            rows: Rows::Texts(COVER, "n", &TEXTS),
        },
        1,
        Status::Done,
    ),
    (
        Table {
            name: "words",
            texts: &[],
            rows: Rows::Words(&["cover c n drv"], " rcv", &WORDS),
        },
        1,
        Status::Refused,
    ),
    // Only the first command line has the expected result.
    (
        Table {
            name: "command lines",
            texts: &[],
            rows: Rows::Words(&["cover c n drv", "cover c n"], " rcv", &ONE_WORD),
        },
        1,
        Status::Refused,
    ),
];

#[test]
fn a_row_behind_the_first_is_named(rt: HostRuntime) -> Result<(), RowFault> {
    are_named(&rt, rt.alloc(), "rows", &ROWS)
}

const CHANGES: [Change; 2] = [
    ("SAMPLE (10)", "SAMPLE (12)", ": INSTRUCTION_OPCODE entry 3"),
    ("SAMPLE (10)", "SAMPLE (12)", ": INSTRUCTION_OPCODE entry 2"),
];

const BOARDS: [Case; 2] = [
    ("", NETS, "drv rcv", "c: no part in the chain\n"),
    (CHAIN, NETS, "rcv", "c line 2: entity not given\n"),
];

const COMMANDS: [&str; 2] = ["cover c", "cover c n"];

static REFUSALS: [Failing; 3] = [
    (
        Table {
            name: "devices",
            texts: &[],
            rows: Rows::Devices(DRV, &CHANGES),
        },
        1,
        Status::Refused,
    ),
    (
        Table {
            name: "boards",
            texts: &[],
            rows: Rows::Boards(&BOARDS),
        },
        1,
        Status::Refused,
    ),
    (
        Table {
            name: "commands",
            texts: &[],
            rows: Rows::NoCommands(&COMMANDS),
        },
        1,
        Status::ReadFault,
    ),
];

#[test]
fn a_wrong_refusal_is_named(rt: HostRuntime) -> Result<(), RowFault> {
    are_named(&rt, rt.alloc(), "refusals", &REFUSALS)
}

const READS: [(Trouble, Row); 2] = [
    (
        Trouble::Read(1),
        Row {
            texts: &[],
            line: COVER,
            ending: Ending::NotRead("cannot read c\n"),
        },
    ),
    (
        Trouble::Read(2),
        Row {
            texts: &[],
            line: COVER,
            ending: Ending::NotRead("cannot read c\n"),
        },
    ),
];

const PUTS: [(Trouble, Row); 2] = [
    (
        Trouble::Put(1, 5),
        Row {
            texts: &[],
            line: COVER,
            ending: Ending::NotPut("NETS ", "cannot write\n"),
        },
    ),
    (
        Trouble::Put(1, 5),
        Row {
            texts: &[],
            line: COVER,
            ending: Ending::NotPut("NETS", "cannot write\n"),
        },
    ),
];

const LINES_OF_PUTS: [(Trouble, Row); 2] = [
    (
        Trouble::Put(1, 5),
        Row {
            texts: &[],
            line: COVER,
            ending: Ending::NotPut("NETS ", "cannot write\n"),
        },
    ),
    (
        Trouble::Put(1, 5),
        Row {
            texts: &[],
            line: COVER,
            ending: Ending::NotPut("NETS ", ""),
        },
    ),
];

const OUTS: [(Trouble, Row); 2] = [
    (
        Trouble::Out(17),
        Row {
            texts: &[],
            line: COVER,
            ending: COVERED,
        },
    ),
    (
        Trouble::Out(4),
        Row {
            texts: &[],
            line: COVER,
            ending: COVERED,
        },
    ),
];

const NOTES: [(Trouble, Row); 2] = [
    (
        Trouble::Notes(3),
        Row {
            texts: &[],
            line: WITHOUT_DRV,
            ending: Ending::Refused("c l"),
        },
    ),
    (
        Trouble::Notes(3),
        Row {
            texts: &[],
            line: WITHOUT_DRV,
            ending: NO_DRV,
        },
    ),
];

static TROUBLES: [Failing; 5] = [
    (
        Table {
            name: "reads",
            texts: &[],
            rows: Rows::Failing(&READS),
        },
        1,
        Status::ReadFault,
    ),
    (
        Table {
            name: "puts",
            texts: &[],
            rows: Rows::Failing(&PUTS),
        },
        1,
        Status::WriteFault,
    ),
    (
        Table {
            name: "lines of puts",
            texts: &[],
            rows: Rows::Failing(&LINES_OF_PUTS),
        },
        1,
        Status::WriteFault,
    ),
    (
        Table {
            name: "standard output",
            texts: &[],
            rows: Rows::Failing(&OUTS),
        },
        1,
        Status::WriteFault,
    ),
    (
        Table {
            name: "standard error",
            texts: &[],
            rows: Rows::Failing(&NOTES),
        },
        1,
        Status::Refused,
    ),
];

#[test]
fn what_a_trouble_leaves_is_compared(rt: HostRuntime) -> Result<(), RowFault> {
    are_named(&rt, rt.alloc(), "troubles", &TROUBLES)
}

// A command line that is not valid. Standard error takes only a part of the usage line, so the expected result is wrong.
const CUT: [(Trouble, Row); 1] = [(
    Trouble::Notes(3),
    Row {
        texts: &[],
        line: "cover c",
        ending: Ending::Usage,
    },
)];

static OTHERS: [Failing; 3] = [
    (
        Table {
            name: "a line that is cut",
            texts: &[],
            rows: Rows::Failing(&CUT),
        },
        0,
        Status::Usage,
    ),
    (
        Table {
            name: "texts of the table",
            texts: &[("n", Plain("NET N1 U1.1 U2.1\n"))],
            rows: Rows::Lines(&[(COVER, COVERED)]),
        },
        0,
        Status::Done,
    ),
    (
        Table {
            name: "logs of a table",
            texts: &[],
            rows: Rows::Logs("groups g c n drv rcv", &[("1\n2\n", COVERED)]),
        },
        0,
        Status::Done,
    ),
];

#[test]
fn a_row_alone_is_compared(rt: HostRuntime) -> Result<(), RowFault> {
    are_named(&rt, rt.alloc(), "rows alone", &OTHERS)
}

static TWO_TABLES: [Table; 2] = [
    Table {
        name: "a table that holds",
        texts: &[],
        rows: Rows::Lines(&[(COVER, COVERED)]),
    },
    Table {
        name: "a table that does not hold",
        texts: &[],
        rows: Rows::Lines(&[(COVER, UNCOVERED)]),
    },
];

#[test]
fn each_table_is_tried(rt: HostRuntime) -> Result<(), RowFault> {
    let found = tables_hold(&rt, rt.alloc(), &TWO_TABLES);
    let named = names(&found, "a table that does not hold", 0, Status::Done);
    expect("tables", 0, named)
}

static GENERATED: [Line; 2] = [
    ("cover c n gen", Ending::Puts("NETS 1928 COVERED 1928\n")),
    ("cover c n gen", Ending::Puts("NETS 1928 COVERED 1927\n")),
];

#[test]
fn each_line_of_sixty_devices_is_tried(rt: HostRuntime) -> Result<(), RowFault> {
    let found = sixty_devices_hold(&rt, rt.alloc(), "", &GENERATED);
    expect(
        "60 devices",
        1,
        names(&found, "60 devices", 1, Status::Done),
    )
}

// Returns whether `found` is the error that `expect` returns for this row of this table.
fn is_other(found: &Result<(), RowFault>, table: &str, row: usize) -> bool {
    match found {
        Err(
            RowFault::Other {
                table: name,
                row: number,
            },
        ) => *name == table && *number == row,
        _ => false,
    }
}

#[test]
fn a_row_that_gives_something_else_is_named(_rt: HostRuntime) -> Result<(), RowFault> {
    expect("a row that holds", 0, true)?;
    let found = expect("a row", 3, false);
    expect("rows that are named", 0, is_other(&found, "a row", 3))
}
