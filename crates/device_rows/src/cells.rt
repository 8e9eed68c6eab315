// Table-driven tests of the command `device`. The texts break a rule on the entries of the boundary-scan register.
use run_bench::{BI, Change, DRV, RCV, RCV1, RowFault, Rows, Table, tables_hold};

// The part of `DRV` from the number of its cells to the beginning of the second entry.
const TWO_CELLS: &str =
    "2;\nattribute BOUNDARY_REGISTER of DRV : entity is\n\"0 (BC_1, Q(1), output2, X),\" &\n\"1 (BC";

// A BIDIR entry without a control, and entries with a control that must not have one.
const CONTROLS: [Change; 6] = [
    ("Q(2), output2, X", "Q(2), bidir, X", ": rule V10 item 2"),
    (
        "Q(2), output2, X",
        "Q(2), clock, X, 1, 1, Z",
        ": rule V10 item 2",
    ),
    (
        "Q(2), output2, X",
        "Q(2), observe_only, X, 1, 1, Z",
        ": rule V10 item 2",
    ),
    (
        "Q(2), output2, X",
        "*, control, X, 1, 1, Z",
        ": rule V10 item 2",
    ),
    (
        "Q(2), output2, X",
        "*, controlr, X, 1, 1, Z",
        ": rule V10 item 2",
    ),
    (
        "Q(2), output2, X",
        "*, internal, X, 1, 1, Z",
        ": rule V10 item 2",
    ),
];

// Cell 0 has two entries that take their value from its update latch. One is an OUTPUT2 entry. The other is a CONTROL, CONTROLR or INTERNAL
// entry.
const DRIVEN_TWICE: [Change; 3] = [
    (
        TWO_CELLS,
        "1;\nattribute BOUNDARY_REGISTER of DRV : entity is\n\"0 (BC_1, *, control, X),\" &\n\"0 (BC",
        ": rule V12 item 0",
    ),
    (
        TWO_CELLS,
        "1;\nattribute BOUNDARY_REGISTER of DRV : entity is\n\"0 (BC_1, *, controlr, X),\" &\n\"0 (BC",
        ": rule V12 item 0",
    ),
    (
        TWO_CELLS,
        "1;\nattribute BOUNDARY_REGISTER of DRV : entity is\n\"0 (BC_1, *, internal, X),\" &\n\"0 (BC",
        ": rule V12 item 0",
    ),
];

// A BIDIR entry both reads its pin and takes its value from the cell's update latch. So the cell must have neither an INPUT nor a CONTROL
// entry.
const CELLS_OF_BOTH_WAYS: [Change; 2] = [
    (
        "control, 1)\"",
        "control, 1), 0 (BC_1, B, input, X)\"",
        ": rule V12 item 0",
    ),
    (
        "control, 1)\"",
        "control, 1), 0 (BC_1, *, control, 1)\"",
        ": rule V12 item 0",
    ),
];

const CELLS: [Change; 19] = [
    (
        "BOUNDARY_LENGTH of DRV : entity is 2",
        "BOUNDARY_LENGTH of DRV : entity is 3",
        ": rule V8 item 2",
    ),
    (
        "BOUNDARY_LENGTH of DRV : entity is 2",
        "BOUNDARY_LENGTH of DRV : entity is 4",
        ": rule V8 item 2",
    ),
    (
        "\"0 (BC_1, Q(1), output2, X),\" &\n\"1 (",
        "\"5 (BC_1, Q(1), output2, X),\" &\n\"4 (",
        ": rule V8 item 5",
    ),
    ("\"1 (BC_1", "\"2 (BC_1", ": rule V8 item 2"),
    ("Q(2), output2, X", "Q, output2, X", ": rule V9 item 2"),
    ("Q(2), output2, X", "Q(3), output2, X", ": rule V9 item 2"),
    ("Q(1), output2, X", "*, output2, X", ": rule V9 item 1"),
    ("Q(1), output2, X", "Q(1), control, X", ": rule V9 item 1"),
    ("Q(1), output2, X", "Q(1), internal, X", ": rule V9 item 1"),
    ("Q(1), output2, X", "R(1), output2, X", ": rule V9 item 1"),
    ("Q(2), output2, X", "Q(2), output3, X", ": rule V10 item 2"),
    (
        "Q(2), output2, X",
        "Q(2), output2, X, 0, 1, Z",
        ": rule V10 item 2",
    ),
    (
        "Q(2), output2, X",
        "Q(2), input, X, 1, 1, Z",
        ": rule V10 item 2",
    ),
    (
        "2;\nattribute BOUNDARY_REGISTER of DRV : entity is\n\"0 (BC_1, Q(1), output2, X),\" &\n\"1 (BC_1, Q(2), output2, X)\"",
        "3;\nattribute BOUNDARY_REGISTER of DRV : entity is\n\"0 (BC_1, Q(1), output3, X, 2, 1, Z),\" &\n\"1 (BC_1, Q(2), output3, X, 2, 0, Z), 2 (BC_1, *, control, 1)\"",
        ": rule V11 item 2",
    ),
    (
        "2;\nattribute BOUNDARY_REGISTER of DRV : entity is\n\"0 (BC_1, Q(1), output2, X),\" &\n\"1 (BC",
        "1;\nattribute BOUNDARY_REGISTER of DRV : entity is\n\"0 (BC_1, Q(1), output2, X),\" &\n\"0 (BC",
        ": rule V12 item 0",
    ),
    ("Q(2), output2, X", "Q(1), output2, X", ": rule V13 item 2"),
    ("Q : out", "Q : linkage", ": rule V14 item 1"),
    ("Q(2), output2, X", "TDI, input, X", ": rule V14 item 2"),
    ("Q(2), output2, X", "TDO, output2, X", ": rule V14 item 2"),
];

// The part of `RCV` from the number of its cells to the beginning of the second entry.
const TWO_READERS: &str =
    "2;\nattribute BOUNDARY_REGISTER of RCV : entity is\n\"0 (BC_1, D(1), input, X),\" &\n\"1 (BC";

const CELLS_OF_A_RECEIVER: [Change; 6] = [
    ("D(1), input, X", "D(1), output2, X", ": rule V14 item 1"),
    // Both entries break rule V14, and the second entry also breaks rule V13. btest checks rule V13 first.
    (
        "D(1), input, X),\" &\n\"1 (BC_1, D(2), input, X",
        "D(1), output2, X),\" &\n\"1 (BC_1, D(1), output2, X",
        ": rule V13 item 2",
    ),
    (
        TWO_READERS,
        "1;\nattribute BOUNDARY_REGISTER of RCV : entity is\n\"0 (BC_1, D(1), input, X),\" &\n\"0 (BC",
        ": rule V12 item 0",
    ),
    (
        TWO_READERS,
        "1;\nattribute BOUNDARY_REGISTER of RCV : entity is\n\"0 (BC_1, D(1), clock, X),\" &\n\"0 (BC",
        ": rule V12 item 0",
    ),
    (
        TWO_READERS,
        "1;\nattribute BOUNDARY_REGISTER of RCV : entity is\n\"0 (BC_1, D(1), observe_only, X),\" &\n\"0 (BC",
        ": rule V12 item 0",
    ),
    (
        TWO_READERS,
        "1;\nattribute BOUNDARY_REGISTER of RCV : entity is\n\"0 (BC_1, *, internal, X),\" &\n\"0 (BC",
        ": rule V12 item 0",
    ),
];

const CELLS_OF_A_BIT: [Change; 1] = [("D, input, X", "D(0), input, X", ": rule V9 item 1")];

static RULE_TABLES: [Table; 3] = [
    Table {
        name: "cells keep their rules",
        texts: &[],
        rows: Rows::Devices(DRV, &CELLS),
    },
    Table {
        name: "cells of a receiver keep their rules",
        texts: &[],
        rows: Rows::Devices(RCV, &CELLS_OF_A_RECEIVER),
    },
    Table {
        name: "cells of a bit keep their rules",
        texts: &[],
        rows: Rows::Devices(RCV1, &CELLS_OF_A_BIT),
    },
];

#[test]
fn cells_keep_their_rules(rt: HostRuntime) -> Result<(), RowFault> {
    tables_hold(&rt, rt.alloc(), &RULE_TABLES)
}

static FUNCTION_TABLES: [Table; 3] = [
    Table {
        name: "an entry has a control exactly if its function needs or allows one",
        texts: &[],
        rows: Rows::Devices(DRV, &CONTROLS),
    },
    Table {
        name: "a cell has at most one driven entry",
        texts: &[],
        rows: Rows::Devices(DRV, &DRIVEN_TWICE),
    },
    Table {
        name: "a cell with a BIDIR entry has no other entry that is read or driven",
        texts: &[],
        rows: Rows::Devices(BI, &CELLS_OF_BOTH_WAYS),
    },
];

#[test]
fn entries_have_what_their_functions_allow(rt: HostRuntime) -> Result<(), RowFault> {
    tables_hold(&rt, rt.alloc(), &FUNCTION_TABLES)
}
