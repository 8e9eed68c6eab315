//! Tests of contents of BSDL texts that break a rule, and of the devices that contents without faults describe.
use device_bench::{CaseFault, Change, draft_holds, orders_hold, rules_hold};

static PORTS_AND_PINS: [(Change, (u32, u32)); 20] = [
    (Change::None, (0, 0)),
    (Change::Range(2, 1, true), (2, 5)),
    (Change::Range(1, 2, false), (2, 5)),
    (Change::Range(0, 65531, true), (2, 5)),
    (Change::ScanOut("Q"), (3, 3)),
    (Change::ScanOut("TMS"), (3, 3)),
    (Change::Clock("TDI"), (3, 5)),
    (Change::Clock("TC"), (3, 5)),
    (Change::Reset("TMS"), (3, 11)),
    (Change::Compliance("(Q) (1)"), (3, 13)),
    (Change::Compliance("(Q(3)) (1)"), (3, 13)),
    (Change::Compliance("(TDI(0)) (1)"), (3, 13)),
    (Change::Compliance("(Q(1), TDI, Q(1)) (10X, 10)"), (3, 13)),
    (Change::Compliance("(Q(1), TDI, Q(1)) (10X, 101)"), (0, 0)),
    (Change::Map("TDI:T1, Q:(1,1)"), (4, 2)),
    (Change::Map("TDI:T1, Q:(T1,2)"), (4, 2)),
    (Change::Map("Q:(1,2), TDI:T1, R:T2"), (4, 3)),
    (Change::Map("Q:(1,2), TDI:T1, Q:(3,4)"), (4, 3)),
    (Change::Map("Q:1"), (4, 1)),
    (Change::Map("TDI:T1"), (0, 0)),
];

#[test]
fn ports_taps_and_pins(rt: HostRuntime) -> Result<(), CaseFault> {
    rules_hold(rt.alloc(), &PORTS_AND_PINS)
}

static INSTRUCTIONS: [(Change, (u32, u32)); 20] = [
    (Change::Opcodes("SAMPLE (100)"), (5, 1)),
    (Change::Opcodes("SAMPLE (10), EXTEST (00, 0)"), (5, 2)),
    (Change::Opcodes("SAMPLE (10), SAMPLE (10)"), (5, 2)),
    (Change::Opcodes("EXTEST (00)"), (6, 1)),
    (Change::Opcodes("SAMPLE (11)"), (6, 1)),
    (Change::Opcodes("SAMPLE (0X, 10)"), (6, 1)),
    (Change::Opcodes("SAMPLE (10, 11)"), (0, 0)),
    (Change::Opcodes("SAMPLE (10), EXTEST (01)"), (6, 2)),
    (Change::Opcodes("SAMPLE (10), EXTEST (01, X0)"), (0, 0)),
    (Change::Opcodes("SAMPLE (10), BYPASS (10)"), (6, 3)),
    // BYPASS needs only one correct code, and X matches any bit.
    (Change::Opcodes("SAMPLE (10), BYPASS (10, 11)"), (0, 0)),
    (Change::Opcodes("SAMPLE (10), BYPASS (1X)"), (0, 0)),
    (Change::Of2001("SAMPLE (10)"), (6, 2)),
    (Change::Of2001("PRELOAD (11), SAMPLE (10)"), (6, 1)),
    (Change::Of2001("PRELOAD (00), EXTEST (0X)"), (6, 2)),
    (Change::Of2001("PRELOAD (00), EXTEST (01)"), (0, 0)),
    // If PRELOAD is listed, the preload code is the code of PRELOAD, so the code of SAMPLE may be all ones.
    (
        Change::Of2001("SAMPLE (11), PRELOAD (00), EXTEST (01)"),
        (0, 0),
    ),
    (Change::Capture("10"), (7, 1)),
    (Change::Capture("001"), (7, 1)),
    (Change::Idcode("01"), (7, 2)),
];

#[test]
fn instructions_and_patterns(rt: HostRuntime) -> Result<(), CaseFault> {
    rules_hold(rt.alloc(), &INSTRUCTIONS)
}

static ENTRIES: [(Change, (u32, u32)); 16] = [
    (
        Change::Entries(3, "0 (B, Q(1), output2, X), 1 (B, Q(2), output2, X)"),
        (8, 2),
    ),
    (
        Change::Entries(1, "9 (B, Q(1), output2, X), 7 (B, Q(2), output2, X)"),
        (8, 9),
    ),
    (
        Change::Entries(2, "0 (B, Q(1), output2, X), 1 (B, Q, output2, X)"),
        (9, 2),
    ),
    (
        Change::Entries(2, "0 (B, TDI(0), input, X), 1 (B, Q(1), output2, X)"),
        (9, 1),
    ),
    (
        Change::Entries(2, "0 (B, *, output2, X), 1 (B, Q(1), output2, X)"),
        (9, 1),
    ),
    (
        Change::Entries(2, "0 (B, Q(1), control, X), 1 (B, Q(1), output2, X)"),
        (9, 1),
    ),
    (Change::Entries(1, "0 (B, Q(1), output3, X)"), (10, 1)),
    (
        Change::Entries(1, "0 (B, *, internal, X, 0, 1, Z)"),
        (10, 1),
    ),
    (
        Change::Entries(2, "0 (B, Q(1), output3, X, 1, 1, Z), 1 (B, *, internal, X)"),
        (10, 1),
    ),
    (
        Change::Entries(
            3,
            "0 (B, Q(1), output3, X, 2, 1, Z), 1 (B, Q(2), output3, X, 2, 0, Z), 2 (B, *, control, 1)",
        ),
        (11, 2),
    ),
    (
        Change::Entries(1, "0 (B, Q(1), output2, X), 0 (B, Q(2), output2, X)"),
        (12, 0),
    ),
    (
        Change::Entries(1, "0 (B, Q(1), input, X), 0 (B, *, internal, X)"),
        (12, 0),
    ),
    (
        Change::Entries(1, "0 (B, Q(1), input, X), 0 (B, Q(2), output2, X)"),
        (0, 0),
    ),
    (
        Change::Entries(2, "0 (B, Q(1), output2, X), 1 (B, Q(1), output2, X)"),
        (13, 2),
    ),
    (
        Change::Entries(2, "0 (B, Q(1), output2, X), 1 (B, TDI, input, X)"),
        (14, 2),
    ),
    (
        Change::Entries(1, "0 (B, Q(1), output2, 1, 0, 1, WEAK1)"),
        (0, 0),
    ),
];

#[test]
fn boundary_entries(rt: HostRuntime) -> Result<(), CaseFault> {
    rules_hold(rt.alloc(), &ENTRIES)
}

// In each row, the changes break two consecutive rules, or two items of one rule. The fault must name the first.
static PORT_ORDER: [(&[Change], (u32, u32)); 7] = [
    (&[Change::Range(2, 1, true), Change::ScanOut("Q")], (2, 5)),
    (&[Change::ScanOut("Q"), Change::Clock("TDI")], (3, 3)),
    (&[Change::Clock("TDI"), Change::Reset("TMS")], (3, 5)),
    (
        &[Change::Reset("TMS"), Change::Compliance("(Q) (1)")],
        (3, 11),
    ),
    (
        &[Change::Compliance("(Q) (1)"), Change::Map("Q:1")],
        (3, 13),
    ),
    (
        &[Change::Map("Q:1"), Change::Opcodes("SAMPLE (100)")],
        (4, 1),
    ),
    (&[Change::Map("Q:1, R:T2")], (4, 1)),
];

#[test]
fn ports_come_before_pins(rt: HostRuntime) -> Result<(), CaseFault> {
    orders_hold(rt.alloc(), &PORT_ORDER)
}

static INSTRUCTION_ORDER: [(&[Change], (u32, u32)); 8] = [
    (
        &[Change::Opcodes("EXTEST (01), EXTEST (00), SAMPLE (11)")],
        (5, 2),
    ),
    (&[Change::Opcodes("SAMPLE (11), EXTEST (01)")], (6, 1)),
    (
        &[Change::Opcodes("SAMPLE (10), EXTEST (01), BYPASS (10)")],
        (6, 2),
    ),
    (
        &[Change::Of2001("PRELOAD (11), EXTEST (11), BYPASS (00)")],
        (6, 1),
    ),
    (
        &[Change::Opcodes("EXTEST (00)"), Change::Capture("10")],
        (6, 1),
    ),
    (
        &[
            Change::Opcodes("SAMPLE (10), BYPASS (10)"),
            Change::Capture("10"),
        ],
        (6, 3),
    ),
    (&[Change::Capture("10"), Change::Idcode("01")], (7, 1)),
    (
        &[
            Change::Idcode("01"),
            Change::Entries(1, "7 (B, Q(1), output2, X)"),
        ],
        (7, 2),
    ),
];

#[test]
fn instructions_come_before_entries(rt: HostRuntime) -> Result<(), CaseFault> {
    orders_hold(rt.alloc(), &INSTRUCTION_ORDER)
}

static ENTRY_ORDER: [(Change, (u32, u32)); 9] = [
    // The check for cell numbers that are too large comes before the check for missing cells.
    (
        Change::Entries(2, "1 (B, Q(1), output2, X), 5 (B, Q(2), output2, X)"),
        (8, 5),
    ),
    (
        Change::Entries(3, "0 (B, *, output2, X), 1 (B, Q(1), output2, X)"),
        (8, 2),
    ),
    (
        Change::Entries(2, "0 (B, Q(1), output3, X), 1 (B, *, output2, X)"),
        (9, 2),
    ),
    (
        Change::Entries(
            3,
            "0 (B, Q(1), output3, X, 2, 1, Z), 1 (B, Q(2), output3, X, 2, 0, Z), 2 (B, *, internal, X)",
        ),
        (10, 1),
    ),
    (
        Change::Entries(
            2,
            "0 (B, Q(1), output3, X, 1, 1, Z), 0 (B, Q(2), output3, X, 1, 0, Z), 1 (B, *, control, 1)",
        ),
        (11, 1),
    ),
    (
        Change::Entries(1, "0 (B, Q(1), output2, X), 0 (B, Q(1), output2, X)"),
        (12, 0),
    ),
    // Cells 1 and 0 each have two entries that together break rule V12. The fault must name cell 0.
    (
        Change::Entries(
            2,
            "1 (B, Q(1), input, X), 1 (B, *, internal, X), 0 (B, Q(2), input, X), 0 (B, *, internal, X)",
        ),
        (12, 0),
    ),
    (
        Change::Entries(
            3,
            "0 (B, TDI, input, X), 1 (B, Q(1), output2, X), 2 (B, Q(1), output2, X)",
        ),
        (13, 3),
    ),
    (
        Change::Entries(2, "0 (B, TDI, input, X), 1 (B, TMS, input, X)"),
        (14, 1),
    ),
];

#[test]
fn entries_in_the_order_of_their_rules(rt: HostRuntime) -> Result<(), CaseFault> {
    rules_hold(rt.alloc(), &ENTRY_ORDER)
}

const FALLING: [Change; 3] = [
    Change::Range(2, 1, false),
    Change::Map("TDI:T1, TDO:T2, TMS:T3, Q:(8,9)"),
    Change::Compliance("(Q(1)) (1)"),
];

#[test]
fn bits_stand_from_left_to_right(rt: HostRuntime) -> Result<(), CaseFault> {
    draft_holds(
        rt.alloc(),
        &FALLING,
        "0 0 T1 true false; 1 0 T3 true false; 2 0 - true false; 3 0 T2 true false; 4 2 8 false false; 4 1 9 false true; 0 5; 1 4; 1",
    )
}
