// Tests with cases whose expected result is wrong. Each helper of `device_bench` must report such a case, whatever part of the result is
// wrong.
use board_defs::Symbol;
use bsdl_lexer::LexFault::{self, Byte};
use bsdl_parser::ParseFault::Expected;
use device_bench::Reading::{Entity, Lex, Parse};
use device_bench::Source::{Buffer, Bytes, Driver, Wide};
use device_bench::{
    CaseFault, Change, Grammar, Reading, Source, cuts_hold, devices_hold, draft_holds,
    entities_hold, lexings_hold, listing_ends, listings_hold, orders_hold, packages_hold,
    readings_hold, rules_hold, strings_hold, symbols_hold, tokens_hold,
};
use std::alloc::Global;

// Returns whether `answer` is the error that reports case `number` with the result `shown`.
fn names(answer: &Result<(), CaseFault>, number: usize, shown: &str) -> bool {
    match answer {
        Err(CaseFault::Ended { case, found }) => *case == number && found.as_str() == shown,
        _ => false,
    }
}

// Returns whether `answer` is an error that reports case `number`.
fn names_case(answer: &Result<(), CaseFault>, number: usize) -> bool {
    match answer {
        Err(CaseFault::Ended { case, .. }) => *case == number,
        _ => false,
    }
}

// Returns `Ok` if `holds` is true, and an error that reports case `row` otherwise.
fn expect(alloc: Global, row: usize, holds: bool) -> Result<(), CaseFault> {
    if holds {
        return Ok(());
    }
    let found = String::from_str(alloc, "not noticed")?;
    Err(CaseFault::Ended { case: row, found })
}

// The part of a text's result that a table compares: the device, the tokens, the listing or the entity.
#[derive(Clone, Copy)]
enum Shown {
    Device,
    Tokens,
    Listing,
    Entity,
}

fn texts_hold(
    alloc: Global,
    shown: Shown,
    cases: &[(Source, &'static str)],
) -> Result<(), CaseFault> {
    match shown {
        Shown::Device => devices_hold(alloc, cases),
        Shown::Tokens => tokens_hold(alloc, cases),
        Shown::Listing => listings_hold(alloc, cases),
        Shown::Entity => entities_hold(alloc, cases),
    }
}

const DEVICE: &str = "DRV P Old 2 10 00 T1 T3 T4 T2 1 2";

const LISTING: &str =
    "ENTITY DRV\nPACKAGE P\nIR 2 SAMPLE 10 IDCODE -\nPORT TDI IN T1\nPORT TMS IN T3\n\
     PORT TCK IN T4\nPORT TDO OUT T2\nPORT Q OUT 1 2\nCELL 0 OUTPUT2 Q(1) X\nCELL 1 OUTPUT2 Q(2) X\n";

// The listing of the driver without its last line.
const SHORT_LISTING: &str =
    "ENTITY DRV\nPACKAGE P\nIR 2 SAMPLE 10 IDCODE -\nPORT TDI IN T1\nPORT TMS IN T3\n\
     PORT TCK IN T4\nPORT TDO OUT T2\nPORT Q OUT 1 2\nCELL 0 OUTPUT2 Q(1) X\n";

const ENTITY: &str =
    "entity DRV P\nuse STD_1149_1_1994\nconstant P TDI:T1, TDO:T2, TMS:T3, TCK:T4, Q:(1,2)\n\
     port TDI Inward\nport TMS Inward\nport TCK Inward\nport TDO Outward\nport Q Outward 1 to 2\n1\n2 port TDI\n\
     3 port TDO\n4 port TMS\n5 port TCK\n6 number 2\n7 text BYPASS (11), EXTEST (00), SAMPLE (10)\n8 text 01\n\
     9 number 2\n10 text 0 (BC_1, Q(1), OUTPUT2, X),1 (BC_1, Q(2), OUTPUT2, X)\n";

// The entity of the driver with another length of its boundary register.
const OTHER_ENTITY: &str =
    "entity DRV P\nuse STD_1149_1_1994\nconstant P TDI:T1, TDO:T2, TMS:T3, TCK:T4, Q:(1,2)\n\
     port TDI Inward\nport TMS Inward\nport TCK Inward\nport TDO Outward\nport Q Outward 1 to 2\n1\n2 port TDI\n\
     3 port TDO\n4 port TMS\n5 port TCK\n6 number 2\n7 text BYPASS (11), EXTEST (00), SAMPLE (10)\n8 text 01\n\
     9 number 3\n10 text 0 (BC_1, Q(1), OUTPUT2, X),1 (BC_1, Q(2), OUTPUT2, X)\n";

// The part of the results that the helper compares, two texts with their expected results, and the actual
// result of the second text. Only the first expected result is right.
type Texts = (Shown, &'static [(Source, &'static str)], &'static str);

static TEXTS: [Texts; 6] = [
    (
        Shown::Device,
        &[
            (Driver(&[]), DEVICE),
            (Driver(&[]), "DRV P Old 2 10 00 T1 T3 T4 T2 1 3"),
        ],
        DEVICE,
    ),
    (
        Shown::Device,
        &[
            (Driver(&[(5, "")]), "rule V1 item 1"),
            (Driver(&[(7, "")]), "rule V1 item 1"),
        ],
        "rule V1 item 2",
    ),
    (
        Shown::Tokens,
        &[
            (Bytes(b"x--y"), "Word x 1\n"),
            (Bytes(b"x\ny"), "Word x 1\n"),
        ],
        "Word x 1\nWord y 2\n",
    ),
    (
        Shown::Listing,
        &[(Driver(&[]), LISTING), (Driver(&[]), SHORT_LISTING)],
        LISTING,
    ),
    (
        Shown::Listing,
        &[(Driver(&[]), LISTING), (Driver(&[(5, "")]), LISTING)],
        "rule V1 item 1",
    ),
    (
        Shown::Entity,
        &[(Driver(&[]), ENTITY), (Driver(&[]), OTHER_ENTITY)],
        ENTITY,
    ),
];

#[test]
fn wrong_texts_are_noticed(rt: HostRuntime) -> Result<(), CaseFault> {
    for (row, (shown, cases, found)) in TEXTS.iter().enumerate() {
        let answer = texts_hold(rt.alloc(), *shown, cases);
        expect(rt.alloc(), row, names(&answer, 1, found))?;
    }
    Ok(())
}

type Lexed = (Source, Result<(), LexFault>, usize);

// In each pair, only the first case is right. The second case expects a wrong number of tokens, a wrong line, or no fault.
static LEXINGS: [[Lexed; 2]; 3] = [
    [
        (Bytes(b"a;\xff"), Err(Byte(1)), 2),
        (Bytes(b"a;\xff"), Err(Byte(1)), 3),
    ],
    [
        (Bytes(b"a;\xff"), Err(Byte(1)), 2),
        (Bytes(b"a;\xff"), Err(Byte(2)), 2),
    ],
    [
        (Bytes(b"a;\xff"), Err(Byte(1)), 2),
        (Bytes(b"a;\xff"), Ok(()), 2),
    ],
];

#[test]
fn wrong_lexings_are_noticed(rt: HostRuntime) -> Result<(), CaseFault> {
    for (row, cases) in LEXINGS.iter().enumerate() {
        let answer = lexings_hold(rt.alloc(), cases);
        expect(rt.alloc(), row, names(&answer, 1, "Err(Byte(1)) 2"))?;
    }
    Ok(())
}

// Two texts with their expected readings, and the actual reading of the second text. Only the first expected reading is right.
type Readings = (&'static [(Source, Reading)], &'static str);

static READINGS: [Readings; 3] = [
    (
        &[(Driver(&[]), Entity), (Driver(&[]), Parse(Expected(3)))],
        "Entity",
    ),
    (
        &[
            (Driver(&[(2, "")]), Parse(Expected(17))),
            (Driver(&[(2, "")]), Parse(Expected(16))),
        ],
        "Parse(Expected(17))",
    ),
    (
        &[(Bytes(b"\n\x07"), Lex(Byte(2))), (Bytes(b"\n\x07"), Entity)],
        "Lex(Byte(2))",
    ),
];

#[test]
fn wrong_readings_are_noticed(rt: HostRuntime) -> Result<(), CaseFault> {
    for (row, (cases, found)) in READINGS.iter().enumerate() {
        let answer = readings_hold(rt.alloc(), cases);
        expect(rt.alloc(), row, names(&answer, 1, found))?;
    }
    Ok(())
}

// A grammar, two strings with their expected results, and the actual result of the second string. Only the first expected result is right.
type Strings = (
    Grammar,
    &'static [(&'static str, Result<&'static str, u32>)],
    &'static str,
);

static STRINGS: [Strings; 8] = [
    (
        Grammar::PinMap,
        &[("A:(1)", Ok("A 1; ")), ("A:(1)", Ok("A 2; "))],
        "A 1; ",
    ),
    (
        Grammar::PinMap,
        &[("A", Err(1)), ("A:1 B:2, C:3", Err(2))],
        "entry 1",
    ),
    (
        Grammar::PinMap,
        &[("A:(1)", Ok("A 1; ")), ("A", Ok("A; "))],
        "entry 1",
    ),
    (
        Grammar::PinMap,
        &[("A", Err(1)), ("A:(1)", Err(1))],
        "A 1; ",
    ),
    (
        Grammar::Opcodes,
        &[
            ("SAMPLE (10)", Ok("SAMPLE 10; ")),
            ("SAMPLE (10)", Ok("SAMPLE 01; ")),
        ],
        "SAMPLE 10; ",
    ),
    (
        Grammar::Pattern,
        &[("01", Ok("01")), ("01", Ok("10"))],
        "01",
    ),
    (
        Grammar::Compliance,
        &[("(A) (1)", Ok("A  1")), ("(A) (1)", Ok("A  0"))],
        "A  1",
    ),
    (
        Grammar::Boundary,
        &[
            ("0 (BC_1, Q, output2, X)", Ok("0 Q Output2 Any; ")),
            ("0 (BC_1, Q, output2, X)", Ok("0 Q Output3 Any; ")),
        ],
        "0 Q Output2 Any; ",
    ),
];

#[test]
fn wrong_strings_are_noticed(rt: HostRuntime) -> Result<(), CaseFault> {
    for (row, (grammar, cases, found)) in STRINGS.iter().enumerate() {
        let answer = strings_hold(rt.alloc(), *grammar, cases);
        expect(rt.alloc(), row, names(&answer, 1, found))?;
    }
    Ok(())
}

// Wrong values for the pattern 01: its symbols in the wrong order, only the symbol nearest TDO, and no symbol.
static SYMBOLS: [&[Symbol]; 3] = [&[Symbol::Zero, Symbol::One], &[Symbol::One], &[]];

#[test]
fn wrong_symbols_are_noticed(rt: HostRuntime) -> Result<(), CaseFault> {
    for (row, symbols) in SYMBOLS.iter().enumerate() {
        let answer = symbols_hold(rt.alloc(), "01", symbols);
        expect(rt.alloc(), row, names(&answer, 0, "[One, Zero]"))?;
    }
    Ok(())
}

const IN_DW: &str = "BUF2 DW Old 2 10 00 1 2 3 4 5 6 7 8 9 10 11";

// Two packages with the expected devices, written as text. Only the first device is right.
static PACKAGES: [(Option<&[u8]>, &str); 2] = [(None, IN_DW), (Some(b"FK"), IN_DW)];

#[test]
fn wrong_packages_are_noticed(rt: HostRuntime) -> Result<(), CaseFault> {
    let answer = packages_hold(rt.alloc(), Buffer, &PACKAGES);
    expect(
        rt.alloc(),
        0,
        names(
            &answer,
            1,
            "BUF2 FK Old 2 10 00 A1 A2 A3 B1 B2 C1 C2 D1 D2 D3 D4",
        ),
    )
}

// Two changes with the rule and the item that each should break, and the rule and the item that the second change actually breaks. Only the
// first expectation is right.
type Rules = (&'static [(Change, (u32, u32))], &'static str);

static RULES: [Rules; 3] = [
    (
        &[(Change::None, (0, 0)), (Change::Range(2, 1, true), (2, 4))],
        "V2 item 5",
    ),
    (
        &[
            (Change::Range(2, 1, true), (2, 5)),
            (Change::Range(2, 1, true), (3, 5)),
        ],
        "V2 item 5",
    ),
    (
        &[(Change::ScanOut("Q"), (3, 3)), (Change::None, (3, 3))],
        "V0 item 0",
    ),
];

#[test]
fn wrong_rules_are_noticed(rt: HostRuntime) -> Result<(), CaseFault> {
    for (row, (cases, found)) in RULES.iter().enumerate() {
        let answer = rules_hold(rt.alloc(), cases);
        expect(rt.alloc(), row, names(&answer, 1, found))?;
    }
    Ok(())
}

static ORDERS: [(&[Change], (u32, u32)); 2] = [
    (&[Change::Range(2, 1, true), Change::ScanOut("Q")], (2, 5)),
    (&[Change::Range(2, 1, true), Change::ScanOut("Q")], (3, 3)),
];

#[test]
fn wrong_orders_are_noticed(rt: HostRuntime) -> Result<(), CaseFault> {
    let answer = orders_hold(rt.alloc(), &ORDERS);
    expect(rt.alloc(), 0, names(&answer, 1, "V2 item 5"))
}

// The number of the call of `put` that fails, counted from 1, the number of bytes that the sink then has, and a text with which these
// bytes end. In each pair, only the first case is right.
static CUTS: [[(u32, usize, &str); 2]; 2] = [
    [(4, 45, ""), (5, 1068, "")],
    [(4, 45, ""), (6, 2055, " 598\n")],
];

#[test]
fn wrong_cuts_are_noticed(rt: HostRuntime) -> Result<(), CaseFault> {
    for (row, cases) in CUTS.iter().enumerate() {
        let answer = cuts_hold(rt.alloc(), Wide, cases);
        expect(rt.alloc(), row, names_case(&answer, 1))?;
    }
    Ok(())
}

#[test]
fn wrong_ends_are_noticed(rt: HostRuntime) -> Result<(), CaseFault> {
    let ends = listing_ends(rt.alloc(), Driver(&[]), "CELL 0 OUTPUT2 Q(1) X\n");
    expect(rt.alloc(), 0, names(&ends, 0, LISTING))?;
    let draft = draft_holds(rt.alloc(), &[], "0 0 T1 true false; ");
    expect(rt.alloc(), 1, names_case(&draft, 0))
}
