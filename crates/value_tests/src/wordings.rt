// Tests of the messages of faults and of their refusal lines, which btest writes to standard error. In most tables, a row has a fault, the
// start of its refusal line, and its message. The refusal line consists of the start, the message and, in some tables, an end. The start
// names the file, since the fault does not know this name. The lines for lack of memory and for a limit name no file.
use batch_diag::BatchFault;
use board_build::BoardFault;
use board_defs::Spot;
use board_files::LineFault;
use bsdl_lexer::LexFault;
use bsdl_parser::ParseFault;
use bsdl_strings::StringFault;
use bt_base::{FetchFault, MemSink, PutFault};
use bt_bits::HexFault;
use btest_core::InputFault;
use device_check::DeviceFault;
use refusal_lines::{
    Names, TextNames, put_batch_fault, put_input_fault, put_log_fault, put_memory, put_not_read,
    put_not_written, put_too_long,
};
use response_log::LogFault;
use series_parts::LinkFault;
use std::alloc::{AllocError, Global};
use std::fmt::Display;
use thiserror::Error;

/// The reason why a test fails.
#[derive(Debug, Drop, Error)]
pub enum Missed {
    /// In the row with this number, counted from 0, the fault has another message or another refusal line.
    #[error("row {0} gives something else")]
    Row(usize),
    #[error("out of memory")]
    Memory(AllocError),
    #[error("the sink is full")]
    Full(PutFault),
}

impl From<AllocError> for Missed {
    fn from(error: AllocError) -> Missed {
        Missed::Memory(error)
    }
}

impl From<PutFault> for Missed {
    fn from(fault: PutFault) -> Missed {
        Missed::Full(fault)
    }
}

const SPOT: Spot = Spot { line: 7, word: 3 };

const NAMES: Names<'static, 'static> = Names {
    log: "g",
    chain: "c",
    nets: "n",
    bsdl: TextNames::One("d"),
};

// The file names of a command with two BSDL texts.
const TWO_TEXTS: Names<'static, 'static> = Names {
    log: "g",
    chain: "c",
    nets: "n",
    bsdl: TextNames::Several(&["d", "e"]),
};

// The number of rows that a log must have.
const ROWS: u64 = 8;

static FILES: [(InputFault, &str, &str); 12] = [
    (
        InputFault::Chain(LineFault::Statement(5)),
        "c ",
        "line 5: no statement",
    ),
    (
        InputFault::Chain(LineFault::Word(5)),
        "c ",
        "line 5: word not allowed",
    ),
    (
        InputFault::Chain(LineFault::Number(5)),
        "c ",
        "line 5: number not allowed",
    ),
    (
        InputFault::Chain(LineFault::Memory(AllocError)),
        "",
        "out of memory",
    ),
    (
        InputFault::Nets(LineFault::Statement(5)),
        "n ",
        "line 5: no statement",
    ),
    (
        InputFault::Nets(LineFault::Word(5)),
        "n ",
        "line 5: word not allowed",
    ),
    (
        InputFault::Nets(LineFault::Number(5)),
        "n ",
        "line 5: number not allowed",
    ),
    (
        InputFault::Nets(LineFault::Memory(AllocError)),
        "",
        "out of memory",
    ),
    (
        InputFault::Link(LinkFault::NoLinkPin(SPOT)),
        "c ",
        "line 7 word 3: link pin not in a net",
    ),
    (
        InputFault::Link(LinkFault::Memory(AllocError)),
        "",
        "out of memory",
    ),
    (
        InputFault::NoIdent(5),
        "c ",
        "line 5: part without a description",
    ),
    (InputFault::Memory(AllocError), "", "out of memory"),
];

static BOARDS: [(InputFault, &str, &str); 17] = [
    (
        InputFault::Board(BoardFault::NoChain),
        "c: ",
        "no part in the chain",
    ),
    (
        InputFault::Board(BoardFault::PartTwice(SPOT)),
        "c ",
        "line 7: part twice",
    ),
    (
        InputFault::Board(BoardFault::NoEntity(SPOT)),
        "c ",
        "line 7: entity not given",
    ),
    (
        InputFault::Board(BoardFault::EntityTwice(0)),
        "d: ",
        "entity given twice",
    ),
    (
        InputFault::Board(BoardFault::NoPin(SPOT)),
        "n ",
        "line 7 word 3: no such pin",
    ),
    (
        InputFault::Board(BoardFault::PinTwice(SPOT)),
        "n ",
        "line 7 word 3: pin in two nets",
    ),
    (
        InputFault::Board(BoardFault::InertInChain(SPOT)),
        "c ",
        "line 7: inert part in the chain",
    ),
    (
        InputFault::Board(BoardFault::NoSupplyNet(SPOT)),
        "c ",
        "line 7: supply net not there",
    ),
    (
        InputFault::Board(BoardFault::GuardedDriver(SPOT)),
        "n ",
        "line 7 word 3: driver on a guarded net",
    ),
    (
        InputFault::Board(BoardFault::TwoAlwaysOn(SPOT)),
        "n ",
        "line 7 word 3: two drivers always on",
    ),
    (
        InputFault::Board(BoardFault::Limit(1)),
        "",
        "limit: chain parts",
    ),
    (
        InputFault::Board(BoardFault::Limit(2)),
        "",
        "limit: boundary bits",
    ),
    (InputFault::Board(BoardFault::Limit(3)), "", "limit: nets"),
    (InputFault::Board(BoardFault::Limit(4)), "", "limit: pins"),
    (
        InputFault::Board(BoardFault::NoPullNet(SPOT)),
        "c ",
        "line 7: pulled net not there",
    ),
    (
        InputFault::Board(BoardFault::PullTwice(SPOT)),
        "c ",
        "line 7: net pulled twice",
    ),
    (
        InputFault::Board(BoardFault::Memory(AllocError)),
        "",
        "out of memory",
    ),
];

static DEVICES: [(InputFault, &str, &str); 16] = [
    (
        InputFault::Lex {
            text: 0,
            fault: LexFault::Byte(5),
        },
        "d ",
        "line 5: byte not allowed",
    ),
    (
        InputFault::Lex {
            text: 0,
            fault: LexFault::OpenString(5),
        },
        "d ",
        "line 5: string not closed",
    ),
    (
        InputFault::Lex {
            text: 0,
            fault: LexFault::TooMany(5),
        },
        "d ",
        "line 5: too many tokens",
    ),
    (
        InputFault::Lex {
            text: 0,
            fault: LexFault::Memory(AllocError),
        },
        "",
        "out of memory",
    ),
    (
        InputFault::Parse {
            text: 0,
            fault: ParseFault::Expected(5),
        },
        "d ",
        "line 5: not in the grammar",
    ),
    (
        InputFault::Parse {
            text: 0,
            fault: ParseFault::Package(5),
        },
        "d ",
        "line 5: package text",
    ),
    (
        InputFault::Parse {
            text: 0,
            fault: ParseFault::Memory(AllocError),
        },
        "",
        "out of memory",
    ),
    (
        InputFault::Device {
            text: 0,
            fault: DeviceFault::Rule { number: 4, item: 2 },
        },
        "d: ",
        "rule V4 item 2",
    ),
    (
        InputFault::Device {
            text: 0,
            fault: DeviceFault::Text {
                attribute: 7,
                entry: 3,
            },
        },
        "d: ",
        "INSTRUCTION_OPCODE entry 3",
    ),
    (
        InputFault::Device {
            text: 0,
            fault: DeviceFault::Text {
                attribute: 8,
                entry: 3,
            },
        },
        "d: ",
        "INSTRUCTION_CAPTURE entry 3",
    ),
    (
        InputFault::Device {
            text: 0,
            fault: DeviceFault::Text {
                attribute: 10,
                entry: 3,
            },
        },
        "d: ",
        "BOUNDARY_REGISTER entry 3",
    ),
    (
        InputFault::Device {
            text: 0,
            fault: DeviceFault::Text {
                attribute: 12,
                entry: 3,
            },
        },
        "d: ",
        "IDCODE_REGISTER entry 3",
    ),
    (
        InputFault::Device {
            text: 0,
            fault: DeviceFault::Text {
                attribute: 13,
                entry: 3,
            },
        },
        "d: ",
        "COMPLIANCE_PATTERNS entry 3",
    ),
    (
        InputFault::Device {
            text: 0,
            fault: DeviceFault::Text {
                attribute: 15,
                entry: 3,
            },
        },
        "d: ",
        "PIN_MAP_STRING entry 3",
    ),
    (
        InputFault::Device {
            text: 0,
            fault: DeviceFault::Memory(AllocError),
        },
        "",
        "out of memory",
    ),
    // The fault is in a second BSDL text, but the command has only one, so the line names no text.
    (
        InputFault::Lex {
            text: 1,
            fault: LexFault::Byte(5),
        },
        " ",
        "line 5: byte not allowed",
    ),
];

// Faults of a command with two BSDL texts. The line names the text that has the fault. A fault of a third text, which the command does not
// have, gives a line that names no text.
static SECOND_TEXTS: [(InputFault, &str, &str); 7] = [
    (
        InputFault::Lex {
            text: 0,
            fault: LexFault::Byte(5),
        },
        "d ",
        "line 5: byte not allowed",
    ),
    (
        InputFault::Lex {
            text: 1,
            fault: LexFault::Byte(5),
        },
        "e ",
        "line 5: byte not allowed",
    ),
    (
        InputFault::Lex {
            text: 2,
            fault: LexFault::Byte(5),
        },
        " ",
        "line 5: byte not allowed",
    ),
    (
        InputFault::Parse {
            text: 1,
            fault: ParseFault::Expected(5),
        },
        "e ",
        "line 5: not in the grammar",
    ),
    (
        InputFault::Device {
            text: 1,
            fault: DeviceFault::Rule { number: 4, item: 2 },
        },
        "e: ",
        "rule V4 item 2",
    ),
    (
        InputFault::Device {
            text: 1,
            fault: DeviceFault::Text {
                attribute: 7,
                entry: 3,
            },
        },
        "e: ",
        "INSTRUCTION_OPCODE entry 3",
    ),
    (
        InputFault::Board(BoardFault::EntityTwice(1)),
        "e: ",
        "entity given twice",
    ),
];

// The refusal line for missing rows ends with the number of rows that the log must have, here `ROWS`. The fault does not have this number.
static LOGS: [(LogFault, &str, &str, &str); 5] = [
    (LogFault::Digit(5), "g ", "line 5: digit not allowed", ""),
    (LogFault::Length(5), "g ", "line 5: wrong length", ""),
    (LogFault::Extra(5), "g ", "line 5: row too many", ""),
    (LogFault::Missing(6), "g: ", "6 rows", " of 8"),
    (LogFault::Memory(AllocError), "", "out of memory", ""),
];

// The refusal line for missing rows has the number of the board. The lines for lack of memory have no number. Any other line has the number
// of a line of the text.
static BATCHES: [(BatchFault, &str, &str, &str); 8] = [
    (BatchFault::Start(5), "g ", "line 5: no board yet", ""),
    (BatchFault::Title(5), "g ", "line 5: board not allowed", ""),
    (
        BatchFault::Inner {
            board: 2,
            fault: LogFault::Digit(5),
        },
        "g ",
        "line 5: digit not allowed",
        "",
    ),
    (
        BatchFault::Inner {
            board: 2,
            fault: LogFault::Length(5),
        },
        "g ",
        "line 5: wrong length",
        "",
    ),
    (
        BatchFault::Inner {
            board: 2,
            fault: LogFault::Extra(5),
        },
        "g ",
        "line 5: row too many",
        "",
    ),
    (
        BatchFault::Inner {
            board: 2,
            fault: LogFault::Missing(6),
        },
        "g ",
        "board 2: 6 rows",
        " of 8",
    ),
    (
        BatchFault::Inner {
            board: 2,
            fault: LogFault::Memory(AllocError),
        },
        "",
        "out of memory",
        "",
    ),
    (BatchFault::Memory(AllocError), "", "out of memory", ""),
];

// Faults of strings have no refusal line of their own. A row has such a fault, the fault of a device that it becomes, and the message of
// that fault in two parts. The second part is the message of the string's fault.
static STRINGS: [(StringFault, DeviceFault, &str, &str); 2] = [
    (
        StringFault::At(3),
        DeviceFault::Text {
            attribute: 10,
            entry: 3,
        },
        "BOUNDARY_REGISTER ",
        "entry 3",
    ),
    (
        StringFault::Memory(AllocError),
        DeviceFault::Memory(AllocError),
        "",
        "out of memory",
    ),
];

// Like `STRINGS`, but with faults of hexadecimal digits and the faults of a log that they become.
static DIGITS: [(HexFault, LogFault, &str, &str); 2] = [
    (
        HexFault::Length,
        LogFault::Length(5),
        "line 5: ",
        "wrong length",
    ),
    (
        HexFault::Digit,
        LogFault::Digit(5),
        "line 5: ",
        "digit not allowed",
    ),
];

// Returns `Ok` if `holds` is true, and an error with the number of the row otherwise.
fn expect(row: usize, holds: bool) -> Result<(), Missed> {
    if holds { Ok(()) } else { Err(Missed::Row(row)) }
}

// Returns whether the bytes are these pieces, joined in order.
fn is_joined(alloc: Global, bytes: &[u8], pieces: &[&str]) -> Result<bool, AllocError> {
    let mut joined = String::new(alloc);
    for piece in pieces {
        joined.push_str(piece)?;
    }
    Ok(bytes == joined.as_bytes())
}

// Checks the message and the refusal line of each fault in a table. The faults are faults of a command's
// texts, and `names` has the names of these texts.
fn inputs_hold(
    alloc: Global,
    names: Names<'static, 'static>,
    rows: &[(InputFault, &str, &str)],
) -> Result<(), Missed> {
    for (row, (fault, start, text)) in rows.iter().enumerate() {
        expect(row, fault.to_string(alloc)?.as_str() == *text)?;
        let mut notes = MemSink::with_room(alloc, 100)?;
        put_input_fault(names, fault, &mut notes)?;
        expect(row, is_joined(alloc, notes.bytes(), &[start, text, "\n"])?)?;
    }
    Ok(())
}

#[test]
fn faults_of_files(rt: HostRuntime) -> Result<(), Missed> {
    inputs_hold(rt.alloc(), NAMES, &FILES)
}

#[test]
fn faults_of_boards(rt: HostRuntime) -> Result<(), Missed> {
    inputs_hold(rt.alloc(), NAMES, &BOARDS)
}

#[test]
fn faults_of_devices(rt: HostRuntime) -> Result<(), Missed> {
    inputs_hold(rt.alloc(), NAMES, &DEVICES)
}

#[test]
fn faults_of_the_second_of_two_texts(rt: HostRuntime) -> Result<(), Missed> {
    inputs_hold(rt.alloc(), TWO_TEXTS, &SECOND_TEXTS)
}

// Checks a table of faults in a log or a batch. `put` writes the refusal line for a fault.
fn refusals_hold<F: Display, P: Fn(&F, &mut MemSink) -> Result<(), PutFault>>(
    alloc: Global,
    rows: &[(F, &str, &str, &str)],
    put: P,
) -> Result<(), Missed>
    requires { P.IsAlwaysCallable put }
{
    for (row, (fault, start, text, end)) in rows.iter().enumerate() {
        expect(row, fault.to_string(alloc)?.as_str() == *text)?;
        let mut notes = MemSink::with_room(alloc, 100)?;
        put(fault, &mut notes)?;
        expect(
            row,
            is_joined(alloc, notes.bytes(), &[start, text, end, "\n"])?,
        )?;
    }
    Ok(())
}

#[test]
fn faults_of_logs(rt: HostRuntime) -> Result<(), Missed> {
    refusals_hold(rt.alloc(), &LOGS, |fault, notes| {
        put_log_fault("g", ROWS, fault, notes)
    })
}

#[test]
fn faults_of_batches(rt: HostRuntime) -> Result<(), Missed> {
    refusals_hold(rt.alloc(), &BATCHES, |fault, notes| {
        put_batch_fault("g", ROWS, fault, notes)
    })
}

// Checks a table of faults without a refusal line of their own, such as `STRINGS`.
fn parts_hold<F: Display, W: Display>(
    alloc: Global,
    rows: &[(F, W, &str, &str)],
) -> Result<(), Missed> {
    for (row, (fault, whole, start, text)) in rows.iter().enumerate() {
        expect(row, fault.to_string(alloc)?.as_str() == *text)?;
        let whole = whole.to_string(alloc)?;
        expect(row, is_joined(alloc, whole.as_bytes(), &[start, text])?)?;
    }
    Ok(())
}

#[test]
fn faults_of_strings(rt: HostRuntime) -> Result<(), Missed> {
    parts_hold(rt.alloc(), &STRINGS)
}

#[test]
fn faults_of_digits(rt: HostRuntime) -> Result<(), Missed> {
    parts_hold(rt.alloc(), &DIGITS)
}

// Writes the refusal line for a failed fetch of the text `g`, for which the limit is 64 bytes.
fn put_fetch_fault(fault: &FetchFault, notes: &mut MemSink) -> Result<(), PutFault> {
    match fault {
        FetchFault::Failed => put_not_read("g", notes),
        FetchFault::TooLong => put_too_long("g", 64, notes),
        FetchFault::Memory(_) => put_memory(notes),
    }
}

// The refusal line for a text that is too long states the limit in bytes. The fault does not have this number.
static FETCHES: [(FetchFault, &str, &str); 3] = [
    (FetchFault::Failed, "cannot read", "cannot read g\n"),
    (
        FetchFault::TooLong,
        "longer than the limit",
        "g: longer than 64 bytes\n",
    ),
    (
        FetchFault::Memory(AllocError),
        "out of memory",
        "out of memory\n",
    ),
];

#[test]
fn faults_of_fetches(rt: HostRuntime) -> Result<(), Missed> {
    let alloc = rt.alloc();
    for (row, (fault, text, line)) in FETCHES.iter().enumerate() {
        expect(row, fault.to_string(alloc)?.as_str() == *text)?;
        let mut notes = MemSink::with_room(alloc, 100)?;
        put_fetch_fault(fault, &mut notes)?;
        expect(row, notes.bytes() == line.as_bytes())?;
    }
    Ok(())
}

#[test]
fn a_fault_of_a_put(rt: HostRuntime) -> Result<(), Missed> {
    let alloc = rt.alloc();
    let text = PutFault::Failed.to_string(alloc)?;
    expect(0, text.as_str() == "cannot write")?;
    let mut notes = MemSink::with_room(alloc, 100)?;
    put_not_written(&mut notes)?;
    expect(0, is_joined(alloc, notes.bytes(), &[text.as_str(), "\n"])?)
}
