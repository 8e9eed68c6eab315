// Table-driven tests of the command `chain`, with correct and faulty chain files, command lines that are not valid, and failed reads and
// writes.
use run_bench::Text::{Bytes, Edited, Numbered, Plain, Repeated};
use run_bench::{
    DRV, Ending, Line, Named, Row, RowFault, Rows, Run, Table, Text, Trouble, tables_hold,
};

const TWO_PARTS: &str = "BYPASS U1 4\nBYPASS U2 2";

const TWO_PARTS_SCANS: &str =
    "SIR 6 TDI (3F) TDO (05) MASK (0F);\nSDR 10 TDI (0A5) TDO (294) MASK (3FF);\n";

/// The scans of a chain of one part, whose instruction register has 255 bits.
pub const LONGEST_REGISTER: &str = "SIR 255
TDI (7FFFFFFFFFFFFFFFFFFFFFFFFFFFFFFFFFFFFFFFFFFFFFFFFFFFFFFFFFFFFFFF)
TDO (0000000000000000000000000000000000000000000000000000000000000001)
MASK (0000000000000000000000000000000000000000000000000000000000000003);
SDR 9 TDI (0A5) TDO (14A) MASK (1FF);
";

const CHAINS: [Row; 7] = [
    Row {
        texts: &[("c", Plain(TWO_PARTS))],
        line: "chain c",
        ending: Ending::Scans(TWO_PARTS_SCANS),
    },
    Row {
        texts: &[(
            "c",
            Plain("# ours\r\n\tBYPASS  U1\t4 # first\n\nBYPASS U2 002\n\n"),
        )],
        line: "chain c",
        ending: Ending::Scans(TWO_PARTS_SCANS),
    },
    Row {
        texts: &[(
            "c",
            Plain("BYPASS U1 2\nSUPPLY V.CC\nPULL N 1\nINERT R1\nLINK R2 1 a_2"),
        )],
        line: "chain c",
        ending: Ending::Scans(
            "SIR 2 TDI (3) TDO (1) MASK (3);\nSDR 9 TDI (0A5) TDO (14A) MASK (1FF);\n",
        ),
    },
    // Names of parts are case-sensitive, so there are two parts. This command does not apply the rules of a board, so an INERT line may
    // name a part of the chain.
    Row {
        texts: &[(
            "c",
            Plain("BYPASS U1 4\nBYPASS u1 2\nINERT U1\nPULL V 0\nPULL V 1\nLINK U1 1 1"),
        )],
        line: "chain c",
        ending: Ending::Scans(TWO_PARTS_SCANS),
    },
    // An instruction register of 255 bits. The name of the part consists of the first and the last visible ASCII character.
    Row {
        texts: &[("c", Plain("BYPASS !~ 255"))],
        line: "chain c",
        ending: Ending::Scans(LONGEST_REGISTER),
    },
    // The name of the chain file may be any word, even `help`.
    Row {
        texts: &[("help", Plain(TWO_PARTS))],
        line: "chain help",
        ending: Ending::Scans(TWO_PARTS_SCANS),
    },
    Row {
        texts: &[("c", Plain("DEVICE U1 DRV -\nBYPASS U9 3"))],
        line: "chain c drv",
        ending: Ending::Scans(
            "SIR 5 TDI (1F) TDO (09) MASK (1B);\nSDR 10 TDI (0A5) TDO (294) MASK (3FF);\n",
        ),
    },
];

// Names that a file may have, and a BSDL text that no part names.
const FREE_NAMES: [Row; 4] = [
    Row {
        texts: &[("c-", Plain(TWO_PARTS))],
        line: "chain c-",
        ending: Ending::Scans(TWO_PARTS_SCANS),
    },
    Row {
        texts: &[("\u{e9}", Plain(TWO_PARTS))],
        line: "chain \u{e9}",
        ending: Ending::Scans(TWO_PARTS_SCANS),
    },
    // btest applies the rules of a device to a BSDL text only if a DEVICE line names its entity.
    Row {
        texts: &[("c", Plain(TWO_PARTS)), ("bad", NO_CODES)],
        line: "chain c bad",
        ending: Ending::Scans(TWO_PARTS_SCANS),
    },
    Row {
        texts: &[
            ("c", Plain("BYPASS U2 2\nDEVICE U1 DRV -")),
            ("bad", NO_CODES),
        ],
        line: "chain c bad",
        ending: Ending::Refused("bad: rule V1 item 7\n"),
    },
];

// The text of the driver without its opcodes, which rule V1 requires.
const NO_CODES: Text = Edited(DRV, &[("INSTRUCTION_OPCODE", "INSTRUCTION_CODES")]);

const FORTY_PARTS: [Run; 1] = [(
    Numbered {
        head: "",
        piece: "BYPASS U# 2\n",
        first: 0,
        end: 40,
    },
    Ending::Scans(
        "SIR 80\nTDI (FFFFFFFFFFFFFFFFFFFF)\nTDO (55555555555555555555)\nMASK (FFFFFFFFFFFFFFFFFFFF);\n\
         SDR 48 TDI (0000000000A5) TDO (A50000000000) MASK (FFFFFFFFFFFF);\n",
    ),
)];

const DESCRIBED: [Line; 4] = [
    ("chain c", Ending::Refused("c line 1: entity not given\n")),
    ("chain c d", Ending::NotRead("cannot read d\n")),
    (
        "chain c drv drv",
        Ending::Refused("drv: entity given twice\n"),
    ),
    (
        "chain c drv rcv again",
        Ending::Refused("again: entity given twice\n"),
    ),
];

// Statements with too few or too many words, statements whose first word is not in upper case, and lines whose first word is not that of a
// statement of a chain file.
const NO_STATEMENTS: [Run; 17] = [
    (Plain("BYPASS U1"), NO_STATEMENT),
    (Plain("DEVICE U1 DRV - -"), NO_STATEMENT),
    (Plain("INERT"), NO_STATEMENT),
    (Plain("INERT R1 R2"), NO_STATEMENT),
    (Plain("SUPPLY"), NO_STATEMENT),
    (Plain("SUPPLY V W"), NO_STATEMENT),
    (Plain("PULL N"), NO_STATEMENT),
    (Plain("PULL N 1 1"), NO_STATEMENT),
    (Plain("LINK R1 1"), NO_STATEMENT),
    (Plain("LINK R1 1 2 3"), NO_STATEMENT),
    (Plain("device U1 DRV -"), NO_STATEMENT),
    (Plain("Inert R1"), NO_STATEMENT),
    (Plain("supply V"), NO_STATEMENT),
    (Plain("Pull N 1"), NO_STATEMENT),
    (Plain("link R1 1 2"), NO_STATEMENT),
    (Plain("NET N U1.1"), NO_STATEMENT),
    // A byte order mark at the beginning of the chain file.
    (Plain("\u{feff}BYPASS U1 2"), NO_STATEMENT),
];

const NO_STATEMENT: Ending<'static> = Ending::Refused("c line 1: no statement\n");

// Statements with a byte that is not allowed in a word. A dot is not allowed in the name of a part or in a LINK pin. The next two rows
// have numbers that are not allowed. The last row has dots in an entity name and a package name, where they are allowed.
const WORDS: [Run; 11] = [
    (Plain("BYPASS U\x7f 2"), NO_WORD),
    (Plain("BYPASS U\u{e9} 2"), NO_WORD),
    (Plain("DEVICE U.1 DRV -"), NO_WORD),
    (Plain("INERT R.1"), NO_WORD),
    (Plain("LINK R.1 1 2"), NO_WORD),
    (Plain("LINK R1 1- 2"), NO_WORD),
    (Plain("LINK R1 1 2."), NO_WORD),
    // btest checks the value of a pull as a word first, and then as a number.
    (Plain("PULL N \x01"), NO_WORD),
    (
        Plain("PULL N 01"),
        Ending::Refused("c line 1: number not allowed\n"),
    ),
    (
        Plain("BYPASS U1 2x"),
        Ending::Refused("c line 1: number not allowed\n"),
    ),
    // The name of an entity or of a package may have a dot.
    (
        Plain("DEVICE U1 D.RV P.Q"),
        Ending::Refused("c line 1: entity not given\n"),
    ),
];

const NO_WORD: Ending<'static> = Ending::Refused("c line 1: word not allowed\n");

// Chain files, each with the result of `chain c`.
const FILES: [Run; 22] = [
    (Plain(""), Ending::Refused("c: no part in the chain\n")),
    (
        Plain("# BYPASS U1 4"),
        Ending::Refused("c: no part in the chain\n"),
    ),
    (
        Plain("SUPPLY VCC\n"),
        Ending::Refused("c: no part in the chain\n"),
    ),
    (
        Plain("BYPASS U1 1"),
        Ending::Refused("c line 1: number not allowed\n"),
    ),
    (
        Plain("BYPASS U1 256"),
        Ending::Refused("c line 1: number not allowed\n"),
    ),
    (
        Plain("BYPASS U1 0002"),
        Ending::Refused("c line 1: number not allowed\n"),
    ),
    (
        Plain("BYPASS U\0 2"),
        Ending::Refused("c line 1: word not allowed\n"),
    ),
    (
        Plain("\n\nBYPASS U.1 2"),
        Ending::Refused("c line 3: word not allowed\n"),
    ),
    (
        Plain("BYPASS U1 2 3"),
        Ending::Refused("c line 1: no statement\n"),
    ),
    (
        Plain("bypass U1 2"),
        Ending::Refused("c line 1: no statement\n"),
    ),
    (
        Plain("PULL N 2"),
        Ending::Refused("c line 1: number not allowed\n"),
    ),
    (
        Plain("LINK R1 1 2-"),
        Ending::Refused("c line 1: word not allowed\n"),
    ),
    (
        Plain("DEVICE U1 DRV"),
        Ending::Refused("c line 1: no statement\n"),
    ),
    (
        Plain("BYPASS U1 2\nBYPASS U2 2\nBYPASS U1 3"),
        Ending::Refused("c line 3: part twice\n"),
    ),
    (
        Plain("BYPASS U1 2\nDEVICE U1 DRV -"),
        Ending::Refused("c line 2: part twice\n"),
    ),
    (
        Plain("DEVICE U1 DRV -"),
        Ending::Refused("c line 1: entity not given\n"),
    ),
    (
        Plain("DEVICE U1 DRV -\nBYPASS U9 3\nBYPASS U9 3"),
        Ending::Refused("c line 3: part twice\n"),
    ),
    (
        Plain("DEVICE U1 DRV -\nBYPASS U9 1"),
        Ending::Refused("c line 2: number not allowed\n"),
    ),
    // A byte that is not a visible ASCII character.
    (
        Bytes(b"BYPASS U1 \xff"),
        Ending::Refused("c line 1: word not allowed\n"),
    ),
    // A chain has at most 255 parts.
    (
        Numbered {
            head: "",
            piece: "BYPASS U# 2\n",
            first: 0,
            end: 255,
        },
        Ending::Done,
    ),
    (
        Numbered {
            head: "",
            piece: "BYPASS U# 2\n",
            first: 0,
            end: 256,
        },
        Ending::Refused("limit: chain parts\n"),
    ),
    // A chain file has at most 4,194,304 bytes.
    (
        Repeated(" ", 4_194_304),
        Ending::Refused("c: no part in the chain\n"),
    ),
];

const NO_COMMANDS: [&str; 28] = [
    "",
    "chain",
    "help",
    "chain -c",
    "chain c ",
    "device",
    "device c d",
    "device -",
    "Chain c",
    "svf c",
    "cover c",
    "cover",
    "walk c",
    "make",
    "make 2 c",
    "make -- 2",
    "ident",
    "diagnose g c n",
    "groups c n",
    "batch g c n",
    "batch 0 g c n drv rcv",
    "batch 65 g c n drv rcv",
    // The number of workers has 21 digits.
    "diagnose 000000000000000000001 g c n drv rcv",
    "batch 000000000000000000001 g c n drv rcv",
    "svf c n -drv",
    "svf c n drv ",
    "--version",
    "-h",
];

const FAILING: [(Trouble, Row); 3] = [
    // btest does not repeat a failed read, even if the command line names the text twice.
    (
        Trouble::Read(1),
        Row {
            texts: &[("c", Plain(TWO_PARTS))],
            line: "chain c c",
            ending: Ending::NotRead("cannot read c\n"),
        },
    ),
    (
        Trouble::Out(20),
        Row {
            texts: &[("c", Plain(TWO_PARTS))],
            line: "chain c",
            ending: Ending::NotPut("TRST OFF;\nENDIR IDLE", "cannot write\n"),
        },
    ),
    // The status stays `Refused` if standard error takes only a part of the refusal line.
    (
        Trouble::Notes(5),
        Row {
            texts: &[("c", Plain(""))],
            line: "chain c",
            ending: Ending::Refused("c: no"),
        },
    ),
];

const MANY_WORDS: [(usize, Ending<'static>); 2] = [
    (255, Ending::Refused("c line 1: entity not given\n")),
    (256, Ending::Usage),
];

// The number of times that a command line names an empty BSDL text, and the result of the run. A run may read at most 255 BSDL texts.
const MANY_TEXTS: [(usize, Ending<'static>); 2] = [
    (255, Ending::Refused("x line 1: not in the grammar\n")),
    (256, Ending::Usage),
];

// An empty BSDL text and an empty log.
const EMPTY: [Named; 2] = [("x", Plain("")), ("g", Plain(""))];

const ONE_DESCRIBED: [Named; 2] = [
    ("c", Plain("DEVICE U1 DRV -\nBYPASS U9 3")),
    ("again", Plain(DRV)),
];

static TABLES: [Table; 4] = [
    Table {
        name: "the two scans are written",
        texts: &[],
        rows: Rows::Runs(&CHAINS),
    },
    Table {
        name: "a scan of more than one line is printed by fields",
        texts: &[],
        rows: Rows::Texts("chain c", "c", &FORTY_PARTS),
    },
    Table {
        name: "each entity is given once",
        texts: &ONE_DESCRIBED,
        rows: Rows::Lines(&DESCRIBED),
    },
    Table {
        name: "a command takes at most 255 BSDL texts",
        texts: &[("c", Plain("DEVICE U1 RCV -"))],
        rows: Rows::Words(&["chain c"], " drv", &MANY_WORDS),
    },
];

#[test]
fn chains_end_as_they_should(rt: HostRuntime) -> Result<(), RowFault> {
    tables_hold(&rt, rt.alloc(), &TABLES)
}

static NAME_TABLES: [Table; 1] = [Table {
    name: "names of files are free, and so are texts that no part names",
    texts: &[],
    rows: Rows::Runs(&FREE_NAMES),
}];

#[test]
fn names_and_texts_may_be_free(rt: HostRuntime) -> Result<(), RowFault> {
    tables_hold(&rt, rt.alloc(), &NAME_TABLES)
}

static TEXT_TABLES: [Table; 5] = [
    Table {
        name: "the first fault is told",
        texts: &[],
        rows: Rows::Texts("chain c", "c", &FILES),
    },
    Table {
        name: "a statement has its name in upper case, and its number of words",
        texts: &[],
        rows: Rows::Texts("chain c", "c", &NO_STATEMENTS),
    },
    Table {
        name: "a word has no byte that is not allowed",
        texts: &[],
        rows: Rows::Texts("chain c", "c", &WORDS),
    },
    Table {
        name: "words that are no command fetch nothing",
        texts: &[("c", Plain(TWO_PARTS))],
        rows: Rows::NoCommands(&NO_COMMANDS),
    },
    Table {
        name: "a read or a write fails",
        texts: &[],
        rows: Rows::Failing(&FAILING),
    },
];

#[test]
fn faults_of_chain_files_are_told(rt: HostRuntime) -> Result<(), RowFault> {
    tables_hold(&rt, rt.alloc(), &TEXT_TABLES)
}

const COMMANDS: [&str; 7] = [
    "ident c",
    "cover c n",
    "svf c n",
    "walk c n",
    "diagnose 2 g c n",
    "groups g c n",
    "batch 2 g c n",
];

static COMMAND_TABLES: [Table; 1] = [Table {
    name: "each command takes at most 255 BSDL texts",
    texts: &EMPTY,
    rows: Rows::Words(&COMMANDS, " x", &MANY_TEXTS),
}];

#[test]
fn every_command_takes_at_most_255_texts(rt: HostRuntime) -> Result<(), RowFault> {
    tables_hold(&rt, rt.alloc(), &COMMAND_TABLES)
}
