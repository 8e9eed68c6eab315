// Table-driven tests of texts with two faults, and of the order of the BSDL texts on the command line. If a row has texts with two faults,
// btest checks for one fault right before the other, and must report the fault that it checks for first.
use run_bench::Text::{Cells, Numbered, Plain};
use run_bench::{
    CHAIN, Case, Ending, Line, NETS, Row, RowFault, Rows, Run, SCANS, Table, Text, tables_hold,
};

// Faults of the files, of the BSDL texts, and of the parts of the chain.
const FILES: [Case; 7] = [
    // btest checks the chain file first, then the net file, and then the BSDL texts in the order of the command line.
    ("NONE", "NETS N1", "bad", "c line 1: no statement\n"),
    (CHAIN, "NETS N1", "bad", "n line 1: no statement\n"),
    ("", NETS, "bad worse", "bad line 1: not in the grammar\n"),
    ("", NETS, "worse bad", "worse line 1: byte not allowed\n"),
    (
        "DEVICE U1 DRV P\nBYPASS U1 3",
        NETS,
        "bad",
        "bad line 1: not in the grammar\n",
    ),
    ("", NETS, "drv drv", "c: no part in the chain\n"),
    (
        "DEVICE U1 XYZ -\nDEVICE U2 DRV -",
        NETS,
        "drv drv",
        "c line 1: entity not given\n",
    ),
];

// Faults of the devices, of the links, and of the nets.
const BOARDS: [Case; 10] = [
    (
        "DEVICE U1 DRV Q\nLINK R1 1 9",
        NETS,
        "drv",
        "drv: rule V1 item 15\n",
    ),
    (
        "DEVICE U1 DRV -\nLINK R1 1 9",
        "NET N1 U1.9",
        "drv",
        "c line 2 word 3: link pin not in a net\n",
    ),
    (
        CHAIN,
        "NET N1 U1.1\nNET N2 U1.1 U1.9",
        "drv rcv",
        "n line 2 word 4: no such pin\n",
    ),
    (
        "INERT U1\nDEVICE U1 DRV -\nDEVICE U2 RCV -",
        "NET N1 U1.1 U2.1\nNET N2 U1.1",
        "drv rcv",
        "n line 2 word 3: pin in two nets\n",
    ),
    (
        "SUPPLY VCC\nINERT U1\nDEVICE U1 DRV -\nDEVICE U2 RCV -",
        NETS,
        "drv rcv",
        "c line 2: inert part in the chain\n",
    ),
    (
        "PULL M 1\nSUPPLY VCC\nDEVICE U1 DRV -\nDEVICE U2 RCV -",
        NETS,
        "drv rcv",
        "c line 2: supply net not there\n",
    ),
    (
        "PULL N1 1\nPULL N1 0\nPULL M 1\nDEVICE U1 DRV -\nDEVICE U2 RCV -",
        NETS,
        "drv rcv",
        "c line 3: pulled net not there\n",
    ),
    (
        "SUPPLY N1\nPULL N2 1\nPULL N2 1\nDEVICE U1 DRV -\nDEVICE U2 RCV -",
        NETS,
        "drv rcv",
        "c line 3: net pulled twice\n",
    ),
    (
        "SUPPLY N2\nDEVICE U1 DRV -\nDEVICE U2 DRV -",
        "NET N1 U1.1 U2.1\nNET N2 U1.2",
        "drv",
        "n line 2 word 3: driver on a guarded net\n",
    ),
    // btest applies each rule to all lines before it applies the next rule.
    (
        "SUPPLY N2\nDEVICE U1 DRV -\nDEVICE U2 DRV -",
        "NET N1 U1.1 U2.1\nNET N2 U1.2 U2.9",
        "drv",
        "n line 2 word 4: no such pin\n",
    ),
];

// The order of the BSDL texts does not matter, and a BSDL text that no part names changes nothing.
const ANY_ORDER: [Line; 3] = [
    ("svf c n drv rcv", Ending::Scans(SCANS)),
    ("svf c n rcv drv", Ending::Scans(SCANS)),
    ("svf c n ts rcv bi drv", Ending::Scans(SCANS)),
];

// Chains of 256 parts, one more than a chain may have. btest first checks whether two BSDL texts have the same entity.
const MANY_PARTS: [Run; 2] = [
    (
        Numbered {
            head: "",
            piece: "BYPASS U# 2\n",
            first: 0,
            end: 256,
        },
        Ending::Refused("drv: entity given twice\n"),
    ),
    (
        Numbered {
            head: "DEVICE X RCV Q\n",
            piece: "BYPASS U# 2\n",
            first: 0,
            end: 255,
        },
        Ending::Refused("drv: entity given twice\n"),
    ),
];

const FAULTY_PART: [Run; 1] = [(
    Numbered {
        head: "DEVICE X DRV Q\n",
        piece: "BYPASS U# 2\n",
        first: 0,
        end: 255,
    },
    Ending::Refused("limit: chain parts\n"),
)];

// A net file with too many nets and too many pins.
const MANY_NETS: Text = Numbered {
    head: "",
    piece: "NET N# X.# Y.# Z.# W.#\n",
    first: 0,
    end: 16_384,
};

// A net file with too many pins, one of which is not a pin of its device.
const MANY_PINS: Text = Numbered {
    head: "NET N U1.9",
    piece: " X.#",
    first: 0,
    end: 65_535,
};

const LIMITS: [Row; 4] = [
    Row {
        texts: &[
            ("c", Plain("DEVICE U1 A -\nDEVICE U2 B -\nLINK R1 1 2")),
            ("n", Plain("")),
            ("a", Cells("A", 32_768)),
            ("b", Cells("B", 32_768)),
        ],
        line: "cover c n a b",
        ending: Ending::Refused("c line 3 word 3: link pin not in a net\n"),
    },
    Row {
        texts: &[
            ("c", Plain("DEVICE U1 A -\nDEVICE U2 B -")),
            ("n", MANY_NETS),
            ("a", Cells("A", 32_768)),
            ("b", Cells("B", 32_768)),
        ],
        line: "cover c n a b",
        ending: Ending::Refused("limit: boundary bits\n"),
    },
    Row {
        texts: &[("c", Plain("BYPASS U1 2")), ("n", MANY_NETS)],
        line: "cover c n drv",
        ending: Ending::Refused("limit: nets\n"),
    },
    Row {
        texts: &[("c", Plain("DEVICE U1 DRV -")), ("n", MANY_PINS)],
        line: "cover c n drv",
        ending: Ending::Refused("limit: pins\n"),
    },
];

// In the first row, the board breaks a rule, and the log is faulty, too. In the second row, the log has a wrong line and too many lines.
const LOGS: [Row; 2] = [
    Row {
        texts: &[
            ("c", Plain("DEVICE U1 DRV -\nDEVICE U2 DRV -")),
            ("n", Plain("NET N1 U1.1 U2.1")),
            ("g", Plain("ZZ ZZ\n")),
        ],
        line: "diagnose 1 g c n drv",
        ending: Ending::Refused("n line 1 word 4: two drivers always on\n"),
    },
    Row {
        texts: &[("g", Plain("1\nZZ\n1\n1\n"))],
        line: "diagnose 1 g c n drv rcv",
        ending: Ending::Refused("g line 2: wrong length\n"),
    },
];

static FILE_TABLES: [Table; 3] = [
    Table {
        name: "BSDL texts may come in any order",
        texts: &[],
        rows: Rows::Lines(&ANY_ORDER),
    },
    Table {
        name: "files come in the order of the words, and then parts",
        texts: &[("bad", Plain("entity")), ("worse", Plain("\u{1}"))],
        rows: Rows::Boards(&FILES),
    },
    Table {
        name: "devices come before links, and pins before nets",
        texts: &[],
        rows: Rows::Boards(&BOARDS),
    },
];

#[test]
fn the_first_of_two_faults_is_reported(rt: HostRuntime) -> Result<(), RowFault> {
    tables_hold(&rt, rt.alloc(), &FILE_TABLES)
}

static LIMIT_TABLES: [Table; 4] = [
    Table {
        name: "entities come before the number of parts",
        texts: &[],
        rows: Rows::Texts("chain c drv rcv drv", "c", &MANY_PARTS),
    },
    Table {
        name: "the number of parts comes before their devices",
        texts: &[],
        rows: Rows::Texts("cover c n drv", "c", &FAULTY_PART),
    },
    Table {
        name: "limits come one after the other",
        texts: &[],
        rows: Rows::Runs(&LIMITS),
    },
    Table {
        name: "a board comes before its log",
        texts: &[],
        rows: Rows::Runs(&LOGS),
    },
];

#[test]
fn limits_come_in_their_order(rt: HostRuntime) -> Result<(), RowFault> {
    tables_hold(&rt, rt.alloc(), &LIMIT_TABLES)
}
