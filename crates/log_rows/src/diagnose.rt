// Table-driven tests of the command `diagnose`, which diagnoses a log.
use crate::groups::{LINKED, LINKED_NETS, PULLED, PULLED_NETS};
use run_bench::Text::{Plain, Repeated};
use run_bench::{Ending, Line, Named, Row, RowFault, Rows, Table, tables_hold};

const STUCK: &str = "FAIL 3\nstuck N1 0\nopen U1.1 0\nopen U2.1 0\n";

const LINE: &str = "diagnose 2 g c n drv rcv od rcv1";

const LOGS: [Line; 20] = [
    ("1\n2\n", Ending::Puts("PASS\n")),
    (
        "# first board\r\n\r\n1\r\n2 # last\r\n",
        Ending::Puts("PASS\n"),
    ),
    ("d\nE", Ending::Puts("PASS\n")),
    ("0\n2\n", Ending::Puts(STUCK)),
    ("0\n0\n", Ending::Puts("FAIL 1\nshort AND N1 N2\n")),
    ("3\n3\n", Ending::Puts("FAIL 1\nshort OR N1 N2\n")),
    ("3\n0\n", Ending::Puts("FAIL 1\nshort DOM N1 N2\n")),
    ("0\n3\n", Ending::Puts("FAIL 1\nshort DOM N2 N1\n")),
    ("1\n1\n", Ending::Puts("FAIL 0\n")),
    // Texts that are not a log of this test.
    ("", Ending::Refused("g: 0 rows of 2\n")),
    ("1\n", Ending::Refused("g: 1 rows of 2\n")),
    ("1\n22\n", Ending::Refused("g line 2: wrong length\n")),
    ("1 2\n", Ending::Refused("g line 1: wrong length\n")),
    // A byte order mark at the beginning of the log.
    (
        "\u{feff}1\n2\n",
        Ending::Refused("g line 1: wrong length\n"),
    ),
    ("1\n\nG\n", Ending::Refused("g line 3: digit not allowed\n")),
    ("1\n2\n2\n", Ending::Refused("g line 3: row too many\n")),
    ("1\n2\nz z\n", Ending::Refused("g line 3: row too many\n")),
    // btest reports the fault of a wrong row before the fault of an extra row.
    (
        "G\n2\n2\n",
        Ending::Refused("g line 1: digit not allowed\n"),
    ),
    (
        "1\nG\n2\n",
        Ending::Refused("g line 2: digit not allowed\n"),
    ),
    ("1\n22\n2\n", Ending::Refused("g line 2: wrong length\n")),
];

const WORKERS: [Row; 12] = [
    Row {
        texts: &[],
        line: "diagnose 1 g c n drv rcv",
        ending: Ending::Puts(STUCK),
    },
    Row {
        texts: &[],
        line: "diagnose 2 g c n drv rcv",
        ending: Ending::Puts(STUCK),
    },
    Row {
        texts: &[],
        line: "diagnose 3 g c n drv rcv",
        ending: Ending::Puts(STUCK),
    },
    Row {
        texts: &[],
        line: "diagnose 064 g c n drv rcv",
        ending: Ending::Puts(STUCK),
    },
    // A number of workers with 20 digits, and one with 21 digits.
    Row {
        texts: &[],
        line: "diagnose 00000000000000000002 g c n drv rcv",
        ending: Ending::Puts(STUCK),
    },
    Row {
        texts: &[],
        line: "diagnose 000000000000000000002 g c n drv rcv",
        ending: Ending::Usage,
    },
    Row {
        texts: &[],
        line: "diagnose 0 g c n drv rcv",
        ending: Ending::Usage,
    },
    Row {
        texts: &[],
        line: "diagnose 65 g c n drv rcv",
        ending: Ending::Usage,
    },
    Row {
        texts: &[],
        line: "diagnose 1x g c n drv rcv",
        ending: Ending::Usage,
    },
    Row {
        texts: &[],
        line: "diagnose 1 g c",
        ending: Ending::Usage,
    },
    // btest reports a fault of the other texts before a fault of the log. It reports a failed read before any fault.
    Row {
        texts: &[("g", Plain("zz\n")), ("c", Plain("DEVICE U1 DRV\n"))],
        line: "diagnose 1 g c n drv rcv",
        ending: Ending::Refused("c line 1: no statement\n"),
    },
    Row {
        texts: &[("c", Plain("DEVICE U1 DRV\n"))],
        line: "diagnose 1 other c n drv rcv",
        ending: Ending::NotRead("cannot read other\n"),
    },
];

const BOARDS: [Row; 4] = [
    Row {
        texts: &[
            ("c", Plain(PULLED)),
            ("n", Plain(PULLED_NETS)),
            ("g", Plain("1\n1\n")),
        ],
        line: LINE,
        ending: Ending::Puts("FAIL 4\nstuck N 1\nopen U1.1 0\nopen U1.1 1\nopen U2.1 1\n"),
    },
    Row {
        texts: &[
            ("c", Plain(PULLED)),
            ("n", Plain(PULLED_NETS)),
            ("g", Plain("0\n0\n")),
        ],
        line: LINE,
        ending: Ending::Puts("FAIL 2\nstuck N 0\nopen U2.1 0\n"),
    },
    Row {
        texts: &[
            ("c", Plain(LINKED)),
            ("n", Plain(LINKED_NETS)),
            ("g", Plain("0\n2\n")),
        ],
        line: LINE,
        ending: Ending::Puts("FAIL 3\nstuck N1A 0\nopen U1.1 0\nopen U2.1 0\n"),
    },
    // A board whose test has no pass.
    Row {
        texts: &[
            ("c", Plain("DEVICE U2 RCV -\n")),
            ("n", Plain("NET N1 U2.1\n")),
            ("g", Plain("")),
        ],
        line: LINE,
        ending: Ending::Puts("PASS\n"),
    },
];

// The chain file of a bus with two drivers. Two passes enable the drivers in turn.
const BUS: &str = "DEVICE U1 TS -\nDEVICE U2 TS -\nDEVICE U3 RCV1 -\n";

const BUS_LOGS: [Line; 7] = [
    ("01\n00\n01\n00\n", Ending::Puts("PASS\n")),
    // The scan has five bits, and only bit 0 is compared. A sixth bit is beyond the scan.
    ("1F\n1e\n1f\n1E\n", Ending::Puts("PASS\n")),
    (
        "01\n20\n01\n00\n",
        Ending::Refused("g line 2: digit not allowed\n"),
    ),
    // If the pin of only one driver is open, only the pass of this driver shows the fault.
    ("00\n00\n01\n00\n", Ending::Puts("FAIL 1\nopen U1.1 0\n")),
    ("01\n00\n01\n01\n", Ending::Puts("FAIL 1\nopen U2.1 1\n")),
    (
        "00\n00\n00\n00\n",
        Ending::Puts("FAIL 2\nstuck BUS 0\nopen U3.1 0\n"),
    ),
    ("00\n00\n01\n01\n", Ending::Puts("FAIL 0\n")),
];

// The chain file of a board with two controls that must not be enabled together. The first pass observes A and X, and the second pass
// observes X and B.
const APART: &str = "DEVICE U1 TWO -\nDEVICE U2 RCV -\nDEVICE U3 RCV -\n";

const APART_NETS: &str = "NET A U1.1 U2.1\nNET X U1.2 U1.3 U2.2\nNET B U1.4 U3.1\n";

const APART_LOGS: [Line; 4] = [
    ("004\n008\n000\n001\n009\n000\n", Ending::Puts("PASS\n")),
    (
        "000\n008\n000\n001\n009\n000\n",
        Ending::Puts("FAIL 3\nstuck A 0\nopen U1.1 0\nopen U2.1 0\n"),
    ),
    (
        "000\n000\n000\n001\n009\n000\n",
        Ending::Puts("FAIL 1\nshort AND A X\n"),
    ),
    // The receivers of nets A and B read wrong bits. No single fault affects both nets, since a short of two nets is a single fault only if
    // some pass observes both.
    ("000\n008\n000\n000\n008\n000\n", Ending::Puts("FAIL 0\n")),
];

const BUS_TEXTS: [Named; 2] = [("c", Plain(BUS)), ("n", Plain("NET BUS U1.1 U2.1 U3.1\n"))];

const APART_TEXTS: [Named; 2] = [("c", Plain(APART)), ("n", Plain(APART_NETS))];

const BLANKS: [Row; 1] = [Row {
    texts: &[("g", Repeated(" ", 4_194_305))],
    line: "diagnose 1 g c n drv rcv",
    ending: Ending::Refused("g: 0 rows of 2\n"),
}];

static TABLES: [Table; 6] = [
    Table {
        name: "the single faults that explain a log are listed",
        texts: &[],
        rows: Rows::Logs(LINE, &LOGS),
    },
    Table {
        name: "any number of workers lists the same",
        texts: &[("g", Plain("0\n2\n"))],
        rows: Rows::Runs(&WORKERS),
    },
    Table {
        name: "a log has a limit of its own",
        texts: &[],
        rows: Rows::Runs(&BLANKS),
    },
    Table {
        name: "a net is judged by each pass that shows it, of a bus",
        texts: &BUS_TEXTS,
        rows: Rows::Logs("diagnose 2 g c n ts rcv1", &BUS_LOGS),
    },
    Table {
        name: "a net is judged by each pass that shows it, of controls that exclude each other",
        texts: &APART_TEXTS,
        rows: Rows::Logs("diagnose 2 g c n two rcv", &APART_LOGS),
    },
    Table {
        name: "pulls and links are read as the test has them",
        texts: &[],
        rows: Rows::Runs(&BOARDS),
    },
];

#[test]
fn lists_the_single_faults_that_explain_a_log(rt: HostRuntime) -> Result<(), RowFault> {
    tables_hold(&rt, rt.alloc(), &TABLES)
}
