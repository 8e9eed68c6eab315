// Table-driven tests of the command `cover`. It lists the nets that are not covered, each with the reason.
// For the covered nets, it lists the drivers and receivers that no safe setting tests, and the pairs of nets
// that no safe setting observes together. A net is covered if some safe setting observes it. A setting is a
// set of enabled controls. A safe setting enables at most one driver of each net, among other rules.
use run_bench::Text::{Edited, Numbered, Plain};
use run_bench::{CHAIN, Ending, NETS, Named, RCV1, Row, RowFault, Rows, Run, Table, tables_hold};

// If several reasons apply to a net, btest reports the first of SUPPLY, TESTPORT, DARK, NODRIVER, BLOCKED and NORECEIVER.
const REASONS: [Row; 6] = [
    Row {
        texts: &[
            ("c", Plain("DEVICE U1 OCT -")),
            (
                "n",
                Plain(
                    "NET E1 U1.1 U1.2\nNET E3 U1.3\nNET E4 U1.4\nNET E5 U1.5\nNET E6 U1.6\nNET E7 U1.7\nNET E8 U1.8",
                ),
            ),
        ],
        line: "cover c n oct",
        ending: Ending::Puts(
            "NETS 7 COVERED 0\nNET E1 BLOCKED\nNET E3 BLOCKED\nNET E4 BLOCKED\nNET E5 BLOCKED\nNET E6 BLOCKED\n\
             NET E7 BLOCKED\nNET E8 BLOCKED\n",
        ),
    },
    Row {
        texts: &[
            ("c", Plain("DEVICE U1 BUF2 -\nDEVICE U2 BUF2 -\nSUPPLY VCC")),
            (
                "n",
                Plain(
                    "NET N0 U1.5 U2.3\nNET N1 U1.4 U2.2\nNET OE U1.1 U2.1\nNET VCC U1.7 U2.7 C1.1\nNET TCK U1.10 U2.10 J1.1",
                ),
            ),
        ],
        line: "cover c n buf2",
        ending: Ending::Puts(
            "NETS 5 COVERED 2\nNET OE NODRIVER\nNET VCC SUPPLY\nNET TCK TESTPORT\n",
        ),
    },
    Row {
        texts: &[
            ("c", Plain("DEVICE U1 OD -\nDEVICE U2 RCV1 -\nPULL N 0")),
            ("n", Plain("NET N U1.1 U2.1")),
        ],
        line: "cover c n od rcv1",
        ending: Ending::Puts("NETS 1 COVERED 0\nNET N BLOCKED\n"),
    },
    // If several reasons apply to a net, SUPPLY takes precedence over TESTPORT, and TESTPORT over DARK.
    Row {
        texts: &[
            ("c", Plain("DEVICE U1 TS -\nDEVICE U2 RCV1 -\nSUPPLY N")),
            ("n", Plain("NET N U1.1 U2.1 U2.T3\nNET M U2.T4 X.1")),
        ],
        line: "cover c n ts rcv1",
        ending: Ending::Puts("NETS 2 COVERED 0\nNET N SUPPLY\nNET M TESTPORT\n"),
    },
    // If one of two joined nets is a supply, the joined net is a supply.
    Row {
        texts: &[
            (
                "c",
                Plain("DEVICE U1 TS -\nDEVICE U2 RCV1 -\nLINK R1 1 2\nSUPPLY VCC"),
            ),
            ("n", Plain("NET N U1.1 U2.1 R1.1\nNET VCC R1.2")),
        ],
        line: "cover c n ts rcv1",
        ending: Ending::Puts("NETS 1 COVERED 0\nNET N SUPPLY\n"),
    },
    Row {
        texts: &[("c", Plain("DEVICE U1 DRV -")), ("n", Plain("NET N U1.1"))],
        line: "cover c n drv",
        ending: Ending::Puts("NETS 1 COVERED 0\nNET N NORECEIVER\n"),
    },
];

// A `Name` holds up to 24 bytes itself. A longer name has memory of its own.
const LONG_NAMES: [Row; 1] = [Row {
    texts: &[
        (
            "c",
            Plain(
                "BYPASS U1 2\nSUPPLY ABCDEFGHIJKLMNOPQRSTUVWXYZ\nINERT ABCDEFGHIJKLMNOPQRSTUVWXYZ",
            ),
        ),
        (
            "n",
            Plain(
                "NET ABCDEFGHIJKLMNOPQRSTUVWX X.1\nNET ABCDEFGHIJKLMNOPQRSTUVWXY X.2\n\
                 NET ABCDEFGHIJKLMNOPQRSTUVWXYZ X.3\nNET QUIET ABCDEFGHIJKLMNOPQRSTUVWXYZ.1\n\
                 NET ABCDEFGHIJKLMNOPQRSTUVWXY ABCDEFGHIJKLMNOPQRSTUVWXYZ.2",
            ),
        ),
    ],
    line: "cover c n drv",
    ending: Ending::Puts(
        "NETS 4 COVERED 0\nNET ABCDEFGHIJKLMNOPQRSTUVWX DARK\nNET ABCDEFGHIJKLMNOPQRSTUVWXY DARK\n\
         NET ABCDEFGHIJKLMNOPQRSTUVWXYZ SUPPLY\nNET QUIET NODRIVER\n",
    ),
}];

const WITH_RAM: Named = ("n", Plain("NET N1 U1.1 U2.1 RAM.7\nNET N2 U1.2 U2.2"));

// Something that no boundary cell controls may drive a dark net. For example, a net is dark if it has a pin of a part with neither a
// description nor an INERT line. btest reports a dark net as DARK unless the reason SUPPLY or TESTPORT applies.
const DARKENED: [Row; 5] = [
    // The chain file gives only the length of U3's instruction register, so U3 may drive the net.
    Row {
        texts: &[
            ("c", Plain("DEVICE U1 TS -\nDEVICE U2 RCV1 -\nBYPASS U3 2")),
            ("n", Plain("NET N U1.1 U2.1 U3.1")),
        ],
        line: "cover c n ts rcv1",
        ending: Ending::Puts("NETS 1 COVERED 0\nNET N DARK\n"),
    },
    // Names of parts are case-sensitive.
    Row {
        texts: &[
            ("c", Plain("DEVICE U1 TS -\nDEVICE U2 RCV1 -")),
            ("n", Plain("NET N U1.1 u2.1")),
        ],
        line: "cover c n ts rcv1",
        ending: Ending::Puts("NETS 1 COVERED 0\nNET N DARK\n"),
    },
    Row {
        texts: &[("c", Plain(CHAIN)), WITH_RAM],
        line: "cover c n drv rcv",
        ending: Ending::Puts("NETS 2 COVERED 1\nNET N1 DARK\n"),
    },
    Row {
        texts: &[
            ("c", Plain("DEVICE U1 DRV -\nDEVICE U2 RCV -\nINERT RAM")),
            WITH_RAM,
        ],
        line: "cover c n drv rcv",
        ending: Ending::Puts("NETS 2 COVERED 2\n"),
    },
    Row {
        texts: &[
            ("c", Plain("BYPASS U1 2")),
            (
                "n",
                Numbered {
                    head: "",
                    piece: "NET N# X.#\n",
                    first: 1,
                    end: 16_383,
                },
            ),
        ],
        line: "cover c n drv",
        ending: Ending::PutsAll(Numbered {
            head: "NETS 16382 COVERED 0\n",
            piece: "NET N# DARK\n",
            first: 1,
            end: 16_383,
        }),
    },
];

// For the covered nets, btest lists the drivers and receivers that no safe setting tests, and the pairs of nets that no safe setting
// observes together.
const UNTESTED: [Row; 6] = [
    Row {
        texts: &[
            (
                "c",
                Plain("DEVICE U1 TWO -\nDEVICE U2 RCV -\nDEVICE U3 RCV -"),
            ),
            (
                "n",
                Plain("NET A U1.1 U2.1\nNET X U1.2 U1.3 U2.2\nNET B U1.4 U3.1"),
            ),
        ],
        line: "cover c n two rcv",
        ending: Ending::Puts("NETS 3 COVERED 3\nPAIR A B\n"),
    },
    Row {
        texts: &[
            ("c", Plain("DEVICE U1 BI -\nDEVICE U2 TS -")),
            ("n", Plain("NET N U1.1 U2.1")),
        ],
        line: "cover c n bi ts",
        ending: Ending::Puts("NETS 1 COVERED 1\nDRIVER U1.1\n"),
    },
    // A net may have one driver that is always on. No other driver of the net can then be enabled.
    Row {
        texts: &[
            (
                "c",
                Plain("DEVICE U1 DRV -\nDEVICE U2 TS -\nDEVICE U3 RCV1 -"),
            ),
            ("n", Plain("NET N U1.1 U2.1 U3.1")),
        ],
        line: "cover c n drv ts rcv1",
        ending: Ending::Puts("NETS 1 COVERED 1\nDRIVER U2.1\n"),
    },
    // The receiver U1.1 is not tested, since the only driver of its net is on the same pin.
    Row {
        texts: &[
            ("c", Plain("DEVICE U1 BI -\nDEVICE U2 RCV1 -")),
            ("n", Plain("NET N U1.1 U2.1")),
        ],
        line: "cover c n bi rcv1",
        ending: Ending::Puts("NETS 1 COVERED 1\nRECEIVER U1.1\n"),
    },
    // An open-drain driver can be enabled safely only if its net is pulled to its disable value.
    Row {
        texts: &[
            (
                "c",
                Plain("DEVICE U1 OD -\nDEVICE U2 TS -\nDEVICE U3 RCV1 -"),
            ),
            ("n", Plain("NET N U1.1 U2.1 U3.1")),
        ],
        line: "cover c n od ts rcv1",
        ending: Ending::Puts("NETS 1 COVERED 1\nDRIVER U1.1\n"),
    },
    Row {
        texts: &[
            (
                "c",
                Plain("DEVICE U1 FOUR -\nDEVICE U2 RCV -\nDEVICE U3 RCV -\nDEVICE U4 RCV -"),
            ),
            (
                "n",
                Plain(
                    "NET X U1.1 U1.5 U2.1\nNET Y U1.2 U1.7 U2.2\nNET Z U1.3 U1.8 U3.1\nNET P U1.4 U3.2\nNET R U1.6 U4.1",
                ),
            ),
        ],
        line: "cover c n four rcv",
        ending: Ending::Puts("NETS 5 COVERED 5\n"),
    },
];

const LINKED_NETS: Named = (
    "n",
    Plain("NET N1A U1.1 R1.1\nNET N1B R1.2 U2.1\nNET N2 U1.2 U2.2"),
);

// Rows in which a LINK line joins two nets.
const LINKS: [Row; 3] = [
    Row {
        texts: &[
            ("c", Plain("DEVICE U1 DRV -\nDEVICE U2 RCV -\nLINK R1 1 2")),
            LINKED_NETS,
        ],
        line: "cover c n drv rcv",
        ending: Ending::Puts("NETS 2 COVERED 2\n"),
    },
    Row {
        texts: &[("c", Plain(CHAIN)), LINKED_NETS],
        line: "cover c n drv rcv",
        ending: Ending::Puts("NETS 3 COVERED 1\nNET N1A DARK\nNET N1B DARK\n"),
    },
    // Two joined nets may name the same pin, since they are one net.
    Row {
        texts: &[
            ("c", Plain("DEVICE U1 DRV -\nDEVICE U2 RCV -\nLINK R1 1 2")),
            (
                "n",
                Plain("NET N1A U1.1 R1.1\nNET N1B R1.2 U2.1 U1.1\nNET N2 U1.2 U2.2"),
            ),
        ],
        line: "cover c n drv rcv",
        ending: Ending::Puts("NETS 2 COVERED 2\n"),
    },
];

// Boards on which each net is covered or has no driver. Most rows are about line ends, repeated pins and
// names.
const COVERED: [Row; 6] = [
    Row {
        texts: &[("c", Plain(CHAIN)), ("n", Plain(NETS))],
        line: "cover c n drv rcv",
        ending: Ending::Puts("NETS 2 COVERED 2\n"),
    },
    // Lines that end with CR LF.
    Row {
        texts: &[
            ("c", Plain("DEVICE U1 DRV -\r\nDEVICE U2 RCV -\r\n")),
            (
                "n",
                Plain("NET N1 U1.1 U2.1\r\n\r\nNET N2 U1.2 U2.2 # two\r\n"),
            ),
        ],
        line: "cover c n drv rcv",
        ending: Ending::Puts("NETS 2 COVERED 2\n"),
    },
    // A pin that a net names twice counts once, so this net has one driver that is always on.
    Row {
        texts: &[
            ("c", Plain(CHAIN)),
            (
                "n",
                Plain("NET N1 U1.1 U1.1 U2.1\nNET N2 U1.2 U2.2\nNET N1 U2.1 U1.1"),
            ),
        ],
        line: "cover c n drv rcv",
        ending: Ending::Puts("NETS 2 COVERED 2\n"),
    },
    // Names of nets are case-sensitive. A name may have a dot, and a number sign that is not its first character. A net may have no pins.
    Row {
        texts: &[
            ("c", Plain(CHAIN)),
            (
                "n",
                Plain("NET N U1.1 U2.1 # U2.2\nNET n\nNET W.E# #U1.2\n#NET M U1.2"),
            ),
        ],
        line: "cover c n drv rcv",
        ending: Ending::Puts("NETS 3 COVERED 1\nNET n NODRIVER\nNET W.E# NODRIVER\n"),
    },
    // A board without a DEVICE line needs no BSDL text.
    Row {
        texts: &[("c", Plain("BYPASS U1 2")), ("n", Plain("NET N"))],
        line: "cover c n",
        ending: Ending::Puts("NETS 1 COVERED 0\nNET N NODRIVER\n"),
    },
    // Names of entities, packages and pins are not case-sensitive.
    Row {
        texts: &[
            ("c", Plain("DEVICE U1 buf2 fk\nDEVICE U2 RCV1 -")),
            ("n", Plain("NET N U1.b1 U2.1")),
        ],
        line: "cover c n buf2 rcv1",
        ending: Ending::Puts("NETS 1 COVERED 1\n"),
    },
];

// The files of a three-state driver and a receiver. The rows change the text of the receiver.
const BESIDE: [Named; 2] = [
    ("c", Plain("DEVICE U1 TS -\nDEVICE U2 RCV1 -\n")),
    ("n", Plain("NET N U1.1 U2.1")),
];

const COVERED_LIST: Ending<'static> = Ending::Puts("NETS 1 COVERED 1\n");

const OBSERVERS: [Run; 3] = [
    (Plain(RCV1), COVERED_LIST),
    (Edited(RCV1, &[("D, input", "D, clock")]), COVERED_LIST),
    (
        Edited(RCV1, &[("D, input", "D, observe_only")]),
        Ending::Puts("NETS 1 COVERED 0\nNET N NORECEIVER\n"),
    ),
];

const SUPPLIED: [Row; 1] = [Row {
    texts: &[("c", Plain("DEVICE U1 TS -\nDEVICE U2 RCV1 -\nSUPPLY N"))],
    line: "cover c n ts rcv1",
    ending: Ending::Puts("NETS 1 COVERED 0\nNET N SUPPLY\n"),
}];

const COMPLIANT: [Run; 1] = [(
    Edited(
        RCV1,
        &[(
            "end RCV1;",
            "attribute COMPLIANCE_PATTERNS of RCV1 : entity is \"(D) (1)\";\nend RCV1;",
        )],
    ),
    Ending::Puts("NETS 1 COVERED 0\nNET N TESTPORT\n"),
)];

const BESIDE_TWO_PINS: [Named; 2] = [
    ("c", Plain("DEVICE U1 TS -\nDEVICE U2 RCV1 -\n")),
    ("n", Plain("NET N U1.1 U2.1 U2.2")),
];

const DARK: Ending<'static> = Ending::Puts("NETS 1 COVERED 0\nNET N DARK\n");

const TWO_PINS: (&str, &str) = ("D:1", "D:1, E:2");

const READ_TWICE: (&str, &str) = ("D, input, X)\"", "D, input, X), 1 (BC_1, E, input, X)\"");

// Each text adds a pin E that makes the net dark: a linkage pin, an input pin without an entry, or a pin of mode out, inout or buffer
// without a driving entry.
const UNRULED: [Run; 5] = [
    (
        Edited(
            RCV1,
            &[("D : in bit", "D : in bit; E : linkage bit"), TWO_PINS],
        ),
        DARK,
    ),
    (
        Edited(RCV1, &[("D : in bit", "D : in bit; E : in bit"), TWO_PINS]),
        DARK,
    ),
    (
        Edited(
            RCV1,
            &[
                ("D : in bit", "D : in bit; E : out bit"),
                TWO_PINS,
                ("entity is 1;", "entity is 2;"),
                READ_TWICE,
            ],
        ),
        DARK,
    ),
    (
        Edited(
            RCV1,
            &[
                ("D : in bit", "D : in bit; E : inout bit"),
                TWO_PINS,
                ("entity is 1;", "entity is 2;"),
                READ_TWICE,
            ],
        ),
        DARK,
    ),
    (
        Edited(
            RCV1,
            &[
                ("D : in bit", "D : in bit; E : buffer bit"),
                TWO_PINS,
                ("entity is 1;", "entity is 2;"),
                READ_TWICE,
            ],
        ),
        DARK,
    ),
];

static REASON_TABLES: [Table; 3] = [
    Table {
        name: "a net that is not covered has its first reason",
        texts: &[],
        rows: Rows::Runs(&REASONS),
    },
    Table {
        name: "names may be long",
        texts: &[],
        rows: Rows::Runs(&LONG_NAMES),
    },
    Table {
        name: "a part without a description darkens its nets",
        texts: &[],
        rows: Rows::Runs(&DARKENED),
    },
];

#[test]
fn nets_that_are_not_covered_have_their_reasons(rt: HostRuntime) -> Result<(), RowFault> {
    tables_hold(&rt, rt.alloc(), &REASON_TABLES)
}

static LIST_TABLES: [Table; 3] = [
    Table {
        name: "drivers and pairs that no safe setting tests are listed",
        texts: &[],
        rows: Rows::Runs(&UNTESTED),
    },
    Table {
        name: "a link joins two nets",
        texts: &[],
        rows: Rows::Runs(&LINKS),
    },
    Table {
        name: "a driver and a receiver are covered",
        texts: &[],
        rows: Rows::Runs(&COVERED),
    },
];

#[test]
fn what_no_safe_setting_tests_is_listed(rt: HostRuntime) -> Result<(), RowFault> {
    tables_hold(&rt, rt.alloc(), &LIST_TABLES)
}

static GUARD_TABLES: [Table; 2] = [
    Table {
        name: "a cell that only observes is no receiver",
        texts: &BESIDE,
        rows: Rows::Texts("cover c n ts changed", "changed", &OBSERVERS),
    },
    Table {
        name: "a supply guards its net",
        texts: &BESIDE,
        rows: Rows::Runs(&SUPPLIED),
    },
];

#[test]
fn observers_and_supplies_are_no_readers(rt: HostRuntime) -> Result<(), RowFault> {
    tables_hold(&rt, rt.alloc(), &GUARD_TABLES)
}

static DARK_TABLES: [Table; 2] = [
    Table {
        name: "compliance pins guard their nets",
        texts: &BESIDE,
        rows: Rows::Texts("cover c n ts changed", "changed", &COMPLIANT),
    },
    Table {
        name: "pins that nobody rules darken their nets",
        texts: &BESIDE_TWO_PINS,
        rows: Rows::Texts("cover c n ts changed", "changed", &UNRULED),
    },
];

#[test]
fn compliance_pins_and_unruled_pins_end_coverage(rt: HostRuntime) -> Result<(), RowFault> {
    tables_hold(&rt, rt.alloc(), &DARK_TABLES)
}
