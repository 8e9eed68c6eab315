// Table-driven tests of texts that do not describe a board, and of texts that are just within a limit. For texts that do not describe a
// board, a row has the refusal line, which is the line on standard error that reports the first fault of the texts.
use run_bench::Text::{Edited, Numbered, Plain};
use run_bench::{CHAIN, Case, Ending, NETS, Named, RCV1, RowFault, Rows, Run, Table, tables_hold};

const CHAINS: [Case; 10] = [
    ("", NETS, "drv rcv", "c: no part in the chain\n"),
    (
        "DEVICE U1 DRV -\nBYPASS U1 3",
        NETS,
        "drv rcv",
        "c line 2: part twice\n",
    ),
    (
        "DEVICE U1 XYZ -\nDEVICE U2 RCV -",
        NETS,
        "drv rcv",
        "c line 1: entity not given\n",
    ),
    (
        "DEVICE U1 XYZ -\nDEVICE U1 RCV -",
        NETS,
        "drv rcv",
        "c line 2: part twice\n",
    ),
    (CHAIN, NETS, "drv rcv drv", "drv: entity given twice\n"),
    (
        "DEVICE U1 DRV -\nDEVICE U2 RCV -\nINERT U1",
        NETS,
        "drv rcv",
        "c line 3: inert part in the chain\n",
    ),
    (
        "DEVICE U1 DRV -\nDEVICE U2 RCV -\nSUPPLY VCC",
        NETS,
        "drv rcv",
        "c line 3: supply net not there\n",
    ),
    // Names of nets are case-sensitive.
    (
        "DEVICE U1 DRV -\nDEVICE U2 RCV -\nSUPPLY n1",
        NETS,
        "drv rcv",
        "c line 3: supply net not there\n",
    ),
    // Like an INERT line, a LINK line must not name a part of the chain.
    (
        "DEVICE U1 DRV -\nDEVICE U2 RCV -\nLINK U1 1 2",
        NETS,
        "drv rcv",
        "c line 3: inert part in the chain\n",
    ),
    (
        "DEVICE U1 DRV -\nDEVICE U2 RCV -\nSUPPLY N1",
        NETS,
        "drv rcv",
        "n line 1 word 3: driver on a guarded net\n",
    ),
];

const NET_FILES: [Case; 15] = [
    (
        CHAIN,
        "NET N1 U1.9",
        "drv rcv",
        "n line 1 word 3: no such pin\n",
    ),
    (
        "DEVICE U1 buf2 -\nDEVICE U2 RCV1 -",
        "NET N U1.b1 U2.1",
        "buf2 rcv1",
        "n line 1 word 3: no such pin\n",
    ),
    (
        CHAIN,
        "NET N1 U1.1 U2.1\nNET N2 U1.1",
        "drv rcv",
        "n line 2 word 3: pin in two nets\n",
    ),
    // Both nets name the pin U1.1 twice.
    (
        CHAIN,
        "NET N1 U1.1 U1.1\nNET N2 U2.1 U1.1 U1.1",
        "drv rcv",
        "n line 2 word 4: pin in two nets\n",
    ),
    (
        "BYPASS U1 2",
        "NET N1 P.abcdefghijklmnopqrstuvwxyz\nNET N2 P.ABCDEFGHIJKLMNOPQRSTUVWXYZ",
        "drv",
        "n line 2 word 3: pin in two nets\n",
    ),
    (CHAIN, "NETS N1 U1.1", "drv rcv", "n line 1: no statement\n"),
    (CHAIN, "net N1 U1.1", "drv rcv", "n line 1: no statement\n"),
    (CHAIN, "NET", "drv rcv", "n line 1: no statement\n"),
    (CHAIN, "NET #N1 U1.1", "drv rcv", "n line 1: no statement\n"),
    // A byte order mark at the beginning of the net file.
    (
        CHAIN,
        "\u{feff}NET N1 U1.1",
        "drv rcv",
        "n line 1: no statement\n",
    ),
    (
        CHAIN,
        "NET N1 U1.",
        "drv rcv",
        "n line 1: word not allowed\n",
    ),
    (
        CHAIN,
        "NET N1 U1",
        "drv rcv",
        "n line 1: word not allowed\n",
    ),
    (
        CHAIN,
        "NET N1\nNET N2 .1",
        "drv rcv",
        "n line 2: word not allowed\n",
    ),
    (
        CHAIN,
        "NET N\x7f U1.1",
        "drv rcv",
        "n line 1: word not allowed\n",
    ),
    (
        "DEVICE U1 DRV -\nDEVICE U2 DRV -",
        "NET N U1.1 U2.1",
        "drv",
        "n line 1 word 4: two drivers always on\n",
    ),
];

// A net file in which the resistor R1 connects the driver's net N1A with the receiver's net N1B.
const LINK_NETS: &str = "NET N1A U1.1 R1.1\nNET N1B R1.2 U2.1\nNET N2 U1.2 U2.2";

const LINKS_AND_PULLS: [Case; 8] = [
    (
        "DEVICE U1 DRV -\nDEVICE U2 RCV -\nLINK R1 1 9",
        LINK_NETS,
        "drv rcv",
        "c line 3 word 4: link pin not in a net\n",
    ),
    // Nets that a LINK line joins are one net, so only one PULL line may name them. If one of them is a supply, the joined net is a supply.
    (
        "DEVICE U1 DRV -\nDEVICE U2 RCV -\nLINK R1 1 2\nPULL N1A 1\nPULL N1B 1",
        LINK_NETS,
        "drv rcv",
        "c line 5: net pulled twice\n",
    ),
    (
        "DEVICE U1 DRV -\nDEVICE U2 RCV -\nLINK R1 1 2\nSUPPLY N1B",
        LINK_NETS,
        "drv rcv",
        "n line 1 word 3: driver on a guarded net\n",
    ),
    // Each of the two nets that the LINK line joins has a driver that is always on.
    (
        "DEVICE U1 DRV -\nDEVICE U2 DRV -\nLINK R1 1 2",
        "NET N1A U1.1 R1.1\nNET N1B R1.2 U2.1",
        "drv",
        "n line 2 word 4: two drivers always on\n",
    ),
    // btest refuses a SUPPLY line if the net file does not have its net, even if there are LINK lines.
    (
        "DEVICE U1 DRV -\nDEVICE U2 RCV -\nLINK R1 1 2\nSUPPLY GND",
        LINK_NETS,
        "drv rcv",
        "c line 4: supply net not there\n",
    ),
    // Two nets that no LINK line joins must not name the same pin.
    (
        CHAIN,
        "NET N1A U1.1 R1.1\nNET N1B R1.2 U2.1 U1.1\nNET N2 U1.2 U2.2",
        "drv rcv",
        "n line 2 word 5: pin in two nets\n",
    ),
    (
        "DEVICE U1 OD -\nDEVICE U2 RCV1 -\nPULL N 1\nPULL N 1",
        "NET N U1.1 U2.1",
        "od rcv1",
        "c line 4: net pulled twice\n",
    ),
    (
        "DEVICE U1 OD -\nDEVICE U2 RCV1 -\nPULL N 1\nPULL M 1",
        "NET N U1.1 U2.1",
        "od rcv1",
        "c line 4: pulled net not there\n",
    ),
];

// A driver that is always on must not drive a net with a pin of the test access port or with a pin that compliance patterns name.
const GUARDED: [Case; 2] = [
    (
        CHAIN,
        "NET N1 U1.1 U2.T3",
        "drv rcv",
        "n line 1 word 3: driver on a guarded net\n",
    ),
    (
        "DEVICE U1 DRV -\nDEVICE U2 RCV1 -",
        "NET N U2.1 U1.1",
        "drv complying",
        "n line 1 word 4: driver on a guarded net\n",
    ),
];

const COMPLYING: [Named; 1] = [(
    "complying",
    Edited(
        RCV1,
        &[(
            "end RCV1;",
            "attribute COMPLIANCE_PATTERNS of RCV1 : entity is \"(D) (1)\";\nend RCV1;",
        )],
    ),
)];

// A net file with more nets than a board may have.
const MANY_NETS: [Run; 1] = [(
    Numbered {
        head: "",
        piece: "NET N# X.#\n",
        first: 0,
        end: 16_383,
    },
    Ending::Refused("limit: nets\n"),
)];

// Two nets that a LINK line joins count as one net.
const MANY_JOINED_NETS: [Run; 2] = [
    (
        Numbered {
            head: "NET A R1.1\nNET B R1.2\n",
            piece: "NET N# X.#\n",
            first: 0,
            end: 16_381,
        },
        Ending::PutsAll(Numbered {
            head: "NETS 16382 COVERED 0\nNET A NODRIVER\n",
            piece: "NET N# DARK\n",
            first: 0,
            end: 16_381,
        }),
    ),
    (
        Numbered {
            head: "NET A R1.1\nNET B R1.2\n",
            piece: "NET N# X.#\n",
            first: 0,
            end: 16_382,
        },
        Ending::Refused("limit: nets\n"),
    ),
];

const MANY_PINS: [Run; 3] = [
    (
        Numbered {
            head: "NET N",
            piece: " X.#",
            first: 0,
            end: 65_536,
        },
        Ending::Refused("limit: pins\n"),
    ),
    // A pin that the net names twice counts once.
    (
        Numbered {
            head: "NET N X.0",
            piece: " X.#",
            first: 0,
            end: 65_535,
        },
        Ending::Scans(
            "SIR 2 TDI (3) TDO (1) MASK (3);\nSDR 1 TDI (0);\nSIR 2 TDI (3) TDO (1) MASK (3);\n",
        ),
    ),
    // A pin in two nets also counts once, so there are not too many pins, and btest reports that this pin is in two nets.
    (
        Numbered {
            head: "NET M X.0\nNET N",
            piece: " X.#",
            first: 0,
            end: 65_535,
        },
        Ending::Refused("n line 2 word 3: pin in two nets\n"),
    ),
];

static TABLES: [Table; 4] = [
    Table {
        name: "the first board rule that fails is told",
        texts: &[],
        rows: Rows::Boards(&CHAINS),
    },
    Table {
        name: "the first fault of a net file is told",
        texts: &[],
        rows: Rows::Boards(&NET_FILES),
    },
    Table {
        name: "links and pulls that name nothing are told",
        texts: &[],
        rows: Rows::Boards(&LINKS_AND_PULLS),
    },
    Table {
        name: "no driver is always on where a net has a pin of a test port or a compliance pin",
        texts: &COMPLYING,
        rows: Rows::Boards(&GUARDED),
    },
];

#[test]
fn texts_that_denote_no_board_are_refused(rt: HostRuntime) -> Result<(), RowFault> {
    tables_hold(&rt, rt.alloc(), &TABLES)
}

static LIMIT_TABLES: [Table; 3] = [
    Table {
        name: "a board has at most 16,382 nets",
        texts: &[("c", Plain("BYPASS U1 2"))],
        rows: Rows::Texts("cover c n drv", "n", &MANY_NETS),
    },
    Table {
        name: "a board has at most 16,382 nets once nets are joined",
        texts: &[("c", Plain("BYPASS U1 2\nLINK R1 1 2"))],
        rows: Rows::Texts("cover c n drv", "n", &MANY_JOINED_NETS),
    },
    Table {
        name: "a board has at most 65,535 pins",
        texts: &[("c", Plain("BYPASS U1 2"))],
        rows: Rows::Texts("svf c n drv", "n", &MANY_PINS),
    },
];

#[test]
fn nets_and_pins_have_limits(rt: HostRuntime) -> Result<(), RowFault> {
    tables_hold(&rt, rt.alloc(), &LIMIT_TABLES)
}
