// Table-driven tests of the command `svf`, which writes the test of a board as SVF text. The test consists of
// passes. A pass is the part of the test with one safe setting, which is a set of enabled controls.
use run_bench::Text::{Cells, Edited, Plain, Repeated};
use run_bench::{
    BI, CHAIN, Ending, NETS, RCV1, Row, RowFault, Rows, SCANS, TS, Table, Trouble, tables_hold,
};

const CODES: [Row; 5] = [
    Row {
        texts: &[],
        line: "svf c n drv rcv",
        ending: Ending::Scans(SCANS),
    },
    Row {
        texts: &[("c", Plain("DEVICE U1 DRV1 -\nDEVICE U2 RCV -"))],
        line: "svf c n drv1 rcv",
        ending: Ending::Scans(
            "SIR 4 TDI (2) TDO (5) MASK (F);\nSDR 4 TDI (0);\nSIR 4 TDI (4) TDO (5) MASK (F);\n\
             SDR 4 TDI (4);\nSDR 4 TDI (8) TDO (1) MASK (3);\nSDR 4 TDI (0) TDO (2) MASK (3);\n",
        ),
    },
    Row {
        texts: &[("c", Plain("DEVICE U1 DRV -\nBYPASS U9 3\nDEVICE U2 RCV -"))],
        line: "svf c n drv rcv",
        ending: Ending::Scans(
            "SIR 7 TDI (5E) TDO (25) MASK (6F);\nSDR 5 TDI (00);\nSIR 7 TDI (1C) TDO (25) MASK (6F);\n\
             SDR 5 TDI (08);\nSDR 5 TDI (10) TDO (01) MASK (03);\nSDR 5 TDI (00) TDO (02) MASK (03);\n",
        ),
    },
    // The order of the BSDL texts differs from the order of the parts.
    Row {
        texts: &[("c", Plain("DEVICE U2 RCV -\nBYPASS U9 3\nDEVICE U1 DRV -"))],
        line: "svf c n drv rcv",
        ending: Ending::Scans(
            "SIR 7 TDI (5E) TDO (25) MASK (6F);\nSDR 5 TDI (00);\nSIR 7 TDI (1C) TDO (25) MASK (6F);\n\
             SDR 5 TDI (01);\nSDR 5 TDI (02) TDO (08) MASK (18);\nSDR 5 TDI (00) TDO (10) MASK (18);\n",
        ),
    },
    // btest begins the pass for net A's driver without a control, since this driver is always on. Then it adds the control of net B's
    // driver.
    Row {
        texts: &[
            (
                "c",
                Plain("DEVICE U1 DRV -\nDEVICE U2 TS -\nDEVICE U3 RCV -"),
            ),
            ("n", Plain("NET A U1.1 U3.1\nNET B U2.1 U3.2")),
        ],
        line: "svf c n drv ts rcv",
        ending: Ending::Scans(
            "SIR 6 TDI (2A) TDO (15) MASK (3F);\nSDR 6 TDI (08);\nSIR 6 TDI (00) TDO (15) MASK (3F);\n\
             SDR 6 TDI (10);\nSDR 6 TDI (04) TDO (01) MASK (03);\nSDR 6 TDI (08) TDO (02) MASK (03);\n",
        ),
    },
];

const BUS: &str = "DEVICE U1 TS -\nDEVICE U2 TS -\nDEVICE U3 RCV1 -";

// A net has a pass for each of its drivers, in the order of the net's pins. This order may differ from the order of the parts.
const BUSES: [Row; 2] = [
    Row {
        texts: &[("c", Plain(BUS)), ("n", Plain("NET BUS U1.1 U2.1 U3.1"))],
        line: "svf c n ts rcv1",
        ending: Ending::Scans(
            "SIR 6 TDI (2A) TDO (15) MASK (3F);\nSDR 5 TDI (14);\nSIR 6 TDI (00) TDO (15) MASK (3F);\n\
             SDR 5 TDI (0C);\nSDR 5 TDI (04) TDO (01) MASK (01);\nSDR 5 TDI (14) TDO (00) MASK (01);\n\
             SDR 5 TDI (12);\nSDR 5 TDI (10) TDO (01) MASK (01);\nSDR 5 TDI (14) TDO (00) MASK (01);\n",
        ),
    },
    Row {
        texts: &[("c", Plain(BUS)), ("n", Plain("NET BUS U2.1 U1.1 U3.1"))],
        line: "svf c n ts rcv1",
        ending: Ending::Scans(
            "SIR 6 TDI (2A) TDO (15) MASK (3F);\nSDR 5 TDI (14);\nSIR 6 TDI (00) TDO (15) MASK (3F);\n\
             SDR 5 TDI (12);\nSDR 5 TDI (10) TDO (01) MASK (01);\nSDR 5 TDI (14) TDO (00) MASK (01);\n\
             SDR 5 TDI (0C);\nSDR 5 TDI (04) TDO (01) MASK (01);\nSDR 5 TDI (14) TDO (00) MASK (01);\n",
        ),
    },
];

const ALONE: [Row; 4] = [
    Row {
        texts: &[
            ("c", Plain(CHAIN)),
            ("n", Plain("NET N1 U1.1 U2.1 RAM.7\nNET N2 U1.2 U2.2")),
        ],
        line: "svf c n drv rcv",
        ending: Ending::Scans(
            "SIR 4 TDI (A) TDO (5) MASK (F);\nSDR 4 TDI (0);\nSIR 4 TDI (0) TDO (5) MASK (F);\n\
         SDR 4 TDI (8);\nSDR 4 TDI (0) TDO (2) MASK (2);\nSDR 4 TDI (0) TDO (0) MASK (2);\n",
        ),
    },
    Row {
        texts: &[
            ("c", Plain("DEVICE U1 BUF2 -\nDEVICE U2 BUF2 -\nSUPPLY VCC")),
            (
                "n",
                Plain(
                    "NET N0 U1.5 U2.3\nNET N1 U1.4 U2.2\nNET OE U1.1 U2.1\nNET VCC U1.7 U2.7 C1.1\nNET TCK U1.10 U2.10 J1.1",
                ),
            ),
        ],
        line: "svf c n buf2",
        ending: Ending::Scans(
            "SIR 4 TDI (A) TDO (5) MASK (F);\nSDR 10 TDI (210);\nSIR 4 TDI (0) TDO (5) MASK (F);\n\
         SDR 10 TDI (030);\nSDR 10 TDI (050) TDO (004) MASK (00C);\nSDR 10 TDI (210) TDO (008) MASK (00C);\n",
        ),
    },
    // A board without a DEVICE line needs no BSDL text.
    Row {
        texts: &[("c", Plain("BYPASS U1 2")), ("n", Plain(""))],
        line: "svf c n",
        ending: Ending::Scans(
            "SIR 2 TDI (3) TDO (1) MASK (3);\nSDR 1 TDI (0);\nSIR 2 TDI (3) TDO (1) MASK (3);\n",
        ),
    },
    Row {
        texts: &[("c", Plain("DEVICE U2 RCV -")), ("n", Plain("NET N1 U2.1"))],
        line: "svf c n rcv",
        ending: Ending::Scans(
            "SIR 2 TDI (2) TDO (1) MASK (3);\nSDR 2 TDI (0);\nSIR 2 TDI (0) TDO (1) MASK (3);\n",
        ),
    },
];

const PULLED: [Row; 1] = [Row {
    texts: &[
        ("c", Plain("DEVICE U1 OD -\nDEVICE U2 RCV1 -\nPULL N 1")),
        ("n", Plain("NET N U1.1 U2.1")),
    ],
    line: "svf c n od rcv1",
    ending: Ending::Scans(
        "SIR 4 TDI (A) TDO (5) MASK (F);\nSDR 2 TDI (2);\nSIR 4 TDI (0) TDO (5) MASK (F);\n\
         SDR 2 TDI (2);\nSDR 2 TDI (0) TDO (1) MASK (1);\nSDR 2 TDI (2) TDO (0) MASK (1);\n",
    ),
}];

const LINKED: [Row; 2] = [
    Row {
        texts: &[
            ("c", Plain("DEVICE U1 DRV -\nDEVICE U2 RCV -\nLINK R1 1 2")),
            (
                "n",
                Plain("NET N1A U1.1 R1.1\nNET N1B R1.2 U2.1\nNET N2 U1.2 U2.2"),
            ),
        ],
        line: "svf c n drv rcv",
        ending: Ending::Scans(SCANS),
    },
    // Names of pins are not case-sensitive.
    Row {
        texts: &[
            ("c", Plain("DEVICE U1 DRV -\nDEVICE U2 RCV -\nLINK R1 a B")),
            (
                "n",
                Plain("NET N1A U1.1 R1.A\nNET N1B R1.b U2.1\nNET N2 U1.2 U2.2"),
            ),
        ],
        line: "svf c n drv rcv",
        ending: Ending::Scans(SCANS),
    },
];

// Boards with passes that are needed only to observe two nets together. On the first board, the third pass is needed for A and D, and the
// fourth for B and C. On the second board, the last pass is needed for A and C. The driver of A can be enabled together with either driver
// of C, and this pass enables the driver that net C names first.
const TOGETHER: [Row; 2] = [
    Row {
        texts: &[
            (
                "c",
                Plain(
                    "DEVICE U1 TWO -\nDEVICE U2 RCV -\nDEVICE U3 RCV -\nDEVICE U4 TWO -\nDEVICE U5 RCV -\nDEVICE U6 RCV -",
                ),
            ),
            (
                "n",
                Plain(
                    "NET A U1.1 U2.1\nNET X U1.2 U1.3 U2.2\nNET B U1.4 U3.1\nNET C U4.1 U5.1\nNET Y U4.2 U4.3 U5.2\nNET D U4.4 U6.1",
                ),
            ),
        ],
        line: "svf c n two rcv",
        ending: Ending::Scans(
            "SIR 12 TDI (AAA) TDO (555) MASK (FFF);\nSDR 20 TDI (C0300);\nSIR 12 TDI (000) TDO (555) MASK (FFF);\n\
             SDR 20 TDI (84220);\nSDR 20 TDI (88200) TDO (01008) MASK (0300C);\nSDR 20 TDI (80230) TDO (02000) MASK (0300C);\n\
             SDR 20 TDI (C0300) TDO (0000C) MASK (0300C);\nSDR 20 TDI (60140);\nSDR 20 TDI (70180) TDO (00408) MASK (02409);\n\
             SDR 20 TDI (401C0) TDO (02401) MASK (02409);\nSDR 20 TDI (C0300) TDO (00009) MASK (02409);\nSDR 20 TDI (84140);\n\
             SDR 20 TDI (88180) TDO (01008) MASK (03009);\nSDR 20 TDI (801C0) TDO (02001) MASK (03009);\n\
             SDR 20 TDI (C0300) TDO (00009) MASK (03009);\nSDR 20 TDI (60220);\nSDR 20 TDI (70200) TDO (00408) MASK (0240C);\n\
             SDR 20 TDI (40230) TDO (02400) MASK (0240C);\nSDR 20 TDI (C0300) TDO (0000C) MASK (0240C);\n",
        ),
    },
    Row {
        texts: &[
            (
                "c",
                Plain("DEVICE U1 TS -\nDEVICE U2 FOUR -\nDEVICE U3 RCV -\nDEVICE U4 RCV -"),
            ),
            (
                "n",
                Plain(
                    "NET A U2.5 U3.1\nNET B U1.1 U2.7 U2.1 U3.2\nNET C U2.2 U2.8 U4.1\nNET D U2.3 U2.6 U4.2",
                ),
            ),
        ],
        line: "svf c n ts four rcv",
        ending: Ending::Scans(
            "SIR 8 TDI (AA) TDO (55) MASK (FF);\nSDR 18 TDI (2F000);\nSIR 8 TDI (00) TDO (55) MASK (FF);\n\
             SDR 18 TDI (0B100);\nSDR 18 TDI (1B000) TDO (00004) MASK (0000E);\nSDR 18 TDI (0B200) TDO (00008) MASK (0000E);\n\
             SDR 18 TDI (2F000) TDO (00002) MASK (0000E);\nSDR 18 TDI (25800);\nSDR 18 TDI (25C00) TDO (00001) MASK (0000B);\n\
             SDR 18 TDI (25040) TDO (00009) MASK (0000B);\nSDR 18 TDI (2F000) TDO (00002) MASK (0000B);\nSDR 18 TDI (2C020);\n\
             SDR 18 TDI (2C030) TDO (00001) MASK (0000B);\nSDR 18 TDI (2C040) TDO (00009) MASK (0000B);\n\
             SDR 18 TDI (2F000) TDO (00002) MASK (0000B);\nSDR 18 TDI (2A120);\nSDR 18 TDI (2A030) TDO (00005) MASK (0000F);\n\
             SDR 18 TDI (2A200) TDO (00009) MASK (0000F);\nSDR 18 TDI (2F000) TDO (00002) MASK (0000F);\n",
        ),
    },
];

// Boards with controls that must not be enabled together. The passes of the first board enable the controls of cells 8 and 9, then of 10
// and 11, and then of 9 and 10. The passes of the second board enable the control of cell 4, and then the control of cell 5.
const APART: [Row; 2] = [
    Row {
        texts: &[
            (
                "c",
                Plain("DEVICE U1 FOUR -\nDEVICE U2 RCV -\nDEVICE U3 RCV -\nDEVICE U4 RCV -"),
            ),
            (
                "n",
                Plain(
                    "NET X U1.1 U1.5 U2.1\nNET Y U1.2 U1.7 U2.2\nNET Z U1.3 U1.8 U3.1\nNET P U1.4 U3.2\nNET R U1.6 U4.1",
                ),
            ),
        ],
        line: "svf c n four rcv",
        ending: Ending::Scans(
            "SIR 8 TDI (AA) TDO (55) MASK (FF);\nSDR 18 TDI (3C000);\nSIR 8 TDI (00) TDO (55) MASK (FF);\n\
         SDR 18 TDI (30140);\nSDR 18 TDI (30180) TDO (00014) MASK (0003C);\n\
         SDR 18 TDI (30200) TDO (00024) MASK (0003C);\nSDR 18 TDI (3C000) TDO (00008) MASK (0003C);\n\
         SDR 18 TDI (0EC00);\nSDR 18 TDI (0F000) TDO (00015) MASK (00035);\n\
         SDR 18 TDI (0C800) TDO (00024) MASK (00035);\nSDR 18 TDI (3C000) TDO (00001) MASK (00035);\n\
         SDR 18 TDI (24D00);\nSDR 18 TDI (24100) TDO (00015) MASK (0001D);\n\
         SDR 18 TDI (24A00) TDO (00004) MASK (0001D);\nSDR 18 TDI (3C000) TDO (00009) MASK (0001D);\n",
        ),
    },
    Row {
        texts: &[
            (
                "c",
                Plain("DEVICE U1 TWO -\nDEVICE U2 RCV -\nDEVICE U3 RCV -"),
            ),
            (
                "n",
                Plain("NET A U1.1 U2.1\nNET X U1.2 U1.3 U2.2\nNET B U1.4 U3.1"),
            ),
        ],
        line: "svf c n two rcv",
        ending: Ending::Scans(
            "SIR 6 TDI (2A) TDO (15) MASK (3F);\nSDR 10 TDI (300);\nSIR 6 TDI (00) TDO (15) MASK (3F);\n\
         SDR 10 TDI (210);\nSDR 10 TDI (220) TDO (004) MASK (00C);\n\
         SDR 10 TDI (200) TDO (008) MASK (00C);\nSDR 10 TDI (300) TDO (000) MASK (00C);\n\
         SDR 10 TDI (180);\nSDR 10 TDI (1C0) TDO (001) MASK (009);\n\
         SDR 10 TDI (100) TDO (009) MASK (009);\nSDR 10 TDI (300) TDO (000) MASK (009);\n",
        ),
    },
];

const FAILING: [(Trouble, Row); 2] = [
    // The chain file is too long, and the read of the net file would fail.
    (
        Trouble::Read(2),
        Row {
            texts: &[("c", Repeated(" ", 4_194_305))],
            line: "svf c n drv rcv",
            ending: Ending::Refused("c: longer than 4194304 bytes\n"),
        },
    ),
    // The read of the chain file fails, and the net file would be too long.
    (
        Trouble::Read(1),
        Row {
            texts: &[("c", Plain(CHAIN)), ("n", Repeated(" ", 4_194_305))],
            line: "svf c n drv rcv",
            ending: Ending::NotRead("cannot read c\n"),
        },
    ),
];

const NOT_HELD: [Row; 1] = [Row {
    texts: &[("c", Plain(CHAIN)), ("n", Plain(NETS))],
    line: "svf c n drv none",
    ending: Ending::NotRead("cannot read none\n"),
}];

// The change that adds a third cell to a device with two cells.
const THREE_CELLS: (&str, &str) = (
    "entity is 2;\nattribute BOUNDARY_REGISTER",
    "entity is 3;\nattribute BOUNDARY_REGISTER",
);

const INTERNAL: [(&str, &str); 2] = [
    THREE_CELLS,
    ("control, 1)\"", "control, 1), 2 (BC_1, *, internal, 1)\""),
];

const SAFE: [Row; 4] = [
    Row {
        texts: &[
            ("c", Plain("DEVICE U1 TS -\nDEVICE U2 RCV1 -")),
            ("n", Plain("NET N U1.1 U2.1")),
            ("u1", Edited(TS, &INTERNAL)),
        ],
        line: "svf c n u1 rcv1",
        ending: Ending::Scans(
            "SIR 4 TDI (A) TDO (5) MASK (F);\nSDR 4 TDI (C);\nSIR 4 TDI (0) TDO (5) MASK (F);\n\
         SDR 4 TDI (A);\nSDR 4 TDI (8) TDO (1) MASK (1);\nSDR 4 TDI (C) TDO (0) MASK (1);\n",
        ),
    },
    // A pin can be a driver even if it is in no net. Its control then holds the disable value and not the safe value.
    Row {
        texts: &[
            ("c", Plain("DEVICE U1 TS -")),
            ("n", Plain("")),
            ("u1", Edited(TS, &[UNSAFE_CONTROL])),
        ],
        line: "svf c n u1",
        ending: Ending::Scans(
            "SIR 2 TDI (2) TDO (1) MASK (3);\nSDR 2 TDI (2);\nSIR 2 TDI (0) TDO (1) MASK (3);\n",
        ),
    },
    // A port bit without a pin is not a driver. Its control holds the safe value.
    Row {
        texts: &[
            ("c", Plain("DEVICE U1 TS -")),
            ("n", Plain("")),
            ("u1", Edited(TS, &[UNSAFE_CONTROL, (", Q:1", "")])),
        ],
        line: "svf c n u1",
        ending: Ending::Scans(
            "SIR 2 TDI (2) TDO (1) MASK (3);\nSDR 2 TDI (0);\nSIR 2 TDI (0) TDO (1) MASK (3);\n",
        ),
    },
    // The cell of an open-drain driver in no net holds the disable value and not the safe value.
    Row {
        texts: &[
            ("c", Plain("DEVICE U1 OWN -")),
            ("n", Plain("")),
            ("u1", Edited(RCV1, &OWN_CONTROL)),
        ],
        line: "svf c n u1",
        ending: Ending::Scans(
            "SIR 2 TDI (2) TDO (1) MASK (3);\nSDR 1 TDI (1);\nSIR 2 TDI (0) TDO (1) MASK (3);\n",
        ),
    },
];

// The change to a control cell after which its safe value enables the driver.
const UNSAFE_CONTROL: (&str, &str) = ("*, control, 1)", "*, control, 0)");

// The changes that make a receiver an open-drain output. The value 1 of its cell disables it, and the safe value of the cell is 0.
const OWN_CONTROL: [(&str, &str); 3] = [
    ("RCV1", "OWN"),
    ("D : in bit", "D : out bit"),
    ("D, input, X", "D, output2, 0, 0, 1, WEAK1"),
];

// The test compares the cell of a bidirectional pin in the passes in which another part drives the net, but not in those in which the pin
// itself drives it.
const BOTH_WAYS: [Row; 2] = [
    Row {
        texts: &[
            ("c", Plain("DEVICE U1 BI -\nDEVICE U2 RCV1 -")),
            ("n", Plain("NET N U1.1 U2.1")),
            ("u1", Plain(BI)),
        ],
        line: "svf c n u1 rcv1",
        ending: Ending::Scans(
            "SIR 4 TDI (A) TDO (5) MASK (F);\nSDR 3 TDI (4);\nSIR 4 TDI (0) TDO (5) MASK (F);\n\
         SDR 3 TDI (2);\nSDR 3 TDI (0) TDO (1) MASK (1);\nSDR 3 TDI (4) TDO (0) MASK (1);\n",
        ),
    },
    Row {
        texts: &[
            ("c", Plain("DEVICE U1 BI -\nDEVICE U2 BI -")),
            ("n", Plain("NET N U1.1 U2.1")),
        ],
        line: "svf c n bi",
        ending: Ending::Scans(
            "SIR 4 TDI (A) TDO (5) MASK (F);\nSDR 4 TDI (A);\nSIR 4 TDI (0) TDO (5) MASK (F);\n\
         SDR 4 TDI (6);\nSDR 4 TDI (2) TDO (1) MASK (1);\nSDR 4 TDI (A) TDO (0) MASK (1);\n\
         SDR 4 TDI (9);\nSDR 4 TDI (8) TDO (4) MASK (4);\nSDR 4 TDI (A) TDO (0) MASK (4);\n",
        ),
    },
];

const SELF_READING: [(&str, &str); 2] = [
    THREE_CELLS,
    ("control, 1)\"", "control, 1), 2 (BC_1, Q, input, X)\""),
];

// The test compares a CLOCK cell of an input pin. It compares neither an OBSERVE_ONLY cell nor an INPUT cell of an output pin.
const READERS: [Row; 3] = [
    Row {
        texts: &[
            ("c", Plain("DEVICE U1 RCV1 -\nDEVICE U2 TS -")),
            ("n", Plain("NET N U1.1 U2.1")),
            ("u1", Edited(RCV1, &[("D, input, X", "D, clock, X")])),
        ],
        line: "svf c n u1 ts",
        ending: Ending::Scans(
            "SIR 4 TDI (A) TDO (5) MASK (F);\nSDR 3 TDI (2);\nSIR 4 TDI (0) TDO (5) MASK (F);\n\
         SDR 3 TDI (1);\nSDR 3 TDI (0) TDO (4) MASK (4);\nSDR 3 TDI (2) TDO (0) MASK (4);\n",
        ),
    },
    Row {
        texts: &[
            ("c", Plain("DEVICE U1 RCV1 -\nDEVICE U2 TS -")),
            ("n", Plain("NET N U1.1 U2.1")),
            ("u1", Edited(RCV1, &[("D, input, X", "D, observe_only, X")])),
        ],
        line: "svf c n u1 ts",
        ending: Ending::Scans(
            "SIR 4 TDI (A) TDO (5) MASK (F);\nSDR 3 TDI (2);\nSIR 4 TDI (0) TDO (5) MASK (F);\n",
        ),
    },
    Row {
        texts: &[
            ("c", Plain("DEVICE U1 TS -\nDEVICE U2 RCV1 -")),
            ("n", Plain("NET N U1.1 U2.1")),
            ("u1", Edited(TS, &SELF_READING)),
        ],
        line: "svf c n u1 rcv1",
        ending: Ending::Scans(
            "SIR 4 TDI (A) TDO (5) MASK (F);\nSDR 4 TDI (4);\nSIR 4 TDI (0) TDO (5) MASK (F);\n\
         SDR 4 TDI (2);\nSDR 4 TDI (0) TDO (1) MASK (1);\nSDR 4 TDI (4) TDO (0) MASK (1);\n",
        ),
    },
];

// Two devices with only internal cells. A data scan may have at most 65,535 bits.
const WIDE: [Row; 2] = [
    Row {
        texts: &[
            ("c", Plain("DEVICE U1 A -\nDEVICE U2 B -")),
            ("n", Plain("")),
            ("a", Cells("A", 32_768)),
            ("b", Cells("B", 32_767)),
        ],
        line: "svf c n a b",
        ending: Ending::Done,
    },
    Row {
        texts: &[
            ("c", Plain("DEVICE U1 A -\nDEVICE U2 B -")),
            ("n", Plain("")),
            ("a", Cells("A", 32_768)),
            ("b", Cells("B", 32_768)),
        ],
        line: "svf c n a b",
        ending: Ending::Refused("limit: boundary bits\n"),
    },
];

// One device with only internal cells may have all 65,535 bits of a data scan. A part without a description adds one bit, its bypass
// register, which is one too many.
const WIDEST: [Row; 2] = [
    Row {
        texts: &[
            ("c", Plain("DEVICE U1 A -")),
            ("n", Plain("")),
            ("a", Cells("A", 65_535)),
        ],
        line: "svf c n a",
        ending: Ending::Done,
    },
    Row {
        texts: &[
            ("c", Plain("DEVICE U1 A -\nBYPASS U2 2")),
            ("n", Plain("")),
            ("a", Cells("A", 65_535)),
        ],
        line: "svf c n a",
        ending: Ending::Refused("limit: boundary bits\n"),
    },
];

static CODE_TABLES: [Table; 3] = [
    Table {
        name: "the driver of each net shifts its code",
        texts: &[],
        rows: Rows::Runs(&CODES),
    },
    Table {
        name: "a bus has a pass for each driver",
        texts: &[],
        rows: Rows::Runs(&BUSES),
    },
    Table {
        name: "nets that are not covered are left alone",
        texts: &[],
        rows: Rows::Runs(&ALONE),
    },
];

#[test]
fn codes_are_shifted_pass_by_pass(rt: HostRuntime) -> Result<(), RowFault> {
    tables_hold(&rt, rt.alloc(), &CODE_TABLES)
}

static NET_TABLES: [Table; 2] = [
    Table {
        name: "a pull gives the bit of a driver that is off",
        texts: &[],
        rows: Rows::Runs(&PULLED),
    },
    Table {
        name: "linked nets are tested as one",
        texts: &[],
        rows: Rows::Runs(&LINKED),
    },
];

#[test]
fn pulls_and_links_are_tested(rt: HostRuntime) -> Result<(), RowFault> {
    tables_hold(&rt, rt.alloc(), &NET_TABLES)
}

static PASS_TABLES: [Table; 2] = [
    Table {
        name: "two nets are observed by the first drivers that are together",
        texts: &[],
        rows: Rows::Runs(&TOGETHER),
    },
    Table {
        name: "nets that are observed apart have a pass together",
        texts: &[],
        rows: Rows::Runs(&APART),
    },
];

#[test]
fn passes_observe_nets_together(rt: HostRuntime) -> Result<(), RowFault> {
    tables_hold(&rt, rt.alloc(), &PASS_TABLES)
}

static END_TABLES: [Table; 3] = [
    Table {
        name: "a text that is too long, or is not read, ends the run",
        texts: &[],
        rows: Rows::Failing(&FAILING),
    },
    Table {
        name: "a name that is not held is told",
        texts: &[],
        rows: Rows::Runs(&NOT_HELD),
    },
    Table {
        name: "a cell keeps its safe value",
        texts: &[],
        rows: Rows::Runs(&SAFE),
    },
];

#[test]
fn runs_end_and_cells_are_safe(rt: HostRuntime) -> Result<(), RowFault> {
    tables_hold(&rt, rt.alloc(), &END_TABLES)
}

static READER_TABLES: [Table; 3] = [
    Table {
        name: "a driver does not read itself",
        texts: &[],
        rows: Rows::Runs(&BOTH_WAYS),
    },
    Table {
        name: "what reads a net is told by its function",
        texts: &[],
        rows: Rows::Runs(&READERS),
    },
    Table {
        name: "a scan has at most 65,535 bits",
        texts: &[],
        rows: Rows::Runs(&WIDE),
    },
];

#[test]
fn readers_are_compared_as_they_should_be(rt: HostRuntime) -> Result<(), RowFault> {
    tables_hold(&rt, rt.alloc(), &READER_TABLES)
}

static WIDE_TABLES: [Table; 1] = [Table {
    name: "a device has at most 65,535 cells, and a part without a description has a bit",
    texts: &[],
    rows: Rows::Runs(&WIDEST),
}];

#[test]
fn one_device_may_have_all_bits(rt: HostRuntime) -> Result<(), RowFault> {
    tables_hold(&rt, rt.alloc(), &WIDE_TABLES)
}
