// Table-driven tests of the command `groups`, which finds the groups of shorted nets in a log of the walking test.
use run_bench::Text::Plain;
use run_bench::{Ending, Line, Named, Row, RowFault, Rows, Table, tables_hold};

/// The chain file of a board with two drivers and two receivers.
pub const WALK: &str = "DEVICE U1 DRV -\nDEVICE U2 DRV -\nDEVICE U3 RCV -\nDEVICE U4 RCV -\n";

/// The net file of the board of `WALK`. It has three nets.
pub const WALK_NETS: &str = "NET N1 U1.1 U3.1\nNET N2 U1.2 U3.2\nNET N3 U2.1 U4.1\n";

/// The chain file of a board with an open-drain driver on a net that is pulled up. Each of the other two nets has a driver and a receiver.
pub const MIXED: &str =
    "DEVICE U1 OD -\nDEVICE U2 RCV1 -\nDEVICE U3 DRV -\nDEVICE U4 RCV -\nPULL N 1\n";

/// The net file of the board of `MIXED`. Net N is pulled up.
pub const MIXED_NETS: &str = "NET N U1.1 U2.1\nNET N1 U3.1 U4.1\nNET N2 U3.2 U4.2\n";

/// The chain file of a board with only an open-drain driver and its receiver, on a net that is pulled up.
pub const PULLED: &str = "DEVICE U1 OD -\nDEVICE U2 RCV1 -\nPULL N 1\n";

/// The net file of the board of `PULLED`. Its only net is pulled up.
pub const PULLED_NETS: &str = "NET N U1.1 U2.1\n";

/// The chain file of a board with a driver, a receiver, and a resistor that joins two nets.
pub const LINKED: &str = "DEVICE U1 DRV -\nDEVICE U2 RCV -\nLINK R1 1 2\n";

/// The net file of the board of `LINKED`: two joined nets and one more net.
pub const LINKED_NETS: &str = "NET N1A U1.1 R1.1\nNET N1B R1.2 U2.1\nNET N2 U1.2 U2.2\n";

const LINE: &str = "groups g c n drv rcv od rcv1";

const THREE_NETS: [Line; 18] = [
    (
        "05\n08\n05\n",
        Ending::Puts("GROUPS 1\nGROUP 2\nNET N1\nNET N3\n"),
    ),
    ("04\n08\n01\n", Ending::Puts("GROUPS 0\n")),
    ("04\n08\n05\n", Ending::Puts("GROUPS none\n")),
    (
        "0d\n0D\n0d\n",
        Ending::Puts("GROUPS 1\nGROUP 3\nNET N1\nNET N2\nNET N3\n"),
    ),
    (
        "# bits that are not compared\n\nf5\nf8\nf5\n",
        Ending::Puts("GROUPS 1\nGROUP 2\nNET N1\nNET N3\n"),
    ),
    // Logs that no shorted nets give. In the first, no net ever reads 1. In the second, N1 and N3 each read only the 1 of the other. In the
    // third, N1 and N2 read the 1 of N3, but N2 does not read the 1 of N1.
    ("00\n00\n00\n", Ending::Puts("GROUPS none\n")),
    ("01\n08\n04\n", Ending::Puts("GROUPS none\n")),
    ("05\n0D\n0D\n", Ending::Puts("GROUPS none\n")),
    // Texts that are not a log of this test.
    ("", Ending::Refused("g: 0 rows of 3\n")),
    ("04\n08\n", Ending::Refused("g: 2 rows of 3\n")),
    ("04\n8\n01\n", Ending::Refused("g line 2: wrong length\n")),
    ("04\n0 8\n01\n", Ending::Refused("g line 2: wrong length\n")),
    // A byte order mark at the beginning of the log.
    (
        "\u{feff}04\n08\n01\n",
        Ending::Refused("g line 1: wrong length\n"),
    ),
    (
        "04\n08\n0x\n",
        Ending::Refused("g line 3: digit not allowed\n"),
    ),
    (
        "04\n08\n01\n01\n",
        Ending::Refused("g line 4: row too many\n"),
    ),
    // Within a line, btest reports a wrong length before a wrong digit. It reports the fault of a wrong line before the fault of an extra
    // row.
    ("G\n08\n01\n", Ending::Refused("g line 1: wrong length\n")),
    (
        "04\n0G\n01\n01\n",
        Ending::Refused("g line 2: digit not allowed\n"),
    ),
    (
        "04\n08\nG\n01\n",
        Ending::Refused("g line 3: wrong length\n"),
    ),
];

// The walking test does not observe the net that is pulled up, so it does not compare the cell that reads this net.
const MIXED_LOGS: [Line; 4] = [
    (
        "03\n03\n",
        Ending::Puts("GROUPS 1\nGROUP 2\nNET N1\nNET N2\n"),
    ),
    ("01\n02\n", Ending::Puts("GROUPS 0\n")),
    ("11\n12\n", Ending::Puts("GROUPS 0\n")),
    ("01\n03\n", Ending::Puts("GROUPS none\n")),
];

// The chain file of a board on which two cells read the first net.
const READ_TWICE: &str = "DEVICE U1 DRV -\nDEVICE U2 RCV -\nDEVICE U3 RCV1 -\n";

const TWICE_NETS: &str = "NET N1 U1.1 U2.1 U3.1\nNET N2 U1.2 U2.2\n";

const ROWS: [Row; 10] = [
    Row {
        texts: &[
            ("c", Plain(READ_TWICE)),
            ("n", Plain(TWICE_NETS)),
            ("g", Plain("03\n04\n")),
        ],
        line: LINE,
        ending: Ending::Puts("GROUPS 0\n"),
    },
    Row {
        texts: &[
            ("c", Plain(READ_TWICE)),
            ("n", Plain(TWICE_NETS)),
            ("g", Plain("07\n07\n")),
        ],
        line: LINE,
        ending: Ending::Puts("GROUPS 1\nGROUP 2\nNET N1\nNET N2\n"),
    },
    // The scan has five bits. A sixth bit is beyond the scan.
    Row {
        texts: &[
            ("c", Plain(READ_TWICE)),
            ("n", Plain(TWICE_NETS)),
            ("g", Plain("1B\n1C\n")),
        ],
        line: LINE,
        ending: Ending::Puts("GROUPS 0\n"),
    },
    Row {
        texts: &[
            ("c", Plain(READ_TWICE)),
            ("n", Plain(TWICE_NETS)),
            ("g", Plain("03\n24\n")),
        ],
        line: LINE,
        ending: Ending::Refused("g line 2: digit not allowed\n"),
    },
    // The two cells that read the first net disagree.
    Row {
        texts: &[
            ("c", Plain(READ_TWICE)),
            ("n", Plain(TWICE_NETS)),
            ("g", Plain("02\n04\n")),
        ],
        line: LINE,
        ending: Ending::Puts("GROUPS none\n"),
    },
    // A group lists a net that was joined from several nets by the first of their names.
    Row {
        texts: &[
            ("c", Plain(LINKED)),
            ("n", Plain(LINKED_NETS)),
            ("g", Plain("3\n3\n")),
        ],
        line: LINE,
        ending: Ending::Puts("GROUPS 1\nGROUP 2\nNET N1A\nNET N2\n"),
    },
    Row {
        texts: &[
            ("c", Plain(LINKED)),
            ("n", Plain(LINKED_NETS)),
            ("g", Plain("1\n2\n")),
        ],
        line: LINE,
        ending: Ending::Puts("GROUPS 0\n"),
    },
    // If the walking test observes no net, its log has no rows.
    Row {
        texts: &[
            ("c", Plain(PULLED)),
            ("n", Plain(PULLED_NETS)),
            ("g", Plain("")),
        ],
        line: LINE,
        ending: Ending::Puts("GROUPS 0\n"),
    },
    Row {
        texts: &[
            ("c", Plain("DEVICE U1 RCV -\n")),
            ("n", Plain("NET N U1.1\n")),
            ("g", Plain("")),
        ],
        line: LINE,
        ending: Ending::Puts("GROUPS 0\n"),
    },
    Row {
        texts: &[],
        line: "groups g c",
        ending: Ending::Usage,
    },
];

const WALK_TEXTS: [Named; 2] = [("c", Plain(WALK)), ("n", Plain(WALK_NETS))];

const MIXED_TEXTS: [Named; 2] = [("c", Plain(MIXED)), ("n", Plain(MIXED_NETS))];

static TABLES: [Table; 3] = [
    Table {
        name: "nets that read one another are a group",
        texts: &WALK_TEXTS,
        rows: Rows::Logs(LINE, &THREE_NETS),
    },
    Table {
        name: "groups are of the nets that walk",
        texts: &MIXED_TEXTS,
        rows: Rows::Logs(LINE, &MIXED_LOGS),
    },
    Table {
        name: "links and pulls are read as the walking test has them",
        texts: &[],
        rows: Rows::Runs(&ROWS),
    },
];

#[test]
fn nets_that_read_one_another_are_a_group(rt: HostRuntime) -> Result<(), RowFault> {
    tables_hold(&rt, rt.alloc(), &TABLES)
}
