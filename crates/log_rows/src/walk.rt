// Table-driven tests of the command `walk`, which writes the walking test of a board.
use crate::groups::{LINKED, LINKED_NETS, MIXED, MIXED_NETS, PULLED, PULLED_NETS, WALK, WALK_NETS};
use run_bench::Text::Plain;
use run_bench::{Ending, Row, RowFault, Rows, SCANS, Table, tables_hold};

const LINE: &str = "walk c n drv rcv od rcv1";

const ROWS: [Row; 7] = [
    Row {
        texts: &[("c", Plain(WALK)), ("n", Plain(WALK_NETS))],
        line: "walk c n drv rcv",
        ending: Ending::Scans(
            "SIR 8 TDI (AA) TDO (55) MASK (FF);\nSDR 8 TDI (00);\nSIR 8 TDI (00) TDO (55) MASK (FF);\n\
             SDR 8 TDI (40);\nSDR 8 TDI (80) TDO (04) MASK (0D);\nSDR 8 TDI (10) TDO (08) MASK (0D);\n\
             SDR 8 TDI (00) TDO (01) MASK (0D);\n",
        ),
    },
    // The walking test does not observe a net with a switching driver. The cell of such a driver both enables it and carries its data.
    Row {
        texts: &[("c", Plain(MIXED)), ("n", Plain(MIXED_NETS))],
        line: LINE,
        ending: Ending::Scans(
            "SIR 8 TDI (AA) TDO (55) MASK (FF);\nSDR 6 TDI (20);\nSIR 8 TDI (00) TDO (55) MASK (FF);\n\
             SDR 6 TDI (24);\nSDR 6 TDI (28) TDO (01) MASK (03);\nSDR 6 TDI (20) TDO (02) MASK (03);\n",
        ),
    },
    // In the walking test, joined nets are one net. The board then has two nets, and each of their codes has a single 1. So these scans are
    // also the scans of `svf`.
    Row {
        texts: &[("c", Plain(LINKED)), ("n", Plain(LINKED_NETS))],
        line: LINE,
        ending: Ending::Scans(SCANS),
    },
    // If the board has a pass but the walking test observes no net, the test has one data scan after EXTEST is selected. In this scan,
    // every driver with a control is off. If the board has no pass, there is no such scan.
    Row {
        texts: &[("c", Plain(PULLED)), ("n", Plain(PULLED_NETS))],
        line: LINE,
        ending: Ending::Scans(
            "SIR 4 TDI (A) TDO (5) MASK (F);\nSDR 2 TDI (2);\nSIR 4 TDI (0) TDO (5) MASK (F);\n\
             SDR 2 TDI (2);\n",
        ),
    },
    Row {
        texts: &[
            ("c", Plain("DEVICE U1 RCV -\n")),
            ("n", Plain("NET N U1.1\n")),
        ],
        line: LINE,
        ending: Ending::Scans(
            "SIR 2 TDI (2) TDO (1) MASK (3);\nSDR 2 TDI (0);\nSIR 2 TDI (0) TDO (1) MASK (3);\n",
        ),
    },
    Row {
        texts: &[("c", Plain(WALK)), ("n", Plain(WALK_NETS))],
        line: "walk c n drv",
        ending: Ending::Refused("c line 3: entity not given\n"),
    },
    Row {
        texts: &[],
        line: "walk c",
        ending: Ending::Usage,
    },
];

static TABLES: [Table; 1] = [Table {
    name: "one net after another carries 1",
    texts: &[],
    rows: Rows::Runs(&ROWS),
}];

#[test]
fn one_net_after_another_carries_1(rt: HostRuntime) -> Result<(), RowFault> {
    tables_hold(&rt, rt.alloc(), &TABLES)
}
