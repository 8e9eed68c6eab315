// Tests that btest reports the fault of a text with the name of this text.
use run_bench::Text::Plain;
use run_bench::{Ending, Named, Row, RowFault, Rows, Table, tables_hold};

// A log of the board's test, a log of its walking test, and a batch.
const LOGS: [Named; 3] = [
    ("g", Plain("1\n2\n")),
    ("w", Plain("3\n3\n")),
    ("b", Plain("BOARD A\n1\n2\n")),
];

// A faulty chain file. `NETS` is a faulty net file, and `THIRD` is a faulty BSDL text.
const CHAIN: Named = ("c", Plain("DEVICE U1 DRV\n"));

const NETS: Named = ("n", Plain("NETS N1 U1.1\n"));

const THIRD: Named = ("third", Plain("x\n"));

const IN_CHAIN: Ending<'static> = Ending::Refused("c line 1: no statement\n");

const IN_NETS: Ending<'static> = Ending::Refused("n line 1: no statement\n");

const IN_THIRD: Ending<'static> = Ending::Refused("third line 1: not in the grammar\n");

const ROWS: [Row; 16] = [
    Row {
        texts: &[THIRD],
        line: "chain c drv rcv third",
        ending: IN_THIRD,
    },
    Row {
        texts: &[THIRD],
        line: "ident c drv rcv third",
        ending: IN_THIRD,
    },
    Row {
        texts: &[THIRD],
        line: "cover c n drv rcv third",
        ending: IN_THIRD,
    },
    Row {
        texts: &[THIRD],
        line: "svf c n drv rcv third",
        ending: IN_THIRD,
    },
    Row {
        texts: &[THIRD],
        line: "diagnose 2 g c n drv rcv third",
        ending: IN_THIRD,
    },
    Row {
        texts: &[CHAIN],
        line: "walk c n drv rcv",
        ending: IN_CHAIN,
    },
    Row {
        texts: &[NETS],
        line: "walk c n drv rcv",
        ending: IN_NETS,
    },
    Row {
        texts: &[THIRD],
        line: "walk c n drv rcv third",
        ending: IN_THIRD,
    },
    Row {
        texts: &[CHAIN],
        line: "groups w c n drv rcv",
        ending: IN_CHAIN,
    },
    Row {
        texts: &[NETS],
        line: "groups w c n drv rcv",
        ending: IN_NETS,
    },
    Row {
        texts: &[THIRD],
        line: "groups w c n drv rcv third",
        ending: IN_THIRD,
    },
    Row {
        texts: &[("w", Plain("zz\n"))],
        line: "groups w c n drv rcv",
        ending: Ending::Refused("w line 1: wrong length\n"),
    },
    Row {
        texts: &[CHAIN],
        line: "batch 2 b c n drv rcv",
        ending: IN_CHAIN,
    },
    Row {
        texts: &[NETS],
        line: "batch 2 b c n drv rcv",
        ending: IN_NETS,
    },
    Row {
        texts: &[THIRD],
        line: "batch 2 b c n drv rcv third",
        ending: IN_THIRD,
    },
    Row {
        texts: &[("b", Plain("zz\n"))],
        line: "batch 2 b c n drv rcv",
        ending: Ending::Refused("b line 1: no board yet\n"),
    },
];

static TABLES: [Table; 1] = [Table {
    name: "a fault is told with the name of its text",
    texts: &LOGS,
    rows: Rows::Runs(&ROWS),
}];

#[test]
fn a_fault_is_told_with_the_name_of_its_text(rt: HostRuntime) -> Result<(), RowFault> {
    tables_hold(&rt, rt.alloc(), &TABLES)
}
