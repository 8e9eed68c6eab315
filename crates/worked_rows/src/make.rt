// Table-driven tests of the command `make`, which writes the summary of a generated board.
use run_bench::{Ending, Line, Row, RowFault, Rows, Table, Trouble, tables_hold};

const TWO: Ending<'static> = Ending::Puts(
    "DEVICES 2 NETS 72 COVERED 72 PASSES 2 SCANS 19 BYTES 2373\n",
);

const SUMMARIES: [Line; 7] = [
    ("make 2", TWO),
    ("make 002", TWO),
    ("make 00000000000000000002", TWO),
    (
        "make 7",
        Ending::Puts("DEVICES 7 NETS 232 COVERED 232 PASSES 7 SCANS 66 BYTES 26132\n"),
    ),
    // This board has 65 controls, more than a machine word has bits.
    (
        "make 13",
        Ending::Puts("DEVICES 13 NETS 424 COVERED 424 PASSES 13 SCANS 133 BYTES 96866\n"),
    ),
    (
        "make 60",
        Ending::Puts("DEVICES 60 NETS 1928 COVERED 1928 PASSES 60 SCANS 723 BYTES 2416564\n"),
    ),
    (
        "make 1",
        Ending::Puts("DEVICES 1 NETS 40 COVERED 32 PASSES 1 SCANS 10 BYTES 746\n"),
    ),
];

const NUMBERS: [Line; 9] = [
    ("make", Ending::Usage),
    ("make 0", Ending::Usage),
    ("make 256", Ending::Usage),
    ("make 2 3", Ending::Usage),
    ("make -- 2", Ending::Usage),
    ("make +2", Ending::Usage),
    ("make 2x", Ending::Usage),
    ("make 000000000000000000002", Ending::Usage),
    ("make 99999999999999999999", Ending::Usage),
];

const CUT: [(Trouble, Row); 1] = [(
    Trouble::Out(9),
    Row {
        texts: &[],
        line: "make 2",
        ending: Ending::NotPut("DEVICES 2", "cannot write\n"),
    },
)];

static TABLES: [Table; 3] = [
    Table {
        name: "the counts of a board are told",
        texts: &[],
        rows: Rows::Lines(&SUMMARIES),
    },
    Table {
        name: "numbers go from 1 to 255",
        texts: &[],
        rows: Rows::Lines(&NUMBERS),
    },
    Table {
        name: "a summary may be cut short",
        texts: &[],
        rows: Rows::Failing(&CUT),
    },
];

#[test]
fn summaries_are_as_they_should_be(rt: HostRuntime) -> Result<(), RowFault> {
    tables_hold(&rt, rt.alloc(), &TABLES)
}
