// Table-driven tests of the command `batch`, which diagnoses many logs in one text.
use run_bench::Text::{Filled, Plain};
use run_bench::{Bench, CHAIN, Ending, Line, NETS, Row, RowFault, Rows, Run, Table, tables_hold};
use std::alloc::{AllocError, Global};

const LINE: &str = "batch 2 g c n drv rcv";

const TWO_BLOCKS: &str = "BOARD A\n1\n2\nBOARD B\n0\n2\n";

const TWO_VERDICTS: &str = "BOARD A\nPASS\nBOARD B\nFAIL 3\nstuck N1 0\nopen U1.1 0\nopen U2.1 0\n";

const LOGS: [Line; 22] = [
    (TWO_BLOCKS, Ending::Puts(TWO_VERDICTS)),
    ("", Ending::Puts("")),
    ("# no board today\r\n\r\n", Ending::Puts("")),
    // Two blocks may have the same id. A line may have blanks and a comment.
    (
        " BOARD A # first\r\n\r\n1\r\n2\r\nBOARD A\n# again\n0\n0\n",
        Ending::Puts("BOARD A\nPASS\nBOARD A\nFAIL 1\nshort AND N1 N2\n"),
    ),
    (
        "BOARD A\n1\nBOARD B\n1\n2\n",
        Ending::Refused("g board 1: 1 rows of 2\n"),
    ),
    ("1\nBOARD A\n", Ending::Refused("g line 1: no board yet\n")),
    // A byte order mark before the first word, and first words other than `BOARD`.
    (
        "\u{feff}BOARD A\n1\n2\n",
        Ending::Refused("g line 1: no board yet\n"),
    ),
    (
        "\nboard A\n1\n2\n",
        Ending::Refused("g line 2: no board yet\n"),
    ),
    (
        "BOARDS A\n1\n2\n",
        Ending::Refused("g line 1: no board yet\n"),
    ),
    // An id may have any visible ASCII characters, but must not begin with `#`.
    ("BOARD !~A#.\n1\n2\n", Ending::Puts("BOARD !~A#.\nPASS\n")),
    (
        "BOARD A\x7f\n1\n2\n",
        Ending::Refused("g line 1: board not allowed\n"),
    ),
    (
        "BOARD A\u{e9}\n1\n2\n",
        Ending::Refused("g line 1: board not allowed\n"),
    ),
    (
        "BOARD\n1\n2\n",
        Ending::Refused("g line 1: board not allowed\n"),
    ),
    // The log of the second block has no rows.
    (
        "BOARD A\n1\n2\nBOARD B\n",
        Ending::Refused("g board 2: 0 rows of 2\n"),
    ),
    (
        "BOARD A\n1\n2\n\nBOARD B\n1\n22\n",
        Ending::Refused("g line 7: wrong length\n"),
    ),
    (
        "BOARD A\n1\nx\nBOARD B\n1\n",
        Ending::Refused("g line 3: digit not allowed\n"),
    ),
    (
        "BOARD A\n1\n2\n2\n",
        Ending::Refused("g line 4: row too many\n"),
    ),
    (
        "BOARD A\n1\nG\n2\n",
        Ending::Refused("g line 3: digit not allowed\n"),
    ),
    // A line whose second word is BOARD is a row and not a title. A row must have a single word.
    (
        "BOARD A\n1\n1 BOARD\n",
        Ending::Refused("g line 3: wrong length\n"),
    ),
    // btest reports a wrong title before any fault of a log.
    (
        "BOARD A\n1\nBOARD\n1\n2\n",
        Ending::Refused("g line 3: board not allowed\n"),
    ),
    (
        "BOARD A\n1\nBOARD B C\n",
        Ending::Refused("g line 3: board not allowed\n"),
    ),
    (
        "BOARD #x\n1\n2\n",
        Ending::Refused("g line 1: board not allowed\n"),
    ),
];

// A title with an id of 255 bytes, and a title with an id of 256 bytes.
const LONG_IDS: [Run; 2] = [
    (
        Filled {
            of: "",
            lines: 0,
            head: "BOARD ",
            piece: "A",
            count: 255,
            tail: "\n1\n2\n",
        },
        Ending::PutsAll(Filled {
            of: "",
            lines: 0,
            head: "BOARD ",
            piece: "A",
            count: 255,
            tail: "\nPASS\n",
        }),
    ),
    (
        Filled {
            of: "",
            lines: 0,
            head: "BOARD ",
            piece: "A",
            count: 256,
            tail: "\n1\n2\n",
        },
        Ending::Refused("g line 1: board not allowed\n"),
    ),
];

const ROWS: [Row; 11] = [
    Row {
        texts: &[],
        line: "batch 1 g c n drv rcv",
        ending: Ending::Puts(TWO_VERDICTS),
    },
    Row {
        texts: &[],
        line: "batch 3 g c n drv rcv",
        ending: Ending::Puts(TWO_VERDICTS),
    },
    Row {
        texts: &[],
        line: "batch 64 g c n drv rcv",
        ending: Ending::Puts(TWO_VERDICTS),
    },
    // A number of workers with 20 digits, and one with 21 digits.
    Row {
        texts: &[],
        line: "batch 00000000000000000064 g c n drv rcv",
        ending: Ending::Puts(TWO_VERDICTS),
    },
    Row {
        texts: &[],
        line: "batch 000000000000000000064 g c n drv rcv",
        ending: Ending::Usage,
    },
    Row {
        texts: &[],
        line: "batch 0 g c n drv rcv",
        ending: Ending::Usage,
    },
    Row {
        texts: &[],
        line: "batch 65 g c n drv rcv",
        ending: Ending::Usage,
    },
    Row {
        texts: &[],
        line: "batch g c n drv rcv",
        ending: Ending::Usage,
    },
    Row {
        texts: &[],
        line: "batch 2 g c",
        ending: Ending::Usage,
    },
    // If a board has no pass, the logs of its test have no rows.
    Row {
        texts: &[
            ("c", Plain("DEVICE U2 RCV -\n")),
            ("n", Plain("NET N1 U2.1\n")),
            ("g", Plain("BOARD A\nBOARD A\n")),
        ],
        line: LINE,
        ending: Ending::Puts("BOARD A\nPASS\nBOARD A\nPASS\n"),
    },
    Row {
        texts: &[
            ("c", Plain("DEVICE U2 RCV -\n")),
            ("n", Plain("NET N1 U2.1\n")),
            ("g", Plain("BOARD A\nBOARD B\n0\n")),
        ],
        line: LINE,
        ending: Ending::Refused("g line 3: row too many\n"),
    },
];

static TABLES: [Table; 3] = [
    Table {
        name: "each block is diagnosed by itself",
        texts: &[],
        rows: Rows::Logs(LINE, &LOGS),
    },
    Table {
        name: "an id has at most 255 bytes",
        texts: &[],
        rows: Rows::Texts(LINE, "g", &LONG_IDS),
    },
    Table {
        name: "any number of workers gives the same",
        texts: &[("g", Plain(TWO_BLOCKS))],
        rows: Rows::Runs(&ROWS),
    },
];

#[test]
fn each_block_is_diagnosed_by_itself(rt: HostRuntime) -> Result<(), RowFault> {
    tables_hold(&rt, rt.alloc(), &TABLES)
}

// Appends 10,000 blocks to `logs`, and the expected output for them to `text`. In the log of every second block, net N1 reads 0 in each
// row.
fn push_blocks(logs: &mut String, text: &mut String) -> Result<(), AllocError> {
    for number in 0..5_000 {
        write!(logs, "BOARD A{number}\n1\n2\nBOARD B{number}\n0\n2\n")?;
        write!(text, "BOARD A{number}\nPASS\nBOARD B{number}\nFAIL 3\n")?;
        text.push_str("stuck N1 0\nopen U1.1 0\nopen U2.1 0\n")?;
    }
    Ok(())
}

fn bench_of(alloc: Global, logs: &str) -> Result<Bench, AllocError> {
    let mut bench = Bench::with_board(alloc, CHAIN, NETS)?;
    bench.store.add("g", logs.as_bytes())?;
    Ok(bench)
}

#[test]
fn ten_thousand_blocks_are_kept_in_order(rt: HostRuntime) -> Result<(), RowFault> {
    let mut logs = String::new(rt.alloc());
    let mut text = String::new(rt.alloc());
    push_blocks(&mut logs, &mut text)?;
    let mut bench = bench_of(rt.alloc(), &logs)?;
    let ending = Ending::Puts(&text);
    bench.ends(&rt, "10,000 blocks", 0, "batch 4 g c n drv rcv", ending)
}
