// Table-driven tests of the command `ident`, which writes the test of the identification codes.
use run_bench::Text::{Edited, Numbered, Plain};
use run_bench::{Bench, DRV, Ending, Named, Row, RowFault, Rows, Table, Text, tables_hold};
use std::alloc::{AllocError, Global};

// A driver with an identification code. The four highest bits of the code, which are the version, are X.
const CODED: Text = Edited(
    DRV,
    &[
        (
            "end DRV;",
            "attribute IDCODE_REGISTER of IDC : entity is \"XXXX0001001000110100\" & \"000000000111\";\nend IDC;",
        ),
        (" DRV ", " IDC "),
    ],
);

// A driver with an identification code in which every bit is X.
const FREE: Text = Edited(
    DRV,
    &[
        (
            "end DRV;",
            "attribute IDCODE_REGISTER of IDC : entity is \"XXXXXXXXXXXXXXXXXXXXXXXXXXXXXXXX\";\nend IDC;",
        ),
        (" DRV ", " IDC "),
    ],
);

const SHORT: Text = Edited(
    DRV,
    &[
        (
            "end DRV;",
            "attribute IDCODE_REGISTER of IDC : entity is \"0001\";\nend IDC;",
        ),
        (" DRV ", " IDC "),
    ],
);

const CODES: [Row; 9] = [
    Row {
        texts: &[
            ("c", Plain("DEVICE U1 IDC -\nDEVICE U2 RCV -\n")),
            ("idc", CODED),
        ],
        line: "ident c idc rcv",
        ending: Ending::Scans("SDR 33 TDI (000000000) TDO (00246800E) MASK (01FFFFFFF);\n"),
    },
    Row {
        texts: &[
            (
                "c",
                Plain("DEVICE U1 IDC -\nLINK R1 1 2\nDEVICE U2 RCV -\nDEVICE U3 IDC -\n"),
            ),
            ("idc", CODED),
        ],
        line: "ident c idc rcv",
        ending: Ending::Scans(
            "SDR 65 TDI (00000000000000000) TDO (00246800E01234007) MASK (01FFFFFFF0FFFFFFF);\n",
        ),
    },
    Row {
        texts: &[
            ("c", Plain("DEVICE U1 RCV -\nDEVICE U2 RCV -\n")),
            ("idc", CODED),
        ],
        line: "ident c idc rcv",
        ending: Ending::Scans("SDR 2 TDI (0) TDO (0) MASK (3);\n"),
    },
    Row {
        texts: &[("c", Plain("DEVICE U1 IDC -\n")), ("idc", FREE)],
        line: "ident c idc rcv",
        ending: Ending::Scans("SDR 32 TDI (00000000);\n"),
    },
    // Every part of the chain must have a description.
    Row {
        texts: &[
            ("c", Plain("DEVICE U1 IDC -\nBYPASS U2 4\n")),
            ("idc", CODED),
        ],
        line: "ident c idc rcv",
        ending: Ending::Refused("c line 2: part without a description\n"),
    },
    Row {
        texts: &[
            (
                "c",
                Plain("# none\nBYPASS U2 4\nDEVICE U1 IDC -\nBYPASS U3 4\n"),
            ),
            ("idc", CODED),
        ],
        line: "ident c idc rcv",
        ending: Ending::Refused("c line 2: part without a description\n"),
    },
    Row {
        texts: &[
            ("c", Plain("BYPASS U2 4\nDEVICE U1 IDC -\n")),
            ("idc", SHORT),
        ],
        line: "ident c idc rcv",
        ending: Ending::Refused("idc: rule V7 item 2\n"),
    },
    Row {
        texts: &[
            ("c", Plain("BYPASS U2 4\nDEVICE U1 XYZ -\n")),
            ("idc", CODED),
        ],
        line: "ident c idc rcv",
        ending: Ending::Refused("c line 2: entity not given\n"),
    },
    Row {
        texts: &[("c", Plain("")), ("idc", CODED)],
        line: "ident c idc rcv",
        ending: Ending::Refused("c: no part in the chain\n"),
    },
];

static TABLES: [Table; 1] = [Table {
    name: "the codes of the parts are compared",
    texts: &[],
    rows: Rows::Runs(&CODES),
}];

#[test]
fn compares_the_codes_of_the_parts(rt: HostRuntime) -> Result<(), RowFault> {
    tables_hold(&rt, rt.alloc(), &TABLES)
}

// Appends `label`, a field of 2,040 digits, and `end`. The field has the eight digits `digits`, 255 times. Each of its full lines has 64
// digits.
fn push_field(text: &mut String, label: &str, digits: &str, end: &str) -> Result<(), AllocError> {
    text.push_str(label)?;
    for k in 0..255u32 {
        if k > 0 && k % 8 == 0 {
            text.push_str("\n")?;
        }
        text.push_str(digits)?;
    }
    text.push_str(end)
}

const FIELDS: [(&str, &str, &str); 3] = [
    ("TDI (", "00000000", ")\n"),
    ("TDO (", "01234007", ")\n"),
    ("MASK (", "0FFFFFFF", ");\n"),
];

fn longest_scan(alloc: Global) -> Result<String, AllocError> {
    let mut text = String::from_str(alloc, "SDR 8160\n")?;
    for (label, digits, end) in &FIELDS {
        push_field(&mut text, label, digits, end)?;
    }
    Ok(text)
}

const LONGEST: [Named; 2] = [
    (
        "c",
        Numbered {
            head: "",
            piece: "DEVICE U# IDC -\n",
            first: 1,
            end: 256,
        },
    ),
    ("idc", CODED),
];

#[test]
fn a_chain_of_255_codes_is_printed_in_pieces(rt: HostRuntime) -> Result<(), RowFault> {
    let scan = longest_scan(rt.alloc())?;
    let mut bench = Bench::with_board(rt.alloc(), "", "")?;
    bench.add(&LONGEST)?;
    let ending = Ending::Scans(&scan);
    bench.ends(&rt, "255 codes", 0, "ident c idc rcv", ending)
}
