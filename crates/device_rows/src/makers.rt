// Table-driven tests of the command `device`. The texts are like those of some device manufacturers, and btest refuses them.
use run_bench::Text::Edited;
use run_bench::{Change, DRV, DRV1, Ending, RowFault, Rows, Run, Table, tables_hold};

const FIRST: &str = "entity DRV is\n";

const LAST: &str = "end DRV;\n";

const AROUND_THE_ENTITY: [Change; 8] = [
    // A byte order mark, and the end-of-file byte 1A (Ctrl-Z) of CP/M and DOS.
    (
        FIRST,
        "\u{feff}entity DRV is\n",
        " line 1: byte not allowed",
    ),
    (LAST, "end DRV;\n\x1a", " line 19: byte not allowed"),
    (
        FIRST,
        "package DRV is\nend DRV;\nentity DRV is\n",
        " line 1: package text",
    ),
    (
        LAST,
        "end DRV;\n\npackage body DRV is\nend DRV;\n",
        " line 20: package text",
    ),
    (
        FIRST,
        "library ieee;\nentity DRV is\n",
        " line 1: not in the grammar",
    ),
    (
        FIRST,
        "use STD_1149_1_1994.all;\nentity DRV is\n",
        " line 1: not in the grammar",
    ),
    // A text with a second entity.
    (
        LAST,
        "end DRV;\nentity DRV is\nend DRV;\n",
        " line 19: not in the grammar",
    ),
    (LAST, "end entity DRV;\n", " line 18: not in the grammar"),
];

const WITHIN_THE_ENTITY: [Change; 5] = [
    (
        "use STD_1149",
        "use work.STD_1149",
        " line 4: not in the grammar",
    ),
    (
        "Q : out",
        "Q : linkage_inout",
        " line 3: not in the grammar",
    ),
    ("Q : out", "Q : power_0", " line 3: not in the grammar"),
    // A string that continues on the next line, and a second list of ports.
    ("T3, TCK", "T3,\nTCK", " line 6: string not closed"),
    (
        "use STD_1149_1_1994.all;\n",
        "port (A : in bit);\n",
        " line 4: not in the grammar",
    ),
];

const NAMES: [Change; 5] = [
    (
        LAST,
        "attribute COMPONENT_CONFORMANCE of DRV : entity is \"STD_1149_1_1993 \";\nend DRV;\n",
        ": rule V1 item 14",
    ),
    (
        LAST,
        "attribute COMPONENT_CONFORMANCE of DRV : entity is \"STD_1149_1_2013\";\nend DRV;\n",
        ": rule V1 item 14",
    ),
    (":= \"P\"", ":= \"UNDEFINED\"", ": rule V1 item 15"),
    (":= \"P\"", ":= \"P \"", ": rule V1 item 15"),
    // An integer of nine digits is in the grammar, so btest reports the rule that it breaks.
    (
        "INSTRUCTION_LENGTH of DRV : entity is 2",
        "INSTRUCTION_LENGTH of DRV : entity is 123456789",
        ": rule V1 item 6",
    ),
];

const CODES_AND_PINS: [Change; 3] = [
    // IDCODE_REGISTER with two identification codes.
    (
        LAST,
        "attribute IDCODE_REGISTER of DRV : entity is \"XXXX0001001000110100000000000111,\" &\n\
         \"XXXX0001001000110101000000000111\";\nend DRV;\n",
        ": IDCODE_REGISTER entry 33",
    ),
    // A text of an older edition that lists PRELOAD and not SAMPLE, and a port bit with two pins.
    ("SAMPLE (10)", "PRELOAD (10)", ": rule V6 item 1"),
    ("TDI:T1", "TDI:(T1,T9)", ": rule V4 item 1"),
];

// The text names the 2013 or the 1994 edition instead of the 2001 edition, but its EXTEST code is not all zeros.
const NOT_OF_2001: [Run; 2] = [
    (
        Edited(
            DRV1,
            &[
                ("use STD_1149_1_2001.all;", "use STD_1149_1_2013.all;"),
                (
                    "attribute COMPONENT_CONFORMANCE of DRV1 : entity is \"STD_1149_1_2001\";\n",
                    "",
                ),
            ],
        ),
        Ending::Refused("drv: rule V6 item 2\n"),
    ),
    (
        Edited(
            DRV1,
            &[
                ("use STD_1149_1_2001.all;", "use STD_1149_1_1994.all;"),
                (
                    "attribute COMPONENT_CONFORMANCE of DRV1 : entity is \"STD_1149_1_2001\";\n",
                    "",
                ),
            ],
        ),
        Ending::Refused("drv: rule V6 item 2\n"),
    ),
];

static TABLES: [Table; 5] = [
    Table {
        name: "a text has an entity and nothing else",
        texts: &[],
        rows: Rows::Devices(DRV, &AROUND_THE_ENTITY),
    },
    Table {
        name: "the words of later editions are refused",
        texts: &[],
        rows: Rows::Devices(DRV, &WITHIN_THE_ENTITY),
    },
    Table {
        name: "editions and packages are named without blanks",
        texts: &[],
        rows: Rows::Devices(DRV, &NAMES),
    },
    Table {
        name: "a code of another edition, or for another part, is refused",
        texts: &[],
        rows: Rows::Devices(DRV, &CODES_AND_PINS),
    },
    Table {
        name: "only the edition of 2001 says 2001",
        texts: &[],
        rows: Rows::Texts("device drv", "drv", &NOT_OF_2001),
    },
];

#[test]
fn texts_of_makers_are_refused(rt: HostRuntime) -> Result<(), RowFault> {
    tables_hold(&rt, rt.alloc(), &TABLES)
}
