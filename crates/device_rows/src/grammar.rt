// Table-driven tests of the command `device`. The texts are not in the grammar or have too many tokens.
use run_bench::Text::{Front, Plain, Repeated};
use run_bench::{Change, DRV, Ending, RowFault, Rows, Run, Table, tables_hold};

const LAST: &str = "end DRV;\n";

const OUTSIDE: [Change; 11] = [
    (
        "generic (PHYSICAL_PIN_MAP : string := \"P\");\n",
        "generic (PHYSICAL_PIN_MAP : string := \"P\");\ngeneric (PHYSICAL_PIN_MAP : string := \"P\");\n",
        " line 3: not in the grammar",
    ),
    (
        "port (TDI, TMS, TCK : in bit; TDO : out bit; Q : out bit_vector(1 to 2));\n",
        "",
        " line 17: not in the grammar",
    ),
    (
        "INSTRUCTION_LENGTH of DRV : entity is 2",
        "INSTRUCTION_LENGTH of DRV : entity is two",
        " line 11: not in the grammar",
    ),
    // An integer must not have a point, an exponent or a tenth digit.
    (
        "INSTRUCTION_LENGTH of DRV : entity is 2",
        "INSTRUCTION_LENGTH of DRV : entity is 2.0",
        " line 11: not in the grammar",
    ),
    (
        "INSTRUCTION_LENGTH of DRV : entity is 2",
        "INSTRUCTION_LENGTH of DRV : entity is 2e0",
        " line 11: not in the grammar",
    ),
    (
        "INSTRUCTION_LENGTH of DRV : entity is 2",
        "INSTRUCTION_LENGTH of DRV : entity is 0000000002",
        " line 11: not in the grammar",
    ),
    // TAP_SCAN_CLOCK must have a number, and BOTH or LOW. Any other TAP attribute must be true.
    (
        "10.0e6, BOTH",
        "10.0e6, HIGH",
        " line 10: not in the grammar",
    ),
    ("10.0e6, BOTH", "FAST, BOTH", " line 10: not in the grammar"),
    (
        "TAP_SCAN_IN of TDI : signal is true",
        "TAP_SCAN_IN of TDI : signal is false",
        " line 7: not in the grammar",
    ),
    ("use STD", "\x07use STD", " line 4: byte not allowed"),
    (LAST, "end DRV;\npackage X is\n", " line 19: package text"),
];

const FIRST: &str = "entity DRV is\n";

// The head of an entity, its generic item and its ports.
const HEADS: [Change; 15] = [
    (FIRST, "entity 5 is\n", " line 1: not in the grammar"),
    (FIRST, "entity DRV\n", " line 2: not in the grammar"),
    (
        "(PHYSICAL_PIN_MAP",
        "(PIN_MAPS",
        " line 2: not in the grammar",
    ),
    ("string :=", "text :=", " line 2: not in the grammar"),
    (":= \"P\"", ":= P", " line 2: not in the grammar"),
    (":= \"P\"", "= \"P\"", " line 2: not in the grammar"),
    // The ports must come before `end`.
    (
        "port (TDI",
        "end;\nport (TDI",
        " line 3: not in the grammar",
    ),
    ("TDI, TMS", "TDI TMS", " line 3: not in the grammar"),
    // A port has one of five modes, and the type `bit` or `bit_vector`. Only a vector has a range.
    ("TDO : out bit", "TDO : bit", " line 3: not in the grammar"),
    (
        "out bit_vector",
        "out std_logic_vector",
        " line 3: not in the grammar",
    ),
    (
        "bit_vector(1 to 2)",
        "bit_vector",
        " line 3: not in the grammar",
    ),
    (
        "bit_vector(1 to 2)",
        "bit(1 to 2)",
        " line 3: not in the grammar",
    ),
    ("(1 to 2)", "(1 to N)", " line 3: not in the grammar"),
    ("(1 to 2)", "(2)", " line 3: not in the grammar"),
    // No semicolon may follow the last declaration in the list of ports.
    ("(1 to 2));", "(1 to 2););", " line 3: not in the grammar"),
];

// The other items, and the end of the entity.
const ITEMS: [Change; 18] = [
    (
        "use STD_1149_1_1994.all;",
        "use STD_1149_1_1994;",
        " line 4: not in the grammar",
    ),
    (
        "entity is PHYSICAL_PIN_MAP",
        "entity is PIN_MAPS",
        " line 5: not in the grammar",
    ),
    (
        "constant P : PIN_MAP_STRING",
        "constant P : string",
        " line 6: not in the grammar",
    ),
    (
        "PIN_MAP_STRING :=",
        "PIN_MAP_STRING =",
        " line 6: not in the grammar",
    ),
    // An attribute of a port is of the class `signal`, and any other attribute is of the class `entity`.
    (
        "of TDI : signal",
        "of TDI : entity",
        " line 7: not in the grammar",
    ),
    (
        "INSTRUCTION_LENGTH of DRV : entity",
        "INSTRUCTION_LENGTH of DRV : signal",
        " line 11: not in the grammar",
    ),
    (
        "of TDI : signal",
        "of 5 : signal",
        " line 7: not in the grammar",
    ),
    ("(10.0e6, BOTH)", "(10.0e6)", " line 10: not in the grammar"),
    ("(10.0e6, BOTH)", "10.0e6", " line 10: not in the grammar"),
    (
        "INSTRUCTION_CAPTURE of DRV : entity is \"01\"",
        "INSTRUCTION_CAPTURE of DRV : entity is 01",
        " line 13: not in the grammar",
    ),
    // The pieces of a string must be joined by `&`, with one `&` between two pieces.
    (
        "Q(1), output2, X),\" &\n",
        "Q(1), output2, X),\"\n",
        " line 17: not in the grammar",
    ),
    (
        "Q(1), output2, X),\" &\n",
        "Q(1), output2, X),\" & &\n",
        " line 16: not in the grammar",
    ),
    (
        "Q(2), output2, X)\";",
        "Q(2), output2, X)\" &;",
        " line 17: not in the grammar",
    ),
    // No item of an entity begins with `signal`. An attribute must have a name and end with a semicolon, even if btest does not read it.
    (
        LAST,
        "signal S : bit;\nend DRV;\n",
        " line 18: not in the grammar",
    ),
    (
        LAST,
        "attribute \"FOO\";\nend DRV;\n",
        " line 18: not in the grammar",
    ),
    (
        LAST,
        "attribute FOO of DRV : entity is 5\nend DRV\n",
        " line 19: not in the grammar",
    ),
    (LAST, "end DRV\n", " line 18: not in the grammar"),
    (LAST, "end DRV, X;\n", " line 18: not in the grammar"),
];

// Texts with a part missing, and texts that are not an entity.
const PARTS: [Run; 6] = [
    (
        Front(DRV, 10, ""),
        Ending::Refused("drv line 10: not in the grammar\n"),
    ),
    (
        Front(DRV, 15, "\"0 (BC_1,"),
        Ending::Refused("drv line 16: string not closed\n"),
    ),
    (
        Plain(""),
        Ending::Refused("drv line 1: not in the grammar\n"),
    ),
    (
        Plain("package body X is\n"),
        Ending::Refused("drv line 1: package text\n"),
    ),
    // A text has at most 1,048,576 tokens.
    (
        Repeated(",", 1_048_576),
        Ending::Refused("drv line 1: not in the grammar\n"),
    ),
    (
        Repeated(",", 1_048_577),
        Ending::Refused("drv line 1: too many tokens\n"),
    ),
];

static TABLES: [Table; 2] = [
    Table {
        name: "texts outside the grammar are refused",
        texts: &[],
        rows: Rows::Devices(DRV, &OUTSIDE),
    },
    Table {
        name: "texts of which much is missing, or which are no entity, are refused",
        texts: &[],
        rows: Rows::Texts("device drv", "drv", &PARTS),
    },
];

#[test]
fn texts_outside_the_grammar_are_refused(rt: HostRuntime) -> Result<(), RowFault> {
    tables_hold(&rt, rt.alloc(), &TABLES)
}

static HEAD_TABLES: [Table; 1] = [Table {
    name: "a head, a generic item or ports outside the grammar are refused",
    texts: &[],
    rows: Rows::Devices(DRV, &HEADS),
}];

#[test]
fn heads_and_ports_outside_the_grammar_are_refused(rt: HostRuntime) -> Result<(), RowFault> {
    tables_hold(&rt, rt.alloc(), &HEAD_TABLES)
}

static ITEM_TABLES: [Table; 1] = [Table {
    name: "an item or an end outside the grammar is refused",
    texts: &[],
    rows: Rows::Devices(DRV, &ITEMS),
}];

#[test]
fn items_outside_the_grammar_are_refused(rt: HostRuntime) -> Result<(), RowFault> {
    tables_hold(&rt, rt.alloc(), &ITEM_TABLES)
}
