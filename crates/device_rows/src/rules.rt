// Table-driven tests of the command `device`. The texts break a rule on attributes, strings, ports, pins or instructions.
use run_bench::{Change, DRV, DRV1, RowFault, Rows, Table, tables_hold};

const LAST: &str = "end DRV;\n";

const ATTRIBUTES: [Change; 25] = [
    (
        "attribute PIN_MAP of DRV : entity is PHYSICAL_PIN_MAP;\n",
        "",
        ": rule V1 item 1",
    ),
    (
        "attribute TAP_SCAN_IN of TDI : signal is true;\n",
        "",
        ": rule V1 item 2",
    ),
    (
        "attribute TAP_SCAN_OUT of TDO : signal is true;\n",
        "",
        ": rule V1 item 3",
    ),
    (
        "attribute TAP_SCAN_MODE of TMS : signal is true;\n",
        "",
        ": rule V1 item 4",
    ),
    (
        "attribute TAP_SCAN_CLOCK of TCK : signal is (10.0e6, BOTH);\n",
        "",
        ": rule V1 item 5",
    ),
    (
        "attribute INSTRUCTION_LENGTH of DRV : entity is 2;\n",
        "",
        ": rule V1 item 6",
    ),
    (
        "INSTRUCTION_LENGTH of DRV : entity is 2;",
        "INSTRUCTION_LENGTH of DRV : entity is 1;",
        ": rule V1 item 6",
    ),
    (
        "INSTRUCTION_LENGTH of DRV : entity is 2;",
        "INSTRUCTION_LENGTH of DRV : entity is 256;",
        ": rule V1 item 6",
    ),
    (
        "attribute INSTRUCTION_OPCODE of DRV : entity is \"BYPASS (11), EXTEST (00), SAMPLE (10)\";\n",
        "",
        ": rule V1 item 7",
    ),
    (
        "attribute INSTRUCTION_CAPTURE of DRV : entity is \"01\";\n",
        "",
        ": rule V1 item 8",
    ),
    (
        "attribute BOUNDARY_LENGTH of DRV : entity is 2;\n",
        "",
        ": rule V1 item 9",
    ),
    (
        "BOUNDARY_LENGTH of DRV : entity is 2;",
        "BOUNDARY_LENGTH of DRV : entity is 0;",
        ": rule V1 item 9",
    ),
    (
        "BOUNDARY_LENGTH of DRV : entity is 2;",
        "BOUNDARY_LENGTH of DRV : entity is 65536;",
        ": rule V1 item 9",
    ),
    (
        "BOUNDARY_REGISTER",
        "BOUNDARY_REGISTERS",
        ": rule V1 item 10",
    ),
    (
        LAST,
        "attribute TAP_SCAN_RESET of Q : signal is true;\nattribute TAP_SCAN_RESET of Q : signal is true;\nend DRV;\n",
        ": rule V1 item 11",
    ),
    (
        LAST,
        "attribute IDCODE_REGISTER of DRV : entity is \"X\";\nattribute IDCODE_REGISTER of DRV : entity is \"X\";\nend DRV;\n",
        ": rule V1 item 12",
    ),
    (
        LAST,
        "attribute COMPLIANCE_PATTERNS of DRV : entity is \"\";\nattribute COMPLIANCE_PATTERNS of DRV : entity is \"\";\nend DRV;\n",
        ": rule V1 item 13",
    ),
    (
        LAST,
        "attribute COMPONENT_CONFORMANCE of DRV : entity is \"STD_1149_1_1995\";\nend DRV;\n",
        ": rule V1 item 14",
    ),
    (
        LAST,
        "attribute COMPONENT_CONFORMANCE of DRV : entity is \" STD_1149_1_1993\";\nend DRV;\n",
        ": rule V1 item 14",
    ),
    (
        LAST,
        "attribute COMPONENT_CONFORMANCE of DRV : entity is \"STD_1149_1_1993\";\n\
         attribute COMPONENT_CONFORMANCE of DRV : entity is \"STD_1149_1_1993\";\nend DRV;\n",
        ": rule V1 item 14",
    ),
    (" := \"P\"", "", ": rule V1 item 15"),
    (" := \"P\"", " := \"R\"", ": rule V1 item 15"),
    (
        LAST,
        "constant P : PIN_MAP_STRING := \"\";\nend DRV;\n",
        ": rule V1 item 15",
    ),
    // If several items of rule V1 are faulty, btest reports the one with the lowest number. It reports a fault of rule V1 before a fault of
    // a string.
    (
        "attribute INSTRUCTION_CAPTURE of DRV : entity is \"01\";\nattribute BOUNDARY_LENGTH of DRV : entity is 2;\n",
        "",
        ": rule V1 item 8",
    ),
    (
        "INSTRUCTION_CAPTURE of DRV : entity is \"01\"",
        "INSTRUCTION_CAPTURES of DRV : entity is \"Z\"",
        ": rule V1 item 8",
    ),
];

const STRINGS: [Change; 11] = [
    ("Q:(1,2)\"", "Q:(1,2\"", ": PIN_MAP_STRING entry 5"),
    ("TCK:T4, Q", "TCK:T4,, Q", ": PIN_MAP_STRING entry 5"),
    ("SAMPLE (10)", "SAMPLE (12)", ": INSTRUCTION_OPCODE entry 3"),
    (
        "entity is \"01\"",
        "entity is \"0 1\"",
        ": INSTRUCTION_CAPTURE entry 2",
    ),
    (
        "entity is \"01\"",
        "entity is \"\"",
        ": INSTRUCTION_CAPTURE entry 1",
    ),
    (
        LAST,
        "attribute IDCODE_REGISTER of DRV : entity is \"01,10\";\nend DRV;\n",
        ": IDCODE_REGISTER entry 3",
    ),
    (
        LAST,
        "attribute COMPLIANCE_PATTERNS of DRV : entity is \"(Q(1)\";\nend DRV;\n",
        ": COMPLIANCE_PATTERNS entry 1",
    ),
    (
        LAST,
        "attribute COMPLIANCE_PATTERNS of DRV : entity is \"(Q(1)) (2)\";\nend DRV;\n",
        ": COMPLIANCE_PATTERNS entry 2",
    ),
    (
        "Q(2), output2",
        "Q(2), outputx",
        ": BOUNDARY_REGISTER entry 2",
    ),
    // btest checks the string of the pin map first, and that of the boundary register last. It reports a fault of a string before a fault
    // of the rules V2 to V14.
    ("(1,2)\"", "(1,2\"", ": PIN_MAP_STRING entry 5"),
    ("(1 to 2)", "(2 to 1)", ": rule V2 item 5"),
];

const PORTS_AND_PINS: [Change; 28] = [
    (
        "Q : out bit_vector(1 to 2)",
        "TDI : out bit",
        ": rule V2 item 5",
    ),
    ("(1 to 2)", "(2 to 1)", ": rule V2 item 5"),
    ("(1 to 2)", "(1 downto 2)", ": rule V2 item 5"),
    ("(1 to 2)", "(0 to 65535)", ": rule V2 item 5"),
    // With the four bits of the other ports there are 65,535 port bits, which rule V2 allows. The pin map has too few pins for them.
    ("(1 to 2)", "(1 to 65531)", ": rule V4 item 5"),
    ("(1 to 2)", "(1 to 65532)", ": rule V2 item 5"),
    // TDO must have mode out, and the other TAP ports must have mode in. No TAP port may be a vector.
    ("TDO : out", "TDO : buffer", ": rule V3 item 3"),
    ("TDO : out", "TDO : inout", ": rule V3 item 3"),
    (
        "TDI, TMS, TCK : in bit",
        "TDI : inout bit; TMS, TCK : in bit",
        ": rule V3 item 2",
    ),
    (
        "TDI, TMS, TCK : in bit",
        "TDI : in bit_vector(1 to 1); TMS, TCK : in bit",
        ": rule V3 item 2",
    ),
    ("SCAN_IN of TDI", "SCAN_IN of Q", ": rule V3 item 2"),
    ("SCAN_IN of TDI", "SCAN_IN of TDX", ": rule V3 item 2"),
    ("SCAN_OUT of TDO", "SCAN_OUT of Q", ": rule V3 item 3"),
    ("SCAN_MODE of TMS", "SCAN_MODE of TDO", ": rule V3 item 4"),
    ("SCAN_MODE of TMS", "SCAN_MODE of TDI", ": rule V3 item 4"),
    ("SCAN_CLOCK of TCK", "SCAN_CLOCK of TMS", ": rule V3 item 5"),
    (
        LAST,
        "attribute TAP_SCAN_RESET of TDO : signal is true;\nend DRV;\n",
        ": rule V3 item 11",
    ),
    (
        LAST,
        "attribute COMPLIANCE_PATTERNS of DRV : entity is \"(Q) (1)\";\nend DRV;\n",
        ": rule V3 item 13",
    ),
    (
        LAST,
        "attribute COMPLIANCE_PATTERNS of DRV : entity is \"(Q(3)) (1)\";\nend DRV;\n",
        ": rule V3 item 13",
    ),
    (
        LAST,
        "attribute COMPLIANCE_PATTERNS of DRV : entity is \"(TDI(0)) (1)\";\nend DRV;\n",
        ": rule V3 item 13",
    ),
    (
        LAST,
        "attribute COMPLIANCE_PATTERNS of DRV : entity is \"(Q(1), Q(2)) (10, 1)\";\nend DRV;\n",
        ": rule V3 item 13",
    ),
    ("Q:(1,2)", "Q:(1,1)", ": rule V4 item 5"),
    ("Q:(1,2)", "Q:(1,T1)", ": rule V4 item 5"),
    ("Q:(1,2)", "Q:1", ": rule V4 item 5"),
    ("Q:(1,2)", "Q:(1,2,3)", ": rule V4 item 5"),
    ("Q:(1,2)", "Q:(1,2), R:3", ": rule V4 item 6"),
    ("Q:(1,2)", "Q:(1,2), TDI:3", ": rule V4 item 6"),
    ("Q:(1,2)", "Q:(1,2), Q:(3,4)", ": rule V4 item 6"),
];

const INSTRUCTIONS: [Change; 15] = [
    ("SAMPLE (10)", "SAMPLE (100)", ": rule V5 item 3"),
    (
        "SAMPLE (10)",
        "SAMPLE (10), EXTEST (01)",
        ": rule V5 item 4",
    ),
    ("SAMPLE (10)", "SAMPLE (11)", ": rule V6 item 1"),
    ("SAMPLE (10)", "SAMPLE (0X)", ": rule V6 item 1"),
    ("SAMPLE (10)", "SAMPLE (00, 10)", ": rule V6 item 1"),
    (", SAMPLE (10)", "", ": rule V6 item 1"),
    ("EXTEST (00)", "EXTEST (01, 10)", ": rule V6 item 2"),
    ("BYPASS (11)", "BYPASS (01, 10)", ": rule V6 item 3"),
    ("entity is \"01\"", "entity is \"10\"", ": rule V7 item 1"),
    ("entity is \"01\"", "entity is \"001\"", ": rule V7 item 1"),
    ("entity is \"01\"", "entity is \"X1\"", ": rule V7 item 1"),
    ("entity is \"01\"", "entity is \"0X\"", ": rule V7 item 1"),
    // An identification code of 31 characters, and one of 33.
    (
        LAST,
        "attribute IDCODE_REGISTER of DRV : entity is \"XXXX000100100011010000000000011\";\nend DRV;\n",
        ": rule V7 item 2",
    ),
    (
        LAST,
        "attribute IDCODE_REGISTER of DRV : entity is \"XXXX00010010001101000000000001111\";\nend DRV;\n",
        ": rule V7 item 2",
    ),
    (
        LAST,
        "attribute IDCODE_REGISTER of DRV : entity is \"01\";\nend DRV;\n",
        ": rule V7 item 2",
    ),
];

const INSTRUCTIONS_OF_2001: [Change; 7] = [
    ("PRELOAD (00)", "PRELOAD (11)", ": rule V6 item 1"),
    (
        "SAMPLE (10), PRELOAD (00)",
        "IDCODE (10)",
        ": rule V6 item 1",
    ),
    ("EXTEST (01), ", "", ": rule V6 item 2"),
    ("EXTEST (01)", "EXTEST (11)", ": rule V6 item 2"),
    ("EXTEST (01)", "EXTEST (0X, 01)", ": rule V6 item 2"),
    (
        "PRELOAD (00)",
        "PRELOAD (0X, 11), EXTEST (10)",
        ": rule V5 item 5",
    ),
    ("BYPASS (11)", "BYPASS (01)", ": rule V6 item 3"),
];

static ATTRIBUTE_TABLES: [Table; 1] = [Table {
    name: "each attribute is given as often as it should be",
    texts: &[],
    rows: Rows::Devices(DRV, &ATTRIBUTES),
}];

#[test]
fn attributes_are_given_as_often_as_they_should_be(rt: HostRuntime) -> Result<(), RowFault> {
    tables_hold(&rt, rt.alloc(), &ATTRIBUTE_TABLES)
}

static STRING_TABLES: [Table; 1] = [Table {
    name: "each string is in its grammar",
    texts: &[],
    rows: Rows::Devices(DRV, &STRINGS),
}];

#[test]
fn strings_are_in_their_grammars(rt: HostRuntime) -> Result<(), RowFault> {
    tables_hold(&rt, rt.alloc(), &STRING_TABLES)
}

static PORT_TABLES: [Table; 1] = [Table {
    name: "ports and pins keep their rules",
    texts: &[],
    rows: Rows::Devices(DRV, &PORTS_AND_PINS),
}];

#[test]
fn ports_and_pins_keep_their_rules(rt: HostRuntime) -> Result<(), RowFault> {
    tables_hold(&rt, rt.alloc(), &PORT_TABLES)
}

static INSTRUCTION_TABLES: [Table; 2] = [
    Table {
        name: "instructions keep their rules",
        texts: &[],
        rows: Rows::Devices(DRV, &INSTRUCTIONS),
    },
    Table {
        name: "instructions of 2001 keep their rules",
        texts: &[],
        rows: Rows::Devices(DRV1, &INSTRUCTIONS_OF_2001),
    },
];

#[test]
fn instructions_keep_their_rules(rt: HostRuntime) -> Result<(), RowFault> {
    tables_hold(&rt, rt.alloc(), &INSTRUCTION_TABLES)
}
