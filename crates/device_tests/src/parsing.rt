//! Tests of reading whole BSDL texts from their bytes.
use bsdl_lexer::LexFault::{Byte, OpenString, TooMany};
use bsdl_parser::ParseFault::{Expected, Package};
use device_bench::Reading::{Entity, Lex, Parse};
use device_bench::Source::{Buffer, Bytes, Driver, Filled, Front};
use device_bench::{CaseFault, Reading, Source, entities_hold, readings_hold};

static CHANGED: [(Source, Reading); 24] = [
    // A text without faults, a text without the generic, a text without ports, and a text that has the generic twice.
    (Driver(&[(1, "entity DRV is\n")]), Entity),
    (Driver(&[(2, "")]), Parse(Expected(17))),
    (Driver(&[(3, "")]), Parse(Expected(17))),
    (
        Driver(&[(3, "generic (PHYSICAL_PIN_MAP : string := \"P\");\n")]),
        Parse(Expected(3)),
    ),
    // A text that has the ports twice, and a generic without a default.
    (
        Driver(&[(4, "port (A : buffer bit);\n")]),
        Parse(Expected(4)),
    ),
    (
        Driver(&[(2, "generic (PHYSICAL_PIN_MAP : string);\n")]),
        Entity,
    ),
    // A byte that cannot begin a token, and a string that is not closed.
    (
        Driver(&[(4, "\u{7}use STD_1149_1_1994.all;\n")]),
        Lex(Byte(4)),
    ),
    (Driver(&[(16, "\"0 (BC_1,\n")]), Lex(OpenString(16))),
    // A word instead of an integer, an integer of ten digits, and a clock that is neither BOTH nor LOW.
    (
        Driver(&[(11, "attribute INSTRUCTION_LENGTH of DRV : entity is two;\n")]),
        Parse(Expected(11)),
    ),
    (
        Driver(&[(
            14,
            "attribute BOUNDARY_LENGTH of DRV : entity is 1234567890;\n",
        )]),
        Parse(Expected(14)),
    ),
    (
        Driver(&[(
            10,
            "attribute TAP_SCAN_CLOCK of TCK : signal is (1.0e6, HIGH);\n",
        )]),
        Parse(Expected(10)),
    ),
    // An attribute that btest does not read, and such an attribute without its semicolon.
    (
        Driver(&[(
            14,
            "attribute FOO ( ( \"a\" end\n;attribute PIN_MAP_STRING;\n",
        )]),
        Entity,
    ),
    (Driver(&[(14, "attribute FOO\n")]), Entity),
    // Optional attributes, and ports of modes inout and linkage.
    (
        Driver(&[(
            18,
            "attribute IDCODE_REGISTER of DRV : entity is \"XXXX0001001000110100\" & \"000000000111\";\nend DRV;\n",
        )]),
        Entity,
    ),
    (
        Driver(&[(
            18,
            "attribute COMPONENT_CONFORMANCE of DRV : entity is \"STD_1149_1_2001\";\nend;\n",
        )]),
        Entity,
    ),
    (
        Driver(&[(
            3,
            "port (B : inout bit; C, D : linkage bit_vector(7 downto 0));\n",
        )]),
        Entity,
    ),
    // The end of the entity, and the text after it.
    (Driver(&[(18, "end ;\n-- package\n")]), Entity),
    (
        Driver(&[(18, "end DRV;\npackage X is\n")]),
        Parse(Package(19)),
    ),
    (
        Driver(&[(18, "end DRV;\nentity X is\n")]),
        Parse(Expected(19)),
    ),
    (
        Driver(&[(18, "end package;\npackage\n")]),
        Parse(Package(19)),
    ),
    (Driver(&[(18, "package DRV;\n")]), Parse(Expected(18))),
    (Driver(&[(18, "end DRV\n\n")]), Parse(Expected(19))),
    // The text of a different device.
    (Buffer, Entity),
    // The generic comes after the ports.
    (
        Driver(&[
            (
                2,
                "port (tdi, tms, tck : in bit; tdo : out bit; q : out bit_vector(1 to 2));\n",
            ),
            (3, "generic (physical_pin_map : string := \"p\");\n"),
        ]),
        Entity,
    ),
];

#[test]
fn whole_texts_and_changed_lines(rt: HostRuntime) -> Result<(), CaseFault> {
    readings_hold(rt.alloc(), &CHANGED)
}

static PARTS: [(Source, Reading); 10] = [
    (Front(10, ""), Parse(Expected(10))),
    (Front(15, "\"0 (BC_1,"), Lex(OpenString(16))),
    (Bytes(b""), Parse(Expected(1))),
    (Bytes(b"-- nothing\n\n"), Parse(Expected(2))),
    (Bytes(b"package body X is\n"), Parse(Package(1))),
    (Bytes(b"\nEntity x\nPackage"), Parse(Expected(3))),
    (Bytes(b"entity E is end;"), Parse(Expected(1))),
    (
        Bytes(b"entity E is\nport (A : in bit);\nend;"),
        Parse(Expected(3)),
    ),
    (Bytes(b"\x00"), Lex(Byte(1))),
    (Bytes(b"\xff"), Lex(Byte(1))),
];

#[test]
fn parts_of_texts(rt: HostRuntime) -> Result<(), CaseFault> {
    readings_hold(rt.alloc(), &PARTS)
}

static LARGE: [(Source, Reading); 2] = [
    // Deeply nested parentheses in an attribute that btest does not read.
    (
        Filled {
            lines: 17,
            head: "attribute FOO ",
            byte: b'(',
            count: 100_000,
            tail: ";\nend DRV;\n",
        },
        Entity,
    ),
    // A text with one token more than the limit.
    (
        Filled {
            lines: 0,
            head: "",
            byte: b',',
            count: 1_048_577,
            tail: "",
        },
        Lex(TooMany(1)),
    ),
];

#[test]
fn large_texts(rt: HostRuntime) -> Result<(), CaseFault> {
    readings_hold(rt.alloc(), &LARGE)
}

static ENTITIES: [(Source, &str); 2] = [
    (
        Driver(&[]),
        "entity DRV P
use STD_1149_1_1994
constant P TDI:T1, TDO:T2, TMS:T3, TCK:T4, Q:(1,2)
port TDI Inward
port TMS Inward
port TCK Inward
port TDO Outward
port Q Outward 1 to 2
1
2 port TDI
3 port TDO
4 port TMS
5 port TCK
6 number 2
7 text BYPASS (11), EXTEST (00), SAMPLE (10)
8 text 01
9 number 2
10 text 0 (BC_1, Q(1), OUTPUT2, X),1 (BC_1, Q(2), OUTPUT2, X)
",
    ),
    // Two packages, and attributes in an unusual order.
    (
        Buffer,
        "entity BUF2 DW
use STD_1149_1_1990
constant DW OE_N:1, A:(2,3), Y:(4,5), GND:6, VCC:7, TDI:8, TMS:9, TCK:10, TDO:11
constant FK OE_N:A1, A:(A2,A3), Y:(B1,B2), GND:C1, VCC:C2, TDI:D1, TMS:D2, TCK:D3, TDO:D4
port OE_N Inward
port A Inward 1 downto 0
port Y Outward 1 downto 0
port GND Linkage
port VCC Linkage
port TDI Inward
port TMS Inward
port TCK Inward
port TDO Outward
1
5 port TCK
2 port TDI
3 port TDO
4 port TMS
9 number 5
10 text 4 (BC_1, OE_N, INPUT, X), 4 (BC_1, *, CONTROL, 1), 3 (BC_1, A(1), INPUT, X), 2 (BC_1, A(0), INPUT, X), 1 (BC_1, Y(1), OUTPUT3, X, 4, 1, Z), 0 (BC_1, Y(0), OUTPUT3, X, 4, 1, Z)
6 number 2
7 text EXTEST (00), SAMPLE (10), BYPASS (11, 01)
8 text 01
",
    ),
];

#[test]
fn parts_of_an_entity(rt: HostRuntime) -> Result<(), CaseFault> {
    entities_hold(rt.alloc(), &ENTITIES)
}
