// Table-driven tests of the command `device`. The texts describe a device, and the rows have its listing.
use run_bench::Text::{Edited, Filled, Plain};
use run_bench::{
    BUF2, BUF2_LISTING, DRV, DRV1, Ending, RCV, RCV1, RowFault, Rows, Run, Table, tables_hold,
};

const DRV_LISTING: &str =
    "ENTITY DRV\nPACKAGE P\nIR 2 SAMPLE 10 IDCODE -\nPORT TDI IN T1\nPORT TMS IN T3\nPORT TCK IN T4\n\
                           PORT TDO OUT T2\nPORT Q OUT 1 2\nCELL 0 OUTPUT2 Q(1) X\nCELL 1 OUTPUT2 Q(2) X\n";

// The changes that turn the listing of `DRV` into the listing of `DRV1`, the driver with a text of the 2001 edition.
const EDITION: [(&str, &str); 2] = [
    ("ENTITY DRV", "ENTITY DRV1"),
    ("SAMPLE 10 IDCODE", "PRELOAD 00 EXTEST 01 IDCODE"),
];

const DRV1_LISTING: Ending<'static> = Ending::PutsAll(Edited(DRV_LISTING, &EDITION));

// The generic may follow the ports. Upper and lower case do not matter.
const EXCHANGED: [(&str, &str); 1] = [(
    "generic (PHYSICAL_PIN_MAP : string := \"P\");\nport (TDI, TMS, TCK : in bit; TDO : out bit; Q : out bit_vector(1 to 2));\n",
    "port (tdi, tms, tck : in bit; tdo : out bit; q : out bit_vector(1 to 2));\ngeneric (physical_pin_map : string := \"p\");\n",
)];

// The driver with an optional attribute, TAP_SCAN_RESET.
const RESET: [(&str, &str); 3] = [
    ("TDI, TMS, TCK : in bit", "TDI, TMS, TCK, TRST : in bit"),
    ("TCK:T4", "TCK:T4, TRST:T5"),
    (
        "end DRV;",
        "attribute TAP_SCAN_RESET of TRST : signal is true;\nend DRV;",
    ),
];

const CODED: [(&str, &str); 1] = [(
    "end DRV;",
    "attribute IDCODE_REGISTER of DRV : entity is \"xxxx0001001000110100\" & \"000000000111\";\nend DRV;",
)];

const COMPLYING: [(&str, &str); 1] = [(
    "end DRV;",
    "attribute COMPLIANCE_PATTERNS of DRV : entity is \"(Q(2), TDI, Q(2)) (0X1, 111)\";\nend DRV;",
)];

// Texts that differ from `DRV` in the clock or in the names of editions, and describe the same device.
const OTHER_WORDS: [Run; 6] = [
    // The clock may stop at 0 only. Its frequency may be any number.
    (
        Edited(DRV, &[("(10.0e6, BOTH)", "(20E-3, low)")]),
        SAME_LISTING,
    ),
    (Edited(DRV, &[("(10.0e6, BOTH)", "(1, LOW)")]), SAME_LISTING),
    // A `use` statement may name an older edition or anything else, and a text needs no `use` statement. COMPONENT_CONFORMANCE may name an
    // older edition.
    (
        Edited(
            DRV,
            &[
                ("use STD_1149_1_1994", "use STD_1149_1_1990"),
                (
                    "end DRV;",
                    "attribute COMPONENT_CONFORMANCE of DRV : entity is \"STD_1149_1_1990\";\nend DRV;",
                ),
            ],
        ),
        SAME_LISTING,
    ),
    (
        Edited(
            DRV,
            &[
                ("use STD_1149_1_1994", "use STD_1149_1_1993"),
                (
                    "end DRV;",
                    "attribute COMPONENT_CONFORMANCE of DRV : entity is \"std_1149_1\" & \"_1993\";\nend DRV;",
                ),
            ],
        ),
        SAME_LISTING,
    ),
    (
        Edited(
            DRV,
            &[(
                "use STD_1149_1_1994.all;",
                "use STD_1149_1_2013.all; use Cells_1.all;",
            )],
        ),
        SAME_LISTING,
    ),
    (
        Edited(DRV, &[("use STD_1149_1_1994.all;\n", "")]),
        SAME_LISTING,
    ),
];

// Texts that differ from `DRV` in codes or names that the listing does not show, and describe the same device.
const OTHER_CODES: [Run; 7] = [
    (Edited(DRV, &COMPLYING), SAME_LISTING),
    // In a text of an older edition, the preload code is the first code of SAMPLE, with 0 in place of X. The code of PRELOAD is not used.
    (
        Edited(DRV, &[("SAMPLE (10)", "PRELOAD (01), SAMPLE (1X, 00)")]),
        SAME_LISTING,
    ),
    (
        Edited(DRV, &[("BYPASS (11), EXTEST (00), ", "")]),
        SAME_LISTING,
    ),
    // One of the codes of BYPASS matches all ones, and one of the codes of EXTEST matches all zeros.
    (
        Edited(
            DRV,
            &[(
                "BYPASS (11), EXTEST (00)",
                "BYPASS (00, 1X), EXTEST (01, X0)",
            )],
        ),
        SAME_LISTING,
    ),
    // An integer may have nine digits. The name after `of` and the name at the end need not be the name of the entity.
    (
        Edited(
            DRV,
            &[(
                "INSTRUCTION_LENGTH of DRV : entity is 2",
                "INSTRUCTION_LENGTH of D : entity is 000000002",
            )],
        ),
        SAME_LISTING,
    ),
    (Edited(DRV, &[("end DRV;", "end D;")]), SAME_LISTING),
    (Edited(DRV, &[("end DRV;", "end;")]), SAME_LISTING),
];

const SAME_LISTING: Ending<'static> = Ending::Puts(DRV_LISTING);

// Texts with other blanks, line ends, comments and strings.
const OTHER_BYTES: [Run; 6] = [
    // Lines that end with CR LF, and a vertical tab and a form feed, which are blanks between tokens.
    (Edited(DRV, &[("\n", "\r\n")]), SAME_LISTING),
    (Edited(DRV, &[("use STD", "\x0buse\x0cSTD")]), SAME_LISTING),
    // A comment may contain any bytes, and the last line needs no line end.
    (
        Edited(DRV, &[("end DRV;\n", "end DRV; -- \x00\u{e9} end")]),
        SAME_LISTING,
    ),
    // The default package may be joined from several strings. Upper and lower case do not matter.
    (
        Edited(DRV, &[(":= \"P\"", ":= \"\" & \"p\"")]),
        SAME_LISTING,
    ),
    // Any of the `use` items may name the edition of 2001. Upper and lower case do not matter.
    (
        Edited(
            DRV1,
            &[
                (
                    "use STD_1149_1_2001.all;",
                    "use Cells_1.all;\nuse std_1149_1_2001.ALL;",
                ),
                (
                    "attribute COMPONENT_CONFORMANCE of DRV1 : entity is \"STD_1149_1_2001\";\n",
                    "",
                ),
            ],
        ),
        DRV1_LISTING,
    ),
    // Compliance patterns may name ports of any mode.
    (
        Edited(
            DRV,
            &[
                (
                    "(1 to 2));",
                    "(1 to 2); L : linkage bit; I : inout bit; B : buffer bit);",
                ),
                (
                    "end DRV;",
                    "attribute COMPLIANCE_PATTERNS of DRV : entity is \"(L, I, B, TDO) (0101)\";\nend DRV;",
                ),
            ],
        ),
        Ending::PutsAll(Edited(
            DRV_LISTING,
            &[(
                "PORT Q OUT 1 2\n",
                "PORT Q OUT 1 2\nPORT L LINKAGE -\nPORT I INOUT -\nPORT B BUFFER -\n",
            )],
        )),
    ),
];

const RCV1_LISTING: &str =
    "ENTITY RCV1\nPACKAGE P\nIR 2 SAMPLE 10 IDCODE -\nPORT TDI IN T1\nPORT TMS IN T3\nPORT TCK IN T4\n\
                            PORT TDO OUT T2\nPORT D IN 1\nCELL 0 INPUT D X\n";

// Devices that differ from a device of `run_bench`, and their listings.
const OTHER_DEVICES: [Run; 8] = [
    (
        Edited(DRV, &RESET),
        Ending::PutsAll(Edited(DRV_LISTING, &[("PORT TDO", "PORT TRST IN T5\nPORT TDO")])),
    ),
    (
        Edited(DRV, &CODED),
        Ending::PutsAll(Edited(
            DRV_LISTING,
            &[("IDCODE -", "IDCODE XXXX0001001000110100000000000111")],
        )),
    ),
    // A pin of mode buffer or inout may have a driving entry.
    (
        Edited(DRV, &[("Q : out", "Q : buffer")]),
        Ending::PutsAll(Edited(DRV_LISTING, &[("PORT Q OUT", "PORT Q BUFFER")])),
    ),
    (
        Edited(DRV, &[("Q : out", "Q : inout")]),
        Ending::PutsAll(Edited(DRV_LISTING, &[("PORT Q OUT", "PORT Q INOUT")])),
    ),
    // A range of one bit.
    (
        Edited(
            RCV1,
            &[
                ("D : in bit", "D : in bit_vector(3 downto 3)"),
                ("D, input", "D(3), input"),
            ],
        ),
        Ending::PutsAll(Edited(RCV1_LISTING, &[("INPUT D", "INPUT D(3)")])),
    ),
    (
        Edited(
            RCV1,
            &[
                ("D : in bit", "D : in bit_vector(0 to 0)"),
                ("D, input", "D(0), input"),
            ],
        ),
        Ending::PutsAll(Edited(RCV1_LISTING, &[("INPUT D", "INPUT D(0)")])),
    ),
    // The cell functions CLOCK, OBSERVE_ONLY, INTERNAL and CONTROLR.
    (
        Edited(
            RCV,
            &[
                (
                    "entity is 2;\nattribute BOUNDARY_REGISTER",
                    "entity is 4;\nattribute BOUNDARY_REGISTER",
                ),
                ("D(1), input, X", "D(1), clock, 0"),
                (
                    "D(2), input, X)",
                    "D(2), observe_only, 1), 2 (BC_1, *, internal, X), 3 (BC_1, *, controlr, 0)",
                ),
            ],
        ),
        Ending::Puts(
            "ENTITY RCV\nPACKAGE P\nIR 2 SAMPLE 10 IDCODE -\nPORT TDI IN T1\nPORT TMS IN T3\nPORT TCK IN T4\nPORT TDO OUT T2\n\
             PORT D IN 1 2\nCELL 0 CLOCK D(1) 0\nCELL 1 OBSERVE_ONLY D(2) 1\nCELL 2 INTERNAL * X\nCELL 3 CONTROLR * 0\n",
        ),
    ),
    // In a text of 2001 that does not list PRELOAD, the preload code is the code of SAMPLE, with 0 in place of X.
    (
        Edited(DRV1, &[("SAMPLE (10), PRELOAD (00)", "SAMPLE (0X)")]),
        DRV1_LISTING,
    ),
];

const LISTED: [Run; 7] = [
    (Plain(DRV), Ending::Puts(DRV_LISTING)),
    (Plain(BUF2), Ending::Puts(BUF2_LISTING)),
    (Plain(DRV1), DRV1_LISTING),
    (Edited(DRV, &EXCHANGED), Ending::Puts(DRV_LISTING)),
    // An attribute that btest does not read may have deeply nested parentheses.
    (
        Filled {
            of: DRV,
            lines: 17,
            head: "attribute FOO",
            piece: "(",
            count: 100_000,
            tail: ";\nend DRV;\n",
        },
        Ending::Puts(DRV_LISTING),
    ),
    // Either the `use` statement or COMPONENT_CONFORMANCE alone selects the 2001 edition.
    (
        Edited(
            DRV1,
            &[("use STD_1149_1_2001.all;", "use STD_1149_1_1994.all;")],
        ),
        DRV1_LISTING,
    ),
    (
        Edited(DRV1, &[("\"STD_1149_1_2001\"", "\"STD_1149_1_1993\"")]),
        DRV1_LISTING,
    ),
];

static LISTED_TABLES: [Table; 1] = [Table {
    name: "a device is listed",
    texts: &[],
    rows: Rows::Texts("device drv", "drv", &LISTED),
}];

#[test]
fn devices_are_listed(rt: HostRuntime) -> Result<(), RowFault> {
    tables_hold(&rt, rt.alloc(), &LISTED_TABLES)
}

static WORD_TABLES: [Table; 1] = [Table {
    name: "the clock and the names of editions don't change a listing",
    texts: &[],
    rows: Rows::Texts("device drv", "drv", &OTHER_WORDS),
}];

#[test]
fn clocks_and_editions_are_not_listed(rt: HostRuntime) -> Result<(), RowFault> {
    tables_hold(&rt, rt.alloc(), &WORD_TABLES)
}

static CODE_TABLES: [Table; 1] = [Table {
    name: "codes and names that are not listed don't change a listing",
    texts: &[],
    rows: Rows::Texts("device drv", "drv", &OTHER_CODES),
}];

#[test]
fn other_codes_and_names_are_not_listed(rt: HostRuntime) -> Result<(), RowFault> {
    tables_hold(&rt, rt.alloc(), &CODE_TABLES)
}

static BYTE_TABLES: [Table; 1] = [Table {
    name: "blanks, comments and pieces of strings don't change a listing",
    texts: &[],
    rows: Rows::Texts("device drv", "drv", &OTHER_BYTES),
}];

#[test]
fn blanks_comments_and_pieces_are_not_listed(rt: HostRuntime) -> Result<(), RowFault> {
    tables_hold(&rt, rt.alloc(), &BYTE_TABLES)
}

static DEVICE_TABLES: [Table; 1] = [Table {
    name: "the listing shows the ports, codes and cells of a device",
    texts: &[],
    rows: Rows::Texts("device drv", "drv", &OTHER_DEVICES),
}];

#[test]
fn ports_codes_and_cells_are_listed(rt: HostRuntime) -> Result<(), RowFault> {
    tables_hold(&rt, rt.alloc(), &DEVICE_TABLES)
}
