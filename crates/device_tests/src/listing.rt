//! Tests of the listings that btest writes of the devices of BSDL texts.
use crate::texts::{OF_2001, PRELOADS};
use device_bench::Source::{Driver, Wide};
use device_bench::{CaseFault, Source, cuts_hold, listing_ends, listings_hold};

static LISTINGS: [(Source, &str); 3] = [
    // The listing writes each code with the symbol nearest TDO last.
    (
        Driver(&[]),
        "ENTITY DRV\nPACKAGE P\nIR 2 SAMPLE 10 IDCODE -\nPORT TDI IN T1\nPORT TMS IN T3\nPORT TCK IN T4\nPORT TDO OUT T2\n\
         PORT Q OUT 1 2\nCELL 0 OUTPUT2 Q(1) X\nCELL 1 OUTPUT2 Q(2) X\n",
    ),
    (
        Driver(&[
            (4, OF_2001),
            (12, PRELOADS),
            (
                18,
                "attribute IDCODE_REGISTER of DRV : entity is \"XXXX0001001000110100000000000111\";\nend DRV;\n",
            ),
        ]),
        "ENTITY DRV\nPACKAGE P\nIR 2 PRELOAD 00 EXTEST 01 IDCODE XXXX0001001000110100000000000111\nPORT TDI IN T1\n\
         PORT TMS IN T3\nPORT TCK IN T4\nPORT TDO OUT T2\nPORT Q OUT 1 2\nCELL 0 OUTPUT2 Q(1) X\nCELL 1 OUTPUT2 Q(2) X\n",
    ),
    // Ports of every mode. Most of them have no pin.
    (
        Driver(&[
            (
                3,
                "port (TDI, TMS, TCK : in bit; TDO : out bit; Q : out bit_vector(1 to 2); NC : linkage bit; E : inout bit; F : buffer bit);\n",
            ),
            (6, "constant P : PIN_MAP_STRING := \"Q:(A1,7)\";\n"),
        ]),
        "ENTITY DRV\nPACKAGE P\nIR 2 SAMPLE 10 IDCODE -\nPORT TDI IN -\nPORT TMS IN -\nPORT TCK IN -\n\
         PORT TDO OUT -\nPORT Q OUT A1 7\nPORT NC LINKAGE -\nPORT E INOUT -\nPORT F BUFFER -\n\
         CELL 0 OUTPUT2 Q(1) X\nCELL 1 OUTPUT2 Q(2) X\n",
    ),
];

#[test]
fn lists_codes_and_ports(rt: HostRuntime) -> Result<(), CaseFault> {
    listings_hold(rt.alloc(), &LISTINGS)
}

const SHARED: Source = Driver(&[
    (
        3,
        "port (TDI, TMS, TCK, S : in bit; TDO : out bit; Q : out bit_vector(1 to 2));\n",
    ),
    (
        16,
        "\"1 (BC_1, S, observe_only, 0), 1 (BC_1, *, controlr, 1),\" &\n",
    ),
    (17, "\"0 (BC_1, Q(2), output3, X, 1, 1, Z)\";\n"),
]);

#[test]
fn lists_the_entries_of_a_cell_in_order(rt: HostRuntime) -> Result<(), CaseFault> {
    listing_ends(
        rt.alloc(),
        SHARED,
        "CELL 0 OUTPUT3 Q(2) X 1 1\nCELL 1 OBSERVE_ONLY S 0\nCELL 1 CONTROLR * 1\n",
    )
}

// The number of the call of `put` that fails, counted from 1, the number of bytes that the sink then has, and the last of these bytes. The
// first three lines of the listing have 45 bytes together. The line of port D has 2,010 bytes.
const CUTS: [(u32, usize, &str); 3] = [(4, 45, ""), (5, 1069, ""), (6, 2055, " 599\n")];

#[test]
fn puts_a_long_line_in_full_pieces_and_the_rest(rt: HostRuntime) -> Result<(), CaseFault> {
    cuts_hold(rt.alloc(), Wide, &CUTS)
}
