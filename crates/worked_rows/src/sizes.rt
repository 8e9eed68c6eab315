// Tests on a board of realistic size: 60 devices with 1,928 nets and 4,620 boundary cells.
use run_bench::{Ending, Line, RowFault, sixty_devices_hold};

// The listing of the device. Cells 0 to 4 are control cells. The cells of the outputs, of the inputs and of the bus pins follow. Each of
// the first four control cells enables eight outputs, and the fifth enables the bus pins.
const LISTING: &str = r#"ENTITY GEN
PACKAGE P
IR 2 SAMPLE 10 IDCODE -
PORT TDI IN T1
PORT TMS IN T3
PORT TCK IN T4
PORT TDO OUT T2
PORT Q OUT 1 2 3 4 5 6 7 8 9 10 11 12 13 14 15 16 17 18 19 20 21 22 23 24 25 26 27 28 29 30 31 32
PORT D IN 33 34 35 36 37 38 39 40 41 42 43 44 45 46 47 48 49 50 51 52 53 54 55 56 57 58 59 60 61 62 63 64
PORT B INOUT 65 66 67 68 69 70 71 72
CELL 0 CONTROL * 1
CELL 1 CONTROL * 1
CELL 2 CONTROL * 1
CELL 3 CONTROL * 1
CELL 4 CONTROL * 1
CELL 5 OUTPUT3 Q(0) X 0 1
CELL 6 OUTPUT3 Q(1) X 0 1
CELL 7 OUTPUT3 Q(2) X 0 1
CELL 8 OUTPUT3 Q(3) X 0 1
CELL 9 OUTPUT3 Q(4) X 0 1
CELL 10 OUTPUT3 Q(5) X 0 1
CELL 11 OUTPUT3 Q(6) X 0 1
CELL 12 OUTPUT3 Q(7) X 0 1
CELL 13 OUTPUT3 Q(8) X 1 1
CELL 14 OUTPUT3 Q(9) X 1 1
CELL 15 OUTPUT3 Q(10) X 1 1
CELL 16 OUTPUT3 Q(11) X 1 1
CELL 17 OUTPUT3 Q(12) X 1 1
CELL 18 OUTPUT3 Q(13) X 1 1
CELL 19 OUTPUT3 Q(14) X 1 1
CELL 20 OUTPUT3 Q(15) X 1 1
CELL 21 OUTPUT3 Q(16) X 2 1
CELL 22 OUTPUT3 Q(17) X 2 1
CELL 23 OUTPUT3 Q(18) X 2 1
CELL 24 OUTPUT3 Q(19) X 2 1
CELL 25 OUTPUT3 Q(20) X 2 1
CELL 26 OUTPUT3 Q(21) X 2 1
CELL 27 OUTPUT3 Q(22) X 2 1
CELL 28 OUTPUT3 Q(23) X 2 1
CELL 29 OUTPUT3 Q(24) X 3 1
CELL 30 OUTPUT3 Q(25) X 3 1
CELL 31 OUTPUT3 Q(26) X 3 1
CELL 32 OUTPUT3 Q(27) X 3 1
CELL 33 OUTPUT3 Q(28) X 3 1
CELL 34 OUTPUT3 Q(29) X 3 1
CELL 35 OUTPUT3 Q(30) X 3 1
CELL 36 OUTPUT3 Q(31) X 3 1
CELL 37 INPUT D(0) X
CELL 38 INPUT D(1) X
CELL 39 INPUT D(2) X
CELL 40 INPUT D(3) X
CELL 41 INPUT D(4) X
CELL 42 INPUT D(5) X
CELL 43 INPUT D(6) X
CELL 44 INPUT D(7) X
CELL 45 INPUT D(8) X
CELL 46 INPUT D(9) X
CELL 47 INPUT D(10) X
CELL 48 INPUT D(11) X
CELL 49 INPUT D(12) X
CELL 50 INPUT D(13) X
CELL 51 INPUT D(14) X
CELL 52 INPUT D(15) X
CELL 53 INPUT D(16) X
CELL 54 INPUT D(17) X
CELL 55 INPUT D(18) X
CELL 56 INPUT D(19) X
CELL 57 INPUT D(20) X
CELL 58 INPUT D(21) X
CELL 59 INPUT D(22) X
CELL 60 INPUT D(23) X
CELL 61 INPUT D(24) X
CELL 62 INPUT D(25) X
CELL 63 INPUT D(26) X
CELL 64 INPUT D(27) X
CELL 65 INPUT D(28) X
CELL 66 INPUT D(29) X
CELL 67 INPUT D(30) X
CELL 68 INPUT D(31) X
CELL 69 BIDIR B(0) X 4 1
CELL 70 BIDIR B(1) X 4 1
CELL 71 BIDIR B(2) X 4 1
CELL 72 BIDIR B(3) X 4 1
CELL 73 BIDIR B(4) X 4 1
CELL 74 BIDIR B(5) X 4 1
CELL 75 BIDIR B(6) X 4 1
CELL 76 BIDIR B(7) X 4 1
"#;

// A scan of 4,620 bits has 1,155 digits on 19 lines, so an SDR statement has 1,190 bytes, or 3,551 if it compares. An SIR statement has 121
// bytes. The lines before the scans have 59 bytes, and the line after the scans has 13. Two SIR statements and an SDR statement come before
// the passes. Each of the 60 passes has one SDR statement that does not compare and eleven that do, since 1,928 codes need 11 bits. The
// walking test has one SDR statement that does not compare, and one that compares for each net.
const LINES: [Line; 4] = [
    ("device gen", Ending::Puts(LISTING)),
    ("svf c n gen", Ending::Long(2_416_564)),
    ("walk c n gen", Ending::Long(6_849_022)),
    ("cover c n gen", Ending::Puts("NETS 1928 COVERED 1928\n")),
];

#[test]
fn memory_is_there_for_a_board_of_60_devices(rt: HostRuntime) -> Result<(), RowFault> {
    sixty_devices_hold(&rt, rt.alloc(), "", &LINES)
}
