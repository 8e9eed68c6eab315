// The BSDL texts of small devices for the tests.

/// A driver with two outputs that are always on.
pub const DRV: &str = r#"entity DRV is
generic (PHYSICAL_PIN_MAP : string := "P");
port (TDI, TMS, TCK : in bit; TDO : out bit; Q : out bit_vector(1 to 2));
use STD_1149_1_1994.all;
attribute PIN_MAP of DRV : entity is PHYSICAL_PIN_MAP;
constant P : PIN_MAP_STRING := "TDI:T1, TDO:T2, TMS:T3, TCK:T4, Q:(1,2)";
attribute TAP_SCAN_IN of TDI : signal is true;
attribute TAP_SCAN_OUT of TDO : signal is true;
attribute TAP_SCAN_MODE of TMS : signal is true;
attribute TAP_SCAN_CLOCK of TCK : signal is (10.0e6, BOTH);
attribute INSTRUCTION_LENGTH of DRV : entity is 2;
attribute INSTRUCTION_OPCODE of DRV : entity is "BYPASS (11), EXTEST (00), SAMPLE (10)";
attribute INSTRUCTION_CAPTURE of DRV : entity is "01";
attribute BOUNDARY_LENGTH of DRV : entity is 2;
attribute BOUNDARY_REGISTER of DRV : entity is
"0 (BC_1, Q(1), output2, X)," &
"1 (BC_1, Q(2), output2, X)";
end DRV;
"#;

/// A receiver with two inputs.
pub const RCV: &str = r#"entity RCV is
generic (PHYSICAL_PIN_MAP : string := "P");
port (TDI, TMS, TCK : in bit; TDO : out bit; D : in bit_vector(1 to 2));
use STD_1149_1_1994.all;
attribute PIN_MAP of RCV : entity is PHYSICAL_PIN_MAP;
constant P : PIN_MAP_STRING := "TDI:T1, TDO:T2, TMS:T3, TCK:T4, D:(1,2)";
attribute TAP_SCAN_IN of TDI : signal is true;
attribute TAP_SCAN_OUT of TDO : signal is true;
attribute TAP_SCAN_MODE of TMS : signal is true;
attribute TAP_SCAN_CLOCK of TCK : signal is (10.0e6, BOTH);
attribute INSTRUCTION_LENGTH of RCV : entity is 2;
attribute INSTRUCTION_OPCODE of RCV : entity is "BYPASS (11), EXTEST (00), SAMPLE (10)";
attribute INSTRUCTION_CAPTURE of RCV : entity is "01";
attribute BOUNDARY_LENGTH of RCV : entity is 2;
attribute BOUNDARY_REGISTER of RCV : entity is
"0 (BC_1, D(1), input, X)," &
"1 (BC_1, D(2), input, X)";
end RCV;
"#;

/// A receiver with one input.
pub const RCV1: &str = r#"entity RCV1 is
generic (PHYSICAL_PIN_MAP : string := "P");
port (TDI, TMS, TCK : in bit; TDO : out bit; D : in bit);
use STD_1149_1_1994.all;
attribute PIN_MAP of RCV1 : entity is PHYSICAL_PIN_MAP;
constant P : PIN_MAP_STRING := "TDI:T1, TDO:T2, TMS:T3, TCK:T4, D:1";
attribute TAP_SCAN_IN of TDI : signal is true;
attribute TAP_SCAN_OUT of TDO : signal is true;
attribute TAP_SCAN_MODE of TMS : signal is true;
attribute TAP_SCAN_CLOCK of TCK : signal is (10.0e6, BOTH);
attribute INSTRUCTION_LENGTH of RCV1 : entity is 2;
attribute INSTRUCTION_OPCODE of RCV1 : entity is "BYPASS (11), EXTEST (00), SAMPLE (10)";
attribute INSTRUCTION_CAPTURE of RCV1 : entity is "01";
attribute BOUNDARY_LENGTH of RCV1 : entity is 1;
attribute BOUNDARY_REGISTER of RCV1 : entity is
"0 (BC_1, D, input, X)";
end RCV1;
"#;

/// A three-state driver with one output.
pub const TS: &str = r#"entity TS is
generic (PHYSICAL_PIN_MAP : string := "P");
port (TDI, TMS, TCK : in bit; TDO : out bit; Q : out bit);
use STD_1149_1_1994.all;
attribute PIN_MAP of TS : entity is PHYSICAL_PIN_MAP;
constant P : PIN_MAP_STRING := "TDI:T1, TDO:T2, TMS:T3, TCK:T4, Q:1";
attribute TAP_SCAN_IN of TDI : signal is true;
attribute TAP_SCAN_OUT of TDO : signal is true;
attribute TAP_SCAN_MODE of TMS : signal is true;
attribute TAP_SCAN_CLOCK of TCK : signal is (10.0e6, BOTH);
attribute INSTRUCTION_LENGTH of TS : entity is 2;
attribute INSTRUCTION_OPCODE of TS : entity is "BYPASS (11), EXTEST (00), SAMPLE (10)";
attribute INSTRUCTION_CAPTURE of TS : entity is "01";
attribute BOUNDARY_LENGTH of TS : entity is 2;
attribute BOUNDARY_REGISTER of TS : entity is
"0 (BC_1, Q, output3, X, 1, 1, Z)," &
"1 (BC_1, *, control, 1)";
end TS;
"#;

/// A part with one bidirectional pin.
pub const BI: &str = r#"entity BI is
generic (PHYSICAL_PIN_MAP : string := "P");
port (TDI, TMS, TCK : in bit; TDO : out bit; B : inout bit);
use STD_1149_1_1994.all;
attribute PIN_MAP of BI : entity is PHYSICAL_PIN_MAP;
constant P : PIN_MAP_STRING := "TDI:T1, TDO:T2, TMS:T3, TCK:T4, B:1";
attribute TAP_SCAN_IN of TDI : signal is true;
attribute TAP_SCAN_OUT of TDO : signal is true;
attribute TAP_SCAN_MODE of TMS : signal is true;
attribute TAP_SCAN_CLOCK of TCK : signal is (10.0e6, BOTH);
attribute INSTRUCTION_LENGTH of BI : entity is 2;
attribute INSTRUCTION_OPCODE of BI : entity is "BYPASS (11), EXTEST (00), SAMPLE (10)";
attribute INSTRUCTION_CAPTURE of BI : entity is "01";
attribute BOUNDARY_LENGTH of BI : entity is 2;
attribute BOUNDARY_REGISTER of BI : entity is
"0 (BC_7, B, bidir, X, 1, 1, Z)," &
"1 (BC_1, *, control, 1)";
end BI;
"#;

/// A driver with four outputs and two control cells.
pub const TWO: &str = r#"entity TWO is
generic (PHYSICAL_PIN_MAP : string := "P");
port (TDI, TMS, TCK : in bit; TDO : out bit; Q : out bit_vector(1 to 4));
use STD_1149_1_1994.all;
attribute PIN_MAP of TWO : entity is PHYSICAL_PIN_MAP;
constant P : PIN_MAP_STRING := "TDI:T1, TDO:T2, TMS:T3, TCK:T4, Q:(1,2,3,4)";
attribute TAP_SCAN_IN of TDI : signal is true;
attribute TAP_SCAN_OUT of TDO : signal is true;
attribute TAP_SCAN_MODE of TMS : signal is true;
attribute TAP_SCAN_CLOCK of TCK : signal is (10.0e6, BOTH);
attribute INSTRUCTION_LENGTH of TWO : entity is 2;
attribute INSTRUCTION_OPCODE of TWO : entity is "BYPASS (11), EXTEST (00), SAMPLE (10)";
attribute INSTRUCTION_CAPTURE of TWO : entity is "01";
attribute BOUNDARY_LENGTH of TWO : entity is 6;
attribute BOUNDARY_REGISTER of TWO : entity is
"0 (BC_1, Q(1), output3, X, 4, 1, Z)," &
"1 (BC_1, Q(2), output3, X, 4, 1, Z)," &
"2 (BC_1, Q(3), output3, X, 5, 1, Z)," &
"3 (BC_1, Q(4), output3, X, 5, 1, Z)," &
"4 (BC_1, *, control, 1)," &
"5 (BC_1, *, control, 1)";
end TWO;
"#;

/// A driver with eight outputs and one control cell.
pub const OCT: &str = r#"entity OCT is
generic (PHYSICAL_PIN_MAP : string := "P");
port (TDI, TMS, TCK : in bit; TDO : out bit; Q : out bit_vector(1 to 8));
use STD_1149_1_1994.all;
attribute PIN_MAP of OCT : entity is PHYSICAL_PIN_MAP;
constant P : PIN_MAP_STRING := "TDI:T1, TDO:T2, TMS:T3, TCK:T4, Q:(1,2,3,4,5,6,7,8)";
attribute TAP_SCAN_IN of TDI : signal is true;
attribute TAP_SCAN_OUT of TDO : signal is true;
attribute TAP_SCAN_MODE of TMS : signal is true;
attribute TAP_SCAN_CLOCK of TCK : signal is (10.0e6, BOTH);
attribute INSTRUCTION_LENGTH of OCT : entity is 2;
attribute INSTRUCTION_OPCODE of OCT : entity is "BYPASS (11), EXTEST (00), SAMPLE (10)";
attribute INSTRUCTION_CAPTURE of OCT : entity is "01";
attribute BOUNDARY_LENGTH of OCT : entity is 9;
attribute BOUNDARY_REGISTER of OCT : entity is
"0 (BC_1, Q(1), output3, X, 8, 1, Z)," &
"1 (BC_1, Q(2), output3, X, 8, 1, Z)," &
"2 (BC_1, Q(3), output3, X, 8, 1, Z)," &
"3 (BC_1, Q(4), output3, X, 8, 1, Z)," &
"4 (BC_1, Q(5), output3, X, 8, 1, Z)," &
"5 (BC_1, Q(6), output3, X, 8, 1, Z)," &
"6 (BC_1, Q(7), output3, X, 8, 1, Z)," &
"7 (BC_1, Q(8), output3, X, 8, 1, Z)," &
"8 (BC_1, *, control, 1)";
end OCT;
"#;

/// A driver with eight outputs and four control cells.
pub const FOUR: &str = r#"entity FOUR is
generic (PHYSICAL_PIN_MAP : string := "P");
port (TDI, TMS, TCK : in bit; TDO : out bit; Q : out bit_vector(1 to 8));
use STD_1149_1_1994.all;
attribute PIN_MAP of FOUR : entity is PHYSICAL_PIN_MAP;
constant P : PIN_MAP_STRING := "TDI:T1, TDO:T2, TMS:T3, TCK:T4, Q:(1,2,3,4,5,6,7,8)";
attribute TAP_SCAN_IN of TDI : signal is true;
attribute TAP_SCAN_OUT of TDO : signal is true;
attribute TAP_SCAN_MODE of TMS : signal is true;
attribute TAP_SCAN_CLOCK of TCK : signal is (10.0e6, BOTH);
attribute INSTRUCTION_LENGTH of FOUR : entity is 2;
attribute INSTRUCTION_OPCODE of FOUR : entity is "BYPASS (11), EXTEST (00), SAMPLE (10)";
attribute INSTRUCTION_CAPTURE of FOUR : entity is "01";
attribute BOUNDARY_LENGTH of FOUR : entity is 12;
attribute BOUNDARY_REGISTER of FOUR : entity is
"0 (BC_1, Q(1), output3, X, 8, 1, Z)," &
"1 (BC_1, Q(2), output3, X, 8, 1, Z)," &
"2 (BC_1, Q(3), output3, X, 9, 1, Z)," &
"3 (BC_1, Q(4), output3, X, 9, 1, Z)," &
"4 (BC_1, Q(5), output3, X, 10, 1, Z)," &
"5 (BC_1, Q(6), output3, X, 10, 1, Z)," &
"6 (BC_1, Q(7), output3, X, 11, 1, Z)," &
"7 (BC_1, Q(8), output3, X, 11, 1, Z)," &
"8 (BC_1, *, control, 1)," &
"9 (BC_1, *, control, 1)," &
"10 (BC_1, *, control, 1)," &
"11 (BC_1, *, control, 1)";
end FOUR;
"#;

/// A driver with one open-drain output.
pub const OD: &str = r#"entity OD is
generic (PHYSICAL_PIN_MAP : string := "P");
port (TDI, TMS, TCK : in bit; TDO : out bit; Q : out bit);
use STD_1149_1_1994.all;
attribute PIN_MAP of OD : entity is PHYSICAL_PIN_MAP;
constant P : PIN_MAP_STRING := "TDI:T1, TDO:T2, TMS:T3, TCK:T4, Q:1";
attribute TAP_SCAN_IN of TDI : signal is true;
attribute TAP_SCAN_OUT of TDO : signal is true;
attribute TAP_SCAN_MODE of TMS : signal is true;
attribute TAP_SCAN_CLOCK of TCK : signal is (10.0e6, BOTH);
attribute INSTRUCTION_LENGTH of OD : entity is 2;
attribute INSTRUCTION_OPCODE of OD : entity is "BYPASS (11), EXTEST (00), SAMPLE (10)";
attribute INSTRUCTION_CAPTURE of OD : entity is "01";
attribute BOUNDARY_LENGTH of OD : entity is 1;
attribute BOUNDARY_REGISTER of OD : entity is
"0 (BC_1, Q, output2, 1, 0, 1, WEAK1)";
end OD;
"#;

/// Like `DRV`, but in the BSDL of the 2001 edition of the standard (IEEE 1149.1-2001). PRELOAD has a code of its own, and the code of
/// EXTEST is not all zeros.
pub const DRV1: &str = r#"entity DRV1 is
generic (PHYSICAL_PIN_MAP : string := "P");
port (TDI, TMS, TCK : in bit; TDO : out bit; Q : out bit_vector(1 to 2));
use STD_1149_1_2001.all;
attribute PIN_MAP of DRV1 : entity is PHYSICAL_PIN_MAP;
constant P : PIN_MAP_STRING := "TDI:T1, TDO:T2, TMS:T3, TCK:T4, Q:(1,2)";
attribute TAP_SCAN_IN of TDI : signal is true;
attribute TAP_SCAN_OUT of TDO : signal is true;
attribute TAP_SCAN_MODE of TMS : signal is true;
attribute TAP_SCAN_CLOCK of TCK : signal is (10.0e6, BOTH);
attribute INSTRUCTION_LENGTH of DRV1 : entity is 2;
attribute INSTRUCTION_OPCODE of DRV1 : entity is "BYPASS (11), EXTEST (01), SAMPLE (10), PRELOAD (00)";
attribute INSTRUCTION_CAPTURE of DRV1 : entity is "01";
attribute BOUNDARY_LENGTH of DRV1 : entity is 2;
attribute BOUNDARY_REGISTER of DRV1 : entity is
"0 (BC_1, Q(1), output2, X)," &
"1 (BC_1, Q(2), output2, X)";
attribute COMPONENT_CONFORMANCE of DRV1 : entity is "STD_1149_1_2001";
end DRV1;
"#;

/// A two-bit three-state buffer.
pub const BUF2: &str = r#"-- two-bit three-state buffer
entity buf2 is
  generic (physical_pin_map : string := "dw");
  port (oe_n : in bit;
        a : in bit_vector(1 downto 0);
        y : out bit_vector(1 downto 0);
        gnd, vcc : linkage bit;
        tdi, tms, tck : in bit; tdo : out bit);
  use std_1149_1_1990.all;
  attribute pin_map of buf2 : entity is physical_pin_map;
  constant dw : pin_map_string := "oe_n:1, a:(2,3), y:(4,5), " &
    "gnd:6, vcc:7, tdi:8, tms:9, tck:10, tdo:11";
  constant fk : pin_map_string := "oe_n:A1, a:(A2,A3), y:(B1,B2), " &
    "gnd:C1, vcc:C2, tdi:D1, tms:D2, tck:D3, tdo:D4";
  attribute tap_scan_clock of tck : signal is (20.0e6, BOTH);
  attribute tap_scan_in of tdi : signal is true;
  attribute tap_scan_out of tdo : signal is true;
  attribute tap_scan_mode of tms : signal is true;
  attribute port_grouping of buf2 : entity is "none";
  attribute design_warning of buf2 : entity is "read this; it is read over";
  attribute boundary_length of buf2 : entity is 5;
  attribute boundary_register of buf2 : entity is
    "4 (bc_1, oe_n, input, x), 4 (bc_1, *, control, 1), " &
    "3 (bc_1, a(1), input, x), 2 (bc_1, a(0), input, x), " &
    "1 (bc_1, y(1), output3, x, 4, 1, z), " &
    "0 (bc_1, y(0), output3, x, 4, 1, z)";
  attribute instruction_length of buf2 : entity is 2;
  attribute instruction_opcode of buf2 : entity is
    "extest (00), sample (10), bypass (11, 01)";
  attribute instruction_capture of buf2 : entity is "01";
end buf2;
"#;

/// The listing that btest writes for the device `BUF2`.
pub const BUF2_LISTING: &str = r#"ENTITY BUF2
PACKAGE DW
IR 2 SAMPLE 10 IDCODE -
PORT OE_N IN 1
PORT A IN 2 3
PORT Y OUT 4 5
PORT GND LINKAGE 6
PORT VCC LINKAGE 7
PORT TDI IN 8
PORT TMS IN 9
PORT TCK IN 10
PORT TDO OUT 11
CELL 0 OUTPUT3 Y(0) X 4 1
CELL 1 OUTPUT3 Y(1) X 4 1
CELL 2 INPUT A(0) X
CELL 3 INPUT A(1) X
CELL 4 INPUT OE_N X
CELL 4 CONTROL * 1
"#;

/// The BSDL texts of all these devices, with the names that the texts have in a bench.
pub const DEVICES: [(&str, &str); 11] = [
    ("drv", DRV),
    ("drv1", DRV1),
    ("rcv", RCV),
    ("rcv1", RCV1),
    ("ts", TS),
    ("bi", BI),
    ("two", TWO),
    ("oct", OCT),
    ("four", FOUR),
    ("od", OD),
    ("buf2", BUF2),
];
