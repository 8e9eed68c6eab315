//! Tests of the values of strings in BSDL texts. For a string that is not in its grammar, they check the number of its first wrong entry.
use board_defs::Symbol;
use device_bench::{CaseFault, Grammar, strings_hold, symbols_hold};

static PIN_MAPS: [(&str, Result<&str, u32>); 21] = [
    (
        "TDI:T1, TDO:T2, TMS:T3, TCK:T4, Q:(1,2)",
        Ok("TDI T1; TDO T2; TMS T3; TCK T4; Q 1 2; "),
    ),
    (
        "oe_n:A1, a:(A2,A3), y:(B1,B2), gnd:C1, vcc:C2, tdi:D1, tms:D2, tck:D3, tdo:D4",
        Ok("OE_N A1; A A2 A3; Y B1 B2; GND C1; VCC C2; TDI D1; TMS D2; TCK D3; TDO D4; "),
    ),
    // One pin in parentheses, blanks around every token, no blanks, and a pin that begins with `_`.
    ("A:(1)", Ok("A 1; ")),
    ("\t A\t: ( 1 , 2 ) , B : 3 ", Ok("A 1 2; B 3; ")),
    ("A:(1,2),B:_3", Ok("A 1 2; B _3; ")),
    // An empty string, a string of one blank, a port without a pin, a name that begins with a digit, and a comma at the front.
    ("", Err(1)),
    (" ", Err(1)),
    ("A", Err(1)),
    ("3A:1, B:2", Err(1)),
    (",A:1", Err(1)),
    // A comma is missing after the first, a middle or the last entry.
    ("A:1 B:2, C:3", Err(1)),
    ("A:1, B:2 C:3", Err(2)),
    ("A:1, B:(1,2), C:3 D", Err(3)),
    // A comma at the end, a list of pins whose parenthesis is not closed, and an empty list of pins.
    ("A:1, B:2,", Err(3)),
    ("A:1, B:(1,2, C:3", Err(2)),
    ("A:1, B:()", Err(2)),
    // A pin of two words, and a line feed, which is not allowed in a string.
    ("A:1 2, B:3", Err(1)),
    ("A:1, B:2\n, C:3", Err(2)),
    // A port that begins with `_`, and a vertical tab and a form feed, which do not count as blanks in a string.
    ("_A:1", Err(1)),
    ("A:1,\x0bB:2", Err(2)),
    ("A:1, B:2\x0c", Err(2)),
];

#[test]
fn pin_maps(rt: HostRuntime) -> Result<(), CaseFault> {
    strings_hold(rt.alloc(), Grammar::PinMap, &PIN_MAPS)
}

static OPCODES: [(&str, Result<&str, u32>); 11] = [
    (
        "BYPASS (11), EXTEST (00), SAMPLE (10)",
        Ok("BYPASS 11; EXTEST 00; SAMPLE 10; "),
    ),
    (
        "extest (00), sample (10), bypass (11, 01)",
        Ok("EXTEST 00; SAMPLE 10; BYPASS 11 01; "),
    ),
    // X in a code, and codes of different lengths.
    ("A(1x0),B( X , 01 )", Ok("A 1X0; B X 01; ")),
    ("", Err(1)),
    ("BYPASS (12), SAMPLE (10)", Err(1)),
    ("BYPASS 11", Err(1)),
    // An instruction without a code, a blank inside a code, and a comma after the last code.
    ("BYPASS (11), SAMPLE (), EXTEST (00)", Err(2)),
    ("BYPASS (11), SAMPLE (1 0)", Err(2)),
    ("BYPASS (11), SAMPLE (10), EXTEST (00,)", Err(3)),
    // A missing comma, and a comma at the end.
    ("BYPASS (11) SAMPLE (10)", Err(1)),
    ("BYPASS (11), SAMPLE (10),", Err(3)),
];

#[test]
fn opcode_strings(rt: HostRuntime) -> Result<(), CaseFault> {
    strings_hold(rt.alloc(), Grammar::Opcodes, &OPCODES)
}

static PATTERNS: [(&str, Result<&str, u32>); 8] = [
    ("01", Ok("01")),
    (
        "XXXX0001001000110100000000000111",
        Ok("XXXX0001001000110100000000000111"),
    ),
    ("x", Ok("X")),
    ("", Err(1)),
    (" 01", Err(1)),
    ("01 ", Err(3)),
    ("0 1", Err(2)),
    ("0120", Err(3)),
];

#[test]
fn patterns(rt: HostRuntime) -> Result<(), CaseFault> {
    strings_hold(rt.alloc(), Grammar::Pattern, &PATTERNS)
}

static COMPLIANCE: [(&str, Result<&str, u32>); 18] = [
    ("(A) (1)", Ok("A  1")),
    ("(A, B(1), C) (1X0, 010)", Ok("A B[1] C  1X0 010")),
    (" ( en(7) ) ( 0 , 1 ) ", Ok("EN[7]  0 1")),
    ("(A)(X)", Ok("A  X")),
    // An index has up to nine digits.
    ("(A(123456789)) (1)", Ok("A[123456789]  1")),
    // The first pair of parentheses is missing, not closed or empty, or contains an extra comma, an index of
    // ten digits, or an index of two numbers.
    ("", Err(1)),
    ("A (1)", Err(1)),
    ("(A", Err(1)),
    ("() (1)", Err(1)),
    ("(A,) (1)", Err(1)),
    ("(A(1234567890)) (1)", Err(1)),
    ("(A(1 2)) (1)", Err(1)),
    // The second pair of parentheses is missing, comes after a comma, does not contain a list of patterns, or is not at the end.
    ("(A)", Err(2)),
    ("(A),(1)", Err(2)),
    ("(A) (2)", Err(2)),
    ("(A) (1,)", Err(2)),
    ("(A) (1 1)", Err(2)),
    ("(A) (1) (1)", Err(2)),
];

#[test]
fn compliance_strings(rt: HostRuntime) -> Result<(), CaseFault> {
    strings_hold(rt.alloc(), Grammar::Compliance, &COMPLIANCE)
}

static BOUNDARY: [(&str, Result<&str, u32>); 24] = [
    (
        "0 (BC_1, Q(1), output2, X),1 (BC_1, Q(2), output2, X)",
        Ok("0 Q[1] Output2 Any; 1 Q[2] Output2 Any; "),
    ),
    (
        "0 (BC_1, Q, output3, X, 1, 1, Z),1 (BC_1, *, control, 1)",
        Ok("0 Q Output3 Any 1 true; 1 * Control One; "),
    ),
    (
        "4 (bc_1, oe_n, input, x), 4 (bc_1, *, control, 1), 3 (bc_1, a(1), input, x), 2 (bc_1, a(0), input, x), 1 (bc_1, y(1), output3, x, 4, 1, z), 0 (bc_1, y(0), output3, x, 4, 1, z)",
        Ok(
            "4 OE_N Input Any; 4 * Control One; 3 A[1] Input Any; 2 A[0] Input Any; 1 Y[1] Output3 Any 4 true; 0 Y[0] Output3 Any 4 true; ",
        ),
    ),
    (
        "0(C,D,CLOCK,0),1(C,*,CONTROLR,1),2(C,*,INTERNAL,X),3(C,D,OBSERVE_ONLY,X),4(C,D,BIDIR,X,1,0,KEEPER)",
        Ok(
            "0 D Clock Zero; 1 * ControlR One; 2 * Internal Any; 3 D ObserveOnly Any; 4 D Bidir Any 1 false; ",
        ),
    ),
    // The disable results WEAK0, WEAK1, PULL0 and PULL1. The rows above have Z and KEEPER.
    (
        "0(C,D,OUTPUT2,1,0,1,WEAK0),1(C,D,OUTPUT2,1,1,1,WEAK1),2(C,D,OUTPUT3,0,999999999,1,PULL0),3(C,D,OUTPUT3,0,007,1,PULL1)",
        Ok(
            "0 D Output2 One 0 true; 1 D Output2 One 1 true; 2 D Output3 Zero 999999999 true; 3 D Output3 Zero 7 true; ",
        ),
    ),
    ("", Err(1)),
    ("1234567890 (BC_1, Q, output2, X)", Err(1)),
    ("0 (BC_1, Q, output2)", Err(1)),
    ("0 (BC_1, Q, output2, X, 1, 1)", Err(1)),
    ("0 (BC_1, Q, output2, X)1 (BC_1, Q, output2, X)", Err(1)),
    ("0 (BC_1, Q, output2, X),1 (BC_1, Q, output, X),2", Err(2)),
    ("0 (BC_1, Q, output2, X),1 (BC_1, Q(), output2, X)", Err(2)),
    ("0 (BC_1, Q, output2, X),1 (BC_1, Q, output2, 2)", Err(2)),
    ("0 (BC_1, Q, output2, X),1 (1, Q, output2, X)", Err(2)),
    (
        "0 (BC_1, Q, output2, X),1 (BC_1, Q, output3, X, 1, X, Z)",
        Err(2),
    ),
    (
        "0 (BC_1, Q, output2, X),1 (BC_1, Q, output3, X, 1, 1, WEAK2)",
        Err(2),
    ),
    ("0 (BC_1, Q, output2, X),1 (BC_1, Q, output2, X),", Err(3)),
    // A number has up to nine digits.
    (
        "123456789 (BC_1, Q(999999999), output2, X)",
        Ok("123456789 Q[999999999] Output2 Any; "),
    ),
    ("0 (BC_1, Q(1234567890), output2, X)", Err(1)),
    ("0 (BC_1, Q, output3, X, 1234567890, 1, Z)", Err(1)),
    // Blanks between all parts, and blanks inside an index, a function and a cell number.
    (
        "\t0 ( BC_1 , Q ( 1 ) , output3 , X , 1 , 1 , Z ) ",
        Ok("0 Q[1] Output3 Any 1 true; "),
    ),
    ("0 (BC_1, Q(1 2), output2, X)", Err(1)),
    ("0 (BC_1, Q, output 2, X)", Err(1)),
    ("1 0 (BC_1, Q, output2, X)", Err(1)),
];

#[test]
fn boundary_registers(rt: HostRuntime) -> Result<(), CaseFault> {
    strings_hold(rt.alloc(), Grammar::Boundary, &BOUNDARY)
}

#[test]
fn symbols_of_a_pattern(rt: HostRuntime) -> Result<(), CaseFault> {
    symbols_hold(rt.alloc(), "01", &[Symbol::One, Symbol::Zero])
}
