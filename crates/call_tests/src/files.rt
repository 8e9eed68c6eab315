// Tests of chain files and net files: reading them, joining the nets that series parts connect, and generating the files of a board.
use crate::missed::{Missed, expect};
use board_defs::Name;
use board_files::{ChainFile, ChainStatement, LineFault, NetFile, PinWord, chain, nets};
use board_gen::make;
use series_parts::{Joined, LinkFault, join};
use std::alloc::{AllocError, Global};

// A text, and the message for its first faulty line. The message is empty if there is no such line.
type Answer = (&'static [u8], &'static str);

static CHAIN_FILES: [Answer; 39] = [
    (b"", ""),
    (b"# DEVICE\nINERT R1\nSUPPLY V.CC\nLINK R1 1 a_2", ""),
    (b"DEVICE U1 drv -\r\n\tBYPASS U2 3 # short\n\nPULL N 1", ""),
    (b"\n\nFOO X", "line 3: no statement"),
    (b"SUPPLY WE#\nSUPPLY #", "line 2: no statement"),
    (b"INERT U.1", "line 1: word not allowed"),
    (b"LINK R1 1 2-", "line 1: word not allowed"),
    (b"BYPASS U1 +3", "line 1: number not allowed"),
    // The name of a part must not have a dot. The names of entities and packages may have dots.
    (b"DEVICE U1 D.RV P.Q", ""),
    (b"DEVICE U.1 DRV -", "line 1: word not allowed"),
    (b"DEVICE U1 DRV P\x7f", "line 1: word not allowed"),
    (b"DEVICE U1 DR\xc3\xa9 -", "line 1: word not allowed"),
    (b"DEVICE U1 DRV", "line 1: no statement"),
    (b"DEVICE U1 DRV - -", "line 1: no statement"),
    // The reader reports a wrong number of words before a wrong word, and a wrong word before a wrong number.
    (b"DEVICE U.1 DRV", "line 1: no statement"),
    (b"BYPASS U.1 300", "line 1: word not allowed"),
    (b"PULL N\x01 2", "line 1: word not allowed"),
    (b"PULL N 2", "line 1: number not allowed"),
    (b"PULL N 01", "line 1: number not allowed"),
    (b"PULL N", "line 1: no statement"),
    // In these files, a vertical tab and a form feed are not blanks.
    (b"SUPPLY\x0bV", "line 1: no statement"),
    (b"SUPPLY V\x0c", "line 1: word not allowed"),
    // A carriage return is a blank, and does not end a line.
    (b"BYPASS U1 2\rBYPASS U2 2", "line 1: no statement"),
    (b"BYPASS\rU1\r2\r", ""),
    // UTF-16 in either byte order.
    (b"\xff\xfeI\0N\0E\0R\0T\0 \0R\0", "line 1: no statement"),
    (b"\xfe\xff\0I\0N\0E\0R\0T\0 \0R", "line 1: no statement"),
    // Lengths at the limits and beyond them, and the bytes just below and above the digits in ASCII.
    (b"BYPASS U1 2\nBYPASS U2 255\nBYPASS U3 002", ""),
    (b"BYPASS U1 001", "line 1: number not allowed"),
    (b"BYPASS U1 256", "line 1: number not allowed"),
    (b"BYPASS U1 2/", "line 1: number not allowed"),
    (b"BYPASS U1 2:", "line 1: number not allowed"),
    // The pins of a LINK line have letters, digits and `_`. The other rows have bytes just below or above these in ASCII.
    (b"LINK R1 AZaz_ 09", ""),
    (b"LINK R1 @ 1", "line 1: word not allowed"),
    (b"LINK R1 [ 1", "line 1: word not allowed"),
    (b"LINK R1 1 `", "line 1: word not allowed"),
    (b"LINK R1 1 {", "line 1: word not allowed"),
    (b"LINK R1 1 :", "line 1: word not allowed"),
    // A line of 66 words, and a line whose comment has 65 words.
    (
        b"INERT A A A A A A A A A A A A A A A A A A A A A A A A A A A A A A A A A \
          A A A A A A A A A A A A A A A A A A A A A A A A A A A A A A A A",
        "line 1: no statement",
    ),
    (
        b"INERT R1 # A A A A A A A A A A A A A A A A A A A A A A A A A A A A A A A A A \
          A A A A A A A A A A A A A A A A A A A A A A A A A A A A A A A A",
        "",
    ),
];

static NET_FILES: [Answer; 20] = [
    (b"", ""),
    (b"NET N1 U1.1 U2.1\nNET N2", ""),
    (b"NET N.1 U1.1.2 # and more\n", ""),
    (b"NET", "line 1: no statement"),
    (b"\nNETS N1", "line 2: no statement"),
    (b"net N1", "line 1: no statement"),
    (b"NET N1 U1", "line 1: word not allowed"),
    (b"NET N1 .1", "line 1: word not allowed"),
    (b"NET N1 U1.", "line 1: word not allowed"),
    (b"NET N1 U1.1\nNET N\xff", "line 2: word not allowed"),
    (b"NET ~! !.~ ~.!", ""),
    (b"NET N1 U1..1 U1.1.", ""),
    (b"NETS N1 U1.", "line 1: no statement"),
    (b"NET N1 U1.1\x0bU2.1", "line 1: word not allowed"),
    (b"NET N1 U1.1\x0c", "line 1: word not allowed"),
    // A carriage return is a blank, and does not end a line.
    (b"NET N1 U1.1\r\nNET N2\r\n", ""),
    (b"NET N1 U1.1\rNET N2", "line 1: word not allowed"),
    // UTF-16.
    (b"\xff\xfeN\0E\0T\0 \0N\0", "line 1: no statement"),
    // A line of 66 words is allowed.
    (
        b"NET N A.1 A.2 A.3 A.4 A.5 A.6 A.7 A.8 A.9 A.10 A.11 A.12 A.13 A.14 A.15 A.16 A.17 A.18 A.19 A.20 A.21 A.22 A.23 A.24 A.25 A.26 A.27 A.28 A.29 A.30 A.31 A.32 A.33 A.34 A.35 A.36 A.37 A.38 A.39 A.40 A.41 A.42 A.43 A.44 A.45 A.46 A.47 A.48 A.49 A.50 A.51 A.52 A.53 A.54 A.55 A.56 A.57 A.58 A.59 A.60 A.61 A.62 A.63 A.64",
        "",
    ),
    // The last of 66 words does not name a pin.
    (
        b"NET N A.1 A.2 A.3 A.4 A.5 A.6 A.7 A.8 A.9 A.10 A.11 A.12 A.13 A.14 A.15 A.16 A.17 A.18 A.19 A.20 A.21 A.22 A.23 A.24 A.25 A.26 A.27 A.28 A.29 A.30 A.31 A.32 A.33 A.34 A.35 A.36 A.37 A.38 A.39 A.40 A.41 A.42 A.43 A.44 A.45 A.46 A.47 A.48 A.49 A.50 A.51 A.52 A.53 A.54 A.55 A.56 A.57 A.58 A.59 A.60 A.61 A.62 A.63 A",
        "line 1: word not allowed",
    ),
];

// Reads a chain file. A text of 1,000 bytes or more gives an error.
fn chain_of(alloc: Global, text: &[u8]) -> Result<ChainFile, LineFault> {
    if text.len() < 1000 {
        chain(alloc, text)
    } else {
        Err(LineFault::Memory(AllocError))
    }
}

// Reads a net file. A text of 1,000 bytes or more gives an error.
fn nets_of(alloc: Global, text: &[u8]) -> Result<NetFile, LineFault> {
    if text.len() < 1000 {
        nets(alloc, text)
    } else {
        Err(LineFault::Memory(AllocError))
    }
}

// Returns whether the message of the fault is `wanted`.
fn is_told(alloc: Global, fault: &LineFault, wanted: &str) -> Result<bool, AllocError> {
    Ok(fault.to_string(alloc)?.as_str() == wanted)
}

#[test]
fn chain_files(rt: HostRuntime) -> Result<(), Missed> {
    for (row, (text, wanted)) in CHAIN_FILES.iter().enumerate() {
        let holds = match chain_of(rt.alloc(), text) {
            Ok(_) => wanted.is_empty(),
            Err(fault) => is_told(rt.alloc(), &fault, wanted)?,
        };
        expect(row, holds)?;
    }
    Ok(())
}

// Returns whether `nets` accepts a net whose name has this many letters.
fn has_long_name(alloc: Global, letters: usize) -> Result<bool, AllocError> {
    let mut text = String::from_str(alloc, "NET ")?;
    text.push_str(&"N".repeat(alloc, letters)?)?;
    Ok(nets_of(alloc, text.as_bytes()).is_ok())
}

#[test]
fn words_have_up_to_255_bytes(rt: HostRuntime) -> Result<(), Missed> {
    expect(0, has_long_name(rt.alloc(), 255)?)?;
    expect(1, !has_long_name(rt.alloc(), 256)?)
}

#[test]
fn net_files(rt: HostRuntime) -> Result<(), Missed> {
    for (row, (text, wanted)) in NET_FILES.iter().enumerate() {
        let holds = match nets_of(rt.alloc(), text) {
            Ok(_) => wanted.is_empty(),
            Err(fault) => is_told(rt.alloc(), &fault, wanted)?,
        };
        expect(row, holds)?;
    }
    Ok(())
}

fn is_pin(pin: &PinWord) -> bool {
    pin.part.bytes() == b"u1".as_slice() && pin.pin.bytes() == b"A1.B".as_slice()
}

// Returns whether the file has exactly one line: line 2 of the text, in which the net `n1` has only the pin `A1.B` of part `u1`.
fn is_in_upper_case(file: &NetFile) -> bool {
    match file.lines() {
        [line] => match line.pins.as_slice() {
            [pin] => line.line == 2 && line.name.bytes() == b"n1".as_slice() && is_pin(pin),
            _ => false,
        },
        _ => false,
    }
}

#[test]
fn pins_are_in_upper_case(rt: HostRuntime) -> Result<(), Missed> {
    match nets_of(rt.alloc(), b"\nNET n1 u1.a1.b") {
        Ok(file) => expect(0, is_in_upper_case(&file)),
        Err(_) => expect(1, false),
    }
}

fn add(shown: &mut Vec<u8>, kind: &[u8], name: &Name) -> Result<(), AllocError> {
    shown.extend_from_slice(kind)?;
    shown.extend_from_slice(name.bytes())
}

fn add_statement(shown: &mut Vec<u8>, statement: &ChainStatement) -> Result<(), AllocError> {
    match statement {
        ChainStatement::Inert { part } => add(shown, b" inert ", part),
        ChainStatement::Supply { net } => add(shown, b" supply ", net),
        ChainStatement::Pull { net, .. } => add(shown, b" pull ", net),
        ChainStatement::Link { part, .. } => add(shown, b" link ", part),
        _ => Ok(()),
    }
}

// Appends the net names of joined files, and the parts and nets of the INERT, SUPPLY, PULL and LINK lines.
fn show(shown: &mut Vec<u8>, joined: &Joined) -> Result<(), AllocError> {
    for line in joined.nets.lines() {
        add(shown, b" ", &line.name)?;
    }
    for line in joined.chain.lines() {
        add_statement(shown, &line.statement)?;
    }
    Ok(())
}

// The result of joining a chain file and a net file: the text that `show` gives for the joined files, or the line and the word of a LINK
// pin that is in no net.
#[derive(Clone, Copy)]
enum Shown {
    Files(&'static [u8]),
    Missing(u32, u32),
}

fn shows(alloc: Global, joined: &Joined, wanted: &Shown) -> Result<bool, AllocError> {
    let mut shown = Vec::new(alloc);
    show(&mut shown, joined)?;
    Ok(match wanted {
        Shown::Files(text) => shown.as_slice() == *text,
        Shown::Missing(_, _) => false,
    })
}

fn is_missing(fault: &LinkFault, wanted: &Shown) -> bool {
    match (fault, wanted) {
        (LinkFault::NoLinkPin(spot), Shown::Missing(line, word)) => {
            spot.line == *line && spot.word == *word
        }
        _ => false,
    }
}

fn joins(
    alloc: Global,
    chain: &ChainFile,
    nets: &NetFile,
    wanted: &Shown,
) -> Result<bool, AllocError> {
    match join(alloc, chain, nets) {
        Ok(joined) => shows(alloc, &joined, wanted),
        Err(fault) => Ok(is_missing(&fault, wanted)),
    }
}

fn texts_join(
    alloc: Global,
    chain: &[u8],
    nets: &[u8],
    wanted: &Shown,
) -> Result<bool, AllocError> {
    match chain_of(alloc, chain) {
        Ok(chain) => match nets_of(alloc, nets) {
            Ok(nets) => joins(alloc, &chain, &nets, wanted),
            Err(_) => Ok(false),
        },
        Err(_) => Ok(false),
    }
}

// The net file of a board with a driver, a receiver, and a resistor between two of their pins.
const BOARD: &[u8] = b"NET N1A U1.1 R1.1\nNET N1B R1.2 U2.1\nNET N2 U1.2 U2.2";

static JOINED: [(&[u8], &[u8], Shown); 9] = [
    (
        b"DEVICE U1 DRV -\nDEVICE U2 RCV -\nLINK R1 1 2",
        BOARD,
        Shown::Files(b" N1A N1A N2 inert R1"),
    ),
    (
        b"DEVICE U1 DRV -\nDEVICE U2 RCV -",
        BOARD,
        Shown::Files(b" N1A N1B N2"),
    ),
    (
        b"DEVICE U1 D -\nDEVICE U2 R -\nLINK R1 1 9",
        BOARD,
        Shown::Missing(3, 4),
    ),
    (b"LINK R1 1 2\nLINK R1 8 9", BOARD, Shown::Missing(2, 3)),
    (b"LINK R2 1 2", BOARD, Shown::Missing(1, 3)),
    // Two resistors join three nets. A fourth net is not joined.
    (
        b"LINK R2 1 2\nLINK R1 1 2",
        b"NET A R1.1\nNET B R1.2 R2.1\nNET X\nNET C R2.2",
        Shown::Files(b" A A X A inert R2 inert R1"),
    ),
    // Two resistors join three nets, two more resistors join three other nets, and one more resistor joins the two groups.
    (
        b"LINK R1 1 2\nLINK R2 1 2\nLINK R3 1 2\nLINK R4 1 2\nLINK R5 2 1",
        b"NET E R3.1\nNET F R3.2 R4.1\nNET G R4.2 R5.1\nNET A R1.1\nNET B R1.2 R2.1\nNET C R2.2 R5.2",
        Shown::Files(b" E E E E E E inert R1 inert R2 inert R3 inert R4 inert R5"),
    ),
    // Pin R1.1 is in the nets A and C, and only the net that comes first in the file counts. So LINK joins A with B. The joined net has the
    // name B, since the first line of B comes before the first line of A.
    (
        b"LINK R1 1 2",
        b"NET Z\nNET B R1.2\nNET A R1.1\nNET C R1.1\nNET B\nNET A",
        Shown::Files(b" Z B B C B B inert R1"),
    ),
    (
        b"LINK R1 1 2\nSUPPLY N1B\nSUPPLY GND\nPULL N1B 1\nPULL N2 0",
        BOARD,
        Shown::Files(b" N1A N1A N2 inert R1 supply N1A supply GND pull N1A pull N2"),
    ),
];

#[test]
fn series_parts_join_nets(rt: HostRuntime) -> Result<(), Missed> {
    for (row, (chain, nets, wanted)) in JOINED.iter().enumerate() {
        expect(row, texts_join(rt.alloc(), chain, nets, wanted)?)?;
    }
    Ok(())
}

// The generated chain file of a board with two parts, worked out by hand.
const CHAIN_OF_TWO: &[u8] = b"DEVICE U1 GEN -\nDEVICE U2 GEN -\n";

const NETS_BEGIN: &[u8] = b"NET R1_0 U1.1 U2.33\nNET R1_1 U1.2 U2.34\n";

const NETS_END: &[u8] = b"NET R2_31 U2.32 U1.64
NET B0 U1.65 U2.65
NET B1 U1.66 U2.66
NET B2 U1.67 U2.67
NET B3 U1.68 U2.68
NET B4 U1.69 U2.69
NET B5 U1.70 U2.70
NET B6 U1.71 U2.71
NET B7 U1.72 U2.72
";

const BSDL_BEGINS: &[u8] = b"entity GEN is
generic (PHYSICAL_PIN_MAP : string := \"P\");
port (TDI, TMS, TCK : in bit; TDO : out bit; Q : out bit_vector(0 to 31); D : in bit_vector(0 to 31); B : inout bit_vector(0 to 7));
use STD_1149_1_1994.all;
attribute PIN_MAP of GEN : entity is PHYSICAL_PIN_MAP;
constant P : PIN_MAP_STRING := \"TDI:T1, TDO:T2, TMS:T3, TCK:T4, Q:(1,2,3,4,5,6,7,8,9,10,11,12,13,14,15,16,17,18,19,20,21,22,23,24,25,26,27,28,29,30,31,32), D:(33,34,35,36,37,38,39,40,41,42,43,44,45,46,47,48,49,50,51,52,53,54,55,56,57,58,59,60,61,62,63,64), B:(65,66,67,68,69,70,71,72)\";
attribute TAP_SCAN_IN of TDI : signal is true;
attribute TAP_SCAN_OUT of TDO : signal is true;
attribute TAP_SCAN_MODE of TMS : signal is true;
attribute TAP_SCAN_CLOCK of TCK : signal is (10.0e6, BOTH);
attribute INSTRUCTION_LENGTH of GEN : entity is 2;
attribute INSTRUCTION_OPCODE of GEN : entity is \"BYPASS (11), EXTEST (00), SAMPLE (10)\";
attribute INSTRUCTION_CAPTURE of GEN : entity is \"01\";
attribute BOUNDARY_LENGTH of GEN : entity is 77;
attribute BOUNDARY_REGISTER of GEN : entity is
\"0 (BC_1, *, control, 1),\" &
\"1 (BC_1, *, control, 1),\" &
\"2 (BC_1, *, control, 1),\" &
\"3 (BC_1, *, control, 1),\" &
\"4 (BC_1, *, control, 1),\" &
\"5 (BC_1, Q(0), output3, X, 0, 1, Z),\" &
";

const BSDL_ENDS: &[u8] = b"
\"68 (BC_1, D(31), input, X),\" &
\"69 (BC_7, B(0), bidir, X, 4, 1, Z),\" &
\"70 (BC_7, B(1), bidir, X, 4, 1, Z),\" &
\"71 (BC_7, B(2), bidir, X, 4, 1, Z),\" &
\"72 (BC_7, B(3), bidir, X, 4, 1, Z),\" &
\"73 (BC_7, B(4), bidir, X, 4, 1, Z),\" &
\"74 (BC_7, B(5), bidir, X, 4, 1, Z),\" &
\"75 (BC_7, B(6), bidir, X, 4, 1, Z),\" &
\"76 (BC_7, B(7), bidir, X, 4, 1, Z)\";
end GEN;
";

// Returns whether the text starts with `begin` and ends with `end`.
fn is_between(text: &[u8], begin: &[u8], end: &[u8]) -> bool {
    text.starts_with(begin) && text.ends_with(end)
}

#[test]
fn makes_the_files_of_a_board(rt: HostRuntime) -> Result<(), Missed> {
    let made = make(rt.alloc(), 2)?;
    expect(0, made.chain.as_slice() == CHAIN_OF_TWO)?;
    expect(1, is_between(&made.nets, NETS_BEGIN, NETS_END))
}

#[test]
fn makes_the_text_of_the_device(rt: HostRuntime) -> Result<(), Missed> {
    let made = make(rt.alloc(), 1)?;
    expect(0, is_between(&made.bsdl, BSDL_BEGINS, BSDL_ENDS))
}

// The test takes little time even for the largest board, since the work is linear in the number of parts.
#[test]
fn makes_the_largest_board(rt: HostRuntime) -> Result<(), Missed> {
    let made = make(rt.alloc(), 255)?;
    let lines = made.nets.iter().filter(|byte| **byte == b'\n').count();
    expect(0, lines == 8168)
}
