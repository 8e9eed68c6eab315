// The BSDL texts that the cases of the tests read. A `Source` says how such a text is made.
ghost use Rattle.std.specs.Prelude.{◌<◌, ◌^◌, length, IfOk};

use crate::case::CaseFault;
use std::alloc::{AllocError, Global};

/// A driver with two outputs. The first entry of its boundary register is on line 16.
pub const DRV: &str = "entity DRV is
generic (PHYSICAL_PIN_MAP : string := \"P\");
port (TDI, TMS, TCK : in bit; TDO : out bit; Q : out bit_vector(1 to 2));
use STD_1149_1_1994.all;
attribute PIN_MAP of DRV : entity is PHYSICAL_PIN_MAP;
constant P : PIN_MAP_STRING := \"TDI:T1, TDO:T2, TMS:T3, TCK:T4, Q:(1,2)\";
attribute TAP_SCAN_IN of TDI : signal is true;
attribute TAP_SCAN_OUT of TDO : signal is true;
attribute TAP_SCAN_MODE of TMS : signal is true;
attribute TAP_SCAN_CLOCK of TCK : signal is (10.0e6, BOTH);
attribute INSTRUCTION_LENGTH of DRV : entity is 2;
attribute INSTRUCTION_OPCODE of DRV : entity is \"BYPASS (11), EXTEST (00), SAMPLE (10)\";
attribute INSTRUCTION_CAPTURE of DRV : entity is \"01\";
attribute BOUNDARY_LENGTH of DRV : entity is 2;
attribute BOUNDARY_REGISTER of DRV : entity is
\"0 (BC_1, Q(1), output2, X),\" &
\"1 (BC_1, Q(2), output2, X)\";
end DRV;
";

/// A two-bit three-state buffer with pin maps for two packages. Most of the text is in lower case, and its attributes are in an unusual
/// order. Some of them are attributes that btest does not read.
pub const BUF2: &str = "-- two-bit three-state buffer
entity buf2 is
  generic (physical_pin_map : string := \"dw\");
  port (oe_n : in bit;
        a : in bit_vector(1 downto 0);
        y : out bit_vector(1 downto 0);
        gnd, vcc : linkage bit;
        tdi, tms, tck : in bit; tdo : out bit);
  use std_1149_1_1990.all;
  attribute pin_map of buf2 : entity is physical_pin_map;
  constant dw : pin_map_string := \"oe_n:1, a:(2,3), y:(4,5), \" &
    \"gnd:6, vcc:7, tdi:8, tms:9, tck:10, tdo:11\";
  constant fk : pin_map_string := \"oe_n:A1, a:(A2,A3), y:(B1,B2), \" &
    \"gnd:C1, vcc:C2, tdi:D1, tms:D2, tck:D3, tdo:D4\";
  attribute tap_scan_clock of tck : signal is (20.0e6, BOTH);
  attribute tap_scan_in of tdi : signal is true;
  attribute tap_scan_out of tdo : signal is true;
  attribute tap_scan_mode of tms : signal is true;
  attribute port_grouping of buf2 : entity is \"none\";
  attribute design_warning of buf2 : entity is \"read this; it is read over\";
  attribute boundary_length of buf2 : entity is 5;
  attribute boundary_register of buf2 : entity is
    \"4 (bc_1, oe_n, input, x), 4 (bc_1, *, control, 1), \" &
    \"3 (bc_1, a(1), input, x), 2 (bc_1, a(0), input, x), \" &
    \"1 (bc_1, y(1), output3, x, 4, 1, z), \" &
    \"0 (bc_1, y(0), output3, x, 4, 1, z)\";
  attribute instruction_length of buf2 : entity is 2;
  attribute instruction_opcode of buf2 : entity is
    \"extest (00), sample (10), bypass (11, 01)\";
  attribute instruction_capture of buf2 : entity is \"01\";
end buf2;
";

/// The number of a line, counted from 1, and the text that replaces the line, including its line feed.
pub type Line = (usize, &'static str);

/// The BSDL text of a case.
#[derive(Clone, Copy)]
pub enum Source {
    /// These bytes.
    Bytes(&'static [u8]),
    /// The buffer `BUF2`.
    Buffer,
    /// The driver `DRV`, with these lines replaced.
    Driver(&'static [Line]),
    /// The first lines of the driver `DRV`, followed by this text. The number is the number of lines to take.
    Front(usize, &'static str),
    /// The first lines of the driver `DRV`, followed by a text in which one byte is repeated.
    Filled {
        /// The number of lines to take from the driver.
        lines: usize,
        /// The text before the repeated byte.
        head: &'static str,
        /// The repeated byte.
        byte: u8,
        /// The number of times that the byte is repeated.
        count: usize,
        /// The text after the repeated byte.
        tail: &'static str,
    },
    /// The driver `DRV` with an input port of 500 bits in place of its outputs. Its pin map has only this port, on pins 100 to 599.
    Wide,
}

impl Source {
    /// Returns the bytes of the text, or the error `TooLong` if the text has 2^32 bytes or more.
    pub fn bytes(&self, alloc: Global) -> Result<Vec<u8>, CaseFault>
        ensures { IfOk result (λ bytes. length bytes.items < 2 ^ 32) }
    {
        let bytes = made(alloc, self)?;
        if bytes.len() < 1 << 32 {
            Ok(bytes)
        } else {
            Err(CaseFault::TooLong)
        }
    }
}

/// Returns the bytes of a string, or the error `TooLong` if the string has 2^32 bytes or more.
pub fn bytes_of(text: &str) -> Result<&[u8], CaseFault>
    ensures { IfOk result (λ bytes. length bytes.now < 2 ^ 32) }
{
    let bytes = text.as_bytes();
    if bytes.len() < 1 << 32 {
        Ok(bytes)
    } else {
        Err(CaseFault::TooLong)
    }
}

fn made(alloc: Global, source: &Source) -> Result<Vec<u8>, AllocError> {
    match source {
        Source::Bytes(bytes) => bytes.to_vec(alloc),
        Source::Buffer => BUF2.as_bytes().to_vec(alloc),
        Source::Driver(lines) => with_lines(alloc, lines),
        Source::Front(lines, text) => {
            let mut made = front_of(alloc, *lines)?;
            made.extend_from_slice(text.as_bytes())?;
            Ok(made)
        }
        Source::Filled {
            lines,
            head,
            byte,
            count,
            tail,
        } => {
            let mut made = front_of(alloc, *lines)?;
            made.extend_from_slice(head.as_bytes())?;
            let fill = vec![in alloc; *byte; *count]?;
            made.extend_from_slice(&fill)?;
            made.extend_from_slice(tail.as_bytes())?;
            Ok(made)
        }
        Source::Wide => wide(alloc),
    }
}

fn add_line(line: &str, made: &mut Vec<u8>) -> Result<(), AllocError> {
    made.extend_from_slice(line.as_bytes())?;
    made.extend_from_slice(b"\n")?;
    Ok(())
}

/// Returns the text of the driver `DRV` with these lines replaced.
fn with_lines(alloc: Global, lines: &[(usize, &str)]) -> Result<Vec<u8>, AllocError> {
    let mut made = Vec::new(alloc);
    for (at, old) in DRV.lines().enumerate() {
        match lines.iter().find(|line| line.0 == at + 1) {
            Some(line) => made.extend_from_slice(line.1.as_bytes())?,
            None => add_line(old, &mut made)?,
        }
    }
    Ok(made)
}

/// Returns the first `lines` lines of the driver `DRV`.
fn front_of(alloc: Global, lines: usize) -> Result<Vec<u8>, AllocError> {
    let mut made = Vec::new(alloc);
    for line in DRV.lines().take(lines) {
        add_line(line, &mut made)?;
    }
    Ok(made)
}

/// Returns the line of a pin map that has only port D, on the 500 pins 100 to 599.
fn wide_map(alloc: Global) -> Result<String, AllocError> {
    let mut map = String::from_str(alloc, "constant P : PIN_MAP_STRING := \"D:(100")?;
    for pin in 101..600u32 {
        let pin = format!(in alloc; ",{pin}")?;
        map.push_str(pin.as_str())?;
    }
    map.push_str(")\";\n")?;
    Ok(map)
}

fn wide(alloc: Global) -> Result<Vec<u8>, AllocError> {
    let map = wide_map(alloc)?;
    let lines = [
        (
            3,
            "port (D : in bit_vector(1 to 500); TDI, TMS, TCK : in bit; TDO : out bit);\n",
        ),
        (6, map.as_str()),
        (14, "attribute BOUNDARY_LENGTH of DRV : entity is 1;\n"),
        (16, ""),
        (17, "\"0 (BC_1, D(1), input, X)\";\n"),
    ];
    with_lines(alloc, &lines)
}
