// Checks of the values of strings in BSDL texts, such as pin maps.
ghost use Rattle.std.specs.Prelude.{◌<◌, ◌^◌, length};

use crate::case::CaseFault;
use crate::shown::{add_bytes, add_code};
use crate::source::bytes_of;
use board_defs::Symbol;
use bsdl_strings::{Entry, PortWord, StringFault, boundary, compliance, opcodes, pattern, pin_map};
use std::alloc::{AllocError, Global};

/// The grammar of a string.
#[derive(Clone, Copy)]
pub enum Grammar {
    /// A pin map.
    PinMap,
    /// Instructions with their codes.
    Opcodes,
    /// A pattern of symbols, as in INSTRUCTION_CAPTURE and IDCODE_REGISTER.
    Pattern,
    /// Compliance patterns.
    Compliance,
    /// A boundary register.
    Boundary,
}

/// Checks the value of each string. A case has the string and its expected value, written as text, or the number of the first entry that is
/// not in the grammar.
pub fn strings_hold(
    alloc: Global,
    grammar: Grammar,
    cases: &[(&'static str, Result<&'static str, u32>)],
) -> Result<(), CaseFault> {
    for (case, (text, wanted)) in cases.iter().enumerate() {
        let bytes = bytes_of(text)?;
        let found = match grammar {
            Grammar::PinMap => shown_pin_map(alloc, bytes),
            Grammar::Opcodes => shown_opcodes(alloc, bytes),
            Grammar::Pattern => shown_pattern(alloc, bytes),
            Grammar::Compliance => shown_compliance(alloc, bytes),
            Grammar::Boundary => shown_boundary(alloc, bytes),
        };
        compare_string(alloc, case, found, *wanted)?;
    }
    Ok(())
}

/// Checks that the pattern `text` has the symbols `wanted`, of which the symbol nearest TDO comes first.
pub fn symbols_hold(alloc: Global, text: &str, wanted: &[Symbol]) -> Result<(), CaseFault> {
    let found = match pattern(alloc, bytes_of(text)?) {
        Ok(code) => {
            if code.symbols() == wanted {
                return Ok(());
            }
            format!(in alloc; "{:?}", code.symbols())?
        }
        Err(fault) => format!(in alloc; "{fault}")?,
    };
    Err(CaseFault::Ended { case: 0, found })
}

fn compare_string(
    alloc: Global,
    case: usize,
    found: Result<String, StringFault>,
    wanted: Result<&str, u32>,
) -> Result<(), CaseFault> {
    match found {
        Ok(found) => match wanted {
            Ok(text) if found.as_str() == text => Ok(()),
            _ => Err(CaseFault::Ended { case, found }),
        },
        Err(StringFault::At(entry)) => match wanted {
            Err(wanted) if wanted == entry => Ok(()),
            _ => {
                let found = format!(in alloc; "entry {entry}")?;
                Err(CaseFault::Ended { case, found })
            }
        },
        Err(StringFault::Memory(error)) => Err(CaseFault::Memory(error)),
    }
}

fn add_port(alloc: Global, port: &PortWord, shown: &mut String) -> Result<(), AllocError> {
    match port {
        PortWord::Star => shown.push_str("*"),
        PortWord::Plain(name) => add_bytes(name.bytes(), shown),
        PortWord::Index(name, index) => {
            add_bytes(name.bytes(), shown)?;
            let index = format!(in alloc; "[{index}]")?;
            shown.push_str(index.as_str())
        }
    }
}

fn shown_pin_map(alloc: Global, text: &[u8]) -> Result<String, StringFault>
    requires { length text.now < 2 ^ 32 }
{
    let mut shown = String::new(alloc);
    for map in &pin_map(alloc, text)? {
        add_bytes(map.port.bytes(), &mut shown)?;
        for pin in map.pins.as_slice() {
            shown.push_str(" ")?;
            add_bytes(pin.bytes(), &mut shown)?;
        }
        shown.push_str("; ")?;
    }
    Ok(shown)
}

fn shown_opcodes(alloc: Global, text: &[u8]) -> Result<String, StringFault>
    requires { length text.now < 2 ^ 32 }
{
    let mut shown = String::new(alloc);
    for opcode in &opcodes(alloc, text)? {
        add_bytes(opcode.name.bytes(), &mut shown)?;
        for code in opcode.codes.as_slice() {
            shown.push_str(" ")?;
            add_code(code, &mut shown)?;
        }
        shown.push_str("; ")?;
    }
    Ok(shown)
}

fn shown_pattern(alloc: Global, text: &[u8]) -> Result<String, StringFault>
    requires { length text.now < 2 ^ 32 }
{
    let mut shown = String::new(alloc);
    let code = pattern(alloc, text)?;
    add_code(&code, &mut shown)?;
    Ok(shown)
}

fn shown_compliance(alloc: Global, text: &[u8]) -> Result<String, StringFault> {
    let mut shown = String::new(alloc);
    let read = compliance(alloc, text)?;
    for port in read.ports.as_slice() {
        add_port(alloc, port, &mut shown)?;
        shown.push_str(" ")?;
    }
    for code in read.patterns.as_slice() {
        shown.push_str(" ")?;
        add_code(code, &mut shown)?;
    }
    Ok(shown)
}

fn shown_boundary(alloc: Global, text: &[u8]) -> Result<String, StringFault>
    requires { length text.now < 2 ^ 32 }
{
    let mut shown = String::new(alloc);
    for entry in &boundary(alloc, text)? {
        add_entry(alloc, entry, &mut shown)?;
    }
    Ok(shown)
}

fn add_entry(alloc: Global, entry: &Entry, shown: &mut String) -> Result<(), AllocError> {
    let number = format!(in alloc; "{} ", entry.num)?;
    shown.push_str(number.as_str())?;
    add_port(alloc, &entry.port, shown)?;
    let function = format!(in alloc; " {:?} {:?}", entry.role, entry.safe)?;
    shown.push_str(function.as_str())?;
    if let Some(control) = entry.ctl {
        let control = format!(in alloc; " {} {}", control.cell, control.disable)?;
        shown.push_str(control.as_str())?;
    }
    shown.push_str("; ")
}
