//! Reads pin maps, opcode strings, boundary registers and patterns.
ghost use Rattle.std.specs.Prelude.{◌<◌, ◌^◌, length, IfOk, IfErr};
ghost use Rattle.bsdl_strings.specs.Faults.{NamesEntry};
ghost use Rattle.bsdl_strings.specs.Strings.{IsPinMap, IsNoPinMap, AreOpcodes, AreNoOpcodes, IsBoundary, IsNoBoundary, IsPattern, IsNoPattern};

use crate::fault::StringFault;
use crate::listed::all_entries;
use crate::places::{code_from, leading_symbols, spells_code};
use crate::values::{Entry, MapEntry, Opcode};
use board_defs::Code;
use std::alloc::Global;

/// Returns the entries of a pin map, in the order of the text. Each entry is a port with its pins.
/// The text must be shorter than 2^32 bytes.
///
/// Returns `StringFault::At` with the number of the first wrong entry, counted from 1, if the text
/// is not a pin map.
pub fn pin_map(alloc: Global, text: &[u8]) -> Result<Vec<MapEntry>, StringFault>
    requires { length text.now < 2 ^ 32 }
    ensures value { IfOk result (λ maps. IsPinMap text.now maps.items) }
    ensures fault { IfErr result (NamesEntry (IsNoPinMap text.now)) }
{
    all_entries(alloc, text)
}

/// Returns the entries of an opcode string, in the order of the text. Each entry is an instruction
/// with its codes. The text must be shorter than 2^32 bytes.
///
/// Returns `StringFault::At` with the number of the first wrong entry, counted from 1, if the text
/// is not an opcode string.
pub fn opcodes(alloc: Global, text: &[u8]) -> Result<Vec<Opcode>, StringFault>
    requires { length text.now < 2 ^ 32 }
    ensures value { IfOk result (λ ops. AreOpcodes text.now ops.items) }
    ensures fault { IfErr result (NamesEntry (AreNoOpcodes text.now)) }
{
    all_entries(alloc, text)
}

/// Returns the entries of a boundary register, in the order of the text. The text must be shorter
/// than 2^32 bytes.
///
/// Returns `StringFault::At` with the number of the first wrong entry, counted from 1, if the text
/// is not a boundary register.
pub fn boundary(alloc: Global, text: &[u8]) -> Result<Vec<Entry>, StringFault>
    requires { length text.now < 2 ^ 32 }
    ensures value { IfOk result (λ cells. IsBoundary text.now cells.items) }
    ensures fault { IfErr result (NamesEntry (IsNoBoundary text.now)) }
{
    all_entries(alloc, text)
}

/// Returns the code that a pattern spells. The rightmost character of the pattern is the symbol
/// nearest TDO. A pattern has no blanks, not even at its ends. The text must be shorter than 2^32
/// bytes.
///
/// Returns `StringFault::At` if the text is not a pattern. The number in the fault is the place of
/// the first character that is not 0, 1 or X, counted from 1, or 1 for an empty text.
pub fn pattern(alloc: Global, text: &[u8]) -> Result<Code, StringFault>
    requires { length text.now < 2 ^ 32 }
    ensures value { IfOk result (λ code. IsPattern text.now code) }
    ensures fault { IfErr result (NamesEntry (IsNoPattern text.now)) }
{
    if spells_code(text) {
        Ok(code_from(alloc, text)?)
    } else {
        let front = leading_symbols(text);
        Err(StringFault::At(front as u32 + 1))
    }
}
