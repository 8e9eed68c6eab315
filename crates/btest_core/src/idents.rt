// The patterns of the identification codes of a chain.
ghost use Rattle.std.specs.Prelude.{◌≡◌, ◌<◌, ◌≤◌, ◌^◌, All, IfOk, IfSome, length, map};
ghost use Rattle.board_defs.specs.Limits.{most_parts};
ghost use Rattle.board_lines.specs.ChainParts.{IsChain};
ghost use Rattle.board_lines.specs.Names.{named};
ghost use Rattle.board_lines.specs.declared.names.Naming.TheVariants.{Entity as EntityName};
ghost use Rattle.answers.specs.Gives.{Gives};
ghost use Rattle.btest_core.specs.Answers.{Is, input_told};
ghost use Rattle.btest_core.specs.IdentsRead.{is_bypass, first_bypass, idents_unless, AreFileIdents, AreIdents};

use crate::chain::chain_file;
use crate::devices::devices;
use crate::fault::InputFault;
use board_defs::{Code, Device};
use board_files::{ChainFile, ChainLine, ChainStatement};
use short_lists::{ShortSlice, TextList};
use std::alloc::{AllocError, Global};

// Returns the pattern of a device's identification code, if the device has one.
fn ident_of(alloc: Global, device: &Device) -> Result<Option<Code>, AllocError>
    ensures ident { IfOk result (λ ident. ident ≡ device.now.idcode) }
    ensures symbols { IfOk result (λ ident. IfSome ident (λ code. length code ≡ 32)) }
{
    match &device.raw().idcode {
        Some(code) => Ok(Some(Code::of(alloc, code.symbols())?)),
        None => Ok(None),
    }
}

// Returns the patterns of the identification codes of these devices, in the order of the devices.
// The item of a device without such a code is `None`.
fn idents_of(alloc: Global, devices: &[Device]) -> Result<Vec<Option<Code>>, AllocError>
    ensures idents { IfOk result
        (λ idents. idents.items ≡ map (λ device. device.idcode) devices.now) }
    ensures symbols { IfOk result
        (λ idents. All (λ ident. IfSome ident (λ code. length code ≡ 32)) idents.items) }
{
    let mut idents = Vec::new(alloc);
    for device in devices {
        idents.push(ident_of(alloc, device)?)?;
    }
    Ok(idents)
}

// Returns whether the line is a BYPASS line. The part on such a line has no BSDL description.
fn is_bypass(statement: &ChainStatement) -> bool
    ensures { result ≡ is_bypass statement.now }
{
    matches!(statement, ChainStatement::Bypass { .. })
}

// Returns the line number of the first BYPASS line, or None if there is none.
fn first_bypass(lines: &[ChainLine]) -> Option<u32>
    ensures { result ≡ first_bypass lines.now }
{
    for line in lines {
        if is_bypass(&line.statement) {
            return Some(line.line);
        }
    }
    None
}

// Returns the patterns of the devices, or the fault `NoIdent` with the number of the first BYPASS
// line if there is one. The chain must have 1 to 255 parts with different names, and there must be a
// device for each DEVICE line.
fn idents_unless_bypass(
    alloc: Global,
    file: &ChainFile,
    devices: &[Device],
) -> Result<Vec<Option<Code>>, InputFault>
    requires chain { IsChain file.now }
    requires devices { length devices.now ≡ length (named EntityName file.now) }
    ensures read { Gives input_told (λ idents. idents.items)
        (Is (idents_unless (first_bypass file.now) devices.now)) result }
    ensures count { IfOk result
        (λ idents. (0 < length idents.items) × (length idents.items ≤ most_parts)) }
    ensures symbols { IfOk result
        (λ idents. All (λ ident. IfSome ident (λ code. length code ≡ 32)) idents.items) }
{
    match first_bypass(file.lines()) {
        Some(line) => Err(InputFault::NoIdent(line)),
        None => Ok(idents_of(alloc, devices)?),
    }
}

// Returns the patterns of the devices in a chain file, or the first fault.
fn file_idents(
    alloc: Global,
    file: &ChainFile,
    bsdl: TextList<'_>,
) -> Result<Vec<Option<Code>>, InputFault>
    ensures read { Gives input_told (λ idents. idents.items)
        (AreFileIdents file.now (map (λ text. text.items) bsdl.entry.items.now)) result }
    ensures count { IfOk result
        (λ idents. (0 < length idents.items) × (length idents.items ≤ most_parts)) }
    ensures symbols { IfOk result
        (λ idents. All (λ ident. IfSome ident (λ code. length code ≡ 32)) idents.items) }
{
    match devices(alloc, file, bsdl) {
        Ok(devices) => idents_unless_bypass(alloc, file, &devices),
        Err(fault) => Err(fault),
    }
}

/// Returns the patterns of the identification codes of a chain's parts, in the order from TDI to
/// TDO. There are 1 to 255 items. An item is a pattern of 32 symbols, or `None` for a device
/// without such a code. Each text must have fewer than 2^32 bytes, and there must be fewer than
/// 2^32 BSDL texts.
///
/// Otherwise returns the first fault. Looks for faults in this order: the chain file, the BSDL
/// texts, the board rules on the chain, and the devices of its DEVICE lines. If there is none of
/// these faults, a BYPASS line is the fault `NoIdent`, with the number of the first such line,
/// since it is not known which register a part in BYPASS selects after a reset.
pub fn read_idents(
    alloc: Global,
    chain: &[u8],
    bsdl: &[Vec<u8>],
) -> Result<Vec<Option<Code>>, InputFault>
    requires size { length chain.now < 2 ^ 32 }
    requires each { All (λ text. length text.items < 2 ^ 32) bsdl.now }
    requires count { length bsdl.now < 2 ^ 32 }
    ensures read { Gives input_told (λ idents. idents.items)
        (AreIdents chain.now (map (λ text. text.items) bsdl.now)) result }
    ensures count { IfOk result
        (λ idents. (0 < length idents.items) × (length idents.items ≤ most_parts)) }
    ensures symbols { IfOk result
        (λ idents. All (λ ident. IfSome ident (λ code. length code ≡ 32)) idents.items) }
{
    match chain_file(alloc, ShortSlice { items: chain }) {
        Ok(file) => file_idents(alloc, &file, TextList { items: bsdl }),
        Err(fault) => Err(fault),
    }
}
