// The instruction lengths of a chain.
ghost use Rattle.std.specs.Prelude.{◌≡◌, ◌<◌, ◌^◌, All, IfOk, length, map, vec_len};
ghost use Rattle.board_defs.specs.Pins.{instruction_length};
ghost use Rattle.board_files.specs.ChainLines.{chain_lines};
ghost use Rattle.board_lines.specs.ChainParts.{chain_parts, IsChain};
ghost use Rattle.board_lines.specs.Names.{named};
ghost use Rattle.board_lines.specs.declared.names.Naming.TheVariants.{Entity as EntityName};
ghost use Rattle.btest_core.specs.declared.fault.InputFault.TheVariants.{Chain};
ghost use Rattle.answers.specs.Gives.{Gives};
ghost use Rattle.btest_core.specs.Answers.{Is, input_told};
ghost use Rattle.btest_core.specs.InputFaults.{in_file};
ghost use Rattle.btest_core.specs.BoardRead.{AreFileLengths, AreChainLengths, AreLengths};

use crate::devices::devices;
use crate::fault::InputFault;
use board_build::parts_of_chain;
use board_defs::{Device, Part};
use board_files::{ChainFile, LineFault, chain};
use short_lists::{ShortSlice, TextList, TextSlice};
use std::alloc::{AllocError, Global};

/// Returns the chain file that a text contains, or the fault of its first faulty line.
pub(crate) fn chain_file(alloc: Global, text: TextSlice<'_>) -> Result<ChainFile, InputFault>
    ensures { Gives input_told (λ file. file)
        (Is (in_file Chain (chain_lines text.entry.items.now))) result }
{
    match chain(alloc, text.items) {
        Ok(file) => Ok(file),
        Err(LineFault::Memory(e)) => Err(InputFault::Memory(e)),
        Err(fault) => Err(InputFault::Chain(fault)),
    }
}

// Returns the instruction lengths of these parts.
fn instruction_lengths(alloc: Global, parts: &[Part]) -> Result<Vec<u32>, AllocError>
    ensures { IfOk result
        (λ lengths. lengths.items ≡ map (λ part. instruction_length part.kind) parts.now) }
{
    let mut lengths = Vec::new(alloc);
    for part in parts {
        lengths.push(part.kind.instruction_length())?;
    }
    Ok(lengths)
}

// Returns the instruction lengths of the parts of a chain. The chain must have 1 to 255 parts with
// different names, and there must be a device for each DEVICE line.
fn lengths_of(alloc: Global, file: &ChainFile, devices: Vec<Device>) -> Result<Vec<u32>, AllocError>
    requires chain { IsChain file.now }
    requires devices { vec_len devices ≡ length (named EntityName file.now) }
    ensures lengths { IfOk result
        (λ lengths. lengths.items
        ≡ map (λ part. instruction_length part.kind) (chain_parts file.now devices.items)) }
    ensures bounds { IfOk result (λ lengths. AreLengths lengths.items) }
{
    let parts = parts_of_chain(alloc, file, devices)?;
    let lengths = instruction_lengths(alloc, &parts)?;
    Ok(lengths)
}

// Returns the instruction lengths of the parts in a chain file, or the first fault of the BSDL
// texts, the chain and its devices.
fn file_lengths(alloc: Global, file: &ChainFile, bsdl: TextList<'_>) -> Result<Vec<u32>, InputFault>
    ensures read { Gives input_told (λ lengths. lengths.items)
        (AreFileLengths file.now (map (λ text. text.items) bsdl.entry.items.now)) result }
    ensures bounds { IfOk result (λ lengths. AreLengths lengths.items) }
{
    match devices(alloc, file, bsdl) {
        Ok(devices) => match lengths_of(alloc, file, devices) {
            Ok(lengths) => Ok(lengths),
            Err(e) => Err(InputFault::Memory(e)),
        },
        Err(fault) => Err(fault),
    }
}

/// Returns the instruction lengths of a chain, in bits, in the order from TDI to TDO: 1 to 255
/// lengths of 2 to 255 bits. Otherwise returns the first fault, in this order: the chain file, the
/// BSDL texts, the board rules on the chain, and the devices of its DEVICE lines. Each text must
/// have fewer than 2^32 bytes, and there must be fewer than 2^32 BSDL texts.
pub fn read_chain(alloc: Global, chain: &[u8], bsdl: &[Vec<u8>]) -> Result<Vec<u32>, InputFault>
    requires size { length chain.now < 2 ^ 32 }
    requires each { All (λ text. length text.items < 2 ^ 32) bsdl.now }
    requires count { length bsdl.now < 2 ^ 32 }
    ensures read { Gives input_told (λ lengths. lengths.items)
        (AreChainLengths chain.now (map (λ text. text.items) bsdl.now)) result }
    ensures bounds { IfOk result (λ lengths. AreLengths lengths.items) }
{
    match chain_file(alloc, ShortSlice { items: chain }) {
        Ok(file) => file_lengths(alloc, &file, TextList { items: bsdl }),
        Err(fault) => Err(fault),
    }
}
