// The parts of a chain.
ghost use Rattle.std.specs.Prelude.{◌≡◌, ◌≤◌, vec_len, length, map, All, IfOk, IfSome, OnOk, option_map};
ghost use Rattle.std.specs.Vec.Iter.{into_iter_items};
ghost use Rattle.board_defs.specs.Limits.{IsInstructionLength};
ghost use Rattle.board_files.specs.ChainLines.{HasBypassLength};
ghost use Rattle.board_defs.specs.BoardRules.{IsPart};
ghost use Rattle.board_defs.specs.declared.board.PartKind.TheVariants.{Described as DescribedPart, Bypass as BypassPart};
ghost use Rattle.board_lines.specs.ChainParts.{part_of_line, devices_after, chain_parts, described_name, described_names};

use board_defs::{Device, Name, Part, PartKind};
use board_files::{ChainLine, ChainStatement};
use lists::push_some;
use std::alloc::{AllocError, Global};
use std::vec::IntoIter;

fn described(alloc: Global, name: &Name, device: Device) -> Result<Part, AllocError>
    ensures part { IfOk result
        (λ part. part ≡ record { name = name.now; kind = DescribedPart device }) }
    ensures kind { IfOk result (λ part. IsPart part.kind) }
{
    let _ = device.raw();
    Ok(Part {
        name: name.copy(alloc)?,
        kind: PartKind::Described(device),
    })
}

fn bypass(alloc: Global, name: &Name, length: u32) -> Result<Part, AllocError>
    requires { IsInstructionLength length }
    ensures part { IfOk result
        (λ part. part ≡ record { name = name.now; kind = BypassPart length }) }
    ensures kind { IfOk result (λ part. IsPart part.kind) }
{
    Ok(Part {
        name: name.copy(alloc)?,
        kind: PartKind::Bypass(length),
    })
}

/// Returns the part of a DEVICE or BYPASS line, and None for any other line. A DEVICE line takes
/// the next device, and has no part if no device is left. The length on a BYPASS line must be from
/// 2 to 255 bits.
fn part_of_line(
    alloc: Global,
    statement: &ChainStatement,
    devices: &mut IntoIter<Device>,
) -> Result<Option<Part>, AllocError>
    requires { HasBypassLength statement.now }
    ensures part { IfOk result
        (λ part. part ≡ part_of_line statement.now (into_iter_items devices.old)) }
    ensures kind { IfOk result (λ part. IfSome part (λ part. IsPart part.kind)) }
    ensures rest { OnOk result
        (into_iter_items devices.new ≡ devices_after statement.now (into_iter_items devices.old)) }
{
    match statement {
        ChainStatement::Device { part, .. } => match devices.next() {
            Some(device) => Ok(Some(described(alloc, part, device)?)),
            None => Ok(None),
        },
        ChainStatement::Bypass { part, length } => Ok(Some(bypass(alloc, part, *length)?)),
        _ => Ok(None),
    }
}

/// Returns the parts of the DEVICE and BYPASS lines, in the order of the lines. Each DEVICE line
/// takes the next device, and has no part if no device is left. The length on each BYPASS line must
/// be from 2 to 255 bits.
pub fn chain_parts(
    alloc: Global,
    lines: &[ChainLine],
    devices: Vec<Device>,
) -> Result<Vec<Part>, AllocError>
    requires { All (λ line. HasBypassLength line.statement) lines.now }
    ensures parts { IfOk result (λ parts. parts.items ≡ chain_parts lines.now devices.items) }
    ensures kinds { IfOk result (λ parts. All (λ part. IsPart part.kind) parts.items) }
{
    let mut parts = Vec::new(alloc);
    let mut devices = devices.into_iter();
    for line in lines {
        let part = part_of_line(alloc, &line.statement, &mut devices)?;
        push_some(&mut parts, part)?;
    }
    Ok(parts)
}

fn described_name(part: &Part) -> Option<&[u8]>
    ensures { option_map (λ n. n.now) result ≡ described_name part.now }
{
    match &part.kind {
        PartKind::Described(_) => Some(part.name.bytes()),
        PartKind::Bypass(_) => None,
    }
}

/// Returns the names of the parts of kind `Described`, in the order of the parts.
pub fn described_names<'a>(alloc: Global, parts: &'a [Part]) -> Result<Vec<&'a [u8]>, AllocError>
    ensures names { IfOk result
        (λ names. map (λ n. n.now) names.items ≡ described_names parts.now) }
    ensures few { IfOk result (λ names. vec_len names ≤ length parts.now) }
{
    let mut names = Vec::new(alloc);
    for part in parts {
        push_some(&mut names, described_name(part))?;
    }
    Ok(names)
}
