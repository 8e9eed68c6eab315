// Copies the lines of the files, with the new names of the nets. Replaces each LINK line by an
// INERT line.
ghost use Rattle.std.specs.Prelude.{◌≡◌, map, IfOk};
ghost use Rattle.series_parts.specs.inner.Edges.{renamed};
ghost use Rattle.series_parts.specs.Joining.{joined_line, joined_net, joined_statement};

use crate::names::Names;
use board_defs::{Items, Name};
use board_files::{ChainLine, ChainStatement, NetLine, PinWord};
use std::alloc::{AllocError, Global};

fn copy_package(alloc: Global, chosen: &Option<Name>) -> Result<Option<Name>, AllocError>
    ensures { IfOk result (λ copy. copy ≡ chosen.now) }
{
    match chosen {
        Some(name) => Ok(Some(name.copy(alloc)?)),
        None => Ok(None),
    }
}

fn copy_pin(alloc: Global, pin: &PinWord) -> Result<PinWord, AllocError>
    ensures { IfOk result (λ copy. copy ≡ pin.now) }
{
    Ok(PinWord {
        part: pin.part.copy(alloc)?,
        pin: pin.pin.copy(alloc)?,
    })
}

fn copy_pins(alloc: Global, pins: &[PinWord]) -> Result<Vec<PinWord>, AllocError>
    ensures { IfOk result (λ copies. copies.items ≡ pins.now) }
{
    let mut copies = Vec::new(alloc);
    for pin in pins {
        copies.push(copy_pin(alloc, pin)?)?;
    }
    Ok(copies)
}

/// Returns the new name of a net. `least` has, for each line, the new name of the line's net. A net
/// that is on no line keeps its name.
#[tactic(auto, unfolding(crate::specs::inner::Edges::renamed))]
fn renamed<'a>(names: &Names<'_>, least: &[&'a [u8]], name: &'a [u8]) -> &'a [u8]
    ensures { result.now ≡ renamed names.now (map (λ n. n.now) least.now) name.now }
{
    match names.place_of(name) {
        Some(place) => match least.get(place as usize) {
            Some(least) => *least,
            None => name,
        },
        None => name,
    }
}

fn rename(
    alloc: Global,
    names: &Names<'_>,
    least: &[&[u8]],
    name: &Name,
) -> Result<Name, AllocError>
    ensures { IfOk result (λ new. new ≡ renamed names.now (map (λ n. n.now) least.now) name.now) }
{
    Name::of(alloc, renamed(names, least, name.bytes()))
}

fn joined_net(
    alloc: Global,
    names: &Names<'_>,
    least: &[&[u8]],
    line: &NetLine,
) -> Result<NetLine, AllocError>
    ensures { IfOk result
        (λ new. new ≡ joined_net (renamed names.now (map (λ n. n.now) least.now)) line.now) }
{
    let pins = copy_pins(alloc, line.pins.as_slice())?;
    Ok(NetLine {
        line: line.line,
        name: rename(alloc, names, least, &line.name)?,
        pins: Items::of(pins),
    })
}

/// Returns the lines of a net file with the new names of their nets.
pub fn joined_nets(
    alloc: Global,
    names: &Names<'_>,
    least: &[&[u8]],
    lines: &[NetLine],
) -> Result<Vec<NetLine>, AllocError>
    ensures { IfOk result
        (λ new. new.items
        ≡ map (joined_net (renamed names.now (map (λ n. n.now) least.now))) lines.now) }
{
    let mut joined = Vec::new(alloc);
    for line in lines {
        joined.push(joined_net(alloc, names, least, line)?)?;
    }
    Ok(joined)
}

fn joined_statement(
    alloc: Global,
    names: &Names<'_>,
    least: &[&[u8]],
    statement: &ChainStatement,
) -> Result<ChainStatement, AllocError>
    ensures { IfOk result
        (λ new. new
        ≡ joined_statement (renamed names.now (map (λ n. n.now) least.now)) statement.now) }
{
    match statement {
        ChainStatement::Device {
            part,
            entity,
            package,
        } => Ok(ChainStatement::Device {
            part: part.copy(alloc)?,
            entity: entity.copy(alloc)?,
            package: copy_package(alloc, package)?,
        }),
        ChainStatement::Bypass { part, length } => Ok(ChainStatement::Bypass {
            part: part.copy(alloc)?,
            length: *length,
        }),
        ChainStatement::Inert { part } => Ok(ChainStatement::Inert {
            part: part.copy(alloc)?,
        }),
        ChainStatement::Supply { net } => Ok(ChainStatement::Supply {
            net: rename(alloc, names, least, net)?,
        }),
        ChainStatement::Pull { net, value } => Ok(ChainStatement::Pull {
            net: rename(alloc, names, least, net)?,
            value: *value,
        }),
        ChainStatement::Link { part, .. } => Ok(ChainStatement::Inert {
            part: part.copy(alloc)?,
        }),
    }
}

fn joined_line(
    alloc: Global,
    names: &Names<'_>,
    least: &[&[u8]],
    line: &ChainLine,
) -> Result<ChainLine, AllocError>
    ensures { IfOk result
        (λ new. new ≡ joined_line (renamed names.now (map (λ n. n.now) least.now)) line.now) }
{
    Ok(ChainLine {
        line: line.line,
        statement: joined_statement(alloc, names, least, &line.statement)?,
    })
}

/// Returns the lines of a chain file with the new names of their nets. Replaces each LINK line by
/// an INERT line for the part on the LINK line.
pub fn joined_chain(
    alloc: Global,
    names: &Names<'_>,
    least: &[&[u8]],
    lines: &[ChainLine],
) -> Result<Vec<ChainLine>, AllocError>
    ensures { IfOk result
        (λ new. new.items
        ≡ map (joined_line (renamed names.now (map (λ n. n.now) least.now))) lines.now) }
{
    let mut joined = Vec::new(alloc);
    for line in lines {
        joined.push(joined_line(alloc, names, least, line)?)?;
    }
    Ok(joined)
}
