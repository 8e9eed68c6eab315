//! Reads the entries of pin maps, opcode strings and boundary registers.
ghost use Rattle.std.specs.Prelude.{◌≡◌, [], ◌∷◌, IfOk};
ghost use Rattle.grammars.specs.inner.Reader.{found};
ghost use Rattle.grammars.specs.Grammar.{reader_of_grammar};
ghost use Rattle.bsdl_strings.specs.Pieces.{pieces};
ghost use Rattle.bsdl_strings.specs.inner.Reading.{ReadsPieces};
ghost use Rattle.bsdl_strings.specs.inner.Takes.{pin_takes, code_takes, map_takes, opcode_takes, entry_takes};
ghost use Rattle.bsdl_strings.specs.Places.{pin as any_pin, code as any_code};
ghost use Rattle.bsdl_strings.specs.Strings.{entry_pins, map_entry as any_map_entry, opcode as any_opcode, indexed as index_after, rest_of_place, port_place as any_port_place, control_of, control as any_control, cell as any_cell, entry as any_entry};

use crate::listed::{Listed, group};
use crate::places::{
    code, either_mark, index, mark, pin, pin_or_group, result_of_disabling, role, safe, word,
    word_as_written, word_unless_star,
};
use crate::stop::Stop;
use crate::values::{Entry, MapEntry, Opcode, PortWord};
use board_defs::{Code, Control, Items, Name};
use std::alloc::{AllocError, Global};

impl Listed for Name {
    ghost grammar = { any_pin };

    fn read(alloc: Global, text: &[u8]) -> Result<(Name, &[u8]), Stop<'_>> {
        pin(alloc, text)
    }

    ghost takes = { pin_takes };
}

impl Listed for Code {
    ghost grammar = { any_code };

    fn read(alloc: Global, text: &[u8]) -> Result<(Code, &[u8]), Stop<'_>> {
        code(alloc, text)
    }

    ghost takes = { code_takes };
}

impl Listed for MapEntry {
    ghost grammar = { any_map_entry };

    fn read(alloc: Global, text: &[u8]) -> Result<(MapEntry, &[u8]), Stop<'_>> {
        map_entry(alloc, text)
    }

    ghost takes = { map_takes };
}

impl Listed for Opcode {
    ghost grammar = { any_opcode };

    fn read(alloc: Global, text: &[u8]) -> Result<(Opcode, &[u8]), Stop<'_>> {
        opcode(alloc, text)
    }

    ghost takes = { opcode_takes };
}

impl Listed for Entry {
    ghost grammar = { any_entry };

    fn read(alloc: Global, text: &[u8]) -> Result<(Entry, &[u8]), Stop<'_>> {
        entry(alloc, text)
    }

    ghost takes = { entry_takes };
}

#[tactic(auto, unfolding(crate::specs::Strings::map_entry))]
fn map_entry(alloc: Global, text: &[u8]) -> Result<(MapEntry, &[u8]), Stop<'_>>
    ensures { ReadsPieces (λ x. found x.0 (pieces x.1.now)) result
        (reader_of_grammar any_map_entry (pieces text.now)) }
{
    let (port, rest) = word(alloc, text)?;
    let rest = mark(rest, b':')?;
    let (first, rest) = pin_or_group(alloc, rest)?;
    let (pins, rest) = pins_from(alloc, first, rest)?;
    Ok((MapEntry { port, pins }, rest))
}

/// Returns the pins of an entry and the text after them. If `first` is a pin, it is the only pin, and nothing more is
/// read. If `first` is None, reads the pins up to and including the closing parenthesis.
fn pins_from(
    alloc: Global,
    first: Option<Name>,
    text: &[u8],
) -> Result<(Items<Name>, &[u8]), Stop<'_>>
    ensures { ReadsPieces (λ x. found x.0 (pieces x.1.now)) result
        (reader_of_grammar (entry_pins first) (pieces text.now)) }
{
    match first {
        Some(pin) => Ok((one_pin(alloc, pin)?, text)),
        None => group(alloc, text),
    }
}

fn one_pin(alloc: Global, pin: Name) -> Result<Items<Name>, AllocError>
    ensures { IfOk result (λ pins. pins ≡ pin ∷ []) }
{
    let mut pins = Vec::new(alloc);
    pins.push(pin)?;
    Ok(Items::of(pins))
}

#[tactic(auto, unfolding(crate::specs::Strings::opcode))]
fn opcode(alloc: Global, text: &[u8]) -> Result<(Opcode, &[u8]), Stop<'_>>
    ensures { ReadsPieces (λ x. found x.0 (pieces x.1.now)) result
        (reader_of_grammar any_opcode (pieces text.now)) }
{
    let (name, rest) = word(alloc, text)?;
    let rest = mark(rest, b'(')?;
    let (codes, rest) = group(alloc, rest)?;
    Ok((Opcode { name, codes }, rest))
}

/// Reads the rest of an entry's port after the port name and the mark that follows it. If `opens`
/// is true, this mark is an opening parenthesis, and an index, a closing parenthesis and a comma
/// follow. Otherwise the mark is a comma, and nothing more is read.
fn indexed(name: Name, opens: bool, text: &[u8]) -> Result<(PortWord, &[u8]), Stop<'_>>
    ensures { ReadsPieces (λ x. found x.0 (pieces x.1.now)) result
        (reader_of_grammar (index_after name opens) (pieces text.now)) }
{
    if opens {
        let (i, rest) = index(text)?;
        let rest = mark(rest, b')')?;
        let rest = mark(rest, b',')?;
        Ok((PortWord::Index(name, i), rest))
    } else {
        Ok((PortWord::Plain(name), text))
    }
}

fn place_from(first: Option<Name>, text: &[u8]) -> Result<(PortWord, &[u8]), Stop<'_>>
    ensures { ReadsPieces (λ x. found x.0 (pieces x.1.now)) result
        (reader_of_grammar (rest_of_place first) (pieces text.now)) }
{
    match first {
        None => Ok((PortWord::Star, mark(text, b',')?)),
        Some(name) => {
            let (opens, rest) = either_mark(text, b'(', b',')?;
            indexed(name, opens, rest)
        }
    }
}

/// Reads the port of an entry (`*`, a port, or a port with an index) and the comma after it.
#[tactic(auto, unfolding(crate::specs::Strings::port_place))]
fn port_place(alloc: Global, text: &[u8]) -> Result<(PortWord, &[u8]), Stop<'_>>
    ensures { ReadsPieces (λ x. found x.0 (pieces x.1.now)) result
        (reader_of_grammar any_port_place (pieces text.now)) }
{
    let (first, rest) = word_unless_star(alloc, text)?;
    place_from(first, rest)
}

fn control_from(comes: bool, text: &[u8]) -> Result<(Option<Control>, &[u8]), Stop<'_>>
    ensures { ReadsPieces (λ x. found x.0 (pieces x.1.now)) result
        (reader_of_grammar (control_of comes) (pieces text.now)) }
{
    if comes {
        let (cell, rest) = index(text)?;
        let rest = mark(rest, b',')?;
        let (disable, rest) = either_mark(rest, b'1', b'0')?;
        let rest = mark(rest, b',')?;
        let rest = result_of_disabling(rest)?;
        let rest = mark(rest, b')')?;
        Ok((Some(Control { cell, disable }), rest))
    } else {
        Ok((None, text))
    }
}

/// Reads the rest of an entry after its safe value, up to and including the closing parenthesis.
/// Returns the control cell and the disable value, if the entry has them.
#[tactic(auto, unfolding(crate::specs::Strings::control))]
fn control(text: &[u8]) -> Result<(Option<Control>, &[u8]), Stop<'_>>
    ensures { ReadsPieces (λ x. found x.0 (pieces x.1.now)) result
        (reader_of_grammar any_control (pieces text.now)) }
{
    let (comes, rest) = either_mark(text, b',', b')')?;
    control_from(comes, rest)
}

/// Reads the number of a cell, an opening parenthesis, the cell name (such as BC_1) and the comma after it. Returns the
/// number and the text after the comma.
#[tactic(auto, unfolding(crate::specs::Strings::cell))]
fn cell(text: &[u8]) -> Result<(u32, &[u8]), Stop<'_>>
    ensures { ReadsPieces (λ x. found x.0 (pieces x.1.now)) result
        (reader_of_grammar any_cell (pieces text.now)) }
{
    let (num, rest) = index(text)?;
    let rest = mark(rest, b'(')?;
    let (_, rest) = word_as_written(rest)?;
    let rest = mark(rest, b',')?;
    Ok((num, rest))
}

#[tactic(auto, unfolding(crate::specs::Strings::entry))]
fn entry(alloc: Global, text: &[u8]) -> Result<(Entry, &[u8]), Stop<'_>>
    ensures { ReadsPieces (λ x. found x.0 (pieces x.1.now)) result
        (reader_of_grammar any_entry (pieces text.now)) }
{
    let (num, rest) = cell(text)?;
    let (port, rest) = port_place(alloc, rest)?;
    let (role, rest) = role(rest)?;
    let rest = mark(rest, b',')?;
    let (safe, rest) = safe(rest)?;
    let (ctl, rest) = control(rest)?;
    Ok((
        Entry {
            num,
            port,
            role,
            safe,
            ctl,
        },
        rest,
    ))
}
