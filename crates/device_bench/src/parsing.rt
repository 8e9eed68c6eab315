// Checks of the entities that BSDL texts describe.
ghost use Rattle.std.specs.Prelude.{◌<◌, ◌^◌, length};

use crate::case::{CaseFault, compare};
use crate::shown::add_bytes;
use crate::source::Source;
use bsdl_lexer::{LexFault, lex};
use bsdl_parser::{Attr, AttrValue, Entity, ParseFault, Port, parse};
use std::alloc::{AllocError, Global};

/// The result of reading a text.
#[derive(Clone, Copy, Debug, PartialEq, Eq)]
pub enum Reading {
    /// The text describes an entity.
    Entity,
    /// The lexer refuses the text.
    Lex(LexFault),
    /// The parser refuses the tokens of the text.
    Parse(ParseFault),
}

/// Checks that reading each text gives the expected result.
pub fn readings_hold(alloc: Global, cases: &[(Source, Reading)]) -> Result<(), CaseFault> {
    for (case, (source, wanted)) in cases.iter().enumerate() {
        let text = source.bytes(alloc)?;
        let found = match entity_of(alloc, &text) {
            Ok(_) => Reading::Entity,
            Err(fault) => fault,
        };
        if found != *wanted {
            let found = format!(in alloc; "{found:?}")?;
            return Err(CaseFault::Ended { case, found });
        }
    }
    Ok(())
}

/// Checks the entity of each text. The expected entity is written as text with one item on each line.
pub fn entities_hold(alloc: Global, cases: &[(Source, &'static str)]) -> Result<(), CaseFault> {
    for (case, (source, wanted)) in cases.iter().enumerate() {
        let text = source.bytes(alloc)?;
        let shown = match entity_of(alloc, &text) {
            Ok(entity) => shown_entity(alloc, &entity)?,
            Err(fault) => format!(in alloc; "{fault:?}")?,
        };
        compare(case, shown, wanted)?;
    }
    Ok(())
}

/// Returns the entity of a text, or the reason why the text does not describe one. The text must be shorter than 2^32 bytes.
fn entity_of(alloc: Global, text: &[u8]) -> Result<Entity, Reading>
    requires { length text.now < 2 ^ 32 }
{
    let mut tokens = Vec::new(alloc);
    match lex(text, &mut tokens) {
        Err(fault) => Err(Reading::Lex(fault)),
        Ok(()) => match parse(alloc, text, &tokens) {
            Ok(entity) => Ok(entity),
            Err(fault) => Err(Reading::Parse(fault)),
        },
    }
}

/// Returns an entity as text, with one item on each line: the name and the default package, the packages of the `use` statements, the pin
/// maps, the ports with their modes and ranges, and the attributes with their numbers.
fn shown_entity(alloc: Global, entity: &Entity) -> Result<String, AllocError> {
    let mut shown = String::from_str(alloc, "entity ")?;
    add_bytes(entity.name.bytes(), &mut shown)?;
    if let Some(package) = &entity.fallback {
        shown.push_str(" ")?;
        add_bytes(package.bytes(), &mut shown)?;
    }
    for name in entity.uses.as_slice() {
        shown.push_str("\nuse ")?;
        add_bytes(name.bytes(), &mut shown)?;
    }
    for constant in entity.constants.as_slice() {
        shown.push_str("\nconstant ")?;
        add_bytes(constant.name.bytes(), &mut shown)?;
        shown.push_str(" ")?;
        add_bytes(constant.text.bytes(), &mut shown)?;
    }
    for port in entity.ports.as_slice() {
        add_port(alloc, port, &mut shown)?;
    }
    for attribute in entity.attributes.as_slice() {
        add_attribute(alloc, attribute, &mut shown)?;
    }
    shown.push_str("\n")?;
    Ok(shown)
}

fn add_port(alloc: Global, port: &Port, shown: &mut String) -> Result<(), AllocError> {
    shown.push_str("\nport ")?;
    add_bytes(port.name.bytes(), shown)?;
    let mode = format!(in alloc; " {:?}", port.mode)?;
    shown.push_str(mode.as_str())?;
    if let Some(range) = port.range {
        let way = if range.up { "to" } else { "downto" };
        let range = format!(in alloc; " {} {way} {}", range.left, range.right)?;
        shown.push_str(range.as_str())?;
    }
    Ok(())
}

fn add_attribute(alloc: Global, attribute: &Attr, shown: &mut String) -> Result<(), AllocError> {
    let number = format!(in alloc; "\n{}", attribute.number)?;
    shown.push_str(number.as_str())?;
    match &attribute.value {
        AttrValue::Plain => Ok(()),
        AttrValue::Number(value) => {
            let value = format!(in alloc; " number {value}")?;
            shown.push_str(value.as_str())
        }
        AttrValue::Port(port) => {
            shown.push_str(" port ")?;
            add_bytes(port.bytes(), shown)
        }
        AttrValue::Text(text) => {
            shown.push_str(" text ")?;
            add_bytes(text.bytes(), shown)
        }
    }
}
