//! The values of an entity's attributes and constants.
ghost use Rattle.std.specs.Prelude.{◌≡◌, find, count_by, option_copied, option_map, option_and_then, None};
ghost use Rattle.std.specs.List.{list_any};
ghost use Rattle.std.specs.Str.{bytes_eq};
ghost use Rattle.device_check.specs.Attributes.{is_numbered, times, value_of_attribute, only_value, port_in, number_of_value, text_in, port_of_attribute, text_of_attribute, only_port, only_number, only_text, chosen_package, is_constant, only_constant, has_text, is_of_2001, edition};

use board_defs::Edition;
use bsdl_parser::{AttrValue, Attribute, Constant, Entity};

fn count_numbered(entity: &Entity, number: u32) -> usize
    ensures { result ≡ count_by (is_numbered number) entity.now.attributes }
{
    entity
        .attributes
        .as_slice()
        .iter()
        .filter(|attribute| attribute.number == number)
        .count()
}

fn find_numbered(entity: &Entity, number: u32) -> Option<&AttrValue>
    ensures { option_copied result
        ≡ option_map (λ found. found.value) (find (is_numbered number) entity.now.attributes) }
{
    entity
        .attributes
        .as_slice()
        .iter()
        .find(|attribute| attribute.number == number)
        .map(|attribute| &attribute.value)
}

/// Returns the number of times that the entity has the attribute.
pub(crate) fn times(entity: &Entity, attribute: Attribute) -> usize
    ensures { result ≡ times entity.now attribute }
{
    count_numbered(entity, attribute.number())
}

fn value_of(entity: &Entity, attribute: Attribute) -> Option<&AttrValue>
    ensures { option_copied result ≡ value_of_attribute entity.now attribute }
{
    find_numbered(entity, attribute.number())
}

/// Returns the attribute's value, if the entity has the attribute exactly once.
pub(crate) fn only_value(entity: &Entity, attribute: Attribute) -> Option<&AttrValue>
    ensures { option_copied result ≡ only_value entity.now attribute }
{
    if times(entity, attribute) == 1 {
        value_of(entity, attribute)
    } else {
        None
    }
}

fn port_in(value: Option<&AttrValue>) -> Option<&[u8]>
    ensures { option_copied result ≡ option_and_then port_in (option_copied value.entry) }
{
    match value {
        Some(AttrValue::Port(port)) => Some(port.bytes()),
        _ => None,
    }
}

fn number_in(value: Option<&AttrValue>) -> Option<u32>
    ensures { result ≡ option_and_then number_of_value (option_copied value.entry) }
{
    match value {
        Some(AttrValue::Number(number)) => Some(*number),
        _ => None,
    }
}

fn text_in(value: Option<&AttrValue>) -> Option<&[u8]>
    ensures { option_copied result ≡ option_and_then text_in (option_copied value.entry) }
{
    match value {
        Some(AttrValue::Text(text)) => Some(text.bytes()),
        _ => None,
    }
}

/// Returns the port that is the attribute's value. Returns None if the entity does not have the
/// attribute, or if the value is not a port. Takes the first value if there are several.
pub(crate) fn port_of(entity: &Entity, attribute: Attribute) -> Option<&[u8]>
    ensures { option_copied result ≡ port_of_attribute entity.now attribute }
{
    port_in(value_of(entity, attribute))
}

/// Like `port_of`, but for a string instead of a port.
pub(crate) fn text_of(entity: &Entity, attribute: Attribute) -> Option<&[u8]>
    ensures { option_copied result ≡ text_of_attribute entity.now attribute }
{
    text_in(value_of(entity, attribute))
}

/// Like `port_of`, but returns None unless the entity has the attribute exactly once.
pub(crate) fn only_port(entity: &Entity, attribute: Attribute) -> Option<&[u8]>
    ensures { option_copied result ≡ only_port entity.now attribute }
{
    port_in(only_value(entity, attribute))
}

/// Returns the number that is the attribute's value. Returns None unless the entity has the
/// attribute exactly once and its value is a number.
pub(crate) fn only_number(entity: &Entity, attribute: Attribute) -> Option<u32>
    ensures { result ≡ only_number entity.now attribute }
{
    number_in(only_value(entity, attribute))
}

/// Like `text_of`, but returns None unless the entity has the attribute exactly once.
pub(crate) fn only_text(entity: &Entity, attribute: Attribute) -> Option<&[u8]>
    ensures { option_copied result ≡ only_text entity.now attribute }
{
    text_in(only_value(entity, attribute))
}

/// Returns the package that the caller gives. If the caller gives none, returns the default package of the entity's
/// generic item, if there is one.
pub(crate) fn chosen<'a>(entity: &'a Entity, package: Option<&'a [u8]>) -> Option<&'a [u8]>
    ensures { option_copied result ≡ chosen_package entity.now (option_copied «package».entry) }
{
    match package {
        Some(name) => Some(name),
        None => match &entity.fallback {
            Some(name) => Some(name.bytes()),
            None => None,
        },
    }
}

fn count_named(entity: &Entity, name: &[u8]) -> usize
    ensures { result ≡ count_by (is_constant name.now) entity.now.constants }
{
    entity
        .constants
        .as_slice()
        .iter()
        .filter(|constant| constant.name.bytes() == name)
        .count()
}

fn find_named<'a>(entity: &'a Entity, name: &[u8]) -> Option<&'a Constant>
    ensures { option_copied result ≡ find (is_constant name.now) entity.now.constants }
{
    entity
        .constants
        .as_slice()
        .iter()
        .find(|constant| constant.name.bytes() == name)
}

/// Returns the constant with this name, if there is exactly one.
pub(crate) fn only_constant<'a>(entity: &'a Entity, name: &[u8]) -> Option<&'a Constant>
    ensures { option_copied result ≡ only_constant entity.now name.now }
{
    if count_named(entity, name) == 1 {
        find_named(entity, name)
    } else {
        None
    }
}

/// Returns whether there is a text, and the text equals `wanted`.
pub(crate) fn is_text(wanted: &[u8], text: Option<&[u8]>) -> bool
    ensures { result ≡ has_text wanted.now (option_copied text.entry) }
{
    match text {
        Some(text) => text == wanted,
        None => false,
    }
}

fn uses(entity: &Entity, name: &[u8]) -> bool
    ensures { result ≡ list_any (λ used. bytes_eq used name.now) entity.now.uses }
{
    entity
        .uses
        .as_slice()
        .iter()
        .any(|used| used.bytes() == name)
}

/// Returns the edition of the standard that the text follows. This is the 2001 edition if
/// COMPONENT_CONFORMANCE or a `use` item names STD_1149_1_2001, and otherwise the old edition.
pub(crate) fn edition(entity: &Entity) -> Edition
    ensures { result ≡ edition entity.now }
{
    let conformance = text_of(entity, Attribute::ComponentConformance);
    if is_text(b"STD_1149_1_2001", conformance) || uses(entity, b"STD_1149_1_2001") {
        Edition::Of2001
    } else {
        Edition::Old
    }
}
