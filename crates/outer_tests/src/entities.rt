// Tests of `read_entity`, which reads the entity of a BSDL text. The caller gives the text a number, and a fault must have this number.
ghost use Rattle.std.specs.Prelude.{◌<◌, ◌^◌, length};

use bsdl_lexer::LexFault;
use bsdl_parser::{Entity, ParseFault};
use btest_core::{InputFault, read_entity};
use run_bench::{DRV, RowFault, expect};
use std::alloc::Global;

// The result of reading a text.
#[derive(Clone, Copy)]
enum Reading {
    // The text describes an entity with this name, this number of ports and this number of pin maps.
    Entity(&'static str, usize, usize),
    // A byte that is not allowed is on this line.
    Byte(u32),
    // A string begins on this line and is not closed.
    OpenString(u32),
    // The first token that does not fit the grammar is on this line.
    Expected(u32),
    // The text is a package text, which begins on this line.
    Package(u32),
}

// A text, the number that the caller gives it, and the result of reading it.
type Read = (&'static str, u32, Reading);

static READS: [Read; 8] = [
    (DRV, 0, Reading::Entity("DRV", 5, 1)),
    (DRV, 7, Reading::Entity("DRV", 5, 1)),
    ("", 0, Reading::Expected(1)),
    ("entity DRV is\n", 4, Reading::Expected(1)),
    ("entity DRV is\n\x07", 0, Reading::Byte(2)),
    ("entity DRV is\n\x07", 4, Reading::Byte(2)),
    ("\n\nentity \"DRV\n", 2, Reading::OpenString(3)),
    ("\npackage X is\n", 3, Reading::Package(2)),
];

// Returns whether an entity has this name, this number of ports and this number of pin maps.
fn is_entity(entity: &Entity, name: &str, ports: usize, maps: usize) -> bool {
    entity.name.bytes() == name.as_bytes()
        && entity.ports.len() == ports
        && entity.constants.len() == maps
}

// Returns whether the fault is the expected fault and has this number of a text.
fn is_fault(found: &InputFault, number: u32, reading: Reading) -> bool {
    match (found, reading) {
        (InputFault::Lex { text, fault }, Reading::Byte(line)) => {
            *text == number && *fault == LexFault::Byte(line)
        }
        (InputFault::Lex { text, fault }, Reading::OpenString(line)) => {
            *text == number && *fault == LexFault::OpenString(line)
        }
        (InputFault::Parse { text, fault }, Reading::Expected(line)) => {
            *text == number && *fault == ParseFault::Expected(line)
        }
        (InputFault::Parse { text, fault }, Reading::Package(line)) => {
            *text == number && *fault == ParseFault::Package(line)
        }
        _ => false,
    }
}

// Returns whether `read_entity` gives the expected result for the text. A fault must have the text's number. The text must be shorter
// than 2^32 bytes.
fn ends(alloc: Global, text: &[u8], number: u32, reading: Reading) -> bool
    requires { length text.now < 2 ^ 32 }
{
    match read_entity(alloc, text, number) {
        Ok(entity) => match reading {
            Reading::Entity(name, ports, maps) => is_entity(&entity, name, ports, maps),
            _ => false,
        },
        Err(fault) => is_fault(&fault, number, reading),
    }
}

#[test]
fn entities_are_read_by_their_number(rt: HostRuntime) -> Result<(), RowFault> {
    for (row, (text, number, reading)) in READS.iter().enumerate() {
        let bytes = text.as_bytes();
        expect("texts", row, bytes.len() < 10_000)?;
        expect("texts", row, ends(rt.alloc(), bytes, *number, *reading))?;
    }
    Ok(())
}
