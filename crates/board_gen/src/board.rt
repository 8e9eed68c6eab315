// Makes the chain file and the net file of a board.
ghost use Rattle.std.specs.Prelude.{◌≡◌, ◌+◌, ◌≤◌, ◌<◌, ◌++◌, IfOk, OnOk};
ghost use Rattle.board_gen.specs.BoardTexts.{each, chain_file_text, part_line, net_text, pin_word, next_part, ring_line, bus_line};

use crate::pieces::push_numbered;
use std::alloc::{AllocError, Global};

// The number of nets between a part and the next part.
const RING: u32 = 32;

// The number of nets of the bus.
const BUS: u32 = 8;

// Returns the chain file of a board with `number` parts. `number` must be at most 255.
pub fn chain(alloc: Global, number: u32) -> Result<Vec<u8>, AllocError>
    requires { number ≤ 255 }
    ensures { IfOk result (λ text. text.items ≡ chain_file_text number) }
{
    let mut text = Vec::new(alloc);
    for part in 1..number + 1 {
        push_part(&mut text, part)?;
    }
    Ok(text)
}

// Appends the line of a part.
fn push_part(text: &mut Vec<u8>, part: u32) -> Result<(), AllocError>
    ensures { OnOk result (text.new.items ≡ text.old.items ++ part_line part) }
{
    push_numbered(text, b"DEVICE U", part)?;
    text.extend_from_slice(b" GEN -\n")
}

// Returns the net file of a board with `number` parts. `number` must be at most 255.
#[tactic(auto, unfolding(crate::specs::BoardTexts::net_text))]
pub fn nets(alloc: Global, number: u32) -> Result<Vec<u8>, AllocError>
    requires { number ≤ 255 }
    ensures { IfOk result (λ text. text.items ≡ net_text number) }
{
    let mut text = Vec::new(alloc);
    push_rings(&mut text, number)?;
    push_buses(&mut text, number)?;
    Ok(text)
}

// Appends the lines of the nets from each part to the next part. `number` is the number of parts
// and must be at most 255.
fn push_rings(text: &mut Vec<u8>, number: u32) -> Result<(), AllocError>
    requires { number ≤ 255 }
    ensures { OnOk result
        (text.new.items
        ≡ text.old.items ++ each (λ part. each (ring_line number part) 0 32) 1 number) }
{
    for part in 1..number + 1 {
        push_ring(text, number, part)?;
    }
    Ok(())
}

// Appends the lines of the nets from a part to the next part. `number` is the number of parts.
// `part` must be at most 255.
fn push_ring(text: &mut Vec<u8>, number: u32, part: u32) -> Result<(), AllocError>
    requires { part ≤ 255 }
    ensures { OnOk result (text.new.items ≡ text.old.items ++ each (ring_line number part) 0 32) }
{
    for bit in 0..RING {
        push_ring_line(text, number, part, bit)?;
    }
    Ok(())
}

// Appends the line of the net from output `bit` of a part to input `bit` of the next part. `number` is the number of
// parts. `part` must be at most 255, and `bit` must be below 32.
fn push_ring_line(text: &mut Vec<u8>, number: u32, part: u32, bit: u32) -> Result<(), AllocError>
    requires part { part ≤ 255 }
    requires bit { bit < 32 }
    ensures { OnOk result (text.new.items ≡ text.old.items ++ ring_line number part bit) }
{
    push_numbered(text, b"NET R", part)?;
    push_numbered(text, b"_", bit)?;
    push_pin(text, part, bit + 1)?;
    push_pin(text, next_part(number, part), bit + 33)?;
    text.extend_from_slice(b"\n")
}

// Returns the number of the next part. Part 1 comes after the last part. `number` is the number of
// parts. `part` must be at most 255.
fn next_part(number: u32, part: u32) -> u32
    requires { part ≤ 255 }
    ensures { result ≡ next_part number part }
{
    if part == number { 1 } else { part + 1 }
}

// Appends a blank and the word for a pin of a part, such as ` U1.33`.
fn push_pin(text: &mut Vec<u8>, part: u32, pin: u32) -> Result<(), AllocError>
    ensures { OnOk result (text.new.items ≡ text.old.items ++ pin_word part pin) }
{
    push_numbered(text, b" U", part)?;
    push_numbered(text, b".", pin)
}

// Appends the lines of the nets of the bus. `number` is the number of parts and must be at most
// 255.
fn push_buses(text: &mut Vec<u8>, number: u32) -> Result<(), AllocError>
    requires { number ≤ 255 }
    ensures { OnOk result (text.new.items ≡ text.old.items ++ each (bus_line number) 0 8) }
{
    for bit in 0..BUS {
        push_bus_line(text, number, bit)?;
    }
    Ok(())
}

// Appends the line of the net of a bit of the bus. `number` is the number of parts and must be at most 255. `bit` must
// be below 8.
fn push_bus_line(text: &mut Vec<u8>, number: u32, bit: u32) -> Result<(), AllocError>
    requires parts { number ≤ 255 }
    requires bit { bit < 8 }
    ensures { OnOk result (text.new.items ≡ text.old.items ++ bus_line number bit) }
{
    push_numbered(text, b"NET B", bit)?;
    push_bus_pins(text, number, bit)?;
    text.extend_from_slice(b"\n")
}

// Appends, for each part, a blank and the word for the part's pin of a bit of the bus. `number` is the number of parts
// and must be at most 255. `bit` must be below 8.
fn push_bus_pins(text: &mut Vec<u8>, number: u32, bit: u32) -> Result<(), AllocError>
    requires parts { number ≤ 255 }
    requires bit { bit < 8 }
    ensures { OnOk result
        (text.new.items ≡ text.old.items ++ each (λ part. pin_word part (bit + 65)) 1 number) }
{
    for part in 1..number + 1 {
        push_pin(text, part, bit + 65)?;
    }
    Ok(())
}
