// Makes the BSDL text of GEN, the device of all generated boards.
ghost use Rattle.std.specs.Prelude.{◌≡◌, ◌==◌, ◌+◌, ◌/◌, ◌≤◌, ◌<◌, ◌++◌, codes, decimal, if◌then◌else◌, IfOk, OnOk};
ghost use Rattle.board_gen.specs.BoardTexts.{each};
ghost use Rattle.board_gen.specs.DeviceText.{attributes_text, bsdl_text, device_cell_line, cell_text, device_head, map_line, numbers};

use crate::pieces::{push_number, push_numbered};
use std::alloc::{AllocError, Global};

// The number of cells of the boundary register.
const CELLS: u32 = 77;

// Returns the BSDL text of GEN.
#[tactic(auto, unfolding(crate::specs::DeviceText::bsdl_text))]
pub fn bsdl(alloc: Global) -> Result<Vec<u8>, AllocError>
    ensures { IfOk result (λ text. text.items ≡ bsdl_text) }
{
    let mut text = Vec::new(alloc);
    push_head(&mut text)?;
    push_map(&mut text)?;
    push_attributes(&mut text)?;
    push_cells(&mut text)?;
    text.extend_from_slice(b"end GEN;\n")?;
    Ok(text)
}

// Appends the lines before the pin map.
#[tactic(auto, unfolding(crate::specs::DeviceText::device_head))]
fn push_head(text: &mut Vec<u8>) -> Result<(), AllocError>
    ensures { OnOk result (text.new.items ≡ text.old.items ++ device_head) }
{
    text.extend_from_slice(
        b"entity GEN is
generic (PHYSICAL_PIN_MAP : string := \"P\");
port (TDI, TMS, TCK : in bit; TDO : out bit; Q : out bit_vector(0 to 31); D : in bit_vector(0 to 31); B : inout bit_vector(0 to 7));
use STD_1149_1_1994.all;
attribute PIN_MAP of GEN : entity is PHYSICAL_PIN_MAP;
",
    )
}

// Appends the line of the pin map, which lists the pins of the ports.
#[tactic(auto, unfolding(crate::specs::DeviceText::map_line))]
fn push_map(text: &mut Vec<u8>) -> Result<(), AllocError>
    ensures { OnOk result (text.new.items ≡ text.old.items ++ map_line) }
{
    text.extend_from_slice(
        b"constant P : PIN_MAP_STRING := \"TDI:T1, TDO:T2, TMS:T3, TCK:T4, Q:(",
    )?;
    push_numbers(text, 1, 32)?;
    text.extend_from_slice(b"), D:(")?;
    push_numbers(text, 33, 32)?;
    text.extend_from_slice(b"), B:(")?;
    push_numbers(text, 65, 8)?;
    text.extend_from_slice(b")\";\n")
}

// Appends `count` consecutive numbers with commas between them. The first number is `first`. `count` must be at least
// 1, and `first + count` must be below 1000.
fn push_numbers(text: &mut Vec<u8>, first: u32, count: u32) -> Result<(), AllocError>
    requires some { 1 ≤ count }
    requires few { first + count < 1000 }
    ensures { OnOk result (text.new.items ≡ text.old.items ++ numbers first count) }
{
    push_number(text, first)?;
    for number in first + 1..first + count {
        push_numbered(text, b",", number)?;
    }
    Ok(())
}

// Appends the lines between the pin map and the entries of the boundary register.
#[tactic(auto, unfolding(crate::specs::DeviceText::attributes_text))]
fn push_attributes(text: &mut Vec<u8>) -> Result<(), AllocError>
    ensures { OnOk result (text.new.items ≡ text.old.items ++ attributes_text) }
{
    text.extend_from_slice(
        b"attribute TAP_SCAN_IN of TDI : signal is true;
attribute TAP_SCAN_OUT of TDO : signal is true;
attribute TAP_SCAN_MODE of TMS : signal is true;
attribute TAP_SCAN_CLOCK of TCK : signal is (10.0e6, BOTH);
attribute INSTRUCTION_LENGTH of GEN : entity is 2;
attribute INSTRUCTION_OPCODE of GEN : entity is \"BYPASS (11), EXTEST (00), SAMPLE (10)\";
attribute INSTRUCTION_CAPTURE of GEN : entity is \"01\";
attribute BOUNDARY_LENGTH of GEN : entity is 77;
attribute BOUNDARY_REGISTER of GEN : entity is
",
    )
}

// Appends the lines of the cells.
fn push_cells(text: &mut Vec<u8>) -> Result<(), AllocError>
    ensures { OnOk result (text.new.items ≡ text.old.items ++ each device_cell_line 0 77) }
{
    for cell in 0..CELLS {
        push_cell_line(text, cell)?;
    }
    Ok(())
}

// Appends the line of a cell.
fn push_cell_line(text: &mut Vec<u8>, cell: u32) -> Result<(), AllocError>
    ensures { OnOk result (text.new.items ≡ text.old.items ++ device_cell_line cell) }
{
    push_numbered(text, b"\"", cell)?;
    push_cell(text, cell)?;
    text.extend_from_slice(end_of(cell))
}

// Returns the end of the line of a cell. The line of the last cell ends the string.
fn end_of(cell: u32) -> &'static [u8]
    ensures { result.now ≡ (if cell == 76 then codes "\";\n" else codes ",\" &\n") }
{
    if cell == CELLS - 1 {
        b"\";\n"
    } else {
        b",\" &\n"
    }
}

// Appends the boundary register's entry for a cell, without the cell's number.
fn push_cell(text: &mut Vec<u8>, cell: u32) -> Result<(), AllocError>
    ensures { OnOk result (text.new.items ≡ text.old.items ++ cell_text cell) }
{
    match cell {
        0..=4 => text.extend_from_slice(b" (BC_1, *, control, 1)"),
        5..=36 => push_output(text, cell - 5),
        37..=68 => push_input(text, cell - 37),
        _ => push_bus_cell(text, cell - 69),
    }
}

// Appends the boundary register's entry for output `index`, without the cell's number. There is one control for each eight outputs.
fn push_output(text: &mut Vec<u8>, index: u32) -> Result<(), AllocError>
    ensures { OnOk result
        (text.new.items
        ≡ text.old.items
        ++ (codes " (BC_1, Q(" ++ decimal index ++ codes "), output3, X, "
        ++ decimal (index / 8) ++ codes ", 1, Z)")) }
{
    push_numbered(text, b" (BC_1, Q(", index)?;
    push_numbered(text, b"), output3, X, ", index / 8)?;
    text.extend_from_slice(b", 1, Z)")
}

// Appends the boundary register's entry for input `index`, without the cell's number.
fn push_input(text: &mut Vec<u8>, index: u32) -> Result<(), AllocError>
    ensures { OnOk result
        (text.new.items
        ≡ text.old.items ++ (codes " (BC_1, D(" ++ decimal index ++ codes "), input, X)")) }
{
    push_numbered(text, b" (BC_1, D(", index)?;
    text.extend_from_slice(b"), input, X)")
}

// Appends the boundary register's entry for pin `index` of the bus, without the cell's number.
fn push_bus_cell(text: &mut Vec<u8>, index: u32) -> Result<(), AllocError>
    ensures { OnOk result
        (text.new.items
        ≡ text.old.items
        ++ (codes " (BC_7, B(" ++ decimal index ++ codes "), bidir, X, 4, 1, Z)")) }
{
    push_numbered(text, b" (BC_7, B(", index)?;
    text.extend_from_slice(b"), bidir, X, 4, 1, Z)")
}
