//! Writes the listing of a device.
ghost use Rattle.std.specs.Prelude.{◌≡◌, ◌==◌, ◌<◌, ◌≤◌, ◌+◌, ℕ, [], ◌∷◌, ◌++◌, length, filter, is_some, codes, decimal, true};
ghost use Rattle.std.specs.List.{flat_map, list_any, prefix_len};
ghost use Rattle.board_defs.specs.Limits.{most_bits};
ghost use Rattle.bt_base.specs.Puts.{Puts};
ghost use Rattle.line_printer.specs.Prints.{Prints, line_of, whole};
ghost use Rattle.board_defs.specs.DeviceRules.{IsDevice};
ghost use Rattle.device_check.specs.DeviceText.{mode_word, role_word, symbol_word, code_text, instructions_text, pattern_text, instruction_line, pin_text, pins_text, port_line, name_of_port, port_lines, index_text, place_text, control_text, cell_line, entries_of_cell, cell_lines, device_text};
ghost use Rattle.device_check.specs.inner.ListingForms.{Rises, Climbs, entries_in};

use crate::listing_table::{Entries, fill_entries};
use board_defs::{Cell, Control, Device, Edition, Mode, Name, PortBit, RawDevice, Role, Symbol};
use bt_base::{PutFault, Sink};
use bt_bits::Line;
use itoa::Buffer;
use line_printer::{begin_line, bit_word, end_line, print, print_all, put_line};

/// The number of cells whose entries are collected in one pass over the list of entries.
const BLOCK: usize = 1024;

fn mode_word(mode: Mode) -> &'static [u8]
    ensures { result.now ≡ mode_word mode }
{
    match mode {
        Mode::Inward => b"IN",
        Mode::Outward => b"OUT",
        Mode::Both => b"INOUT",
        Mode::Buffer => b"BUFFER",
        Mode::Linkage => b"LINKAGE",
    }
}

fn role_word(role: Role) -> &'static [u8]
    ensures { result.now ≡ role_word role }
{
    match role {
        Role::Input => b"INPUT",
        Role::Output2 => b"OUTPUT2",
        Role::Output3 => b"OUTPUT3",
        Role::Control => b"CONTROL",
        Role::ControlR => b"CONTROLR",
        Role::Internal => b"INTERNAL",
        Role::Clock => b"CLOCK",
        Role::Bidir => b"BIDIR",
        Role::ObserveOnly => b"OBSERVE_ONLY",
    }
}

fn symbol_word(symbol: Symbol) -> &'static [u8]
    ensures { result.now ≡ symbol_word symbol }
{
    match symbol {
        Symbol::Zero => b"0",
        Symbol::One => b"1",
        Symbol::Any => b"X",
    }
}

/// Prints a code in reverse, so that the symbol nearest TDO, the first of the code, is the last
/// printed.
fn print_code<K: Sink>(code: &[Symbol], line: &mut Line, out: &mut K) -> Result<(), PutFault>
    ensures { Prints (K.shown out.old) (K.shown out.new) line.old line.new (code_text code.now)
        result }
{
    let mut at = code.len();
    while 0 < at {
        at -= 1;
        print(symbol_word(code[at]), line, out)?;
    }
    Ok(())
}

/// Prints the name of an instruction and its code.
fn print_instruction<K: Sink>(
    name: &[u8],
    code: &[Symbol],
    line: &mut Line,
    out: &mut K,
) -> Result<(), PutFault>
    ensures { Prints (K.shown out.old) (K.shown out.new) line.old line.new
        (name.now ++ code_text code.now) result }
{
    print(name, line, out)?;
    print_code(code, line, out)
}

/// Prints the name and the code of the preload instruction, and also those of EXTEST if the edition does not prescribe
/// the code of EXTEST.
fn print_instructions<K: Sink>(
    device: &RawDevice,
    line: &mut Line,
    out: &mut K,
) -> Result<(), PutFault>
    ensures { Prints (K.shown out.old) (K.shown out.new) line.old line.new
        (instructions_text device.now.edition device.now.sample device.now.extest) result }
{
    match device.edition {
        Edition::Old => print_instruction(b" SAMPLE ", device.sample.symbols(), line, out),
        Edition::Of2001 => {
            print_instruction(b" PRELOAD ", device.sample.symbols(), line, out)?;
            print_instruction(b" EXTEST ", device.extest.symbols(), line, out)
        }
    }
}

/// Prints the pattern of the identification code, or `-` if there is none.
fn print_pattern<K: Sink>(device: &RawDevice, line: &mut Line, out: &mut K) -> Result<(), PutFault>
    ensures { Prints (K.shown out.old) (K.shown out.new) line.old line.new
        (pattern_text device.now.idcode) result }
{
    match &device.idcode {
        None => print(b"-", line, out),
        Some(code) => print_code(code.symbols(), line, out),
    }
}

/// Begins the line of the instruction register with its length.
fn begin_instructions<K: Sink>(ir: u32, line: &mut Line, out: &mut K) -> Result<(), PutFault>
    ensures { Prints (K.shown out.old) (K.shown out.new) [] line.new
        (whole (codes "IR " ∷ decimal ir ∷ [])) result }
{
    let mut number = Buffer::new();
    let number = number.format(ir).as_bytes();
    begin_line(&[b"IR ".as_slice(), number], line, out)
}

/// Writes the line of the instruction register.
fn put_instructions<K: Sink>(
    device: &RawDevice,
    line: &mut Line,
    out: &mut K,
) -> Result<(), PutFault>
    ensures { Prints (K.shown out.old) (K.shown out.new) [] [] (instruction_line device.now)
        result }
{
    begin_instructions(device.ir, line, out)?;
    print_instructions(device, line, out)?;
    print(b" IDCODE ", line, out)?;
    print_pattern(device, line, out)?;
    end_line(line, out)
}

/// Prints a space and the pin of a port bit. Prints nothing if the port bit has no pin.
fn print_pin<K: Sink>(bit: &PortBit, line: &mut Line, out: &mut K) -> Result<(), PutFault>
    ensures { Prints (K.shown out.old) (K.shown out.new) line.old line.new (pin_text bit.now.pin)
        result }
{
    match &bit.pin {
        None => Ok(()),
        Some(pin) => print_all(&[b" ".as_slice(), pin.bytes()], line, out),
    }
}

/// Returns whether one of the bits has a pin.
fn has_pins(bits: &[PortBit]) -> bool
    ensures { result ≡ list_any (λ bit. is_some bit.pin) bits.now }
{
    bits.iter().any(|bit| bit.pin.is_some())
}

/// Prints the pins of the bits, each after a space, in the order of the list. Prints nothing for a bit
/// without a pin.
fn print_each_pin<K: Sink>(bits: &[PortBit], line: &mut Line, out: &mut K) -> Result<(), PutFault>
    ensures { Prints (K.shown out.old) (K.shown out.new) line.old line.new
        (flat_map (λ bit. pin_text bit.pin) bits.now) result }
{
    for bit in bits {
        print_pin(bit, line, out)?;
    }
    Ok(())
}

/// Prints the pins of a port, each after a space, or ` -` if the port has no pins.
fn print_pins<K: Sink>(bits: &[PortBit], line: &mut Line, out: &mut K) -> Result<(), PutFault>
    ensures { Prints (K.shown out.old) (K.shown out.new) line.old line.new (pins_text bits.now)
        result }
{
    if has_pins(bits) {
        print_each_pin(bits, line, out)
    } else {
        print(b" -", line, out)
    }
}

/// Begins the line of a port with its name.
fn begin_port<K: Sink>(name: &[u8], line: &mut Line, out: &mut K) -> Result<(), PutFault>
    ensures { Prints (K.shown out.old) (K.shown out.new) [] line.new
        (whole (codes "PORT " ∷ name.now ∷ codes " " ∷ [])) result }
{
    begin_line(&[b"PORT ".as_slice(), name, b" "], line, out)
}

/// Prints the word for the mode of a port.
fn print_mode<K: Sink>(mode: Mode, line: &mut Line, out: &mut K) -> Result<(), PutFault>
    ensures { Prints (K.shown out.old) (K.shown out.new) line.old line.new (mode_word mode) result }
{
    print(mode_word(mode), line, out)
}

/// Writes the line of a port with this mode and these bits.
fn put_port_line<K: Sink>(
    name: &[u8],
    mode: Mode,
    bits: &[PortBit],
    line: &mut Line,
    out: &mut K,
) -> Result<(), PutFault>
    ensures { Prints (K.shown out.old) (K.shown out.new) [] []
        (line_of (codes "PORT " ∷ name.now ∷ codes " " ∷ mode_word mode ∷ pins_text bits.now ∷ [])) result }
{
    begin_port(name, line, out)?;
    print_mode(mode, line, out)?;
    print_pins(bits, line, out)?;
    end_line(line, out)
}

/// Writes the line of a port with these bits, or nothing if there are no bits.
fn put_port<K: Sink>(
    name: &[u8],
    bits: &[PortBit],
    line: &mut Line,
    out: &mut K,
) -> Result<(), PutFault>
    ensures { Prints (K.shown out.old) (K.shown out.new) [] [] (port_line name.now bits.now)
        result }
{
    match bits {
        [] => Ok(()),
        [first, ..] => put_port_line(name, first.mode, bits, line, out),
    }
}

/// Returns the name of the port with this number, or an empty name if there is no such port.
fn port_name(ports: &[Name], port: usize) -> &[u8]
    ensures { result.now ≡ name_of_port ports.now port }
{
    match ports.get(port) {
        Some(name) => name.bytes(),
        None => b"",
    }
}

/// Returns how many bits at the front of the list belong to the port.
fn count_bits(port: usize, bits: &[PortBit]) -> usize
    ensures value { result ≡ prefix_len (λ bit. bit.port == port) bits.now }
    ensures within { result ≤ length bits.now }
{
    bits.iter()
        .take_while(|bit| bit.port as usize == port)
        .count()
}

/// Splits bits that are in the order of their ports into the bits of `port` and the bits of later
/// ports. No bit may belong to an earlier port.
fn split_port(port: usize, bits: &[PortBit]) -> (&[PortBit], &[PortBit])
    requires { Rises port bits.now }
    ensures own { result.0.now ≡ filter (λ bit. bit.port == port) bits.now }
    ensures rises { Rises (port + 1) result.1.now }
    ensures others { (q : ℕ) → port < q
        → filter (λ bit. bit.port == q) result.1.now ≡ filter (λ bit. bit.port == q) bits.now }
{
    bits.split_at(count_bits(port, bits))
}

/// Writes the lines of the ports. The bits must be in the order of the ports.
fn put_ports<K: Sink>(
    ports: &[Name],
    bits: &[PortBit],
    line: &mut Line,
    out: &mut K,
) -> Result<(), PutFault>
    requires { Rises 0 bits.now }
    ensures { Prints (K.shown out.old) (K.shown out.new) [] [] (port_lines ports.now bits.now)
        result }
{
    let mut rest = bits;
    for port in 0..ports.len() {
        let (own, others) = split_port(port, rest);
        put_port(port_name(ports, port), own, line, out)?;
        rest = others;
    }
    Ok(())
}

/// Prints the index of a bit in parentheses, or nothing if the bit's port is not a vector.
fn print_index<K: Sink>(index: Option<u32>, line: &mut Line, out: &mut K) -> Result<(), PutFault>
    ensures { Prints (K.shown out.old) (K.shown out.new) line.old line.new (index_text index)
        result }
{
    let Some(index) = index else {
        return Ok(());
    };
    let mut number = Buffer::new();
    let number = number.format(index).as_bytes();
    print_all(&[b"(".as_slice(), number, b")"], line, out)
}

/// Prints the name of a port.
fn print_port_name<K: Sink>(
    ports: &[Name],
    port: u32,
    line: &mut Line,
    out: &mut K,
) -> Result<(), PutFault>
    ensures { Prints (K.shown out.old) (K.shown out.new) line.old line.new
        (name_of_port ports.now port) result }
{
    print(port_name(ports, port as usize), line, out)
}

/// Prints a port bit: the name of its port, followed by its index.
fn print_bit<K: Sink>(
    ports: &[Name],
    bit: &PortBit,
    line: &mut Line,
    out: &mut K,
) -> Result<(), PutFault>
    ensures { Prints (K.shown out.old) (K.shown out.new) line.old line.new
        (name_of_port ports.now bit.now.port ++ index_text bit.now.index) result }
{
    print_port_name(ports, bit.port, line, out)?;
    print_index(bit.index, line, out)
}

/// Prints the port bit of an entry, or `*` if the entry has none. Prints nothing if the list has no bit with this
/// number.
fn print_place<K: Sink>(
    ports: &[Name],
    bits: &[PortBit],
    bit: Option<u32>,
    line: &mut Line,
    out: &mut K,
) -> Result<(), PutFault>
    ensures { Prints (K.shown out.old) (K.shown out.new) line.old line.new
        (place_text ports.now bits.now bit) result }
{
    let Some(bit) = bit else {
        return print(b"*", line, out);
    };
    match bits.get(bit as usize) {
        Some(bit) => print_bit(ports, bit, line, out),
        None => Ok(()),
    }
}

/// Prints the control cell of an entry and the disable value, each after a space. Prints nothing if the
/// entry has no control.
fn print_control<K: Sink>(
    control: Option<Control>,
    line: &mut Line,
    out: &mut K,
) -> Result<(), PutFault>
    ensures { Prints (K.shown out.old) (K.shown out.new) line.old line.new (control_text control)
        result }
{
    let Some(control) = control else {
        return Ok(());
    };
    let mut cell = Buffer::new();
    let cell = cell.format(control.cell).as_bytes();
    let disable = bit_word(control.disable);
    print_all(&[b" ".as_slice(), cell, b" ", disable], line, out)
}

/// Begins the line of an entry with the number of its cell and its function.
fn begin_cell<K: Sink>(num: u32, role: Role, line: &mut Line, out: &mut K) -> Result<(), PutFault>
    ensures { Prints (K.shown out.old) (K.shown out.new) [] line.new
        (whole (codes "CELL " ∷ decimal num ∷ codes " " ∷ role_word role ∷ codes " " ∷ [])) result }
{
    let mut number = Buffer::new();
    let number = number.format(num).as_bytes();
    begin_line(
        &[b"CELL ".as_slice(), number, b" ", role_word(role), b" "],
        line,
        out,
    )
}

/// Prints a space and the safe value of an entry.
fn print_safe<K: Sink>(safe: Symbol, line: &mut Line, out: &mut K) -> Result<(), PutFault>
    ensures { Prints (K.shown out.old) (K.shown out.new) line.old line.new
        (whole (codes " " ∷ symbol_word safe ∷ [])) result }
{
    print_all(&[b" ".as_slice(), symbol_word(safe)], line, out)
}

/// Writes the line of an entry.
fn put_cell<K: Sink>(
    ports: &[Name],
    bits: &[PortBit],
    cell: Cell,
    line: &mut Line,
    out: &mut K,
) -> Result<(), PutFault>
    ensures { Prints (K.shown out.old) (K.shown out.new) [] [] (cell_line ports.now bits.now cell)
        result }
{
    begin_cell(cell.num, cell.role, line, out)?;
    print_place(ports, bits, cell.bit, line, out)?;
    print_safe(cell.safe, line, out)?;
    print_control(cell.ctl, line, out)?;
    end_line(line, out)
}

/// Writes a line for each of these entries, which are at most two, in their order.
fn put_entries<K: Sink>(
    ports: &[Name],
    bits: &[PortBit],
    entries: Entries,
    line: &mut Line,
    out: &mut K,
) -> Result<(), PutFault>
    ensures { Prints (K.shown out.old) (K.shown out.new) [] []
        (flat_map (cell_line ports.now bits.now) (entries_in entries)) result }
{
    match entries {
        Entries::Nothing => Ok(()),
        Entries::One(cell) => put_cell(ports, bits, cell, line, out),
        Entries::Two(first, second) => {
            put_cell(ports, bits, first, line, out)?;
            put_cell(ports, bits, second, line, out)
        }
    }
}

/// Writes the lines of the entries in a table, from the first place to the last.
fn put_table<K: Sink>(
    ports: &[Name],
    bits: &[PortBit],
    table: &[Entries],
    line: &mut Line,
    out: &mut K,
) -> Result<(), PutFault>
    ensures { Prints (K.shown out.old) (K.shown out.new) [] []
        (flat_map (λ entries. flat_map (cell_line ports.now bits.now) (entries_in entries)) table.now) result }
{
    for entries in table {
        put_entries(ports, bits, *entries, line, out)?;
    }
    Ok(())
}

/// Writes the lines of the entries of cells `from`, `from + 1` and so on, one cell for each place
/// of the table. No cell may have more than two entries.
fn put_block<K: Sink>(
    device: &RawDevice,
    from: u32,
    table: &mut [Entries],
    line: &mut Line,
    out: &mut K,
) -> Result<(), PutFault>
    requires { (num : ℕ) → length (entries_of_cell num device.now.cells) ≤ 2 }
    ensures text { Prints (K.shown out.old) (K.shown out.new) [] []
        (cell_lines device.now.ports device.now.bits device.now.cells from (length table.old)) result }
    ensures length { length table.new ≡ length table.old }
{
    fill_entries(device.cells.as_slice(), from, table);
    put_table(
        device.ports.as_slice(),
        device.bits.as_slice(),
        table,
        line,
        out,
    )
}

/// Writes the lines of all cells, block by block. A block is up to `BLOCK` consecutive cells. Each
/// block takes one pass over the list of entries, so the time does not depend on the order of the
/// list. No cell may have more than two entries, and the register may have at most 65,535 cells.
fn put_blocks<K: Sink>(device: &RawDevice, line: &mut Line, out: &mut K) -> Result<(), PutFault>
    requires few { (num : ℕ) → length (entries_of_cell num device.now.cells) ≤ 2 }
    requires most { device.now.boundary ≤ most_bits }
    ensures { Prints (K.shown out.old) (K.shown out.new) [] []
        (cell_lines device.now.ports device.now.bits device.now.cells 0 device.now.boundary) result }
{
    let mut table = [Entries::Nothing; BLOCK];
    let mut from = 0;
    while from < device.boundary {
        let count = BLOCK.min((device.boundary - from) as usize);
        put_block(device, from, &mut table[..count], line, out)?;
        from += count as u32;
    }
    Ok(())
}

/// Returns whether the entries are in the order of their cells, and all cell numbers are below
/// `most`. The contract allows a wrong false, which would only cost time.
fn are_in_order(cells: &[Cell], most: u32) -> bool
    ensures { result ≡ true → Climbs 0 most cells.now }
{
    let mut least = 0;
    for cell in cells {
        if cell.num < least || most <= cell.num {
            return false;
        }
        least = cell.num;
    }
    true
}

/// Writes the lines of the entries in the order of the list.
fn put_in_order<K: Sink>(
    ports: &[Name],
    bits: &[PortBit],
    cells: &[Cell],
    line: &mut Line,
    out: &mut K,
) -> Result<(), PutFault>
    ensures { Prints (K.shown out.old) (K.shown out.new) [] []
        (flat_map (cell_line ports.now bits.now) cells.now) result }
{
    for cell in cells {
        put_cell(ports, bits, *cell, line, out)?;
    }
    Ok(())
}

/// Writes the lines of all cells. If the entries are in the order of their cells, as in most texts,
/// one pass over the list writes them. No cell may have more than two entries, and the register may
/// have at most 65,535 cells.
fn put_cells<K: Sink>(device: &RawDevice, line: &mut Line, out: &mut K) -> Result<(), PutFault>
    requires few { (num : ℕ) → length (entries_of_cell num device.now.cells) ≤ 2 }
    requires most { device.now.boundary ≤ most_bits }
    ensures { Prints (K.shown out.old) (K.shown out.new) [] []
        (cell_lines device.now.ports device.now.bits device.now.cells 0 device.now.boundary) result }
{
    let cells = device.cells.as_slice();
    if are_in_order(cells, device.boundary) {
        put_in_order(
            device.ports.as_slice(),
            device.bits.as_slice(),
            cells,
            line,
            out,
        )
    } else {
        put_blocks(device, line, out)
    }
}

/// Writes the lines of the ports of a device. The device must keep the rules of devices.
fn put_all_ports<K: Sink>(device: &RawDevice, line: &mut Line, out: &mut K) -> Result<(), PutFault>
    requires { IsDevice device.now }
    ensures { Prints (K.shown out.old) (K.shown out.new) [] []
        (port_lines device.now.ports device.now.bits) result }
{
    put_ports(device.ports.as_slice(), device.bits.as_slice(), line, out)
}

/// Writes a line that consists of `word` and the name.
fn put_name<K: Sink>(word: &[u8], name: &Name, line: &mut Line, out: &mut K) -> Result<(), PutFault>
    ensures { Prints (K.shown out.old) (K.shown out.new) [] [] (line_of (word.now ∷ name.now ∷ []))
        result }
{
    put_line(&[word, name.bytes()], line, out)
}

/// Writes the listing of the device, which must keep the rules of devices.
fn put_listing<K: Sink>(device: &RawDevice, line: &mut Line, out: &mut K) -> Result<(), PutFault>
    requires { IsDevice device.now }
    ensures { Prints (K.shown out.old) (K.shown out.new) [] [] (device_text device.now) result }
{
    put_name(b"ENTITY ", &device.entity, line, out)?;
    put_name(b"PACKAGE ", &device.package, line, out)?;
    put_instructions(device, line, out)?;
    put_all_ports(device, line, out)?;
    put_cells(device, line, out)
}

/// Writes the listing of a device: its names, its instructions, its ports with their pins, and the
/// entries of its boundary register in the order of the cell numbers. Writes each line of at most
/// `MAX_LINE` bytes in one call of `put`. Writes a longer line in pieces of `MAX_LINE` bytes and a
/// last piece with the rest. Allocates nothing; `line` is a buffer whose contents afterwards are unspecified. Fails
/// only if the sink fails, after a prefix of the listing.
pub fn write_device<K: Sink>(device: &Device, line: &mut Line, out: &mut K) -> Result<(), PutFault>
    ensures { Puts (K.shown out.old) (K.shown out.new) (device_text device.now) result }
{
    put_listing(device.raw(), line, out)
}
