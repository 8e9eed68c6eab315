// Tests on a board of 4,096 nets, each with a driver and a receiver.
use run_bench::{Bench, Ending, RowFault, Text};
use std::alloc::{AllocError, Global};

// The number of driving parts. It is also the number of receiving parts, and the number of pins of each part.
const PARTS: u32 = 64;

// The number of digits of a row for the cells of the drivers. The digits for the cells of the receivers follow on the right.
const DRIVER_DIGITS: usize = 1024;

const RECEIVER_DIGITS: usize = 1024;

// The beginning of the BSDL text of a device, up to and including the first pin number. `%` stands for the mode of the pins, `@` for the
// function of the cells, and `^` for the name of the device.
const FRONT: &str = r#"entity ^ is
generic (PHYSICAL_PIN_MAP : string := "P");
port (TDI, TMS, TCK : in bit; TDO : out bit; B : % bit_vector(1 to 64));
use STD_1149_1_1994.all;
attribute PIN_MAP of ^ : entity is PHYSICAL_PIN_MAP;
constant P : PIN_MAP_STRING := "TDI:T1, TDO:T2, TMS:T3, TCK:T4, B:(1"#;

// The text after the pin numbers, up to and including the entry of cell 0.
const MIDDLE: &str = r#")";
attribute TAP_SCAN_IN of TDI : signal is true;
attribute TAP_SCAN_OUT of TDO : signal is true;
attribute TAP_SCAN_MODE of TMS : signal is true;
attribute TAP_SCAN_CLOCK of TCK : signal is (10.0e6, BOTH);
attribute INSTRUCTION_LENGTH of ^ : entity is 2;
attribute INSTRUCTION_OPCODE of ^ : entity is "BYPASS (11), EXTEST (00), SAMPLE (10)";
attribute INSTRUCTION_CAPTURE of ^ : entity is "01";
attribute BOUNDARY_LENGTH of ^ : entity is 64;
attribute BOUNDARY_REGISTER of ^ : entity is
"0 (BC_1, B(1), @, X)"#;

// Returns the BSDL text of a device with this name, this mode of its pins and this function of its cells.
fn device(alloc: Global, name: &str, mode: &str, function: &str) -> Result<String, AllocError> {
    let mut text = String::from_str(alloc, FRONT)?;
    for pin in 2..=PARTS {
        write!(text, ",{pin}")?;
    }
    text.push_str(MIDDLE)?;
    for cell in 1..PARTS {
        let pin = cell + 1;
        write!(text, ",\" &\n\"{cell} (BC_1, B({pin}), @, X)")?;
    }
    text.push_str("\";\nend ^;\n")?;
    let named = text.as_str().replace(alloc, '^', name)?;
    let moded = named.as_str().replace(alloc, '%', mode)?;
    moded.as_str().replace(alloc, '@', function)
}

// Returns the number of the net that joins pin `pin` of driving part `part` to pin `pin` of receiving part `part`. All these numbers start
// at 0.
fn net_number(part: u32, pin: u32) -> u32 {
    part.saturating_mul(PARTS).saturating_add(pin)
}

// Returns the lines of the nets, in the order of their numbers.
fn net_lines(alloc: Global) -> Result<String, AllocError> {
    let mut nets = String::new(alloc);
    for part in 0..PARTS {
        for pin in 0..PARTS {
            let net = net_number(part, pin);
            let name = pin + 1;
            write!(nets, "NET N{net} D{part}.{name} R{part}.{name}\n")?;
        }
    }
    Ok(nets)
}

// Returns the text that repeats `piece` for each part number from 0 to 63. The part number replaces each `#`.
fn part_lines(piece: &'static str) -> Text {
    Text::Numbered {
        head: "",
        piece,
        first: 0,
        end: PARTS,
    }
}

fn chain_lines(alloc: Global) -> Result<Vec<u8>, AllocError> {
    let mut chain = part_lines("DEVICE D# DRIVERS -\n").bytes(alloc)?;
    chain.extend_from_slice(&part_lines("DEVICE R# RECEIVERS -\n").bytes(alloc)?)?;
    Ok(chain)
}

// Returns a bench with the files of the board, and with this log as the text `g`.
fn bench_of(alloc: Global, log: &str) -> Result<Bench, AllocError> {
    let mut bench = Bench::empty(alloc)?;
    bench.store.add("c", &chain_lines(alloc)?)?;
    bench.store.add("n", net_lines(alloc)?.as_bytes())?;
    add_devices(alloc, &mut bench)?;
    bench.store.add("g", log.as_bytes())?;
    Ok(bench)
}

fn add_devices(alloc: Global, bench: &mut Bench) -> Result<(), AllocError> {
    let drivers = device(alloc, "DRIVERS", "out", "output2")?;
    bench.store.add("drivers", drivers.as_bytes())?;
    let receivers = device(alloc, "RECEIVERS", "in", "input")?;
    bench.store.add("receivers", receivers.as_bytes())
}

const LINE: &str = "groups g c n drivers receivers";

// Returns the row in which all receivers read 1.
fn full_row(alloc: Global) -> Result<String, AllocError> {
    let mut row = "0".repeat(alloc, DRIVER_DIGITS)?;
    row.push_str(&"F".repeat(alloc, RECEIVER_DIGITS)?)?;
    row.push_str("\n")?;
    Ok(row)
}

static ONE_GROUP: Text = Text::Numbered {
    head: "GROUPS 1\nGROUP 4096\n",
    piece: "NET N#\n",
    first: 0,
    end: PARTS * PARTS,
};

#[test]
fn all_nets_may_be_one_group(rt: HostRuntime) -> Result<(), RowFault> {
    let row = full_row(rt.alloc())?;
    let log = row.repeat(rt.alloc(), (PARTS * PARTS) as usize)?;
    let mut bench = bench_of(rt.alloc(), &log)?;
    bench.ends(&rt, "4,096 nets", 0, LINE, Ending::PutsAll(ONE_GROUP))
}

// Returns the row in which pins `pin` and `pin + 1` of receiving part `part` read 1, and all other pins read 0. `pin` must be even. The
// last part is rightmost in the row. Within a part, the first pin is rightmost.
fn pair_row(alloc: Global, part: u32, pin: u32) -> Result<String, AllocError> {
    let behind = PARTS.saturating_sub(part.saturating_add(1)) as usize * 16 + (pin / 4) as usize;
    let mut row = "0".repeat(
        alloc,
        (DRIVER_DIGITS + RECEIVER_DIGITS - 1).saturating_sub(behind),
    )?;
    row.push_str(if pin % 4 == 0 { "3" } else { "C" })?;
    row.push_str(&"0".repeat(alloc, behind)?)?;
    row.push_str("\n")?;
    Ok(row)
}

// Appends to the log the rows of the two nets at pins `2 * half` and `2 * half + 1` of driving part `part`. In both rows, both nets read 1.
// Appends to the text the lines of the group of these two nets.
fn push_pair(
    alloc: Global,
    part: u32,
    half: u32,
    log: &mut String,
    text: &mut String,
) -> Result<(), AllocError> {
    let pin = half.saturating_mul(2);
    let row = pair_row(alloc, part, pin)?;
    log.push_str(&row)?;
    log.push_str(&row)?;
    let net = net_number(part, pin);
    let next = net_number(part, pin.saturating_add(1));
    write!(text, "GROUP 2\nNET N{net}\nNET N{next}\n")?;
    Ok(())
}

fn push_pairs(alloc: Global, log: &mut String, text: &mut String) -> Result<(), AllocError> {
    for part in 0..PARTS {
        for half in 0..PARTS / 2 {
            push_pair(alloc, part, half, log, text)?;
        }
    }
    Ok(())
}

#[test]
fn nets_may_be_shorted_in_pairs(rt: HostRuntime) -> Result<(), RowFault> {
    let mut log = String::new(rt.alloc());
    let mut text = String::from_str(rt.alloc(), "GROUPS 2048\n")?;
    push_pairs(rt.alloc(), &mut log, &mut text)?;
    let mut bench = bench_of(rt.alloc(), &log)?;
    bench.ends(&rt, "4,096 nets", 1, LINE, Ending::Puts(&text))
}
