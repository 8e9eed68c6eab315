// Tests with logs of a generated board of 60 devices. In each log, the first nets read 0 in every row. All other nets read their codes.
use run_bench::{Ending, RowFault, sixty_devices_hold};
use std::alloc::{AllocError, Global};

const DEVICES: u32 = 60;

// The number of rows of a pass. The 1,928 codes need 11 bits.
const WIDTH: u32 = 11;

const DIGITS: [char; 16] = [
    '0', '1', '2', '3', '4', '5', '6', '7', '8', '9', 'A', 'B', 'C', 'D', 'E', 'F',
];

// Returns the code of the net that a cell of a device reads, or 0 if the cell reads no net. Cells 37 to 68 read the outputs of the previous
// device. The device before device 1 is the last device. Cells 69 to 76 read the bus. The nets of the bus come after all other nets.
fn code_at(device: u32, cell: u32) -> u32 {
    let before = if device == 1 {
        DEVICES
    } else {
        device.saturating_sub(1)
    };
    if cell >= 69 {
        cell.saturating_sub(69).saturating_add(1_921)
    } else if cell >= 37 {
        let first = before.saturating_sub(1).saturating_mul(32);
        first.saturating_add(cell.saturating_sub(36))
    } else {
        0
    }
}

// Returns the bit that a cell reads in a row of a pass. A net reads 0 if its code is at most `silent`.
fn bit_at(device: u32, cell: u32, row: u32, silent: u32) -> u32 {
    let code = code_at(device, cell);
    if code <= silent {
        0
    } else {
        code.checked_shr(row).unwrap_or(0) & 1
    }
}

// Returns a row of a pass. The cells of the first device are leftmost, and within a device the last cell is leftmost. The 4,620 cells fill
// 1,155 digits.
fn row(alloc: Global, row: u32, silent: u32) -> Result<String, AllocError> {
    let mut text = String::new(alloc);
    let mut value = 0u32;
    let mut bits = 0u32;
    for device in 1..=DEVICES {
        for cell in (0..77u32).rev() {
            value = value
                .saturating_mul(2)
                .saturating_add(bit_at(device, cell, row, silent));
            bits = bits.saturating_add(1);
            if bits == 4 {
                text.push(DIGITS.get(value as usize).copied().unwrap_or('0'))?;
                value = 0;
                bits = 0;
            }
        }
    }
    text.push('\n')?;
    Ok(text)
}

// Returns the log in which the first `silent` nets read 0. Each pass enables the outputs of all devices and the bus pins of one device, so
// all nets carry their codes in every pass. The test does not compare the bus cells of that device, so their bits in a log may have any
// value. This log gives them the bits of the bus. Then the rows of all passes are equal.
fn log(alloc: Global, silent: u32) -> Result<String, AllocError> {
    let mut rows = String::new(alloc);
    for number in 0..WIDTH {
        rows.push_str(&row(alloc, number, silent)?)?;
    }
    rows.repeat(alloc, DEVICES as usize)
}

// The number of nets that read 0, counted from the first net, and the diagnosis.
const SILENT: [(u32, &str); 5] = [
    (0, "PASS\n"),
    (1, "FAIL 3\nstuck R1_0 0\nopen U1.1 0\nopen U2.33 0\n"),
    // The codes of the two nets, 1 and 2, have no 1 in common.
    (2, "FAIL 1\nshort AND R1_0 R1_1\n"),
    // A single fault changes at most two nets.
    (3, "FAIL 0\n"),
    (1_928, "FAIL 0\n"),
];

#[test]
fn memory_is_there_however_many_nets_differ(rt: HostRuntime) -> Result<(), RowFault> {
    for (silent, text) in &SILENT {
        let log = log(rt.alloc(), *silent)?;
        let lines = [("diagnose 4 g c n gen", Ending::Puts(text))];
        sixty_devices_hold(&rt, rt.alloc(), &log, &lines)?;
    }
    Ok(())
}
