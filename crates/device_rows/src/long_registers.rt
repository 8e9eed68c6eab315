// Tests with a device whose instruction register has the maximum length of 255 bits, and with a device whose register has one bit more.
use crate::chain::LONGEST_REGISTER;
use run_bench::{Bench, DRV, Ending, NETS, RowFault};
use std::alloc::{AllocError, Global};

// Returns the text of the driver with an instruction register of `length` bits. `length` must be at
// least 2.
fn driver_of(alloc: Global, length: usize) -> Result<String, AllocError> {
    let ones = "1".repeat(alloc, length)?;
    let zeros = "0".repeat(alloc, length.saturating_sub(2))?;
    let codes = format!(in alloc; "BYPASS ({ones}), EXTEST (00{zeros}), SAMPLE (10{zeros})")?;
    let coded = DRV.replace(alloc, "BYPASS (11), EXTEST (00), SAMPLE (10)", &codes)?;
    let capture = format!(in alloc; "\"{zeros}01\"")?;
    let captured = coded.as_str().replace(alloc, "\"01\"", &capture)?;
    let register = format!(in alloc; "INSTRUCTION_LENGTH of DRV : entity is {length};")?;
    captured.as_str().replace(alloc, "INSTRUCTION_LENGTH of DRV : entity is 2;", &register)
}

// Returns a bench with a chain of one part, the driver with an instruction register of `length` bits.
fn bench_of(alloc: Global, length: usize) -> Result<Bench, AllocError> {
    let mut bench = Bench::with_board(alloc, "DEVICE U1 DRV -\n", NETS)?;
    bench
        .store
        .add("drv", driver_of(alloc, length)?.as_bytes())?;
    Ok(bench)
}

#[test]
fn a_device_has_at_most_255_instruction_bits(rt: HostRuntime) -> Result<(), RowFault> {
    let mut bench = bench_of(rt.alloc(), 255)?;
    let scans = Ending::Scans(LONGEST_REGISTER);
    bench.ends(&rt, "instruction bits", 255, "chain c drv", scans)?;
    let mut bench = bench_of(rt.alloc(), 256)?;
    let refused = Ending::Refused("drv: rule V1 item 6\n");
    bench.ends(&rt, "instruction bits", 256, "chain c drv", refused)
}
