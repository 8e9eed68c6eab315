// A test that the generated files describe a board, for each number of devices from 1 to 255.
ghost use Rattle.std.specs.Prelude.{◌≤◌};

use board_gen::make;
use btest_core::read_board;
use run_bench::{RowFault, expect};
use std::alloc::{AllocError, Global};

// Returns whether `read_board` accepts the files of the generated board with `number` devices. `number` must be from 1 to 255.
fn is_board(alloc: Global, number: u32) -> Result<bool, AllocError>
    requires some { 1 ≤ number }
    requires few { number ≤ 255 }
{
    let made = make(alloc, number)?;
    let mut bsdl = Vec::new(alloc);
    bsdl.push(made.bsdl)?;
    Ok(read_board(alloc, &made.chain, &made.nets, &bsdl).is_ok())
}

#[test]
fn each_number_makes_a_board(rt: HostRuntime) -> Result<(), RowFault> {
    for number in 1..256u32 {
        expect(
            "generated boards",
            number as usize,
            is_board(rt.alloc(), number)?,
        )?;
    }
    Ok(())
}
