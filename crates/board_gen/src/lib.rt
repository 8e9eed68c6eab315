//! Generates boards of 1 to 255 parts, as texts. A ring of nets connects each part to the next part, and all parts
//! share a bus.
#![tactic(auto)]

mod board;
mod device;
mod pieces;

ghost use Rattle.std.specs.Prelude.{◌≡◌, ◌≤◌, IfOk};
ghost use Rattle.board_gen.specs.BoardTexts.{chain_file_text, net_text};
ghost use Rattle.board_gen.specs.DeviceText.{bsdl_text};
ghost use Rattle.board_gen.specs.Short.{AreShortTexts};

use std::alloc::{AllocError, Global};

/// The texts of a board.
#[derive(Debug, Drop)]
pub struct Made {
    /// The chain file.
    pub chain: Vec<u8>,
    /// The net file.
    pub nets: Vec<u8>,
    /// The BSDL text of GEN, the device that each part of the board is.
    pub bsdl: Vec<u8>,
}

/// Returns the texts of the board with `number` parts, from 1 to 255. The board has 32 nets for each part, and the 8 nets of the bus. Each
/// text has at most 4,194,304 bytes. The only error is lack of memory.
pub fn make(alloc: Global, number: u32) -> Result<Made, AllocError>
    requires some { 1 ≤ number }
    requires few { number ≤ 255 }
    ensures chain { IfOk result (λ made. made.chain.items ≡ chain_file_text number) }
    ensures nets { IfOk result (λ made. made.nets.items ≡ net_text number) }
    ensures bsdl { IfOk result (λ made. made.bsdl.items ≡ bsdl_text) }
    ensures short { IfOk result AreShortTexts }
{
    let chain = board::chain(alloc, number)?;
    let nets = board::nets(alloc, number)?;
    let bsdl = device::bsdl(alloc)?;
    Ok(Made { chain, nets, bsdl })
}
