// Finds the positions of parts and cells in data scans.
ghost use Rattle.std.specs.Prelude.{◌≡◌, ◌+◌, ◌<◌, sum_by, IfOk};
ghost use Rattle.board_defs.specs.Pins.{data_length, device_at, cell_count};
ghost use Rattle.net_pins.specs.Positions.{first_position, AreFirsts};

use board_defs::{Board, Part};
use std::alloc::{AllocError, Global};

fn firsts_of(alloc: Global, chain: &[Part], bits: u32) -> Result<Vec<u32>, AllocError>
    requires { bits ≡ sum_by (λ p. data_length p.kind) chain.now }
    ensures { IfOk result (λ firsts. AreFirsts chain.now firsts.items) }
{
    let mut firsts = Vec::new(alloc);
    let mut first = bits;
    for part in chain {
        first -= part.kind.data_length();
        firsts.push(first)?;
    }
    Ok(firsts)
}

/// Returns the position of each part's first bit in data scans. The bits of all later parts have lower positions.
pub fn first_positions(alloc: Global, board: &Board) -> Result<Vec<u32>, AllocError>
    ensures { IfOk result (λ firsts. AreFirsts board.now.chain firsts.items) }
{
    firsts_of(alloc, board.raw().chain.as_slice(), board.dr_bits())
}

/// Returns the position of a described part's cell in data scans. The part must have this boundary cell, and `firsts`
/// must have the position of each part's first bit.
pub fn cell_position(board: &Board, firsts: &[u32], part: u32, cell: u32) -> u32
    requires firsts { AreFirsts board.now.chain firsts.now }
    requires cell { cell < cell_count (device_at board.now part) }
    ensures { result ≡ first_position board.now part + cell }
{
    let _ = board.raw();
    firsts[part as usize] + cell
}
