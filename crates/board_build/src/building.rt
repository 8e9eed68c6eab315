// The board that a chain file, a net file and devices denote.
ghost use Rattle.std.specs.Prelude.{◌≡◌, ◌<◌, ◌≤◌, ◌^◌, All, IfOk, length, map, true, None, vec_len};
ghost use Rattle.board_files.specs.Files.{IsNetFile};
ghost use Rattle.board_defs.specs.BoardRules.{IsBoard, IsPart};
ghost use Rattle.answers.specs.Gives.{Gives};
ghost use Rattle.board_lines.specs.Faults.{board_told};
ghost use Rattle.board_lines.specs.Names.{named, names_of};
ghost use Rattle.board_lines.specs.declared.names.Naming.TheVariants.{Entity, Part as PartName};
ghost use Rattle.board_lines.specs.ChainParts.{IsChain, chain_parts};
ghost use Rattle.board_build.specs.BoardRules.{board_answer, board_of};
ghost use Rattle.board_build.specs.inner.Marked.{board_by, marked_answer, marked_fault};

use crate::nets::board_by;
use crate::rules::{driver_fault, file_fault};
use crate::selected_chain::SelectedChain;
use crate::standing::{StandingWords, standing_words};
use board_defs::{Board, Device, Part};
use board_files::{ChainFile, NetFile, NetLine};
use board_lines::{BoardFault, chain_parts, net_names};
use short_lists::ShortSlice;
use std::alloc::{AllocError, Global};

/// Returns the board that the files and the devices denote, or the fault of the first rule that the
/// files break, or lack of memory. The rules are checked in this order: Limit 2 (the bits of a data
/// scan), Limit 3 (the nets), Limit 4 (the pins), NoPin, PinTwice, InertInChain, NoSupplyNet,
/// NoPullNet, PullTwice, GuardedDriver and TwoAlwaysOn.
///
/// `select` must have accepted the chain, and `devices` must have a device for each DEVICE line, in
/// the order of these lines. LINK lines are ignored. To build a board with series parts, pass its
/// joined files, in which all nets that LINK lines connect have the same name.
pub fn board(
    alloc: Global,
    chain: &ChainFile,
    nets: &NetFile,
    devices: Vec<Device>,
) -> Result<Board, BoardFault>
    requires selected { IsChain chain.now }
    requires devices { vec_len devices ≡ length (named Entity chain.now) }
    ensures { Gives board_told (λ board. board)
        (λ said. board_of chain.now nets.now devices.items ≡ said) result }
{
    let lines = chain.lines();
    let parts = chain_parts(alloc, lines, devices)?;
    board_of(alloc, SelectedChain::of(lines, parts), nets.lines())
}

/// Returns the parts of the chain, in the order of their lines. `devices` must have a device for
/// each DEVICE line, in the order of these lines.
pub fn parts_of_chain(
    alloc: Global,
    chain: &ChainFile,
    devices: Vec<Device>,
) -> Result<Vec<Part>, AllocError>
    requires { vec_len devices ≡ length (named Entity chain.now) }
    ensures parts { IfOk result (λ parts. parts.items ≡ chain_parts chain.now devices.items) }
    ensures names { IfOk result
        (λ parts. map (λ part. part.name) parts.items ≡ names_of (named PartName chain.now)) }
    ensures kinds { IfOk result (λ parts. All (λ part. IsPart part.kind) parts.items) }
{
    let lines = chain.lines();
    let parts = chain_parts(alloc, lines, devices)?;
    Ok(parts)
}

/// Returns the board of the chain and these net lines, or the fault of the first rule that they
/// break, or lack of memory. There must be fewer than 2^32 lines, and each line must have fewer than 2^32 words.
fn board_of(alloc: Global, chain: SelectedChain<'_>, nets: &[NetLine]) -> Result<Board, BoardFault>
    requires { IsNetFile nets.now }
    ensures { Gives board_told (λ board. board)
        (λ said. board_answer chain.entry.lines nets.now chain.entry.parts ≡ said) result }
{
    let _rules = chain.parts();
    let net = net_names(alloc, ShortSlice { items: nets })?;
    let words = standing_words(alloc, &chain, &net.numbers, nets)?;
    answer(alloc, chain, &net.names, &words)
}

#[tactic(auto, using(board_lines::proofs::FaultLemmas::told_as), unfolding(crate::specs::inner::Marked::marked_answer, crate::specs::inner::Marked::marked_fault))]
fn answer(
    alloc: Global,
    chain: SelectedChain<'_>,
    names: &[&[u8]],
    words: &StandingWords<'_>,
) -> Result<Board, BoardFault>
    requires names { length names.now < 2 ^ 32 }
    requires sound { marked_fault chain.lines chain.parts (map (λ n. n.now) names.now) words.now
        ≡ None → IsBoard (board_by chain.lines chain.parts (map (λ n. n.now) names.now) words.now) }
    ensures { Gives board_told (λ board. board)
        (λ said. marked_answer chain.entry.lines chain.entry.parts (map (λ n. n.now) names.now)
        words.now ≡ said) result }
{
    if let Some(fault) = file_fault(alloc, &chain, names, words)? {
        return Err(fault);
    }
    let raw = board_by(alloc, chain, names, words)?;
    if let Some(fault) = driver_fault(alloc, &raw, words)? {
        return Err(fault);
    }
    Ok(Board::new(raw))
}
