// The board of a chain file, a net file and BSDL texts. It is made from the joined files, in which
// all nets that LINK lines connected have the same name.
ghost use Rattle.std.specs.Prelude.{◌≡◌, ◌+◌, ◌<◌, ◌≤◌, ◌^◌, All, IfOk, false, length, map, vec_len};
ghost use Rattle.board_files.specs.NetLines.{net_lines};
ghost use Rattle.board_build.specs.BoardRules.{board_of};
ghost use Rattle.board_lines.specs.ChainParts.{IsChain};
ghost use Rattle.board_lines.specs.Names.{named};
ghost use Rattle.board_lines.specs.declared.names.Naming.TheVariants.{Entity as EntityName};
ghost use Rattle.series_parts.specs.Joining.{joined_files};
ghost use Rattle.series_parts.specs.Lines.{has_link, is_link};
ghost use Rattle.btest_core.specs.inner.Kept.{Kept};
ghost use Rattle.btest_core.specs.declared.fault.InputFault.TheVariants.{Nets};
ghost use Rattle.answers.specs.Gives.{Gives};
ghost use Rattle.btest_core.specs.Answers.{Is, input_told};
ghost use Rattle.btest_core.specs.InputFaults.{in_board, in_file, in_link};
ghost use Rattle.btest_core.specs.BoardRead.{IsJoinedBoard, IsFilesBoard, IsBoardRead};

use crate::chain::chain_file;
use crate::devices::devices;
use crate::fault::InputFault;
use board_build::{BoardFault, board};
use board_defs::{Board, Device};
use board_files::{ChainFile, ChainStatement, LineFault, NetFile, nets};
use series_parts::law::unlinked_files;
use series_parts::{Joined, LinkFault, join};
use short_lists::{ShortSlice, TextList, TextSlice};
use std::alloc::Global;

// Returns the net file that a text contains, or the fault of its first faulty line.
fn net_file(alloc: Global, text: TextSlice<'_>) -> Result<NetFile, InputFault>
    ensures { Gives input_told (λ file. file) (Is (in_file Nets (net_lines text.entry.items.now)))
        result }
{
    match nets(alloc, text.items) {
        Ok(file) => Ok(file),
        Err(LineFault::Memory(e)) => Err(InputFault::Memory(e)),
        Err(fault) => Err(InputFault::Nets(fault)),
    }
}

fn is_link(statement: &ChainStatement) -> bool
    ensures { result ≡ is_link statement.now }
{
    matches!(statement, ChainStatement::Link { .. })
}

// Returns whether the chain file has a LINK line.
fn has_link(chain: &ChainFile) -> bool
    ensures { result ≡ has_link chain.now }
{
    chain.lines().iter().any(|line| is_link(&line.statement))
}

// Returns the joined files of a chain file and a net file, or the fault of the first LINK pin that
// is in no net. Takes the net file by value to free it before the board is built, since the net
// file and the joined net file each hold a copy of all names.
fn joined_files(alloc: Global, chain: &ChainFile, nets: NetFile) -> Result<Joined, InputFault>
    ensures joined { Gives input_told (λ joined. joined)
        (Is (in_link (joined_files chain.now nets))) result }
    ensures kept { IfOk result (Kept chain.now nets) }
{
    match join(alloc, chain, &nets) {
        Ok(joined) => Ok(joined),
        Err(LinkFault::Memory(e)) => Err(InputFault::Memory(e)),
        Err(fault) => Err(InputFault::Link(fault)),
    }
}

// Returns the board of joined files, or the first fault of the board rules. The chain must have 1 to
// 255 parts with different names, and there must be a device for each DEVICE line.
fn board_of(
    alloc: Global,
    chain: &ChainFile,
    nets: &NetFile,
    devices: Vec<Device>,
) -> Result<Board, InputFault>
    requires selected { IsChain chain.now }
    requires devices { vec_len devices ≡ length (named EntityName chain.now) }
    ensures { Gives input_told (λ board. board)
        (Is (in_board (board_of chain.now nets.now devices.items))) result }
{
    match board(alloc, chain, nets, devices) {
        Ok(board) => Ok(board),
        Err(BoardFault::Memory(e)) => Err(InputFault::Memory(e)),
        Err(fault) => Err(InputFault::Board(fault)),
    }
}

// Returns the board of the devices and of files without LINK lines, or the first fault. Such files
// need no joining, so they are not copied. The chain must have 1 to 255 parts with different names,
// and there must be a device for each DEVICE line.
fn unlinked_board(
    alloc: Global,
    chain: &ChainFile,
    nets: &NetFile,
    devices: Vec<Device>,
) -> Result<Board, InputFault>
    requires unlinked { has_link chain.now ≡ false }
    requires selected { IsChain chain.now }
    requires devices { vec_len devices ≡ length (named EntityName chain.now) }
    ensures { Gives input_told (λ board. board) (IsJoinedBoard chain.now nets.now devices.items)
        result }
{
    unlinked_files();
    board_of(alloc, chain, nets, devices)
}

// Joins the files, and returns the board of the joined files and the devices, or the first fault.
// The chain must have 1 to 255 parts with different names, and there must be a device for each
// DEVICE line.
fn joined_board(
    alloc: Global,
    chain: &ChainFile,
    nets: NetFile,
    devices: Vec<Device>,
) -> Result<Board, InputFault>
    requires selected { IsChain chain.now }
    requires devices { vec_len devices ≡ length (named EntityName chain.now) }
    ensures { Gives input_told (λ board. board) (IsJoinedBoard chain.now nets devices.items)
        result }
{
    if !has_link(chain) {
        return unlinked_board(alloc, chain, &nets, devices);
    }
    match joined_files(alloc, chain, nets) {
        Ok(joined) => board_of(alloc, &joined.chain, &joined.nets, devices),
        Err(fault) => Err(fault),
    }
}

// Returns the board of the files and the BSDL texts, or the first fault.
fn files_board(
    alloc: Global,
    chain: &ChainFile,
    nets: NetFile,
    bsdl: TextList<'_>,
) -> Result<Board, InputFault>
    ensures { Gives input_told (λ board. board)
        (IsFilesBoard chain.now nets (map (λ text. text.items) bsdl.entry.items.now)) result }
{
    match devices(alloc, chain, bsdl) {
        Ok(devices) => joined_board(alloc, chain, nets, devices),
        Err(fault) => Err(fault),
    }
}

/// Returns the board that a chain file, a net file and BSDL texts denote, or the first fault. Looks
/// for faults in this order: the chain file, the net file, the BSDL texts, the board rules on the
/// chain, the devices of its DEVICE lines, the pins of its LINK lines, and the other board rules,
/// which are checked on the joined files. Each text must have fewer than 2^32 bytes, and there must
/// be fewer than 2^32 BSDL texts.
pub fn read_board(
    alloc: Global,
    chain: &[u8],
    nets: &[u8],
    bsdl: &[Vec<u8>],
) -> Result<Board, InputFault>
    requires chain { length chain.now < 2 ^ 32 }
    requires nets { length nets.now < 2 ^ 32 }
    requires each { All (λ text. length text.items < 2 ^ 32) bsdl.now }
    requires count { length bsdl.now < 2 ^ 32 }
    ensures { Gives input_told (λ board. board)
        (IsBoardRead chain.now nets.now (map (λ text. text.items) bsdl.now)) result }
{
    let chain = match chain_file(alloc, ShortSlice { items: chain }) {
        Ok(chain) => chain,
        Err(fault) => return Err(fault),
    };
    match net_file(alloc, ShortSlice { items: nets }) {
        Ok(nets) => files_board(alloc, &chain, nets, TextList { items: bsdl }),
        Err(fault) => Err(fault),
    }
}
