//! Calls of `board_files` that read a chain file and a net file, and list the names of the nets.
ghost use Rattle.std.specs.Prelude.{◌≡◌, ◌+◌, ◌^◌, ◌<◌, ◌≤◌, length, map, vec_len, IfOk};
ghost use Rattle.std.specs.List.{AllByRecursion};
ghost use Rattle.board_files.specs.ChainLines.{HasBypassLength, chain_lines};
ghost use Rattle.board_files.specs.Names.{line_names};
ghost use Rattle.board_files.specs.NetLines.{net_lines};
ghost use Rattle.board_files.specs.Reading.{ReadsLines};

use board_files::{ChainFile, LineFault, NetFile, NetLine};
use std::alloc::{AllocError, Global};

/// Returns the lines of a chain file, or the fault of its first faulty line. There are at most as many lines as bytes, and the length on
/// each BYPASS line is from 2 to 255 bits. There must be fewer than 2^32 bytes.
pub fn chain_file(alloc: Global, bytes: &[u8]) -> Result<ChainFile, LineFault>
    requires { length bytes.now < 2 ^ 32 }
    ensures read { ReadsLines (λ file. file) result (chain_lines bytes.now) }
    ensures lengths { IfOk result (AllByRecursion (λ line. HasBypassLength line.statement)) }
    ensures count { IfOk result (λ file. length file ≤ length bytes.now) }
{
    board_files::chain(alloc, bytes)
}

/// Returns the lines of a net file, or the fault of its first faulty line. There are at most as many lines as bytes, and a line has at
/// least two pins fewer than the file has bytes. There must be fewer than 2^32 bytes.
pub fn net_file(alloc: Global, bytes: &[u8]) -> Result<NetFile, LineFault>
    requires { length bytes.now < 2 ^ 32 }
    ensures read { ReadsLines (λ file. file) result (net_lines bytes.now) }
    ensures count { IfOk result (λ file. length file ≤ length bytes.now) }
    ensures pins { IfOk result (AllByRecursion (λ line. length line.pins + 2 ≤ length bytes.now)) }
{
    board_files::nets(alloc, bytes)
}

/// Returns the name of each line's net, in the order of the lines.
pub fn line_names<'a>(alloc: Global, lines: &'a [NetLine]) -> Result<Vec<&'a [u8]>, AllocError>
    ensures names { IfOk result (λ names. map (λ n. n.now) names.items ≡ line_names lines.now) }
    ensures count { IfOk result (λ names. vec_len names ≡ length lines.now) }
{
    board_files::line_names(alloc, lines)
}
