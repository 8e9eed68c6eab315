// Writes the text of a set of groups. Each group consists of walk nets that are shorted together. The walk
// nets are the nets that the walking test observes.
ghost use Rattle.std.specs.Prelude.{◌++◌, [], length, option_map};
ghost use Rattle.std.specs.List.{flat_map};
ghost use Rattle.bt_base.specs.Puts.{Puts};
ghost use Rattle.line_printer.specs.Prints.{Prints};
ghost use Rattle.walk_test.specs.GroupText.{net_line, group_text, group_count_line, groups_text};

use crate::group::Group;
use crate::lines::{put_count, put_net, put_none, put_size};
use board_defs::Board;
use bt_base::{PutFault, Sink};
use bt_bits::Line;

fn put_numbered<K: Sink>(
    board: &Board,
    n: u32,
    line: &mut Line,
    out: &mut K,
) -> Result<(), PutFault>
    ensures { Prints (K.shown out.old) (K.shown out.new) [] [] (net_line board.now n) result }
{
    put_net(board.net_name(n), line, out)
}

fn put_nets<K: Sink>(
    board: &Board,
    nets: &[u32],
    line: &mut Line,
    out: &mut K,
) -> Result<(), PutFault>
    ensures { Prints (K.shown out.old) (K.shown out.new) [] []
        (flat_map (net_line board.now) nets.now) result }
{
    for n in nets {
        put_numbered(board, *n, line, out)?;
    }
    Ok(())
}

// Writes the lines of the group that consists of these nets.
fn put_members<K: Sink>(
    board: &Board,
    nets: &[u32],
    line: &mut Line,
    out: &mut K,
) -> Result<(), PutFault>
    ensures { Prints (K.shown out.old) (K.shown out.new) [] [] (group_text board.now nets.now)
        result }
{
    put_size(nets.len() as u64, line, out)?;
    put_nets(board, nets, line, out)
}

fn put_group<K: Sink>(
    board: &Board,
    group: &Group,
    line: &mut Line,
    out: &mut K,
) -> Result<(), PutFault>
    ensures { Prints (K.shown out.old) (K.shown out.new) [] [] (group_text board.now group.now)
        result }
{
    put_members(board, group.nets(), line, out)
}

fn put_groups<K: Sink>(
    board: &Board,
    groups: &[Group],
    line: &mut Line,
    out: &mut K,
) -> Result<(), PutFault>
    ensures { Prints (K.shown out.old) (K.shown out.new) [] []
        (flat_map (group_text board.now) groups.now) result }
{
    for group in groups {
        put_group(board, group, line, out)?;
    }
    Ok(())
}

// Writes the number of groups, and then each group.
fn put_all<K: Sink>(
    board: &Board,
    groups: &[Group],
    line: &mut Line,
    out: &mut K,
) -> Result<(), PutFault>
    ensures { Prints (K.shown out.old) (K.shown out.new) [] []
        (group_count_line (length groups.now) ++ flat_map (group_text board.now) groups.now)
        result }
{
    put_count(groups.len() as u64, line, out)?;
    put_groups(board, groups, line, out)
}

/// Writes the groups that explain a log: their number, and for each group its size and its nets in net order. If
/// `groups` is `None`, writes that no set of groups explains the log. For a number that no net of the board has, writes
/// an empty name. Each line of at most `MAX_LINE` bytes goes to the sink in one call. A longer line goes to the sink in
/// calls of `MAX_LINE` bytes each, and a last call for the rest. Allocates nothing. `line` is used as a buffer, and its
/// content afterwards is unspecified. Fails only if the sink fails. In this case the sink took a prefix of the text.
pub fn write_groups<K: Sink>(
    board: &Board,
    groups: Option<&[Group]>,
    line: &mut Line,
    out: &mut K,
) -> Result<(), PutFault>
    ensures { Puts (K.shown out.old) (K.shown out.new)
        (groups_text board.now (option_map (λ groups. groups.now) groups.entry)) result }
{
    match groups {
        None => put_none(line, out),
        Some(groups) => put_all(board, groups, line, out),
    }
}
