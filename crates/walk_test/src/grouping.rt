// Finds the groups that explain a log. The label of a walk net is the place, in the list of walk nets, of the first
// walk net whose 1 the net reads. Two or more nets with the same label are a group.
ghost use Rattle.std.specs.Prelude.{◌≡◌, ◌<◌, ◌++◌, ◌==◌, length, map, All, option_map, IfOk, OnOk};
ghost use Rattle.std.specs.List.{flat_map, range_with_len};
ghost use Rattle.board_defs.specs.Pins.{data_bits};
ghost use Rattle.walk_test.specs.Groups.{Rise, AreFound, AreNamed};
ghost use Rattle.walk_test.specs.inner.Reading.{members, where_several, groups_by};
ghost use Rattle.walk_test.specs.Tables.{IsWalkOf};

use crate::group::Group;
use crate::labels::shown_labels;
use crate::law::walk_safe;
use crate::walk::Walk;
use crate::walk_log::WalkLog;
use board_defs::Board;
use lists::{Items, blank, note};
use response_log::Log;
use std::alloc::{AllocError, Global};
use tap_defs::board_law::{logs_by_rows, rows_compared, scans_in_turn};

// Returns, for each place of a net, the list of the nets that have this place as their label, in net order. There must
// be one label for each net.
fn all_members(alloc: Global, nets: &[u32], labels: &[u32]) -> Result<Vec<Items<u32>>, AllocError>
    requires { length labels.now ≡ length nets.now }
    ensures { IfOk result
        (λ lists. lists.items
        ≡ map (members nets.now labels.now) (range_with_len 0 (length labels.now))) }
{
    let mut lists = blank(alloc, labels.len())?;
    for i in 0..nets.len() {
        note(&mut lists, labels[i] as usize, nets[i])?;
    }
    Ok(lists)
}

// Adds these nets as a group if there are two or more. They must be in ascending order.
fn push_group(groups: &mut Vec<Group>, nets: Vec<u32>) -> Result<(), AllocError>
    requires { Rise nets.items }
    ensures { OnOk result (groups.new.items ≡ groups.old.items ++ where_several nets.items) }
{
    if nets.len() >= 2 {
        groups.push(Group::of(nets))?;
    }
    Ok(())
}

// Returns the groups among these lists of nets: the lists with two or more nets. Each list must be in ascending order.
fn groups_among(alloc: Global, lists: Vec<Items<u32>>) -> Result<Vec<Group>, AllocError>
    requires { All Rise lists.items }
    ensures { IfOk result (λ groups. groups.items ≡ flat_map where_several lists.items) }
{
    let mut groups = Vec::new(alloc);
    for list in lists {
        push_group(&mut groups, list.into_vec())?;
    }
    Ok(groups)
}

// Returns the groups of nets with equal labels. The label of a net is the place of a net in `nets`. Any other
// label is ignored. The nets must be in ascending order, and there must be one label for each net.
fn groups_by(alloc: Global, nets: &[u32], labels: &[u32]) -> Result<Vec<Group>, AllocError>
    requires rise { Rise nets.now }
    requires labels { length labels.now ≡ length nets.now }
    ensures { IfOk result (λ groups. groups.items ≡ groups_by nets.now labels.now) }
{
    groups_among(alloc, all_members(alloc, nets, labels)?)
}

/// Returns the set of groups of walk nets that explains a log of the walking test, or `None` if and only if no set does. There is at most
/// one such set. Its groups are in the order of their lowest nets. The walk must be made for the board. The log must have a row for each
/// walk net, and each row must be as long as a data scan. The nets of the groups are nets of the board.
///
/// A set of groups explains the log if every run of the test, with the Or shorts of these groups and no other fault, gives each compared
/// bit of the log. The log is read once, row by row, many bits at a time. Forming the groups takes time in proportion to the number of
/// nets.
pub fn groups(
    alloc: Global,
    board: &Board,
    walk: &Walk,
    log: &Log,
) -> Result<Option<Vec<Group>>, AllocError>
    requires walk { IsWalkOf board.now walk.now }
    requires rows { length log.now ≡ length walk.now.nets }
    requires bits { All (λ row. length row ≡ data_bits board.now) log.now }
    ensures found { IfOk result
        (λ found. AreFound board.now log.now (option_map (λ groups. groups.items) found)) }
    ensures named { IfOk result
        (λ found. AreNamed board.now (option_map (λ groups. groups.items) found)) }
{
    let _rules = board.raw();
    walk_safe();
    logs_by_rows();
    rows_compared();
    scans_in_turn();
    let tables = &walk.tables;
    if tables.plan.pass_count() == 0 {
        return Ok(Some(Vec::new(alloc)));
    }
    let nets = tables.nets.as_slice();
    let cells = tables.cells.as_slice();
    let logged = WalkLog::of(alloc, log, cells, board.dr_bits())?;
    match shown_labels(alloc, &logged)? {
        None => Ok(None),
        Some(labels) => Ok(Some(groups_by(alloc, nets, &labels)?)),
    }
}
