//! Laws of the walking test. Each law is the contract of a function that does nothing. The walk setting is
//! the first pass of the board's test without the controls of switching drivers. A switching driver is
//! enabled by its own cell, on an unguarded net that is pulled to the driver's disable value. A net is
//! guarded if, for example, it carries a supply.
ghost use Rattle.std.specs.Prelude.{ℕ, Bool, List, Option};
ghost use Rattle.board_defs.specs.declared.board.RawBoard.{RawBoard};
ghost use Rattle.board_defs.specs.BoardRules.{IsBoard};
ghost use Rattle.walk_test.specs.Groups.{AreFound};
ghost use Rattle.walk_test.specs.Laws.{WalkSafe, WalkKept, WalkHarmless, ShortsAreFaults, GroupsRespond, OneResponse, OneSet, ScansCounted};

use board_defs::law as board_law;
use tap_defs::board_law::{
    logs_by_rows, one_log, passes_harmless, rows_compared, scans_in_turn, walks_harmless,
};

/// The walk setting is safe, if the board has one.
pub fn walk_safe()
    ensures { WalkSafe }
{
    board_law::passes_kept();
}

/// The walk setting holds a control if and only if the first pass holds the control and no switching driver has this control.
pub fn walk_kept()
    ensures { WalkKept }
{}

/// The text of the walking test passes on the board without faults. Under every fault set, no two drivers conflict and
/// unused cells keep their safe values.
pub fn walk_harmless()
    ensures { WalkHarmless }
{
    walk_safe();
    walks_harmless();
    passes_harmless();
}

/// The count `count_walk_scans` of a board's walk is the number of scans of the board's walking test.
pub fn scans_counted()
    ensures { ScansCounted }
{}

/// The Or shorts of each set of groups are a fault set of the board. Each set of groups explains some log,
/// and any two logs that one set explains agree at every compared bit.
pub fn groups_respond()
    ensures faults { ShortsAreFaults }
    ensures some { GroupsRespond }
    ensures one { OneResponse }
{
    walk_safe();
    one_log();
    scans_in_turn();
}

/// At most one set of groups explains a log.
pub fn one_set()
    ensures { OneSet }
{
    walk_safe();
    logs_by_rows();
    rows_compared();
    scans_in_turn();
}

/// For each board and each log, either exactly one set of groups explains the log, or no set does.
pub fn logs_have_one_set()
    ensures some { (board : RawBoard) (log : List (List Bool)) → IsBoard board
        → (found : Option (List (List ℕ))) × AreFound board log found }
    ensures one { OneSet }
{
    walk_safe();
    logs_by_rows();
    rows_compared();
    scans_in_turn();
    one_set();
}
