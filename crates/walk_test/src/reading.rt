// Reads the rows of a log in order. Finds, for each compared position, the first row in which the position reads 1.
ghost use Rattle.std.specs.Prelude.{◌≡◌, ℕ, ◌<◌, nat_lt, length, map, slice_index_or, ◌↔◌, IsTrue, MatchBool};
ghost use Rattle.std.specs.Bool.{OnFalse, OnTrue};
ghost use Rattle.bt_bits.specs.Hex.{digit_count};
ghost use Rattle.walk_test.specs.inner.Digits.{IsFresh, IsMarked};
ghost use Rattle.walk_test.specs.inner.Reading.{label_of, AreRead, ReadTheSame, AreStarted, StartsGroup, ShowsLabels};

use crate::digits::MaskedRow;
use crate::labels::{first_of, row_at};
use crate::walk_log::WalkLog;

// Notes row `j` in `firsts` for each compared position that reads 1 in this row. Returns whether none of these
// positions had a row before. `firsts` must have an item for each position of the row, which is `none` for a position
// without a row. If the result is false, some of `firsts` may have changed.
fn mark_row(firsts: &mut [u32], row: &MaskedRow<'_>, j: u32, none: u32) -> bool
    requires { length row.now.digits.now ≡ digit_count (length firsts.old) }
    ensures fresh { IsTrue result
        ↔ IsFresh row.now.digits.now row.now.mask.now none firsts.old (length firsts.old) }
    ensures marked { OnTrue result
        (IsMarked row.now.digits.now row.now.mask.now j none firsts.old firsts.new
        (length firsts.old)) }
{
    let mut at = 0;
    while at < firsts.len() {
        if row.is_one(at) {
            if firsts[at] != none {
                return false;
            }
            firsts[at] = j;
        }
        at = row.position_after(at);
    }
    true
}

// Returns whether a group starts in row `j` of the log. A group starts in a row if the nets that read 1 in this row
// read no 1 in an earlier row: position `at` is compared and reads 1, and no compared position that reads 1 in row `j`
// has a row in `firsts` yet. If so, notes row `j` in `firsts` for all these positions. `j` must be a row of the log.
// `firsts` must have an item for each position, which is `none` for a position without a row.
fn start_group(log: &WalkLog<'_>, firsts: &mut [u32], at: u32, j: u32, none: u32) -> bool
    requires row { j < length log.now.log }
    requires firsts { length firsts.old ≡ length log.now.mask }
    ensures starts { IsTrue result ↔ StartsGroup log.now.log log.now.mask j at none firsts.old }
    ensures started { OnTrue result
        (AreStarted log.now.log log.now.mask j none firsts.old firsts.new) }
{
    let row = log.row(j);
    row.is_one(at as usize) && mark_row(firsts, &row, j, none)
}

// Returns whether two rows of the log read the same at each compared position. `j` and `other` must be rows of the log.
fn are_same_rows(log: &WalkLog<'_>, j: u32, other: u32) -> bool
    requires row { j < length log.now.log }
    requires other { other < length log.now.log }
    ensures { IsTrue result ↔ ReadTheSame log.now.log log.now.mask j other }
{
    log.row(j).is_alike(log.row(other).digits)
}

// Reads row `j` of the log, in which the net whose first compared position is `at` carries 1. Returns whether
// the row agrees with the earlier rows. If the position reads 1 in an earlier row, row `j` must read the same
// as that row. Otherwise a group must start in row `j`, and each compared position that reads 1 in this row
// then has row `j` in `firsts`. `j` must be a row of the log. `firsts` must have an item for each position,
// which is `none` for a position without a row.
fn read_row(log: &WalkLog<'_>, firsts: &mut [u32], at: u32, j: u32, none: u32) -> bool
    requires row { j < length log.now.log }
    requires firsts { length firsts.old ≡ length log.now.mask }
    ensures again { OnTrue (nat_lt (slice_index_or firsts.old at none) j)
        ((IsTrue result
        ↔ ReadTheSame log.now.log log.now.mask j (slice_index_or firsts.old at none))
        × (firsts.new ≡ firsts.old)) }
    ensures starts { OnFalse (nat_lt (slice_index_or firsts.old at none) j)
        ((IsTrue result ↔ StartsGroup log.now.log log.now.mask j at none firsts.old)
        × OnTrue result (AreStarted log.now.log log.now.mask j none firsts.old firsts.new)) }
{
    let first = row_at(firsts, at, none);
    if first < j {
        are_same_rows(log, j, first)
    } else {
        start_group(log, firsts, at, j, none)
    }
}

/// Reads the rows of all nets, in net order. Returns whether each row reads what the earlier rows imply. If so,
/// `firsts` then has, for each compared position, the first row in which it reads 1, or the number of rows if there is
/// no such row. Before the call, `firsts` must have an item for each position, and each item must be the number of
/// rows.
pub fn read_rows(log: &WalkLog<'_>, firsts: &mut [u32]) -> bool
    requires firsts { length firsts.old ≡ length log.now.mask }
    requires blank { (at : ℕ)
        → slice_index_or firsts.old at (length log.now.log) ≡ length log.now.log }
    ensures { MatchBool result
        (AreRead log.now.log log.now.mask log.now.nets (length log.now.log) (length log.now.nets)
        firsts.new)
        (ShowsLabels log.now.log (map (label_of log.now.log) log.now.nets) log.now.nets → ⊥) }
{
    log.laws();
    let none = log.rows();
    let nets = log.nets();
    for j in 0..nets.len() {
        if !read_row(log, firsts, first_of(&nets[j]), j as u32, none) {
            return false;
        }
    }
    true
}
