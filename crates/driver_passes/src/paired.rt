// Finds paired nets, and the two tested drivers that pair them. Two nets are paired if one safe setting
// enables a tested driver of each. A control is useful if it is safe alone and enables a tested driver.
ghost use Rattle.std.specs.Prelude.{◌≡◌, ◌<◌, ◌≤◌, ◌+◌, ◌*◌, ◌/◌, ℕ, false, find, length, All, IfSome, MatchOption};
ghost use Rattle.board_defs.specs.Passes.{first_pair};
ghost use Rattle.net_classes.specs.Pairs.{AreWordBits, drivers_at, fit};
ghost use Rattle.net_classes.specs.inner.Pairs.{IsUsefulDriver};
ghost use Rattle.driver_passes.specs.inner.NumberSets.{IsFirstNumber};
ghost use Rattle.driver_passes.specs.inner.Pairs.{IsUsefulPair, is_wanted};

use crate::number_set::{NumberSet, next_in};
use board_defs::Drive;
use net_classes::BoardClasses;

/// Returns the first driver in `drivers` that one safe setting enables together with `d`, or None if there is none. If
/// `d` or a driver in `drivers` has a control, that control must be useful.
fn first_fitting(board: &BoardClasses<'_>, d: Drive, drivers: &[Drive]) -> Option<Drive>
    requires driver { IsUsefulDriver board.now d }
    requires drivers { All (IsUsefulDriver board.now) drivers.now }
    ensures found { result ≡ find (fit board.now d) drivers.now }
    ensures useful { IfSome result (λ e. IsUsefulDriver board.now e) }
{
    for e in drivers {
        if board.fit(d, *e) {
            return Some(*e);
        }
    }
    None
}

/// Returns the first pair of tested drivers, one of net `a` and one of net `b`, that one safe setting enables together.
/// Returns None if there is no such pair.
pub fn first_pair(board: &BoardClasses<'_>, a: usize, b: usize) -> Option<(Drive, Drive)>
    ensures found { result
        ≡ first_pair board.now (drivers_at board.now a) (drivers_at board.now b) }
    ensures useful { IfSome result (λ pair. IsUsefulPair board.now pair) }
{
    let drivers = board.tested_drivers(a);
    let others = board.tested_drivers(b);
    for d in drivers {
        if let Some(e) = first_fitting(board, *d, others) {
            return Some((*d, e));
        }
    }
    None
}

/// Finds the nets that are in `left` and paired with net `a`. Returns word `net / 64` of the set of these nets.
fn wanted_word(board: &BoardClasses<'_>, left: &NumberSet, a: usize, net: usize) -> u64
    ensures { AreWordBits (is_wanted board.now left.now a) (net / 64) result }
{
    let word = left.word(net / 64);
    if word == 0 {
        return 0;
    }
    let paired = board.paired_word(a, net / 64);
    word & paired
}

/// Returns the first net from `from` on that is in `left` and paired with net `a`, or None if there is none.
pub fn next_wanted(
    board: &BoardClasses<'_>,
    left: &NumberSet,
    a: usize,
    from: usize,
) -> Option<usize>
    ensures next { MatchOption result
        ((n : ℕ) → from ≤ n → n < length board.now.nets →
        is_wanted board.now left.now a n ≡ false)
        (λ b. IsFirstNumber (is_wanted board.now left.now a) from b) }
    ensures within { IfSome result (λ b. b < length board.now.nets) }
{
    let nets = board.net_count();
    let mut net = from;
    while net < nets {
        let word = wanted_word(board, left, a, net);
        if let Some(b) = next_in(word, net) {
            return Some(b);
        }
        net = 64 * (net / 64 + 1);
    }
    None
}
