// Finds nets whose lists of tested drivers are equal. A driver in such a list is given only by the way in which it is
// enabled (always, or by which control), so two different nets can have equal lists. A pass that enables a tested
// driver of one of two such nets also enables a tested driver of the other.
ghost use Rattle.std.specs.Prelude.{◌≡◌, ◌≤◌, ◌<◌, length, true, IfOk, IfSome};
ghost use Rattle.board_defs.specs.Passes.{useful_controls};
ghost use Rattle.driver_passes.specs.inner.Alike.{AreAlike};
ghost use Rattle.net_classes.specs.Pairs.{drivers_at};

use board_defs::Drive;
use net_classes::BoardClasses;
use std::alloc::{AllocError, Global};

fn are_same(drivers: &[Drive], others: &[Drive]) -> bool
    ensures { result ≡ true → drivers.now ≡ others.now }
{
    drivers == others
}

/// Returns the place of the first driver's control in the list of useful controls. Returns None if there is
/// no driver, or if the first driver has no useful control. A control is useful if it is safe alone and
/// enables a tested driver.
fn first_place(board: &BoardClasses<'_>, drivers: &[Drive]) -> Option<usize>
    ensures { IfSome result (λ i. i < length (useful_controls board.now)) }
{
    match drivers.first() {
        Some(Drive::By(c)) => board.place_of(*c),
        _ => None,
    }
}

/// Returns `other` if `other` comes before `net` and has an equal list of tested drivers, and otherwise `net`.
fn like_of(board: &BoardClasses<'_>, other: usize, net: usize) -> usize
    ensures within { result ≤ net }
    ensures alike { drivers_at board.now result ≡ drivers_at board.now net }
{
    if other >= net {
        return net;
    }
    if are_same(board.tested_drivers(other), board.tested_drivers(net)) {
        other
    } else {
        net
    }
}

/// Returns, for each net, an earlier net with an equal list of tested drivers, or the net itself. Compares a
/// net with at most one earlier net, and only if the first tested driver of the net has a control. The
/// earlier net is the latest one whose first tested driver has the same control, or net 0 if there is none.
pub fn likes_of(alloc: Global, board: &BoardClasses<'_>) -> Result<Vec<u32>, AllocError>
    ensures { IfOk result (λ likes. AreAlike board.now likes.items) }
{
    let mut likes = Vec::new(alloc);
    let mut latest = vec![in alloc; 0u32; board.useful().len()]?;
    for net in 0..board.net_count() {
        let mut other = net;
        if let Some(place) = first_place(board, board.tested_drivers(net)) {
            other = latest[place] as usize;
            latest[place] = net as u32;
        }
        likes.push(like_of(board, other, net) as u32)?;
    }
    Ok(likes)
}
