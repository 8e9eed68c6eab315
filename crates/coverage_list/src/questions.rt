// Answers the questions that the coverage list depends on: how many nets are covered, which pins are untested, and
// which nets may be in a pair that is not paired. The classes of a board say what its nets, pins and controls can do in
// safe settings.
ghost use Rattle.std.specs.Prelude.{◌≡◌, ◌<◌, [], length, Some, true, false, slice_get};
ghost use Rattle.board_defs.specs.Pins.{IsOnBoard};
ghost use Rattle.board_defs.specs.Decided.{is_covered};
ghost use Rattle.net_classes.specs.inner.Kept.{HoldsOfNet};
ghost use Rattle.coverage_list.specs.CoverText.{covered, is_untested};
ghost use Rattle.coverage_list.specs.inner.CoverForms.{net_pairs};

use crate::lines::PinUse;
use board_defs::{Net, PinRef};
use net_classes::BoardClasses;

/// Returns net number `n`, which must exist.
pub fn net_at<'a>(board: &BoardClasses<'a>, n: u32) -> &'a Net
    requires { n < length board.now.nets }
    ensures { slice_get board.now.nets n ≡ Some result.now }
{
    &board.raw().nets.as_slice()[n as usize]
}

/// Returns the number of pins of `net`, which must be net number `n`.
pub fn pin_count(board: &BoardClasses<'_>, net: &Net, n: u32) -> u32
    requires { slice_get board.now.nets n ≡ Some net.now }
    ensures { result ≡ length net.now.pins }
{
    let _rules = board.raw();
    net.pins.len() as u32
}

/// Returns the number of covered nets.
pub fn covered_count(board: &BoardClasses<'_>) -> u32
    ensures { result ≡ length (covered board.now) }
{
    let mut covered = 0;
    for n in 0..board.net_count() as u32 {
        if board.is_covered(n) {
            covered += 1;
        }
    }
    covered
}

/// Returns whether the pin has this role, driver or receiver, and is not tested in it. The pin must be on the board.
pub fn is_untested(board: &BoardClasses<'_>, pin_use: PinUse, pin: PinRef) -> bool
    requires { IsOnBoard board.now pin }
    ensures { HoldsOfNet board.now pin.net
        (λ net. result ≡ is_untested board.now pin_use net pin.place) }
{
    let class = board.pin(pin);
    match pin_use {
        PinUse::Driver => class.drives && !class.driver_tested,
        PinUse::Receiver => class.receives && !class.receiver_tested,
    }
}

/// Returns whether the list may have a line for the pair of this net and a later net. If the result is false, the list
/// has no such line. The result is false if the net is not covered, or if one of its tested drivers alone shows that
/// every covered net is paired with it. If the result is true, the net is covered. The board must have the net.
pub fn may_be_unpaired(board: &BoardClasses<'_>, n: u32) -> bool
    requires { n < length board.now.nets }
    ensures free { result ≡ false → HoldsOfNet board.now n (λ net. net_pairs board.now n net ≡ []) }
    ensures covered { result ≡ true
        → HoldsOfNet board.now n (λ net. is_covered board.now net ≡ true) }
{
    board.is_covered(n) && !board.is_paired_with_all(n as usize)
}
