//! Calls of `net_classes` that answer its six questions about the nets, pins and controls of a board. The classes of a board say what its
//! nets, pins and controls can do in safe settings. In each call, `classes` must be the classes of the board. A setting is a set of enabled
//! controls, and a safe setting enables at most one driver of each net, among other rules.
ghost use Rattle.std.specs.Prelude.{◌≡◌, ◌≢◌, ◌↔◌, ◌<◌, length, IsTrue, MatchOption};
ghost use Rattle.board_defs.specs.Pins.{IsCell, IsOnBoard};
ghost use Rattle.board_defs.specs.Coverage.{AreTogether, ArePaired, IsCovered, IsReason, IsTestedDriver, IsTestedReceiver, IsUseful};
ghost use Rattle.board_defs.specs.Decided.{are_paired, are_together, is_tested_driver, is_tested_receiver, is_useful, reason_of};
ghost use Rattle.net_classes.specs.Kept.{AreClasses};
ghost use Rattle.net_classes.specs.inner.Kept.{HoldsOfNet};

use board_defs::{Board, Ctl, PinRef, Reason};
use net_classes::Classes;

/// Returns the reason why no safe setting observes the net: the first that applies, in the order of `Reason`. Returns None if some safe
/// setting observes the net. The board must have the net.
pub fn reason(classes: &Classes, board: &Board, net: u32) -> Option<Reason>
    requires classes { AreClasses board.now classes.now }
    requires net { net < length board.now.nets }
    ensures decided { HoldsOfNet board.now net (λ found. result ≡ reason_of board.now found) }
    ensures meant { HoldsOfNet board.now net
        (λ found. MatchOption result (IsCovered board.now net)
        (λ reason. IsReason board.now net found reason)) }
{
    classes.reason(board, net)
}

/// Returns whether the control is useful: the setting with this control alone is safe, and the control enables a driver that some safe
/// setting tests. The board must have the control's cell.
pub fn usable(classes: &Classes, board: &Board, c: Ctl) -> bool
    requires classes { AreClasses board.now classes.now }
    requires cell { IsCell board.now c }
    ensures decided { result ≡ is_useful board.now c }
    ensures meant { IsTrue result ↔ IsUseful board.now c }
{
    classes.usable(board, c)
}

/// Returns whether the setting with these two controls alone is safe. The board must have the cells of both controls.
pub fn together(classes: &Classes, board: &Board, a: Ctl, b: Ctl) -> bool
    requires classes { AreClasses board.now classes.now }
    requires first { IsCell board.now a }
    requires second { IsCell board.now b }
    ensures decided { result ≡ are_together board.now a b }
    ensures meant { IsTrue result ↔ AreTogether board.now a b }
{
    classes.together(board, a, b)
}

/// Returns whether some safe setting enables the pin's driver and observes its net by this driver. The board must have the pin.
pub fn driver_tested(classes: &Classes, board: &Board, pin: PinRef) -> bool
    requires classes { AreClasses board.now classes.now }
    requires pin { IsOnBoard board.now pin }
    ensures decided { HoldsOfNet board.now pin.net
        (λ net. result ≡ is_tested_driver board.now net pin.place) }
    ensures meant { IsTrue result ↔ IsTestedDriver board.now pin.net pin.place }
{
    classes.driver_tested(board, pin)
}

/// Returns whether the pin is a receiver whose net some safe setting observes by a driver on another pin. The board must have the pin.
pub fn receiver_tested(classes: &Classes, board: &Board, pin: PinRef) -> bool
    requires classes { AreClasses board.now classes.now }
    requires pin { IsOnBoard board.now pin }
    ensures decided { HoldsOfNet board.now pin.net
        (λ net. result ≡ is_tested_receiver board.now net pin.place) }
    ensures meant { IsTrue result ↔ IsTestedReceiver board.now pin.net pin.place }
{
    classes.receiver_tested(board, pin)
}

/// Returns whether the two nets differ and one safe setting observes both. The board must have both nets.
pub fn paired(classes: &Classes, board: &Board, a: u32, b: u32) -> bool
    requires classes { AreClasses board.now classes.now }
    requires first { a < length board.now.nets }
    requires second { b < length board.now.nets }
    ensures decided { a ≢ b
        → HoldsOfNet board.now a
        (λ one. HoldsOfNet board.now b (λ two. result ≡ are_paired board.now one two)) }
    ensures meant { IsTrue result ↔ ArePaired board.now a b }
{
    classes.paired(board, a, b)
}
