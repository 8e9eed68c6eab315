// A board with its classes, which answers questions about its nets, pins and controls. The classes say what these can
// do in safe settings.
ghost use Rattle.std.specs.Prelude.{◌≡◌, ◌≢◌, ◌↔◌, ◌<◌, ◌≤◌, ◌||◌, ℕ, Some, false, true, not, length, slice_get, All, IsTrue, MatchOption};
ghost use Rattle.board_defs.specs.BoardRules.{IsBoard};
ghost use Rattle.board_defs.specs.Limits.{most_nets};
ghost use Rattle.board_defs.specs.Pins.{IsCell, IsOnBoard};
ghost use Rattle.board_defs.specs.Settings.{holds, same_ctl};
ghost use Rattle.board_defs.specs.Coverage.{AreTogether, ArePaired, IsCovered, IsReason, IsTestedDriver, IsTestedReceiver, IsUseful};
ghost use Rattle.board_defs.specs.Decided.{are_paired, are_together, is_covered, is_tested_driver, is_tested_receiver, is_useful, reason_of, share_net};
ghost use Rattle.board_defs.specs.Passes.{useful_controls};
ghost use Rattle.net_classes.specs.Pairs.{AreWordBits, drivers_at, fit, pairs_with, unpaired_with};
ghost use Rattle.net_classes.specs.inner.Pairs.{IsByCell, IsUsefulDriver};
ghost use Rattle.net_classes.specs.Laws.{KeepsLaws};
ghost use Rattle.net_classes.specs.Kept.{AreClasses};
ghost use Rattle.net_facts.specs.Kept.{control_class_of, net_class_of, pin_class_of, shared_nets};
ghost use Rattle.net_classes.specs.inner.Kept.{HoldsOfNet};

use crate::classes::Classes;
use crate::known::drivers_in;
use crate::words::has_bit;
use board_defs::{Board, Ctl, Drive, PinRef, RawBoard, Reason, law, place_in};
use net_facts::{ControlClass, NetClass, PinClass, meet};
use std::marker::Model;

/// A board with its classes. It answers questions about its nets, pins and controls without allocating memory. Its
/// value in contracts is the board.
#[derive(Drop)]
pub struct BoardClasses<'a> {
    board: &'a Board,
    classes: &'a Classes,
}

impl<'a> Model for BoardClasses<'a> {
    ghost use Rattle.board_defs.specs.declared.board.RawBoard.{RawBoard};
    ghost use Rattle.net_classes.specs.Kept.{AreClasses};

    ghost Value = { RawBoard };

    ghost view = { λ a. a.board.now };

    ghost invariant = { λ a. AreClasses a.board.now a.classes.now };
}

impl<'a> BoardClasses<'a> {
    /// Returns the board with these classes, which must be the board's own.
    pub fn of(board: &'a Board, classes: &'a Classes) -> BoardClasses<'a>
        requires { AreClasses board.now classes.now }
        ensures { result ≡ board.now }
    {
        BoardClasses { board, classes }
    }

    /// Returns the record of the board. The record meets the rules of boards.
    pub fn raw(&self) -> &'a RawBoard
        ensures value { result.now ≡ self.now }
        ensures rules { IsBoard self.now }
    {
        self.board.raw()
    }

    /// Does nothing. Its contract says that the board keeps the rules of boards, and that the laws about its
    /// passes and its terms hold.
    pub fn laws(&self)
        ensures { KeepsLaws self.now }
    {
        law::passes_kept();
        law::terms_decided();
        let _rules = self.board.raw();
    }

    /// Returns the number of nets of the board.
    pub fn net_count(&self) -> usize
        ensures value { result ≡ length self.now.nets }
        ensures most { result ≤ most_nets }
    {
        self.raw().nets.as_slice().len()
    }

    /// Returns the facts about the control, which must be a boundary cell of the board.
    fn control(&self, c: Ctl) -> &'a ControlClass
        requires { IsCell self.now c }
        ensures { result.now ≡ control_class_of self.now c }
    {
        &self.classes.controls[c.part as usize][c.cell as usize]
    }

    /// Returns the facts about the net that depend on safe settings. The board must have a net with this number.
    fn net(&self, net: u32) -> &'a NetClass
        requires { net < length self.now.nets }
        ensures { HoldsOfNet self.now net (λ found. result.now ≡ net_class_of self.now found) }
    {
        &self.classes.nets[net as usize]
    }

    /// Returns the roles of the pin on its net, and the roles in which some safe setting tests it. The pin must be on
    /// the board.
    pub fn pin(&self, pin: PinRef) -> PinClass
        requires { IsOnBoard self.now pin }
        ensures { HoldsOfNet self.now pin.net
            (λ net. result ≡ pin_class_of self.now net pin.place) }
    {
        self.net(pin.net).pins.as_slice()[pin.place as usize]
    }

    /// Returns the first reason why the net is not covered, or None if it is covered. The board must have a net with this
    /// number.
    pub fn reason(&self, net: u32) -> Option<Reason>
        requires { net < length self.now.nets }
        ensures { HoldsOfNet self.now net (λ found. result ≡ reason_of self.now found) }
    {
        self.net(net).reason
    }

    /// Returns whether the net is covered. The board must have a net with this number.
    pub fn is_covered(&self, net: u32) -> bool
        requires { net < length self.now.nets }
        ensures { HoldsOfNet self.now net (λ found. result ≡ is_covered self.now found) }
    {
        self.reason(net).is_none()
    }

    /// Returns how the tested drivers of the net are enabled, in pin order. There are none if no net has this number.
    pub fn tested_drivers(&self, net: usize) -> &'a [Drive]
        ensures drivers { result.now ≡ drivers_at self.now net }
        ensures useful { All (IsUsefulDriver self.now) result.now }
    {
        self.laws();
        drivers_in(&self.classes.nets, net)
    }

    /// Returns the useful controls, in control order.
    pub fn useful(&self) -> &'a [Ctl]
        ensures controls { result.now ≡ useful_controls self.now }
        ensures cells { All (IsCell self.now) result.now }
    {
        &self.classes.useful
    }

    /// Returns the place of the control in the list of useful controls, or None if the control is not useful.
    pub fn place_of(&self, c: Ctl) -> Option<usize>
        ensures { MatchOption result (holds (useful_controls self.now) c ≡ false)
            (λ place. slice_get (useful_controls self.now) place ≡ Some c) }
    {
        self.laws();
        place_in(self.useful(), c)
    }

    /// Returns the numbers of the nets with a driver of this control and a driver of another control, in net order. The
    /// control must be a boundary cell of the board.
    pub fn shared_nets(&self, c: Ctl) -> &'a [u32]
        requires { IsCell self.now c }
        ensures { result.now ≡ shared_nets self.now c }
    {
        self.classes.shared[c.part as usize][c.cell as usize].as_slice()
    }

    fn are_apart(&self, a: Ctl, b: Ctl) -> bool
        requires first { IsCell self.now a }
        requires second { IsCell self.now b }
        ensures { result ≡ (same_ctl a b || not (share_net self.now a b)) }
    {
        if a.is_same(b) {
            return true;
        }
        !meet(self.shared_nets(a), self.shared_nets(b))
    }

    fn are_together(&self, a: Ctl, b: Ctl) -> bool
        requires first { IsCell self.now a }
        requires second { IsCell self.now b }
        ensures { result ≡ are_together self.now a b }
    {
        let first = self.control(a).safe;
        let second = self.control(b).safe;
        first && second && self.are_apart(a, b)
    }

    /// Returns whether one safe setting enables both drivers. If a driver has a control, the control must be a boundary
    /// cell of the board.
    pub fn fit(&self, d: Drive, e: Drive) -> bool
        requires first { IsByCell self.now d }
        requires second { IsByCell self.now e }
        ensures { result ≡ fit self.now d e }
    {
        match (d, e) {
            (Drive::OneSided, _) => false,
            (Drive::AlwaysOn, Drive::AlwaysOn) => true,
            (Drive::AlwaysOn, Drive::OneSided) => false,
            (Drive::AlwaysOn, Drive::By(c)) => self.control(c).safe,
            (Drive::By(_), Drive::OneSided) => false,
            (Drive::By(c), Drive::AlwaysOn) => self.control(c).safe,
            (Drive::By(c), Drive::By(d)) => self.are_together(c, d),
        }
    }

    /// Returns 64 bits that say which nets are paired with `net`. Bit `i` is 1 if net `64 * word + i` is paired with
    /// `net`. The bit of `net` itself is set if `net` is covered. A bit past the last net is 0.
    pub fn paired_word(&self, net: usize, word: usize) -> u64
        ensures { AreWordBits (pairs_with self.now net) word result }
    {
        let _rules = self.board.raw();
        let mut bits = 0;
        for d in self.tested_drivers(net) {
            bits |= self.classes.pairs.word(*d, word);
        }
        bits
    }

    /// Like `paired_word`, but bit `i` is 1 if net `64 * word + i` is covered and no safe setting observes it together
    /// with `net`.
    pub fn unpaired_word(&self, net: usize, word: usize) -> u64
        ensures { AreWordBits (unpaired_with self.now net) word result }
    {
        let covered = self.classes.pairs.word(Drive::AlwaysOn, word);
        covered & !self.paired_word(net, word)
    }

    /// Returns true if one tested driver of the net alone shows that every covered net is paired with the net. If the result is false,
    /// several drivers together may still show it.
    pub fn is_paired_with_all(&self, net: usize) -> bool
        ensures { result ≡ true → (other : ℕ) → unpaired_with self.now net other ≡ false }
    {
        let _rules = self.board.raw();
        for d in self.tested_drivers(net) {
            if self.classes.pairs.fits_all(*d) {
                return true;
            }
        }
        false
    }
}

// Six questions for callers that have a board and its classes. In each call, the classes must be those of the board,
// and the board must have the nets, pins and cells that the call names. Each contract also says what the answer means
// in terms of all safe settings. The crates above use `BoardClasses` and call none of these functions.
impl Classes {
    /// Returns the first reason why the net is not covered, or None if it is covered.
    pub fn reason(&self, board: &Board, net: u32) -> Option<Reason>
        requires classes { AreClasses board.now self.now }
        requires net { net < length board.now.nets }
        ensures decided { HoldsOfNet board.now net (λ found. result ≡ reason_of board.now found) }
        ensures meant { HoldsOfNet board.now net
            (λ found. MatchOption result (IsCovered board.now net)
            (λ reason. IsReason board.now net found reason)) }
    {
        law::terms_decided();
        let _rules = board.raw();
        BoardClasses::of(board, self).reason(net)
    }

    /// Returns whether the control is useful: the setting of this control alone is safe, and the control enables a
    /// tested driver.
    pub fn usable(&self, board: &Board, c: Ctl) -> bool
        requires classes { AreClasses board.now self.now }
        requires cell { IsCell board.now c }
        ensures decided { result ≡ is_useful board.now c }
        ensures meant { IsTrue result ↔ IsUseful board.now c }
    {
        law::terms_decided();
        let _rules = board.raw();
        BoardClasses::of(board, self).control(c).useful
    }

    /// Returns whether the setting of the two controls is safe.
    pub fn together(&self, board: &Board, a: Ctl, b: Ctl) -> bool
        requires classes { AreClasses board.now self.now }
        requires first { IsCell board.now a }
        requires second { IsCell board.now b }
        ensures decided { result ≡ are_together board.now a b }
        ensures meant { IsTrue result ↔ AreTogether board.now a b }
    {
        law::terms_decided();
        let _rules = board.raw();
        BoardClasses::of(board, self).are_together(a, b)
    }

    /// Returns whether the pin is a tested driver, that is, whether some safe setting observes the pin's net by this
    /// driver.
    pub fn driver_tested(&self, board: &Board, pin: PinRef) -> bool
        requires classes { AreClasses board.now self.now }
        requires pin { IsOnBoard board.now pin }
        ensures decided { HoldsOfNet board.now pin.net
            (λ net. result ≡ is_tested_driver board.now net pin.place) }
        ensures meant { IsTrue result ↔ IsTestedDriver board.now pin.net pin.place }
    {
        law::terms_decided();
        let _rules = board.raw();
        BoardClasses::of(board, self).pin(pin).driver_tested
    }

    /// Returns whether the pin is a tested receiver, that is, a receiver for which some safe setting observes the pin's
    /// net by a driver on another pin.
    pub fn receiver_tested(&self, board: &Board, pin: PinRef) -> bool
        requires classes { AreClasses board.now self.now }
        requires pin { IsOnBoard board.now pin }
        ensures decided { HoldsOfNet board.now pin.net
            (λ net. result ≡ is_tested_receiver board.now net pin.place) }
        ensures meant { IsTrue result ↔ IsTestedReceiver board.now pin.net pin.place }
    {
        law::terms_decided();
        let _rules = board.raw();
        BoardClasses::of(board, self).pin(pin).receiver_tested
    }

    /// Returns whether the two nets differ and one safe setting observes both.
    pub fn paired(&self, board: &Board, a: u32, b: u32) -> bool
        requires classes { AreClasses board.now self.now }
        requires first { a < length board.now.nets }
        requires second { b < length board.now.nets }
        ensures decided { a ≢ b
            → HoldsOfNet board.now a
            (λ one. HoldsOfNet board.now b (λ two. result ≡ are_paired board.now one two)) }
        ensures meant { IsTrue result ↔ ArePaired board.now a b }
    {
        law::terms_decided();
        let _rules = board.raw();
        let word = BoardClasses::of(board, self).paired_word(a as usize, (b / 64) as usize);
        a != b && has_bit(word, b)
    }
}
