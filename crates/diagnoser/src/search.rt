// The search for the single faults that explain a log. It is cut into pieces, which run side by side.
ghost use Rattle.std.specs.Prelude.{◌≡◌, ◌↔◌, ◌+◌, ◌<◌, ◌≤◌, true, length, IsTrue, IfOk, IfSome};
ghost use Rattle.std.specs.Option.{option_to_list};
ghost use Rattle.board_defs.specs.Faults.{IsSingle};
ghost use Rattle.tap_defs.specs.board.Explaining.{Explains};
ghost use Rattle.fault_sim.specs.Kept.{IsLogOfTest};
ghost use Rattle.fault_sim.specs.Places.{IsUniverse, fault_at, observes_fault, where_observed};
ghost use Rattle.fault_sim.specs.Planned.{logged_board};
ghost use Rattle.fault_sim.specs.Suspects.{AreSuspects};
ghost use Rattle.diagnoser.specs.inner.Search.{AreFoundBetween};

use crate::entered::Entered;
use board_defs::Single;
use board_defs::law::passes_kept;
use bt_base::Gate;
use fault_sim::{ComparedLog, Suspects, TellingNet, TestUniverse, Universe};
use lists::push_some;
use response_log::Log;
use side_by_side::{Piece, Workers, in_pieces};
use std::alloc::{AllocError, Global};
use std::marker::Model;
use std::thread::Threads;

/// A search for the single faults that explain a log: the log with its test, and the candidates. `universe` numbers the possible single
/// faults of the board. The number of a fault is its place. The candidates, `suspects`, are the places of the faults that may explain the
/// log. `telling` is the first net that has an unexpected bit in the log, with the first pass in which the net has one. It is `None` if no
/// net has one.
#[derive(Drop)]
pub struct Search<'a> {
    compared: ComparedLog<'a>,
    telling: Option<TellingNet<'a>>,
    universe: &'a Universe,
    suspects: Suspects,
}

impl<'a> Model for Search<'a> {
    ghost use Rattle.diagnoser.specs.inner.Search.{SearchedLog, searched_log, IsSearch};

    ghost Value = { SearchedLog };

    ghost view = { λ a. searched_log a.compared a.universe.now a.suspects };

    ghost invariant = { λ a. IsSearch a.compared a.telling a.universe.now a.suspects };
}

impl<'a> Search<'a> {
    /// Compares `log` with the expected bits, and finds the candidates. `log` must be a log of the test: it must have the plan's rows, each
    /// as long as a data scan.
    pub fn new(
        alloc: Global,
        test: &'a TestUniverse<'a>,
        log: &'a Log,
    ) -> Result<Search<'a>, AllocError>
        requires { IsLogOfTest test.now log.now }
        ensures { IfOk result (λ search. search.logged ≡ logged_board test.now log.now) }
    {
        let universe = test.universe();
        let compared = test.test().with_log(log).compared(alloc)?;
        let suspects = compared.suspects(alloc, universe)?;
        let telling = compared.telling_net();
        Ok(Search {
            compared,
            telling,
            universe,
            suspects,
        })
    }

    /// Returns the log with its test, compared with the expected bits.
    pub fn compared(&self) -> &ComparedLog<'a>
        ensures { result.now ≡ self.now.logged }
    {
        &self.compared
    }

    // Returns the universe of the board.
    fn universe(&self) -> &Universe
        ensures { IsUniverse self.now.logged.test.board result.now }
    {
        self.universe
    }

    /// Returns the candidates, as places of the universe.
    pub fn suspects(&self) -> &Suspects
        ensures value { result.now ≡ self.now.suspects }
        ensures suspects { AreSuspects self.now.logged.test.board self.now.logged.test.plan
            self.now.universe self.now.logged.log self.now.suspects }
    {
        &self.suspects
    }

    // Returns whether `telling` is a net and this net rules the fault out. A single fault of the board that
    // is ruled out does not explain the log.
    fn is_ruled_out(&self, fault: Single) -> bool
        ensures { result ≡ true → IsSingle self.now.logged.test.board fault
            → Explains self.now.logged.test.board fault self.now.logged.log → ⊥ }
    {
        match &self.telling {
            None => false,
            Some(net) => net.rules_out(fault),
        }
    }

    // Returns the fault at a place, or `None` if the board does not have the place. A place of two nets that
    // no pass observes together has no fault, but this function then returns the short of the two nets.
    // `near` speeds up the look-up, as in `Universe::candidate`.
    fn candidate(&self, place: u64, near: &mut usize) -> Option<Single>
        ensures place { fault_at self.now.logged.test.board place
            ≡ where_observed self.now.logged.test.plan result }
        ensures single { IfSome result
            (λ fault. observes_fault self.now.logged.test.plan fault ≡ true
            → IsSingle self.now.logged.test.board fault) }
    {
        let logged = self.compared().logged();
        let _plan = logged.plan();
        let _rules = logged.board().raw();
        passes_kept();
        self.universe().candidate(place, near)
    }

    // Returns whether some pass observes all nets of a candidate's fault and the fault explains the log. If some pass observes all its
    // nets, the fault must be a single fault of the board. The telling net is asked first, since it rules out most shorts. `_entered` shows
    // that the gate was entered, so no candidate is tried before that.
    fn explains(&self, fault: Single, _entered: &Entered) -> bool
        requires { observes_fault self.now.logged.test.plan fault ≡ true
            → IsSingle self.now.logged.test.board fault }
        ensures { IsTrue result
            ↔ ((observes_fault self.now.logged.test.plan fault ≡ true)
            × Explains self.now.logged.test.board fault self.now.logged.log) }
    {
        if self.is_ruled_out(fault) {
            return false;
        }
        let compared = self.compared();
        if !compared.logged().test().observes(fault) {
            return false;
        }
        compared.matches(fault)
    }

    // Enters the gate for piece number `piece`, and then returns the fault of candidate `i` if this fault explains the log. `i` is counted
    // from 0 and must be below the number of candidates. `near` is as in `candidate`.
    fn try_candidate<G: Gate>(
        &self,
        piece: u32,
        i: u64,
        near: &mut usize,
        gate: &G,
    ) -> Option<Single>
        requires { i < length self.now.suspects }
        ensures { AreFoundBetween self.now i (i + 1) (option_to_list result) }
    {
        let place = self.suspects().place(i);
        let entered = Entered::by(gate, piece, place);
        let fault = self.candidate(place, near)?;
        if self.explains(fault, &entered) {
            Some(fault)
        } else {
            None
        }
    }

    // Tries the candidates of a piece in turn, and returns the faults that explain the log, in the order of the candidates. The piece must
    // be a range of the candidates.
    fn search_piece<G: Gate>(
        &self,
        alloc: Global,
        piece: Piece,
        gate: &G,
    ) -> Result<Vec<Single>, AllocError>
        requires order { piece.first ≤ piece.end }
        requires within { piece.end ≤ length self.now.suspects }
        ensures { IfOk result
            (λ faults. AreFoundBetween self.now piece.first piece.end faults.items) }
    {
        let mut faults = Vec::new(alloc);
        let mut near = 0;
        for i in piece.first..piece.end {
            let fault = self.try_candidate(piece.number, i, &mut near, gate);
            push_some(&mut faults, fault)?;
        }
        Ok(faults)
    }

    /// Tries all candidates and returns the faults that explain the log, in the order of the candidates. The candidates are cut into as
    /// many pieces as there are workers. The pieces run side by side.
    pub fn faults<R: Threads + Sync, G: Gate>(
        &self,
        rt: &R,
        alloc: Global,
        workers: Workers,
        gate: &G,
    ) -> Result<Vec<Single>, AllocError>
        ensures { IfOk result
            (λ faults. AreFoundBetween self.now 0 (length self.now.suspects) faults.items) }
    {
        let count = self.suspects().count();
        let find = move |piece: Piece| -> Result<Vec<Single>, AllocError>
            requires { (piece.first ≤ piece.end) × (piece.end ≤ length self.now.suspects) }
            ensures { IfOk result
                (λ faults. AreFoundBetween self.entry.now piece.first piece.end faults.items) }
        { self.search_piece(alloc, piece, gate) };
        in_pieces(rt, alloc, count, workers.number(), &find)
    }
}
