// A net that differs in a log, and the first pass in which the net shows an unexpected bit.
ghost use Rattle.std.specs.Prelude.{◌≡◌, IfSome, true};
ghost use Rattle.board_defs.specs.Faults.{IsSingle};
ghost use Rattle.tap_defs.specs.board.Explaining.{Explains};
ghost use Rattle.fault_sim.specs.Planned.{net_in_pass};
ghost use Rattle.fault_sim.specs.inner.Telling.{IsWordOn};

use crate::differing::ComparedLog;
use crate::passes::LoggedPass;
use crate::shown::ShownWords;
use crate::words::{FedWords, short_word};
use board_defs::{Single, law};
use std::marker::Model;
use tap_defs::board_law;

/// A net in a pass of a log, with the bits that the pass gives the net and the bits that the net's cells show. These bits are computed once
/// and used for every fault that is tried. The model is the pass and the net.
#[derive(Drop)]
pub struct TellingNet<'a> {
    pass: LoggedPass<'a>,
    net: u32,
    code: u32,
    fed: FedWords,
    shown: ShownWords,
}

impl<'a> Model for TellingNet<'a> {
    ghost use Rattle.fault_sim.specs.Planned.{NetInPass, net_in_pass};
    ghost use Rattle.fault_sim.specs.inner.Telling.{IsTellingNet};

    ghost Value = { NetInPass };

    ghost view = { λ a. net_in_pass a.pass a.net };

    ghost invariant = { λ a. IsTellingNet (net_in_pass a.pass a.net) a.code a.fed a.shown };
}

impl<'a> TellingNet<'a> {
    // Returns a net in a pass of a log.
    fn of(pass: LoggedPass<'a>, net: u32) -> TellingNet<'a>
        ensures { result ≡ net_in_pass pass.entry net }
    {
        let code = pass.code(net);
        let fed = pass.fed_words(net);
        let shown = pass.shown(net);
        TellingNet {
            pass,
            net,
            code,
            fed,
            shown,
        }
    }

    // Returns the bits that `fault` gives this net in the rows of the pass, as a word, if `fault` is a short of this
    // net. Returns `None` for any other fault.
    fn short_word(&self, fault: Single) -> Option<u32>
        ensures { IfSome result (IsWordOn self.now fault) }
    {
        match fault {
            Single::StuckNet { .. } => None,
            Single::OpenPin { .. } => None,
            Single::Short { a, b, kind } => {
                if a == self.net {
                    Some(short_word(kind, self.fed, self.pass.fed_words(b), self.code))
                } else if b == self.net {
                    Some(short_word(kind, self.pass.fed_words(a), self.fed, self.code))
                } else {
                    None
                }
            }
        }
    }

    /// Returns whether this net rules out `fault`. A single fault of the board that is ruled out does not explain the log. Only shorts of
    /// this net can be ruled out.
    pub fn rules_out(&self, fault: Single) -> bool
        ensures { result ≡ true → IsSingle self.now.pass.logged.test.board fault
            → Explains self.now.pass.logged.test.board fault self.now.pass.logged.log → ⊥ }
    {
        let _rules = self.pass.board().raw();
        self.pass.laws();
        law::passes_kept();
        board_law::rows_compared();
        board_law::singles_respond();
        match self.short_word(fault) {
            None => false,
            Some(word) => !self.shown.agree_with(word),
        }
    }
}

impl<'a> ComparedLog<'a> {
    /// Returns the first net that differs in the log, in the first pass in which this net does not have the expected
    /// bits. Returns `None` if no net differs. The result rules out nearly every short of the net that does not explain
    /// the log.
    pub fn telling_net(&self) -> Option<TellingNet<'a>>
        ensures { IfSome result (λ telling. telling.pass.logged ≡ self.now) }
    {
        let net = *self.nets().first()?;
        let logged = self.logged();
        for x in 0..logged.pass_count() {
            let pass = logged.pass(x);
            if !pass.shows(None, net) {
                return Some(TellingNet::of(pass, net));
            }
        }
        None
    }
}
