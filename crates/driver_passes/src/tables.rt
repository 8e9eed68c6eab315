// A board with the tables from which its passes are made. A board's classes say what its nets, pins and
// controls can do in safe settings. A control is useful if it is safe alone and enables a tested driver.
ghost use Rattle.std.specs.Prelude.{◌≡◌, true, IfOk};
ghost use Rattle.board_defs.specs.Passes.{useful_controls};
ghost use Rattle.board_defs.specs.Settings.{holds};
ghost use Rattle.net_classes.specs.Laws.{KeepsLaws};
ghost use Rattle.net_classes.specs.Pairs.{drivers_at};
ghost use Rattle.driver_passes.specs.inner.Drafts.{setting_of};
ghost use Rattle.driver_passes.specs.inner.Sharers.{LosesApart};
ghost use Rattle.driver_passes.specs.inner.Shown.{AreShownBy};

use crate::alike::likes_of;
use crate::blocks::Blocks;
use crate::number_set::NumberSet;
use crate::sharers::{close_sharers, sharers_of};
use crate::tested::TestedNets;
use board_defs::Ctl;
use net_classes::BoardClasses;
use net_classes::law::nets_are_shared;
use std::alloc::{AllocError, Global};
use std::marker::Model;

/// A board with its classes and the tables from which its passes are made. Its value in contracts is the board.
#[derive(Drop)]
pub struct BoardTables<'a> {
    classes: BoardClasses<'a>,
    /// For each net, the useful controls that share the net with another control. Each of these controls is given by
    /// its place in the list of useful controls.
    sharers: Vec<Blocks>,
    tested_nets: TestedNets,
    /// For each net, an earlier net whose tested drivers are enabled in the same ways, or the net itself.
    likes: Vec<u32>,
}

impl<'a> Model for BoardTables<'a> {
    ghost use Rattle.board_defs.specs.declared.board.RawBoard.{RawBoard};
    ghost use Rattle.driver_passes.specs.inner.Alike.{AreAlike};
    ghost use Rattle.driver_passes.specs.inner.Sharers.{AreSharers};
    ghost use Rattle.driver_passes.specs.inner.Tested.{AreTestedNets};
    ghost use Rattle.net_classes.specs.Laws.{KeepsLaws};

    ghost Value = { RawBoard };

    ghost view = { λ a. a.classes };

    ghost invariant = { λ a. AreSharers a.classes a.sharers.items
        × AreTestedNets a.classes a.tested_nets
        × AreAlike a.classes a.likes.items
        × KeepsLaws a.classes };
}

impl<'a> BoardTables<'a> {
    /// Makes the tables of the board.
    pub fn new(alloc: Global, classes: BoardClasses<'a>) -> Result<BoardTables<'a>, AllocError>
        ensures { IfOk result (λ tables. tables ≡ classes.entry) }
    {
        classes.laws();
        let sharers = sharers_of(alloc, &classes)?;
        let tested_nets = TestedNets::new(alloc, &classes)?;
        let likes = likes_of(alloc, &classes)?;
        Ok(BoardTables {
            classes,
            sharers,
            tested_nets,
            likes,
        })
    }

    /// Returns the board with its classes. The contract also says that the board keeps the rules of boards,
    /// and that the laws about its passes and its terms hold.
    pub fn classes(&self) -> &BoardClasses<'a>
        ensures same { result.now ≡ self.now }
        ensures laws { KeepsLaws self.now }
    {
        &self.classes
    }

    /// Returns an earlier net whose tested drivers are enabled in the same ways as those of this net, or the net
    /// itself. Only the time that a caller takes depends on how early the returned net is.
    pub fn like_of(&self, net: usize) -> usize
        ensures { drivers_at self.now result ≡ drivers_at self.now net }
    {
        match self.likes.get(net) {
            None => net,
            Some(like) => *like as usize,
        }
    }

    /// Removes from `free` the places of the useful controls that are not together with `c`. Two controls are together
    /// if the setting with just these two is safe. The contract does not say whether the place of `c` itself stays. `c`
    /// must be useful.
    pub fn take_out_apart(&self, free: &mut NumberSet, c: Ctl)
        requires { holds (useful_controls self.now) c ≡ true }
        ensures { LosesApart self.now c free.old free.new }
    {
        nets_are_shared();
        close_sharers(free, &self.sharers, self.classes.shared_nets(c));
    }

    /// Returns the nets that a pass shows, that is, the nets of which it enables a tested driver. `held` has the places
    /// of the pass's controls in the list of useful controls.
    pub fn shown_by(&self, alloc: Global, held: &NumberSet) -> Result<NumberSet, AllocError>
        ensures { IfOk result (λ row. AreShownBy self.now (setting_of self.now held.now) row) }
    {
        self.tested_nets.shown_by(alloc, &self.classes, held)
    }
}
