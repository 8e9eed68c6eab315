// Adds passes until, for every two paired nets, some pass observes both. A draft is a pass that is being
// made. A control is useful if it is safe alone and enables a tested driver.
ghost use Rattle.std.specs.Prelude.{◌≡◌, ◌<◌, ◌≤◌, ◌+◌, ◌*◌, ◌^◌, ◌∷◌, ◌++◌, ℕ, [], false, true, fold, length, IfOk, OnOk};
ghost use Rattle.board_defs.specs.Limits.{most_nets, most_pins};
ghost use Rattle.board_defs.specs.Passes.{are_shown, drivers_by_net, pair_pass, pair_passes, useful_controls};
ghost use Rattle.net_classes.specs.Pairs.{drivers_at};
ghost use Rattle.driver_passes.specs.inner.Drafts.{drafted};
ghost use Rattle.driver_passes.specs.inner.Pairs.{AreDone, ArePairing, NeedsNoPass, IsDoneTo, IsUsefulPair, LooksAt, StaysDone, observing, pairs_from};
ghost use Rattle.driver_passes.specs.inner.Progress.{EnableTested, IsProgress};
ghost use Rattle.driver_passes.specs.Useful.{HoldUseful};

use crate::column::Column;
use crate::draft::Draft;
use crate::drivers::Progress;
use crate::number_set::NumberSet;
use crate::paired::{first_pair, next_wanted};
use crate::shown::{keep_shown, leave_unshown, take_shown};
use crate::tables::BoardTables;
use board_defs::{Drive, Setting};
use net_classes::BoardClasses;
use net_classes::law::pairs_have_drivers;
use std::alloc::{AllocError, Global};

/// The passes so far, and the tables that say which nets these passes show. A pass shows a net if it enables a tested
/// driver of the net. Passes are added for one net after another. The net that is being handled is the *current* net.
#[derive(Drop)]
pub struct Pairing {
    pub passes: Vec<Setting>,
    pub rows: Vec<NumberSet>,
    /// The word of each row that has the bit of the current net.
    pub column: Column,
    /// The nets from the current net on that no pass so far shows together with the current net. Earlier nets
    /// may be in the set or not.
    pub left: NumberSet,
    /// The nets that every pass so far shows. Looking up a net in each row instead would be slow, since the rows are
    /// far apart in memory.
    pub always: NumberSet,
}

/// Returns, as a draft, the pass that is made from this pair of tested drivers of two paired nets. The control of each
/// driver, if it has one, must be useful.
fn pair_pass<'a, 'b>(
    alloc: Global,
    board: &'a BoardTables<'b>,
    pair: (Drive, Drive),
) -> Result<Draft<'a, 'b>, AllocError>
    requires { IsUsefulPair board.now pair }
    ensures { IfOk result (λ draft. draft
        ≡ drafted board.now (pair_pass board.now (useful_controls board.now) pair)) }
{
    let mut draft = Draft::new(alloc, board)?;
    draft.add_driver(pair.0);
    draft.add_driver(pair.1);
    draft.second_walk();
    Ok(draft)
}

impl Pairing {
    fn new(
        alloc: Global,
        board: &BoardClasses<'_>,
        progress: Progress,
    ) -> Result<Pairing, AllocError>
        requires progress { IsProgress board.now progress }
        requires tested { EnableTested board.now progress.passes.items }
        ensures pairing { IfOk result (λ pairing. ArePairing board.now pairing) }
        ensures passes { IfOk result (λ pairing. pairing.passes.items ≡ progress.passes.items) }
    {
        let nets = board.net_count();
        let left = NumberSet::new(alloc, nets)?;
        let mut always = NumberSet::new(alloc, nets)?;
        keep_shown(&mut always, &progress.rows);
        let column = Column::new(alloc, &progress.rows)?;
        Ok(Pairing {
            passes: progress.passes,
            rows: progress.rows,
            column,
            left,
            always,
        })
    }

    /// Appends the draft's setting as a pass, and updates the tables. Net `a` must be the current net.
    fn push(&mut self, alloc: Global, a: usize, draft: &Draft<'_, '_>) -> Result<(), AllocError>
        requires { LooksAt draft.now.board self.old a }
        ensures looks { OnOk result (LooksAt draft.now.board self.new a) }
        ensures pushed { OnOk result (self.new.passes.items
            ≡ self.old.passes.items ++ draft.now.setting ∷ []) }
    {
        let pass = draft.setting(alloc)?;
        let row = draft.shown(alloc)?;
        take_shown(&mut self.left, &row, row.word(a / 64), a);
        self.always.keep_only(&row);
        self.column.add(&row)?;
        self.passes.push(pass)?;
        self.rows.push(row)?;
        Ok(())
    }

    /// Adds a pass for the two nets if they are paired. No pass so far may show both. Net `a` must be the current net.
    fn add_for_nets(
        &mut self,
        alloc: Global,
        board: &BoardTables<'_>,
        a: usize,
        b: usize,
    ) -> Result<(), AllocError>
        requires looks { LooksAt board.now self.old a }
        requires unshown { are_shown self.old.passes.items
            (drivers_at board.now a) (drivers_at board.now b) ≡ false }
        ensures looks { OnOk result (LooksAt board.now self.new a) }
        ensures added { OnOk result (self.new.passes.items
            ≡ observing board.now self.old.passes.items
            (drivers_at board.now a, drivers_at board.now b)) }
    {
        if let Some(pair) = first_pair(board.classes(), a, b) {
            let draft = pair_pass(alloc, board, pair)?;
            self.push(alloc, a, &draft)?;
        }
        Ok(())
    }

    /// Returns whether one of three tests shows that no pass is needed for net `a` and any later net: an earlier net
    /// has an equal list of tested drivers (each given by how it is enabled), net `a` has no tested driver, or every
    /// pass shows net `a`. The passes for all earlier nets must be there already.
    fn is_done(&self, board: &BoardTables<'_>, a: usize) -> bool
        requires first { a < length board.now.nets }
        requires pairing { ArePairing board.now self.now }
        requires done { AreDone board.now self.now.passes.items a }
        ensures { result ≡ true →
            IsDoneTo board.now self.now.passes.items a (length board.now.nets) }
    {
        if board.like_of(a) < a {
            return true;
        }
        if board.classes().tested_drivers(a).is_empty() {
            return true;
        }
        self.always.has(a)
    }

    /// Finds the next net from `from` on that is paired with net `a` and that no pass shows together with net `a`. Adds
    /// a pass for the two nets, and returns the net to continue with. If there is no such net, adds nothing and returns
    /// the number of nets. Net `a` must be the current net, and `from` a later net.
    fn add_for_next(
        &mut self,
        alloc: Global,
        board: &BoardTables<'_>,
        a: usize,
        from: usize,
    ) -> Result<usize, AllocError>
        requires looks { LooksAt board.now self.old a }
        requires second { from < length board.now.nets }
        requires later { a < from }
        ensures looks { OnOk result (LooksAt board.now self.new a) }
        ensures further { IfOk result (λ b. from < b) }
        ensures within { IfOk result (λ b. b ≤ length board.now.nets) }
        ensures added { IfOk result (λ b.
            fold (observing board.now) self.new.passes.items (pairs_from board.now a b)
            ≡ fold (observing board.now) self.old.passes.items (pairs_from board.now a from)) }
        ensures kept { OnOk result
            (StaysDone board.now self.old.passes.items self.new.passes.items) }
        ensures done { IfOk result (λ b. (n : ℕ) → from ≤ n → n < b →
            NeedsNoPass board.now self.new.passes.items a n) }
        ensures few { IfOk result (λ b.
            length self.new.passes.items + from ≤ length self.old.passes.items + b) }
    {
        pairs_have_drivers();
        let classes = board.classes();
        match next_wanted(classes, &self.left, a, from) {
            None => Ok(classes.net_count()),
            Some(b) => {
                self.add_for_nets(alloc, board, a, b)?;
                Ok(b + 1)
            }
        }
    }

    /// Adds the passes that are needed for net `a` and each later net. The passes for all earlier nets must be there
    /// already. There must be at most `most_pins + most_nets * a` passes so far.
    fn add_for_later(
        &mut self,
        alloc: Global,
        board: &BoardTables<'_>,
        a: usize,
    ) -> Result<(), AllocError>
        requires first { a < length board.now.nets }
        requires pairing { ArePairing board.now self.old }
        requires done { AreDone board.now self.old.passes.items a }
        requires few { length self.old.passes.items ≤ most_pins + most_nets * a }
        ensures pairing { OnOk result (ArePairing board.now self.new) }
        ensures done { OnOk result (AreDone board.now self.new.passes.items (a + 1)) }
        ensures added { OnOk result (self.new.passes.items
            ≡ fold (observing board.now) self.old.passes.items (pairs_from board.now a (a + 1))) }
        ensures few { OnOk result (length self.new.passes.items ≤ most_pins + most_nets * (a + 1)) }
    {
        if self.is_done(board, a) {
            return Ok(());
        }
        self.column.look_at(alloc, &self.rows, a / 64)?;
        leave_unshown(&mut self.left, &self.rows, &self.column.words, a);
        let nets = board.classes().net_count();
        let mut b = a + 1;
        while b < nets {
            b = self.add_for_next(alloc, board, a, b)?;
        }
        Ok(())
    }

    /// Adds passes until, for every two paired nets, some pass observes both. The passes so far must be passes of this
    /// board and enable every tested driver. There must be at most `most_pins` of them.
    fn add_for_all(&mut self, alloc: Global, board: &BoardTables<'_>) -> Result<(), AllocError>
        requires pairing { ArePairing board.now self.old }
        requires few { length self.old.passes.items ≤ most_pins }
        ensures pairing { OnOk result (ArePairing board.now self.new) }
        ensures added { OnOk result (self.new.passes.items
            ≡ pair_passes board.now (useful_controls board.now) self.old.passes.items
            (drivers_by_net board.now)) }
        ensures few { OnOk result (length self.new.passes.items < 2 ^ 32) }
    {
        for a in 0..board.classes().net_count() {
            self.add_for_later(alloc, board, a)?;
        }
        Ok(())
    }
}

/// Returns the passes so far, followed by more passes until, for every two paired nets, some pass observes both. The
/// passes so far must enable every tested driver, and there must be at most `most_pins` of them.
pub fn pair_passes(
    alloc: Global,
    board: &BoardTables<'_>,
    progress: Progress,
) -> Result<Vec<Setting>, AllocError>
    requires progress { IsProgress board.now progress }
    requires tested { EnableTested board.now progress.passes.items }
    requires few { length progress.passes.items ≤ most_pins }
    ensures passes { IfOk result (λ all. all.items
        ≡ pair_passes board.now (useful_controls board.now) progress.passes.items
        (drivers_by_net board.now)) }
    ensures useful { IfOk result (λ all. HoldUseful board.now all.items) }
    ensures few { IfOk result (λ all. length all.items < 2 ^ 32) }
{
    let mut pairing = Pairing::new(alloc, board.classes(), progress)?;
    pairing.add_for_all(alloc, board)?;
    Ok(pairing.passes)
}
