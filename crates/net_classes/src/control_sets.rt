// Sets of controls. The time that `clear` takes depends only on the number of controls in the set.
ghost use Rattle.std.specs.Prelude.{◌≡◌, ◌||◌, Bool, false, is_some, true, IfOk, OnOk};
ghost use Rattle.board_defs.specs.declared.board.Ctl.{Ctl};
ghost use Rattle.board_defs.specs.declared.board.RawBoard.{RawBoard};
ghost use Rattle.board_defs.specs.Pins.{IsCell};
ghost use Rattle.board_defs.specs.Settings.{same_ctl};
ghost use Rattle.net_facts.specs.Cells.{item_of_cell, table};
ghost use Rattle.net_classes.specs.inner.ControlSets.{IsSet, has_control, put_all};

use board_defs::Ctl;
use net_facts::{filled_table, item_at, put_at};
use std::alloc::{AllocError, Global};

/// A set of controls, as a mark for each cell and as a list of the controls.
#[derive(Drop)]
pub struct ControlSet {
    pub(crate) marks: Vec<Vec<bool>>,
    pub(crate) members: Vec<Ctl>,
}

fn unmark(marks: &mut [Vec<bool>], members: &[Ctl])
    ensures { table marks.new ≡ put_all false (table marks.old) members.now }
{
    for c in members {
        put_at(marks, *c, false);
    }
}

impl ControlSet {
    /// Returns the empty set. It has a mark for each item of the table `rows`, which must have an item for each
    /// boundary cell of the board.
    pub(crate) fn new<S>(alloc: Global, rows: &[Vec<S>]) -> Result<ControlSet, AllocError>
        ensures { (board : RawBoard)
            → ((c : Ctl) → IsCell board c → is_some (item_of_cell (table rows.now) c) ≡ true)
            → IfOk result (λ set. IsSet board (λ c. false) set) }
    {
        Ok(ControlSet {
            marks: filled_table(alloc, rows, false)?,
            members: Vec::new(alloc),
        })
    }

    /// Returns whether the control is in the set.
    pub(crate) fn has(&self, c: Ctl) -> bool
        ensures { result ≡ has_control self.now c }
    {
        match item_at(&self.marks, c) {
            None => false,
            Some(mark) => mark,
        }
    }

    pub(crate) fn insert(&mut self, c: Ctl) -> Result<(), AllocError>
        ensures { (board : RawBoard) (passes : Ctl → Bool) → IsSet board passes self.old
            → OnOk result (IsSet board (λ d. passes d || same_ctl c d) self.new) }
    {
        if !self.has(c) {
            put_at(&mut self.marks, c, true);
            self.members.push(c)?;
        }
        Ok(())
    }

    pub(crate) fn clear(&mut self)
        ensures { (board : RawBoard) (passes : Ctl → Bool) → IsSet board passes self.old
            → IsSet board (λ c. false) self.new }
    {
        unmark(&mut self.marks, &self.members);
        self.members.clear();
    }
}
