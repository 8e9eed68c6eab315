// A pass that is being made.
ghost use Rattle.std.specs.Prelude.{◌≡◌, ◌<◌, ◌+◌, ◌/◌, ◌||◌, ℕ, [], true, length, slice_get, IfOk, Some};
ghost use Rattle.board_defs.specs.declared.board.Ctl.{Ctl};
ghost use Rattle.board_defs.specs.Coverage.{IsUseful};
ghost use Rattle.board_defs.specs.Settings.{holds};
ghost use Rattle.board_defs.specs.Passes.{useful_controls, with_driver};
ghost use Rattle.net_classes.specs.inner.Pairs.{IsUsefulDriver};
ghost use Rattle.driver_passes.specs.inner.Drafts.{passing_controls, drafted, draft_with};
ghost use Rattle.driver_passes.specs.inner.NumberSets.{is_in};
ghost use Rattle.driver_passes.specs.inner.Shown.{AreShownBy};

use crate::number_set::NumberSet;
use crate::tables::BoardTables;
use board_defs::{Ctl, Drive, Setting};
use std::alloc::{AllocError, Global};
use std::marker::Model;

/// A pass that is being made. Its value in contracts is its board and the setting so far. A control is *useful* if it
/// is safe alone and enables a tested driver. Two controls are *together* if the setting with just these two is safe.
#[derive(Drop)]
pub struct Draft<'a, 'b> {
    pub(crate) board: &'a BoardTables<'b>,
    /// The places, in the list of useful controls, of the controls in the pass.
    pub(crate) held: NumberSet,
    /// The places of the useful controls that can be added: they are not in the pass, and they are together with every
    /// control in the pass.
    pub(crate) free: NumberSet,
}

impl<'a, 'b> Model for Draft<'a, 'b> {
    ghost use Rattle.driver_passes.specs.inner.Drafts.{Drafted, IsDraft, drafted, setting_of};

    ghost Value = { Drafted };

    ghost view = { λ a. drafted a.board.now (setting_of a.board.now a.held) };

    ghost invariant = { λ a. IsDraft a.board.now a.held a.free };
}

/// Returns a set that has at least the places of these controls.
fn all_places(alloc: Global, controls: &[Ctl]) -> Result<NumberSet, AllocError>
    ensures { IfOk result (λ places. (n : ℕ) → n < length controls.now → is_in places n ≡ true) }
{
    let mut places = NumberSet::new(alloc, controls.len())?;
    places.fill();
    Ok(places)
}

impl<'a, 'b> Draft<'a, 'b> {
    /// Returns a draft with no controls.
    pub fn new(alloc: Global, board: &'a BoardTables<'b>) -> Result<Draft<'a, 'b>, AllocError>
        ensures { IfOk result (λ draft. draft ≡ drafted board.now []) }
    {
        let useful = board.classes().useful();
        let held = NumberSet::new(alloc, useful.len())?;
        let free = all_places(alloc, useful)?;
        Ok(Draft { board, held, free })
    }

    /// Adds the useful control `c`. `place` must be its place in the list of useful controls.
    pub fn add(&mut self, place: usize, c: Ctl)
        requires { slice_get (useful_controls self.old.board) place ≡ Some c }
        ensures { self.new ≡ draft_with self.old c }
    {
        let _laws = self.board.classes();
        self.held.insert_if(place, true);
        self.board.take_out_apart(&mut self.free, c);
        self.free.remove(place);
    }

    /// Adds the control that enables the driver. This control must be useful. Does nothing if the driver is always on
    /// or one-sided.
    pub fn add_driver(&mut self, d: Drive)
        requires { IsUsefulDriver self.old.board d }
        ensures { self.new ≡ drafted self.old.board (with_driver self.old.setting d) }
    {
        if let Drive::By(c) = d {
            self.add_control(c);
        }
    }

    fn add_control(&mut self, c: Ctl)
        requires { holds (useful_controls self.old.board) c ≡ true }
        ensures { self.new ≡ draft_with self.old c }
    {
        if let Some(place) = self.board.classes().place_of(c) {
            self.add(place, c);
        }
    }

    /// Returns the setting of the pass so far. Each of its controls is useful.
    pub fn setting(&self, alloc: Global) -> Result<Setting, AllocError>
        ensures value { IfOk result (λ setting. setting ≡ self.now.setting) }
        ensures useful { IfOk result (λ setting. (c : Ctl) → holds setting c ≡ true →
            IsUseful self.now.board c) }
    {
        let useful = self.board.classes().useful();
        let controls = controls_at(alloc, useful, &self.held)?;
        Ok(Setting::of(controls))
    }

    /// Returns the nets that the pass shows, that is, the nets of which it enables a tested driver.
    pub fn shown(&self, alloc: Global) -> Result<NumberSet, AllocError>
        ensures { IfOk result (λ row. AreShownBy self.now.board self.now.setting row) }
    {
        self.board.shown_by(alloc, &self.held)
    }

    /// Adds the places of the pass's controls to `places`, a set with room for the useful controls.
    pub fn add_places(&self, places: &mut NumberSet)
        requires { length places.old ≡ length (useful_controls self.now.board) / 64 + 1 }
        ensures room { length places.new ≡ length places.old }
        ensures places { (i : ℕ) (c : Ctl) → slice_get (useful_controls self.now.board) i ≡ Some c →
            is_in places.new i ≡ (holds self.now.setting c || is_in places.old i) }
    {
        let _laws = self.board.classes();
        places.add_all(&self.held);
    }
}

/// Returns the controls whose places are in the set, in the order of `controls`.
fn controls_at(alloc: Global, controls: &[Ctl], places: &NumberSet) -> Result<Vec<Ctl>, AllocError>
    ensures { IfOk result
        (λ found. found.items ≡ passing_controls (is_in places.now) 0 controls.now) }
{
    let mut found = Vec::new(alloc);
    let mut place = places.first_from(0, controls.len());
    while place < controls.len() {
        found.push(controls[place])?;
        place = places.first_from(place + 1, controls.len());
    }
    Ok(found)
}
