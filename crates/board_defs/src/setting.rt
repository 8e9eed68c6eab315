// A setting: a set of controls.
ghost use Rattle.std.specs.Prelude.{◌≡◌, ◌≤◌, [], false, length, slice_get, MatchOption, OnOk, OnErr, Some};
ghost use Rattle.std.specs.List.{prefix_len};
ghost use Rattle.board_defs.specs.Settings.{holds, inserted, precedes, IsInControlOrder};

use crate::board::Ctl;
use std::alloc::{AllocError, Global};
use std::marker::Model;

/// A set of controls. Its value in contracts is the list of its controls, in control order and without repeats.
#[derive(Drop)]
pub struct Setting {
    controls: Vec<Ctl>,
}

impl Model for Setting {
    ghost use Rattle.std.specs.Prelude.{List};
    ghost use Rattle.board_defs.specs.declared.board.Ctl.{Ctl};
    ghost use Rattle.board_defs.specs.Settings.{IsInControlOrder};

    ghost Value = { List Ctl };

    ghost view = { λ a. a.controls.items };

    ghost invariant = { λ a. IsInControlOrder a.controls.items };
}

impl Setting {
    /// Returns the setting that has no controls.
    pub fn new(alloc: Global) -> Setting
        ensures { result ≡ [] }
    {
        Setting {
            controls: Vec::new(alloc),
        }
    }

    /// Returns the setting with these controls. They must be in control order and without repeats.
    pub fn of(controls: Vec<Ctl>) -> Setting
        requires { IsInControlOrder controls.items }
        ensures { result ≡ controls.items }
    {
        Setting { controls }
    }

    /// Returns the controls in control order: by the number of the part in the chain, then by the number of the cell.
    pub fn controls(&self) -> &[Ctl]
        ensures value { result.now ≡ self.now }
        ensures order { IsInControlOrder self.now }
    {
        &self.controls
    }

    /// Returns whether the setting has the control.
    pub fn has(&self, c: Ctl) -> bool
        ensures { result ≡ holds self.now c }
    {
        has_control(&self.controls, c)
    }

    /// Adds the control at its place in control order. Changes nothing if the setting has the control already, or if
    /// memory runs out.
    pub fn add(&mut self, c: Ctl) -> Result<(), AllocError>
        ensures added { OnOk result (self.new ≡ inserted c self.old) }
        ensures same { OnErr result (self.new ≡ self.old) }
    {
        add_control(&mut self.controls, c)
    }
}

fn comes_before(a: Ctl, b: Ctl) -> bool
    ensures { result ≡ precedes a b }
{
    a.part < b.part || (a.part == b.part && a.cell < b.cell)
}

/// Returns the number of controls in the list that precede `c` in control order. The list must be in control order and
/// without repeats.
fn place_of(controls: &[Ctl], c: Ctl) -> usize
    requires { IsInControlOrder controls.now }
    ensures place { result ≡ prefix_len (λ d. precedes d c) controls.now }
    ensures within { result ≤ length controls.now }
{
    controls.partition_point(|d| comes_before(*d, c))
}

fn control_at(controls: &[Ctl], place: usize) -> Option<Ctl>
    ensures { result ≡ slice_get controls.now place }
{
    controls.get(place).copied()
}

/// Returns the place of the control in the list, or None if the control is not in the list. The list must be
/// in control order and without repeats.
pub fn place_in(controls: &[Ctl], c: Ctl) -> Option<usize>
    requires { IsInControlOrder controls.now }
    ensures { MatchOption result (holds controls.now c ≡ false)
        (λ i. slice_get controls.now i ≡ Some c) }
{
    let place = place_of(controls, c);
    match control_at(controls, place) {
        None => None,
        Some(d) => { if c.is_same(d) { Some(place) } else { None } }
    }
}

fn has_control(controls: &[Ctl], c: Ctl) -> bool
    requires { IsInControlOrder controls.now }
    ensures { result ≡ holds controls.now c }
{
    match control_at(controls, place_of(controls, c)) {
        Some(d) => c.is_same(d),
        None => false,
    }
}

fn add_control(controls: &mut Vec<Ctl>, c: Ctl) -> Result<(), AllocError>
    requires { IsInControlOrder controls.old.items }
    ensures added { OnOk result (controls.new.items ≡ inserted c controls.old.items) }
    ensures same { OnErr result (controls.new.items ≡ controls.old.items) }
    ensures order { IsInControlOrder controls.new.items }
{
    if has_control(controls, c) {
        return Ok(());
    }
    let place = place_of(controls, c);
    controls.insert(place, c)?;
    Ok(())
}
