// Makes the passes that together enable every tested driver. A draft is a pass that is being made. A control
// is useful if it is safe alone and enables a tested driver.
ghost use Rattle.std.specs.Prelude.{◌≡◌, ◌<◌, ◌≤◌, ◌++◌, ◌∷◌, [], false, true, fold, length, slice_get, take, All, IfOk, IfSome, OnOk};
ghost use Rattle.std.specs.List.{flat_map, list_any};
ghost use Rattle.board_defs.specs.Limits.{most_pins};
ghost use Rattle.board_defs.specs.Settings.{holds};
ghost use Rattle.board_defs.specs.Passes.{driver_pass, driver_passes, drivers_by_net, is_enabled, passes_of, useful_controls};
ghost use Rattle.driver_passes.specs.inner.Drafts.{drafted};
ghost use Rattle.net_classes.specs.inner.Pairs.{IsUsefulDriver};
ghost use Rattle.driver_passes.specs.inner.Progress.{EnableTested, IsProgress, enabling, is_held};

use crate::draft::Draft;
use crate::number_set::NumberSet;
use crate::tables::BoardTables;
use board_defs::{Ctl, Drive, Setting};
use net_classes::BoardClasses;
use std::alloc::{AllocError, Global};

/// The passes so far.
#[derive(Drop)]
pub struct Progress {
    pub passes: Vec<Setting>,
    /// For each pass, the set of the nets that it shows. A pass shows a net if it enables a tested driver of the net.
    pub rows: Vec<NumberSet>,
    /// The places, in the list of useful controls, of the controls that are in some pass.
    pub held: NumberSet,
}

/// Returns, as a draft, the pass that is made for tested driver `d` after the passes `earlier`. `earlier` must have
/// passes of this board. The control of `d`, if it has one, must be useful.
fn driver_pass<'a, 'b>(
    alloc: Global,
    board: &'a BoardTables<'b>,
    earlier: &Progress,
    d: Drive,
) -> Result<Draft<'a, 'b>, AllocError>
    requires earlier { IsProgress board.now earlier.now }
    requires driver { IsUsefulDriver board.now d }
    ensures { IfOk result (λ draft. draft
        ≡ drafted board.now
        (driver_pass board.now (useful_controls board.now) earlier.now.passes.items d)) }
{
    let mut draft = Draft::new(alloc, board)?;
    draft.add_driver(d);
    draft.first_walk(earlier);
    draft.second_walk();
    Ok(draft)
}

impl Progress {
    fn new(alloc: Global, board: &BoardClasses<'_>) -> Result<Progress, AllocError>
        ensures progress { IfOk result (λ progress. IsProgress board.now progress) }
        ensures none { IfOk result (λ progress. progress.passes.items ≡ []) }
    {
        let held = NumberSet::new(alloc, board.useful().len())?;
        Ok(Progress {
            passes: Vec::new(alloc),
            rows: Vec::new(alloc),
            held,
        })
    }

    /// Returns whether some pass so far has the control, which must be useful. The passes so far must be passes of this
    /// board.
    fn holds(&self, board: &BoardClasses<'_>, c: Ctl) -> bool
        requires progress { IsProgress board.now self.now }
        requires useful { holds (useful_controls board.now) c ≡ true }
        ensures { result ≡ is_held self.now.passes.items c }
    {
        match board.place_of(c) {
            Some(place) => self.held.has(place),
            None => false,
        }
    }

    /// Returns whether some pass so far enables the tested driver. The passes so far must be passes of this board. The
    /// control of the driver, if it has one, must be useful.
    fn enables(&self, board: &BoardClasses<'_>, d: Drive) -> bool
        requires progress { IsProgress board.now self.now }
        requires driver { IsUsefulDriver board.now d }
        ensures { result ≡ list_any (λ pass. is_enabled pass d) self.now.passes.items }
    {
        match d {
            Drive::AlwaysOn => !self.passes.as_slice().is_empty(),
            Drive::OneSided => false,
            Drive::By(c) => self.holds(board, c),
        }
    }

    /// Appends the draft's setting as a pass. The draft must be for the board of the passes so far.
    fn push(&mut self, alloc: Global, draft: &Draft<'_, '_>) -> Result<(), AllocError>
        requires { IsProgress draft.now.board self.old }
        ensures progress { OnOk result (IsProgress draft.now.board self.new) }
        ensures pushed { OnOk result (self.new.passes.items
            ≡ self.old.passes.items ++ draft.now.setting ∷ []) }
    {
        self.passes.push(draft.setting(alloc)?)?;
        self.rows.push(draft.shown(alloc)?)?;
        draft.add_places(&mut self.held);
        Ok(())
    }

    /// Appends a pass for the tested driver, unless a pass so far enables the driver. The passes so far must be passes
    /// of this board. The control of the driver, if it has one, must be useful.
    fn add_for_driver(
        &mut self,
        alloc: Global,
        board: &BoardTables<'_>,
        d: Drive,
    ) -> Result<(), AllocError>
        requires driver { IsUsefulDriver board.now d }
        requires progress { IsProgress board.now self.old }
        ensures progress { OnOk result (IsProgress board.now self.new) }
        ensures added { OnOk result (self.new.passes.items
            ≡ enabling board.now self.old.passes.items d) }
    {
        if self.enables(board.classes(), d) {
            return Ok(());
        }
        let draft = driver_pass(alloc, board, self, d)?;
        self.push(alloc, &draft)?;
        Ok(())
    }

    /// Calls `add_for_driver` for these drivers in turn. The passes so far must be passes of this board. The control of
    /// each driver, if it has one, must be useful.
    fn add_for_drivers(
        &mut self,
        alloc: Global,
        board: &BoardTables<'_>,
        drivers: &[Drive],
    ) -> Result<(), AllocError>
        requires drivers { All (IsUsefulDriver board.now) drivers.now }
        requires progress { IsProgress board.now self.old }
        ensures progress { OnOk result (IsProgress board.now self.new) }
        ensures added { OnOk result (self.new.passes.items
            ≡ fold (enabling board.now) self.old.passes.items drivers.now) }
    {
        for d in drivers {
            self.add_for_driver(alloc, board, *d)?;
        }
        Ok(())
    }
}

/// Returns the passes that together enable every tested driver.
pub fn driver_passes(alloc: Global, board: &BoardTables<'_>) -> Result<Progress, AllocError>
    ensures progress { IfOk result (λ progress. IsProgress board.now progress) }
    ensures passes { IfOk result (λ progress. progress.passes.items
        ≡ driver_passes board.now (useful_controls board.now)
        (flat_map (λ drivers. drivers) (drivers_by_net board.now))) }
    ensures tested { IfOk result (λ progress. EnableTested board.now progress.passes.items) }
    ensures few { IfOk result (λ progress. length progress.passes.items ≤ most_pins) }
{
    let classes = board.classes();
    let mut progress = Progress::new(alloc, classes)?;
    for net in 0..classes.net_count() {
        progress.add_for_drivers(alloc, board, classes.tested_drivers(net))?;
    }
    Ok(progress)
}

/// Returns the first tested driver of the first net that has one, or None if no net has one.
fn first_driver(board: &BoardClasses<'_>) -> Option<Drive>
    ensures first { result
        ≡ slice_get (flat_map (λ drivers. drivers) (drivers_by_net board.now)) 0 }
    ensures useful { IfSome result (IsUsefulDriver board.now) }
{
    for net in 0..board.net_count() {
        if let Some(d) = board.tested_drivers(net).first() {
            return Some(*d);
        }
    }
    None
}

/// Returns the pass that is made for the tested driver when there are no earlier passes. The control of the driver, if
/// it has one, must be useful.
fn first_pass_for(alloc: Global, board: &BoardTables<'_>, d: Drive) -> Result<Setting, AllocError>
    requires { IsUsefulDriver board.now d }
    ensures { IfOk result (λ pass. pass
        ≡ driver_pass board.now (useful_controls board.now) [] d) }
{
    let none = Progress::new(alloc, board.classes())?;
    let draft = driver_pass(alloc, board, &none, d)?;
    draft.setting(alloc)
}

/// Returns a list that has only the first pass of the board, or an empty list if the board has no pass. The first pass
/// is made for the first tested driver. A board without tested drivers has no paired nets, so it has no pass.
pub fn first_pass_by(alloc: Global, board: &BoardTables<'_>) -> Result<Vec<Setting>, AllocError>
    ensures { IfOk result (λ passes. passes.items ≡ take 1 (passes_of board.now)) }
{
    let mut passes = Vec::new(alloc);
    match first_driver(board.classes()) {
        None => Ok(passes),
        Some(d) => {
            passes.push(first_pass_for(alloc, board, d)?)?;
            Ok(passes)
        }
    }
}
