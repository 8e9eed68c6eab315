// Finds the nets that each useful control tests, that is, the nets with a tested driver of this control. A
// pass shows the nets that its controls test, and the nets with a tested driver that is always on. A control
// is useful if it is safe alone and enables a tested driver.
ghost use Rattle.std.specs.Prelude.{◌≡◌, ◌<◌, ◌/◌, [], true, length, Some, IfOk, OnOk};
ghost use Rattle.board_defs.specs.Decided.{is_by};
ghost use Rattle.board_defs.specs.Passes.{shows, useful_controls};
ghost use Rattle.driver_passes.specs.inner.Drafts.{setting_of};
ghost use Rattle.driver_passes.specs.inner.Shown.{AreShownBy};
ghost use Rattle.driver_passes.specs.inner.Tested.{AreListed, AreNoted, AreTestedNets, drives};

use crate::number_set::NumberSet;
use board_defs::Drive;
use lists::blank;
use net_classes::{BoardClasses, NetNumbers};
use std::alloc::{AllocError, Global};

/// The nets that the useful controls test, and the nets with a tested driver that is always on.
#[derive(Drop)]
pub struct TestedNets {
    /// The nets with a tested driver that is always on. Every pass shows them.
    pub steady: NumberSet,
    /// For each useful control, the nets with a tested driver of this control.
    pub by_control: Vec<NetNumbers>,
}

/// Returns whether one of the drivers is always on.
fn has_steady(drivers: &[Drive]) -> bool
    ensures { result ≡ shows drivers.now [] }
{
    for d in drivers {
        if matches!(d, Drive::AlwaysOn) {
            return true;
        }
    }
    false
}

/// Returns the nets with a tested driver that is always on.
fn steady_nets(alloc: Global, board: &BoardClasses<'_>) -> Result<NumberSet, AllocError>
    ensures { IfOk result (λ row. AreShownBy board.now [] row) }
{
    let nets = board.net_count();
    let mut row = NumberSet::new(alloc, nets)?;
    for net in 0..nets {
        row.insert_if(net, has_steady(board.tested_drivers(net)));
    }
    Ok(row)
}

/// Appends the net to the list of the driver's control, if the driver has a useful control. `lists` must have a list
/// for each useful control.
fn list_driver(
    lists: &mut [NetNumbers],
    board: &BoardClasses<'_>,
    d: Drive,
    net: u32,
) -> Result<(), AllocError>
    requires { length lists.old ≡ length (useful_controls board.now) }
    ensures { OnOk result (AreNoted board.now net (λ c. is_by c (Some d)) lists.old lists.new) }
{
    board.laws();
    if let Drive::By(c) = d {
        if let Some(place) = board.place_of(c) {
            lists[place].push(net)?;
        }
    }
    Ok(())
}

/// Appends the net to the list of each useful control of these drivers. `lists` must have a list for each useful
/// control.
fn list_drivers(
    lists: &mut [NetNumbers],
    board: &BoardClasses<'_>,
    drivers: &[Drive],
    net: u32,
) -> Result<(), AllocError>
    requires { length lists.old ≡ length (useful_controls board.now) }
    ensures { OnOk result (AreNoted board.now net (λ c. drives c drivers.now) lists.old lists.new) }
{
    for d in drivers {
        list_driver(lists, board, *d, net)?;
    }
    Ok(())
}

/// Returns, for each useful control, the nets with a tested driver of this control.
fn nets_by_control(alloc: Global, board: &BoardClasses<'_>) -> Result<Vec<NetNumbers>, AllocError>
    ensures { IfOk result (λ lists. AreListed board.now (length board.now.nets) lists.items) }
{
    let mut lists = blank(alloc, board.useful().len())?;
    for net in 0..board.net_count() {
        list_drivers(&mut lists, board, board.tested_drivers(net), net as u32)?;
    }
    Ok(lists)
}

impl TestedNets {
    /// Finds the nets that the useful controls of the board test, and the nets with a tested driver that is always on.
    pub fn new(alloc: Global, board: &BoardClasses<'_>) -> Result<TestedNets, AllocError>
        ensures { IfOk result (λ nets. AreTestedNets board.now nets) }
    {
        let steady = steady_nets(alloc, board)?;
        let by_control = nets_by_control(alloc, board)?;
        Ok(TestedNets { steady, by_control })
    }

    /// Returns the nets that a pass shows if its controls are the useful controls at the places in `held`. `self` must
    /// be made for this board.
    pub fn shown_by(
        &self,
        alloc: Global,
        board: &BoardClasses<'_>,
        held: &NumberSet,
    ) -> Result<NumberSet, AllocError>
        requires { AreTestedNets board.now self.now }
        ensures { IfOk result (λ row. AreShownBy board.now (setting_of board.now held.now) row) }
    {
        let mut row = self.steady.copy(alloc)?;
        let places = self.by_control.as_slice().len();
        let mut place = held.first_from(0, places);
        while place < places {
            row.insert_all(self.by_control[place].as_slice());
            place = held.first_from(place + 1, places);
        }
        Ok(row)
    }
}
