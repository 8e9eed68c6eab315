// The facts about the nets, the pins and the controls of a board.
ghost use Rattle.std.specs.Prelude.{◌≡◌, map, IfOk};
ghost use Rattle.net_facts.specs.Facts.{net_facts_of};
ghost use Rattle.net_facts.specs.Kept.{AreBoardFacts};

use crate::controls::{control_rows, mark_useful};
use crate::facts::{NetFacts, all_net_facts};
use crate::net_numbers::NetNumbers;
use crate::shared::{contended_nets, shared_table};
use crate::tested::net_classes;
use crate::useful::useful_controls;
use board_defs::{Ctl, Drive, Reason};
use few_items::Few;
use net_pins::BoardPins;
use std::alloc::{AllocError, Global};

/// The facts about a pin: its roles on the net, and the roles in which some safe setting tests it.
#[derive(Clone, Copy)]
pub struct PinClass {
    /// True if the pin is a tested driver.
    pub driver_tested: bool,
    /// True if the pin is a tested receiver.
    pub receiver_tested: bool,
    /// True if the pin is a driver.
    pub drives: bool,
    /// True if the pin is a receiver.
    pub receives: bool,
}

/// The facts about a net that depend on safe settings.
#[derive(Drop)]
pub struct NetClass {
    /// The reason why the net is not covered, or None if it is covered.
    pub reason: Option<Reason>,
    /// The ways in which the net's tested drivers are enabled, in pin order.
    pub drivers: Few<Drive>,
    /// The facts about the net's pins, in pin order.
    pub pins: Few<PinClass>,
}

/// The facts about a control.
#[derive(Drop)]
pub struct ControlClass {
    /// The numbers of the nets with a driver of this control, in net order. One-sided drivers do not count.
    pub nets: NetNumbers,
    /// True if the setting with this control alone is safe.
    pub safe: bool,
    /// True if the control is safe alone and enables a tested driver.
    pub useful: bool,
}

/// The facts about the nets, the pins and the controls of a board. A table of controls has a row for each part of the
/// chain, and a row has an item for each boundary cell of its part.
#[derive(Drop)]
pub struct BoardFacts {
    /// The facts about the nets that do not depend on settings, in net order.
    pub facts: Vec<NetFacts>,
    /// The facts about the nets that depend on safe settings, in net order.
    pub nets: Vec<NetClass>,
    /// The facts about each cell as a control.
    pub controls: Vec<Vec<ControlClass>>,
    /// The useful controls, in control order.
    pub useful: Vec<Ctl>,
    /// For each control, the numbers of the nets that it shares with another control, in net order. Such a net has a
    /// driver of each of the two controls.
    pub shared: Vec<Vec<NetNumbers>>,
}

fn facts_by(
    alloc: Global,
    board: &BoardPins<'_>,
    facts: Vec<NetFacts>,
) -> Result<BoardFacts, AllocError>
    requires { facts.items ≡ map (net_facts_of board.now) board.now.nets }
    ensures { IfOk result (λ known. AreBoardFacts board.now known) }
{
    let _rules = board.raw();
    let mut controls = control_rows(alloc, board, &facts)?;
    let nets = net_classes(alloc, &controls, &facts)?;
    mark_useful(&mut controls, &nets);
    let useful = useful_controls(alloc, &controls, board)?;
    let flags = contended_nets(alloc, &facts)?;
    let shared = shared_table(alloc, &flags, &controls)?;
    Ok(BoardFacts {
        facts,
        nets,
        controls,
        useful,
        shared,
    })
}

/// Returns the facts about the nets, the pins and the controls of the board.
pub fn board_facts(alloc: Global, board: &BoardPins<'_>) -> Result<BoardFacts, AllocError>
    ensures { IfOk result (λ known. AreBoardFacts board.now known) }
{
    let facts = all_net_facts(alloc, board)?;
    facts_by(alloc, board, facts)
}
