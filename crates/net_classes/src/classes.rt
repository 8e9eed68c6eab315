// Computes the classes of a board, that is, what its nets, pins and controls can do in safe settings.
ghost use Rattle.std.specs.Prelude.{IfOk};
ghost use Rattle.net_classes.specs.Kept.{AreClasses};
ghost use Rattle.net_pins.specs.Tables.{ArePinTables};

use crate::known::Known;
use crate::pair_rows::{PairRows, pair_rows};
use board_defs::{Board, Ctl};
use net_facts::{BoardFacts, ControlClass, NetClass, NetNumbers, board_facts};
use net_pins::{BoardPins, PinTables};
use std::alloc::{AllocError, Global};

/// The classes of a board: the facts about its nets, pins and controls that depend on safe settings. There is a class
/// for each net and for each boundary cell, taken as a control. There are also the useful controls (each is safe alone
/// and enables a tested driver), the nets that each control shares with another control, and rows of bits that say
/// which nets are paired. Two nets are paired if one safe setting observes both.
#[derive(Drop)]
pub struct Classes {
    pub(crate) nets: Vec<NetClass>,
    pub(crate) controls: Vec<Vec<ControlClass>>,
    pub(crate) useful: Vec<Ctl>,
    pub(crate) shared: Vec<Vec<NetNumbers>>,
    pub(crate) pairs: PairRows,
}

/// Returns the classes of the board. The pin tables must be those of the board.
pub fn classify_by(alloc: Global, board: &Board, tables: &PinTables) -> Result<Classes, AllocError>
    requires { ArePinTables board.now tables.now }
    ensures { IfOk result (λ classes. AreClasses board.now classes) }
{
    let facts = board_facts(alloc, &BoardPins::of(board, tables))?;
    let pairs = pair_rows(alloc, &Known::of(alloc, board, &facts)?)?;
    let BoardFacts {
        nets,
        controls,
        useful,
        shared,
        ..
    } = facts;
    Ok(Classes {
        nets,
        controls,
        useful,
        shared,
        pairs,
    })
}

/// Returns the classes of the board.
pub fn classify(alloc: Global, board: &Board) -> Result<Classes, AllocError>
    ensures { IfOk result (λ classes. AreClasses board.now classes) }
{
    let tables = PinTables::new(alloc, board)?;
    classify_by(alloc, board, &tables)
}
