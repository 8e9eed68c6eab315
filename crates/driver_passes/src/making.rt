// Makes the passes of a board in two steps: first for the tested drivers, then for the paired nets.
ghost use Rattle.std.specs.Prelude.{◌≡◌, ◌<◌, ◌^◌, length, take, IfOk};
ghost use Rattle.board_defs.specs.Passes.{ArePasses, passes_of};
ghost use Rattle.net_classes.specs.Kept.{AreClasses};
ghost use Rattle.driver_passes.specs.Useful.{HoldUseful};

use crate::drivers::{driver_passes, first_pass_by};
use crate::pairs::pair_passes;
use crate::tables::BoardTables;
use board_defs::{Board, Setting};
use net_classes::{BoardClasses, Classes};
use std::alloc::{AllocError, Global};

/// Returns the passes of a board, in the order of the board's test. The tables are borrowed, because a function that
/// owns them drops them at each of its exits.
fn passes_by(alloc: Global, board: &BoardTables<'_>) -> Result<Vec<Setting>, AllocError>
    ensures made { IfOk result (λ passes. passes.items ≡ passes_of board.now) }
    ensures kept { IfOk result (λ passes. ArePasses board.now passes.items) }
    ensures useful { IfOk result (λ passes. HoldUseful board.now passes.items) }
    ensures few { IfOk result (λ passes. length passes.items < 2 ^ 32) }
{
    let _laws = board.classes();
    let progress = driver_passes(alloc, board)?;
    let passes = pair_passes(alloc, board, progress)?;
    Ok(passes)
}

/// Returns the passes of the board, in the order of the board's test. The first passes together enable every tested
/// driver. Later passes are added until, for every two paired nets, some pass observes both. `classes` must be the
/// classes of this board.
pub fn passes(alloc: Global, board: &Board, classes: &Classes) -> Result<Vec<Setting>, AllocError>
    requires { AreClasses board.now classes.now }
    ensures made { IfOk result (λ passes. passes.items ≡ passes_of board.now) }
    ensures kept { IfOk result (λ passes. ArePasses board.now passes.items) }
    ensures useful { IfOk result (λ passes. HoldUseful board.now passes.items) }
    ensures few { IfOk result (λ passes. length passes.items < 2 ^ 32) }
{
    let tables = BoardTables::new(alloc, BoardClasses::of(board, classes))?;
    passes_by(alloc, &tables)
}

/// Returns a list that has only the first pass of the board, or an empty list if the board has no pass. Does not make
/// the other passes. `classes` must be the classes of this board.
pub fn first_pass(
    alloc: Global,
    board: &Board,
    classes: &Classes,
) -> Result<Vec<Setting>, AllocError>
    requires { AreClasses board.now classes.now }
    ensures { IfOk result (λ passes. passes.items ≡ take 1 (passes_of board.now)) }
{
    let tables = BoardTables::new(alloc, BoardClasses::of(board, classes))?;
    first_pass_by(alloc, &tables)
}
