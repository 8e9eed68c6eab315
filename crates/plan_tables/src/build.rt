// Makes the tables of a plan. Each scan of a board's test is made from these tables.
ghost use Rattle.std.specs.Prelude.{◌≡◌, ◌<◌, ◌≤◌, ◌^◌, length, IfOk};
ghost use Rattle.net_pins.specs.Tables.{AreNetPins, AreNetTables};
ghost use Rattle.plan_tables.specs.Tables.{pass_cells_of};
ghost use Rattle.plan_tables.specs.inner.Building.{table_of};
ghost use Rattle.plan_tables.specs.inner.Codes.{AreCodes, seen_in};
ghost use Rattle.plan_tables.specs.inner.Laid.{bits_of_parts, quiet_bits};
ghost use Rattle.plan_tables.specs.inner.Rows.{AreBoardRows};
ghost use Rattle.plan_tables.specs.Plans.{ArePlannable, IsPlanOf, most_rows};
ghost use Rattle.plan_tables.specs.inner.Steady.{ArePassTables, moving, steady_cells};

use crate::codes::{NetCodes, net_codes};
use crate::controls::{DriverTable, driver_table};
use crate::instructions::{Instruction, instruction_rows};
use crate::observers::{Observer, observers_of_nets};
use crate::placed::PlacedBoard;
use crate::quiet::quiet_row;
use crate::tables::{BoardRows, PassTables, PlanTables};
use crate::uses::{Uses, moving, steady_cells, uses_of};
use board_defs::{Board, Items, Setting};
use bt_bits::Row;
use counting_codes::width;
use net_pins::{NetPins, NetTables};
use std::alloc::{AllocError, Global};

// The cells of the drivers by which the passes of a plan observe nets, and the codes of the nets.
#[derive(Drop)]
struct PassParts {
    cells: PassTables,
    codes: NetCodes,
}

// The parts of a plan that this module makes. The caller gives the other parts: the pins and the passes.
#[derive(Drop)]
struct PlanParts {
    rows: BoardRows,
    passes: PassParts,
}

// Returns the rows that all passes share: the rows of the two instruction scans, and the quiet row, which disables
// every driver that has a control.
fn board_rows(alloc: Global, board: &Board) -> Result<BoardRows, AllocError>
    ensures { IfOk result (λ rows. AreBoardRows board.now rows) }
{
    let quiet = quiet_row(alloc, board)?;
    let preload = instruction_rows(alloc, Instruction::Preload, board)?;
    let extest = instruction_rows(alloc, Instruction::Extest, board)?;
    Ok(BoardRows {
        quiet,
        preload,
        extest,
    })
}

// Returns the driver table of the observers that are not steady. An observer is a driver by which its net can be
// observed. It is steady if there is a pass, every pass enables it and no pass has the observer's own cell as a
// control. `passes` must be the number of passes, and `bits` is the number of bits in a data scan.
fn moving_table(
    alloc: Global,
    uses: &Uses,
    passes: u32,
    observers: &[Observer],
    bits: usize,
) -> Result<DriverTable, AllocError>
    ensures { IfOk result (λ table. table ≡ table_of (moving uses.now passes observers.now) bits) }
{
    let others = moving(alloc, uses, passes, observers)?;
    driver_table(alloc, others.as_slice(), bits)
}

// Returns the cells of the steady observers, which all passes share, and the table of the other observers.
fn cells_by(
    alloc: Global,
    uses: &Uses,
    passes: u32,
    observers: &[Observer],
    bits: usize,
) -> Result<PassTables, AllocError>
    ensures { IfOk result
        (λ tables. (tables.steady ≡ steady_cells uses.now passes observers.now)
        × (tables.by_control ≡ table_of (moving uses.now passes observers.now) bits)) }
{
    let steady = steady_cells(alloc, uses, passes, observers)?;
    let by_control = moving_table(alloc, uses, passes, observers, bits)?;
    Ok(PassTables { steady, by_control })
}

// Returns the driver cells of the passes, which are the cells of the drivers by which the passes observe nets. `nets`
// must be the tables of the board's nets, and `quiet` must be the board's quiet row. Each pass must be safe, and each
// of its controls must control a driver of the board. There must be fewer than 2^32 passes.
fn pass_tables(
    alloc: Global,
    placed: &PlacedBoard,
    nets: &NetTables,
    quiet: &Row,
    passes: &[Setting],
) -> Result<PassTables, AllocError>
    requires nets { AreNetTables placed.now.board.now nets.now }
    requires quiet { quiet.now.bits
        ≡ bits_of_parts (quiet_bits placed.now.board.now) placed.now.board.now }
    requires few { length passes.now < 2 ^ 32 }
    requires plannable { ArePlannable placed.now.board.now passes.now }
    ensures { IfOk result
        (λ tables. ArePassTables placed.now.board.now passes.now tables.steady
        (pass_cells_of placed.now.board.now quiet.now.bits tables.by_control)) }
{
    let _ = placed.board.raw();
    let bits = placed.board.dr_bits() as usize;
    let observers = observers_of_nets(alloc, placed, nets)?;
    let uses = uses_of(alloc, placed, quiet, passes)?;
    cells_by(
        alloc,
        &uses,
        passes.len() as u32,
        observers.as_slice(),
        bits,
    )
}

// Returns the driver cells of the passes, and the codes of the nets that the passes observe. `pins` must be the pins of
// the board's nets, and `quiet` must be the board's quiet row. Each pass must be safe, and each of its controls must
// control a driver of the board. There must be fewer than 2^32 passes.
fn pass_parts(
    alloc: Global,
    board: &Board,
    pins: &NetPins,
    quiet: &Row,
    passes: &[Setting],
) -> Result<PassParts, AllocError>
    requires pins { AreNetPins board.now pins.now }
    requires quiet { quiet.now.bits ≡ bits_of_parts (quiet_bits board.now) board.now }
    requires few { length passes.now < 2 ^ 32 }
    requires plannable { ArePlannable board.now passes.now }
    ensures cells { IfOk result
        (λ parts. ArePassTables board.now passes.now parts.cells.steady
        (pass_cells_of board.now quiet.now.bits parts.cells.by_control)) }
    ensures codes { IfOk result
        (λ parts. AreCodes
        (seen_in board.now (length board.now.nets) parts.cells.steady parts.cells.by_control
        passes.now) parts.codes) }
{
    let count = board.raw().nets.len();
    let placed = PlacedBoard {
        board,
        firsts: pins.tables.firsts.as_slice(),
    };
    let cells = pass_tables(alloc, &placed, &pins.nets, quiet, passes)?;
    let codes = net_codes(alloc, &placed, count, &cells, passes)?;
    Ok(PassParts { cells, codes })
}

// Makes the rows that all passes share, the driver cells of the passes and the codes of the nets. `pins` must be the pins
// of the board's nets. Each pass must be safe, and each of its controls must control a driver of the board. There must be
// fewer than 2^32 passes. A function that owned the pins and the passes would have to drop them at each `?`, so this one
// borrows them.
fn plan_parts(
    alloc: Global,
    board: &Board,
    pins: &NetPins,
    passes: &[Setting],
) -> Result<PlanParts, AllocError>
    requires pins { AreNetPins board.now pins.now }
    requires few { length passes.now < 2 ^ 32 }
    requires plannable { ArePlannable board.now passes.now }
    ensures rows { IfOk result (λ parts. AreBoardRows board.now parts.rows) }
    ensures cells { IfOk result
        (λ parts. ArePassTables board.now passes.now parts.passes.cells.steady
        (pass_cells_of board.now parts.rows.quiet.bits parts.passes.cells.by_control)) }
    ensures codes { IfOk result
        (λ parts. AreCodes
        (seen_in board.now (length board.now.nets) parts.passes.cells.steady
        parts.passes.cells.by_control passes.now) parts.passes.codes) }
{
    let rows = board_rows(alloc, board)?;
    let passes = pass_parts(alloc, board, pins, &rows.quiet, passes)?;
    Ok(PlanParts { rows, passes })
}

/// Returns the tables of the plan for these passes. `pins` must be the pins of the board's nets. Each pass must be
/// safe, and each of its controls must control a driver of the board. There must be fewer than 2^32 passes.
pub fn tables_of(
    alloc: Global,
    board: &Board,
    pins: NetPins,
    passes: Items<Setting>,
) -> Result<PlanTables, AllocError>
    requires pins { AreNetPins board.now pins }
    requires few { length passes < 2 ^ 32 }
    requires plannable { ArePlannable board.now passes }
    ensures plan { IfOk result (λ tables. IsPlanOf board.now tables) }
    ensures passes { IfOk result (λ tables. tables.passes ≡ passes) }
    ensures width { IfOk result (λ tables. tables.width ≤ most_rows) }
{
    let _ = board.raw();
    let parts = plan_parts(alloc, board, &pins, passes.as_slice())?;
    let NetPins {
        tables: finding,
        nets,
    } = pins;
    let PlanParts {
        rows,
        passes: PassParts { cells, codes },
    } = parts;
    Ok(PlanTables {
        passes,
        width: width(codes.count),
        codes: codes.codes,
        preload: rows.preload,
        extest: rows.extest,
        quiet: rows.quiet,
        steady: cells.steady,
        firsts: finding.firsts,
        by_control: cells.by_control,
        nets,
    })
}
