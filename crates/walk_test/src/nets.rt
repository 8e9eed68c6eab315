// Makes the parts of a walk, which is the walking test of one board: its setting, its nets, their cells, and the rows
// that all scans share.
ghost use Rattle.std.specs.Prelude.{◌≡◌, ◌<◌, is_some, map, length, Some, None, slice_get, IfOk};
ghost use Rattle.std.specs.Option.{option_to_list};
ghost use Rattle.board_defs.specs.Passes.{passes_of};
ghost use Rattle.board_defs.specs.Pins.{data_bits};
ghost use Rattle.net_pins.specs.Tables.{AreNetPins};
ghost use Rattle.scan_planner.specs.Plans.{ArePlannable};
ghost use Rattle.walk_test.specs.WalkTest.{walk_setting};
ghost use Rattle.walk_test.specs.inner.Tables.{positions_beside, cells_by, cells_in, nets_in, nets_by, cells_in_walk, cleared, AreMade, HasRoom};

use crate::setting::walk_settings;
use crate::tables::{NetCells, WalkParts, WalkRows};
use board_defs::{Board, Items, Setting};
use bt_bits::Row;
use lists::push_if;
use net_pins::{BoardPins, NetDriver, NetPins, ReaderCell};
use scan_planner::BoardPlan;
use std::alloc::{AllocError, Global};

// Returns the positions of the cells in `readers` that read a pin other than the pin at `place`, an index in
// the net's list of pins.
fn positions_beside(
    alloc: Global,
    place: u32,
    readers: &[ReaderCell],
) -> Result<Items<u32>, AllocError>
    ensures { IfOk result (λ positions. positions ≡ positions_beside place readers.now) }
{
    let mut positions = Vec::new(alloc);
    for reader in readers {
        push_if(&mut positions, reader.position, reader.place != place)?;
    }
    Ok(Items::of(positions))
}

fn net_cells(
    alloc: Global,
    pins: &NetPins,
    net: u32,
    driver: Option<NetDriver>,
) -> Result<NetCells, AllocError>
    ensures { IfOk result (λ cells. cells ≡ cells_by pins.now net driver) }
{
    match driver {
        None => Ok(NetCells {
            driver: 0,
            compared: Items::of(Vec::new(alloc)),
        }),
        Some(driver) => {
            let compared = positions_beside(alloc, driver.place, pins.nets.readers(net))?;
            Ok(NetCells {
                driver: driver.position,
                compared,
            })
        }
    }
}

// Returns the numbers below `count` of the nets that the setting `walk` observes.
fn nets_in(
    alloc: Global,
    pins: &NetPins,
    walk: &Setting,
    count: u32,
) -> Result<Vec<u32>, AllocError>
    ensures { IfOk result (λ nets. nets.items ≡ nets_in pins.now walk.now count) }
{
    let mut nets = Vec::new(alloc);
    for n in 0..count {
        push_if(&mut nets, n, pins.nets.observer(walk, n).is_some())?;
    }
    Ok(nets)
}

// Returns, for each of these nets, the positions of its driver cell and of its compared cells under the setting `walk`.
fn all_cells(
    alloc: Global,
    pins: &NetPins,
    walk: &Setting,
    nets: &[u32],
) -> Result<Vec<NetCells>, AllocError>
    ensures { IfOk result (λ all. all.items ≡ map (cells_in pins.now walk.now) nets.now) }
{
    let mut all = Vec::new(alloc);
    for n in nets {
        all.push(net_cells(alloc, pins, *n, pins.nets.observer(walk, *n))?)?;
    }
    Ok(all)
}

// Writes a 0 in the row at the driver cell of each of these nets.
fn clear_drivers(cells: &[NetCells], row: &mut Row)
    ensures { row.new.bits ≡ cleared row.old.bits cells.now }
{
    for net in cells {
        if net.driver < row.len() {
            row.set(net.driver, false);
        }
    }
}

// Returns the nets below `count` that the first of these settings observes, or no nets if there is no setting.
fn first_nets(
    alloc: Global,
    pins: &NetPins,
    passes: &[Setting],
    count: u32,
) -> Result<Vec<u32>, AllocError>
    ensures { IfOk result (λ nets. nets.items ≡ nets_by pins.now (slice_get passes.now 0) count) }
{
    match passes.first() {
        None => Ok(Vec::new(alloc)),
        Some(walk) => nets_in(alloc, pins, walk, count),
    }
}

// Returns the walk nets: the nets of the board that the first of these settings observes. If there is no setting, there
// are no walk nets.
fn walk_nets(
    alloc: Global,
    board: &Board,
    pins: &NetPins,
    passes: &[Setting],
) -> Result<Items<u32>, AllocError>
    ensures { IfOk result
        (λ nets. nets ≡ nets_by pins.now (slice_get passes.now 0) (length board.now.nets)) }
{
    let count = board.raw().nets.len() as u32;
    Ok(Items::of(first_nets(alloc, pins, passes, count)?))
}

// Returns the cells of these nets under the first of the settings, or no cells if there is no setting.
fn first_cells(
    alloc: Global,
    pins: &NetPins,
    passes: &[Setting],
    nets: &[u32],
) -> Result<Vec<NetCells>, AllocError>
    ensures { IfOk result
        (λ all. all.items ≡ cells_in_walk pins.now (slice_get passes.now 0) nets.now) }
{
    match passes.first() {
        None => Ok(Vec::new(alloc)),
        Some(walk) => all_cells(alloc, pins, walk, nets),
    }
}

// Returns the cells of these walk nets under the first of the settings, or no cells if there is no setting.
fn walk_cells(
    alloc: Global,
    pins: &NetPins,
    passes: &[Setting],
    nets: &[u32],
) -> Result<Items<NetCells>, AllocError>
    ensures { IfOk result
        (λ cells. cells ≡ cells_in_walk pins.now (slice_get passes.now 0) nets.now) }
{
    Ok(Items::of(first_cells(alloc, pins, passes, nets)?))
}

// Returns empty rows with room for a data scan.
fn blank_rows(alloc: Global, board: &Board) -> Result<WalkRows, AllocError>
    ensures { IfOk result (HasRoom (data_bits board.now)) }
{
    let len = board.dr_bits();
    let still = Row::with_room(alloc, len)?;
    let mask = Row::with_room(alloc, len)?;
    Ok(WalkRows { still, mask })
}

/// Returns the parts of a board's walk, made from the pins of the board's nets and the first pass of the
/// board's test. `pins` must be the pins of the board's nets, and the first of `passes` must be the first
/// pass of the board's test. The rows have room, but are still empty: `fill_rows` fills them from the plan.
/// All memory other than the plan's is allocated here. So nothing can fail after `Walk::of` has made the
/// plan, and no return of an error has to drop a plan.
pub fn walk_parts(
    alloc: Global,
    board: &Board,
    pins: &NetPins,
    passes: &[Setting],
) -> Result<WalkParts, AllocError>
    requires pins { AreNetPins board.now pins.now }
    requires passes { slice_get passes.now 0 ≡ slice_get (passes_of board.now) 0 }
    ensures settings { IfOk result
        (λ parts. parts.settings.items ≡ option_to_list (walk_setting board.now)) }
    ensures plannable { IfOk result (λ parts. ArePlannable board.now parts.settings.items) }
    ensures nets { IfOk result
        (λ parts. parts.nets ≡ nets_by pins.now (walk_setting board.now) (length board.now.nets)) }
    ensures cells { IfOk result
        (λ parts. parts.cells ≡ cells_in_walk pins.now (walk_setting board.now) parts.nets) }
    ensures rows { IfOk result (λ parts. HasRoom (data_bits board.now) parts.rows) }
{
    let settings = walk_settings(alloc, &BoardPins::of(board, &pins.tables), passes)?;
    let nets = walk_nets(alloc, board, pins, &settings)?;
    let cells = walk_cells(alloc, pins, &settings, nets.as_slice())?;
    let rows = blank_rows(alloc, board)?;
    Ok(WalkParts {
        settings,
        nets,
        cells,
        rows,
    })
}

/// Fills the rows of a walk from its plan and the cells of its nets. `still` gets the first row of the pass with a 0 at
/// the driver cell of each walk net. `mask` gets a 1 at each position that is compared for this row. Both rows must
/// have room for a data scan. If the plan has no pass, they stay unchanged.
pub fn fill_rows(test: &BoardPlan<'_>, cells: &[NetCells], rows: &mut WalkRows)
    requires { HasRoom (data_bits test.now.board) rows.old }
    ensures { AreMade test.now.board test.now.plan cells.now rows.new }
{
    if test.plan().pass_count() == 0 {
        return;
    }
    let pass = test.pass(0);
    // `still` has the expected bits, which nothing needs, until the next call fills it with the row.
    pass.fill_compared(0, &mut rows.still, &mut rows.mask);
    pass.fill_shifted(0, &mut rows.still);
    clear_drivers(cells, &mut rows.still);
}
