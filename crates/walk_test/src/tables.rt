// The tables of a walk, which is the walking test of one board.
use board_defs::{Items, Setting};
use bt_bits::Row;
use scan_planner::Plan;

/// The positions of the cells of a walk net: the cell of its driver, and the compared cells.
#[derive(Debug, Drop)]
pub struct NetCells {
    pub driver: u32,
    pub compared: Items<u32>,
}

/// The rows that all scans of a walk share: the bits to shift in while no walk net carries 1, and the positions to compare. If a walk has
/// no pass, it needs neither row.
#[derive(Drop)]
pub struct WalkRows {
    pub still: Row,
    pub mask: Row,
}

/// The parts of a walk, without the pins of the board's nets: the passes of its plan, the walk nets, the cells of each walk net, and the
/// rows from which all scans are made.
#[derive(Drop)]
pub struct WalkParts {
    pub settings: Vec<Setting>,
    pub nets: Items<u32>,
    pub cells: Items<NetCells>,
    pub rows: WalkRows,
}

/// The tables of a walk. The plan has the walk setting as its only pass, or no pass. The other tables are the walk nets, the cells of each
/// walk net, and the rows from which all scans are made.
#[derive(Drop)]
pub struct WalkTables {
    pub plan: Plan,
    pub nets: Items<u32>,
    pub cells: Items<NetCells>,
    pub rows: WalkRows,
}
