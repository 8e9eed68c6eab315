// The contents of a plan: the positions and bits from which each scan is made.
use crate::controls::DriverTable;
use board_defs::{Items, Setting};
use bt_bits::Row;
use net_pins::NetTables;
use tap_defs::StoredRows;

/// The cell of a control of a pass: its position in data scans, and the bit that enables the control's drivers.
#[derive(Clone, Copy)]
pub struct HeldCell {
    pub position: u32,
    pub bit: bool,
}

/// The cell of the driver by which a pass observes a net: the number of the net, the place of the driver's pin in the
/// net, and the position of the cell in data scans.
#[derive(Clone, Copy)]
pub struct DriverCell {
    pub net: u32,
    pub place: u32,
    pub position: u32,
}

/// The rows that all passes of a plan share: the two instruction scans, and the quiet row, which disables every driver
/// that has a control.
#[derive(Drop)]
pub struct BoardRows {
    pub quiet: Row,
    pub preload: StoredRows,
    pub extest: StoredRows,
}

/// The driver cells that are the same in all passes (the steady cells), and the table of the other driver cells.
#[derive(Drop)]
pub struct PassTables {
    pub steady: Items<DriverCell>,
    pub by_control: DriverTable,
}

/// The tables of a plan. The instruction scans, the quiet row and the steady driver cells are the same in all
/// passes. To find the other cells of a pass, look up its controls in `firsts` (the position of each part's
/// first bit in data scans) and in `by_control` (the driver cells of each control). `codes` has the code of
/// each net, or 0 for a net that no pass observes. `nets` has the compared cells of each net, and the drivers
/// of each net that is not guarded. `width` is the number of bits of a code.
#[derive(Drop)]
pub struct PlanTables {
    pub passes: Items<Setting>,
    pub width: u32,
    pub codes: Items<u32>,
    pub preload: StoredRows,
    pub extest: StoredRows,
    pub quiet: Row,
    pub steady: Items<DriverCell>,
    pub firsts: Items<u32>,
    pub by_control: DriverTable,
    pub nets: NetTables,
}
