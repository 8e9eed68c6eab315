// Small boards with devices of `run_bench`, functions that return a board's plan and logs, and functions that return whether a board has
// a given cell, pin or net.
ghost use Rattle.std.specs.Prelude.{◌≡◌, ◌*◌, ◌<◌, ◌^◌, length, All, IfOk, IsTrue};
ghost use Rattle.board_defs.specs.Passes.{passes_of};
ghost use Rattle.board_defs.specs.Pins.{data_bits, IsCell, IsOnBoard};
ghost use Rattle.scan_planner.specs.Plans.{IsPlanOf};

use board_defs::{Board, Ctl, PinRef};
use btest_core::{plan, read_board};
use net_classes::classify;
use response_log::{Log, log};
use run_bench::{DEVICES, RowFault};
use scan_planner::Plan;
use std::alloc::{AllocError, Global};

/// The files of a board whose devices are described in `run_bench::DEVICES`.
#[derive(Clone, Copy)]
pub struct Files {
    /// The chain file.
    pub chain: &'static str,
    /// The net file.
    pub nets: &'static str,
}

/// A board with two devices, a driver with two outputs and a receiver with two inputs. Two nets connect them.
pub const PAIR: Files = Files {
    chain: run_bench::CHAIN,
    nets: run_bench::NETS,
};

/// A board with a device that has two control cells. Each cell enables a driver of net X and a driver of one other net, A or B. So no pass
/// enables the drivers of both cells, and no pass observes nets A and B together.
pub const GROUPS: Files = Files {
    chain: "DEVICE U1 TWO -\nDEVICE U2 RCV -\nDEVICE U3 RCV -\n",
    nets: "NET A U1.1 U2.1\nNET X U1.2 U1.3 U2.2\nNET B U1.4 U3.1\n",
};

/// A board whose only net connects a bidirectional pin with a three-state driver. Only the bidirectional pin is a receiver.
pub const BIDIR: Files = Files {
    chain: "DEVICE U1 BI -\nDEVICE U2 TS -\n",
    nets: "NET N U1.1 U2.1\n",
};

/// A board with an open-drain driver on a net that is pulled up.
pub const PULLED: Files = Files {
    chain: "DEVICE U1 OD -\nDEVICE U2 RCV1 -\nPULL N 1\n",
    nets: "NET N U1.1 U2.1\n",
};

// The error for texts that are too long or do not describe a board or a log.
pub const UNREAD: RowFault = RowFault::Other {
    table: "texts of a board",
    row: 0,
};

// Returns the BSDL texts of `DEVICES`.
fn texts(alloc: Global) -> Result<Vec<Vec<u8>>, AllocError> {
    let mut texts = Vec::new(alloc);
    for (_, text) in &DEVICES {
        texts.push(text.as_bytes().to_vec(alloc)?)?;
    }
    Ok(texts)
}

fn is_short(text: &Vec<u8>) -> bool
    ensures { IsTrue result → length text.now.items < 2 ^ 32 }
{
    text.len() < 1_000_000
}

fn are_short(texts: &[Vec<u8>]) -> bool
    ensures each { IsTrue result → All (λ text. length text.items < 2 ^ 32) texts.now }
{
    texts.iter().all(is_short)
}

/// Returns the board of these files. The error is `UNREAD` if a file has more than 10,000 bytes or the files do not describe a board.
pub fn board_of(alloc: Global, files: Files) -> Result<Board, RowFault> {
    let texts = texts(alloc)?;
    let (chain, nets) = (files.chain.as_bytes(), files.nets.as_bytes());
    if !are_short(&texts) || texts.len() > 100 || chain.len() > 10_000 || nets.len() > 10_000 {
        return Err(UNREAD);
    }
    match read_board(alloc, chain, nets, &texts) {
        Ok(board) => Ok(board),
        Err(_) => Err(UNREAD),
    }
}

/// Returns the plan of the board's test.
pub fn plan_of(alloc: Global, board: &Board) -> Result<Plan, AllocError>
    ensures plan { IfOk result (λ plan. IsPlanOf board.now plan) }
    ensures passes { IfOk result (λ plan. plan.passes ≡ passes_of board.now) }
{
    let classes = classify(alloc, board)?;
    plan(alloc, board, &classes)
}

/// Returns the log in the text. The error is `UNREAD` if the text has more than 10,000 bytes or is not a log of this plan's test.
pub fn log_of(alloc: Global, board: &Board, plan: &Plan, text: &str) -> Result<Log, RowFault>
    ensures rows { IfOk result (λ log. length log ≡ length plan.now.passes * plan.now.width) }
    ensures bits { IfOk result (λ log. All (λ row. length row ≡ data_bits board.now) log) }
{
    if text.len() > 10_000 {
        return Err(UNREAD);
    }
    match log(alloc, text.as_bytes(), plan.rows(), board.dr_bits()) {
        Ok(log) => Ok(log),
        Err(_) => Err(UNREAD),
    }
}

/// Returns whether the board has this cell.
pub fn is_cell(board: &Board, c: Ctl) -> bool
    ensures { IsTrue result → IsCell board.now c }
{
    match board.raw().device(c.part) {
        Some(device) => c.cell < device.boundary,
        None => false,
    }
}

/// Returns whether the board has this pin.
pub fn is_pin(board: &Board, pin: PinRef) -> bool
    ensures { IsTrue result → IsOnBoard board.now pin }
{
    match board.raw().nets.as_slice().get(pin.net as usize) {
        Some(net) => (pin.place as usize) < net.pins.len(),
        None => false,
    }
}

/// Returns whether the board has this net.
pub fn is_net(board: &Board, net: u32) -> bool
    ensures { IsTrue result → net < length board.now.nets }
{
    (net as usize) < board.raw().nets.len()
}
