// The verdict on a log.
use board_defs::{Items, Single};

/// The verdict on a log. `pass` is true if and only if every compared bit of the log is the expected bit. `faults` has the single faults
/// that explain the log, each once and in the order of the board's list of single faults.
#[derive(Drop)]
pub struct Verdict {
    pub pass: bool,
    pub faults: Items<Single>,
}
