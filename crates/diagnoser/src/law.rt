//! Laws of diagnoses. Each law is the contract of a function that does nothing.
ghost use Rattle.diagnoser.specs.Laws.{ExplainingListed, OneList, OneDiagnosis, PassingUnexplained};

use board_defs::law as board_law;
use tap_defs::board_law::{expected_logs, singles_observable};

/// The faults of a diagnosis are exactly the board's single faults that explain the log, each once and in the order of the board's list of
/// single faults.
pub fn explaining_listed()
    ensures { ExplainingListed }
{
    board_law::singles_listed();
}

/// A log has at most one list of the single faults that explain it, in the order of the board's list of single faults. So neither the
/// number of workers nor the gate can change the list.
pub fn one_list()
    ensures { OneList }
{}

/// A log has at most one diagnosis.
pub fn one_diagnosis()
    ensures { OneDiagnosis }
{}

/// If every compared bit of a log is the expected bit, no single fault explains the log.
pub fn passing_unexplained()
    ensures { PassingUnexplained }
{
    board_law::singles_listed();
    singles_observable();
    expected_logs();
}
