//! Callers of the public functions that the program does not call, and of functions that it calls but that have a clause that no other
//! caller needs. Each function here calls one of them and has the same contract as the function that it calls. So if a change weakens the
//! contract of the called function, the proof of its caller fails.
//!
//! The modules whose names end in `_laws` call the laws that no other function calls, and the laws with a clause that no other caller
//! needs. A law is a function that does nothing, and its contract states a property of definitions.
#![tactic(auto)]

pub mod board_laws;
pub mod boards;
pub mod chain_laws;
pub mod chains;
pub mod device_laws;
pub mod device_texts;
pub mod diagnoses;
pub mod explaining;
pub mod files;
pub mod log_laws;
pub mod net_questions;
pub mod number_laws;
pub mod plans;
pub mod rows;
pub mod sinks;
pub mod stores;
pub mod taps;
pub mod test_laws;
pub mod values;
