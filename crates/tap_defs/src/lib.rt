//! A model of a board and its scan chain, in which the guarantees of the generated tests are
//! stated. It has two halves.
//!
//! The chain (`specs/chain`, `proofs/chain`, `chain_law`): TAP controllers, registers, scans, the
//! meaning of SVF text, and the guarantee of the chain test. This half does not depend on boards.
//!
//! The board around its chain (`specs/board`, `proofs/board`, `board_law`): nets under faults, the
//! scans of a board's test, what makes an SVF text safe to apply, the guarantee of the test, and
//! the faults that explain a log. This half depends on the chain and on the vocabulary of
//! `board_defs`.
#![tactic(auto)]

pub mod board_law;
pub mod chain_law;
mod scan;
mod tap;

pub use scan::{ScanRows, Shape, StoredRows};
pub use tap::TapState;
