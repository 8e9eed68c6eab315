//! Cuts work on many items into pieces that run side by side.
#![tactic(auto)]

pub mod law;
mod pieces;
mod workers;

pub use pieces::{Piece, in_pieces};
pub use workers::{MOST_WORKERS, Workers};
