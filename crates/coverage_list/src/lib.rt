//! The coverage list of a board. It says how many nets a test can cover, and names the nets that no test can
//! cover. It names the drivers and receivers of covered nets that no test can test, and the pairs of covered
//! nets that no test can observe together.
#![tactic(auto)]

pub mod law;
mod lines;
mod listing;
mod questions;

pub use listing::{covered_nets, write_cover};
