//! Series parts: the nets that they join, and the files of a board in which joined nets have the same name.
#![tactic(auto)]

mod classes;
mod edges;
mod fault;
mod files;
mod joining;
pub mod law;
mod least;
mod missing;
mod names;
mod pins;

pub use fault::LinkFault;
pub use joining::{Joined, join};
