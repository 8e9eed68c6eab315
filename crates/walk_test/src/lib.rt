//! The walking test. Counting codes show that there is a short. Walking ones show which nets are shorted, for any
//! number of shorts of any number of nets at once.
//!
//! The walk nets are the nets that the test observes. In each row, one walk net carries 1 and all other walk nets carry
//! 0. A net that reads the 1 of another net is in the same group as that net. A group consists of nets that are shorted
//! together.
#![tactic(auto)]

mod digits;
mod filling;
mod group;
mod grouping;
mod labels;
pub mod law;
mod lines;
mod listing;
mod nets;
mod reading;
mod setting;
mod tables;
mod walk;
mod walk_log;

pub use group::Group;
pub use grouping::groups;
pub use listing::write_groups;
pub use walk::Walk;
