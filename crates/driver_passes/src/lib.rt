//! Makes the passes of a board's test. A pass is a safe setting. For each tested driver, some pass enables the driver.
//! For every two paired nets, some pass observes both nets.
#![tactic(auto)]

mod alike;
mod blocks;
mod column;
mod draft;
mod drivers;
mod making;
mod number_set;
mod paired;
mod pairs;
mod sharers;
mod shown;
mod tables;
mod tested;
mod walk;

pub use making::{first_pass, passes};
