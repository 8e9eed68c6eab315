//! Tests of public functions that the program does not call.
#![tactic(auto)]

#[cfg(test)]
mod batches;
#[cfg(test)]
mod boards;
#[cfg(test)]
mod chain_states;
#[cfg(test)]
mod entities;
#[cfg(test)]
mod explaining;
#[cfg(test)]
mod net_questions;
#[cfg(test)]
mod scans;
