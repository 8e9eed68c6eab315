//! Tests of whole runs of the commands `device`, `chain` and `ident`, and of command lines that are not valid.
#![tactic(auto)]

#[cfg(test)]
mod cells;
#[cfg(test)]
mod chain;
#[cfg(test)]
mod grammar;
#[cfg(test)]
mod ident;
#[cfg(test)]
mod listings;
#[cfg(test)]
mod long_registers;
#[cfg(test)]
mod makers;
#[cfg(test)]
mod rules;
