//! Tests of whole runs in which a read or a write fails, or a text is too long or faulty. Each command has runs with some of these
//! failures.
#![tactic(auto)]

#[cfg(test)]
mod calls;
#[cfg(test)]
mod limits;
#[cfg(test)]
mod names;
#[cfg(test)]
mod reads;
#[cfg(test)]
mod writes;
