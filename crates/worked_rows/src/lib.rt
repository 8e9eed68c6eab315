//! Tests of whole runs of the commands `cover`, `svf` and `make`, and of the rules and limits of the files of a board.
#![tactic(auto)]

#[cfg(test)]
mod boards;
#[cfg(test)]
mod cover;
#[cfg(test)]
mod generated;
#[cfg(test)]
mod long_words;
#[cfg(test)]
mod make;
#[cfg(test)]
mod orders;
#[cfg(test)]
mod sizes;
#[cfg(test)]
mod svf;
