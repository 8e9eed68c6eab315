//! Tests of public functions of the library crates below the commands of btest. Most tests check each row of a table.
#![tactic(auto)]

#[cfg(test)]
mod chains;
#[cfg(test)]
mod ends;
#[cfg(test)]
mod files;
#[cfg(test)]
mod logs;
#[cfg(test)]
mod missed;
#[cfg(test)]
mod printing;
#[cfg(test)]
mod rows;
#[cfg(test)]
mod scans;
#[cfg(test)]
mod words;
