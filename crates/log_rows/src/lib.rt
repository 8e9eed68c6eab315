//! Tests of whole runs of the commands that read logs, `diagnose`, `batch` and `groups`, and of `walk`, which writes the walking test.
#![tactic(auto)]

#[cfg(test)]
mod batch;
#[cfg(test)]
mod diagnose;
#[cfg(test)]
mod gates;
#[cfg(test)]
mod generated;
#[cfg(test)]
mod groups;
#[cfg(test)]
mod walk;
#[cfg(test)]
mod wide;
