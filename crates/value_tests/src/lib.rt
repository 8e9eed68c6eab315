//! Tests that public types are `Send` and `Sync`, and that the message of each fault agrees with the line that btest writes to standard
//! error for this fault.
#![tactic(auto)]

#[cfg(test)]
mod sharing;
#[cfg(test)]
mod wordings;
