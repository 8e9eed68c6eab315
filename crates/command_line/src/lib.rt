//! Reads the words of the command line with `clap`.
#![tactic(auto)]

mod command;
mod found;
mod grammar;
mod names;
mod number;
mod words;

pub use command::{BoardFiles, ChainFiles, Command, LogFiles};
pub use names::{BoardNames, BsdlNames, ChainNames, FileName, LogNames, NamedCommand};
pub use number::PartCount;
pub use words::command_of;
