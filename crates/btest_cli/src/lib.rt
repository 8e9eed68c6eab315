//! The function `run`, which runs a command line: it reads the texts that the words name, writes the text of the command or one line that
//! says why not, and returns the status.
#![tactic(auto)]

mod failure;
mod requests;
mod status;
mod texts;
mod top;

pub use refusal_lines::put_usage;
pub use status::Status;
pub use top::run;
