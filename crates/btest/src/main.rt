//! The program. Runs the words of the command line on the files and the standard streams.
#![tactic(auto)]

use host_start::start;
use std::process::ExitCode;

fn main(rt: HostRuntime) -> ExitCode {
    start(&rt, rt.stderr())
}
