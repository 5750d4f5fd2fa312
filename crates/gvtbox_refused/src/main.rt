//! The program, run on a script with a line that is refused.
#![tactic(auto)]

use gv_program::exit_code;
use std::process::ExitCode;

fn main(rt: HostRuntime) -> ExitCode {
    exit_code(&rt)
}
