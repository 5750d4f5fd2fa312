//! The program, run on the script that a number makes.
#![tactic(auto)]

use gv_program::exit_code;
use std::process::ExitCode;

fn main(rt: HostRuntime) -> ExitCode {
    exit_code(&rt)
}
