//! The program, run on the example of ranges, registers and a reset.
#![tactic(auto)]

use gv_program::exit_code;
use std::process::ExitCode;

fn main(rt: HostRuntime) -> ExitCode {
    exit_code(&rt)
}
