//! The program, run on the example of two guests that share the blitter engine.
#![tactic(auto)]

use gv_program::exit_code;
use std::process::ExitCode;

fn main(rt: HostRuntime) -> ExitCode {
    exit_code(&rt)
}
