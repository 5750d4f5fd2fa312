//! `gvtbox run` reads a script from standard input, runs it over a device in memory, and writes the
//! script's report to standard output. `gvtbox gen N` does the same with the script that the number N makes, and writes
//! the summary of the report. The exit status says how that went.
#![tactic(auto)]

#[cfg(test)]
mod engines;
#[cfg(test)]
mod layers;
#[cfg(test)]
mod refusals;
#[cfg(test)]
mod rows;
#[cfg(test)]
mod summaries;
#[cfg(test)]
mod switches;
#[cfg(test)]
mod upkeep;

use gv_program::exit_code;
use std::process::ExitCode;

fn main(rt: HostRuntime) -> ExitCode {
    exit_code(&rt)
}
