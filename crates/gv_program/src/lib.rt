//! The program over standard input, standard output and a device in memory.
#![tactic(auto)]

use gv_engine::SoftGpu;
use gv_outside::{StdSink, StdSource};
use gv_run::{Status, mediate};
use std::io::ErrorKind;
use std::process::ExitCode;
use std::{env, io};

fn run(rt: &HostRuntime) -> io::Result<Status> {
    let arguments = env::args(rt)?.collect::<Vec<String>>(rt.alloc())?;
    let mut words = Vec::new(rt.alloc());
    for argument in arguments.iter().skip(1) {
        words.push(argument.as_str())?;
    }
    let mut source = StdSource::new(rt.stdin());
    let mut sink = StdSink::new(rt.stdout());
    let mut gpu = SoftGpu::new(rt.alloc());
    Ok(mediate(rt.alloc(), &words, &mut source, &mut sink, &mut gpu))
}

/// Does what the program's arguments say, and answers its exit status: the status of `mediate`, or that of
/// want of memory, or of bad words, where the arguments can't be read.
pub fn exit_code(rt: &HostRuntime) -> ExitCode {
    let status = match run(rt) {
        Ok(status) => status,
        Err(error) if error.kind() == ErrorKind::OutOfMemory => Status::OutOfMemory,
        Err(_) => Status::BadWords,
    };
    ExitCode::from(status.code())
}
