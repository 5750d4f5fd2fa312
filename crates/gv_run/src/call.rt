ghost use Rattle.std.specs.Prelude.{◌≡◌, ◌≢◌, ℕ, ◌+◌, ◌≤◌, ◌⊎◌, IfSome, map};
ghost use Rattle.gv_outside.specs.Causes.{Rose};
ghost use Rattle.gv_gpu.specs.Device.{IsEmpty, counted};
ghost use Rattle.gv_text.specs.Script.{script_limit};
ghost use Rattle.gv_words.specs.Names.{NamesRun, NamesGen, NamesNothing};
ghost use Rattle.gv_run.specs.Headline.{RunsScript, SumsUp, TakesAtMost, status_of, status_of_stop};
ghost use Rattle.gv_run.specs.Streamed.{StopsAtFault};

use crate::made::run_number;
use crate::script::run_script;
use crate::stopped::Stopped;
use gv_gpu::Gpu;
use gv_outside::{Sink, Source};
use gv_text::Ending;
use gv_words::{Task, WordsRefused, task_of};
use std::alloc::Global;

/// How a run went.
#[derive(Clone, Copy, Debug, PartialEq, Eq)]
pub enum Status {
    /// The script was run to its `end` line.
    Done,
    /// Want of memory.
    OutOfMemory,
    /// The words aren't a command.
    BadWords,
    /// The source failed.
    ReadFault,
    /// The sink failed.
    WriteFault,
    /// The script's line with this number is the first that is refused, or that is missing.
    BadScript(u64),
    /// The script is too long.
    TooLong,
    /// The device failed.
    DeviceFault,
}

impl Status {
    ghost use Rattle.gv_run.specs.Status.{code_of};

    /// The exit status of the program.
    pub fn code(&self) -> u8
        ensures { result ≡ code_of self.now }
    {
        match self {
            Status::Done => 0,
            Status::OutOfMemory => 1,
            Status::BadWords => 2,
            Status::ReadFault => 3,
            Status::WriteFault => 4,
            Status::BadScript(_) => 5,
            Status::TooLong => 6,
            Status::DeviceFault => 7,
        }
    }
}

fn status_of(ending: Ending) -> Status
    ensures { result ≡ status_of ending }
{
    match ending {
        Ending::Done => Status::Done,
        Ending::BadScript(number) => Status::BadScript(number),
        Ending::TooLong => Status::TooLong,
    }
}

// The status of a run that stopped.
fn status_of_stop(stopped: Stopped) -> Status
    ensures { result ≡ status_of_stop stopped }
{
    match stopped {
        Stopped::OutOfMemory => Status::OutOfMemory,
        Stopped::Read => Status::ReadFault,
        Stopped::Write => Status::WriteFault,
        Stopped::Device => Status::DeviceFault,
    }
}

// The command `run`. No byte is taken behind the first one past the limit.
fn run_source<S: Source, K: Sink, G: Gpu>(
    alloc: Global,
    source: &mut S,
    sink: &mut K,
    gpu: &mut G,
) -> Status
    requires empty { IsEmpty (G.state gpu.old) }
    ensures { RunsScript result (S.left source.old) (S.left source.new) (S.faults source.old) (S.faults source.new)
        (K.held sink.old) (K.held sink.new) (K.faults sink.old) (K.faults sink.new) (G.state gpu.old) (G.state gpu.new) }
{
    match run_script(alloc, source, sink, gpu) {
        Ok(ending) => status_of(ending),
        Err(stopped) => status_of_stop(stopped),
    }
}

// The command `gen` with this number.
fn sum_number_up<K: Sink, G: Gpu>(alloc: Global, number: u32, sink: &mut K, gpu: &mut G) -> Status
    requires empty { IsEmpty (G.state gpu.old) }
    ensures { SumsUp number result (K.held sink.old) (K.held sink.new) (K.faults sink.old) (K.faults sink.new) (G.state gpu.old) (G.state gpu.new) }
{
    match run_number(alloc, number, sink, gpu) {
        Ok(()) => Status::Done,
        Err(stopped) => status_of_stop(stopped),
    }
}

/// The whole program: `words` are its arguments without its name, which are read as clap reads them. For
/// the command `run` it reads a script from the source, line by line, runs each line over the device as soon
/// as its line feed was taken, and writes the script's report to the sink. For the command `gen` it runs the
/// script of the number that the words name, and writes the summary of its report alone: how many lines and
/// bytes it has, and their fold. It doesn't read the source then.
/// Where the source or the sink doesn't tell its bytes, the clauses on them claim nothing.
///
/// Nothing ties `OutOfMemory` to a refused allocation.
pub fn mediate<S: Source, K: Sink, G: Gpu>(
    alloc: Global,
    words: &[&str],
    source: &mut S,
    sink: &mut K,
    gpu: &mut G,
) -> Status
    requires empty { IsEmpty (G.state gpu.old) }

    // What each command promises: `run`, and `gen` with a number, which leaves the source alone.
    ensures runs { NamesRun (map (λ word. word.now) words.now)
        → RunsScript result (S.left source.old) (S.left source.new) (S.faults source.old) (S.faults source.new)
        (K.held sink.old) (K.held sink.new) (K.faults sink.old) (K.faults sink.new) (G.state gpu.old) (G.state gpu.new) }
    ensures sums_up { (number : ℕ) → NamesGen (map (λ word. word.now) words.now) number
        → SumsUp number result (K.held sink.old) (K.held sink.new) (K.faults sink.old) (K.faults sink.new) (G.state gpu.old) (G.state gpu.new) }
    ensures unread { (number : ℕ) → NamesGen (map (λ word. word.now) words.now) number → source.new ≡ source.old }

    // Words that name neither. Reading the words takes memory, which may be wanting.
    ensures words { result ≡ Status.BadWords → NamesNothing (map (λ word. word.now) words.now) }
    ensures refused { NamesNothing (map (λ word. word.now) words.now) → (result ≡ Status.BadWords) ⊎ (result ≡ Status.OutOfMemory) }
    ensures unchanged { NamesNothing (map (λ word. word.now) words.now) → (source.new ≡ source.old) × (sink.new ≡ sink.old) × (gpu.new ≡ gpu.old) }

    // And whatever the words: no engine touches a page of another guest, no byte is taken behind the first one past the limit,
    // and at a read fault the report of exactly the lines whose line feed was taken was written, none of which ends the script.
    ensures strays { (G.state gpu.new).strays ≡ 0 }
    ensures taken { TakesAtMost (script_limit + 1) (S.left source.old) (S.left source.new) }
    ensures fault { result ≡ Status.ReadFault → IfSome (S.left source.old) (λ bytes.
        StopsAtFault (S.left source.old) (S.left source.new) (K.held sink.old) (K.held sink.new)) }

    // A fault is answered only where it was counted. One of the device is never passed over, nor told as anything else.
    ensures read { result ≡ Status.ReadFault → Rose (S.faults source.old) (S.faults source.new) }
    ensures write { result ≡ Status.WriteFault → Rose (K.faults sink.old) (K.faults sink.new) }
    ensures device { result ≡ Status.DeviceFault → counted (G.state gpu.old).faults ≤ (G.state gpu.new).faults }
    ensures quiet { result ≢ Status.DeviceFault → (G.state gpu.new).faults ≡ (G.state gpu.old).faults }
{
    match task_of(alloc, words) {
        Ok(Task::Run) => run_source(alloc, source, sink, gpu),
        Ok(Task::Gen(number)) => sum_number_up(alloc, number, sink, gpu),
        Err(WordsRefused::BadWords) => Status::BadWords,
        Err(WordsRefused::OutOfMemory) => Status::OutOfMemory,
    }
}
