ghost use Rattle.std.specs.Prelude.{◌≡◌, ◌≢◌, ◌+◌, ◌^◌, ◌<◌, ◌≤◌, [], true, IfOk, OnOk, IfSome};
ghost use Rattle.gv_outside.specs.Causes.{Rose};
ghost use Rattle.gv_lines.specs.Outlet.{in_sink};
ghost use Rattle.gv_lines.specs.Reader.{new_reader};
ghost use Rattle.gv_gpu.specs.Device.{IsEmpty};
ghost use Rattle.gv_text.specs.Script.{script_of, script_limit, nothing_known};
ghost use Rattle.gv_run.specs.Headline.{TakesAtMost};
ghost use Rattle.gv_run.specs.Streamed.{StopsAtFault, Begun, RunsLines, Finishes, ending_at, is_last};
ghost use Rattle.gv_text.specs.declared.ending.Ending.TheVariants.{Done as DoneThere};
ghost use Rattle.gv_run.specs.Tied.{Agrees, is_first, is_running};

use crate::run::Run;
use crate::stopped::Stopped;
use gv_gpu::Gpu;
use gv_lines::{LineReader, Next, Outlet};
use gv_outside::{Sink, Source};
use gv_text::Ending;
use gv_types::OutOfMemory;
use std::alloc::Global;

/// A script has at most so many bytes: 64 MiB.
const LIMIT: usize = 67_108_864;

// How the script ends where no line comes next, by the number that the line would have.
fn ending_at(next: Next, number: u64) -> Option<Ending>
    ensures { result ≡ ending_at next number }
{
    match next {
        Next::Line => None,
        Next::LastLine => None,
        Next::LongLine => Some(Ending::BadScript(number)),
        Next::End => Some(Ending::BadScript(number)),
        Next::PastLimit => Some(Ending::TooLong),
    }
}

// Whether it is the last line, which has no line feed.
fn is_last(next: Next) -> bool
    ensures { result ≡ is_last next }
{
    matches!(next, Next::LastLine)
}

// Runs a script's lines, each as soon as its line feed was taken, and answers how the script ends. Where
// the source fails, what was told is written first.
fn run_lines<S: Source, K: Sink, G: Gpu>(
    alloc: Global,
    source: &mut S,
    sink: &mut K,
    gpu: &mut G,
    run: &mut Run,
    reader: &mut LineReader,
) -> Result<Ending, Stopped>
    requires agrees { Agrees (G.state gpu.old) run.old.known run.old.stage }
    requires known { run.old.known ≡ nothing_known }
    requires stage { is_first run.old.stage ≡ true }
    requires report { run.old.report ≡ [] }
    requires reader { reader.old ≡ new_reader script_limit }
    ensures agrees { OnOk result (Agrees (G.state gpu.new) run.new.known run.new.stage) }
    ensures made { IfOk result (λ ending. ending ≡ DoneThere → is_running run.new.stage ≡ true) }
    ensures done { IfOk result (λ ending. IfSome (S.left source.old) (λ bytes.
        RunsLines (script_of bytes) ending (G.state gpu.old) (G.state gpu.new) run.new.stage run.new.report (in_sink (K.held sink.old)) (in_sink (K.held sink.new)))) }
    ensures fault { result ≡ Err Stopped.Read → IfSome (S.left source.old) (λ bytes.
        StopsAtFault (S.left source.old) (S.left source.new) (K.held sink.old) (K.held sink.new)) }
    ensures begun { IfSome (S.left source.old) (λ bytes. Begun bytes (G.state gpu.old) (G.state gpu.new) (K.held sink.old) (K.held sink.new)) }
    ensures taken { TakesAtMost (script_limit + 1) (S.left source.old) (S.left source.new) }
    ensures strays { (G.state gpu.new).strays ≡ (G.state gpu.old).strays }
    ensures read { result ≡ Err Stopped.Read → Rose (S.faults source.old) (S.faults source.new) }
    ensures write { result ≡ Err Stopped.Write → Rose (K.faults sink.old) (K.faults sink.new) }
    ensures device { result ≡ Err Stopped.Device → 0 < (G.state gpu.new).faults }
    ensures quiet { OnOk result ((G.state gpu.new).faults ≡ (G.state gpu.old).faults) }
    ensures memory { result ≡ Err Stopped.OutOfMemory → (G.state gpu.new).faults ≡ (G.state gpu.old).faults }
    ensures reading { result ≡ Err Stopped.Read → (G.state gpu.new).faults ≡ (G.state gpu.old).faults }
    ensures writing { result ≡ Err Stopped.Write → (G.state gpu.new).faults ≡ (G.state gpu.old).faults }
    ensures later { K.faults sink.old ≤ K.faults sink.new }
{
    let mut number = 1u64;
    loop {
        let Ok(next) = reader.advance(source) else {
            run.report.flush(sink)?;
            return Err(Stopped::Read);
        };
        if let Some(ending) = ending_at(next, number) {
            return Ok(ending);
        }
        let bytes = reader.line();
        let Some(line) = run.known.accepted(bytes) else {
            return Ok(Ending::BadScript(number));
        };
        if line.is_end() {
            run.end(alloc, gpu)?;
            return Ok(Ending::Done);
        }
        run.line(alloc, gpu, &line)?;
        run.report.pass_on(sink)?;
        number += 1;
        if is_last(next) {
            return Ok(Ending::BadScript(number));
        }
    }
}

/// Runs the script of a source over an empty device, line by line, and writes its report.
pub fn run_script<S: Source, K: Sink, G: Gpu>(
    alloc: Global,
    source: &mut S,
    sink: &mut K,
    gpu: &mut G,
) -> Result<Ending, Stopped>
    requires { IsEmpty (G.state gpu.old) }
    ensures finishes { IfOk result (λ ending. IfSome (S.left source.old) (λ bytes.
        Finishes bytes ending (G.state gpu.old) (G.state gpu.new) (K.held sink.old) (K.held sink.new))) }
    ensures fault { result ≡ Err Stopped.Read → IfSome (S.left source.old) (λ bytes.
        StopsAtFault (S.left source.old) (S.left source.new) (K.held sink.old) (K.held sink.new)) }
    ensures begun { IfSome (S.left source.old) (λ bytes. Begun bytes (G.state gpu.old) (G.state gpu.new) (K.held sink.old) (K.held sink.new)) }
    ensures taken { TakesAtMost (script_limit + 1) (S.left source.old) (S.left source.new) }
    ensures strays { (G.state gpu.new).strays ≡ (G.state gpu.old).strays }
    ensures read { result ≡ Err Stopped.Read → Rose (S.faults source.old) (S.faults source.new) }
    ensures write { result ≡ Err Stopped.Write → Rose (K.faults sink.old) (K.faults sink.new) }
    ensures device { result ≡ Err Stopped.Device → 0 < (G.state gpu.new).faults }
    ensures quiet { OnOk result ((G.state gpu.new).faults ≡ (G.state gpu.old).faults) }
    ensures memory { result ≡ Err Stopped.OutOfMemory → (G.state gpu.new).faults ≡ (G.state gpu.old).faults }
    ensures reading { result ≡ Err Stopped.Read → (G.state gpu.new).faults ≡ (G.state gpu.old).faults }
    ensures writing { result ≡ Err Stopped.Write → (G.state gpu.new).faults ≡ (G.state gpu.old).faults }
{
    let mut run = Run::new(alloc)?;
    let mut reader = LineReader::new(alloc, LIMIT)?;
    let ending = run_lines(alloc, source, sink, gpu, &mut run, &mut reader)?;
    let mut outlet = Outlet::Sink;
    run.finish(&mut outlet, sink, gpu, ending)?;
    Ok(ending)
}
