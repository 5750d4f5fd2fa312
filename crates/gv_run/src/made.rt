ghost use Rattle.std.specs.Prelude.{◌≡◌, ◌≢◌, ◌<◌, ◌≤◌, ◌++◌, ◌^◌, [], true, OnOk};
ghost use Rattle.gv_outside.specs.Causes.{Rose};
ghost use Rattle.gv_gen.specs.Made.{script_made};
ghost use Rattle.gv_gpu.specs.Change.{RanPart};
ghost use Rattle.gv_gpu.specs.Device.{IsEmpty};
ghost use Rattle.gv_lines.specs.Outlet.{GetsFront, got};
ghost use Rattle.gv_lines.specs.Summary.{summary_lines};
ghost use Rattle.gv_text.specs.Report.{text_of};
ghost use Rattle.gv_text.specs.Script.{nothing_known};
ghost use Rattle.gv_text.specs.declared.ending.Ending.TheVariants.{Done as DoneThere};
ghost use Rattle.gv_run.specs.Made.{MadePart, MadeWhole, report_made, entries_made};
ghost use Rattle.gv_run.specs.Streamed.{RunsLines, WritesFront};
ghost use Rattle.gv_run.specs.Tied.{Agrees, is_first, is_running};

use crate::run::Run;
use crate::stopped::Stopped;
use crate::tell::tell;
use gv_gen::Script;
use gv_gpu::Gpu;
use gv_lines::{Outlet, ReportWriter, Totals};
use gv_outside::Sink;
use gv_text::{Ending, ReportLine};
use gv_types::OutOfMemory;
use std::alloc::Global;

// Runs the lines of a number's script, each of which is accepted.
fn run_made<K: Sink, G: Gpu>(
    alloc: Global,
    number: u32,
    outlet: &mut Outlet,
    sink: &mut K,
    gpu: &mut G,
    run: &mut Run,
) -> Result<(), Stopped>
    requires agrees { Agrees (G.state gpu.old) run.old.known run.old.stage }
    requires known { run.old.known ≡ nothing_known }
    requires stage { is_first run.old.stage ≡ true }
    requires report { run.old.report ≡ [] }
    ensures agrees { OnOk result (Agrees (G.state gpu.new) run.new.known run.new.stage) }
    ensures made { OnOk result (is_running run.new.stage ≡ true) }
    ensures done { OnOk result (RunsLines (script_made number) DoneThere (G.state gpu.old) (G.state gpu.new) run.new.stage run.new.report
        (got outlet.old (K.held sink.old)) (got outlet.new (K.held sink.new))) }
    ensures written { GetsFront (report_made number) (got outlet.old (K.held sink.old)) (got outlet.new (K.held sink.new)) }
    ensures ran { RanPart (G.state gpu.old) (G.state gpu.new) (entries_made number) }
    ensures strays { (G.state gpu.new).strays ≡ (G.state gpu.old).strays }
    ensures reads { result ≢ Err Stopped.Read }
    ensures write { result ≡ Err Stopped.Write → Rose (K.faults sink.old) (K.faults sink.new) }
    ensures device { result ≡ Err Stopped.Device → 0 < (G.state gpu.new).faults }
    ensures quiet { OnOk result ((G.state gpu.new).faults ≡ (G.state gpu.old).faults) }
    ensures memory { result ≡ Err Stopped.OutOfMemory → (G.state gpu.new).faults ≡ (G.state gpu.old).faults }
    ensures writing { result ≡ Err Stopped.Write → (G.state gpu.new).faults ≡ (G.state gpu.old).faults }
    ensures later { K.faults sink.old ≤ K.faults sink.new }
{
    for line in Script::new(number) {
        if line.is_end() {
            run.end(alloc, gpu)?;
            return Ok(());
        }
        run.line(alloc, gpu, &line)?;
        run.report.pass_to(outlet, sink)?;
    }
    unreachable!()
}

// Tells the totals of a report.
fn tell_totals(report: &mut ReportWriter, totals: &Totals) -> Result<(), OutOfMemory>
    ensures { OnOk result (report.new ≡ report.old ++ text_of (summary_lines totals.now)) }
{
    tell(report, &ReportLine::Lines(totals.lines))?;
    tell(report, &ReportLine::Bytes(totals.bytes))?;
    tell(report, &ReportLine::Fold(totals.fold))
}

/// Runs the script of a number over an empty device, and writes the summary of its report.
pub fn run_number<K: Sink, G: Gpu>(
    alloc: Global,
    number: u32,
    sink: &mut K,
    gpu: &mut G,
) -> Result<(), Stopped>
    requires { IsEmpty (G.state gpu.old) }
    ensures whole { OnOk result (MadeWhole number (G.state gpu.old) (G.state gpu.new) (K.held sink.old) (K.held sink.new)) }
    ensures part { MadePart number (G.state gpu.old) (G.state gpu.new) (K.held sink.old) (K.held sink.new) }
    ensures strays { (G.state gpu.new).strays ≡ (G.state gpu.old).strays }
    ensures reads { result ≢ Err Stopped.Read }
    ensures write { result ≡ Err Stopped.Write → Rose (K.faults sink.old) (K.faults sink.new) }
    ensures device { result ≡ Err Stopped.Device → 0 < (G.state gpu.new).faults }
    ensures quiet { OnOk result ((G.state gpu.new).faults ≡ (G.state gpu.old).faults) }
    ensures memory { result ≡ Err Stopped.OutOfMemory → (G.state gpu.new).faults ≡ (G.state gpu.old).faults }
    ensures writing { result ≡ Err Stopped.Write → (G.state gpu.new).faults ≡ (G.state gpu.old).faults }
{
    let mut run = Run::new(alloc)?;
    let mut outlet = Outlet::Totals(Totals::NONE);
    run_made(alloc, number, &mut outlet, sink, gpu, &mut run)?;
    run.finish(&mut outlet, sink, gpu, Ending::Done)?;
    tell_totals(&mut run.report, &outlet.totals())?;
    run.report.flush(sink)?;
    Ok(())
}
