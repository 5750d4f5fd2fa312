ghost use Rattle.std.specs.Prelude.{◌≡◌, ◌≢◌, ℕ, ◌+◌, ◌*◌, ◌<◌, ◌≤◌, ◌++◌, [], ◌∷◌, length, OnOk};
ghost use Rattle.gv_outside.specs.Causes.{Rose};
ghost use Rattle.gv_lines.specs.Outlet.{Passes, GetsFront, got};
ghost use Rattle.gv_machine.specs.Machine.{device_at};
ghost use Rattle.gv_machine.specs.Report.{words_said, memory_said, memories_said, ending_said};
ghost use Rattle.gv_mediator.specs.Tied.{machine_of};
ghost use Rattle.gv_text.specs.Report.{text_of};
ghost use Rattle.gv_text.specs.declared.ending.Ending.TheVariants.{Done as DoneThere};
ghost use Rattle.gv_run.specs.Tied.{Stands, IsMade, machine_in};

use crate::stage::Stage;
use crate::stopped::Stopped;
use crate::tell::tell;
use gv_gpu::Gpu;
use gv_lines::{Outlet, ReportWriter};
use gv_mediator::{Mediator, devices_have_memories};
use gv_outside::Sink;
use gv_text::{Ending, ReportLine};
use gv_types::{GuestId, OutOfMemory, PAGE_WORDS};

// Words of a frame.
const WORDS: u64 = PAGE_WORDS as u64;

// Tells a word of memory, unless it is 0.
#[tactic(auto, using(gv_machine::proofs::Text::said_none))]
fn tell_word(
    report: &mut ReportWriter,
    guest: GuestId,
    at: u64,
    value: u64,
) -> Result<(), OutOfMemory>
    requires { guest.0 < 8 }
    ensures { OnOk result (report.new ≡ report.old ++ text_of (words_said guest.0 at (value ∷ []))) }
{
    if value == 0 {
        return Ok(());
    }
    tell(report, &ReportLine::Memory { guest, at, value })
}

// Tells the words of a guest's memory that aren't 0, by address, and passes them on as they are read.
fn tell_memory<K: Sink, G: Gpu>(
    report: &mut ReportWriter,
    outlet: &mut Outlet,
    sink: &mut K,
    gpu: &G,
    mediator: &Mediator,
    guest: GuestId,
) -> Result<(), Stopped>
    requires stands { Stands (G.state gpu.now) mediator.now }
    requires there { guest.0 < length (machine_of (G.state gpu.now) mediator.now).devices }
    ensures told { OnOk result (Passes (report.old ++ text_of (memory_said guest.0 (device_at (machine_of (G.state gpu.now) mediator.now).devices guest.0).memory)) report.new (got outlet.old (K.held sink.old)) (got outlet.new (K.held sink.new))) }
    ensures part { GetsFront (report.old ++ text_of (memory_said guest.0 (device_at (machine_of (G.state gpu.now) mediator.now).devices guest.0).memory)) (got outlet.old (K.held sink.old)) (got outlet.new (K.held sink.new)) }
    ensures later { K.faults sink.old ≤ K.faults sink.new }
    ensures cause { result ≡ Err Stopped.Write → Rose (K.faults sink.old) (K.faults sink.new) }
    ensures reads { result ≢ Err Stopped.Read }
    ensures device { result ≢ Err Stopped.Device }
{
    devices_have_memories();
    for number in 0..u64::from(mediator.frames(gpu, guest)) * WORDS {
        let value = mediator.memory_word(gpu, guest, number * 8);
        tell_word(report, guest, number * 8, value)?;
        report.pass_to(outlet, sink)?;
    }
    Ok(())
}

// Tells the memory of so many guests, which are all, in order.
fn tell_memories<K: Sink, G: Gpu>(
    report: &mut ReportWriter,
    outlet: &mut Outlet,
    sink: &mut K,
    gpu: &G,
    mediator: &Mediator,
    count: u8,
) -> Result<(), Stopped>
    requires stands { Stands (G.state gpu.now) mediator.now }
    requires all { count ≡ length (machine_of (G.state gpu.now) mediator.now).devices }
    ensures told { OnOk result (Passes (report.old ++ text_of (memories_said 0 (machine_of (G.state gpu.now) mediator.now).devices)) report.new (got outlet.old (K.held sink.old)) (got outlet.new (K.held sink.new))) }
    ensures part { GetsFront (report.old ++ text_of (memories_said 0 (machine_of (G.state gpu.now) mediator.now).devices)) (got outlet.old (K.held sink.old)) (got outlet.new (K.held sink.new)) }
    ensures later { K.faults sink.old ≤ K.faults sink.new }
    ensures cause { result ≡ Err Stopped.Write → Rose (K.faults sink.old) (K.faults sink.new) }
    ensures reads { result ≢ Err Stopped.Read }
    ensures device { result ≢ Err Stopped.Device }
{
    for number in 0..count {
        tell_memory(report, outlet, sink, gpu, mediator, GuestId(number))?;
    }
    Ok(())
}

// Tells the memory of all guests, whose devices were made.
fn tell_guests<K: Sink, G: Gpu>(
    report: &mut ReportWriter,
    outlet: &mut Outlet,
    sink: &mut K,
    gpu: &G,
    stage: &Stage,
    count: u8,
) -> Result<(), Stopped>
    requires made { IsMade (G.state gpu.now) stage.now }
    requires all { count ≡ length (machine_in (G.state gpu.now) stage.now).devices }
    ensures told { OnOk result (Passes (report.old ++ text_of (memories_said 0 (machine_in (G.state gpu.now) stage.now).devices)) report.new (got outlet.old (K.held sink.old)) (got outlet.new (K.held sink.new))) }
    ensures part { GetsFront (report.old ++ text_of (memories_said 0 (machine_in (G.state gpu.now) stage.now).devices)) (got outlet.old (K.held sink.old)) (got outlet.new (K.held sink.new)) }
    ensures later { K.faults sink.old ≤ K.faults sink.new }
    ensures cause { result ≡ Err Stopped.Write → Rose (K.faults sink.old) (K.faults sink.new) }
    ensures reads { result ≢ Err Stopped.Read }
    ensures device { result ≢ Err Stopped.Device }
{
    match stage {
        Stage::Running(mediator) => tell_memories(report, outlet, sink, gpu, mediator, count),
        Stage::Gathering(_) => Ok(()),
    }
}

/// Tells what is said at the end.
pub(crate) fn tell_ending<K: Sink, G: Gpu>(
    report: &mut ReportWriter,
    outlet: &mut Outlet,
    sink: &mut K,
    gpu: &G,
    stage: &Stage,
    count: u8,
    ending: Ending,
) -> Result<(), Stopped>
    requires made { ending ≡ DoneThere → IsMade (G.state gpu.now) stage.now }
    requires all { count ≡ length (machine_in (G.state gpu.now) stage.now).devices }
    ensures told { OnOk result (Passes (report.old ++ text_of (ending_said ending (machine_in (G.state gpu.now) stage.now))) report.new (got outlet.old (K.held sink.old)) (got outlet.new (K.held sink.new))) }
    ensures part { GetsFront (report.old ++ text_of (ending_said ending (machine_in (G.state gpu.now) stage.now))) (got outlet.old (K.held sink.old)) (got outlet.new (K.held sink.new)) }
    ensures later { K.faults sink.old ≤ K.faults sink.new }
    ensures cause { result ≡ Err Stopped.Write → Rose (K.faults sink.old) (K.faults sink.new) }
    ensures reads { result ≢ Err Stopped.Read }
    ensures device { result ≢ Err Stopped.Device }
{
    let last = match ending {
        Ending::Done => {
            tell_guests(report, outlet, sink, gpu, stage, count)?;
            ReportLine::Done
        }
        Ending::BadScript(number) => ReportLine::Refused(number),
        Ending::TooLong => ReportLine::TooLong,
    };
    tell(report, &last)?;
    Ok(())
}
