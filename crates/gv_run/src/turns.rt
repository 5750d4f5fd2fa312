ghost use Rattle.std.specs.Prelude.{◌≡◌, ℕ, ◌+◌, ◌<◌, ◌≤◌, ◌^◌, ◌-◌, ◌++◌, All, length, OnOk, slice_set, slice_index};
ghost use Rattle.gv_private.specs.Inputs.{turns as all_turns};
ghost use Rattle.gv_machine.specs.Machine.{input_course};
ghost use Rattle.gv_machine.specs.Report.{column_of};
ghost use Rattle.gv_mediator.specs.Tied.{machine_of};
ghost use Rattle.gv_text.specs.Report.{text_of};
ghost use Rattle.gv_run.specs.Lines.{turns_line};
ghost use Rattle.gv_run.specs.Tied.{Stands, RunsCourse};

use crate::stopped::Stopped;
use crate::tell::{tell, tell_alarms};
use gv_gpu::Gpu;
use gv_lines::ReportWriter;
use gv_mediator::Mediator;
use gv_text::ReportLine;
use gv_types::{Answer, EngineId, Event, GuestId, OutOfMemory, Outcome};
use std::alloc::Global;

// Which of a turn's six counts an answer goes to; none, where it is no turn's.
fn column_of(answer: Answer) -> usize
    ensures { result ≡ column_of answer }
{
    match answer {
        Answer::Turn(Outcome::Ran) => 0,
        Answer::Turn(Outcome::Waited) => 1,
        Answer::Turn(Outcome::Ended) => 2,
        Answer::Turn(Outcome::Loaded) => 3,
        Answer::Turn(Outcome::Failed) => 4,
        Answer::Turn(Outcome::Idle) => 5,
        _ => 6,
    }
}

// One more turn of these.
fn count_turn(counts: &mut [u32; 6], answer: Answer)
    requires { All (λ n. n < 2 ^ 32 - 1) counts.old }
    ensures { counts.new ≡ slice_set counts.old (column_of answer) (slice_index counts.old (column_of answer) + 1) }
{
    let column = column_of(answer);
    if column < 6 {
        counts[column] += 1;
    }
}

// Tells the counts of so many turns of an engine, where there are any, with the guest that owns it.
#[tactic(auto, using(gv_machine::proofs::Text::said_none))]
fn tell_turns(
    report: &mut ReportWriter,
    count: u32,
    guest: GuestId,
    engine: EngineId,
    counts: [u32; 6],
) -> Result<(), OutOfMemory>
    requires there { guest.0 < 8 }
    requires engine { engine.0 < 4 }
    ensures { OnOk result (report.new ≡ report.old ++ text_of (turns_line count guest engine counts)) }
{
    if count == 0 {
        return Ok(());
    }
    tell(
        report,
        &ReportLine::Turn {
            guest,
            engine,
            counts,
        },
    )
}

/// Turns of an engine, which are told in one line behind their interrupts and failsafe.
pub(crate) fn turns<G: Gpu>(
    alloc: Global,
    gpu: &mut G,
    mediator: &mut Mediator,
    report: &mut ReportWriter,
    engine: EngineId,
    count: u32,
) -> Result<(), Stopped>
    requires stands { Stands (G.state gpu.old) mediator.old }
    requires some { 0 < length (machine_of (G.state gpu.old) mediator.old).devices }
    requires engine { engine.0 < 4 }
    ensures stands { OnOk result (Stands (G.state gpu.new) mediator.new) }
    ensures runs { RunsCourse (input_course (machine_of (G.state gpu.old) mediator.old) (all_turns engine count))
        (G.state gpu.old) report.old (G.state gpu.new) (machine_of (G.state gpu.new) mediator.new) report.new result }
{
    let mut counts = [0u32; 6];
    let mut owner = GuestId(0);
    for turn in 0..count {
        let reply = mediator.event(alloc, gpu, &Event::Turn { engine })?;
        tell_alarms(report, &reply)?;
        count_turn(&mut counts, reply.answer);
        owner = reply.guest;
    }
    tell_turns(report, count, owner, engine, counts)?;
    Ok(())
}
