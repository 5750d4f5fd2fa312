ghost use Rattle.std.specs.Prelude.{◌≡◌, ◌≢◌, ℕ, ◌+◌, ◌<◌, ◌≤◌, ◌++◌, length, IfOk, OnOk, true, false, [], ◌∷◌};
ghost use Rattle.gv_outside.specs.Causes.{Rose};
ghost use Rattle.gv_lines.specs.Outlet.{Gets, GetsFront, got};
ghost use Rattle.gv_text.specs.Grammar.{IsForm};
ghost use Rattle.gv_text.specs.Report.{text_of};
ghost use Rattle.gv_text.specs.Script.{nothing_known, has_room, accepts, known_after, want_of};
ghost use Rattle.gv_text.specs.declared.script_line.Line.TheVariants.{Guest as GuestLine};
ghost use Rattle.gv_text.specs.declared.ending.Ending.TheVariants.{Done as DoneThere};
ghost use Rattle.gv_gpu.specs.Change.{Ran};
ghost use Rattle.gv_machine.specs.Machine.{line_course};
ghost use Rattle.gv_machine.specs.Report.{ending_said};
ghost use Rattle.gv_mediator.specs.Laws.{HasMemories};
ghost use Rattle.gv_run.specs.Lines.{is_event_line};
ghost use Rattle.gv_run.specs.Tied.{machine_in};

use crate::ending::tell_ending;
use crate::events::run_line;
use crate::stage::Stage;
use crate::stopped::Stopped;
use gv_gpu::Gpu;
use gv_lines::{Outlet, ReportWriter};
use gv_mediator::{Guest, Mediator, devices_have_memories};
use gv_outside::Sink;
use gv_text::{Ending, Known, Line};
use gv_types::OutOfMemory;
use std::alloc::Global;

/// A script that runs: what its lines have settled, its guests, and what of the report was told and isn't
/// written yet.
#[derive(Drop)]
pub struct Run {
    pub known: Known,
    pub stage: Stage,
    pub report: ReportWriter,
}

impl Run {
    ghost use Rattle.gv_run.specs.Tied.{Agrees, RunsCourse, Joins, is_first, is_running};

    /// Before the first line.
    pub fn new(alloc: Global) -> Result<Run, OutOfMemory>
        ensures known { IfOk result (λ run. run.known ≡ nothing_known) }
        ensures stage { IfOk result (λ run. is_first run.stage ≡ true) }
        ensures report { IfOk result (λ run. run.report ≡ []) }
    {
        Ok(Run {
            known: Known::NOTHING,
            stage: Stage::Gathering(Vec::new(alloc)),
            report: ReportWriter::new(alloc)?,
        })
    }

    // A `guest` line, before any event.
    fn guest(&mut self, guest: &gv_text::Guest) -> Result<(), OutOfMemory>
        requires { is_running self.old.stage ≡ false }
        ensures known { self.new.known ≡ self.old.known }
        ensures report { self.new.report ≡ self.old.report }
        ensures joined { OnOk result (Joins self.old.stage guest.now self.new.stage) }
    {
        if let Stage::Gathering(guests) = &mut self.stage {
            guests.push(Guest {
                frames: guest.frames,
                want: guest.want(),
            })?;
        }
        Ok(())
    }

    // Makes the devices of the guests, where they weren't made yet.
    fn begin<G: Gpu>(&mut self, alloc: Global, gpu: &mut G) -> Result<(), OutOfMemory>
        requires agrees { Agrees (G.state gpu.old) self.old.known self.old.stage }
        requires some { 0 < self.old.known.guests }
        ensures agrees { OnOk result (Agrees (G.state gpu.new) (record self.old.known { begun = true }) self.new.stage) }
        ensures running { OnOk result (is_running self.new.stage ≡ true) }
        ensures machine { OnOk result (machine_in (G.state gpu.new) self.new.stage ≡ machine_in (G.state gpu.old) self.old.stage) }
        ensures known { self.new.known ≡ self.old.known }
        ensures report { self.new.report ≡ self.old.report }
        ensures ran { Ran (G.state gpu.old) (G.state gpu.new) [] }
        ensures quiet { (G.state gpu.new).faults ≡ (G.state gpu.old).faults }
    {
        if let Stage::Gathering(guests) = &self.stage {
            let mediator = Mediator::new(alloc, gpu, guests)?;
            self.stage = Stage::Running(mediator);
        }
        Ok(())
    }

    // A line that stands for events.
    fn events<G: Gpu>(&mut self, alloc: Global, gpu: &mut G, line: &Line) -> Result<(), Stopped>
        requires agrees { Agrees (G.state gpu.old) self.old.known self.old.stage }
        requires accepted { accepts self.old.known line.now ≡ true }
        requires form { IsForm line.now }
        requires event { is_event_line line.now ≡ true }
        ensures agrees { OnOk result (Agrees (G.state gpu.new) (known_after self.old.known line.now) self.new.stage) }
        ensures known { self.new.known ≡ self.old.known }
        ensures runs { RunsCourse (line_course (machine_in (G.state gpu.old) self.old.stage) line.now)
            (G.state gpu.old) self.old.report (G.state gpu.new) (machine_in (G.state gpu.new) self.new.stage) self.new.report result }
    {
        self.begin(alloc, gpu)?;
        if let Stage::Running(mediator) = &mut self.stage {
            run_line(alloc, gpu, mediator, &mut self.report, line)?;
        }
        Ok(())
    }

    // Does what an accepted line says, before it counts as known.
    fn act<G: Gpu>(&mut self, alloc: Global, gpu: &mut G, line: &Line) -> Result<(), Stopped>
        requires agrees { Agrees (G.state gpu.old) self.old.known self.old.stage }
        requires accepted { accepts self.old.known line.now ≡ true }
        requires form { IsForm line.now }
        ensures agrees { OnOk result (Agrees (G.state gpu.new) (known_after self.old.known line.now) self.new.stage) }
        ensures known { self.new.known ≡ self.old.known }
        ensures runs { RunsCourse (line_course (machine_in (G.state gpu.old) self.old.stage) line.now)
            (G.state gpu.old) self.old.report (G.state gpu.new) (machine_in (G.state gpu.new) self.new.stage) self.new.report result }
    {
        match line {
            Line::Blank => Ok(()),
            Line::Guest(guest) => {
                self.guest(guest)?;
                Ok(())
            }
            Line::End => {
                self.begin(alloc, gpu)?;
                Ok(())
            }
            _ => self.events(alloc, gpu, line),
        }
    }

    /// Runs a line that is accepted there.
    pub fn line<G: Gpu>(&mut self, alloc: Global, gpu: &mut G, line: &Line) -> Result<(), Stopped>
        requires agrees { Agrees (G.state gpu.old) self.old.known self.old.stage }
        requires accepted { accepts self.old.known line.now ≡ true }
        requires form { IsForm line.now }
        ensures agrees { OnOk result (Agrees (G.state gpu.new) self.new.known self.new.stage) }
        ensures known { OnOk result (self.new.known ≡ known_after self.old.known line.now) }
        ensures runs { RunsCourse (line_course (machine_in (G.state gpu.old) self.old.stage) line.now)
            (G.state gpu.old) self.old.report (G.state gpu.new) (machine_in (G.state gpu.new) self.new.stage) self.new.report result }
    {
        self.act(alloc, gpu, line)?;
        self.known = self.known.after(line);
        Ok(())
    }

    /// The line `end`: the devices of the guests are made, where no event came.
    pub fn end<G: Gpu>(&mut self, alloc: Global, gpu: &mut G) -> Result<(), OutOfMemory>
        requires agrees { Agrees (G.state gpu.old) self.old.known self.old.stage }
        requires some { 0 < self.old.known.guests }
        ensures agrees { OnOk result (Agrees (G.state gpu.new) self.new.known self.new.stage) }
        ensures running { OnOk result (is_running self.new.stage ≡ true) }
        ensures machine { OnOk result (machine_in (G.state gpu.new) self.new.stage ≡ machine_in (G.state gpu.old) self.old.stage) }
        ensures report { self.new.report ≡ self.old.report }
        ensures ran { Ran (G.state gpu.old) (G.state gpu.new) [] }
        ensures quiet { (G.state gpu.new).faults ≡ (G.state gpu.old).faults }
    {
        self.begin(alloc, gpu)?;
        self.known.begun = true;
        Ok(())
    }

    /// Tells what is said at the end, and passes all that was told on to the outlet.
    pub fn finish<K: Sink, G: Gpu>(
        &mut self,
        outlet: &mut Outlet,
        sink: &mut K,
        gpu: &G,
        ending: Ending,
    ) -> Result<(), Stopped>
        requires agrees { Agrees (G.state gpu.now) self.old.known self.old.stage }
        requires made { ending ≡ DoneThere → is_running self.old.stage ≡ true }
        ensures told { OnOk result (Gets (got outlet.old (K.held sink.old)) (got outlet.new (K.held sink.new)) (self.old.report ++ text_of (ending_said ending (machine_in (G.state gpu.now) self.old.stage)))) }
        ensures part { GetsFront (self.old.report ++ text_of (ending_said ending (machine_in (G.state gpu.now) self.old.stage))) (got outlet.old (K.held sink.old)) (got outlet.new (K.held sink.new)) }
        ensures empty { OnOk result (self.new.report ≡ []) }
        ensures later { K.faults sink.old ≤ K.faults sink.new }
        ensures cause { result ≡ Err Stopped.Write → Rose (K.faults sink.old) (K.faults sink.new) }
        ensures reads { result ≢ Err Stopped.Read }
        ensures device { result ≢ Err Stopped.Device }
        ensures memories { ending ≡ DoneThere → HasMemories (G.state gpu.now) (machine_in (G.state gpu.now) self.old.stage) }
    {
        devices_have_memories();
        let count = self.known.guests;
        tell_ending(
            &mut self.report,
            outlet,
            sink,
            gpu,
            &self.stage,
            count,
            ending,
        )?;
        self.report.flush_to(outlet, sink)?;
        Ok(())
    }
}
