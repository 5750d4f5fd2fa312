ghost use Rattle.std.specs.Prelude.{◌≡◌, ℕ, ◌+◌, ◌*◌, ◌%◌, ◌/◌, ◌^◌, ◌<◌, ◌≤◌, length, OnOk};
ghost use Rattle.std.specs.List.{AllByRecursion};
ghost use Rattle.gv_types.specs.Places.{address_limit};
ghost use Rattle.gv_types.specs.Memory.{bytes_of};
ghost use Rattle.gv_types.specs.Engines.{register_base};
ghost use Rattle.gv_private.specs.Inputs.{event as one_event};
ghost use Rattle.gv_machine.specs.Course.{play};
ghost use Rattle.gv_machine.specs.Machine.{input_course, inputs_in, writes_of, port_writes, port_values};
ghost use Rattle.gv_mediator.specs.Event.{IsEvent};
ghost use Rattle.gv_mediator.specs.Tied.{machine_of};
ghost use Rattle.gv_text.specs.Grammar.{value_limit};
ghost use Rattle.gv_run.specs.Lines.{IsEventLine, event_of, IsToldAlone};
ghost use Rattle.gv_run.specs.Tied.{Stands, RunsCourse};

use crate::stopped::Stopped;
use crate::tell::tell_reply;
use crate::turns::turns;
use gv_gpu::Gpu;
use gv_lines::ReportWriter;
use gv_mediator::Mediator;
use gv_text::Line;
use gv_types::{EngineId, Event, GuestId, Place, Width};
use std::alloc::Global;

// One event that is told by itself.
fn event<G: Gpu>(
    alloc: Global,
    gpu: &mut G,
    mediator: &mut Mediator,
    report: &mut ReportWriter,
    event: &Event,
) -> Result<(), Stopped>
    requires stands { Stands (G.state gpu.old) mediator.old }
    requires event { IsEvent (machine_of (G.state gpu.old) mediator.old) event.now }
    requires alone { IsToldAlone event.now }
    ensures stands { OnOk result (Stands (G.state gpu.new) mediator.new) }
    ensures runs { RunsCourse (input_course (machine_of (G.state gpu.old) mediator.old) (one_event event.now))
        (G.state gpu.old) report.old (G.state gpu.new) (machine_of (G.state gpu.new) mediator.new) report.new result }
{
    let reply = mediator.event(alloc, gpu, event)?;
    tell_reply(report, event, &reply)?;
    Ok(())
}

// A line of writes: one event for each value, at rising addresses.
fn writes<G: Gpu>(
    alloc: Global,
    gpu: &mut G,
    mediator: &mut Mediator,
    report: &mut ReportWriter,
    guest: GuestId,
    place: Place,
    width: Width,
    at: u64,
    values: &[u64],
) -> Result<(), Stopped>
    requires stands { Stands (G.state gpu.old) mediator.old }
    requires there { guest.0 < length (machine_of (G.state gpu.old) mediator.old).devices }
    requires aligned { at % bytes_of width ≡ 0 }
    requires within { at + bytes_of width * length values.now ≤ address_limit place }
    requires fit { AllByRecursion (λ value. value < value_limit width) values.now }
    ensures stands { OnOk result (Stands (G.state gpu.new) mediator.new) }
    ensures runs { RunsCourse (play input_course (machine_of (G.state gpu.old) mediator.old) (writes_of guest place width at values.now))
        (G.state gpu.old) report.old (G.state gpu.new) (machine_of (G.state gpu.new) mediator.new) report.new result }
{
    for (index, value) in values.iter().enumerate() {
        let write = Event::Write {
            guest,
            place,
            width,
            at: at + width.bytes() * index as u64,
            value: *value,
        };
        event(alloc, gpu, mediator, report, &write)?;
    }
    Ok(())
}

// Where an engine's registers begin.
fn base_of(engine: u8) -> u64
    ensures { result ≡ register_base engine }
{
    match engine {
        0 => 0x2000,
        1 => 0x2_2000,
        2 => 0x1_2000,
        _ => 0x1_a000,
    }
}

// Four writes of a dword to the engine's submission port (ELSP).
fn submit<G: Gpu>(
    alloc: Global,
    gpu: &mut G,
    mediator: &mut Mediator,
    report: &mut ReportWriter,
    guest: GuestId,
    engine: u8,
    values: &[u64],
) -> Result<(), Stopped>
    requires stands { Stands (G.state gpu.old) mediator.old }
    requires there { guest.0 < length (machine_of (G.state gpu.old) mediator.old).devices }
    requires fit { AllByRecursion (λ value. value < 2 ^ 32) values.now }
    ensures stands { OnOk result (Stands (G.state gpu.new) mediator.new) }
    ensures runs { RunsCourse (play input_course (machine_of (G.state gpu.old) mediator.old) (port_writes guest engine values.now))
        (G.state gpu.old) report.old (G.state gpu.new) (machine_of (G.state gpu.new) mediator.new) report.new result }
{
    for value in values {
        let write = Event::Write {
            guest,
            place: Place::Registers,
            width: Width::Four,
            at: base_of(engine) + 0x230,
            value: *value,
        };
        event(alloc, gpu, mediator, report, &write)?;
    }
    Ok(())
}

// High and low half of the second element's descriptor, and then of the first one's.
fn port_values(second: u64, first: u64) -> [u64; 4]
    ensures { result ≡ port_values second first }
{
    [
        second / 0x1_0000_0000,
        second % 0x1_0000_0000,
        first / 0x1_0000_0000,
        first % 0x1_0000_0000,
    ]
}

/// Does what a line says that stands for events.
pub(crate) fn run_line<G: Gpu>(
    alloc: Global,
    gpu: &mut G,
    mediator: &mut Mediator,
    report: &mut ReportWriter,
    line: &Line,
) -> Result<(), Stopped>
    requires stands { Stands (G.state gpu.old) mediator.old }
    requires line { IsEventLine (machine_of (G.state gpu.old) mediator.old) line.now }
    ensures stands { OnOk result (Stands (G.state gpu.new) mediator.new) }
    ensures runs { RunsCourse (play input_course (machine_of (G.state gpu.old) mediator.old) (inputs_in line.now))
        (G.state gpu.old) report.old (G.state gpu.new) (machine_of (G.state gpu.new) mediator.new) report.new result }
{
    match line {
        Line::Write {
            guest,
            place,
            width,
            at,
            values,
        } => {
            let guest = GuestId(*guest);
            let values = values.as_slice();
            writes(
                alloc, gpu, mediator, report, guest, *place, *width, *at, values,
            )
        }
        Line::Elsp {
            guest,
            engine,
            second,
            first,
        } => {
            let values = port_values(*second, *first);
            submit(
                alloc,
                gpu,
                mediator,
                report,
                GuestId(*guest),
                *engine,
                &values,
            )
        }
        Line::Turn { engine, count } => {
            turns(alloc, gpu, mediator, report, EngineId(*engine), *count)
        }
        _ => match event_of(line) {
            Some(one) => event(alloc, gpu, mediator, report, &one),
            None => Ok(()),
        },
    }
}

// The event that a line of one event stands for.
fn event_of(line: &Line) -> Option<Event>
    ensures { result ≡ event_of line.now }
{
    match line {
        Line::Read {
            guest,
            place,
            width,
            at,
        } => Some(Event::Read {
            guest: GuestId(*guest),
            place: *place,
            width: *width,
            at: *at,
        }),
        Line::Switch { engine } => Some(Event::Switch {
            engine: EngineId(*engine),
        }),
        Line::Move { guest, frame } => Some(Event::Move {
            guest: GuestId(*guest),
            frame: *frame,
        }),
        Line::Reset { guest } => Some(Event::Reset {
            guest: GuestId(*guest),
        }),
        _ => None,
    }
}
