ghost use Rattle.std.specs.Prelude.{◌≡◌, ◌≢◌, ◌<◌, ◌++◌, [], ◌∷◌, OnOk, IfSome, option_to_list};
ghost use Rattle.gv_text.specs.Report.{text_of, IsPrintable};
ghost use Rattle.gv_machine.specs.Report.{irq_said, failsafe_said, answer_said, alarms_said, told, is_moved};
ghost use Rattle.gv_run.specs.Lines.{IsToldAlone};

use gv_lines::ReportWriter;
use gv_text::{ReportLine, print};
use gv_types::{Answer, Event, GuestId, OutOfMemory, Reason, Reply};

/// Writes a line at the report's end.
#[tactic(auto, using(gv_machine::proofs::Text::said_one))]
pub(crate) fn tell(report: &mut ReportWriter, line: &ReportLine) -> Result<(), OutOfMemory>
    requires { IsPrintable line.now }
    ensures { OnOk result (report.new ≡ report.old ++ text_of (line.now ∷ [])) }
{
    report.push(print(line).bytes())
}

// Tells an interrupt that was injected, with the pending bits then.
#[tactic(auto, using(gv_machine::proofs::Text::said_none))]
fn tell_irq(report: &mut ReportWriter, guest: GuestId, irq: Option<u32>) -> Result<(), OutOfMemory>
    requires { guest.0 < 8 }
    ensures { OnOk result (report.new ≡ report.old ++ text_of (irq_said guest irq)) }
{
    match irq {
        Some(value) => tell(report, &ReportLine::Irq { guest, value }),
        None => Ok(()),
    }
}

// Tells that the guest entered failsafe.
#[tactic(auto, using(gv_machine::proofs::Text::said_none))]
fn tell_failsafe(
    report: &mut ReportWriter,
    guest: GuestId,
    failsafe: Option<Reason>,
) -> Result<(), OutOfMemory>
    requires { guest.0 < 8 }
    ensures { OnOk result (report.new ≡ report.old ++ text_of (failsafe_said guest failsafe)) }
{
    match failsafe {
        Some(reason) => tell(report, &ReportLine::Failsafe { guest, reason }),
        None => Ok(()),
    }
}

/// Tells what happens beside an event's answer.
pub(crate) fn tell_alarms(report: &mut ReportWriter, reply: &Reply) -> Result<(), OutOfMemory>
    requires { reply.now.guest.0 < 8 }
    ensures { OnOk result (report.new ≡ report.old ++ text_of (alarms_said reply.now)) }
{
    tell_irq(report, reply.guest, reply.irq)?;
    tell_failsafe(report, reply.guest, reply.failsafe)
}

// Whether a move's answer says that the frame moved.
fn is_moved(answer: Answer) -> bool
    ensures { result ≡ is_moved answer }
{
    matches!(answer, Answer::Moved)
}

// The own line of an event that is told by itself, by its answer and the guest that is told.
fn answer_line(event: &Event, guest: GuestId, answer: Answer) -> Option<ReportLine>
    requires { IsToldAlone event.now }
    ensures value { option_to_list result ≡ answer_said event.now guest answer }
    ensures printable { guest.0 < 8 → IfSome result IsPrintable }
{
    match event {
        Event::Read {
            place,
            width,
            at,
            ..
        } => match answer {
            Answer::Value(value) => Some(ReportLine::Read {
                guest,
                place: *place,
                width: *width,
                at: *at,
                value,
            }),
            _ => None,
        },
        Event::Switch { engine } => Some(ReportLine::Rota {
            engine: *engine,
            guest,
        }),
        Event::Move { frame, .. } => Some(ReportLine::Move {
            guest,
            frame: *frame,
            moved: is_moved(answer),
        }),
        Event::Reset { .. } => Some(ReportLine::Reset { guest }),
        Event::Write { .. } => None,
        Event::Turn { .. } => None,
    }
}

fn tell_answer(
    report: &mut ReportWriter,
    event: &Event,
    guest: GuestId,
    answer: Answer,
) -> Result<(), OutOfMemory>
    requires there { guest.0 < 8 }
    requires alone { IsToldAlone event.now }
    ensures { OnOk result (report.new ≡ report.old ++ text_of (answer_said event.now guest answer)) }
{
    match answer_line(event, guest, answer) {
        Some(line) => tell(report, &line),
        None => Ok(()),
    }
}

/// Writes what is told of an event by itself.
pub(crate) fn tell_reply(
    report: &mut ReportWriter,
    event: &Event,
    reply: &Reply,
) -> Result<(), OutOfMemory>
    requires there { reply.now.guest.0 < 8 }
    requires alone { IsToldAlone event.now }
    ensures { OnOk result (report.new ≡ report.old ++ text_of (told event.now reply.now)) }
{
    tell_alarms(report, reply)?;
    tell_answer(report, event, reply.guest, reply.answer)
}
