ghost use Rattle.std.specs.Prelude.{◌≡◌, ℕ, ◌+◌, ◌<◌, ◌≤◌, [], ◌∷◌, length, codes, map};
ghost use Rattle.std.specs.List.{join_with_byte};
ghost use Rattle.gv_text.specs.Report.{hex, read_word, reason_word, moved_word, report_words, report_text, IsPrintable};

use crate::{Printed, ReportLine};
use gv_types::{EngineId, GuestId, Place, Reason, Width};

/// The text of a report's line: words that are separated by one space, and a line feed. Numbers are
/// hexadecimal, without leading zeros. The line may name only guests below 8 and engines below 4.
#[tactic(auto, unfolding(crate::specs::Report::report_text))]
pub fn print(line: &ReportLine) -> Printed
    requires { IsPrintable line.now }
    ensures text { result ≡ report_text line.now }
    ensures short { length result ≤ 64 }
{
    let mut text = words(line);
    text.end();
    text
}

fn words(line: &ReportLine) -> Printed
    requires { IsPrintable line.now }
    ensures text { result ≡ join_with_byte 32 (report_words line.now) }
    ensures short { length result < 64 }
{
    match *line {
        ReportLine::Read {
            guest,
            place,
            width,
            at,
            value,
        } => at_address(guest, access_word(place, width), at, value),
        ReportLine::Irq { guest, value } => interrupt(guest, value),
        ReportLine::Failsafe { guest, reason } => failsafe(guest, reason),
        ReportLine::Turn {
            guest,
            engine,
            counts,
        } => turns(guest, engine, &counts),
        ReportLine::Rota { engine, guest } => owner(engine, guest),
        ReportLine::Move {
            guest,
            frame,
            moved,
        } => page_move(guest, frame, moved),
        ReportLine::Reset { guest } => of_guest(guest, b"reset"),
        ReportLine::Memory { guest, at, value } => at_address(guest, b"mem", at, value),
        ReportLine::Done => Printed::of_word(b"done"),
        ReportLine::Refused(number) => of_number(b"refused", number),
        ReportLine::TooLong => too_long(),
        ReportLine::Lines(count) => of_number(b"lines", count),
        ReportLine::Bytes(count) => of_number(b"bytes", count),
        ReportLine::Fold(value) => of_number(b"fold", value),
    }
}

fn access_word(place: Place, width: Width) -> &'static [u8]
    ensures word { result.now ≡ read_word place width }
    ensures len { length result.now ≡ 2 }
{
    match (place, width) {
        (Place::Memory, Width::Four) => b"r4",
        (Place::Memory, Width::Eight) => b"r8",
        (Place::Registers, Width::Four) => b"i4",
        (Place::Registers, Width::Eight) => b"i8",
        (Place::Aperture, Width::Four) => b"a4",
        (Place::Aperture, Width::Eight) => b"a8",
    }
}

fn cause_word(reason: Reason) -> &'static [u8]
    ensures word { result.now ≡ reason_word reason }
    ensures len { length result.now ≤ 7 }
{
    match reason {
        Reason::Command => b"command",
        Reason::Range => b"range",
        Reason::Context => b"context",
        Reason::Size => b"size",
        Reason::Entry => b"entry",
    }
}

/// A guest's number and a word.
fn of_guest(guest: GuestId, word: &[u8]) -> Printed
    requires guest { guest.0 < 8 }
    requires short { length word.now ≤ 8 }
    ensures text { result ≡ join_with_byte 32 (hex guest.0 ∷ word.now ∷ []) }
    ensures len { length result ≡ length word.now + 2 }
{
    let mut text = Printed::of_digit(guest.0);
    text.word(word);
    text
}

/// A word and a number.
fn of_number(word: &[u8], number: u64) -> Printed
    requires { length word.now ≤ 8 }
    ensures text { result ≡ join_with_byte 32 (word.now ∷ hex number ∷ []) }
    ensures short { length result < 64 }
{
    let mut text = Printed::of_word(word);
    text.number(number);
    text
}

/// A guest's number, a word, an address and the value there.
fn at_address(guest: GuestId, word: &[u8], at: u64, value: u64) -> Printed
    requires guest { guest.0 < 8 }
    requires short { length word.now ≤ 8 }
    ensures text { result ≡ join_with_byte 32 (hex guest.0 ∷ word.now ∷ hex at ∷ hex value ∷ []) }
    ensures short { length result < 64 }
{
    let mut text = of_guest(guest, word);
    text.number(at);
    text.number(value);
    text
}

fn interrupt(guest: GuestId, value: u32) -> Printed
    requires { guest.0 < 8 }
    ensures text { result ≡ join_with_byte 32 (hex guest.0 ∷ codes "irq" ∷ hex value ∷ []) }
    ensures short { length result < 64 }
{
    let mut text = of_guest(guest, b"irq");
    text.number_u32(value);
    text
}

fn failsafe(guest: GuestId, reason: Reason) -> Printed
    requires { guest.0 < 8 }
    ensures text { result ≡ join_with_byte 32 (hex guest.0 ∷ codes "failsafe" ∷ reason_word reason ∷ []) }
    ensures short { length result < 64 }
{
    let mut text = of_guest(guest, b"failsafe");
    text.word(cause_word(reason));
    text
}

fn owner(engine: EngineId, guest: GuestId) -> Printed
    requires guest { guest.0 < 8 }
    requires engine { engine.0 < 4 }
    ensures text { result ≡ join_with_byte 32 (codes "rota" ∷ hex engine.0 ∷ hex guest.0 ∷ []) }
    ensures short { length result < 64 }
{
    let mut text = Printed::of_word(b"rota");
    text.digit(engine.0);
    text.digit(guest.0);
    text
}

fn page_move(guest: GuestId, frame: u32, moved: bool) -> Printed
    requires { guest.0 < 8 }
    ensures text { result ≡ join_with_byte 32 (hex guest.0 ∷ codes "move" ∷ hex frame ∷ moved_word moved ∷ []) }
    ensures short { length result < 64 }
{
    let mut text = of_guest(guest, b"move");
    text.number_u32(frame);
    text.word(if moved { b"moved" } else { b"kept" });
    text
}

fn too_long() -> Printed
    ensures text { result ≡ join_with_byte 32 (codes "too" ∷ codes "long" ∷ []) }
    ensures short { length result < 64 }
{
    let mut text = Printed::of_word(b"too");
    text.word(b"long");
    text
}

/// How many turns of an engine had each outcome.
fn turns(guest: GuestId, engine: EngineId, counts: &[u32; 6]) -> Printed
    requires guest { guest.0 < 8 }
    requires engine { engine.0 < 4 }
    ensures text { result ≡ join_with_byte 32 (hex guest.0 ∷ codes "turn" ∷ hex engine.0 ∷ map hex counts.now) }
    ensures short { length result < 64 }
{
    let mut text = of_guest(guest, b"turn");
    text.digit(engine.0);
    for count in counts {
        text.number_u32(*count);
    }
    text
}
