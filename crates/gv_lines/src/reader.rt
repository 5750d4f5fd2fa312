ghost use Rattle.std.specs.Prelude.{◌≡◌, ℕ, ◌+◌, ◌-◌, ◌*◌, ◌^◌, ◌<◌, ◌≤◌, [], ◌∷◌, ◌++◌, length, take, drop, true, false, IfOk, OnOk, OnErr, IfNone};
ghost use Rattle.std.specs.Io.KnownBytes.{IsAtEnd};
ghost use Rattle.gv_outside.specs.Causes.{Rose, HasCause};
ghost use Rattle.gv_text.specs.Script.{is_too_long, lines_of};
ghost use Rattle.gv_lines.specs.Reader.{new_reader, room_of, HandsOut, Tells, Relates, handed_out, IsOneLine, IsWithin, within_limit, next_in, next_at_end, after_next, calls_left};

use crate::Next;
use crate::first::{First, first_line};
use gv_outside::{Source, SourceFailed};
use gv_types::OutOfMemory;
use std::alloc::Global;
use std::marker::Model;

/// How many bytes are taken at a time at the most.
const PIECE: usize = 65_536;

/// Reads a script's lines from a source, piece by piece. It takes its memory once, and no byte behind
/// the first one past the limit.
///
/// A line that stands whole in a piece isn't copied; the front of one that straddles two pieces, at
/// most 256 bytes, is moved to the buffer's front.
#[derive(Drop)]
pub struct LineReader {
    buffer: Vec<u8>,
    line_start: usize,
    line_end: usize,
    next: usize,
    end: usize,
    taken: usize,
    limit: usize,
    ended: bool,
}

impl Model for LineReader {
    ghost use Rattle.std.specs.Prelude.{◌≡◌, ◌+◌, ◌-◌, ◌^◌, ◌<◌, ◌≤◌, slice_range, vec_len, true};
    ghost use Rattle.gv_lines.specs.Reader.{ReaderState};

    ghost Value = { ReaderState };

    ghost view = { λ s. record {
      line = slice_range s.buffer.items s.line_start s.line_end;
      held = slice_range s.buffer.items s.next s.end;
      taken = s.taken;
      limit = s.limit;
      ended = s.ended;
    } };

    ghost invariant = { λ s. (vec_len s.buffer ≡ 65536) × (s.line_start ≤ s.line_end) × (s.line_end ≤ s.next) × (s.next ≤ s.end) × (s.end ≤ 65536) × (s.end - s.next ≤ s.taken) × (s.taken ≤ s.limit + (s.end - s.next)) × (s.taken ≤ s.limit + 1) × (s.limit < 2 ^ 63) × (s.ended ≡ true → s.taken ≤ s.limit) };
}

impl LineReader {
    /// A reader of a script of at most `limit` bytes.
    pub fn new(alloc: Global, limit: usize) -> Result<LineReader, OutOfMemory>
        requires { limit < 2 ^ 63 }
        ensures { IfOk result (λ reader. reader ≡ new_reader limit) }
    {
        Ok(LineReader {
            buffer: vec![in alloc; 0; PIECE]?,
            line_start: 0,
            line_end: 0,
            next: 0,
            end: 0,
            taken: 0,
            limit,
            ended: false,
        })
    }

    /// The line that was handed out last, without its line feed.
    pub fn line(&self) -> &[u8]
        ensures { result.now ≡ self.now.line }
    {
        &self.buffer[self.line_start..self.line_end]
    }

    /// How many bytes were taken in all.
    pub fn taken(&self) -> usize
        ensures { result ≡ self.now.taken }
    {
        self.taken
    }

    /// What is next. It takes bytes from the source only while those that it holds are no line. After a
    /// fault it can be called again.
    pub fn advance<S: Source>(&mut self, source: &mut S) -> Result<Next, SourceFailed>
        ensures tells { Relates (λ before after. Tells result before self.new.line after) self.old (S.left source.old) self.new (S.left source.new) }
        ensures hands_out { HandsOut self.old self.new (S.left source.old) (S.left source.new) (handed_out result self.new.line) }
        ensures one_line { IfOk result (λ next. IsOneLine next self.new.line) }
        ensures bound { self.new.taken ≤ self.new.limit + 1 }

        ensures cause { HasCause (S.faults source.old) (S.faults source.new) result }
        ensures nothing_held { OnErr result (lines_of is_too_long self.new.held ≡ []) }
        ensures within { OnErr result (self.new.taken ≤ self.new.limit) }
        ensures not_ended { OnErr result (self.new.ended ≡ false) }
    {
        loop {
            if let Some(next) = self.found() {
                return Ok(next);
            }
            self.fill(source)?;
        }
    }

    // What is next among the bytes that are held; nothing where more have to be taken.
    fn found(&mut self) -> Option<Next>
        ensures within { IsWithin self.old }
        ensures next { result ≡ next_in self.old }
        ensures after { self.new ≡ after_next self.old }
        ensures same { IfNone result (self.new ≡ self.old) }
        ensures going { IfNone result (self.old.ended ≡ false) }
    {
        match first_line(self.within_limit(), self.ended) {
            First::Line(length) => {
                self.hand_out(length, 1);
                Some(Next::Line)
            }
            First::LastLine(length) => {
                self.hand_out(length, 0);
                Some(Next::LastLine)
            }
            First::LongLine => Some(Next::LongLine),
            First::Nothing => self.at_end(),
        }
    }
}

impl LineReader {
    // Of the bytes that are held, those within the limit.
    fn within_limit(&self) -> &[u8]
        ensures { result.now ≡ within_limit self.now }
    {
        let past = self.taken.saturating_sub(self.limit);
        &self.buffer[self.next..self.end - past]
    }

    // Hands out the first bytes that are held, and drops so many more behind them.
    fn hand_out(&mut self, count: usize, dropped: usize)
        requires { count + dropped ≤ length (within_limit self.old) }
        ensures { self.new ≡ record self.old { line = take count self.old.held; held = drop (count + dropped) self.old.held } }
    {
        self.line_start = self.next;
        self.line_end = self.next + count;
        self.next = self.line_end + dropped;
    }

    // What is next where no line is held within the limit.
    fn at_end(&self) -> Option<Next>
        ensures { result ≡ next_at_end self.now }
    {
        if self.taken > self.limit {
            Some(Next::PastLimit)
        } else if self.ended {
            Some(Next::End)
        } else {
            None
        }
    }

    // Moves the bytes that are held to the buffer's front, and takes some more behind them, or meets the
    // source's end.
    fn fill<S: Source>(&mut self, source: &mut S) -> Result<(), SourceFailed>
        requires not_ended { self.old.ended ≡ false }
        requires within { self.old.taken ≤ self.old.limit }
        requires short { length self.old.held ≤ 256 }
        ensures hands_out { HandsOut self.old self.new (S.left source.old) (S.left source.new) [] }
        ensures ended { OnOk result (self.new.ended ≡ true → IsAtEnd (S.left source.new)) }
        ensures fewer { OnOk result (calls_left self.new < calls_left self.old) }
        ensures err { OnErr result (self.new ≡ record self.old { line = [] }) }
        ensures cause { HasCause (S.faults source.old) (S.faults source.new) result }
    {
        self.buffer.copy_within(self.next..self.end, 0);
        self.end -= self.next;
        self.next = 0;
        self.line_start = 0;
        self.line_end = 0;
        let room = (PIECE - self.end).min(self.limit + 1 - self.taken);
        let count = source.read(&mut self.buffer[self.end..self.end + room])?;
        self.end += count;
        self.taken += count;
        self.ended = count == 0;
        Ok(())
    }
}
