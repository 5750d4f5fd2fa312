use crate::{Guest, Line};
use gv_balloon::Given;
use gv_types::MAX_FRAMES;

/// What the accepted lines of a script have settled: how many guests there are, their frames in all and
/// each one's, the pages of the global table that they are given, and whether an event came.
#[derive(Clone, Copy, Debug, PartialEq, Eq)]
pub struct Known {
    pub guests: u8,
    pub frames: u32,
    /// How many frames each guest has, by its number.
    pub sizes: [u32; 8],
    pub given: Given,
    pub begun: bool,
}

impl Known {
    ghost use Rattle.std.specs.Prelude.{◌≡◌, ℕ, ◌+◌, ◌<◌, ◌≤◌, true, Some, IfSome, nat_lt, slice_index, slice_set};
    ghost use Rattle.gv_text.specs.Grammar.{IsForm};
    ghost use Rattle.gv_text.specs.Script.{nothing_known, has_room, has_engine, accepts, accepted, known_after};

    /// Before the first line.
    pub const NOTHING: Known = Known {
        guests: 0,
        frames: 0,
        sizes: [0; 8],
        given: Given::NOTHING,
        begun: false,
    };

    // Whether there is room for one more guest: there are 8 guests at the most, and its frames and the
    // pages that it asks for fit.
    fn has_room(&self, guest: &Guest) -> bool
        ensures { result ≡ has_room self.now guest.now }
    {
        self.guests < 8
            && u64::from(self.frames) + u64::from(guest.frames) <= u64::from(MAX_FRAMES)
            && self.given.fits(&guest.want())
    }

    // Whether the frame is one of the guest's. No guest has a number past the eighth.
    fn has_frame(&self, guest: u8, frame: u32) -> bool
        ensures { result ≡ nat_lt frame (slice_index self.now.sizes guest) }
    {
        match self.sizes.get(usize::from(guest)) {
            Some(frames) => frame < *frames,
            None => false,
        }
    }

    // Whether some guest is there to own the engine.
    fn has_engine(&self, engine: u8) -> bool
        ensures { result ≡ has_engine self.now engine }
    {
        self.guests > 0 && engine < 4
    }

    // Whether a line is accepted there.
    fn accepts(&self, line: &Line) -> bool
        ensures { result ≡ accepts self.now line.now }
    {
        match line {
            Line::Blank => true,
            Line::Guest(guest) => !self.begun && self.has_room(guest),
            Line::Read { guest, .. } => *guest < self.guests,
            Line::Write { guest, .. } => *guest < self.guests,
            Line::Elsp { guest, engine, .. } => *guest < self.guests && *engine < 4,
            Line::Turn { engine, .. } => self.has_engine(*engine),
            Line::Switch { engine } => self.has_engine(*engine),
            Line::Move { guest, frame } => *guest < self.guests && self.has_frame(*guest, *frame),
            Line::Reset { guest } => *guest < self.guests,
            Line::End => self.guests > 0,
        }
    }

    /// The line that these bytes are, where it is accepted there. It has its form.
    pub fn accepted(&self, bytes: &[u8]) -> Option<Line>
        ensures value { result ≡ accepted self.now bytes.now }
        ensures form { IfSome result IsForm }
        ensures accepts { IfSome result (λ line. accepts self.now line ≡ true) }
    {
        let line = crate::line(bytes).ok()?;
        if self.accepts(&line) {
            Some(line)
        } else {
            None
        }
    }

    // The guests' frames with those of one more guest.
    fn sizes_with(&self, frames: u32) -> [u32; 8]
        requires { self.now.guests < 8 }
        ensures { result ≡ slice_set self.now.sizes self.now.guests frames }
    {
        let mut sizes = self.sizes;
        sizes[usize::from(self.guests)] = frames;
        sizes
    }

    /// What is known after a line that is accepted.
    pub fn after(&self, line: &Line) -> Known
        requires { accepts self.now line.now ≡ true }
        ensures { result ≡ known_after self.now line.now }
    {
        match line {
            Line::Blank => *self,
            Line::Guest(guest) => Known {
                guests: self.guests + 1,
                frames: self.frames + guest.frames,
                sizes: self.sizes_with(guest.frames),
                given: self.given.after(&guest.want()),
                ..*self
            },
            _ => Known {
                begun: true,
                ..*self
            },
        }
    }
}
