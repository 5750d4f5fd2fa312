ghost use Rattle.std.specs.Prelude.{◌≡◌, ◌<◌, ◌^◌};
ghost use Rattle.gv_gen.specs.Draw.{next_state, drawn, kind_drawn, draw_at, state_after};

/// The state of the generator that the rounds draw from: a linear congruential one, modulo 2^64.
#[derive(Clone, Copy, Debug, PartialEq, Eq)]
pub(crate) struct Generator {
    pub state: u64,
}

const FACTOR: u64 = 6_364_136_223_846_793_005;

const INCREMENT: u64 = 1_442_695_040_888_963_407;

impl Generator {
    /// The next number: the upper 31 bits of the next state.
    fn next(&mut self) -> u32
        ensures state { self.new.state ≡ next_state self.old.state }
        ensures number { result ≡ drawn self.old.state }
    {
        self.state = self.state.wrapping_mul(FACTOR).wrapping_add(INCREMENT);
        (self.state >> 33) as u32
    }

    /// What a round draws: what is done, by which guest, and a value, in this order.
    pub fn draw(&mut self) -> Draw
        ensures draw { result ≡ draw_at self.old.state }
        ensures state { self.new.state ≡ state_after self.old.state }
    {
        let kind = Kind::of(self.next() % 8);
        let guest = (self.next() % 2) as u8;
        let value = self.next();
        Draw { kind, guest, value }
    }
}

/// What is done in a round.
#[derive(Clone, Copy, Debug, PartialEq, Eq)]
pub(crate) enum Kind {
    /// A dword of memory is written.
    Store,
    /// A dword of memory is read.
    Load,
    /// A context with a store in its ring is submitted.
    Submit,
    /// The blitter engine has some turns.
    Turns,
    /// The blitter engine's owner changes.
    Switch,
    /// An entry of the lowest process table is written.
    Map,
    /// The status pointer is read.
    Pointer,
    /// A frame's host page changes.
    Move,
}

impl Kind {
    fn of(number: u32) -> Kind
        ensures { result ≡ kind_drawn number }
    {
        match number {
            0 => Kind::Store,
            1 => Kind::Load,
            2 => Kind::Submit,
            3 => Kind::Turns,
            4 => Kind::Switch,
            5 => Kind::Map,
            6 => Kind::Pointer,
            _ => Kind::Move,
        }
    }
}

/// What a round draws.
#[derive(Clone, Copy, Debug, PartialEq, Eq)]
pub(crate) struct Draw {
    pub kind: Kind,
    pub guest: u8,
    pub value: u32,
}
