ghost use Rattle.std.specs.Prelude.{◌≡◌, ◌<◌, ℕ, ◌/◌, List, [], ◌∷◌, slice_index, slice_set};
ghost use Rattle.gv_cmd.specs.Effect.{effect, Operations};

use crate::{Done, Space, run};
use gv_cmd::{Command, SpaceMeaning, decode};
use gv_types::EngineId;
use std::process::Abort;

/// Sixteen dwords, which are global and per-process memory at once, and the general registers.
#[derive(Drop)]
struct Small {
    memory: [u32; 16],
    general: [u32; 32],
}

impl Small {
    fn load(&self, at: u64) -> u32
        ensures { result ≡ slice_index self.now.memory (at / 4) }
    {
        if at / 4 < 16 {
            self.memory[(at / 4) as usize]
        } else {
            0
        }
    }

    fn store(&mut self, at: u64, value: u32)
        ensures { self.new ≡ record self.old { memory = slice_set self.old.memory (at / 4) value } }
    {
        if at / 4 < 16 {
            self.memory[(at / 4) as usize] = value;
        }
    }

    fn general(&self, n: u8) -> u32
        requires { n < 32 }
        ensures { result ≡ slice_index self.now.general n }
    {
        self.general[n as usize]
    }

    fn set_general(&mut self, n: u8, value: u32)
        requires { n < 32 }
        ensures { self.new ≡ record self.old { general = slice_set self.old.general n value } }
    {
        self.general[n as usize] = value;
    }
}

/// A space that is lent for the time of a command. Of a row it keeps where it begins, at the end of
/// its memory.
struct Lent<'a> {
    small: &'a mut Small,
}

impl SpaceMeaning for Lent<'_> {
    ghost State = { (List ℕ) × (List ℕ) };

    ghost state = { λ s. (s.small.now.memory, s.small.now.general) };

    ghost loans = { λ s. s.small.ghost_name ∷ [] };

    ghost operations = { record {
      load_gives = λ s global at. slice_index s.0 (at / 4);
      load_leaves = λ s global at. s;
      stored = λ s global at value. (slice_set s.0 (at / 4) value, s.1);
      row_copied = λ s to from bytes. (slice_set s.0 15 bytes, s.1);
      row_filled = λ s to bytes colour depth. (slice_set s.0 15 colour, s.1);
      general_gives = λ s n. slice_index s.1 n;
      general_set = λ s n value. (s.0, slice_set s.1 n value);
    } };
}

impl Space for Lent<'_> {
    fn load(&mut self, _global: bool, at: u64) -> u32 {
        self.small.load(at)
    }

    fn store(&mut self, _global: bool, at: u64, value: u32) {
        self.small.store(at, value);
    }

    fn copy_row(&mut self, _to: u64, _from: u64, bytes: u32) {
        self.small.store(60, bytes);
    }

    fn fill_row(&mut self, _to: u64, _bytes: u32, colour: u32, _depth: u8) {
        self.small.store(60, colour);
    }

    fn general(&self, n: u8) -> u32 {
        self.small.general(n)
    }

    fn set_general(&mut self, n: u8, value: u32) {
        self.small.set_general(n, value);
    }
}

/// Runs a command of the blitter engine over what it lends: the lender has the effect.
fn run_lent(small: &mut Small, command: &Command, privileged: bool) -> Done
    ensures { (small.new.memory, small.new.general) ≡ (effect ⟦<Lent<'static> as SpaceMeaning>⟧.operations command.now 1 privileged (small.old.memory, small.old.general)).after }
{
    let mut space = Lent { small };
    let done = run(command, EngineId(1), privileged, &mut space);
    let Lent { small: _ } = space;
    done
}

/// Memory that begins with 10, 11, 12, 13, and general registers that begin with 0x20, 0x21.
fn filled() -> Small {
    let mut small = Small {
        memory: [0; 16],
        general: [0; 32],
    };
    small.store(0, 10);
    small.store(4, 11);
    small.store(8, 12);
    small.store(12, 13);
    small.set_general(0, 0x20);
    small.set_general(1, 0x21);
    small
}

/// A command over that space goes so, and leaves this dword at 4 and this first general register.
fn goes(rt: &impl Abort, words: &[u32], privileged: bool, wanted: Done, at_4: u32, first: u32) {
    let Ok((command, _)) = decode(words) else {
        panic!(rt; "unlisted");
    };
    let mut small = filled();
    let done = run_lent(&mut small, &command, privileged);
    assert!(rt; done == wanted);
    assert_eq!(rt; small.load(4), at_4);
    assert_eq!(rt; small.general(0), first);
}

const RAN: Done = Done::Ran { raise: 0 };

#[test]
fn privileged_commands(rt: HostRuntime) {
    goes(&rt, &[0x0100_0000], true, Done::Ran { raise: 1 }, 11, 0x20);
    goes(&rt, &[0x0e40_c002, 12, 8, 0], true, RAN, 11, 0x20);
    goes(&rt, &[0x0e40_8002, 12, 8, 0], true, Done::Waits, 11, 0x20);
    goes(&rt, &[0x0e40_a002, 13, 8, 0], true, RAN, 11, 0x20);
    goes(&rt, &[0x1020_0003, 0, 0, 1, 2], true, RAN, 2, 0x20);
    goes(
        &rt,
        &[0x1100_0005, 0x22600, 5, 0x2600, 7, 0x22604, 6],
        true,
        RAN,
        11,
        5,
    );
}

#[test]
fn privileged_copies(rt: HostRuntime) {
    goes(&rt, &[0x1200_0002, 0x22604, 4, 0], true, RAN, 0x21, 0x20);
    goes(&rt, &[0x1200_0002, 0x2604, 4, 0], true, RAN, 0, 0x20);
    goes(&rt, &[0x1480_0002, 0x22600, 12, 0], true, RAN, 11, 13);
    goes(&rt, &[0x1500_0001, 0x22604, 0x22600], true, RAN, 11, 0x21);
    goes(&rt, &[0x1700_0003, 4, 0, 0, 0], true, RAN, 10, 0x20);
    goes(
        &rt,
        &[0x7a00_0004, 0x4100, 0, 0, 1, 2],
        true,
        Done::Ran { raise: 0x10 },
        2,
        0x20,
    );
}

#[test]
fn live_batches_skip(rt: HostRuntime) {
    goes(&rt, &[0x0100_0000], false, RAN, 11, 0x20);
    goes(&rt, &[0x0e40_8002, 12, 8, 0], false, RAN, 11, 0x20);
    goes(&rt, &[0x1040_0002, 4, 0, 1], false, RAN, 11, 0x20);
    goes(&rt, &[0x1200_0002, 0x2604, 4, 0], false, RAN, 11, 0x20);
    goes(&rt, &[0x1720_0003, 4, 0, 0, 0], false, RAN, 11, 0x20);
    goes(
        &rt,
        &[0x7a00_0004, 0x0100_4100, 0, 0, 1, 2],
        false,
        RAN,
        11,
        0x20,
    );
    goes(
        &rt,
        &[0x7a00_0004, 0x0100_0100, 0, 0, 1, 2],
        false,
        Done::Ran { raise: 0x10 },
        11,
        0x20,
    );
}
