ghost use Rattle.std.specs.Prelude.{◌≡◌, ◌≢◌, ◌<◌, ◌≤◌, ◌↔◌, length, take, IsTrue, Some, slice_get};
ghost use Rattle.gv_csb.specs.Elements.{elements_of};
ghost use Rattle.gv_csb.specs.Slots.{IsCountedList, counted_list, list_in, is_valid, reset_execlists, submitted, submission_answer, current_of, completed, completion_events, next_index, pushed, pointer_of, pointer_written, IsWellFormed};
ghost use Rattle.gv_csb.specs.Status.{in_order};

use crate::{Events, Status};
use std::marker::Model;

/// What became of a submission. `starts` says that the engine was idle: its list begins at once.
#[derive(Clone, Copy, Debug, PartialEq, Eq)]
pub enum Submitted {
    Dropped,
    Accepted { starts: bool },
}

/// A list that has elements left: context descriptors.
#[derive(Clone, Copy, Debug, PartialEq, Eq)]
struct Execlist {
    element: u64,
    next: Option<u64>,
}

/// The two slots of an engine, for the list that runs and one that waits behind it, and the
/// context status buffer with its pointers. No call takes memory.
#[derive(Drop)]
pub struct Slots {
    running: Option<Execlist>,
    pending: Option<Execlist>,
    pairs: [(u32, u32); 6],
    write: u8,
    read: u8,
}

impl Model for Slots {
    ghost use Rattle.gv_csb.specs.Slots.{Execlists, IsWellFormed};

    ghost Value = { Execlists };

    ghost use Rattle.gv_csb.specs.Elements.{execlists_of};

    ghost view = { execlists_of };

    ghost invariant = { λ s. IsWellFormed (execlists_of s) };
}

impl Execlist {
    ghost use Rattle.gv_csb.specs.Slots.{list_of};
    ghost use Rattle.gv_csb.specs.Elements.{elements_of_list};

    fn of(first: u64, second: u64) -> Execlist
        ensures { elements_of_list result ≡ list_of first second }
    {
        Execlist {
            element: first,
            next: if is_valid(second) { Some(second) } else { None },
        }
    }
}

// The list of the first so many descriptors, if there are any.
fn counted(list: ([u64; 2], u8)) -> Option<Execlist>
    requires { list.1 ≤ 2 }
    ensures { elements_of result ≡ take list.1 list.0 }
{
    let ([element, next], count) = list;
    match count {
        0 => None,
        1 => Some(Execlist {
            element,
            next: None,
        }),
        _ => Some(Execlist {
            element,
            next: Some(next),
        }),
    }
}

fn is_valid(descriptor: u64) -> bool
    ensures { result ≡ is_valid descriptor }
{
    descriptor % 2 == 1
}

impl Slots {
    /// No lists and an empty status ring, with the write pointer 7 and the read pointer 0.
    pub fn new() -> Slots
        ensures { result ≡ reset_execlists }
    {
        Slots {
            running: None,
            pending: None,
            pairs: [(0, 0); 6],
            write: 7,
            read: 0,
        }
    }

    /// Slots with these status pairs, write and read pointer, and lists, each as descriptors of which the first so many
    /// count. The write pointer is 0 to 5, or 7 where no event came yet, and a list is pending only behind a running one.
    pub fn of(
        pairs: [(u32, u32); 6],
        write: u8,
        read: u8,
        running: ([u64; 2], u8),
        pending: ([u64; 2], u8),
    ) -> Slots
        requires write { (write ≤ 7) × (write ≢ 6) }
        requires read { read < 8 }
        requires running { IsCountedList running }
        requires pending { IsCountedList pending }
        requires behind { running.1 ≡ 0 → pending.1 ≡ 0 }
        ensures { result ≡ record { running = take running.1 running.0; pending = take pending.1 pending.0; pairs = pairs; write = write; read = read } }
    {
        Slots {
            running: counted(running),
            pending: counted(pending),
            pairs,
            write,
            read,
        }
    }

    /// The descriptors of the running or of the pending list that aren't completed, in order and filled up with 0, and
    /// how many they are: none where there is no such list.
    pub fn list(&self, pending: bool) -> ([u64; 2], u8)
        ensures list { result ≡ counted_list (list_in self.now pending) }
        ensures well_formed { IsWellFormed self.now }
    {
        match if pending { self.pending } else { self.running } {
            None => ([0, 0], 0),
            Some(
                Execlist {
                    element,
                    next: None,
                },
            ) => ([element, 0], 1),
            Some(
                Execlist {
                    element,
                    next: Some(next),
                },
            ) => ([element, next], 2),
        }
    }

    /// Submits the list of the descriptor `first` and, where it is valid, `second`. The submission
    /// is dropped where both slots hold lists or `first` isn't valid, and nothing changes then.
    pub fn submit(&mut self, first: u64, second: u64) -> Submitted
        ensures answer { result ≡ submission_answer self.old first }
        ensures after { self.new ≡ submitted self.old first second }
    {
        if !is_valid(first) {
            return Submitted::Dropped;
        }
        let list = Some(Execlist::of(first, second));
        match (self.running, self.pending) {
            (None, _) => {
                self.running = list;
                Submitted::Accepted { starts: true }
            }
            (Some(_), None) => {
                self.pending = list;
                Submitted::Accepted { starts: false }
            }
            (Some(_), Some(_)) => Submitted::Dropped,
        }
    }

    /// The descriptor of the element that is at work or next, if there is a list.
    pub fn current(&self) -> Option<u64>
        ensures { result ≡ current_of self.now.running }
    {
        match self.running {
            Some(list) => Some(list.element),
            None => None,
        }
    }

    /// Whether there is a list.
    pub fn busy(&self) -> bool
        ensures busy { IsTrue result ↔ (0 < length self.now.running) }
        ensures well_formed { IsWellFormed self.now }
    {
        self.running.is_some()
    }

    /// The current element completes: it is gone from its list, and behind the last element of a
    /// list the pending one becomes the running one.
    pub fn complete(&mut self) -> Events
        requires { 0 < length self.old.running }
        ensures events { in_order result ≡ completion_events self.old.running self.old.pending }
        ensures after { self.new ≡ completed self.old }
    {
        let Some(list) = self.running else {
            unreachable!();
        };
        let number = (list.element >> 32) as u32;
        if let Some(next) = list.next {
            self.running = Some(Execlist {
                element: next,
                next: None,
            });
            return Events {
                first: Status::element_switch(number),
                second: None,
            };
        }
        let begins = self.pending.is_some();
        self.running = self.pending;
        self.pending = None;
        Events {
            first: Status::active_to_idle(number),
            second: if begins {
                Some(Status::idle_to_active())
            } else {
                None
            },
        }
    }

    /// Puts an event into the next of the six status pairs, and answers its index.
    pub fn push(&mut self, status: Status) -> u8
        ensures index { result ≡ next_index self.old.write }
        ensures within { result < 6 }
        ensures after { self.new ≡ pushed self.old status }
    {
        let index = match self.write {
            5 | 7 => 0,
            write => write + 1,
        };
        self.write = index;
        self.pairs[index as usize] = (status.word, status.number);
        index
    }

    /// A status pair: event and context number.
    pub fn pair(&self, index: u8) -> (u32, u32)
        requires { index < 6 }
        ensures { slice_get self.now.pairs index ≡ Some result }
    {
        self.pairs[index as usize]
    }

    /// The status pointer register: the write pointer in bits 2 to 0, the read pointer in bits 10
    /// to 8.
    pub fn pointer(&self) -> u32
        ensures pointer { result ≡ pointer_of self.now }
        ensures well_formed { IsWellFormed self.now }
    {
        u32::from(self.write) + (u32::from(self.read) << 8)
    }

    /// Writes the status pointer register. It is masked: bits 10 to 8 alone are written, each
    /// where the bit 16 places higher is set.
    pub fn set_pointer(&mut self, value: u32)
        ensures { self.new ≡ pointer_written self.old value }
    {
        let bits = (value >> 8 & 7) as u8;
        let mask = (value >> 24 & 7) as u8;
        self.read = (self.read & (7 - mask)) | (bits & mask);
    }

    /// As after a reset of the engine: the same as a new one.
    pub fn clear(&mut self)
        ensures { self.new ≡ reset_execlists }
    {
        *self = Slots::new();
    }
}

impl Default for Slots {
    ghost is_default = { λ s. s ≡ reset_execlists };

    fn default() -> Self {
        Slots::new()
    }
}
