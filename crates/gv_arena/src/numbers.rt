//! The numbers of pages: which are live, and which can be given without memory.
ghost use Rattle.std.specs.Prelude.{◌≡◌, ◌+◌, ◌<◌, ◌≤◌, Bool, true, false, List, [], ◌++◌, length, replicate, slice_index_or, slice_set, count_by, vec_capacity, IfOk, OnOk, OnErr};
ghost use Rattle.gv_arena.specs.Numbers.{AreFree};

use gv_types::OutOfMemory;
use std::alloc::Global;
use std::marker::Model;

/// Numbers are seen as a list of marks, which say of each number whether it is live.
#[derive(Drop)]
pub(crate) struct Numbers {
    marks: Vec<bool>,
    /// The numbers that are not live. It has room for all numbers, so that one can always be taken
    /// back.
    free: Vec<usize>,
    live: usize,
}

impl Model for Numbers {
    ghost use Rattle.std.specs.Prelude.{Bool, List};

    ghost Value = { List Bool };

    ghost view = { λ n. n.marks.items };

    ghost use Rattle.gv_arena.specs.NumbersHold.{Hold};

    ghost invariant = { Hold };
}

impl Numbers {
    pub(crate) fn new(alloc: Global) -> Numbers
        ensures { result ≡ [] }
    {
        Numbers {
            marks: Vec::new(alloc),
            free: Vec::new(alloc),
            live: 0,
        }
    }

    /// How many numbers are live.
    pub(crate) fn live(&self) -> usize
        ensures live { result ≡ count_by (λ mark. mark) self.now }
        ensures within { result ≤ length self.now }
    {
        self.live
    }

    /// How many numbers there are.
    pub(crate) fn total(&self) -> usize
        ensures { result ≡ length self.now }
    {
        self.marks.len()
    }

    /// Whether the number is live.
    pub(crate) fn is_live(&self, number: usize) -> bool
        ensures { result ≡ slice_index_or self.now number false }
    {
        number < self.marks.len() && self.marks[number]
    }

    /// Adds numbers, none of them live.
    pub(crate) fn add(&mut self, more: usize) -> Result<(), OutOfMemory>
        requires { length self.old + more ≤ 131072 }
        ensures ok { OnOk result (self.new ≡ self.old ++ replicate more false) }
        ensures err { OnErr result (self.new ≡ self.old) }
    {
        self.marks.reserve(more)?;
        self.free.reserve(self.live + more)?;
        for _step in 0..more {
            let number = self.marks.len();
            self.marks.push_reserved(false);
            self.free.push_reserved(number);
        }
        Ok(())
    }

    /// Gives a number, which is live from then on.
    pub(crate) fn give(&mut self) -> usize
        requires { count_by (λ mark. mark) self.old < length self.old }
        ensures number { (result < length self.old) × (slice_index_or self.old result false ≡ false) }
        ensures marked { self.new ≡ slice_set self.old result true }
    {
        let number = self.free.pop().unwrap();
        self.marks[number] = true;
        self.live += 1;
        number
    }

    /// Takes a number back, which is no longer live.
    pub(crate) fn take_back(&mut self, number: usize)
        requires { slice_index_or self.old number false ≡ true }
        ensures { self.new ≡ slice_set self.old number false }
    {
        self.marks[number] = false;
        self.free.push_reserved(number);
        self.live -= 1;
    }
}
