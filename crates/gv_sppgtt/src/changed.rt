ghost use Rattle.std.specs.Prelude.{◌≡◌, ◌++◌, [], ◌∷◌, if◌then◌else◌, OnOk};

use gv_types::OutOfMemory;
use std::alloc::Global;

/// The frames whose guarding a call changed: those that became tables, and those that no longer are, each once and
/// in rising order.
#[derive(Debug, Drop)]
pub struct Changed {
    pub guarded: Vec<u32>,
    pub unguarded: Vec<u32>,
}

impl Changed {
    // No frames.
    pub(crate) fn none(alloc: Global) -> Changed
        ensures guarded { result.guarded.items ≡ [] }
        ensures unguarded { result.unguarded.items ≡ [] }
    {
        Changed {
            guarded: Vec::new(alloc),
            unguarded: Vec::new(alloc),
        }
    }

    // One frame more.
    pub(crate) fn push(&mut self, frame: u32, guarded: bool) -> Result<(), OutOfMemory>
        ensures guarded { OnOk result (self.new.guarded.items ≡ (if guarded then self.old.guarded.items ++ frame ∷ [] else self.old.guarded.items)) }
        ensures unguarded { OnOk result (self.new.unguarded.items ≡ (if guarded then self.old.unguarded.items else self.old.unguarded.items ++ frame ∷ [])) }
    {
        if guarded {
            self.guarded.push(frame)?;
            Ok(())
        } else {
            self.unguarded.push(frame)?;
            Ok(())
        }
    }
}
