ghost use Rattle.gv_private.specs.Laws.{CompletionTellsTheFront, StillTurnsChangeNothing, GuestStays, OnlyMemoryChanges, FailsafeStays, ElementStays, FirstHasRoots, RootsStay, TurnsKeepTables, EventsKeepTables, AperturesKeepTables, FailsafeIsTold, UngrantedIsUntouched, UnnamedIsUntouched, LoadsWriteNothing};

/// A turn that waits or is idle changes nothing of the device, tells nothing and runs nothing. Each
/// function here does nothing: its clause is the law.
#[tactic(auto, using(crate::proofs::Still::still_turns_change_nothing))]
pub fn still_turns_change_nothing()
    ensures { StillTurnsChangeNothing }
{}

/// Number, frames and ranges stay, whatever the guest does.
#[tactic(auto, using(crate::proofs::Stays::guest_stays))]
pub fn guest_stays()
    ensures { GuestStays }
{}

/// In failsafe nothing but memory changes, and the guest stays in failsafe, until a function reset.
pub fn failsafe_stays()
    ensures memory { OnlyMemoryChanges }
    ensures failed { FailsafeStays }
{}

/// A guest is told a reason exactly where it enters failsafe.
pub fn failsafe_is_told()
    ensures { FailsafeIsTold }
{}

/// What is left of an element at work is changed by nothing but its own turns, resets and failsafe.
pub fn element_stays()
    ensures { ElementStays }
{}

/// The events of a completion tell the number of the element at work, and whether its list has another.
pub fn completion_tells_the_front()
    ensures { CompletionTellsTheFront }
{}

/// A root of an element at work is a root, at first and after each event.
pub fn roots_stay()
    ensures first { FirstHasRoots }
    ensures after { RootsStay }
{}

/// A turn, a status event and an aperture write change no live table, nor anything that follows from
/// the tables.
pub fn turns_keep_tables()
    ensures turns { TurnsKeepTables }
    ensures events { EventsKeepTables }
    ensures apertures { AperturesKeepTables }
{}

/// A turn of an element at work neither reads nor writes a frame that no grant gives. A turn that loads
/// one writes nothing, and reads no frame that no owned entry names, but for tables.
pub fn ungranted_is_untouched()
    ensures frames { UngrantedIsUntouched }
    ensures unnamed { UnnamedIsUntouched }
    ensures loads { LoadsWriteNothing }
{}
