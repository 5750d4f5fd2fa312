ghost use Rattle.gv_place.specs.Laws.{EndsWhenDone, LeftIsSeen, FetchedRuns, LiveIsRead, LiveIsPassed, StepEnds, StepRuns, StepWaits, StepStands, PlaceStays, PartKeeps, StoresKeep, LoadedStands, StoppedStands, SubmittedStands};

/// A place stands for what is left: nothing is left exactly where the context has ended, what is left is
/// determined by the device, and changes elsewhere leave it.
pub fn places_stand_for_what_is_left()
    ensures ends { EndsWhenDone }
    ensures seen { LeftIsSeen }
    ensures stays { PlaceStays }
    ensures part { PartKeeps }
    ensures stores { StoresKeep }
{}

/// In the ring and in fetched batches the engine runs the copy as the guest's own command.
pub fn fetched_code_runs_from_its_copy()
    ensures { FetchedRuns }
{}

/// In a live batch the engine reads the guest's own command, where per-process reads agree.
pub fn live_code_is_read_in_place()
    ensures read { LiveIsRead }
    ensures passed { LiveIsPassed }
{}

/// A whole step of the engine is the turn of the guest's own device.
pub fn steps_are_the_guests_own()
    ensures ends { StepEnds }
    ensures runs { StepRuns }
    ensures waits { StepWaits }
    ensures stands { StepStands }
{}

/// A load begins with all that was fetched, and a context that is put away and brought back goes on
/// where it was.
pub fn contexts_stand_by_their_images()
    ensures loaded { LoadedStands }
    ensures stopped { StoppedStands }
    ensures submitted { SubmittedStands }
{}
