ghost use Rattle.gv_turn.specs.Laws.{BeginsOwned, CommandsAgree, EventsKeepWork, FinishingKeepsWork, LiveCodeMay, OthersStay, PartKeepsWork, RaisingKeepsWork, StepIsTurn, WritesKeepWork};

/// Each command has the same effect in the private device's space and in the loaded context's, where the shadow
/// tables stand for the guest's own and its global accesses are on owned pages. Each function here does nothing:
/// its clause is the law.
pub fn commands_agree()
    ensures agree { CommandsAgree }
    ensures live { LiveCodeMay }
{}

/// What is fetched makes global accesses on owned pages alone.
pub fn fetched_is_owned()
    ensures { BeginsOwned }
{}

/// A step of an engine at which a guest's element is at work is the turn of its private device: it ends, waits, fails
/// or runs a command with it, and leaves the element at work as it was.
pub fn steps_are_turns()
    ensures { StepIsTurn }
{}

/// Where a command runs, the elements of the same guest on other engines stay at work as they were.
pub fn others_stay_at_work()
    ensures { OthersStay }
{}

/// An element stays at work while only words of frames that are no live tables change, of memory and of the frames
/// that hold it; while interrupts are raised; and while of the device nothing changes that stands of the guest. Status
/// events, and completions on other engines, change of the private device no more than such words.
pub fn work_is_kept()
    ensures writes { WritesKeepWork }
    ensures raising { RaisingKeepsWork }
    ensures part { PartKeepsWork }
    ensures events { EventsKeepWork }
    ensures finishing { FinishingKeepsWork }
{}
