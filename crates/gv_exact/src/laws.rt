ghost use Rattle.gv_exact.specs.Laws.{ExactGrants, OnlyRecordedCodeIsRead, OnlyRecordedIsRead, OnlyRecordedIsWritten, RecordedIsDone, TouchesAgree, UngrantedIsSpared};

/// The record of what a command touches is of its own effect. Each function here does nothing: its clause is
/// the law.
pub fn recorded_is_done()
    ensures { RecordedIsDone }
{}

/// A command touches the same bytes on the shared device and on the private one.
pub fn touches_agree()
    ensures { TouchesAgree }
{}

/// A step at an element at work touches what is asked for and granted, and nothing else; so a frame that no
/// grant gives at that moment is neither read nor written.
pub fn steps_touch_what_is_granted()
    ensures exact { ExactGrants }
    ensures spares { UngrantedIsSpared }
{}

/// The record is whole: a step changes no word but those that are recorded as written, and what isn't recorded
/// as read makes no difference to a command, nor to the reading of one.
pub fn records_are_whole()
    ensures written { OnlyRecordedIsWritten }
    ensures read { OnlyRecordedIsRead }
    ensures code { OnlyRecordedCodeIsRead }
{}
