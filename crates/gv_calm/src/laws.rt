ghost use Rattle.gv_calm.specs.Calm.{NoReplyTellsFailsafe, NoDeviceIsInFailsafe, NoLineTellsFailsafe};

/// The script of a number puts no guest into failsafe: no reply of its course tells a reason, no line of
/// its report does, and in the end no device is in failsafe. Whatever the number, each load is good, each
/// command is listed, and no write leaves a bad entry in a live table. The function does nothing: its
/// clauses are the law.
pub fn numbers_are_calm()
    ensures replies { NoReplyTellsFailsafe }
    ensures devices { NoDeviceIsInFailsafe }
    ensures lines { NoLineTellsFailsafe }
{}
