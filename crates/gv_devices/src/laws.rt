ghost use Rattle.gv_devices.specs.Laws.{NeverFaults};

/// A counting device never fails: its count of faults is 0, whatever was done with it. The function does nothing: its
/// clause is the law.
pub fn counting_devices_never_fault()
    ensures { NeverFaults }
{}
