ghost use Rattle.gv_engine.specs.Laws.{NeverFaults};

/// A device in memory never fails: its count of faults is 0, whatever was done with it. The function does nothing:
/// its clause is the law.
pub fn devices_in_memory_never_fault()
    ensures { NeverFaults }
{}
