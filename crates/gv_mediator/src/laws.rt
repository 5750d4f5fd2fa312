ghost use Rattle.gv_mediator.specs.Laws.{DevicesHaveMemories};

/// The device has just the machine's memories.
pub fn devices_have_memories()
    ensures { DevicesHaveMemories }
{}
