ghost use Rattle.gv_cmd.specs.Simulation.{LiveIsLocal, AccessesAreAligned};

/// A command of a live batch loads and stores dwords of the per-process space alone.
pub fn live_commands_are_local()
    ensures { LiveIsLocal }
{}

/// Each dword that a command loads or stores stands at a multiple of 4.
pub fn accesses_are_aligned()
    ensures { AccessesAreAligned }
{}
