ghost use Rattle.gv_vgpu.specs.Laws.{CopiesStand, DevicesAreSmall, DeviceStays, DeviceStands, ElementsAtWorkStand, StepIsItsTurn, WindowsAreSmall};
ghost use Rattle.gv_vgpu.specs.Exact.{GrantsStayExact};
ghost use Rattle.gv_vgpu.specs.Followed.{ElementsAreLoaded, TablesAreFollowed};

/// A step of an engine that the guest owns, and on which an element is at work, is a turn of the private device that
/// the guest's device stands for. The function does nothing: its clause is the law.
pub fn a_step_is_its_turn()
    ensures { StepIsItsTurn }
{}

/// An element on an engine that the guest owns is at work there, as the laws of a step ask: whatever stands, and not only
/// behind a step.
pub fn elements_at_work_stand()
    ensures { ElementsAtWorkStand }
{}

/// Where all that a guest has of the shared device is as it was, and there is room, its device stands there as before,
/// for the same private device, with the copies of its elements at work.
pub fn other_guests_leave_it()
    ensures stands { DeviceStands }
    ensures stays { DeviceStays }
    ensures copies { CopiesStand }
{}

/// How many host pages a guest's device has at the most.
pub fn devices_are_small()
    ensures all { DevicesAreSmall }
    ensures windows { WindowsAreSmall }
{}

/// The shared device follows a guest's own tables: per process and globally, an engine reaches through it what they
/// grant; shadow tables, counts, chains and pins are those of the guest's live tables.
pub fn tables_are_followed()
    ensures { TablesAreFollowed }
{}

/// The next step of an engine that the guest owns touches of guest memory exactly what its element's front command asks
/// for and the grants of that moment give, and nothing where it has no element.
pub fn grants_are_exact()
    ensures { GrantsStayExact }
{}

/// On an engine that the guest owns the context of its element at work is loaded, and none where it has no element.
pub fn elements_are_loaded()
    ensures { ElementsAreLoaded }
{}
