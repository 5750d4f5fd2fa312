ghost use Rattle.gv_machine.specs.Laws.{EachGuestIsToldItsOwn, EqualGuestsAreToldTheSame, FirstOwnersAreTheRotas, SwitchesAreTheRotas, SwitchesGoRound, SwitchesKeepDevices, DevicesKeepOwners, CoursesAreTold, TurnsAloneRun, GuestsStay, MachinesHaveTheirGuests, InputsNameTheirGuest, TurnsAreTheOwners, CommandsAreSigned};

/// Each guest's lines of a script's report are the report of its own private device alone, run on its
/// own inputs. Each function here does nothing: its clause is the law.
#[tactic(auto, using(crate::proofs::Isolation::each_guest_is_told_its_own))]
pub fn each_guest_is_told_its_own()
    ensures { EachGuestIsToldItsOwn }
{}

/// Where two scripts agree in a guest's frames, its ranges of the global table and its inputs, and in
/// whether they end with `end`, the guest's lines of their reports are equal, whatever the others do.
#[tactic(auto, using(crate::proofs::Isolation::equal_guests_are_told_the_same))]
pub fn equal_guests_are_told_the_same()
    ensures { EqualGuestsAreToldTheSame }
{}

/// Engines go round as the rota says, and a switch changes no device.
pub fn switches_are_the_rotas()
    ensures first { FirstOwnersAreTheRotas }
    ensures switches { SwitchesAreTheRotas }
    ensures round { SwitchesGoRound }
    ensures devices { SwitchesKeepDevices }
    ensures others { DevicesKeepOwners }
{}

/// What comes of an input, event by event, is what the private device makes of it.
#[tactic(auto, using(crate::proofs::Devices::courses_are_told))]
pub fn courses_are_told()
    ensures { CoursesAreTold }
{}

/// The commands that ran are those of the turns, in their order, each with the guest whose device ran
/// it.
pub fn turns_alone_run()
    ensures turns { TurnsAloneRun }
    ensures signed { CommandsAreSigned }
{}

/// Whatever inputs come, each device stays its guest's, with as many frames and the same ranges. So in
/// the end of a script there is a device for each of its guests, with the guest's frames and ranges.
pub fn guests_stay()
    ensures inputs { GuestsStay }
    ensures scripts { MachinesHaveTheirGuests }
{}

/// A guest's inputs are, but for turns, those of the script that name it, in their order; its turns are
/// those of the engines that it owns at their lines.
pub fn inputs_go_to_their_guests()
    ensures named { InputsNameTheirGuest }
    ensures turns { TurnsAreTheOwners }
{}
