ghost use Rattle.gv_gtt.specs.Laws.{TranslationStays, TranslatedStays, TranslationKeeps, TranslationShadows, TranslationMirrors, TranslationIsSmall, ChangesStayInside, ChangesLeaveOthers};

/// A guest's memory and tables translate as before where their part of the device is as it was. Each function here
/// does nothing: its clause is the law.
pub fn translation_stays()
    ensures { TranslationStays }
{}

/// And they stand for the same private device.
pub fn translated_stays()
    ensures { TranslatedStays }
{}

/// Stores to frames that are no live tables keep them translating.
pub fn translation_keeps()
    ensures { TranslationKeeps }
{}

/// Per process they reach what the guest's own tables grant.
pub fn translation_shadows()
    ensures { TranslationShadows }
{}

/// Globally the device's entries name the frames that the guest's pages grant.
pub fn translation_mirrors()
    ensures { TranslationMirrors }
{}

/// There are few shadow tables, whatever a call answered.
pub fn translation_is_small()
    ensures { TranslationIsSmall }
{}

/// A call changes no more than the guest's part of the device.
pub fn changes_stay_inside()
    ensures { ChangesStayInside }
{}

/// It leaves each other part of the guest's, as that of a shadow ring.
pub fn changes_leave_others()
    ensures { ChangesLeaveOthers }
{}
