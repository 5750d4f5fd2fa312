ghost use Rattle.gv_fetch.specs.Laws.{FetchedMayStand, FetchedIsOwned, OwnedMayDo, FetchedIsShort, BatchGoesOn, RingGoesOn, BeginsWell, FetchedMoves, LiveMoves, OneSpelling, FetchedIsBounded, MovesStayBounded};

/// Each item that is fetched is a command that may stand where it stands, and each batch ends with
/// its one BATCH_BUFFER_END.
pub fn fetched_items_may_stand()
    ensures { FetchedMayStand }
{}

/// Each global operand of what is fetched is on owned pages, and so is each access that such a
/// command makes.
pub fn fetched_items_are_owned()
    ensures items { FetchedIsOwned }
    ensures accesses { OwnedMayDo }
{}

/// So many commands at most follow one another.
pub fn fetched_items_are_few()
    ensures { FetchedIsShort }
{}

/// A fetch is the front command and the fetch of what comes behind it. So it ends, whatever the
/// guest's memory holds, and the bound on the commands in its definition changes nothing.
pub fn fetch_goes_by_commands()
    ensures batch { BatchGoesOn }
    ensures ring { RingGoesOn }
{}

/// What is left of an element is well formed when it is loaded, and after each command that may
/// stand where it stands.
pub fn moves_keep_what_is_left()
    ensures begun { BeginsWell }
    ensures fetched { FetchedMoves }
    ensures live { LiveMoves }
{}

/// Items have one flat list of dwords, of which none begins another: a saved image has one spelling for what is left.
pub fn items_have_one_spelling()
    ensures { OneSpelling }
{}

/// What is left of an element is within the bounds of a load, its levels nest, and its live addresses have 48 bits, when it
/// is fetched and after each command that may stand where it stands.
pub fn what_is_left_is_bounded()
    ensures begun { FetchedIsBounded }
    ensures moved { MovesStayBounded }
{}
