ghost use Rattle.gv_sppgtt.specs.Laws.{ServingTablesShadow, ServingTablesAreLive, ServingTablesTell, ServingTablesStay, ServingTablesKeep, ServingTablesServeOn, ServingTablesCount, ServingTablesChain, ServingTablesPin, TablesAreFew};

/// Tables that serve a memory stand for the guest's own tables, so that each access through a root's shadow table
/// reaches what the guest's tables grant. Each function here does nothing: its clause is the law.
pub fn serving_tables_shadow()
    ensures { ServingTablesShadow }
{}

/// They have a node exactly for each live table and each split key.
pub fn serving_tables_are_live()
    ensures { ServingTablesAreLive }
{}

/// The frames that the caller knows to be guarded are those that are.
pub fn serving_tables_tell()
    ensures { ServingTablesTell }
{}

/// They serve as long as their nodes' pages stay, whatever else the device does.
pub fn serving_tables_stay()
    ensures { ServingTablesStay }
{}

/// A store to a frame that isn't guarded keeps them serving.
pub fn serving_tables_keep()
    ensures { ServingTablesKeep }
{}

/// And so they serve on after such a store.
pub fn serving_tables_serve_on()
    ensures { ServingTablesServeOn }
{}

/// A node's parents are the words that name it, and one more where it is a root.
pub fn serving_tables_count()
    ensures { ServingTablesCount }
{}

/// The chain of a frame has each leaf that maps it, no other, and none twice.
pub fn serving_tables_chain()
    ensures { ServingTablesChain }
{}

/// They pin a frame exactly where the guest's own tables map it.
pub fn serving_tables_pin()
    ensures { ServingTablesPin }
{}

/// There are at most four of them for each frame, and two for each large page, whatever a call answered.
pub fn tables_are_few()
    ensures { TablesAreFew }
{}
