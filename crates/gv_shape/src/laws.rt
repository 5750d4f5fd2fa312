ghost use Rattle.gv_shape.specs.Shadows.{ShadowsReach, ShadowsKeep, NodesAreTheLiveTables};

/// Through shadow tables that stand for the guest's own, each access reaches what the guest's tables grant. Each
/// function here does nothing: its clause is the law.
pub fn shadows_reach()
    ensures { ShadowsReach }
{}

/// Shadow tables stand as long as their pages and the words of guarded frames are as they were.
pub fn shadows_keep()
    ensures { ShadowsKeep }
{}

/// Where each node has a parent, parents are counted, and each word is as the guest's, the nodes are the live tables
/// and the split keys.
pub fn nodes_are_the_live_tables()
    ensures { NodesAreTheLiveTables }
{}
