ghost use Rattle.gv_entry.specs.SameTables.{TablesDecide, SameTablesChain, UnguardedFrameKeepsTables, UnguardedWordKeepsTables, UnguardedWriteKeepsTables};

/// The words of guarded frames decide all that tables mean. Each function here does nothing: its clause is
/// the law.
pub fn tables_decide()
    ensures { TablesDecide }
{}

/// One change of memory that keeps the tables, after another.
pub fn same_tables_chain()
    ensures { SameTablesChain }
{}

/// Other words in a frame that isn't guarded keep the tables.
#[tactic(auto, using(crate::proofs::SameTables::unguarded_frame_keeps_tables))]
pub fn unguarded_frame_keeps_tables()
    ensures { UnguardedFrameKeepsTables }
{}

/// Another word in a frame that isn't guarded keeps the tables.
#[tactic(auto, using(crate::proofs::SameTables::unguarded_word_keeps_tables))]
pub fn unguarded_word_keeps_tables()
    ensures { UnguardedWordKeepsTables }
{}

/// A guest's write to a frame that isn't guarded keeps the tables.
#[tactic(auto, using(crate::proofs::SameTables::unguarded_write_keeps_tables))]
pub fn unguarded_write_keeps_tables()
    ensures { UnguardedWriteKeepsTables }
{}
