/// How many bytes a row of a blit has at the most.
pub(crate) const MAX_ROW_BYTES: usize = 16_384;

/// How many entries the global table has.
pub(crate) const TABLE_ENTRIES: usize = 1_048_576;
