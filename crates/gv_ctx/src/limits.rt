/// How many dwords a page has.
pub const PAGE_DWORDS: usize = 1024;

/// How many bytes a page has.
pub(crate) const PAGE_BYTES: u32 = 4096;

/// How many pages a ring has at the most.
pub(crate) const MAX_RING_PAGES: u32 = 16;
