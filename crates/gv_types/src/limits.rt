/// How many words of 64 bits a page has, and so a frame of guest memory and a table.
pub const PAGE_WORDS: usize = 512;

/// How many bytes a page has.
pub const PAGE_BYTES: u64 = 4096;

/// How many frames all guests have at the most: 64 MiB.
pub const MAX_FRAMES: u32 = 16_384;

/// How many pages of the host are live at the most: 512 MiB.
pub const MAX_LIVE_PAGES: u32 = 131_072;
