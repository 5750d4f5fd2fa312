//! A block of memory for pages, behind a raw pointer.
ghost use Rattle.std.specs.Borrow.{sem};
ghost use Rattle.gv_types.specs.Memory.{zero_words};
ghost use Rattle.std.specs.Prelude.{◌≡◌, ℕ, ◌<◌, List, length, IfOk, slice_index, slice_index_or, slice_set, []};

use gv_types::PAGE_WORDS;
use std::alloc::{AllocError, Allocator, Global};
use std::marker::Model;

/// How many pages a block has.
pub(crate) const BLOCK_PAGES: usize = 64;

const BLOCK_BYTES: usize = 262_144;

const PAGE_ALIGN: usize = 8;

/// The words of a page.
pub(crate) type Page = [u64; PAGE_WORDS];

/// The memory of 64 pages, which never moves.
pub(crate) struct Block {
    start: *mut Page,
    alloc: Global,
    ghost pages: { List (List ℕ) },
}

impl Model for Block {
    ghost use Rattle.gv_arena.specs.Ownership.{block_owned, block_lent};

    ghost also_owns = { λ b. block_owned b.alloc b.start b.pages };

    ghost also_shares = { λ b _ κ. block_lent b.start b.pages κ };
}

impl Block {
    ghost use Rattle.gv_arena.specs.Lends.{lends_page};
    ghost use Rattle.gv_arena.specs.Zeros.{zero_pages};

    /// A block of pages of zeros.
    pub(crate) fn allocate(alloc: Global) -> Result<Block, AllocError>
        ensures { IfOk result (λ block. block.pages ≡ zero_pages) }
    {
        match alloc.allocate(BLOCK_BYTES, PAGE_ALIGN) {
            Ok(block) => {
                let pages = block as *mut [Page; BLOCK_PAGES];
                unsafe {
                    *pages = [[0; PAGE_WORDS]; BLOCK_PAGES];
                }
                Ok(Block {
                    start: block as *mut Page,
                    alloc,
                })
            }
            Err(error) => Err(error),
        }
    }

    /// A page's words.
    pub(crate) fn page(&self, page: usize) -> &Page
        requires { page < 64 }
        ensures { result.now ≡ slice_index_or self.now.pages page [] }
    {
        unsafe { &*self.start.add(page) }
    }

    /// A page's words, to be written.
    pub(crate) fn page_mut(&mut self, page: usize) -> &mut Page
        requires { page < 64 }
        ensures* writes_back { sem 𝓛 (lends_page self.entry page result) }
        ensures value { result.now ≡ slice_index_or self.old.pages page [] }
    {
        unsafe { &mut *self.start.add(page) }
    }
}

impl Drop for Block {
    fn drop(self) {
        let Block { start, alloc } = self;
        unsafe {
            alloc.deallocate(start as *mut u8, BLOCK_BYTES, PAGE_ALIGN);
        }
    }
}
