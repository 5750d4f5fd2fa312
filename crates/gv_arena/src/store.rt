//! Chunks as one row of pages.
ghost use Rattle.std.specs.Prelude.{◌≡◌, ℕ, ◌+◌, ◌<◌, ◌≤◌, List, [], length, slice_index, slice_index_or, slice_set, OnOk};
ghost use Rattle.gv_types.specs.Memory.{zero_words};
ghost use Rattle.gv_arena.specs.Rows.{row_copied, IsPage, IsRowCopied};
ghost use Rattle.gv_arena.specs.Store.{joined, AreChunks, IsLonger};

use crate::block::{BLOCK_PAGES, Page};
use crate::chunk::Chunk;
use gv_types::OutOfMemory;
use std::alloc::Global;
use std::marker::Model;

/// A store is seen as the list of its pages' words.
#[derive(Drop)]
pub(crate) struct Store {
    alloc: Global,
    chunks: Vec<Chunk>,
}

impl Model for Store {
    ghost Value = { List (List ℕ) };

    ghost view = { λ s. joined s.chunks.items };

    ghost invariant = { λ s. AreChunks s.chunks.items };
}

impl Store {
    pub(crate) fn new(alloc: Global) -> Store
        ensures { result ≡ [] }
    {
        Store {
            alloc,
            chunks: Vec::new(alloc),
        }
    }

    /// Adds chunks until there are at least as many pages. What was added before memory ran out
    /// stays.
    pub(crate) fn grow(&mut self, pages: usize) -> Result<(), OutOfMemory>
        requires { (pages ≤ 131072) × (length self.old ≤ 131072) }
        ensures longer { IsLonger self.old self.new }
        ensures within { length self.new ≤ 131072 }
        ensures ok { OnOk result (pages ≤ length self.new) }
    {
        while self.chunks.len() * BLOCK_PAGES < pages {
            let chunk = Chunk::new(self.alloc)?;
            self.chunks.push(chunk)?;
        }
        Ok(())
    }

    pub(crate) fn page(&self, page: usize) -> &Page
        requires { page < length self.now }
        ensures { result.now ≡ slice_index_or self.now page [] }
    {
        self.chunks[page / BLOCK_PAGES].page(page % BLOCK_PAGES)
    }

    pub(crate) fn word(&self, page: usize, index: usize) -> u64
        requires page { page < length self.now }
        requires index { index < 512 }
        ensures { result ≡ slice_index (slice_index_or self.now page []) index }
    {
        self.chunks[page / BLOCK_PAGES].word(page % BLOCK_PAGES, index)
    }

    /// Makes all words of a page zero.
    pub(crate) fn clear(&mut self, page: usize)
        requires { page < length self.old }
        ensures { self.new ≡ slice_set self.old page zero_words }
    {
        self.chunks[page / BLOCK_PAGES].clear(page % BLOCK_PAGES);
    }

    pub(crate) fn set_word(&mut self, page: usize, index: usize, value: u64)
        requires page { page < length self.old }
        requires index { index < 512 }
        ensures { self.new ≡ slice_set self.old page (slice_set (slice_index_or self.old page []) index value) }
    {
        self.chunks[page / BLOCK_PAGES].set_word(page % BLOCK_PAGES, index, value);
    }

    /// Copies a row of bytes from a page into another or the same, as if read whole before it is
    /// written.
    pub(crate) fn copy_row(
        &mut self,
        from: usize,
        from_byte: usize,
        to: usize,
        to_byte: usize,
        count: usize,
    )
        requires from { from < length self.old }
        requires from_within { from_byte + count ≤ 4096 }
        requires to { to < length self.old }
        requires to_within { to_byte + count ≤ 4096 }
        ensures pages { self.new ≡ slice_set self.old to (row_copied (slice_index_or self.old from []) from_byte (slice_index_or self.old to []) to_byte count) }
        ensures copied { IsRowCopied (slice_index_or self.old from []) (slice_index_or self.old to []) (row_copied (slice_index_or self.old from []) from_byte (slice_index_or self.old to []) to_byte count) from_byte to_byte count }
        ensures source { IsPage (slice_index_or self.old from []) }
        ensures target { IsPage (slice_index_or self.old to []) }
    {
        let source = *self.page(from);
        self.chunks[to / BLOCK_PAGES].copy_in(to % BLOCK_PAGES, &source, from_byte, to_byte, count);
    }
}
