//! A chunk of 64 pages.
ghost use Rattle.std.specs.Prelude.{◌≡◌, ℕ, ◌+◌, ◌<◌, ◌≤◌, List, [], length, slice_index, slice_index_or, slice_set, IfOk};
ghost use Rattle.gv_types.specs.Memory.{zero_words};
ghost use Rattle.gv_arena.specs.Rows.{row_copied, IsPage, IsRowCopied};
ghost use Rattle.gv_arena.specs.Zeros.{zero_pages};

use crate::block::{Block, Page};
use crate::row::copy_bytes;
use gv_types::PAGE_WORDS;
use std::alloc::{AllocError, Global};
use std::marker::Model;

#[tactic(auto, unfolding(gv_types::specs::Memory::zero_words))]
fn clear(words: &mut Page)
    ensures { words.new ≡ zero_words }
{
    *words = [0; PAGE_WORDS];
}

/// A chunk is seen as the list of its pages' words.
#[derive(Drop)]
pub(crate) struct Chunk {
    block: Block,
}

impl Model for Chunk {
    ghost Value = { List (List ℕ) };

    ghost view = { λ c. c.block.pages };

    ghost invariant = { λ c. length c.block.pages ≡ 64 };
}

impl Chunk {
    /// Pages of zeros.
    pub(crate) fn new(alloc: Global) -> Result<Chunk, AllocError>
        ensures { IfOk result (λ c. c ≡ zero_pages) }
    {
        let block = Block::allocate(alloc)?;
        Ok(Chunk { block })
    }

    pub(crate) fn page(&self, slot: usize) -> &Page
        requires { slot < 64 }
        ensures { result.now ≡ slice_index_or self.now slot [] }
    {
        self.block.page(slot)
    }

    pub(crate) fn word(&self, slot: usize, index: usize) -> u64
        requires slot { slot < 64 }
        requires index { index < 512 }
        ensures { result ≡ slice_index (slice_index_or self.now slot []) index }
    {
        self.block.page(slot)[index]
    }

    /// Makes all words of a page zero.
    pub(crate) fn clear(&mut self, slot: usize)
        requires { slot < 64 }
        ensures { self.new ≡ slice_set self.old slot zero_words }
    {
        clear(self.block.page_mut(slot));
    }

    pub(crate) fn set_word(&mut self, slot: usize, index: usize, value: u64)
        requires slot { slot < 64 }
        requires index { index < 512 }
        ensures { self.new ≡ slice_set self.old slot (slice_set (slice_index_or self.old slot []) index value) }
    {
        self.block.page_mut(slot)[index] = value;
    }

    /// Copies a row of bytes of another page into a page.
    pub(crate) fn copy_in(
        &mut self,
        slot: usize,
        source: &Page,
        from_byte: usize,
        to_byte: usize,
        count: usize,
    )
        requires slot { slot < 64 }
        requires from_within { from_byte + count ≤ 4096 }
        requires to_within { to_byte + count ≤ 4096 }
        ensures pages { self.new ≡ slice_set self.old slot (row_copied source.now from_byte (slice_index_or self.old slot []) to_byte count) }
        ensures copied { IsRowCopied source.now (slice_index_or self.old slot []) (row_copied source.now from_byte (slice_index_or self.old slot []) to_byte count) from_byte to_byte count }
        ensures source { IsPage source.now }
        ensures target { IsPage (slice_index_or self.old slot []) }
    {
        let target = self.block.page_mut(slot);
        copy_bytes(source, from_byte, target, to_byte, count);
    }
}
