//! The pages of a device in memory.
ghost use Rattle.std.specs.Prelude.{◌≡◌, ℕ, ◌+◌, ◌-◌, ◌<◌, ◌≤◌, length, slice_index, slice_index_or, slice_set, IfOk, OnOk, OnErr, IsSome, Some, None, []};
ghost use Rattle.gv_types.specs.Maps.{put};
ghost use Rattle.gv_types.specs.Bits.{byte_of, with_byte};
ghost use Rattle.gv_types.specs.Memory.{zero_words};
ghost use Rattle.gv_engine.specs.Pages.{AreLabelled, nothing_held, with_words, byte_in, bytes_put};

use crate::limits::MAX_ROW_BYTES;
use gv_arena::Arena;
use gv_types::{Label, MAX_LIVE_PAGES, OutOfMemory};
use std::alloc::Global;

/// How many pages a device can have.
const PAGE_LIMIT: usize = MAX_LIVE_PAGES as usize;

/// A byte of a word, least first.
pub(crate) fn byte_of(word: u64, at: u64) -> u8
    ensures { result ≡ byte_of word at }
{
    word.to_le_bytes()[(at % 8) as usize]
}

pub(crate) fn with_byte(word: u64, at: u64, value: u8) -> u64
    ensures { result ≡ with_byte word at value }
{
    let mut bytes = word.to_le_bytes();
    bytes[(at % 8) as usize] = value;
    u64::from_le_bytes(bytes)
}

// No label, until there are so many. No page's label changes, where one that isn't there has none.
fn lengthen(labels: &mut Vec<Option<Label>>, count: usize) -> Result<(), OutOfMemory>
    requires { length labels.old.items ≤ count }
    ensures length { OnOk result (length labels.new.items ≡ count) }
    ensures err { OnErr result (labels.new.items ≡ labels.old.items) }
    ensures same { (page : ℕ) → slice_index_or labels.new.items page None ≡ slice_index_or labels.old.items page None }
{
    labels.resize(count, None)?;
    Ok(())
}

/// Pages of 512 words, in an arena, and their labels.
#[derive(Drop)]
pub(crate) struct Pages {
    arena: Arena,
    // by page number, with the memory for all of them taken before the first page
    labels: Vec<Option<Label>>,
    ghost labelled: { AreLabelled arena labels.items },
    ghost few: { length labels.items ≤ 131072 },
}

impl Pages {
    ghost use Rattle.gv_engine.specs.Held.{held};

    pub(crate) fn new(alloc: Global) -> Pages
        ensures { held result ≡ nothing_held }
    {
        Pages {
            arena: Arena::new(alloc),
            labels: Vec::new(alloc),
        }
    }

    pub(crate) fn label(&self, page: u64) -> Option<Label>
        ensures { result ≡ (held self.now).label page }
    {
        self.labels.get(page as usize).copied().flatten()
    }

    /// Adds a zero page, and answers its number.
    pub(crate) fn add(&mut self, label: Label) -> Result<u64, OutOfMemory>
        requires { (held self.old).live < 131072 }
        ensures fresh { IfOk result (λ page. (held self.old).label page ≡ None) }
        ensures empty { IfOk result (λ page. (held self.old).words page ≡ []) }
        ensures below { IfOk result (λ page. page < 131072) }
        ensures label { IfOk result (λ page. (held self.new).label ≡ put (held self.old).label page (Some label)) }
        ensures words { IfOk result (λ page. (held self.new).words ≡ put (held self.old).words page zero_words) }
        ensures live { OnOk result ((held self.new).live ≡ (held self.old).live + 1) }
        ensures there { IfOk result (λ page. IsSome ((held self.new).label page)) }
        ensures err { OnErr result (held self.new ≡ held self.old) }
    {
        lengthen(&mut self.labels, PAGE_LIMIT)?;
        let page = self.arena.add()?;
        self.labels[page as usize] = Some(label);
        Ok(page)
    }

    /// Takes a page out. Its number may be given again.
    pub(crate) fn release(&mut self, page: u64)
        requires { IsSome ((held self.old).label page) }
        ensures label { (held self.new).label ≡ put (held self.old).label page None }
        ensures words { (held self.new).words ≡ put (held self.old).words page [] }
        ensures live { (held self.new).live ≡ (held self.old).live - 1 }
    {
        self.labels[page as usize] = None;
        self.arena.release(page);
    }

    pub(crate) fn word(&self, page: u64, index: usize) -> u64
        requires live { IsSome ((held self.now).label page) }
        requires within { index < 512 }
        ensures { result ≡ slice_index ((held self.now).words page) index }
    {
        self.arena.word(page, index)
    }

    pub(crate) fn set_word(&mut self, page: u64, index: usize, value: u64)
        requires live { IsSome ((held self.old).label page) }
        requires within { index < 512 }
        ensures { held self.new ≡ with_words (held self.old) page (slice_set ((held self.old).words page) index value) }
    {
        self.arena.set_word(page, index, value);
    }

    /// The 512 words of a page, which are not copied.
    pub(crate) fn words(&self, page: u64) -> &[u64]
        requires { IsSome ((held self.now).label page) }
        ensures words { result.now ≡ (held self.now).words page }
        ensures length { length result.now ≡ 512 }
    {
        self.arena.words(page)
    }

    /// Stores bytes of a row in a page, one after another.
    pub(crate) fn store_bytes(
        &mut self,
        page: u64,
        at: usize,
        row: &[u8; MAX_ROW_BYTES],
        from: usize,
        count: usize,
    )
        requires live { IsSome ((held self.old).label page) }
        requires within { at + count ≤ 4096 }
        requires room { from + count ≤ 16384 }
        ensures { held self.new ≡ with_words (held self.old) page (bytes_put ((held self.old).words page) at (λ k. slice_index row.now (from + k)) count) }
    {
        for n in 0..count {
            let index = (at + n) / 8;
            let word = with_byte(self.word(page, index), (at + n) as u64, row[from + n]);
            self.set_word(page, index, word);
        }
    }

    /// Copies bytes of a page to a page, as if they were read whole before they are stored.
    pub(crate) fn copy_row(
        &mut self,
        from: u64,
        from_byte: usize,
        to: u64,
        to_byte: usize,
        count: usize,
    )
        requires from { IsSome ((held self.old).label from) }
        requires from_within { from_byte + count ≤ 4096 }
        requires to { IsSome ((held self.old).label to) }
        requires to_within { to_byte + count ≤ 4096 }
        ensures { held self.new ≡ with_words (held self.old) to (bytes_put ((held self.old).words to) to_byte (λ k. byte_in ((held self.old).words from) (from_byte + k)) count) }
    {
        self.arena.copy_row(from, from_byte, to, to_byte, count);
    }
}
