ghost use Rattle.std.specs.Prelude.{◌≡◌, ◌+◌, ◌<◌, ◌≤◌, Some, None, length, slice_index, slice_set, IfOk, IsOk, OnOk, OnErr, IsSome, IsTrue};
ghost use Rattle.gv_types.specs.Memory.{zero_words};
ghost use Rattle.gv_arena.specs.Contents.{nothing, words_at, words_of, is_live, live, with_page};
ghost use Rattle.gv_arena.specs.Rows.{row_copied, IsPage, IsRowCopied};

use crate::numbers::Numbers;
use crate::store::Store;
use gv_types::{MAX_LIVE_PAGES, OutOfMemory};
use std::alloc::Global;
use std::marker::Model;

/// How many pages an arena can have.
const PAGE_LIMIT: usize = MAX_LIVE_PAGES as usize;

/// How many pages are made ready where one is added and none is to spare.
const GROWTH: usize = 64;

/// Pages of 512 words of 64 bits, by number. A page's memory never moves, and the pages need no
/// memory to be read, written, released, or given again.
///
/// An arena is seen as its `Contents`: `pages` says of each number below 131,072 which words its
/// page has, or None where no page is live under it, and `spare` how many pages can be added
/// without memory.
#[derive(Drop)]
pub struct Arena {
    store: Store,
    numbers: Numbers,
}

impl Model for Arena {
    ghost use Rattle.gv_arena.specs.Contents.{Contents};

    ghost Value = { Contents };

    ghost use Rattle.gv_arena.specs.ArenaHolds.{contents, Holds};

    ghost view = { contents };

    ghost invariant = { Holds };
}

impl Arena {
    /// An arena without pages. It takes no memory.
    pub fn new(alloc: Global) -> Arena
        ensures { result ≡ nothing }
    {
        Arena {
            store: Store::new(alloc),
            numbers: Numbers::new(alloc),
        }
    }

    /// Adds a page of zeros and answers its number. It takes no memory where a page is to spare.
    pub fn add(&mut self) -> Result<u64, OutOfMemory>
        requires { live self.old < 131072 }
        ensures number { IfOk result (λ page. (page < 131072) × (words_at self.old page ≡ None)) }
        ensures pages { IfOk result (λ page. self.new.pages ≡ slice_set self.old.pages page (Some zero_words)) }
        ensures words { IfOk result (λ page. words_at self.new page ≡ Some zero_words) }
        ensures spare { OnOk result (self.old.spare ≤ self.new.spare + 1) }
        ensures succeeds { 1 ≤ self.old.spare → IsOk result }
        ensures err { OnErr result (self.new ≡ self.old) }
    {
        let live = self.numbers.live();
        if live == self.numbers.total() {
            self.grow(PAGE_LIMIT.min(live + GROWTH))?;
        }
        Ok(self.give())
    }

    /// Takes the memory for as many pages, so that they can be added without memory.
    pub fn reserve(&mut self, pages: u64) -> Result<(), OutOfMemory>
        requires { live self.old + pages ≤ 131072 }
        ensures pages { self.new.pages ≡ self.old.pages }
        ensures spare { OnOk result (pages ≤ self.new.spare) }
        ensures more { self.old.spare ≤ self.new.spare }
        ensures succeeds { pages ≤ self.old.spare → IsOk result × (self.new ≡ self.old) }
        ensures err { OnErr result (self.new ≡ self.old) }
    {
        let total = self.numbers.live() + pages as usize;
        if total <= self.numbers.total() {
            return Ok(());
        }
        self.grow(total)
    }

    /// A word of a page.
    pub fn word(&self, page: u64, index: usize) -> u64
        requires live { IsSome (words_at self.now page) }
        requires within { index < 512 }
        ensures { result ≡ slice_index (words_of self.now page) index }
    {
        self.store.word(page as usize, index)
    }

    /// Sets a word of a page.
    pub fn set_word(&mut self, page: u64, index: usize, value: u64)
        requires live { IsSome (words_at self.old page) }
        requires within { index < 512 }
        ensures { self.new ≡ with_page self.old page (Some (slice_set (words_of self.old page) index value)) }
    {
        self.store.set_word(page as usize, index, value);
    }

    /// Copies a row of `count` bytes, which is as if read whole before it is written, also where
    /// the two spans overlap. Bytes are counted from the beginning of their page.
    pub fn copy_row(&mut self, from: u64, from_byte: usize, to: u64, to_byte: usize, count: usize)
        requires from { IsSome (words_at self.old from) }
        requires from_within { from_byte + count ≤ 4096 }
        requires to { IsSome (words_at self.old to) }
        requires to_within { to_byte + count ≤ 4096 }
        ensures pages { self.new ≡ with_page self.old to (Some (row_copied (words_of self.old from) from_byte (words_of self.old to) to_byte count)) }
        ensures bytes { IsRowCopied (words_of self.old from) (words_of self.old to) (words_of self.new to) from_byte to_byte count }
        ensures source { IsPage (words_of self.old from) }
        ensures target { IsPage (words_of self.old to) }
    {
        self.store
            .copy_row(from as usize, from_byte, to as usize, to_byte, count);
    }

    /// The 512 words of a page, which are not copied.
    pub fn words(&self, page: u64) -> &[u64]
        requires { IsSome (words_at self.now page) }
        ensures words { words_at self.now page ≡ Some result.now }
        ensures length { length result.now ≡ 512 }
    {
        self.store.page(page as usize)
    }

    /// Takes the page away. Its number can be given again.
    pub fn release(&mut self, page: u64)
        requires { IsSome (words_at self.old page) }
        ensures { self.new ≡ record { pages = slice_set self.old.pages page None; spare = self.old.spare + 1 } }
    {
        self.numbers.take_back(page as usize);
    }

    /// How many pages are live.
    pub fn live(&self) -> u64
        ensures live { result ≡ live self.now }
        ensures within { result + self.now.spare ≤ 131072 }
    {
        self.numbers.live() as u64
    }

    /// Whether the page is live.
    pub fn is_live(&self, page: u64) -> bool
        ensures live { result ≡ is_live self.now page }
        ensures within { IsTrue result → page < 131072 }
    {
        self.numbers.is_live(page as usize)
    }

    /// Makes numbers and their places ready, up to a total.
    fn grow(&mut self, total: usize) -> Result<(), OutOfMemory>
        requires { (live self.old + self.old.spare ≤ total) × (total ≤ 131072) }
        ensures pages { self.new.pages ≡ self.old.pages }
        ensures spare { OnOk result (live self.new + self.new.spare ≡ total) }
        ensures more { self.old.spare ≤ self.new.spare }
        ensures err { OnErr result (self.new ≡ self.old) }
    {
        self.store.grow(total)?;
        self.numbers.add(total - self.numbers.total())
    }

    /// Makes a page live.
    fn give(&mut self) -> u64
        requires { 1 ≤ self.old.spare }
        ensures number { (result < 131072) × (words_at self.old result ≡ None) }
        ensures pages { self.new.pages ≡ slice_set self.old.pages result (Some zero_words) }
        ensures words { words_at self.new result ≡ Some zero_words }
        ensures spare { self.new.spare + 1 ≡ self.old.spare }
    {
        let page = self.numbers.give();
        self.store.clear(page);
        page as u64
    }
}
