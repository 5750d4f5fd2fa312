//! How an address finds its page: through the tables of a root, or through the global table.
ghost use Rattle.std.specs.Prelude.{◌≡◌, ℕ, true, false, ◌<◌, IfSome, IsSome};
ghost use Rattle.gv_gpu.specs.Physical.{live_page, page_of, entry_in, is_page, read_page, write_page};
ghost use Rattle.gv_engine.specs.Walk.{walk_of, writable_page, is_table};
ghost use Rattle.gv_engine.specs.Whole.{whole};

use crate::SoftGpu;
use gv_types::PAGE_WORDS;

/// What an address goes through: the tables of its walk, from the root's down, and the entry at
/// last. A global address has no tables.
#[derive(Drop)]
pub(crate) struct Walk {
    pub root: Option<u64>,
    pub third: Option<u64>,
    pub second: Option<u64>,
    pub first: Option<u64>,
    pub entry: u64,
}

pub(crate) fn is_page(page: Option<u64>, number: u64) -> bool
    ensures { result ≡ is_page page number }
{
    match page {
        None => false,
        Some(page) => page == number,
    }
}

/// Whether a page is one of the walk's tables.
pub(crate) fn is_table(walk: &Walk, page: u64) -> bool
    ensures { result ≡ is_table walk.now page }
{
    is_page(walk.root, page)
        || is_page(walk.third, page)
        || is_page(walk.second, page)
        || is_page(walk.first, page)
}

impl SoftGpu {
    /// A page by its number, where it is live.
    fn live_page(&self, page: u64) -> Option<u64>
        ensures value { result ≡ live_page (whole self.now) page }
        ensures live { IfSome result (λ n. IsSome ((whole self.now).label n)) }
    {
        if self.label(page).is_some() {
            Some(page)
        } else {
            None
        }
    }

    /// The live page that an entry names.
    pub(crate) fn page_of(&self, entry: u64) -> Option<u64>
        ensures value { result ≡ page_of (whole self.now) entry }
        ensures live { IfSome result (λ page. IsSome ((whole self.now).label page)) }
    {
        if entry & 1 == 1 {
            self.live_page(entry >> 12)
        } else {
            None
        }
    }

    /// The page that is written through an entry.
    pub(crate) fn writable_page(&self, entry: u64) -> Option<u64>
        ensures value { result ≡ writable_page (whole self.now) entry }
        ensures live { IfSome result (λ page. IsSome ((whole self.now).label page)) }
    {
        if (entry >> 1) & 1 == 1 {
            self.page_of(entry)
        } else {
            None
        }
    }

    /// An entry of a table.
    fn entry_in(&self, table: Option<u64>, index: u64) -> u64
        requires { index < 512 }
        ensures { result ≡ entry_in (whole self.now) table index }
    {
        match table {
            None => 0,
            Some(page) => self.word_or_zero(page, index as usize),
        }
    }

    /// The walk of a global address.
    fn global_walk(&self, at: u64) -> Walk
        ensures { (root : ℕ) → result ≡ walk_of (whole self.now) root true at }
    {
        let entry = if at < 0x1_0000_0000 {
            self.entry(at >> 12)
        } else {
            0
        };
        Walk {
            root: None,
            third: None,
            second: None,
            first: None,
            entry,
        }
    }

    /// The walk of an address through the tables of a root.
    #[tactic(auto, unfolding(gv_gpu::specs::Physical::third_table, gv_gpu::specs::Physical::second_table, gv_gpu::specs::Physical::first_table, gv_gpu::specs::Physical::leaf))]
    fn process_walk(&self, root: u64, at: u64) -> Walk
        ensures { result ≡ walk_of (whole self.now) root false at }
    {
        let fourth = self.live_page(root);
        let third = self.page_of(self.entry_in(fourth, (at >> 39) % PAGE_WORDS as u64));
        let second = self.page_of(self.entry_in(third, (at >> 30) % PAGE_WORDS as u64));
        let first = self.page_of(self.entry_in(second, (at >> 21) % PAGE_WORDS as u64));
        Walk {
            root: fourth,
            third,
            second,
            first,
            entry: self.entry_in(first, (at >> 12) % PAGE_WORDS as u64),
        }
    }

    pub(crate) fn walk(&self, root: u64, global: bool, at: u64) -> Walk
        ensures { result ≡ walk_of (whole self.now) root global at }
    {
        if global {
            self.global_walk(at)
        } else {
            self.process_walk(root, at)
        }
    }

    /// The page that a global address reads.
    #[tactic(auto, unfolding(gv_gpu::specs::Physical::read_page))]
    pub(crate) fn read_page(&self, at: u64) -> Option<u64>
        ensures { (root : ℕ) → result ≡ read_page (whole self.now) root true at }
    {
        self.page_of(self.global_walk(at).entry)
    }

    /// The page that a global address writes.
    #[tactic(auto, unfolding(gv_gpu::specs::Physical::write_page))]
    pub(crate) fn write_page(&self, at: u64) -> Option<u64>
        ensures value { (root : ℕ) → result ≡ write_page (whole self.now) root true at }
        ensures live { IfSome result (λ page. IsSome ((whole self.now).label page)) }
    {
        self.writable_page(self.global_walk(at).entry)
    }
}
