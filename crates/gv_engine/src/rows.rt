//! The rows of blits. A row is read whole before it is written, and goes page by page: the tables are
//! walked once for the bytes that lie in one page.
ghost use Rattle.std.specs.Prelude.{◌≡◌, ◌+◌, ◌%◌, ◌<◌, ◌≤◌, ◌^◌, ◌⊎◌, ℕ, false, length, slice_index, IsTrue, IsSome, IfSome, IfNone};
ghost use Rattle.gv_cmd.specs.Effect.{colour_byte};
ghost use Rattle.gv_gpu.specs.Physical.{byte_at, read_strays};
ghost use Rattle.gv_gpu.specs.Step.{bytes_stored, bytes_stray, row_moved};
ghost use Rattle.gv_engine.specs.Pages.{byte_in};
ghost use Rattle.gv_engine.specs.Rows.{put_in};
ghost use Rattle.gv_engine.specs.Running.{stepping};
ghost use Rattle.gv_engine.specs.Soft.{loaded_of};
ghost use Rattle.gv_engine.specs.Walk.{names};
ghost use Rattle.gv_engine.specs.Whole.{whole};

use crate::SoftGpu;
use crate::context::Context;
use crate::limits::MAX_ROW_BYTES;
use crate::pages::byte_of;
use crate::strays::either;
use crate::walk::{Walk, is_table};
use gv_types::PAGE_BYTES;

/// A byte of a row of a colour.
fn colour_byte(colour: u32, depth: u8, k: usize) -> u8
    ensures { result ≡ colour_byte colour depth k }
{
    let bytes = colour.to_le_bytes();
    let n = k % usize::from(depth.max(1));
    if n < 4 { bytes[n] } else { 0 }
}

/// How many bytes from an address on lie in its page, of so many.
fn span(at: u64, count: usize) -> usize
    requires { 0 < count }
    ensures many { (0 < result) × (result ≤ count) }
    ensures page { at % 4096 + result ≤ 4096 }
{
    (PAGE_BYTES as usize - (at % PAGE_BYTES) as usize).min(count)
}

/// Whether there are bytes, and they lie in one page.
fn is_in_one_page(at: u64, count: usize) -> bool
    ensures { IsTrue result → (0 < count) × (at % 4096 + count ≤ 4096) }
{
    let page = PAGE_BYTES as usize;
    0 < count && count <= page && (at % PAGE_BYTES) as usize + count <= page
}

/// How many bytes can be stored through one walk, of so many: those that lie in its page, and where
/// that is a table of the walk one, since the next may go through what was stored.
fn storable(walk: &Walk, page: Option<u64>, at: u64, count: usize) -> usize
    requires { 0 < count }
    ensures many { (0 < result) × (result ≤ count) }
    ensures page { at % 4096 + result ≤ 4096 }
    ensures apart { (result ≡ 1) ⊎ (names walk.now page ≡ false) }
{
    match page {
        Some(page) if is_table(walk, page) => 1,
        _ => span(at, count),
    }
}

/// Reads bytes of a page's words into a row.
fn read_bytes(words: &[u64], at: usize, row: &mut [u8; MAX_ROW_BYTES], from: usize, count: usize)
    requires words { length words.now ≡ 512 }
    requires within { at + count ≤ 4096 }
    requires room { from + count ≤ 16384 }
    ensures bytes { (k : ℕ) → k < count → slice_index row.new (from + k) ≡ byte_in words.now (at + k) }
    ensures before { (k : ℕ) → k < from → slice_index row.new k ≡ slice_index row.old k }
{
    for n in 0..count {
        row[from + n] = byte_of(words[(at + n) / 8], (at + n) as u64);
    }
}

fn clear_bytes(row: &mut [u8; MAX_ROW_BYTES], from: usize, count: usize)
    requires room { from + count ≤ 16384 }
    ensures bytes { (k : ℕ) → k < count → slice_index row.new (from + k) ≡ 0 }
    ensures before { (k : ℕ) → k < from → slice_index row.new k ≡ slice_index row.old k }
{
    for n in 0..count {
        row[from + n] = 0;
    }
}

fn colour_bytes(row: &mut [u8; MAX_ROW_BYTES], count: usize, colour: u32, depth: u8)
    requires { count ≤ 16384 }
    ensures { (k : ℕ) → k < count → slice_index row.new k ≡ colour_byte colour depth k }
{
    for n in 0..count {
        row[n] = colour_byte(colour, depth, n);
    }
}

impl SoftGpu {
    /// Reads bytes that lie in one page into the row, and answers whether that strayed.
    fn read_span(&mut self, context: &Context, at: u64, from: usize, count: usize) -> bool
        requires some { 0 < count }
        requires page { at % 4096 + count ≤ 4096 }
        requires room { from + count ≤ 16384 }
        ensures same { whole self.new ≡ whole self.old }
        ensures bytes { (k : ℕ) → k < count → slice_index self.new.row (from + k) ≡ byte_at (whole self.old) context.now.root false (at + k) }
        ensures before { (k : ℕ) → k < from → slice_index self.new.row k ≡ slice_index self.old.row k }
        ensures strayed { result ≡ read_strays (whole self.old) (loaded_of context.now) false at }
    {
        let reached = self.reading(context, false, at);
        match reached.page {
            None => clear_bytes(&mut self.row, from, count),
            Some(page) => {
                let start = (at % PAGE_BYTES) as usize;
                read_bytes(self.pages.words(page), start, &mut self.row, from, count);
            }
        }
        reached.strayed
    }

    /// Reads so many bytes into the row, and answers whether one was read astray.
    fn read_row(&mut self, context: &Context, from: u64, count: usize) -> bool
        requires few { count ≤ 16384 }
        requires small { from < 2 ^ 48 }
        ensures same { whole self.new ≡ whole self.old }
        ensures bytes { (k : ℕ) → k < count → slice_index self.new.row k ≡ byte_at (whole self.old) context.now.root false (from + k) }
        ensures strayed { result ≡ bytes_stray (whole self.old) (loaded_of context.now) from count }
    {
        let mut strayed = false;
        let mut done = 0;
        while done < count {
            let at = from + done as u64;
            let more = span(at, count - done);
            let stray = self.read_span(context, at, done, more);
            strayed = either(strayed, stray);
            done += more;
        }
        strayed
    }

    /// Puts bytes of the row that lie in one page into the page, if there is one.
    fn put_in(&mut self, page: Option<u64>, at: u64, from: usize, count: usize)
        requires live { IfSome page (λ n. IsSome ((whole self.old).label n)) }
        requires page { at % 4096 + count ≤ 4096 }
        requires room { from + count ≤ 16384 }
        ensures left { whole self.new ≡ put_in (whole self.old) page at (λ k. slice_index self.old.row (from + k)) count }
        ensures row { self.new.row ≡ self.old.row }
    {
        if let Some(page) = page {
            let start = (at % PAGE_BYTES) as usize;
            self.pages.store_bytes(page, start, &self.row, from, count);
        }
    }

    /// Writes bytes of the row that lie in one page, so many at the most. Answers how many, and
    /// whether any access strayed so far.
    fn write_span(
        &mut self,
        context: &Context,
        at: u64,
        from: usize,
        count: usize,
        strayed: bool,
    ) -> (usize, bool)
        requires some { 0 < count }
        requires room { from + count ≤ 16384 }
        ensures many { (0 < result.0) × (result.0 ≤ count) }
        ensures row { self.new.row ≡ self.old.row }
        ensures left { (engine : ℕ) → stepping (whole self.new) engine context.now result.1 ≡ bytes_stored (stepping (whole self.old) engine context.now strayed) at (λ k. slice_index self.old.row (from + k)) result.0 }
    {
        let walk = self.walk(context.root, false, at);
        let reached = self.writing_by(context, &walk);
        let count = storable(&walk, reached.page, at, count);
        self.put_in(reached.page, at, from, count);
        (count, either(strayed, reached.strayed))
    }

    /// Writes so many bytes of the row, and answers whether any access strayed so far.
    fn write_row(&mut self, context: &Context, to: u64, count: usize, strayed: bool) -> bool
        requires few { count ≤ 16384 }
        requires small { to < 2 ^ 48 }
        ensures { (engine : ℕ) → stepping (whole self.new) engine context.now result ≡ bytes_stored (stepping (whole self.old) engine context.now strayed) to (λ k. slice_index self.old.row k) count }
    {
        let mut strayed = strayed;
        let mut done = 0;
        while done < count {
            let at = to + done as u64;
            let (more, stray) = self.write_span(context, at, done, count - done, strayed);
            strayed = stray;
            done += more;
        }
        strayed
    }

    /// Copies a row whose bytes lie in one page on either side, where both pages are there and the
    /// second is no table of its own walk. Answers whether any access strayed so far.
    fn copy_at_once(
        &mut self,
        context: &Context,
        to: u64,
        from: u64,
        count: usize,
        strayed: bool,
    ) -> Option<bool>
        ensures done { IfSome result (λ after. (engine : ℕ) → stepping (whole self.new) engine context.now after ≡ row_moved (stepping (whole self.old) engine context.now strayed) to from count) }
        ensures none { IfNone result (whole self.new ≡ whole self.old) }
    {
        if !is_in_one_page(from, count) {
            return None;
        }
        if !is_in_one_page(to, count) {
            return None;
        }
        let source = self.reading(context, false, from);
        let walk = self.walk(context.root, false, to);
        let target = self.writing_by(context, &walk);
        let from_page = source.page?;
        let to_page = target.page?;
        if is_table(&walk, to_page) {
            return None;
        }
        let from_byte = (from % PAGE_BYTES) as usize;
        let to_byte = (to % PAGE_BYTES) as usize;
        self.pages
            .copy_row(from_page, from_byte, to_page, to_byte, count);
        let read = either(strayed, source.strayed);
        Some(either(read, target.strayed))
    }

    /// Copies a row, and answers whether any access strayed so far.
    pub(crate) fn copy_row(
        &mut self,
        context: &Context,
        to: u64,
        from: u64,
        count: usize,
        strayed: bool,
    ) -> bool
        requires few { count ≤ 16384 }
        requires to { to < 2 ^ 48 }
        requires from { from < 2 ^ 48 }
        ensures { (engine : ℕ) → stepping (whole self.new) engine context.now result ≡ row_moved (stepping (whole self.old) engine context.now strayed) to from count }
    {
        if let Some(strayed) = self.copy_at_once(context, to, from, count, strayed) {
            return strayed;
        }
        let stray = self.read_row(context, from, count);
        self.write_row(context, to, count, either(strayed, stray))
    }

    /// Writes a row of a colour, and answers whether any access strayed so far.
    pub(crate) fn fill_row(
        &mut self,
        context: &Context,
        to: u64,
        count: usize,
        colour: u32,
        depth: u8,
        strayed: bool,
    ) -> bool
        requires few { count ≤ 16384 }
        requires small { to < 2 ^ 48 }
        ensures { (engine : ℕ) → stepping (whole self.new) engine context.now result ≡ bytes_stored (stepping (whole self.old) engine context.now strayed) to (colour_byte colour depth) count }
    {
        colour_bytes(&mut self.row, count, colour, depth);
        self.write_row(context, to, count, strayed)
    }
}
