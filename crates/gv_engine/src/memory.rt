//! Dwords and bytes as an engine reads and writes them.
ghost use Rattle.std.specs.Prelude.{◌≡◌, true, ◌+◌, ◌<◌, ◌^◌, IfSome, IsSome};
ghost use Rattle.gv_gpu.specs.Physical.{word_in, word_stored, byte_at, operand_at, operand_stored, dword_at, read_strays, write_strays, dword_strays};
ghost use Rattle.gv_types.specs.Memory.{with_half};
ghost use Rattle.gv_engine.specs.Soft.{loaded_of};
ghost use Rattle.gv_engine.specs.Whole.{whole};

use crate::SoftGpu;
use crate::context::Context;
use crate::pages::byte_of;
use crate::strays::either;
use gv_types::{PAGE_BYTES, half, with_half};

impl SoftGpu {
    fn word_in(&self, page: Option<u64>, at: u64) -> u64
        ensures { result ≡ word_in (whole self.now) page at }
    {
        match page {
            None => 0,
            Some(page) => self.word_or_zero(page, (at % PAGE_BYTES / 8) as usize),
        }
    }

    /// Writes half of a word of a page.
    fn store_half(&mut self, page: Option<u64>, at: u64, value: u32)
        requires { IfSome page (λ n. IsSome ((whole self.old).label n)) }
        ensures { whole self.new ≡ word_stored (whole self.old) page at (with_half (word_in (whole self.old) page at) at value) }
    {
        let word = with_half(self.word_in(page, at), at, value);
        if let Some(page) = page {
            self.set_word(page, (at % PAGE_BYTES / 8) as usize, word);
        }
    }

    /// A dword at a global address that is a multiple of 4.
    #[tactic(auto, unfolding(gv_gpu::specs::Physical::operand_at))]
    pub(crate) fn global_dword(&self, at: u64) -> u32
        ensures { result ≡ operand_at (whole self.now) 0 true at }
    {
        half(self.word_in(self.read_page(at), at), at)
    }

    #[tactic(auto, unfolding(gv_gpu::specs::Physical::operand_stored))]
    pub(crate) fn store_global_dword(&mut self, at: u64, value: u32)
        ensures { whole self.new ≡ operand_stored (whole self.old) 0 true at value }
    {
        let page = self.write_page(at);
        self.store_half(page, at, value);
    }

    /// Loads a dword at a multiple of 4 for a context, and answers also whether that strayed.
    #[tactic(auto, unfolding(gv_gpu::specs::Physical::operand_at))]
    pub(crate) fn load(&self, context: &Context, global: bool, at: u64) -> (u32, bool)
        ensures value { result.0 ≡ operand_at (whole self.now) context.now.root global at }
        ensures strayed { result.1 ≡ read_strays (whole self.now) (loaded_of context.now) global at }
    {
        let reached = self.reading(context, global, at);
        (half(self.word_in(reached.page, at), at), reached.strayed)
    }

    /// Stores a dword, and answers whether that strayed.
    #[tactic(auto, unfolding(gv_gpu::specs::Physical::operand_stored))]
    pub(crate) fn store(&mut self, context: &Context, global: bool, at: u64, value: u32) -> bool
        ensures left { whole self.new ≡ operand_stored (whole self.old) context.now.root global at value }
        ensures strayed { result ≡ write_strays (whole self.old) (loaded_of context.now) global at }
    {
        let reached = self.writing(context, global, at);
        self.store_half(reached.page, at, value);
        reached.strayed
    }

    #[tactic(auto, unfolding(gv_gpu::specs::Physical::byte_at))]
    fn byte(&self, context: &Context, global: bool, at: u64) -> (u8, bool)
        ensures value { result.0 ≡ byte_at (whole self.now) context.now.root global at }
        ensures strayed { result.1 ≡ read_strays (whole self.now) (loaded_of context.now) global at }
    {
        let reached = self.reading(context, global, at);
        (byte_of(self.word_in(reached.page, at), at), reached.strayed)
    }

    /// A dword at any address, and whether reading it strayed.
    #[tactic(auto, unfolding(gv_gpu::specs::Physical::dword_at, gv_gpu::specs::Physical::dword_strays))]
    pub(crate) fn dword(&self, context: &Context, global: bool, at: u64) -> (u32, bool)
        requires { at + 4 < 2 ^ 64 }
        ensures value { result.0 ≡ dword_at (whole self.now) context.now.root global at }
        ensures strayed { result.1 ≡ dword_strays (whole self.now) (loaded_of context.now) global at }
    {
        if at % 4 == 0 {
            return self.load(context, global, at);
        }
        let (first, one) = self.byte(context, global, at);
        let (second, two) = self.byte(context, global, at + 1);
        let (third, three) = self.byte(context, global, at + 2);
        let (fourth, four) = self.byte(context, global, at + 3);
        (
            u32::from_le_bytes([first, second, third, fourth]),
            either(either(either(one, two), three), four),
        )
    }
}
