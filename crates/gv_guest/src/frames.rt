ghost use Rattle.std.specs.Prelude.{◌≡◌, ◌≢◌, ℕ, ◌+◌, ◌*◌, ◌/◌, ◌%◌, ◌^◌, ◌<◌, ◌≤◌, length, slice_index, IsSome, IfOk, OnOk, OnErr};
ghost use Rattle.gv_gpu.specs.Change.{ChangesOnly};
ghost use Rattle.gv_gpu.specs.Part.{outside, frames_part};
ghost use Rattle.gv_types.specs.Memory.{memory_read, memory_write, word_of, with_word, zero_memory, bytes_of, all_ones};
ghost use Rattle.gv_guest.specs.Move.{MovesFrame, CopiesPage};
ghost use Rattle.gv_guest.specs.Placed.{Hosts, memory_in, nowhere};

use gv_gpu::Gpu;
use gv_types::{GuestId, Label, OutOfMemory, PAGE_BYTES, PAGE_WORDS, Width, half, with_half};
use std::alloc::Global;
use std::marker::Model;

/// A guest's frames, each in a host page of its own. A clause sees whose they are, and the host page of
/// each.
#[derive(Drop)]
pub struct Frames {
    guest: GuestId,
    pages: Vec<u64>,
}

impl Model for Frames {
    ghost use Rattle.std.specs.Prelude.{length, ◌≤◌};
    ghost use Rattle.gv_guest.specs.Placed.{Placed};

    ghost Value = { Placed };

    ghost view = { λ m. record { guest = m.guest.0; pages = m.pages.items } };

    ghost invariant = { λ m. length m.pages.items ≤ 16384 };
}

impl Frames {
    /// Zero frames for a guest that has none in the device: 1 to 16,384.
    pub(crate) fn new<G: Gpu>(
        alloc: Global,
        gpu: &mut G,
        guest: GuestId,
        frames: u32,
    ) -> Result<Frames, OutOfMemory>
        requires few { frames ≤ 16384 }
        requires room { (G.state gpu.old).live + frames ≤ 131072 }
        requires none { Hosts (G.state gpu.old) (nowhere guest.0) }
        ensures guest { IfOk result (λ m. m.guest ≡ guest.0) }
        ensures stands { IfOk result (λ m. Hosts (G.state gpu.new) m) }
        ensures memory { IfOk result (λ m. memory_in (G.state gpu.new) m ≡ zero_memory frames) }
        ensures frames { IfOk result (λ m. length m.pages ≡ frames) }
        ensures live { OnOk result ((G.state gpu.new).live ≡ (G.state gpu.old).live + frames) }
        ensures outside { outside (frames_part guest.0) (G.state gpu.new) ≡ outside (frames_part guest.0) (G.state gpu.old) }
    {
        let mut pages = Vec::with_capacity(alloc, frames as usize)?;
        for _frame in 0..frames {
            let page = gpu.add_page(Label {
                guest,
                shadow: false,
            })?;
            pages.push(page).unwrap();
        }
        Ok(Frames { guest, pages })
    }

    /// The number of frames.
    pub fn count(&self) -> u32
        ensures { result ≡ length self.now.pages }
    {
        self.pages.len() as u32
    }

    /// The host page of a frame.
    pub fn page(&self, frame: u32) -> u64
        requires { frame < length self.now.pages }
        ensures { result ≡ slice_index self.now.pages frame }
    {
        self.pages[frame as usize]
    }

    // The host page of the word with a number, counted over all frames.
    fn page_of(&self, number: u64) -> u64
        requires { number < length self.now.pages * 512 }
        ensures { result ≡ slice_index self.now.pages (number / 512) }
    {
        self.pages[(number / PAGE_WORDS as u64) as usize]
    }

    // The word with a number, counted over all frames.
    fn word<G: Gpu>(&self, gpu: &G, number: u64) -> u64
        requires stands { Hosts (G.state gpu.now) self.now }
        requires within { number < length self.now.pages * 512 }
        ensures { result ≡ word_of (memory_in (G.state gpu.now) self.now) number }
    {
        let page = self.page_of(number);
        gpu.word(page, (number % PAGE_WORDS as u64) as usize)
    }

    fn set_word<G: Gpu>(&self, gpu: &mut G, number: u64, value: u64)
        requires stands { Hosts (G.state gpu.old) self.now }
        requires within { number < length self.now.pages * 512 }
        ensures memory { memory_in (G.state gpu.new) self.now ≡ with_word (memory_in (G.state gpu.old) self.now) number value }
        ensures stands { Hosts (G.state gpu.new) self.now }
        ensures changes { ChangesOnly (frames_part self.now.guest) 1 (G.state gpu.old) (G.state gpu.new) }
    {
        let page = self.page_of(number);
        gpu.poke(page, (number % PAGE_WORDS as u64) as usize, value)
    }

    /// What an aligned read gives: all ones outside memory.
    pub fn read<G: Gpu>(&self, gpu: &G, at: u64, width: Width) -> u64
        requires stands { Hosts (G.state gpu.now) self.now }
        requires aligned { at % bytes_of width ≡ 0 }
        ensures { result ≡ memory_read (memory_in (G.state gpu.now) self.now) width at }
    {
        if at >= u64::from(self.count()) * PAGE_BYTES {
            return width.all_ones();
        }
        let word = self.word(gpu, at / 8);
        match width {
            Width::Four => u64::from(half(word, at)),
            Width::Eight => word,
        }
    }

    /// An aligned write, which does nothing outside memory. It pokes one word at the most.
    pub fn write<G: Gpu>(&self, gpu: &mut G, at: u64, width: Width, value: u64)
        requires stands { Hosts (G.state gpu.old) self.now }
        requires aligned { at % bytes_of width ≡ 0 }
        requires fits { value ≤ all_ones width }
        ensures memory { memory_in (G.state gpu.new) self.now ≡ memory_write (memory_in (G.state gpu.old) self.now) width at value }
        ensures stands { Hosts (G.state gpu.new) self.now }
        ensures changes { ChangesOnly (frames_part self.now.guest) 1 (G.state gpu.old) (G.state gpu.new) }
    {
        if at >= u64::from(self.count()) * PAGE_BYTES {
            return;
        }
        let number = at / 8;
        let word = match width {
            Width::Four => with_half(self.word(gpu, number), at, value as u32),
            Width::Eight => value,
        };
        self.set_word(gpu, number, word)
    }
    /// Puts a frame into another host page, with the same words, and releases its old one.
    pub(crate) fn move_page<G: Gpu>(&mut self, gpu: &mut G, frame: u32) -> Result<(), OutOfMemory>
        requires stands { Hosts (G.state gpu.old) self.old }
        requires within { frame < length self.old.pages }
        requires room { (G.state gpu.old).live < 131072 }
        ensures moved { OnOk result (MovesFrame self.old self.new frame (G.state gpu.new)) }
        ensures memory { OnOk result (memory_in (G.state gpu.new) self.new ≡ memory_in (G.state gpu.old) self.old) }
        ensures stands { OnOk result (Hosts (G.state gpu.new) self.new) }
        ensures changes { OnOk result (ChangesOnly (frames_part self.old.guest) 512 (G.state gpu.old) (G.state gpu.new)) }
        ensures frames { OnErr result (self.new ≡ self.old) }
        ensures device { OnErr result (G.state gpu.new ≡ G.state gpu.old) }
    {
        let page = gpu.add_page(Label {
            guest: self.guest,
            shadow: false,
        })?;
        let place = frame as usize;
        let old = self.pages[place];
        copy_words(gpu, old, page);
        gpu.release(old);
        self.pages[place] = page;
        Ok(())
    }
}

fn copy_words<G: Gpu>(gpu: &mut G, from: u64, to: u64)
    requires from { IsSome ((G.state gpu.old).label from) }
    requires from_long { length ((G.state gpu.old).words from) ≡ 512 }
    requires to { IsSome ((G.state gpu.old).label to) }
    requires to_long { length ((G.state gpu.old).words to) ≡ 512 }
    requires apart { from ≢ to }
    ensures { CopiesPage (G.state gpu.old) (G.state gpu.new) from to }
{
    for index in 0..PAGE_WORDS {
        let word = gpu.word(from, index);
        gpu.poke(to, index, word);
    }
}
