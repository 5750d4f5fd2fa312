ghost use Rattle.std.specs.Prelude.{◌≡◌, ◌<◌, ◌/◌, ◌%◌, ◌^◌, ℕ, true};
ghost use Rattle.gv_fetch.specs.Fetch.{GlobalSpace};

/// Reads a guest's global space.
pub trait Reader {
    /// Which pages are owned, and the dword at an address.
    ghost space: { Self → GlobalSpace };

    /// Whether the guest owns a page, by its number.
    fn owned(&self, page: u64) -> bool
        ensures { result ≡ (space self.now).owned page };

    /// The dword at a byte address.
    fn word(&self, at: u32) -> u32
        requires aligned { at % 4 ≡ 0 }
        requires owned { (space self.now).owned (at / 4096) ≡ true }
        ensures { result ≡ (space self.now).word at };

    /// The global table has 1,048,576 pages.
    ghost below: { (r : Self) (page : ℕ) → (space r).owned page ≡ true → page < 2 ^ 20 };
}
