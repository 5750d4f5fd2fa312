ghost use Rattle.std.specs.Prelude.{◌≡◌, ◌<◌, ◌↔◌, IsTrue};

/// A word of a shadow table that maps a frame: the host page of the table, the word's index in it,
/// and whether the mapping can be written through.
#[derive(Clone, Copy, Debug, PartialEq, Eq)]
pub struct Leaf {
    pub page: u64,
    pub index: u16,
    pub writable: bool,
}

impl Leaf {
    ghost use Rattle.gv_rmap.specs.Leaves.{key, is_behind};

    /// Whether the leaf stands before the other one: on an earlier page, or before it on its page.
    pub(crate) fn is_before(self, other: Leaf) -> bool
        ensures { IsTrue result ↔ (key self < key other) }
    {
        self.page < other.page || (self.page == other.page && self.index < other.index)
    }

    /// Whether the leaf stands behind the one that was last, if there was one.
    pub(crate) fn is_behind(self, last: Option<Leaf>) -> bool
        ensures { result ≡ is_behind last self }
    {
        match last {
            Some(last) => last.is_before(self),
            None => true,
        }
    }
}
