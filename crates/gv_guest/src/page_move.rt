/// Whether a frame went into another host page, or was kept, as one that is pinned.
#[derive(Clone, Copy, Debug, PartialEq, Eq)]
pub enum PageMove {
    Moved,
    Kept,
}
