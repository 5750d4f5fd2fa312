/// How many pages of the global table a guest asks for, in its low and in its high part.
#[derive(Clone, Copy, Debug, PartialEq, Eq)]
pub struct Want {
    pub low: u32,
    pub high: u32,
}

/// Consecutive pages of the global table.
#[derive(Clone, Copy, Debug, PartialEq, Eq)]
pub struct Span {
    pub first: u32,
    pub pages: u32,
}

/// A guest's share of the global table, as ballooning gives it out.
#[derive(Clone, Copy, Debug, PartialEq, Eq)]
pub struct Ranges {
    pub low: Span,
    pub high: Span,
}
