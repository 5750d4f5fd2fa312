/// What a reader has next.
#[derive(Clone, Copy, Debug, PartialEq, Eq)]
pub enum Next {
    /// A line, whose line feed was taken.
    Line,
    /// What stands behind the last line feed, at the source's end.
    LastLine,
    /// A line of more than 256 bytes, which is refused at its 257th byte.
    LongLine,
    /// Nothing: the source has ended.
    End,
    /// Nothing within the limit, and more bytes behind it.
    PastLimit,
}
