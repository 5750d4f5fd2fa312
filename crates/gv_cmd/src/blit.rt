/// The fields of a blit. `bytes` are those of a pixel: 1, 2 or 4. The rectangle has x from `x1` to
/// below `x2` and y from `y1` to below `y2`. Pitches are in bytes. A colour blit has 0 in the fields
/// of the source, and a copy blit in `colour`.
#[derive(Clone, Copy, Debug, PartialEq, Eq)]
pub struct Blit {
    pub bytes: u8,
    pub to: u64,
    pub to_pitch: u16,
    pub x1: u16,
    pub y1: u16,
    pub x2: u16,
    pub y2: u16,
    pub colour: u32,
    pub from: u64,
    pub from_pitch: u16,
    pub from_x: u16,
    pub from_y: u16,
}

/// One row of a blit: the byte addresses, below 2^48, at which it begins in the destination and in
/// the source, and how many bytes it has. Of a colour blit's row `from` is 0 and means nothing.
#[derive(Clone, Copy, Debug, PartialEq, Eq)]
pub struct RowPair {
    pub to: u64,
    pub from: u64,
    pub bytes: u32,
}
