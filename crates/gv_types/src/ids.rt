/// A guest by its number, from 0 in the order of the script; below 8.
#[derive(Clone, Copy, Debug, PartialEq, Eq)]
pub struct GuestId(pub u8);

/// An engine by its number, below 4.
#[derive(Clone, Copy, Debug, PartialEq, Eq)]
pub struct EngineId(pub u8);

impl EngineId {
    /// The render engine.
    pub const RCS: EngineId = EngineId(0);

    /// The blitter.
    pub const BCS: EngineId = EngineId(1);

    /// The video engine.
    pub const VCS: EngineId = EngineId(2);

    /// The video enhancement engine.
    pub const VECS: EngineId = EngineId(3);

    /// Each engine, by number.
    pub const ALL: [EngineId; 4] = [EngineId::RCS, EngineId::BCS, EngineId::VCS, EngineId::VECS];
}

/// Whose a host page is: a frame of the guest's memory, or a shadow page that the mediator keeps
/// for the guest.
#[derive(Clone, Copy, Debug, PartialEq, Eq)]
pub struct Label {
    pub guest: GuestId,
    pub shadow: bool,
}
