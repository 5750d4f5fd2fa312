use gv_types::Want;

/// What a guest is to have: frames of memory, and pages of the global table.
#[derive(Clone, Copy, Debug, PartialEq, Eq)]
pub struct Guest {
    pub frames: u32,
    pub want: Want,
}
