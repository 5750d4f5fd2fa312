ghost use Rattle.std.specs.Prelude.{◌≡◌};

/// A context descriptor, as an element of a submission names it: whether it is valid (bit 0), the
/// addressing mode (bits 4..3), the global page of the context (bits 31..12) and its number
/// (bits 63..32). The other bits mean nothing.
#[derive(Clone, Copy, Debug, PartialEq, Eq)]
pub struct Descriptor {
    pub valid: bool,
    pub mode: u8,
    pub page: u32,
    pub number: u32,
}

impl Descriptor {
    ghost use Rattle.gv_ctx.specs.Descriptor.{descriptor_of};

    /// The fields of a descriptor's quadword.
    pub fn of(word: u64) -> Self
        ensures { result ≡ descriptor_of word }
    {
        Descriptor {
            valid: word & 1 == 1,
            mode: ((word >> 3) & 3) as u8,
            page: ((word >> 12) & 0xf_ffff) as u32,
            number: (word >> 32) as u32,
        }
    }
}
