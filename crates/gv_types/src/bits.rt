ghost use Rattle.std.specs.Prelude.{◌≡◌, ◌<◌};
ghost use Rattle.gv_types.specs.Bits.{has_bit, has_lowest_bit};
ghost use Rattle.gv_types.specs.Memory.{half_of, with_half};

/// Whether the dword has the bit.
pub fn has_bit(dword: u32, bit: u8) -> bool
    requires { bit < 32 }
    ensures value { result ≡ has_bit dword bit }
    ensures lowest { has_bit dword 0 ≡ has_lowest_bit dword }
{
    (dword >> bit) & 1 == 1
}

/// Four bytes of a word: its low half where the address is a multiple of 8, else its high half.
pub fn half(word: u64, at: u64) -> u32
    ensures { result ≡ half_of word at }
{
    if at % 8 == 0 {
        (word & 0xffff_ffff) as u32
    } else {
        (word >> 32) as u32
    }
}

/// The word with another half at the address.
pub fn with_half(word: u64, at: u64, value: u32) -> u64
    ensures { result ≡ with_half word at value }
{
    if at % 8 == 0 {
        (word >> 32) * 0x1_0000_0000 + u64::from(value)
    } else {
        u64::from(value) * 0x1_0000_0000 + (word & 0xffff_ffff)
    }
}
