ghost use Rattle.std.specs.Prelude.{◌≡◌, ◌+◌};
ghost use Rattle.gv_types.specs.Places.{address_limit};
ghost use Rattle.gv_text.specs.Grammar.{read_access, write_access};

use gv_types::{Place, Width};

/// What a word names that begins a line of a read.
pub(crate) fn read_access(word: &[u8]) -> Option<(Place, Width)>
    ensures { result ≡ read_access word.now }
{
    match word {
        b"r4" => Some((Place::Memory, Width::Four)),
        b"r8" => Some((Place::Memory, Width::Eight)),
        b"i4" => Some((Place::Registers, Width::Four)),
        b"i8" => Some((Place::Registers, Width::Eight)),
        b"a4" => Some((Place::Aperture, Width::Four)),
        b"a8" => Some((Place::Aperture, Width::Eight)),
        _ => None,
    }
}

/// What a word names that begins a line of writes.
pub(crate) fn write_access(word: &[u8]) -> Option<(Place, Width)>
    ensures { result ≡ write_access word.now }
{
    match word {
        b"w4" => Some((Place::Memory, Width::Four)),
        b"w8" => Some((Place::Memory, Width::Eight)),
        b"o4" => Some((Place::Registers, Width::Four)),
        b"o8" => Some((Place::Registers, Width::Eight)),
        b"b4" => Some((Place::Aperture, Width::Four)),
        b"b8" => Some((Place::Aperture, Width::Eight)),
        _ => None,
    }
}

pub(crate) fn highest_address(place: Place) -> u64
    ensures { result + 1 ≡ address_limit place }
{
    match place {
        Place::Memory => u64::MAX,
        Place::Registers => 0xff_ffff,
        Place::Aperture => u64::from(u32::MAX),
    }
}
