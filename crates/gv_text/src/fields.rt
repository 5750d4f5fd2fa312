ghost use Rattle.std.specs.Prelude.{◌≡◌, ℕ, ◌+◌, ◌%◌, ◌^◌, ◌<◌, ◌≤◌, length, map, IfSome};
ghost use Rattle.std.specs.List.{AllByRecursion};
ghost use Rattle.gv_types.specs.Places.{address_limit};
ghost use Rattle.gv_types.specs.Memory.{bytes_of};
ghost use Rattle.gv_text.specs.Number.{number_below};
ghost use Rattle.gv_text.specs.Grammar.{value_limit, address_of, values_of};

use crate::Values;
use crate::access::highest_address;
use crate::number::number_up_to;
use gv_types::{Place, Width};

/// A guest's number, which is below 8.
pub(crate) fn guest_number(word: &[u8]) -> Option<u8>
    ensures value { result ≡ number_below 8 word.now }
    ensures small { IfSome result (λ guest. guest < 8) }
{
    let guest = number_up_to(7, word)?;
    Some(guest as u8)
}

/// An engine's number, which is below 4.
pub(crate) fn engine_number(word: &[u8]) -> Option<u8>
    ensures value { result ≡ number_below 4 word.now }
    ensures small { IfSome result (λ engine. engine < 4) }
{
    let engine = number_up_to(3, word)?;
    Some(engine as u8)
}

/// A context descriptor, of 64 bits.
pub(crate) fn descriptor(word: &[u8]) -> Option<u64>
    ensures { result ≡ number_below (2 ^ 64) word.now }
{
    number_up_to(u64::MAX, word)
}

/// A number of turns: a line has at most 65,536 of them.
pub(crate) fn turn_count(word: &[u8]) -> Option<u32>
    ensures value { result ≡ number_below 0x10001 word.now }
    ensures small { IfSome result (λ count. count ≤ 0x10000) }
{
    let count = number_up_to(0x1_0000, word)?;
    Some(count as u32)
}

/// A number of frames: a guest has at most 16,384 of them.
pub(crate) fn frame_count(word: &[u8]) -> Option<u32>
    ensures value { result ≡ number_below 0x4001 word.now }
    ensures small { IfSome result (λ frames. frames ≤ 0x4000) }
{
    let frames = number_up_to(0x4000, word)?;
    Some(frames as u32)
}

/// A number below 2^32.
pub(crate) fn number_u32(word: &[u8]) -> Option<u32>
    ensures { result ≡ number_below (2 ^ 32) word.now }
{
    let value = number_up_to(u64::from(u32::MAX), word)?;
    Some(value as u32)
}

/// An address in the place, which is a multiple of the access's bytes.
pub(crate) fn address(place: Place, width: Width, word: &[u8]) -> Option<u64>
    ensures value { result ≡ address_of place width word.now }
    ensures aligned { IfSome result (λ at. at % bytes_of width ≡ 0) }
    ensures inside { IfSome result (λ at. at < address_limit place) }
{
    let at = number_up_to(highest_address(place), word)?;
    if at % width.bytes() == 0 {
        Some(at)
    } else {
        None
    }
}

/// A value of the access's bytes.
fn value(width: Width, word: &[u8]) -> Option<u64>
    ensures value { result ≡ number_below (value_limit width) word.now }
    ensures small { IfSome result (λ n. n < value_limit width) }
{
    number_up_to(width.all_ones(), word)
}

pub(crate) fn values(width: Width, words: &[&[u8]]) -> Option<Values>
    requires { length words.now ≤ 16 }
    ensures value { result ≡ values_of width (map (λ w. w.now) words.now) }
    ensures count { IfSome result (λ vs. length vs ≡ length words.now) }
    ensures small { IfSome result (AllByRecursion (λ n. n < value_limit width)) }
{
    let mut values = Values::new();
    for word in words {
        values.push(value(width, word)?);
    }
    Some(values)
}
