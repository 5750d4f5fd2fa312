ghost use Rattle.std.specs.Prelude.{◌≡◌, ◌+◌, ◌<◌, ◌≤◌, ◌^◌};
ghost use Rattle.gv_gpu.specs.Step.{stands_at, runs_privileged, batch_address, active_head, batch_advanced, advanced, returned, branched, next_place, has_ended};
ghost use Rattle.gv_engine.specs.Soft.{loaded_of};

use crate::context::Context;
use gv_cmd::{Command, Kind, Stands};
use gv_ctx::{Batch, Saved};

/// Where the next command stands: in the innermost batch, or else in the ring.
pub(crate) fn stands_of(place: &Saved) -> Stands
    ensures { result ≡ stands_at place.now }
{
    match (place.first, place.second) {
        (_, Some(_)) => Stands::Second,
        (Some(first), None) if first.live => Stands::Live,
        (Some(_), None) => Stands::Privileged,
        (None, None) => Stands::Ring,
    }
}

/// Whether it is privileged, and read in the global memory: all but a live batch is.
pub(crate) fn is_privileged(place: &Saved) -> bool
    ensures { result ≡ runs_privileged place.now }
{
    match (place.first, place.second) {
        (_, Some(second)) => !second.live,
        (Some(first), None) => !first.live,
        (None, None) => true,
    }
}

fn address_of(batch: Batch) -> u64
    ensures value { result ≡ batch_address batch }
    ensures small { result < 2 ^ 48 }
{
    if batch.live {
        batch.at & 0xffff_ffff_ffff
    } else {
        batch.at.min(0x1_0000_0000)
    }
}

/// Past so many dwords. Addresses count modulo 2^48.
fn batch_past(batch: Batch, dwords: usize) -> Batch
    requires { dwords ≤ 65 }
    ensures { result ≡ batch_advanced batch dwords }
{
    Batch {
        at: batch.at.wrapping_add(4 * dwords as u64) & 0xffff_ffff_ffff,
        live: batch.live,
    }
}

fn past(place: Saved, dwords: usize) -> Saved
    requires { dwords ≤ 65 }
    ensures { result ≡ advanced place dwords }
{
    match (place.first, place.second) {
        (first, Some(second)) => Saved {
            ring: place.ring,
            first,
            second: Some(batch_past(second, dwords)),
        },
        (Some(first), None) => Saved {
            ring: place.ring,
            first: Some(batch_past(first, dwords)),
            second: None,
        },
        (None, None) => Saved {
            ring: place.ring.wrapping_add(4 * dwords as u32),
            first: None,
            second: None,
        },
    }
}

/// The innermost batch is left.
fn batch_left(place: Saved) -> Saved
    ensures { result ≡ returned place }
{
    match place.second {
        Some(_) => Saved {
            ring: place.ring,
            first: place.first,
            second: None,
        },
        None => Saved {
            ring: place.ring,
            first: None,
            second: None,
        },
    }
}

fn entered(place: Saved, second: bool, batch: Batch) -> Saved
    ensures { result ≡ branched place second batch }
{
    if second {
        Saved {
            ring: place.ring,
            first: place.first,
            second: Some(batch),
        }
    } else {
        Saved {
            ring: place.ring,
            first: Some(batch),
            second: place.second,
        }
    }
}

/// The place after a command of so many dwords ran.
pub(crate) fn moved(place: Saved, command: &Command, dwords: usize) -> Saved
    requires { dwords ≤ 65 }
    ensures { result ≡ next_place place command.now dwords }
{
    let place = past(place, dwords);
    match command.kind() {
        Kind::BatchEnd => batch_left(place),
        Kind::BatchStart { live, second, at } => entered(place, second, Batch { at, live }),
        _ => place,
    }
}

/// The address of the next command.
pub(crate) fn front_at(context: &Context) -> u64
    ensures value { result ≡ active_head (loaded_of context.now) }
    ensures small { result < 2 ^ 48 }
{
    match (context.place.first, context.place.second) {
        (_, Some(second)) => address_of(second),
        (Some(first), None) => address_of(first),
        (None, None) => u64::from(context.ring_start) + u64::from(context.place.ring),
    }
}

/// Whether no command is left: no batch is entered, and the ring's offset is the tail.
pub(crate) fn has_ended(context: &Context) -> bool
    ensures { result ≡ has_ended (loaded_of context.now) }
{
    match (context.place.first, context.place.second) {
        (None, None) => context.place.ring == context.tail,
        _ => false,
    }
}
