//! The words that all crates share: guests, engines, events and the replies to them, ranges of
//! the global table, and sizes and limits. What a guest's memory is stands in `specs/Memory.antt`.
#![tactic(auto)]

mod bits;
mod event;
mod ids;
mod limits;
mod memory;
mod ranges;
mod reply;

pub use bits::{half, has_bit, with_half};
pub use event::{Event, Place, Width};
pub use ids::{EngineId, GuestId, Label};
pub use limits::{MAX_FRAMES, MAX_LIVE_PAGES, PAGE_BYTES, PAGE_WORDS};
pub use memory::OutOfMemory;
pub use ranges::{Ranges, Span, Want};
pub use reply::{Answer, Outcome, Reason, Reply, Stop};
