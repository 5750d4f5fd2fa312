//! Where bytes come from and where they go: the traits `Source` and `Sink`, and the forms of both over
//! memory and over std's readers and writers.
#![tactic(auto)]

mod attempt;
mod memory_sink;
mod memory_source;
mod sink;
mod source;
mod std_sink;
mod std_source;

pub use memory_sink::MemorySink;
pub use memory_source::MemorySource;
pub use sink::{Sink, SinkFailed};
pub use source::{Source, SourceFailed};
pub use std_sink::StdSink;
pub use std_source::StdSource;

#[cfg(test)]
mod tests;
