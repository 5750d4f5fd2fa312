//! Lines in and out, in memory that doesn't grow: the lines of a script are handed out as soon as
//! their line feed is taken from the source, and report lines go to the sink in pieces.
#![tactic(auto)]

mod first;
mod next;
mod outlet;
mod reader;
#[cfg(test)]
mod tests;
mod totals;
mod writer;

pub use next::Next;
pub use outlet::Outlet;
pub use reader::LineReader;
pub use totals::Totals;
pub use writer::ReportWriter;
