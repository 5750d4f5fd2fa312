//! Script lines and report lines: a line is read in place, and a printed line stands in a buffer of
//! 64 bytes, so neither takes memory.
#![tactic(auto)]

mod access;
mod ending;
mod fields;
mod guest_lines;
mod known;
mod lines;
mod number;
mod parse;
mod printed;
mod printing;
mod report_line;
mod script_line;
#[cfg(test)]
mod tests;
mod values;

pub use ending::Ending;
pub use guest_lines::lines_name_their_guest;
pub use known::Known;
pub use lines::{LONGEST_LINE, line_end};
pub use parse::line;
pub use printed::Printed;
pub use printing::print;
pub use report_line::ReportLine;
pub use script_line::{BadLine, Guest, Line};
pub use values::Values;
