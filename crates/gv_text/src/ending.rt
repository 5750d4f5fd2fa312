/// How a script ends: with its `end` line, at the line with this number (from 1), which is the
/// first that is refused or which is missing, or at the limit of its length.
#[derive(Clone, Copy, Debug, PartialEq, Eq)]
pub enum Ending {
    Done,
    BadScript(u64),
    TooLong,
}
