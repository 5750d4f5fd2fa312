ghost use Rattle.std.specs.Prelude.{◌≡◌, length};
ghost use Rattle.gv_lines.specs.First.{first_of, FitsIn};

use gv_text::{LONGEST_LINE, line_end};

/// What bytes begin with: a line with so many bytes and a line feed; at a source's end, a last line of
/// so many bytes; or more bytes than a line has.
pub(crate) enum First {
    Line(usize),
    LastLine(usize),
    LongLine,
    Nothing,
}

/// What bytes begin with, by whether the source ends behind them.
pub(crate) fn first_line(bytes: &[u8], ended: bool) -> First
    ensures value { result ≡ first_of ended bytes.now }
    ensures within { FitsIn result (length bytes.now) }
{
    let end = line_end(bytes);
    if end > LONGEST_LINE {
        First::LongLine
    } else if end < bytes.len() {
        First::Line(end)
    } else if ended && end > 0 {
        First::LastLine(end)
    } else {
        First::Nothing
    }
}
