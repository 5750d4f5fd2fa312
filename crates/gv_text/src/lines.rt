ghost use Rattle.std.specs.Prelude.{◌≡◌, ◌≤◌, length};
ghost use Rattle.std.specs.List.{position_or_len};
ghost use Rattle.gv_text.specs.Script.{is_line_feed};

use memchr::memchr;

/// A line has at most this many bytes, without its line feed.
pub const LONGEST_LINE: usize = 256;

/// Where the first line feed stands, or the number of bytes where there is none.
pub fn line_end(bytes: &[u8]) -> usize
    ensures value { result ≡ position_or_len is_line_feed bytes.now }
    ensures within { result ≤ length bytes.now }
{
    memchr(b'\n', bytes).unwrap_or(bytes.len())
}
