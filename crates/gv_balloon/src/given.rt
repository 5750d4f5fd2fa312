use gv_types::{Ranges, Span, Want};

/// How many pages of the low part and of the high part have been given out.
#[derive(Clone, Copy, Debug, PartialEq, Eq)]
pub struct Given {
    pub low: u32,
    pub high: u32,
}

impl Given {
    ghost use Rattle.std.specs.Prelude.{◌≡◌, ℕ, ◌+◌, ◌≤◌, true};
    ghost use Rattle.gv_entry.specs.Ranges.{InParts};
    ghost use Rattle.gv_balloon.specs.Shares.{nothing_given, fits, next_ranges, given_after, AreAmong};

    /// Before the first guest.
    pub const NOTHING: Given = Given { low: 0, high: 0 };

    /// Whether as many more pages are there: the low part has 65,536, the high part 966,656.
    pub fn fits(&self, want: &Want) -> bool
        ensures { result ≡ fits self.now want.now }
    {
        u64::from(self.low) + u64::from(want.low) <= 65_536
            && u64::from(self.high) + u64::from(want.high) <= 966_656
    }

    /// The next guest's ranges: the pages of each part that come next. Low pages are numbered from 0,
    /// high pages from 65,536.
    pub fn next(&self, want: &Want) -> Ranges
        requires { fits self.now want.now ≡ true }
        ensures ranges { result ≡ next_ranges self.now want.now }
        ensures parts { InParts result }
        ensures among { AreAmong (given_after self.now want.now) result }
    {
        Ranges {
            low: Span {
                first: self.low,
                pages: want.low,
            },
            high: Span {
                first: 65_536 + self.high,
                pages: want.high,
            },
        }
    }

    /// What has been given out after that.
    pub fn after(&self, want: &Want) -> Given
        requires { fits self.now want.now ≡ true }
        ensures { result ≡ given_after self.now want.now }
    {
        Given {
            low: self.low + want.low,
            high: self.high + want.high,
        }
    }
}
