ghost use Rattle.std.specs.Prelude.{◌≡◌};
ghost use Rattle.gv_lines.specs.Summary.{after_byte, totals_after, no_totals};

/// How many lines and bytes a report has, and the fold of its bytes: it begins at 0, and a byte `b` makes
/// `31 * fold + b` of it, modulo 2^64. The counts stay at 2^64 - 1.
#[derive(Clone, Copy, Debug, PartialEq, Eq)]
pub struct Totals {
    pub lines: u64,
    pub bytes: u64,
    pub fold: u64,
}

impl Totals {
    /// Of no bytes.
    pub const NONE: Totals = Totals {
        lines: 0,
        bytes: 0,
        fold: 0,
    };

    // One more byte. A line ends with its line feed.
    fn add(&mut self, byte: u8)
        ensures { self.new ≡ after_byte self.old byte }
    {
        if byte == b'\n' {
            self.lines = self.lines.saturating_add(1);
        }
        self.bytes = self.bytes.saturating_add(1);
        self.fold = self.fold.wrapping_mul(31).wrapping_add(u64::from(byte));
    }

    /// So many more bytes.
    pub fn take(&mut self, bytes: &[u8])
        ensures { self.new ≡ totals_after self.old bytes.now }
    {
        for byte in bytes {
            self.add(*byte);
        }
    }
}
