ghost use Rattle.std.specs.Prelude.{◌≡◌, ◌<◌, ◌≤◌};

use gv_cmd::SpaceMeaning;

/// A space that commands run over: the global and the per-process memory as an engine sees them, and
/// the engine's general registers. Each call answers and leaves what the space's operations mean.
///
/// Addresses are in bytes; `at` is a multiple of 4. General registers are counted by dwords.
pub trait Space: SpaceMeaning {
    /// Loads a dword.
    fn load(&mut self, global: bool, at: u64) -> u32
        ensures value { result ≡ Self.operations.load_gives (Self.state self.old) global at }
        ensures left { Self.state self.new ≡ Self.operations.load_leaves (Self.state self.old) global at }
        ensures loans { Self.loans self.new ≡ Self.loans self.old };

    /// Stores a dword.
    fn store(&mut self, global: bool, at: u64, value: u32)
        ensures left { Self.state self.new ≡ Self.operations.stored (Self.state self.old) global at value }
        ensures loans { Self.loans self.new ≡ Self.loans self.old };

    /// Copies a row in the per-process space. It is read whole before it is written.
    fn copy_row(&mut self, to: u64, from: u64, bytes: u32)
        requires { bytes ≤ 16384 }
        ensures left { Self.state self.new ≡ Self.operations.row_copied (Self.state self.old) to from bytes }
        ensures loans { Self.loans self.new ≡ Self.loans self.old };

    /// Fills a row in the per-process space with the colour's low bytes; `depth` is the bytes of a
    /// pixel: 1, 2 or 4.
    fn fill_row(&mut self, to: u64, bytes: u32, colour: u32, depth: u8)
        requires { bytes ≤ 16384 }
        ensures left { Self.state self.new ≡ Self.operations.row_filled (Self.state self.old) to bytes colour depth }
        ensures loans { Self.loans self.new ≡ Self.loans self.old };

    fn general(&self, n: u8) -> u32
        requires { n < 32 }
        ensures { result ≡ Self.operations.general_gives (Self.state self.now) n };

    fn set_general(&mut self, n: u8, value: u32)
        requires { n < 32 }
        ensures left { Self.state self.new ≡ Self.operations.general_set (Self.state self.old) n value }
        ensures loans { Self.loans self.new ≡ Self.loans self.old };
}
