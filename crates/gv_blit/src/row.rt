ghost use Rattle.std.specs.Prelude.{◌≡◌, All};
ghost use Rattle.gv_cmd.specs.Kind.{IsBlit};
ghost use Rattle.gv_cmd.specs.Rows.{rows};
ghost use Rattle.gv_blit.specs.Short.{IsShort};

use crate::Rows;
use gv_cmd::Blit;

/// The rows of a blit from the top down: none where its rectangle is empty. Addresses count modulo
/// 2^48, and a row has at most 16,384 bytes.
pub fn rows(blit: &Blit) -> Rows
    requires { IsBlit blit.now }
    ensures rows { result ≡ rows blit.now }
    ensures short { All IsShort result }
{
    Rows::new(blit)
}

#[cfg(test)]
mod tests {
    use crate::{RowPair, rows};
    use gv_cmd::Blit;

    /// Two rows of one pixel of 4 bytes, filled.
    const FILL: Blit = Blit {
        bytes: 4,
        to: 0x1000,
        to_pitch: 16,
        x1: 1,
        y1: 0,
        x2: 2,
        y2: 2,
        colour: 0xabcd_1234,
        from: 0,
        from_pitch: 0,
        from_x: 0,
        from_y: 0,
    };

    #[test]
    fn rows_of_a_fill(rt: HostRuntime) {
        let mut left = rows(&FILL);
        let top = RowPair {
            to: 0x1004,
            from: 0,
            bytes: 4,
        };
        assert!(rt; left.next() == Some(top));
        assert!(rt; left.next() == Some(RowPair { to: 0x1014, ..top }));
        assert!(rt; left.next() == None);
        assert!(rt; left.next() == None);
        assert_eq!(rt; rows(&Blit { x2: 1, ..FILL }).count(), 0);
        assert_eq!(rt; rows(&Blit { y1: 2, ..FILL }).count(), 0);
    }

    #[test]
    fn rows_of_a_copy(rt: HostRuntime) {
        let over_itself = Blit {
            bytes: 1,
            to: 0x1004,
            x1: 0,
            x2: 8,
            y2: 1,
            colour: 0,
            from: 0x1000,
            from_pitch: 16,
            ..FILL
        };
        let mut left = rows(&over_itself);
        let row = RowPair {
            to: 0x1004,
            from: 0x1000,
            bytes: 8,
        };
        assert!(rt; left.next() == Some(row));
        assert!(rt; left.next() == None);
        let wrapped = Blit {
            bytes: 2,
            to: 0xffff_ffff_fff0,
            y1: 3,
            y2: 5,
            from: 0xffff_0000_0000_0004,
            from_pitch: 0x100,
            from_x: 1,
            from_y: 2,
            ..FILL
        };
        let mut left = rows(&wrapped);
        let first = RowPair {
            to: 0x22,
            from: 0x206,
            bytes: 2,
        };
        let second = RowPair {
            to: 0x32,
            from: 0x306,
            bytes: 2,
        };
        assert!(rt; left.next() == Some(first));
        assert!(rt; left.next() == Some(second));
        assert!(rt; left.next() == None);
    }
}
