ghost use Rattle.std.specs.Prelude.{◌≡◌, ◌≤◌};
ghost use Rattle.gv_cmd.specs.Kind.{IsBlit};
ghost use Rattle.gv_cmd.specs.Rows.{row, rows};

use gv_cmd::{Blit, RowPair};
use std::marker::Model;

/// Addresses count modulo 2^48.
const ADDRESS: u64 = 0xffff_ffff_ffff;

/// The rows of a blit that are left, from the top down.
#[derive(Debug, Drop)]
pub struct Rows {
    blit: Blit,
    y: u16,
}

impl Model for Rows {
    ghost use Rattle.std.specs.Prelude.{List};
    ghost use Rattle.gv_cmd.specs.declared.blit.RowPair.{RowPair};

    ghost Value = { List RowPair };

    ghost use Rattle.gv_blit.specs.Left.{rows_left, AreLeft};

    ghost view = { λ s. rows_left s.blit s.y };

    ghost invariant = { λ s. AreLeft s.blit s.y };
}

impl Iterator for Rows {
    type Item = RowPair;

    ghost use Rattle.std.specs.Iterator.{YieldsFirst, item_count};

    ghost next_gives = { YieldsFirst (λ rest. rest) };

    ghost remaining = { item_count (λ rest. rest) };

    fn next(&mut self) -> Option<RowPair> {
        if self.blit.x1 >= self.blit.x2 || self.y >= self.blit.y2 {
            return None;
        }
        let next = row(&self.blit, self.y);
        self.y += 1;
        Some(next)
    }
}

impl Rows {
    pub(crate) fn new(blit: &Blit) -> Self
        requires { IsBlit blit.now }
        ensures { result ≡ rows blit.now }
    {
        Rows {
            blit: *blit,
            y: blit.y1,
        }
    }
}

/// The row with this y.
fn row(blit: &Blit, y: u16) -> RowPair
    requires blit { IsBlit blit.now }
    requires below { blit.now.y1 ≤ y }
    ensures { result ≡ row blit.now y }
{
    let bytes = u64::from(blit.bytes);
    let to = u64::from(y) * u64::from(blit.to_pitch) + u64::from(blit.x1) * bytes;
    let from_y = u64::from(blit.from_y) + u64::from(y) - u64::from(blit.y1);
    let from = from_y * u64::from(blit.from_pitch) + u64::from(blit.from_x) * bytes;
    RowPair {
        to: ((blit.to & ADDRESS) + to) & ADDRESS,
        from: ((blit.from & ADDRESS) + from) & ADDRESS,
        bytes: u32::from(blit.x2.saturating_sub(blit.x1)) * u32::from(blit.bytes),
    }
}
