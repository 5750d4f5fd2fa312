ghost use Rattle.std.specs.Prelude.{◌≡◌, ◌<◌, ◌≤◌, ◌==◌, [], ◌∷◌, ◌++◌, length};
ghost use Rattle.std.specs.Str.{bytes_eq};
ghost use Rattle.std.specs.Cmp.{partial_equiv_from_equiv};
ghost use Rattle.std.specs.Cmp.Lexicographic.{nat_list_eq_equiv};

use arrayvec::ArrayVec;
use std::marker::Model;

/// The values of a line of writes, 1 to 16 of them; a clause sees them as a list.
#[derive(Debug, Drop)]
pub struct Values {
    items: ArrayVec<u64, 16>,
}

impl Model for Values {
    ghost use Rattle.std.specs.Prelude.{ℕ, List};

    ghost Value = { List ℕ };

    ghost view = { λ v. v.items.items };
}

impl Values {
    pub(crate) fn new() -> Self
        ensures { result ≡ [] }
    {
        Values {
            items: ArrayVec::new(),
        }
    }

    /// These values.
    pub fn from_slice(values: &[u64]) -> Self
        requires { length values.now ≤ 16 }
        ensures { result ≡ values.now }
    {
        let mut items = ArrayVec::new();
        items.try_extend_from_slice(values).unwrap();
        Values { items }
    }

    pub(crate) fn push(&mut self, value: u64)
        requires { length self.old < 16 }
        ensures { self.new ≡ self.old ++ value ∷ [] }
    {
        self.items.push(value);
    }

    /// The values, first to last.
    pub fn as_slice(&self) -> &[u64]
        ensures value { result.now ≡ self.now }
        ensures few { length result.now ≤ 16 }
    {
        self.items.as_slice()
    }

    /// How many there are.
    pub fn len(&self) -> usize
        ensures { result ≡ length self.now }
    {
        self.items.len()
    }

    /// Whether there is none, which no line has.
    pub fn is_empty(&self) -> bool
        ensures { result ≡ (length self.now == 0) }
    {
        self.items.is_empty()
    }
}

impl PartialEq for Values {
    ghost eq = { bytes_eq };

    ghost laws = { partial_equiv_from_equiv nat_list_eq_equiv };

    fn eq(&self, other: &Self) -> bool {
        self.as_slice() == other.as_slice()
    }
}

impl Eq for Values {
    ghost laws = { nat_list_eq_equiv };
}
