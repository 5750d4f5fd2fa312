ghost use Rattle.std.specs.Iterator.{YieldsFirst, item_count};

use crate::Leaf;
use crate::tree::Tree;
use std::iter::FusedIterator;
use std::marker::Model;

/// The leaves of a chain one by one, seen as the list of those that are left.
#[derive(Drop)]
pub struct Walk<'a> {
    pub(crate) chain: &'a Tree,
    pub(crate) last: Option<Leaf>,
}

impl<'a> Model for Walk<'a> {
    ghost use Rattle.std.specs.Prelude.{List, filter};
    ghost use Rattle.gv_rmap.specs.declared.leaf.Leaf.{Leaf};

    ghost Value = { List Leaf };

    ghost use Rattle.gv_rmap.specs.Leaves.{is_behind, IsInOrder};
    ghost use Rattle.gv_rmap.specs.Tree.{leaves};

    ghost view = { λ s. filter (is_behind s.last) (leaves s.chain.now) };

    ghost invariant = { λ s. IsInOrder (leaves s.chain.now) };
}

impl<'a> Iterator for Walk<'a> {
    type Item = Leaf;

    ghost next_gives = { YieldsFirst (λ rest. rest) };

    ghost remaining = { item_count (λ rest. rest) };

    fn next(&mut self) -> Option<Leaf> {
        let leaf = self.chain.first_behind(self.last)?;
        self.last = Some(leaf);
        Some(leaf)
    }
}

impl<'a> FusedIterator for Walk<'a> {}
