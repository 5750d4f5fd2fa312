ghost use Rattle.std.specs.Prelude.{◌≡◌, ◌<◌, [], ◌∷◌, ◌++◌, None, IsSome, find, MatchOption};
ghost use Rattle.gv_rmap.specs.Leaves.{key, IsInOrder, leaf_at, with_leaf, without_leaf, is_behind};
ghost use Rattle.gv_rmap.specs.declared.tree.Tree.{Empty};
ghost use Rattle.gv_rmap.specs.Tree.{leaves, leaves_of, lone_node, height, height_over, IsBalanced, IsNearlyBalanced, AreEven, Balances, IsLeaningLeft, IsLeaningRight, Grows, Shrinks, Joins, TurnsRight, TurnsLeft};

use crate::Leaf;
use std::mem;

/// The leaves of a chain in the order of their keys, as a search tree whose sides' heights
/// differ by one at the most.
#[cycle(tree)]
#[derive(Drop)]
pub(crate) enum Tree {
    Empty,
    Fork(Box<Node>),
}

/// A node of a tree, or one to spare.
#[cycle(tree)]
#[derive(Drop)]
pub(crate) struct Node {
    left: Tree,
    leaf: Leaf,
    right: Tree,
    height: u8,
}

impl Node {
    /// A node with no sides.
    pub(crate) fn of(leaf: Leaf) -> Node
        ensures { result ≡ lone_node leaf }
    {
        Node {
            left: Tree::Empty,
            leaf,
            right: Tree::Empty,
            height: 1,
        }
    }

    // The height follows from those of the sides.
    fn update_height(&mut self)
        ensures { self.new ≡ record self.old { height = height_over self.old.left self.old.right } }
    {
        self.height = self
            .left
            .height()
            .max(self.right.height())
            .saturating_add(1);
    }
}

impl Tree {
    fn height(&self) -> u8
        ensures { result ≡ height self.now }
    {
        match self {
            Tree::Empty => 0,
            Tree::Fork(node) => node.height,
        }
    }

    fn take(&mut self) -> Tree
        ensures taken { result ≡ self.old }
        ensures rest { self.new ≡ Empty }
    {
        mem::replace(self, Tree::Empty)
    }

    /// Puts the leaf where its key belongs, in a node that was to spare.
    pub(crate) fn insert(&mut self, leaf: Leaf, mut spare: Box<Node>)
        ensures leaves { IsInOrder (leaves self.old) → leaves self.new ≡ with_leaf leaf (leaves self.old) }
        ensures balanced { IsBalanced self.old → height self.old < 200 → Grows self.old self.new }
    {
        let Tree::Fork(mut root) = self.take() else {
            *spare = Node::of(leaf);
            *self = Tree::Fork(spare);
            return;
        };
        if leaf.is_before(root.leaf) {
            root.left.insert(leaf, spare);
        } else {
            root.right.insert(leaf, spare);
        }
        *self = Tree::Fork(balanced(root));
    }

    /// Takes the leaf with the key of this one out, and answers its node.
    pub(crate) fn remove(&mut self, leaf: Leaf) -> Option<Box<Node>>
        ensures found { IsInOrder (leaves self.old) → IsSome (leaf_at (leaves self.old) (key leaf)) → IsSome result }
        ensures leaves { IsInOrder (leaves self.old) → leaves self.new ≡ without_leaf leaf (leaves self.old) }
        ensures balanced { IsBalanced self.old → height self.old < 200 → Shrinks self.old self.new }
    {
        let Tree::Fork(mut root) = self.take() else {
            return None;
        };
        if leaf.is_before(root.leaf) {
            let node = root.left.remove(leaf);
            *self = Tree::Fork(balanced(root));
            return node;
        }
        if root.leaf.is_before(leaf) {
            let node = root.right.remove(leaf);
            *self = Tree::Fork(balanced(root));
            return node;
        }
        *self = joined(root.left.take(), root.right.take());
        Some(root)
    }

    fn take_first(&mut self) -> Option<Box<Node>>
        ensures leaves { MatchOption result ((leaves self.old ≡ []) × (leaves self.new ≡ [])) (λ first. leaves self.old ≡ first.value.leaf ∷ leaves self.new) }
        ensures balanced { IsBalanced self.old → height self.old < 200 → Shrinks self.old self.new }
    {
        let Tree::Fork(mut root) = self.take() else {
            return None;
        };
        let Some(first) = root.left.take_first() else {
            *self = root.right.take();
            return Some(root);
        };
        *self = Tree::Fork(balanced(root));
        Some(first)
    }

    /// The first leaf behind the one that was last.
    pub(crate) fn first_behind(&self, last: Option<Leaf>) -> Option<Leaf>
        ensures { IsInOrder (leaves self.now) → result ≡ find (is_behind last) (leaves self.now) }
    {
        let Tree::Fork(node) = self else {
            return None;
        };
        if !node.leaf.is_behind(last) {
            return node.right.first_behind(last);
        }
        node.left.first_behind(last).or(Some(node.leaf))
    }
}

// The leaves of the two trees, the left ones first.
fn joined(left: Tree, mut right: Tree) -> Tree
    ensures leaves { leaves result ≡ leaves left ++ leaves right }
    ensures balanced { IsBalanced left → IsBalanced right → AreEven (height left) (height right) → height left < 200 → height right < 200 → Joins left right result }
{
    let Some(mut root) = right.take_first() else {
        return left;
    };
    root.left = left;
    root.right = right;
    Tree::Fork(balanced(root))
}

// The same leaves, where one side may have been higher by two.
fn balanced(mut root: Box<Node>) -> Box<Node>
    ensures leaves { leaves_of result.value ≡ leaves_of root.value }
    ensures balanced { IsNearlyBalanced root.value → Balances root.value result.value }
{
    let (left, right) = (root.left.height(), root.right.height());
    if left > right.saturating_add(1) {
        root.left = leaning_left(root.left.take());
        return turned_right(root);
    }
    if right > left.saturating_add(1) {
        root.right = leaning_right(root.right.take());
        return turned_left(root);
    }
    root.update_height();
    root
}

fn leaning_left(tree: Tree) -> Tree
    ensures leaves { leaves result ≡ leaves tree }
    ensures leaning { IsBalanced tree → height tree < 250 → IsLeaningLeft (height tree) result }
{
    match tree {
        Tree::Fork(root) => Tree::Fork(if root.right.height() > root.left.height() {
            turned_left(root)
        } else {
            root
        }),
        Tree::Empty => Tree::Empty,
    }
}

fn leaning_right(tree: Tree) -> Tree
    ensures leaves { leaves result ≡ leaves tree }
    ensures leaning { IsBalanced tree → height tree < 250 → IsLeaningRight (height tree) result }
{
    match tree {
        Tree::Fork(root) => Tree::Fork(if root.left.height() > root.right.height() {
            turned_right(root)
        } else {
            root
        }),
        Tree::Empty => Tree::Empty,
    }
}

// The root of the left side comes to the top.
fn turned_right(mut root: Box<Node>) -> Box<Node>
    ensures leaves { leaves_of result.value ≡ leaves_of root.value }
    ensures turned { TurnsRight root.value.left root.value result.value }
{
    let Tree::Fork(mut top) = root.left.take() else {
        return root;
    };
    root.left = top.right.take();
    root.update_height();
    top.right = Tree::Fork(root);
    top.update_height();
    top
}

// The root of the right side comes to the top.
fn turned_left(mut root: Box<Node>) -> Box<Node>
    ensures leaves { leaves_of result.value ≡ leaves_of root.value }
    ensures turned { TurnsLeft root.value.right root.value result.value }
{
    let Tree::Fork(mut top) = root.right.take() else {
        return root;
    };
    root.right = top.left.take();
    root.update_height();
    top.left = Tree::Fork(root);
    top.update_height();
    top
}
