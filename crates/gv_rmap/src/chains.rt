ghost use Rattle.std.specs.Prelude.{◌≡◌, ◌+◌, ◌^◌, ◌<◌, ◌≤◌, length, None, Some, IsSome, IfOk, IsOk, OnOk, OnErr, vec_len, vec_capacity};
ghost use Rattle.gv_rmap.specs.Leaves.{key, leaf_at, HasEachOnce};
ghost use Rattle.gv_rmap.specs.Chains.{no_leaves, chain_of, reserved, linked, unlinked, ChangesLeaf};

use crate::tree::{Node, Tree};
use crate::{Leaf, Walk};
use gv_types::OutOfMemory;
use std::alloc::Global;
use std::marker::Model;

/// For each frame of a guest its chain: the leaves that map it. A `link` or an `unlink` takes a time
/// that grows with the logarithm of the chain's length.
///
/// The chains are seen as a `ReverseMap`: `chains` has the chain of each frame, its leaves in the
/// order of their keys, and `spare` says how many leaves can be linked without memory.
#[derive(Drop)]
pub struct Chains {
    alloc: Global,
    chains: Vec<Tree>,
    spare: Vec<Box<Node>>,
    // How many nodes there are, with those to spare.
    nodes: usize,
}

impl Model for Chains {
    ghost use Rattle.gv_rmap.specs.Chains.{ReverseMap};

    ghost Value = { ReverseMap };

    ghost use Rattle.gv_rmap.specs.Inside.{linked_of, IsSound};

    ghost view = { linked_of };

    ghost invariant = { IsSound };
}

impl Chains {
    /// So many frames, none with a leaf. Nothing is to spare.
    pub fn new(alloc: Global, frames: u32) -> Result<Chains, OutOfMemory>
        ensures { IfOk result (λ chains. chains ≡ no_leaves frames) }
    {
        let mut chains = Vec::with_capacity(alloc, frames as usize)?;
        for _ in 0..frames {
            chains.push(Tree::Empty)?;
        }
        Ok(Chains {
            alloc,
            chains,
            spare: Vec::new(alloc),
            nodes: 0,
        })
    }

    /// How many frames there are.
    pub fn frames(&self) -> u32
        ensures { result ≡ length self.now.chains }
    {
        self.chains.len() as u32
    }

    /// How many leaves can be linked without memory.
    pub fn spare(&self) -> usize
        ensures { result ≡ self.now.spare }
    {
        self.spare.len()
    }

    /// Takes the memory for as many leaves, so that they can be linked without memory.
    pub fn reserve(&mut self, n: u32) -> Result<(), OutOfMemory>
        ensures ok { OnOk result (self.new ≡ reserved self.old n) }
        ensures succeeds { n ≤ self.old.spare → IsOk result }
        ensures err { OnErr result (self.new ≡ self.old) }
    {
        let (n, before) = (n as usize, self.spare.len());
        if n <= before {
            return Ok(());
        }
        let more = n - before;
        self.spare.reserve(self.nodes - before + more)?;
        add_nodes(self.alloc, &mut self.spare, more)?;
        self.nodes += more;
        Ok(())
    }

    /// Links a leaf that the frame's chain doesn't have. It takes no memory.
    pub fn link(&mut self, frame: u32, leaf: Leaf)
        requires frame { frame < length self.old.chains }
        requires spare { 1 ≤ self.old.spare }
        requires absent { leaf_at (chain_of self.old frame) (key leaf) ≡ None }
        ensures after { self.new ≡ linked self.old frame leaf }
        ensures changes { ChangesLeaf self.old self.new frame (key leaf) (Some leaf) }
    {
        let Some(node) = self.spare.pop() else {
            unreachable!();
        };
        self.chains[frame as usize].insert(leaf, node);
    }

    /// Takes the leaf of this page and index out of the frame's chain. It takes no memory.
    pub fn unlink(&mut self, frame: u32, leaf: Leaf)
        requires frame { frame < length self.old.chains }
        requires linked { IsSome (leaf_at (chain_of self.old frame) (key leaf)) }
        ensures after { self.new ≡ unlinked self.old frame leaf }
        ensures changes { ChangesLeaf self.old self.new frame (key leaf) None }
    {
        let Some(node) = self.chains[frame as usize].remove(leaf) else {
            unreachable!();
        };
        self.spare.push_reserved(node);
    }

    /// The leaves of the frame's chain, each once, in the order of their keys.
    pub fn walk(&self, frame: u32) -> Walk<'_>
        requires { frame < length self.now.chains }
        ensures leaves { result ≡ chain_of self.now frame }
        ensures each_once { HasEachOnce (chain_of self.now frame) result }
        ensures countable { length result < 2 ^ 64 }
    {
        Walk {
            chain: &self.chains[frame as usize],
            last: None,
        }
    }
}

// Puts so many nodes to those to spare, or none.
fn add_nodes(alloc: Global, spare: &mut Vec<Box<Node>>, more: usize) -> Result<(), OutOfMemory>
    requires { vec_len spare.old + more ≤ vec_capacity spare.old }
    ensures ok { OnOk result (vec_len spare.new ≡ vec_len spare.old + more) }
    ensures err { OnErr result (vec_len spare.new ≡ vec_len spare.old) }
    ensures capacity { vec_capacity spare.new ≡ vec_capacity spare.old }
{
    let before = spare.len();
    for _ in 0..more {
        let Ok(node) = Box::new(alloc, Node::of(NO_LEAF)) else {
            spare.truncate(before);
            return Err(OutOfMemory);
        };
        spare.push_reserved(node);
    }
    Ok(())
}

const NO_LEAF: Leaf = Leaf {
    page: 0,
    index: 0,
    writable: false,
};
