ghost use Rattle.std.specs.Prelude.{◌≡◌, ◌-◌, ◌+◌, ◌^◌, ◌<◌, ◌≤◌, ◌↔◌, IsTrue, IsOk, None, Some, IfOk, IfSome, IfNone, OnOk, OnErr};
ghost use Rattle.gv_nodes.specs.Keys.{position_of};

use gv_types::OutOfMemory;
use slab::Slab;
use std::alloc::Global;
use std::marker::Model;

/// A shadow table: what it stands for, its host page by number, and its parents, which are the entries
/// of other tables that name it, and one more where it is a root. At the levels 1 to 4 it stands for the
/// guest's table in the frame; at 5 and 6 for a large page that begins at the frame, writable (5) or not (6),
/// split into its frames.
#[derive(Clone, Copy, Debug, PartialEq, Eq)]
pub struct Node {
    pub frame: u32,
    pub level: u8,
    pub page: u64,
    pub parents: u32,
}

/// The shadow tables of a guest, one at the most for each frame and level. Each stands under a key that
/// it keeps until it is removed.
#[derive(Drop)]
pub struct Nodes {
    frames: u32,
    // The key of each frame's node at each level, level 1 first.
    keys: Vec<Option<usize>>,
    tables: Slab<Node>,
    // How many nodes can be inserted with no memory.
    spare: usize,
}

impl Model for Nodes {
    ghost use Rattle.gv_nodes.specs.NodeMap.{NodeMap, node_map_code};

    ghost Value = { NodeMap };

    ghost coded = { node_map_code };

    ghost use Rattle.gv_nodes.specs.Keys.{node_map, AreKeys};

    ghost view = { λ s. node_map s.frames s.tables s.spare };

    ghost invariant = { λ s. AreKeys s.keys.items s.tables s.frames s.spare };
}

const LEVELS: usize = 6;

impl Nodes {
    ghost use Rattle.gv_nodes.specs.NodeMap.{no_nodes, node_at, HasNode, parents_of, IsKeyOf, IsAbsent, reserved, new_node, inserted, removed, recounted, with_parents, ChangesNode, AreNodes};

    /// No nodes, for a guest with so many frames.
    pub fn new(alloc: Global, frames: u32) -> Result<Nodes, OutOfMemory>
        ensures { IfOk result (λ nodes. nodes ≡ no_nodes frames) }
    {
        Ok(Nodes {
            frames,
            keys: vec![in alloc; None; frames as usize * LEVELS]?,
            tables: Slab::new(alloc),
            spare: 0,
        })
    }

    /// How many frames the guest has.
    pub fn frames(&self) -> u32
        ensures { result ≡ self.now.frames }
    {
        self.frames
    }

    /// Takes the memory for `n` more nodes, for as many calls of `insert`. Where there is room for them
    /// already it succeeds and changes nothing.
    pub fn reserve(&mut self, n: u32) -> Result<(), OutOfMemory>
        ensures ok { OnOk result (self.new ≡ reserved self.old n) }
        ensures err { OnErr result (self.new ≡ self.old) }
        ensures had_room { n ≤ self.old.spare → IsOk result }
    {
        let wanted = n as usize;
        if self.spare < wanted {
            self.tables.reserve(wanted)?;
            self.spare = wanted;
        }
        Ok(())
    }

    /// The key of the frame's node at the level; None exactly where it has none there.
    pub fn find(&self, frame: u32, level: u8) -> Option<usize>
        requires frame { frame < self.now.frames }
        requires low { 1 ≤ level }
        requires high { level ≤ 6 }
        ensures found { IfSome result (λ key. IsKeyOf self.now frame level key) }
        ensures none { IfNone result (IsAbsent self.now frame level) }
        ensures nodes { AreNodes self.now }
    {
        self.keys[position(frame, level)]
    }

    /// The node under the key.
    pub fn node(&self, key: usize) -> Node
        requires { HasNode self.now key }
        ensures node { node_at self.now key ≡ Some result }
        ensures nodes { AreNodes self.now }
    {
        self.tables[key]
    }

    /// Adds a node with this page and no parents for a frame that has none at the level. The answer is
    /// its key, which no node had before. It takes no memory.
    pub fn insert(&mut self, frame: u32, level: u8, page: u64) -> usize
        requires frame { frame < self.old.frames }
        requires low { 1 ≤ level }
        requires high { level ≤ 6 }
        requires absent { IsAbsent self.old frame level }
        requires room { 1 ≤ self.old.spare }
        ensures fresh { node_at self.old result ≡ None }
        ensures after { self.new ≡ inserted self.old result (new_node frame level page) }
        ensures changes { ChangesNode self.old self.new result (Some (new_node frame level page)) }
        ensures nodes { AreNodes self.new }
    {
        let node = Node {
            frame,
            level,
            page,
            parents: 0,
        };
        let key = self.tables.insert_reserved(node);
        self.keys[position(node.frame, node.level)] = Some(key);
        self.spare -= 1;
        key
    }

    /// The node has one more parent.
    pub fn add_parent(&mut self, key: usize)
        requires node { HasNode self.old key }
        requires room { parents_of self.old key < 2 ^ 32 - 1 }
        ensures after { self.new ≡ with_parents self.old key (parents_of self.old key + 1) }
        ensures changes { ChangesNode self.old self.new key (recounted (node_at self.old key) (parents_of self.old key + 1)) }
        ensures nodes { AreNodes self.new }
    {
        let node = &mut self.tables[key];
        node.parents += 1;
    }

    /// The node has one parent less. The answer is true exactly where that was the last.
    pub fn drop_parent(&mut self, key: usize) -> bool
        requires node { HasNode self.old key }
        requires some { 1 ≤ parents_of self.old key }
        ensures last { IsTrue result ↔ (parents_of self.new key ≡ 0) }
        ensures after { self.new ≡ with_parents self.old key (parents_of self.old key - 1) }
        ensures changes { ChangesNode self.old self.new key (recounted (node_at self.old key) (parents_of self.old key - 1)) }
        ensures nodes { AreNodes self.new }
    {
        let node = &mut self.tables[key];
        node.parents -= 1;
        node.parents == 0
    }

    /// Takes out a node that has no parents. Its key may be given again, and its memory serves for another.
    pub fn remove(&mut self, key: usize)
        requires node { HasNode self.old key }
        requires none { parents_of self.old key ≡ 0 }
        ensures after { self.new ≡ removed self.old key }
        ensures changes { ChangesNode self.old self.new key None }
        ensures nodes { AreNodes self.new }
    {
        let node = self.tables.remove(key);
        self.keys[position(node.frame, node.level)] = None;
        self.spare += 1;
    }
}

fn position(frame: u32, level: u8) -> usize
    requires { 1 ≤ level }
    ensures { result ≡ position_of frame level }
{
    frame as usize * LEVELS + level as usize - 1
}

#[cfg(test)]
mod tests {
    use crate::{Node, Nodes};
    use std::test::Fail;

    #[test]
    fn a_node_comes_and_goes(rt: HostRuntime) -> Result<(), Fail> {
        let mut nodes = Nodes::new(rt.alloc(), 3)?;
        assert_eq!(rt; nodes.frames(), 3);
        nodes.reserve(1)?;
        let None = nodes.find(2, 6) else {
            return Err(Fail::from("no node at first"));
        };
        let key = nodes.insert(2, 6, 70);
        assert_eq!(rt; nodes.find(2, 6), Some(key));
        nodes.add_parent(key);
        nodes.add_parent(key);
        let node = Node {
            frame: 2,
            level: 6,
            page: 70,
            parents: 2,
        };
        assert_eq!(rt; nodes.node(key), node);
        assert!(rt; !nodes.drop_parent(key));
        assert!(rt; nodes.drop_parent(key));
        nodes.remove(key);
        assert_eq!(rt; nodes.find(2, 6), None);
        Ok(())
    }

    #[test]
    fn pairs_are_told_apart(rt: HostRuntime) -> Result<(), Fail> {
        let mut nodes = Nodes::new(rt.alloc(), 2)?;
        nodes.reserve(2)?;
        let None = nodes.find(0, 6) else {
            return Err(Fail::from("no node at first"));
        };
        let one = nodes.insert(0, 6, 8);
        let None = nodes.find(1, 1) else {
            return Err(Fail::from("no node of the other frame"));
        };
        let other = nodes.insert(1, 1, 9);
        assert_eq!(rt; nodes.find(0, 6), Some(one));
        assert_eq!(rt; nodes.find(1, 1), Some(other));
        assert_eq!(rt; nodes.node(one).page, 8);
        assert_eq!(rt; nodes.node(other).page, 9);
        Ok(())
    }
}
