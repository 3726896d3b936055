//! Paths, and the nodes on them.

ghost use Rattle.std.specs.Prelude.{◌≡◌, ◌<◌, [], ◌∷◌, ◌++◌, ◌^◌, drop, length, IfOk, IfSome, MatchOption, OnOk};
ghost use Rattle.type_paths.specs.Paths.{IsAbove, IsPath, IsTop, Path as Types, count_on, path, root};

use crate::slots::width;
use stack_maps::VType;
use std::alloc::{AllocError, Global};
use std::marker::Model;

/// The last type of a path, `None` for one that isn't known, the node at which the others end, and the slots that all of them take, `None`
/// where one isn't known.
#[derive(Clone, Copy)]
pub struct Node {
    pub item: Option<VType>,
    pub below: u32,
    pub slots: Option<u32>,
}

// With more types on two paths that aren't on both, no common node is looked for.
const NEAR: u8 = 16;

/// Paths of types, each from a node down to the first, which has none. The nodes have numbers from 0 on.
#[derive(Drop)]
pub struct Paths {
    nodes: Vec<Node>,
}

impl Model for Paths {
    ghost use Rattle.std.specs.Prelude.{List};
    ghost use Rattle.type_paths.specs.Paths.{IsTree, Path, paths_in};

    ghost Value = { List Path };

    ghost view = { paths_in };

    ghost invariant = { λ a. IsTree a.nodes.items };
}

impl Paths {
    /// Only the first node. This takes no memory.
    pub fn new(alloc: Global) -> Self
        ensures { result ≡ root }
    {
        Paths {
            nodes: Vec::new(alloc),
        }
    }

    /// The first node, which has no types.
    pub fn root(&self) -> usize
        ensures { IsPath self.now result [] }
    {
        self.node(0)
    }

    /// The node of a number; the first where there is none of it.
    pub fn node(&self, n: usize) -> usize
        ensures known { result < length self.now }
        ensures path { path self.now result ≡ path self.now n }
        ensures first { path self.now 0 ≡ [] }
        // A path is no longer than memory.
        ensures short { length (path self.now result) < 2 ^ 63 }
    {
        if n <= self.nodes.len() { n } else { 0 }
    }

    /// Puts a type on a path, and gives the node of both.
    pub fn push(&mut self, on: usize, item: Option<VType>) -> Result<usize, AllocError>
        ensures grown { OnOk result
            (self.new ≡ self.old ++ (item ∷ path self.old on) ∷ []) }
        ensures node { IfOk result (λ n. n ≡ length self.old) }
    {
        let node = self.node(on);
        if node > u32::MAX as usize {
            return Err(AllocError);
        }
        let slots = self.slots_with(node, item)?;
        let below = node as u32;
        self.nodes.push(Node { item, below, slots })?;
        Ok(self.nodes.len())
    }

    /// The slots of a path. `None`: one of its types isn't known.
    pub fn slots(&self, n: usize) -> Option<u32>
        ensures { result ≡ count_on (path self.now n) }
    {
        match self.top(n) {
            Some(top) => top.slots,
            None => Some(0),
        }
    }

    // The slots of a path with another type at its end. From 2^32 on they count as memory run out.
    fn slots_with(&self, n: usize, item: Option<VType>) -> Result<Option<u32>, AllocError>
        ensures { IfOk result (λ slots. slots ≡ count_on (item ∷ path self.now n)) }
    {
        let Some(t) = item else {
            return Ok(None);
        };
        let Some(slots) = self.slots(n) else {
            return Ok(None);
        };
        match slots.checked_add(width(t)) {
            Some(all) => Ok(Some(all)),
            None => Err(AllocError),
        }
    }

    /// The last type of a path. `None`: it has none.
    pub fn top(&self, n: usize) -> Option<Node>
        ensures { MatchOption result (path self.now n ≡ []) (IsTop self.now n) }
    {
        let nodes = self.nodes.as_slice();
        if n == 0 {
            return None;
        }
        nodes.get(n - 1).copied()
    }

    // The node below one; the first is below itself.
    fn below(&self, n: usize) -> usize
        ensures node { (p : Types) → IsPath self.now n p → IsPath self.now result (drop 1 p) }
        ensures above { IsAbove self.now n result }
    {
        match self.top(n) {
            Some(top) => top.below as usize,
            None => n,
        }
    }

    /// A node that lies on both paths, where one is near. `None`: none was found.
    pub fn common(&self, one: usize, other: usize) -> Option<usize>
        ensures { IfSome result (λ n. IsAbove self.now one n × IsAbove self.now other n) }
    {
        let mut a = one;
        let mut b = other;
        for _ in 0..NEAR {
            if a == b {
                return Some(a);
            }
            let (lower, other) = self.lowered(a, b);
            a = lower;
            b = other;
        }
        None
    }

    // Two nodes, that of the greater number lowered to the one below it.
    fn lowered(&self, a: usize, b: usize) -> (usize, usize)
        ensures { IsAbove self.now a result.0 × IsAbove self.now b result.1 }
    {
        if a > b {
            (self.below(a), b)
        } else {
            (a, self.below(b))
        }
    }

    /// The node that lies this many types below one.
    pub fn chopped(&self, n: usize, dropped: u8) -> usize
        ensures { (p : Types) → IsPath self.now n p → IsPath self.now result (drop dropped p) }
    {
        let mut node = n;
        for _ in 0..dropped {
            node = self.below(node);
        }
        node
    }
}
