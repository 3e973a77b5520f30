ghost use Rattle.std.specs.Prelude.{◌≡◌, ◌<◌, ◌≤◌, ◌^◌, ℕ, List, IfOk, All, length, slice_index};
ghost use Rattle.std.specs.List.{range_with_len};
ghost use Rattle.sdd_blocks.specs.Forest.{IsForest, AreRoots, AreJoined};

use sdd_base::NoMemory;
use std::alloc::Global;

/// Disjoint sets of nodes, each a tree whose root is its least node.
#[derive(Drop)]
pub(crate) struct Forest {
    /// The parent of each node: a lesser node of its set, or the node itself where it is the root.
    pub(crate) parents: Vec<u32>,
}

impl Forest {
    /// Each node is a set of its own.
    pub(crate) fn new(alloc: Global, nodes: u32) -> Result<Self, NoMemory>
        ensures length { IfOk result (λ forest. length forest.parents.items ≡ nodes) }
        ensures forest { IfOk result (λ forest. IsForest forest.parents.items) }
        ensures roots { IfOk result (λ forest.
            AreRoots forest.parents.items (range_with_len 0 nodes)) }
    {
        let mut parents = Vec::with_capacity(alloc, nodes as usize)?;
        for node in 0..nodes {
            parents.push(node)?;
        }
        Ok(Forest { parents })
    }

    /// The root of the set that the node is in.
    ///
    /// Each node on the way there gets its parent's parent as its parent, so that the way is halved.
    pub(crate) fn root(&mut self, node: u32) -> u32
        requires within { node < length self.old.parents.items }
        requires forest { IsForest self.old.parents.items }
        ensures length { length self.new.parents.items ≡ length self.old.parents.items }
        ensures forest { IsForest self.new.parents.items }
        ensures within { result < length self.old.parents.items }
        ensures top { slice_index self.new.parents.items result ≡ result }
        ensures kept { (v : ℕ) → slice_index self.old.parents.items v ≡ v
            → slice_index self.new.parents.items v ≡ v }
        ensures labels { (labels : List ℕ) → AreRoots self.old.parents.items labels
            → AreRoots self.new.parents.items labels × (result ≡ slice_index labels node) }
    {
        let mut at = node;
        while self.parents[at as usize] != at {
            let above = self.parents[at as usize];
            let next = self.parents[above as usize];
            self.parents[at as usize] = next;
            at = next;
        }
        at
    }

    /// Makes one set of the sets that the nodes are in. Nothing is done where they have one parent.
    #[tactic(auto, using(crate::proofs::Trees::joined_already))]
    pub(crate) fn join(&mut self, a: u32, b: u32)
        requires a_within { a < length self.old.parents.items }
        requires b_within { b < length self.old.parents.items }
        requires forest { IsForest self.old.parents.items }
        ensures length { length self.new.parents.items ≡ length self.old.parents.items }
        ensures forest { IsForest self.new.parents.items }
        ensures joined { (before : List ℕ) → AreRoots self.old.parents.items before
            → (after : List ℕ) × AreRoots self.new.parents.items after × AreJoined a b before after }
    {
        if self.parents[a as usize] != self.parents[b as usize] {
            self.join_roots(a, b);
        }
    }

    /// Makes one set of the sets that the nodes are in, by their roots.
    fn join_roots(&mut self, a: u32, b: u32)
        requires a_within { a < length self.old.parents.items }
        requires b_within { b < length self.old.parents.items }
        requires forest { IsForest self.old.parents.items }
        ensures length { length self.new.parents.items ≡ length self.old.parents.items }
        ensures forest { IsForest self.new.parents.items }
        ensures joined { (before : List ℕ) → AreRoots self.old.parents.items before
            → (after : List ℕ) × AreRoots self.new.parents.items after × AreJoined a b before after }
    {
        let one = self.root(a);
        let other = self.root(b);
        if one < other {
            self.parents[other as usize] = one;
        } else {
            self.parents[one as usize] = other;
        }
    }

    /// The root of each node.
    pub(crate) fn into_labels(mut self, alloc: Global) -> Result<Vec<u32>, NoMemory>
        requires few { length self.parents.items < 2 ^ 32 }
        requires forest { IsForest self.parents.items }
        ensures below { IfOk result (λ found.
            All (λ label. label < length self.parents.items) found.items) }
        ensures labels { IfOk result (λ found.
            (labels : List ℕ) → AreRoots self.parents.items labels → found.items ≡ labels) }
    {
        let nodes = self.parents.len() as u32;
        let mut labels = Vec::with_capacity(alloc, nodes as usize)?;
        for node in 0..nodes {
            labels.push(self.root(node))?;
        }
        Ok(labels)
    }
}
