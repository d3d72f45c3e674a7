//! Numbers in a tree, so that the least is always known.
ghost use Rattle.std.specs.Prelude.{◌≡◌, ◌*◌, ◌/◌, ◌^◌, ◌<◌, ◌≤◌, drop, length, replicate, slice_index, slice_set};
ghost use Rattle.std.specs.Prelude.{EachIndex, IfOk, IfSome, IfNone};
ghost use Rattle.timers.specs.Tree.{AreLesser, AreLesserBut};

use std::alloc::{AllocError, Global};
use std::marker::Model;

/// At least one number, and a tree above them: node 1 is its root, the nodes `2 * i` and `2 * i + 1`
/// are below node i, and the numbers are its leaves. Each other node is the lesser of the two below
/// it, so the root is the least number.
#[derive(Drop)]
pub(crate) struct Tree {
    // the leaves last; node 0 is unused
    nodes: Vec<u64>,
    leaves: usize,
}

impl Model for Tree {
    ghost use Rattle.std.specs.Prelude.{ℕ, List, drop};
    ghost use Rattle.timers.specs.Tree.{IsTree};

    ghost Value = { List ℕ };

    ghost view = { λ t. drop t.leaves t.nodes.items };

    ghost invariant = { λ t. IsTree t.leaves t.nodes.items };
}

impl Tree {
    /// So many numbers, all of them this one.
    pub(crate) fn new(alloc: Global, leaves: usize, number: u64) -> Result<Tree, AllocError>
        requires least { 1 ≤ leaves }
        requires most { 2 * leaves < 2 ^ 64 }
        ensures { IfOk result (λ tree. tree ≡ replicate leaves number) }
    {
        let nodes = Vec::from_elem(alloc, number, 2 * leaves)?;
        Ok(Tree { nodes, leaves })
    }

    /// How many numbers there are.
    pub(crate) fn count(&self) -> usize
        ensures { result ≡ length self.now }
    {
        self.leaves
    }

    pub(crate) fn get(&self, leaf: usize) -> u64
        requires { leaf < length self.now }
        ensures { result ≡ slice_index self.now leaf }
    {
        self.nodes[self.leaves + leaf]
    }

    pub(crate) fn set(&mut self, leaf: usize, number: u64)
        requires { leaf < length self.old }
        ensures { self.new ≡ slice_set self.old leaf number }
    {
        let node = self.leaves + leaf;
        self.nodes[node] = number;
        carry_up(self.nodes.as_mut_slice(), self.leaves, node);
    }

    /// A leaf with the least number; `None` exactly where no number is below the limit.
    pub(crate) fn least_below(&self, limit: u64) -> Option<usize>
        ensures none { IfNone result (EachIndex self.now (λ k. limit ≤ slice_index self.now k)) }
        ensures within { IfSome result (λ leaf. leaf < length self.now) }
        ensures below { IfSome result (λ leaf. slice_index self.now leaf < limit) }
        ensures least { IfSome result (λ leaf. EachIndex self.now (λ k. slice_index self.now leaf ≤ slice_index self.now k)) }
    {
        if self.nodes[1] >= limit {
            return None;
        }
        let node = least_node(self.nodes.as_slice(), self.leaves);
        Some(node - self.leaves)
    }
}

/// Makes each node above the changed one the lesser of the two below it again, up to the first that
/// stays as it is.
fn carry_up(nodes: &mut [u64], leaves: usize, changed: usize)
    requires nodes { length nodes.old ≡ 2 * leaves }
    requires changed { changed < 2 * leaves }
    requires others { AreLesserBut leaves (changed / 2) nodes.old }
    ensures lesser { AreLesser leaves nodes.new }
    ensures leaves { drop leaves nodes.new ≡ drop leaves nodes.old }
{
    let mut node = changed / 2;
    while node > 0 {
        let lesser = nodes[2 * node].min(nodes[2 * node + 1]);
        if nodes[node] == lesser {
            return;
        }
        nodes[node] = lesser;
        node /= 2;
    }
}

/// The node of a leaf with the least number: down from the root, always to a node as low as the root.
fn least_node(nodes: &[u64], leaves: usize) -> usize
    requires some { 1 ≤ leaves }
    requires nodes { length nodes.now ≡ 2 * leaves }
    requires lesser { AreLesser leaves nodes.now }
    ensures leaf { leaves ≤ result }
    ensures within { result < 2 * leaves }
    ensures least { slice_index nodes.now result ≡ slice_index nodes.now 1 }
{
    let mut node = 1;
    while node < leaves {
        node *= 2;
        if nodes[node] != nodes[1] {
            node += 1;
        }
    }
    node
}
