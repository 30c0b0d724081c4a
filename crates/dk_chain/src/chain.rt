//! The changes of one vector.
ghost use Rattle.std.specs.Prelude.{◌≡◌, ◌<◌, ◌∷◌, ◌++◌, ℕ, ◌↔◌, [], Bool, true, Some, length, slice_get, IsTrue, OnOk, OnErr, if◌then◌else◌};
ghost use Rattle.dk_stamp.specs.declared.snapshot.TheConstants.{NEVER as UNDONE};
ghost use Rattle.dk_stamp.specs.Sees.{sees};
ghost use Rattle.dk_chain.specs.Nodes.{nodes_at, with_node, oldest_unseen, newest_stamp, unseen_in, stamp_in, has_stamp, oldest_restamped, newest_restamped, last_restamped, first_restamped, oldest_has, newest_has, above, row_above, done, row_done};

use crate::node::Node;
use dk_rows::RowRef;
use dk_stamp::{NEVER, Snapshot};
use dk_values::OutOfMemory;
use std::alloc::Global;
use std::marker::Model;

/// The changes of one vector, seen as the list of their nodes, oldest first. A node that was undone keeps its place,
/// with a stamp that nobody sees, until it is taken out.
#[derive(Drop)]
pub struct Chain {
    nodes: Vec<Node>,
}

impl Model for Chain {
    ghost use Rattle.std.specs.Prelude.{List};
    ghost use Rattle.dk_chain.specs.declared.node.Node.{Node as StoredNode};

    ghost Value = { List StoredNode };

    ghost view = { λ chain. chain.nodes.items };
}

impl Chain {
    /// No changes. It takes no memory yet.
    pub fn new(alloc: Global) -> Chain
        ensures { result ≡ [] }
    {
        Chain {
            nodes: Vec::new(alloc),
        }
    }

    pub fn is_empty(&self) -> bool
        ensures { IsTrue result ↔ (self.now ≡ []) }
    {
        self.nodes.is_empty()
    }

    /// How many changes there are.
    pub fn len(&self) -> usize
        ensures { result ≡ length self.now }
    {
        self.nodes.len()
    }

    /// Lends the i-th change, counted from 0, the oldest first.
    pub fn get(&self, i: usize) -> &Node
        requires { i < length self.now }
        ensures { slice_get self.now i ≡ Some result.now }
    {
        &self.nodes[i]
    }

    /// Lends what putting back the unseen nodes, newest first, leaves of a row: the old row of the oldest of them.
    pub fn old(&self, row: u16, snapshot: &Snapshot) -> Option<RowRef<'_>>
        ensures { result ≡ oldest_unseen (sees snapshot.now) (nodes_at row self.now) }
    {
        find_old(self.nodes.as_slice(), row, snapshot)
    }

    /// The stamp of the newest node that has a row and was not undone.
    pub fn newest(&self, row: u16) -> Option<u64>
        ensures { result ≡ newest_stamp (nodes_at row self.now) }
    {
        find_newest(self.nodes.as_slice(), row)
    }

    /// Puts a change on all others.
    #[tactic(auto, using(crate::proofs::NodeLemmas::nodes_push))]
    pub fn push(&mut self, node: Node) -> Result<(), OutOfMemory>
        ensures ok { OnOk result (self.new ≡ self.old ++ node ∷ []) }
        ensures rows { OnOk result ((row : ℕ) → nodes_at row self.new ≡ with_node row node (nodes_at row self.old)) }
        ensures err { OnErr result (self.new ≡ self.old) }
    {
        self.nodes.push(node).map_err(|_| OutOfMemory)
    }

    /// Gives the oldest node of a transaction its commit's number.
    #[tactic(auto, using(crate::proofs::StampLemmas::stamps))]
    pub fn stamp_one(&mut self, id: u64, number: u64)
        ensures nodes { self.new ≡ oldest_restamped id number self.old }
        ensures rows { (row : ℕ) → nodes_at row self.new ≡ (if oldest_has row id self.old
            then last_restamped id number (nodes_at row self.old) else nodes_at row self.old) }
    {
        stamp_oldest(&mut self.nodes, id, number);
    }

    /// Undoes the newest node of a transaction: its stamp becomes one that nobody sees.
    #[tactic(auto, using(crate::proofs::StampLemmas::undoes))]
    pub fn undo_one(&mut self, id: u64)
        ensures nodes { self.new ≡ newest_restamped id UNDONE self.old }
        ensures rows { (row : ℕ) → nodes_at row self.new ≡ (if newest_has row id self.old
            then first_restamped id UNDONE (nodes_at row self.old) else nodes_at row self.old) }
    {
        stamp_newest(&mut self.nodes, id, NEVER);
    }

    /// Takes away the nodes whose stamp is at most the bound.
    #[tactic(auto, using(crate::proofs::StampLemmas::drops))]
    pub fn drop_old(&mut self, bound: u64)
        ensures nodes { self.new ≡ above bound self.old }
        ensures rows { (row : ℕ) → nodes_at row self.new ≡ row_above bound (nodes_at row self.old) }
    {
        keep_above(&mut self.nodes, bound);
    }

    /// Takes away the nodes that were undone.
    #[tactic(auto, using(crate::proofs::StampLemmas::clears))]
    pub fn drop_undone(&mut self)
        ensures nodes { self.new ≡ done self.old }
        ensures rows { (row : ℕ) → nodes_at row self.new ≡ row_done (nodes_at row self.old) }
    {
        keep_done(&mut self.nodes);
    }
}

/// Gives the oldest node of a stamp another one.
fn stamp_oldest(nodes: &mut Vec<Node>, from: u64, to: u64)
    ensures { nodes.new.items ≡ oldest_restamped from to nodes.old.items }
{
    'nodes: for i in 0..nodes.len() {
        if nodes[i].stamp == from {
            nodes[i].stamp = to;
            return;
        }
    }
}

/// Keeps the nodes above a bound.
fn keep_above(nodes: &mut Vec<Node>, bound: u64)
    ensures { nodes.new.items ≡ above bound nodes.old.items }
{
    nodes.retain(|node| bound < node.stamp);
}

/// Keeps the nodes that were not undone.
fn keep_done(nodes: &mut Vec<Node>)
    ensures { nodes.new.items ≡ done nodes.old.items }
{
    nodes.retain(|node| node.stamp != NEVER);
}

/// Gives the newest node of a stamp another one.
fn stamp_newest(nodes: &mut Vec<Node>, from: u64, to: u64)
    ensures { nodes.new.items ≡ newest_restamped from to nodes.old.items }
{
    'nodes: for k in 0..nodes.len() {
        let i = nodes.len() - 1 - k;
        if nodes[i].stamp == from {
            nodes[i].stamp = to;
            return;
        }
    }
}

/// Lends what the oldest unseen node of a row replaced in it.
#[tactic(auto, using(crate::proofs::NodeLemmas::unseen_next, crate::proofs::NodeLemmas::unseen_here))]
fn find_old<'a>(nodes: &'a [Node], row: u16, snapshot: &Snapshot) -> Option<RowRef<'a>>
    ensures { result ≡ oldest_unseen (sees snapshot.now) (nodes_at row nodes.now) }
{
    'nodes: for i in 0..nodes.len() {
        if let Some(old) = unseen_old(&nodes[i], row, snapshot) {
            return Some(old);
        }
    }
    None
}

/// Lends what a node replaced in a row, if the node is unseen and has the row.
fn unseen_old<'a>(node: &'a Node, row: u16, snapshot: &Snapshot) -> Option<RowRef<'a>>
    ensures { result ≡ unseen_in (sees snapshot.now) row node.now }
{
    if snapshot.sees(node.stamp) {
        None
    } else {
        node.old(row)
    }
}

/// The stamp of the newest node that has a row and was not undone.
#[tactic(auto, using(crate::proofs::NodeLemmas::newest_next, crate::proofs::NodeLemmas::newest_here))]
fn find_newest(nodes: &[Node], row: u16) -> Option<u64>
    ensures { result ≡ newest_stamp (nodes_at row nodes.now) }
{
    'nodes: for k in 0..nodes.len() {
        if let Some(stamp) = stamp_if(&nodes[nodes.len() - 1 - k], row) {
            return Some(stamp);
        }
    }
    None
}

/// The stamp of a node, if it has a row and was not undone.
fn stamp_if(node: &Node, row: u16) -> Option<u64>
    ensures { result ≡ stamp_in row node.now }
{
    if node.stamp == NEVER || node.old(row).is_none() {
        None
    } else {
        Some(node.stamp)
    }
}
