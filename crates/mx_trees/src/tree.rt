ghost use Rattle.std.specs.Prelude.{ℕ, ◌≡◌, ◌≢◌, ◌<◌, ◌≤◌, ◌↔◌, true, IsOk, IfOk, IfErr, IsErrOf};
ghost use Rattle.mx_trees.specs.Edges.{IsTree, IsTreeOf, IsFirstFault};
ghost use Rattle.mx_trees.specs.Tree.{toward_of, are_neighbours, IsToward, IsRooted, Rooted};

use crate::edges::{bad_edge, neighbours, unjoined};
use crate::fault::TreeFault;
use crate::growth::Growth;
use mx_stamps::{MAX_NODES, NodeId};
use std::marker::Model;

/// A rooted tree of 1 to 21 nodes; the root holds the privilege at the start (Raymond 1989).
#[derive(Clone, Copy, Debug, PartialEq, Eq)]
pub struct Tree {
    nodes: u8,
    holder: NodeId,
    neighbours: [[bool; MAX_NODES as usize]; MAX_NODES as usize],
    next: [u8; MAX_NODES as usize],
}

impl Model for Tree {
    ghost use Rattle.mx_trees.specs.Tree.{Rooted, IsRooted};

    ghost Value = { Rooted };

    ghost view = { λ t. record {
      count = t.nodes;
      holder = t.holder;
      rows = t.neighbours;
      next = t.next;
    } };

    ghost invariant = { λ t.
        IsRooted (record { count = t.nodes; holder = t.holder; rows = t.neighbours; next = t.next }) };

    ghost inverse = { λ r. record {
      nodes = r.count;
      holder = r.holder;
      neighbours = r.rows;
      next = r.next;
    } };
}

fn checked(nodes: u8, edges: &[(u8, u8)], holder: u8) -> Result<NodeId, TreeFault>
    ensures tree { IfOk result (λ root. IsTree nodes edges.now × (holder < nodes)) }
    ensures root { IfOk result (λ root. root ≡ holder) }
    ensures fault { IfErr result (λ fault. IsFirstFault nodes edges.now holder fault) }
{
    if nodes == 0 {
        return Err(TreeFault::NoNodes);
    }
    if nodes > MAX_NODES {
        return Err(TreeFault::TooMany);
    }
    if let Some(k) = bad_edge(nodes, edges) {
        return Err(TreeFault::BadEdge(k));
    }
    if edges.len() != (nodes - 1) as usize {
        return Err(TreeFault::WrongCount);
    }
    if let Some(i) = unjoined(nodes, edges) {
        return Err(TreeFault::NotJoined(i));
    }
    if holder >= nodes {
        return Err(TreeFault::BadHolder);
    }
    NodeId::of(holder).ok_or(TreeFault::BadHolder)
}

impl Tree {
    /// Creates the tree with these edges, each between two nodes that become neighbours.
    ///
    /// # Errors
    ///
    /// Returns the first fault, in the order of `TreeFault`, with its least witness.
    pub fn of(nodes: u8, edges: &[(u8, u8)], holder: u8) -> Result<Tree, TreeFault>
        ensures ok { IsOk result ↔ (IsTree nodes edges.now × (holder < nodes)) }
        ensures value { IfOk result (λ t. IsTreeOf nodes edges.now holder t) }
        // any valid tree of these edges is this one
        ensures only { IfOk result (λ t. (u : Rooted) → IsRooted u →
            IsTreeOf nodes edges.now holder u → u ≡ t) }
        // the first fault in their order, with its least witness; there is at most one
        ensures fault { (fault : TreeFault) →
            IsErrOf result fault ↔ IsFirstFault nodes edges.now holder fault }
    {
        let root = checked(nodes, edges, holder)?;
        let growth = Growth::from(edges, holder);
        let next = growth.next;
        let neighbours = neighbours(edges);
        Ok(Tree {
            nodes,
            holder: root,
            neighbours,
            next,
        })
    }

    /// Returns the number of nodes.
    pub fn nodes(&self) -> u8
        ensures value { result ≡ self.now.count }
        ensures low { 0 < result }
        ensures high { result ≤ MAX_NODES }
        ensures valid { IsRooted self.now }
    {
        self.nodes
    }

    /// Returns the node that holds the privilege at the start.
    pub fn holder(&self) -> NodeId
        ensures value { result ≡ self.now.holder }
        ensures node { result < self.now.count }
    {
        self.holder
    }

    /// Returns the neighbour of a node on the path to the holder. For the holder, returns the
    /// holder itself.
    pub fn toward(&self, i: NodeId) -> NodeId
        requires { i < self.now.count }
        ensures value { result ≡ toward_of self.now i }
        ensures node { result < self.now.count }
        ensures toward { IsToward self.now i result }
        ensures only { (k : ℕ) → IsToward self.now i k → k ≡ result }
    {
        NodeId::of(self.next[i.get() as usize]).unwrap()
    }

    /// Returns whether nodes i and j are neighbours. Returns `false` if either is no node of the
    /// tree.
    pub fn neighbours(&self, i: NodeId, j: NodeId) -> bool
        ensures value { result ≡ are_neighbours self.now i j }
        ensures nodes { result ≡ true → (i < self.now.count) × (j < self.now.count) × (i ≢ j) }
        ensures both { result ≡ are_neighbours self.now j i }
    {
        self.neighbours[i.get() as usize][j.get() as usize]
    }
}
