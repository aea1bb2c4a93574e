//! A tree that grows from its root along the edges of a graph, until no edge leads out of it.

ghost use Rattle.std.specs.Prelude.{ℕ, ◌≡◌, ◌<◌, List, length, IfNone, IfSome};
ghost use Rattle.mx_trees.specs.Edges.{AreEdges};
ghost use Rattle.mx_trees.specs.Growth.{is_reached, with_node, IsGrown, IsClosed, IsCrossing};

use mx_stamps::MAX_NODES;

/// The nodes that have been reached, each with the node that it was reached from.
#[derive(Clone, Copy)]
pub struct Growth {
    /// For each node, whether it has been reached.
    pub reached: [bool; MAX_NODES as usize],
    /// For each node, the node that it was reached from.
    pub next: [u8; MAX_NODES as usize],
}

impl Growth {
    fn at(root: u8) -> Growth
        requires { root < MAX_NODES }
        ensures { (edges : List (ℕ × ℕ)) → IsGrown edges root result }
    {
        let mut reached = [false; MAX_NODES as usize];
        reached[root as usize] = true;
        Growth {
            reached,
            next: [root; MAX_NODES as usize],
        }
    }

    /// Returns the tree of the root and every node that these edges join to it.
    pub fn from(edges: &[(u8, u8)], root: u8) -> Growth
        requires edges { AreEdges MAX_NODES (length edges.now) edges.now }
        requires root { root < MAX_NODES }
        ensures grown { IsGrown edges.now root result }
        ensures closed { IsClosed edges.now result }
    {
        let mut growth = Growth::at(root);
        while let Some((near, far)) = growth.crossing(edges) {
            growth.add(near, far);
        }
        growth
    }

    /// Returns whether it has reached this node.
    pub fn has(&self, i: u8) -> bool
        requires { i < MAX_NODES }
        ensures { result ≡ is_reached self.now i }
    {
        self.reached[i as usize]
    }

    /// Returns an edge that leads out of it: the end that it has reached, and the other.
    fn crossing(&self, edges: &[(u8, u8)]) -> Option<(u8, u8)>
        requires { AreEdges MAX_NODES (length edges.now) edges.now }
        ensures none { IfNone result (IsClosed edges.now self.now) }
        ensures some { IfSome result (λ e. IsCrossing edges.now self.now e.0 e.1) }
    {
        for &(a, b) in edges {
            if self.has(a) && !self.has(b) {
                return Some((a, b));
            }
            if self.has(b) && !self.has(a) {
                return Some((b, a));
            }
        }
        None
    }

    fn add(&mut self, near: u8, far: u8)
        requires { far < MAX_NODES }
        ensures { self.new ≡ with_node self.old near far }
    {
        self.reached[far as usize] = true;
        self.next[far as usize] = near;
    }
}
