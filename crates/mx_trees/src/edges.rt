//! The checks of a list of edges, and the neighbours that it defines.

ghost use Rattle.std.specs.Prelude.{ℕ, ◌≡◌, ◌≤◌, ◌↔◌, true, false, [], length, slice_index_or, IfNone, IfSome};
ghost use Rattle.mx_trees.specs.Tree.{IsSquare};
ghost use Rattle.mx_trees.specs.Edges.{IsLinked, AreEdges, AreJoined, IsFirstBadEdge, IsFirstUnjoined};

use crate::growth::Growth;
use mx_stamps::MAX_NODES;

/// Returns the first edge with an end that is no node, or with equal ends.
pub fn bad_edge(nodes: u8, edges: &[(u8, u8)]) -> Option<u64>
    ensures none { IfNone result (AreEdges nodes (length edges.now) edges.now) }
    ensures some { IfSome result (λ k. IsFirstBadEdge nodes edges.now k) }
{
    for (k, &(a, b)) in edges.iter().enumerate() {
        if a >= nodes || b >= nodes || a == b {
            return Some(k as u64);
        }
    }
    None
}

/// Returns the first node with no path to node 0.
pub fn unjoined(nodes: u8, edges: &[(u8, u8)]) -> Option<u8>
    requires few { nodes ≤ MAX_NODES }
    requires edges { AreEdges MAX_NODES (length edges.now) edges.now }
    ensures none { IfNone result (AreJoined nodes edges.now) }
    ensures some { IfSome result (λ i. IsFirstUnjoined nodes edges.now i) }
{
    let growth = Growth::from(edges, 0);
    for i in 0..nodes {
        if !growth.has(i) {
            return Some(i);
        }
    }
    None
}

/// Returns for each node which nodes are its neighbours.
pub fn neighbours(edges: &[(u8, u8)]) -> [[bool; MAX_NODES as usize]; MAX_NODES as usize]
    requires { AreEdges MAX_NODES (length edges.now) edges.now }
    ensures square { IsSquare result }
    ensures near { (i j : ℕ) →
        (slice_index_or (slice_index_or result i []) j false ≡ true) ↔ IsLinked edges.now i j }
{
    let mut rows = [[false; MAX_NODES as usize]; MAX_NODES as usize];
    for &(a, b) in edges {
        rows[a as usize][b as usize] = true;
        rows[b as usize][a as usize] = true;
    }
    rows
}
