//! Why nodes, edges and a holder are no tree.

use thiserror::Error;

/// Why no tree has these nodes, these edges and this holder: the first fault, in this order.
#[derive(Clone, Copy, Debug, PartialEq, Eq, Drop, Error)]
pub enum TreeFault {
    /// There are 0 nodes.
    #[error("no nodes")]
    NoNodes,
    /// There are more than 21 nodes.
    #[error("too many")]
    TooMany,
    /// The first edge, counted from 0, with an end that is no node or with equal ends.
    #[error("bad edge {0}")]
    BadEdge(u64),
    /// The number of edges is not one less than the number of nodes.
    #[error("wrong count")]
    WrongCount,
    /// The first node with no path to node 0.
    #[error("not joined {0}")]
    NotJoined(u8),
    /// The holder is no node.
    #[error("bad holder")]
    BadHolder,
}
