//! Why sets are no family of arbiter sets.

use thiserror::Error;

/// The first rule that the sets of arbiters break, in this order. The numbers are those of nodes:
/// their places in the list of sets.
#[derive(Clone, Copy, Debug, PartialEq, Eq, Error)]
pub enum QuorumFault {
    /// There is no node.
    #[error("no nodes")]
    NoNodes,
    /// There are more than 21 nodes.
    #[error("too many")]
    TooMany,
    /// The set of this node is empty. It is the least such node.
    #[error("empty set {0}")]
    EmptySet(u8),
    /// The set of the first node lists the second number, which is no node. The first is the least
    /// such node, and the second the first such member in its list.
    #[error("stranger {0} {1}")]
    Stranger(u8, u8),
    /// This node is not in its own set. It is the least such node.
    #[error("not own member {0}")]
    NotOwnMember(u8),
    /// The sets of these two nodes have no member in common. They are the least such pair, by the
    /// first and then by the second.
    #[error("apart {0} {1}")]
    Apart(u8, u8),
    /// No plane of this number of nodes is known here.
    #[error("no plane {0}")]
    NoPlane(u8),
}
