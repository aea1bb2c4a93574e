//! The links of a cluster: one from each node to each, itself included.

ghost use Rattle.std.specs.Prelude.{◌≡◌, ◌<◌};
ghost use Rattle.mx_stamps.specs.Links.{link_of};

use crate::limits::MAX_NODES;
use crate::node_id::NodeId;

/// The number of links in the greatest cluster.
pub const LINKS: usize = 441;

/// Returns the index of the link from one node to another, in lists of all links.
pub fn link(from: NodeId, to: NodeId) -> usize
    ensures value { result ≡ link_of from to }
    ensures below { result < LINKS }
{
    usize::from(from.get()) * usize::from(MAX_NODES) + usize::from(to.get())
}
