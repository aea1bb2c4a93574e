//! Sets of nodes.

use mx_stamps::NodeId;

/// A set of nodes of one cluster.
#[derive(Clone, Copy, Debug, Default)]
pub(crate) struct NodeSet {
    bits: u32,
}

impl NodeSet {
    pub(crate) fn add(&mut self, node: NodeId) {
        self.bits |= 1 << node.get();
    }

    pub(crate) fn has(&self, node: NodeId) -> bool {
        self.bits >> node.get() & 1 == 1
    }

    pub(crate) fn has_other_than(&self, node: NodeId) -> bool {
        self.bits & !(1 << node.get()) != 0
    }
}
