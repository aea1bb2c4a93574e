//! A node: a requester and an arbiter.

use crate::arbiter::Arbiter;
use crate::requester::Requester;
use mx_quorums::Quorums;
use mx_stamps::{NodeId, Stamp};
use std::marker::Model;

/// A node of Maekawa's algorithm. Its calls are those of `Exclusion`.
#[derive(Drop)]
pub struct Maekawa {
    /// The arbiters of every node, and so the sets that this node is in.
    pub(crate) quorums: Quorums,
    /// The node as a requester: its request, and the grants that it holds.
    pub(crate) requester: Requester,
    /// The node as an arbiter: the grants that it gave, also to itself.
    pub(crate) arbiter: Arbiter,
}

impl Model for Maekawa {
    ghost use Rattle.mx_maekawa.specs.Node.{Node};

    ghost Value = { Node };

    ghost view = { λ m. record {
      quorums = m.quorums;
      requester = m.requester;
      arbiter = m.arbiter;
    } };
}

impl Maekawa {
    ghost use Rattle.std.specs.Prelude.{◌≡◌};
    ghost use Rattle.mx_maekawa.specs.Step.{is_answer, is_call};

    /// Returns whether the requester takes a letter of this sender about this stamp: the sender is
    /// one of its arbiters, and the stamp is its own.
    pub(crate) fn is_answer(&self, from: NodeId, stamp: &Stamp) -> bool
        ensures { result ≡ is_answer self.now from stamp.now }
    {
        self.requester.is_own(from) && stamp.node.get() == self.requester.me().get()
    }

    /// Returns whether the arbiter takes a letter of this sender about this stamp: it is in the
    /// sender's set, and the stamp is the sender's.
    pub(crate) fn is_call(&self, from: NodeId, stamp: &Stamp) -> bool
        ensures { result ≡ is_call self.now from stamp.now }
    {
        self.quorums.has(from, self.requester.me()) && stamp.node.get() == from.get()
    }
}
