ghost use Rattle.std.specs.Prelude.{◌≡◌, ◌<◌, ◌↔◌, IsSome, IfSome, Some, decimal};

use crate::limits::MAX_NODES;
use std::fmt;
use std::marker::Model;

/// The number of a node, from 0 to 20.
#[derive(Clone, Copy, Debug, Default, PartialEq, Eq, PartialOrd, Ord, Hash)]
pub struct NodeId {
    index: u8,
}

impl Model for NodeId {
    ghost use Rattle.std.specs.Prelude.{ℕ, ◌<◌};
    ghost use Rattle.mx_stamps.specs.declared.limits.TheConstants.{MAX_NODES};

    ghost Value = { ℕ };

    ghost view = { λ n. n.index };

    ghost invariant = { λ n. n.index < MAX_NODES };

    ghost inverse = { λ n. record { index = n } };
}

impl NodeId {
    /// Returns the node with this number. Returns `None` from 21 on: no cluster has such a node.
    pub fn of(index: u8) -> Option<NodeId>
        ensures some { IsSome result ↔ (index < MAX_NODES) }
        ensures value { IfSome result (λ n. n ≡ index) }
    {
        if index < MAX_NODES {
            Some(NodeId { index })
        } else {
            None
        }
    }

    /// Returns the number.
    pub fn get(self) -> u8
        ensures value { result ≡ self }
        ensures bound { result < MAX_NODES }
    {
        self.index
    }
}

impl fmt::Display for NodeId {
    ghost output = { λ n. Some (decimal n) };

    fn fmt<W: fmt::Write>(&self, f: &mut fmt::Formatter<W>) -> fmt::Result {
        fmt::Display::fmt(&self.get(), f)
    }
}
