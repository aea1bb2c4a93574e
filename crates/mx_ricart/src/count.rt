ghost use Rattle.std.specs.Prelude.{◌≡◌, ◌<◌, ◌≤◌, ◌↔◌, IsSome, IfSome};

use mx_stamps::MAX_NODES;
use std::marker::Model;

/// The number of nodes in a cluster, from 1 to 21.
#[derive(Clone, Copy, Debug, PartialEq, Eq)]
pub struct Count {
    nodes: u8,
}

impl Model for Count {
    ghost use Rattle.std.specs.Prelude.{ℕ, ◌<◌, ◌≤◌};
    ghost use Rattle.mx_stamps.specs.declared.limits.TheConstants.{MAX_NODES};

    ghost Value = { ℕ };

    ghost view = { λ c. c.nodes };

    ghost invariant = { λ c. (0 < c.nodes) × (c.nodes ≤ MAX_NODES) };

    ghost inverse = { λ n. record { nodes = n } };
}

impl Count {
    /// Creates the count of this number of nodes. Returns `None` if it is 0 or above 21.
    pub fn of(nodes: u8) -> Option<Count>
        ensures some { IsSome result ↔ ((0 < nodes) × (nodes ≤ MAX_NODES)) }
        ensures value { IfSome result (λ c. c ≡ nodes) }
    {
        if nodes > 0 && nodes <= MAX_NODES {
            Some(Count { nodes })
        } else {
            None
        }
    }

    /// Returns the number of nodes.
    pub fn get(self) -> u8
        ensures value { result ≡ self }
        ensures low { 0 < result }
        ensures high { result ≤ MAX_NODES }
    {
        self.nodes
    }
}
