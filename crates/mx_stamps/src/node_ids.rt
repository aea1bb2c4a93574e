ghost use Rattle.std.specs.Prelude.{◌≡◌, ◌≤◌};
ghost use Rattle.std.specs.List.{range_with_len};

use crate::limits::MAX_NODES;
use crate::node_id::NodeId;
use std::marker::Model;

/// The nodes of a cluster, in order: an iterator.
#[derive(Drop)]
pub struct NodeIds {
    next: u8,
    end: u8,
}

impl Model for NodeIds {
    ghost use Rattle.std.specs.Prelude.{ℕ, List, ◌-◌, ◌≤◌};
    ghost use Rattle.std.specs.List.{range_with_len};
    ghost use Rattle.mx_stamps.specs.declared.limits.TheConstants.{MAX_NODES};

    ghost Value = { List ℕ };

    ghost view = { λ ids. range_with_len ids.next (ids.end - ids.next) };

    ghost invariant = { λ ids. ids.end ≤ MAX_NODES };
}

impl NodeIds {
    /// Returns the nodes below this number: at most 21.
    pub fn below(count: u8) -> NodeIds
        ensures { count ≤ MAX_NODES → result ≡ range_with_len 0 count }
    {
        NodeIds {
            next: 0,
            end: count.min(MAX_NODES),
        }
    }
}

impl Iterator for NodeIds {
    type Item = NodeId;

    ghost use Rattle.std.specs.Iterator.{YieldsFirst, item_count};

    ghost next_gives = { YieldsFirst (λ ids. ids) };

    ghost remaining = { item_count (λ ids. ids) };

    fn next(&mut self) -> Option<NodeId> {
        if self.next >= self.end {
            return None;
        }
        let node = NodeId::of(self.next)?;
        self.next += 1;
        Some(node)
    }
}
