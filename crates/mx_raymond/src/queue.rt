ghost use Rattle.std.specs.Prelude.{ℕ, ◌≡◌, false, [], ◌∷◌, ◌++◌, Some, IfOk};
ghost use Rattle.mx_raymond.specs.Queue.{is_queued, is_empty, head_of, rest_of, joined, queue_items, without};

use arrayvec::ArrayVec;
use mx_knowledge::Item;
use mx_stamps::{MAX_NODES, NodeId};
use std::alloc::{AllocError, Global};
use std::marker::Model;

/// The greatest length: each node is in the queue at most once.
const MAX_NAMES: usize = MAX_NODES as usize;

/// The nodes that want the privilege from a node, the oldest first. They are its neighbours and the
/// node itself, each at most once.
#[derive(Drop)]
pub struct Queue {
    names: ArrayVec<NodeId, MAX_NAMES>,
}

impl Model for Queue {
    ghost use Rattle.std.specs.Prelude.{ℕ, List};
    ghost use Rattle.mx_raymond.specs.Queue.{IsQueue};

    ghost Value = { List ℕ };

    ghost view = { λ q. q.names.items };

    ghost invariant = { λ q. IsQueue q.names.items };
}

impl Queue {
    /// Creates an empty queue.
    pub fn new() -> Queue
        ensures { result ≡ [] }
    {
        Queue {
            names: ArrayVec::new(),
        }
    }

    /// Returns whether the queue is empty.
    pub fn is_empty(&self) -> bool
        ensures { result ≡ is_empty self.now }
    {
        self.names.is_empty()
    }

    /// Returns whether the queue contains this node.
    pub fn contains(&self, node: NodeId) -> bool
        ensures { result ≡ is_queued self.now node }
    {
        self.names.iter().any(|name| node.get() == name.get())
    }

    /// Returns the oldest node, or `None` if the queue is empty.
    pub fn head(&self) -> Option<NodeId>
        ensures { result ≡ head_of self.now }
    {
        self.names.as_slice().first().copied()
    }

    /// Returns the nodes as the values of a fact.
    ///
    /// # Errors
    ///
    /// Returns `AllocError` if memory runs out.
    pub fn items(&self, alloc: Global) -> Result<Vec<Item>, AllocError>
        ensures { IfOk result (λ items. items.items ≡ queue_items self.now) }
    {
        let mut items = Vec::new(alloc);
        for name in self.names.as_slice() {
            items.push(Item::Node(*name))?;
        }
        Ok(items)
    }

    /// Appends a node that is not in the queue. There is room, since no node is in it twice.
    pub fn push(&mut self, node: NodeId)
        requires { is_queued self.old node ≡ false }
        ensures { self.new ≡ self.old ++ node ∷ [] }
    {
        prove!(node.get() < MAX_NODES);
        self.names.push(node);
    }

    /// Appends a node, unless it is in the queue.
    pub fn join(&mut self, node: NodeId)
        ensures { self.new ≡ joined self.old node }
    {
        if !self.contains(node) {
            self.push(node);
        }
    }

    /// Removes a node, wherever it is in the queue.
    pub fn remove(&mut self, node: NodeId)
        ensures value { self.new ≡ without self.old node }
        ensures gone { is_queued self.new node ≡ false }
    {
        self.names.retain(|name| name.get() != node.get());
    }

    /// Removes the oldest node.
    pub fn remove_head(&mut self)
        ensures value { self.new ≡ rest_of self.old }
        ensures once { (node : ℕ) → head_of self.old ≡ Some node → is_queued self.new node ≡ false }
    {
        let _ = self.names.pop_at(0);
    }
}
