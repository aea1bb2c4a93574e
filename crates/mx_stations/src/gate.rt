//! The gate of workers, and the bells by which they rest.

use mx_stamps::NodeId;
use std::thread::yield_now;

/// Decides when workers may start, and when they may stop. A gate may also have a bell for each
/// node, by which its worker rests between two turns. All calls but `ring` and `listen` may wait
/// for other workers.
pub trait Gate {
    /// Returns whether the worker of this node may start. Called once, before the first act.
    fn arrive(&self, node: NodeId) -> bool;

    /// Returns whether the worker of this node may stop. Called at the end of each turn, once the
    /// node has left all its sections.
    fn done(&self, node: NodeId) -> bool;

    /// Lets the worker of this node rest until its bell is rung, or until its station may tick. A
    /// brief rest ends soon. A gate without bells lets other threads run once.
    fn rest(&self, _node: NodeId, _pause: &Pause) -> Rest {
        yield_now();
        Rest::Yielded
    }

    /// Rings the bell of a node. This ends its rest, or the next one as soon as that begins.
    fn ring(&self, _node: NodeId, _news: News) {}

    /// Decides whether the bell of this node is rung for `News::Room` too.
    fn listen(&self, _node: NodeId, _listens: bool) {}
}

/// What a worker tells of its node when it rests.
#[derive(Clone, Copy, Debug, PartialEq, Eq)]
pub struct Pause {
    /// The number of the node's last section.
    pub section: u64,
    /// Whether the node waits for a section or is inside.
    pub is_waiting: bool,
    /// Whether the rest has to end soon.
    pub is_brief: bool,
}

/// Why the bell of a node is rung.
#[derive(Clone, Copy, Debug, PartialEq, Eq)]
pub enum News {
    /// A parcel for the node lies in a slot.
    Mail,
    /// A parcel of the node was taken from its slot.
    Room,
}

/// How the rest of a worker ended.
#[derive(Clone, Copy, Debug, PartialEq, Eq)]
pub enum Rest {
    /// The gate has no bells. Other threads ran once.
    Yielded,
    /// The bell was rung.
    Rung,
    /// The station may tick.
    Due,
}
