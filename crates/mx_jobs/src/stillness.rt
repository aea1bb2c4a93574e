//! Which stations tick once all nodes of a run rest.

use mx_stamps::{MAX_NODES, NodeId, NodeIds};
use mx_stations::Pause;
use std::sync::atomic::{AtomicU64, Ordering};

/// How many times in sequence only two nodes tick, before all nodes do.
const TRIES: u64 = 2;

/// What the gate knows of the nodes once all rest, although some of them wait: a parcel was lost, and
/// its sender has to tick.
///
/// If all nodes ticked then, a run of many nodes would send little else. Nodes enter in the order in
/// which they asked, at least about. So the lost parcel most often is one of the node that waits
/// longest, or of the node that entered last. All nodes tick if these two did so in vain.
#[derive(Drop)]
pub(crate) struct Stillness {
    /// For each node, the number of its last section, at its last rest.
    sections: [AtomicU64; 21],
    /// The bits of the nodes that waited for a section or were inside, at their last rest.
    waiting: AtomicU64,
    /// The greatest section number when all nodes rested last.
    latest: AtomicU64,
    /// How often all nodes have rested since that number grew.
    tries: AtomicU64,
}

impl Stillness {
    pub(crate) fn new() -> Stillness {
        Stillness {
            sections: std::array::from_fn(|_node| AtomicU64::new(0)),
            waiting: AtomicU64::new(0),
            latest: AtomicU64::new(0),
            tries: AtomicU64::new(0),
        }
    }

    /// Notes what the worker of a node tells when it rests.
    pub(crate) fn note(&self, node: NodeId, pause: &Pause) {
        if let Some(section) = self.sections.get(node.get() as usize) {
            section.store(pause.section, Ordering::SeqCst);
        }
        put_bits(&self.waiting, 1 << node.get(), pause.is_waiting);
    }

    /// Returns the bits of the nodes that tick now, all of them among `everyone`.
    pub(crate) fn who_ticks(&self, everyone: u64) -> u64 {
        let waiting = self.waiting.load(Ordering::SeqCst);
        let (mut earliest, mut first) = (u64::MAX, 0);
        let (mut latest, mut last) = (0, 0);
        for (node, section) in NodeIds::below(MAX_NODES).zip(self.sections.iter()) {
            let bit = everyone & 1 << node.get();
            let section = section.load(Ordering::SeqCst);
            if bit & waiting != 0 && section < earliest {
                (earliest, first) = (section, bit);
            }
            if bit != 0 && section >= latest {
                (latest, last) = (section, bit);
            }
        }
        if self.is_in_vain(latest) {
            everyone
        } else {
            first | last
        }
    }

    /// Returns whether `TRIES` times in sequence no new section followed. `latest` is the greatest
    /// section number.
    fn is_in_vain(&self, latest: u64) -> bool {
        let is_new = self.latest.swap(latest, Ordering::SeqCst) != latest;
        let tries = self.tries.load(Ordering::SeqCst);
        let is_in_vain = !is_new && tries >= TRIES;
        let more = if is_new || is_in_vain {
            1
        } else {
            tries.saturating_add(1)
        };
        self.tries.store(more, Ordering::SeqCst);
        is_in_vain
    }
}

/// Sets or clears these bits of a word.
pub(crate) fn put_bits(word: &AtomicU64, bits: u64, are_set: bool) {
    if are_set {
        word.fetch_or(bits, Ordering::SeqCst);
    } else {
        word.fetch_and(!bits, Ordering::SeqCst);
    }
}
