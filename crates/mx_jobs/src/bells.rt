//! The bells of a run, by which its workers rest between two turns.

use crate::adaptive_spin::{AdaptiveSpin, is_set};
use crate::stillness::{Stillness, put_bits};
use mx_stamps::{MAX_NODES, NodeId, NodeIds};
use mx_stations::{News, Pause, Rest};
use std::rt::Clock;
use std::sync::Wait;
use std::sync::atomic::{AtomicU64, Ordering};
use std::time::Duration;

/// By this number of bits, the bit of a rung bell lies to the left of that of a node that rests.
const RUNG: u64 = 32;

const AWAKE: u64 = 0;

const ASLEEP: u64 = 1;

const BRIEF_MILLIS: u64 = 1;

const LONG_MILLIS: u64 = 100;

/// What one worker rests by.
#[derive(Drop)]
struct Bed {
    /// `ASLEEP` while the worker sleeps, or is about to.
    word: AtomicU64,
    spin: AdaptiveSpin,
}

/// A bell for each node of a run.
///
/// A ring is never lost: if the node does not rest, it ends its next rest at once. Some stations may
/// tick once all nodes rest and no bell is rung, since then no parcel is under way (`Stillness`). A
/// station may also tick after a long rest, since a worker may be held up by its job.
#[derive(Drop)]
pub(crate) struct Bells<R> {
    rt: R,
    /// The bits of all nodes.
    everyone: u64,
    /// The bits of the nodes that rest, and those of the rung bells.
    calls: AtomicU64,
    /// The bits of the nodes whose bells are rung for room.
    listeners: AtomicU64,
    /// The bits of the nodes that may tick after their rest.
    due: AtomicU64,
    /// The bits of the nodes whose workers have ended.
    gone: AtomicU64,
    stillness: Stillness,
    beds: [Bed; 21],
}

impl<R> Bells<R> {
    /// Creates the bells of the nodes with these bits.
    pub(crate) fn new(rt: R, everyone: u64) -> Bells<R> {
        Bells {
            rt,
            everyone,
            calls: AtomicU64::new(0),
            listeners: AtomicU64::new(0),
            due: AtomicU64::new(0),
            gone: AtomicU64::new(0),
            stillness: Stillness::new(),
            beds: std::array::from_fn(|_node| Bed {
                word: AtomicU64::new(AWAKE),
                spin: AdaptiveSpin::new(),
            }),
        }
    }

    pub(crate) fn listen(&self, node: NodeId, listens: bool) {
        put_bits(&self.listeners, 1 << node.get(), listens);
    }

    pub(crate) fn ring(&self, node: NodeId, news: News) {
        match news {
            News::Mail => self.call(node),
            News::Room => {
                if is_set(&self.listeners, 1 << node.get()) {
                    self.call(node);
                }
            }
        }
    }

    /// Counts the node among those that rest from now on, since its worker has ended, and rings all
    /// bells: its letters are no longer answered.
    pub(crate) fn retire(&self, node: NodeId) {
        self.gone.fetch_or(1 << node.get(), Ordering::SeqCst);
        self.ring_all();
    }

    /// Rings all bells, and lets each node tick after its rest.
    pub(crate) fn ring_all(&self) {
        self.let_tick(self.everyone);
    }

    /// Rings the bells of the nodes with these bits, and lets each of them tick after its rest.
    fn let_tick(&self, nodes: u64) {
        self.due.fetch_or(nodes, Ordering::SeqCst);
        for node in NodeIds::below(MAX_NODES) {
            if nodes >> node.get() & 1 == 1 {
                self.call(node);
            }
        }
    }

    /// Sets the bit of the bell. If the node rests, it sees that bit before it sleeps, or is seen
    /// asleep here and woken.
    fn call(&self, node: NodeId) {
        let bit = 1u64 << node.get();
        if is_set(&self.calls, bit << RUNG) {
            return;
        }
        let before = self.calls.fetch_or(bit << RUNG, Ordering::SeqCst);
        if before & bit != 0 {
            self.wake(node);
        }
    }

    fn wake(&self, node: NodeId) {
        if let Some(bed) = self.beds.get(node.get() as usize)
            && is_set(&bed.word, ASLEEP)
        {
            bed.word.store(AWAKE, Ordering::SeqCst);
            bed.word.wake_one();
        }
    }

    /// Returns whether all nodes rest and no bell is rung. `calls` says which others do, `bit` is that
    /// of the node that begins to rest.
    fn is_still(&self, calls: u64, bit: u64) -> bool {
        let gone = self.gone.load(Ordering::SeqCst);
        let rung = calls >> RUNG & !gone;
        (calls | bit | gone) & self.everyone == self.everyone && rung == 0
    }

    /// Ends a rest. The bell of the node is rung no more.
    fn rise(&self, bit: u64) -> Rest {
        let before = self.calls.fetch_and(!(bit | bit << RUNG), Ordering::SeqCst);
        let is_due = is_set(&self.due, bit);
        if is_due {
            self.due.fetch_and(!bit, Ordering::SeqCst);
        }
        if is_due || before & bit << RUNG == 0 {
            Rest::Due
        } else {
            Rest::Rung
        }
    }
}

impl<R: Wait + Clock> Bells<R> {
    /// Lets the worker of this node rest until its bell is rung, or until its station may tick. In
    /// a brief rest it waits for other nodes at most a millisecond, and rings no bell.
    pub(crate) fn rest(&self, node: NodeId, pause: &Pause) -> Rest {
        let bit = 1u64 << node.get();
        self.stillness.note(node, pause);
        let before = self.calls.fetch_or(bit, Ordering::SeqCst);
        if self.is_still(before, bit) {
            if pause.is_brief {
                return self.rise(bit);
            }
            let gone = self.gone.load(Ordering::SeqCst);
            self.let_tick(self.stillness.who_ticks(self.everyone & !gone));
        }
        if let Some(bed) = self.beds.get(node.get() as usize)
            && !bed.spin.finds(&self.rt, &self.calls, bit << RUNG)
        {
            self.sleep(bed, bit, pause.is_brief);
        }
        self.rise(bit)
    }

    fn sleep(&self, bed: &Bed, bit: u64, brief: bool) {
        let millis = if brief { BRIEF_MILLIS } else { LONG_MILLIS };
        bed.word.store(ASLEEP, Ordering::SeqCst);
        if !is_set(&self.calls, bit << RUNG) {
            bed.word
                .park_timeout(&self.rt, ASLEEP as u32, Duration::from_millis(millis));
        }
        bed.word.store(AWAKE, Ordering::SeqCst);
    }
}
