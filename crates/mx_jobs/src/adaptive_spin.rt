//! How long a worker looks at its bell before it sleeps.

use std::hint::spin_loop;
use std::rt::Clock;
use std::sync::atomic::{AtomicU64, Ordering};
use std::thread::yield_now;

/// The number of looks without a yield.
const QUICK_LOOKS: u32 = 20;

/// The least and the greatest number of looks with a yield before each.
const MIN_LOOKS: u64 = 4;

const MAX_LOOKS: u64 = 64;

/// The least and the greatest number of rests without yields after a slow one.
const MIN_PAUSE: u64 = 256;

const MAX_PAUSE: u64 = 16384;

/// A yield that takes longer gave a time slice to another program.
const SLOW_MICROS: u64 = 500;

/// Spins of one worker before it sleeps. As in an adaptive lock they are longer if the last one
/// found the bell rung, and shorter if it ended in sleep.
///
/// Between two looks the worker lets other threads run. On a busy machine a yield gives a whole
/// time slice away, so after a slow one the next rests do without. Their number doubles each time.
#[derive(Drop)]
pub(crate) struct AdaptiveSpin {
    /// The number of looks in the next spin with yields.
    looks: AtomicU64,
    /// How many more rests do without yields.
    skips: AtomicU64,
    /// How many rests do without yields after the next slow one.
    pause: AtomicU64,
}

impl AdaptiveSpin {
    pub(crate) fn new() -> AdaptiveSpin {
        AdaptiveSpin {
            looks: AtomicU64::new(MAX_LOOKS),
            skips: AtomicU64::new(0),
            pause: AtomicU64::new(MIN_PAUSE),
        }
    }

    /// Returns whether a look found one of these bits set in the word.
    pub(crate) fn finds<R: Clock>(&self, clock: &R, word: &AtomicU64, bits: u64) -> bool {
        if finds_quickly(word, bits) {
            return true;
        }
        let skips = self.skips.load(Ordering::SeqCst);
        if skips > 0 {
            self.skips.store(skips - 1, Ordering::SeqCst);
            return false;
        }
        self.finds_yielding(clock, word, bits)
    }

    fn finds_yielding<R: Clock>(&self, clock: &R, word: &AtomicU64, bits: u64) -> bool {
        let looks = self.looks.load(Ordering::SeqCst);
        let mut last = micros(clock);
        for _look in 0..looks {
            yield_now();
            let now = micros(clock);
            let is_found = is_set(word, bits);
            if now.saturating_sub(last) > SLOW_MICROS {
                self.skip_yields();
                return is_found;
            }
            if is_found {
                let more = looks.saturating_mul(2).min(MAX_LOOKS);
                self.looks.store(more, Ordering::SeqCst);
                return true;
            }
            last = now;
        }
        self.pause.store(MIN_PAUSE, Ordering::SeqCst);
        self.looks
            .store((looks / 2).max(MIN_LOOKS), Ordering::SeqCst);
        false
    }

    fn skip_yields(&self) {
        let pause = self.pause.load(Ordering::SeqCst);
        self.skips.store(pause, Ordering::SeqCst);
        let longer = pause.saturating_mul(2).min(MAX_PAUSE);
        self.pause.store(longer, Ordering::SeqCst);
    }
}

fn finds_quickly(word: &AtomicU64, bits: u64) -> bool {
    for _look in 0..QUICK_LOOKS {
        if is_set(word, bits) {
            return true;
        }
        spin_loop();
    }
    false
}

pub(crate) fn is_set(word: &AtomicU64, bits: u64) -> bool {
    word.load(Ordering::SeqCst) & bits != 0
}

/// Returns the time in microseconds, or 0 if there is no clock.
fn micros<R: Clock>(clock: &R) -> u64 {
    match clock.monotonic() {
        Ok(time) => {
            let seconds = time.as_secs().saturating_mul(1_000_000);
            seconds.saturating_add(u64::from(time.subsec_nanos() / 1000))
        }
        Err(_) => 0,
    }
}
