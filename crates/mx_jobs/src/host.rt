//! What a run needs of the runtime.

use std::rt::Clock;
use std::sync::Wait;
use std::thread::Threads;

/// A runtime that starts threads, lets them wait for one another, and has a clock. A run gives each
/// of its threads a copy. The runtime of `main` is one.
pub trait Host: Threads + Wait + Clock + Copy + Send + Sync + Drop + 'static {}

impl<R: Threads + Wait + Clock + Copy + Send + Sync + Drop + 'static> Host for R {}
