//! Outputs that would block are waited for.

use std::io;
use std::io::{ErrorKind, Write};
use std::rt::Clock;
use std::thread::sleep;
use std::time::Duration;

/// How many milliseconds a writer waits before it tries again.
const PAUSE: u64 = 1;

/// The greatest number of tries of one write, which take more than a month.
const MAX_TRIES: u32 = u32::MAX;

/// A writer that waits where the inner one would block, as a full pipe in non-blocking mode does.
#[derive(Drop)]
pub(crate) struct Patient<'a, R: Clock, W: Write + Drop> {
    clock: &'a R,
    inner: W,
}

impl<'a, R: Clock, W: Write + Drop> Patient<'a, R, W> {
    pub(crate) fn new(clock: &'a R, inner: W) -> Self {
        Patient { clock, inner }
    }
}

impl<R: Clock, W: Write + Drop> Write for Patient<'_, R, W> {
    fn write(&mut self, bytes: &[u8]) -> io::Result<usize> {
        for _try in 0..MAX_TRIES {
            match self.inner.write(bytes) {
                Err(e) if e.kind() == ErrorKind::WouldBlock => {
                    sleep(self.clock, Duration::from_millis(PAUSE));
                }
                written => return written,
            }
        }
        Err(io::Error::from(ErrorKind::WouldBlock))
    }

    fn flush(&mut self) -> io::Result<()> {
        self.inner.flush()
    }
}
