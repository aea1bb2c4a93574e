ghost use Rattle.std.specs.Prelude.{◌≡◌};

use std::io;
use std::io::{ErrorKind, Read};

/// The greatest number of reads from a file or from standard input. A read may return a single
/// byte, or none if a signal interrupts it.
const MAX_READS: u64 = 268_435_456;

/// A reader that allows a limited number of reads. Reads that a signal interrupts count too, so
/// reading ends for every input.
#[derive(Drop)]
pub struct Counted<R: Read + Drop> {
    inner: R,
    left: u64,
}

impl<R: Read + Drop> Counted<R> {
    /// Wraps a reader and allows 268,435,456 reads of it.
    pub fn new(inner: R) -> Self
        ensures { result.inner ≡ inner }
    {
        Counted {
            inner,
            left: MAX_READS,
        }
    }
}

impl<R: Read + Drop> Read for Counted<R> {
    ghost remaining = { λ c. R.remaining c.inner };

    /// Reads as the inner reader does, or returns an error of kind `TimedOut` if no read is left.
    fn read(&mut self, buf: &mut [u8]) -> io::Result<usize> {
        if self.left == 0 {
            return Err(io::Error::from(ErrorKind::TimedOut));
        }
        self.left -= 1;
        self.inner.read(buf)
    }
}
