ghost use Rattle.std.specs.Prelude.{◌≡◌, false};
ghost use Rattle.std.specs.Io.Buffered.{writer_buffer};
ghost use Rattle.mx_io.specs.Outputs.{has_bytes, refused_at};

use crate::output::{Output, OutputFault};
use std::io;
use std::io::{BufWriter, ErrorKind, Write};

/// An output over a writer, behind a buffer: what the buffer has is not passed on yet. No contract
/// says what was written to the writer.
#[derive(Drop)]
pub struct Stream<W: Write + Drop> {
    writer: BufWriter<W>,
    /// Whether the writer has refused something.
    has_refused: bool,
}

impl<W: Write + Drop> Stream<W> {
    /// Creates an output over a writer that has refused nothing.
    pub fn new(writer: BufWriter<W>) -> Self
        ensures { result.has_refused ≡ false }
    {
        Stream {
            writer,
            has_refused: false,
        }
    }

    /// Returns the fault of the output for an error of the writer. Notes that the writer refused,
    /// unless memory ran out.
    fn fault(&mut self, e: &io::Error) -> OutputFault
        ensures { self.new.has_refused ≡ refused_at result self.old.has_refused }
    {
        match e.kind() {
            ErrorKind::OutOfMemory => OutputFault::Memory,
            _ => {
                self.has_refused = true;
                OutputFault::Refused
            }
        }
    }
}

impl<W: Write + Drop> Output for Stream<W> {
    ghost has_refused = { λ s. s.has_refused };

    ghost keeps_back = { λ s. has_bytes (writer_buffer s.writer) };

    fn put(&mut self, text: &[u8]) -> Result<(), OutputFault> {
        match self.writer.write_all(text) {
            Ok(()) => Ok(()),
            Err(e) => Err(self.fault(&e)),
        }
    }

    fn flush(&mut self) -> Result<(), OutputFault> {
        match self.writer.flush() {
            Ok(()) => Ok(()),
            Err(e) => Err(self.fault(&e)),
        }
    }
}
