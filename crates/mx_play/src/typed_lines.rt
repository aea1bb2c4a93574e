ghost use Rattle.std.specs.Prelude.{◌≡◌, IfOk};
ghost use Rattle.mx_play.specs.TypedLines.{AddsByte, Bytes, IsTaking, TakesByte, TakesOn, lines_to_come, read_of, to_come};

use crate::line_sources::{LineRead, Lines, MAX_LINE};
use mx_io::{Counted, MAX_BYTES};
use std::alloc::{AllocError, Global};
use std::io;
use std::io::{BufReader, ErrorKind, Read};

/// The greatest number of bytes that one read takes.
const MAX_AHEAD: usize = 4096;

/// The most steps for one line. Each step takes a byte, or is a read that a signal interrupts.
const MAX_STEPS: u64 = 2 * MAX_BYTES;

/// The lines that are typed, or come through a pipe. Reading a line waits only for the end of that
/// line. All lines together may have at most 268,435,456 bytes, and take at most as many reads; a
/// line beyond that can't be read.
#[derive(Drop)]
pub struct Typed<R: Read + Drop> {
    reader: BufReader<Counted<R>>,
    is_terminal: bool,
    /// How many more bytes may be taken.
    left: u64,
}

#[derive(Clone, Copy)]
pub(crate) enum ByteRead {
    Byte(u8),
    End,
    /// A signal interrupted the read.
    Nothing,
    Failure,
}

impl<R: Read + Drop> Typed<R> {
    /// Creates the lines of a reader. `is_terminal` says whether they are typed at a terminal.
    ///
    /// # Errors
    ///
    /// Returns an error of kind `OutOfMemory` if memory runs out.
    pub fn new(alloc: Global, reader: R, is_terminal: bool) -> io::Result<Self>
        ensures { IfOk result (λ lines. to_come R.remaining lines ≡ R.remaining reader) }
    {
        Ok(Typed {
            reader: BufReader::with_capacity(alloc, MAX_AHEAD, Counted::new(reader))?,
            is_terminal,
            left: MAX_BYTES,
        })
    }

    fn byte(&mut self) -> ByteRead
        ensures { TakesByte result (to_come R.remaining self.old) (to_come R.remaining self.new) }
    {
        let mut byte = [0];
        match self.reader.read(&mut byte) {
            Ok(0) => ByteRead::End,
            Ok(_) if self.left == 0 => ByteRead::Failure,
            Ok(_) => {
                self.left -= 1;
                ByteRead::Byte(byte[0])
            }
            Err(e) => match e.kind() {
                ErrorKind::Interrupted => ByteRead::Nothing,
                _ => ByteRead::Failure,
            },
        }
    }

    /// Takes the next byte of a line, or finds where the line ends.
    fn step(
        &mut self,
        line: &mut Vec<u8>,
        is_long: &mut bool,
    ) -> Result<Option<LineRead>, AllocError>
        ensures { IfOk result (λ read. (first : Bytes)
            → IsTaking first (to_come R.remaining self.old) is_long.old line.old.items
            → TakesOn read first (to_come R.remaining self.new) is_long.new line.new.items) }
    {
        match self.byte() {
            ByteRead::Byte(byte) => add_byte(byte, line, is_long),
            ByteRead::End if line.is_empty() => Ok(Some(LineRead::End)),
            ByteRead::End => Ok(Some(line_read(*is_long))),
            ByteRead::Nothing => Ok(None),
            ByteRead::Failure => Ok(Some(LineRead::Unreadable)),
        }
    }
}

impl<R: Read + Drop> Lines for Typed<R> {
    ghost rest = { lines_to_come R.remaining };

    fn next(&mut self, line: &mut Vec<u8>) -> Result<LineRead, AllocError> {
        line.clear();
        let mut is_long = false;
        for _step in 0..MAX_STEPS {
            match self.step(line, &mut is_long)? {
                Some(read) => return Ok(read),
                None => {}
            }
        }
        Ok(LineRead::Unreadable)
    }

    fn are_typed(&self) -> bool {
        self.is_terminal
    }
}

/// Adds a byte to a line, unless it ends the line, or the line is too long.
fn add_byte(
    byte: u8,
    line: &mut Vec<u8>,
    is_long: &mut bool,
) -> Result<Option<LineRead>, AllocError>
    ensures { IfOk result (λ read. AddsByte byte is_long.old line.old.items
        read is_long.new line.new.items) }
{
    if byte == b'\n' {
        return Ok(Some(line_read(*is_long)));
    }
    if line.len() >= MAX_LINE {
        *is_long = true;
        return Ok(None);
    }
    line.push(byte)?;
    Ok(None)
}

fn line_read(is_long: bool) -> LineRead
    ensures { result ≡ read_of is_long }
{
    if is_long {
        LineRead::TooLong
    } else {
        LineRead::Line
    }
}
