ghost use Rattle.std.specs.Prelude.{List, Option, Some, None, ℕ, IfOk, IfSome, length};
ghost use Rattle.mx_play.specs.Lines.{ReadsNext, lines_of};
ghost use Rattle.mx_play.specs.Stops.{CountsDown};

use mx_cli::split_line;
use std::alloc::AllocError;

/// The greatest length of a line in bytes. A longer line is at fault.
pub(crate) const MAX_LINE: usize = 65_536;

/// How a line was read.
#[derive(Clone, Copy)]
pub enum LineRead {
    Line,
    /// The line has more than 65,536 bytes, and was passed over.
    TooLong,
    /// There are no more lines.
    End,
    /// There may be more lines, but they can't be read.
    Unreadable,
}

/// Where lines come from.
pub trait Lines {
    // the lines that are still to come, if they are known
    ghost rest: { Self → Option (List (List ℕ)) } = { λ _. None };

    // how many lines are left at most, if it is known that each can be read
    ghost readable: { Self → Option ℕ } = { λ _. None };

    /// Replaces `line` by the next line, without its line feed. The last line may lack one.
    fn next(&mut self, line: &mut Vec<u8>) -> Result<LineRead, AllocError>
        ensures reads { IfOk result (λ read.
            ReadsNext (rest self.old) read line.new.items (rest self.new)) }
        ensures counts { IfSome (readable self.old) (λ n. IfOk result (λ read.
            CountsDown n read (readable self.new))) };

    /// Whether the lines are typed at a terminal. If they are, a prompt asks for each.
    fn are_typed(&self) -> bool;
}

#[derive(Clone, Copy)]
pub(crate) struct GivenLines<'a> {
    pub(crate) rest: &'a [u8],
}

impl Lines for GivenLines<'_> {
    ghost rest = { λ l. Some (lines_of l.rest.now) };

    ghost readable = { λ l. Some (length l.rest.now) };

    fn next(&mut self, line: &mut Vec<u8>) -> Result<LineRead, AllocError> {
        line.clear();
        if self.rest.is_empty() {
            return Ok(LineRead::End);
        }
        let (first, rest) = split_line(self.rest);
        self.rest = rest;
        if first.len() > MAX_LINE {
            return Ok(LineRead::TooLong);
        }
        line.extend_from_slice(first)?;
        Ok(LineRead::Line)
    }

    fn are_typed(&self) -> bool {
        false
    }
}
