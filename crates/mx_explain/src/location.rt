//! Places in the text of a file.

use std::fmt;
use std::fmt::Display;

/// A text of a file. In the file, `above` lines come before the text.
#[derive(Clone, Copy)]
pub(crate) struct FilePart<'a> {
    pub(crate) file: &'a str,
    pub(crate) text: &'a [u8],
    pub(crate) above: usize,
}

impl<'a> FilePart<'a> {
    pub(crate) fn of(file: &'a str, text: &'a [u8], above: usize) -> FilePart<'a> {
        FilePart { file, text, above }
    }

    pub(crate) fn location(&self, offset: usize) -> Location {
        let mut line = self.above.saturating_add(1);
        let mut column = 1usize;
        for byte in self.text.iter().take(offset) {
            match byte {
                b'\n' => (line, column) = (line.saturating_add(1), 1),
                // the rest of a character of several bytes
                0x80..=0xBF => {}
                _ => column = column.saturating_add(1),
            }
        }
        Location { line, column }
    }

    /// Returns the byte at which a line begins, counted from 1.
    pub(crate) fn offset_of_line(&self, number: u64) -> usize {
        let mut offset = 0usize;
        for (line, k) in self.text.split(|byte| *byte == b'\n').zip(1u64..) {
            if k < number {
                offset = offset.saturating_add(line.len()).saturating_add(1);
            }
        }
        offset
    }
}

/// A line and a column of a file, both counted from 1; columns count characters.
#[derive(Clone, Copy)]
pub(crate) struct Location {
    line: usize,
    column: usize,
}

impl Display for Location {
    fn fmt<W: fmt::Write>(&self, f: &mut fmt::Formatter<W>) -> fmt::Result {
        write!(f, "{}:{}", self.line, self.column)
    }
}
