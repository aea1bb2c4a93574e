//! Why a line of a session does nothing.

ghost use Rattle.std.specs.Prelude.{◌≡◌, Some, string_bytes};
ghost use Rattle.mx_play.specs.Printed.{input_fault_text, session_line};

use mx_lines::{FirstWords, LineFault};
use mx_network::Entry;
use mx_plan::Plan;
use mx_scripts::{LineFailure, message_of};
use std::alloc::{AllocError, Global};
use std::{fmt, str};

#[derive(Clone, Copy)]
pub(crate) enum InputFault {
    NotText,
    /// One of its words is wrong, or what it asks for can't be done.
    Line(LineFailure),
    /// It has more than 65,536 bytes.
    TooLong,
    /// `undo` asks for more lines than were done: only this many were.
    TooFew(usize),
    NoUndo,
    /// The file that it names cannot be written.
    Unwritten,
}

impl fmt::Display for InputFault {
    ghost output = { λ e. Some (input_fault_text e) };

    fn fmt<W: fmt::Write>(&self, f: &mut fmt::Formatter<W>) -> fmt::Result {
        match self {
            InputFault::NotText => write!(f, "{}", LineFault::NotText),
            InputFault::Line(LineFailure::WrongWord(error)) => write!(f, "{}", error.fault),
            InputFault::Line(LineFailure::Refused(fault)) => write!(f, "{fault}"),
            InputFault::Line(LineFailure::Memory) => f.write_str("out of memory"),
            InputFault::TooLong => f.write_str("more than 65536 bytes"),
            InputFault::NoUndo => f.write_str("no undo to take back"),
            InputFault::TooFew(lines) => write!(f, "only {lines} to take back"),
            InputFault::Unwritten => f.write_str("cannot write"),
        }
    }
}

/// What is reported of a faulty line of a session. Lines are counted from 1.
#[derive(Drop)]
pub(crate) struct InputFaultLine {
    pub(crate) number: u64,
    pub(crate) fault: InputFault,
    /// What is printed after the fault: a colon and a message about the line, or nothing.
    pub(crate) message: String,
}

impl fmt::Display for InputFaultLine {
    ghost output = { λ l. Some (session_line l.number l.fault (string_bytes l.message)) };

    fn fmt<W: fmt::Write>(&self, f: &mut fmt::Formatter<W>) -> fmt::Result {
        writeln!(
            f,
            "mx: play: line {}: {}{}",
            self.number, self.fault, self.message
        )
    }
}

/// Returns a colon and a message about a faulty line, or nothing. `trace` has the events before it.
pub(crate) fn message_about(
    alloc: Global,
    plan: &Plan,
    fault: &InputFault,
    line: &[u8],
    trace: &[Entry],
) -> Result<String, AllocError> {
    match (fault, str::from_utf8(line)) {
        (InputFault::Line(failure), Ok(text)) => {
            message_of(alloc, plan, FirstWords::OfSessions, failure, text, trace)
        }
        _ => Ok(String::new(alloc)),
    }
}
