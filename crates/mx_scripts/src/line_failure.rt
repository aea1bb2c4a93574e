//! Why a line of a script is not done, and what is printed of it.

ghost use Rattle.std.specs.Prelude.{◌≡◌, Some, string_bytes, IfOk};
ghost use Rattle.mx_scripts.specs.Failures.{IsRefused, script_line};

use crate::expectation::add_other_outcome;
use mx_lines::{FirstWords, LineError, LineFault, message, message_of_line, words_in};
use mx_network::{Entry, StepFault};
use mx_plan::Plan;
use std::alloc::{AllocError, AllocFailed, Global};
use std::fmt;

/// Why a line is not done.
#[derive(Clone, Copy)]
pub enum LineFailure {
    /// One of its words is wrong.
    WrongWord(LineError),
    /// What it asks for can't be done.
    Refused(LineFault),
    Memory,
}

impl From<AllocError> for LineFailure {
    ghost use Rattle.std.specs.Prelude.{◌≡◌};
    ghost use Rattle.mx_scripts.specs.declared.line_failure.LineFailure.TheVariants.{Memory};

    ghost from_gives = { λ _ failure. failure ≡ Memory };

    fn from(_e: AllocError) -> LineFailure {
        LineFailure::Memory
    }
}

impl<T: Drop> From<AllocFailed<T>> for LineFailure {
    ghost use Rattle.std.specs.Prelude.{◌≡◌};
    ghost use Rattle.mx_scripts.specs.declared.line_failure.LineFailure.TheVariants.{Memory};

    ghost from_gives = { λ _ failure. failure ≡ Memory };

    fn from(_e: AllocFailed<T>) -> LineFailure {
        LineFailure::Memory
    }
}

impl From<LineFault> for LineFailure {
    ghost use Rattle.std.specs.Prelude.{◌≡◌};
    ghost use Rattle.mx_scripts.specs.declared.line_failure.LineFailure.TheVariants.{Refused};

    ghost from_gives = { λ fault failure. failure ≡ Refused fault };

    fn from(fault: LineFault) -> LineFailure {
        LineFailure::Refused(fault)
    }
}

impl From<StepFault> for LineFailure {
    ghost use Rattle.std.specs.Prelude.{◌≡◌};
    ghost use Rattle.mx_scripts.specs.Failures.{failure_of_step};

    ghost from_gives = { λ fault failure. failure ≡ failure_of_step fault };

    fn from(fault: StepFault) -> LineFailure {
        match fault {
            StepFault::NoNode => LineFailure::Refused(LineFault::NoNode),
            StepFault::NoParcel => LineFailure::Refused(LineFault::NoParcel),
            StepFault::Memory => LineFailure::Memory,
        }
    }
}

/// A line of a script that is refused.
#[derive(Drop)]
pub struct RefusedLine {
    /// Its number, counted from 1.
    pub number: u64,
    pub fault: LineFault,
    /// Whether the line could not be read: one of its words is wrong, or it is not UTF-8.
    pub is_unread: bool,
    /// What is printed after the fault: a colon and a message about the line, or nothing.
    pub message: String,
}

impl fmt::Display for RefusedLine {
    ghost output = { λ l. Some (script_line l.number l.fault (string_bytes l.message)) };

    fn fmt<W: fmt::Write>(&self, f: &mut fmt::Formatter<W>) -> fmt::Result {
        writeln!(
            f,
            "mx: script: line {}: {}{}",
            self.number, self.fault, self.message
        )
    }
}

/// Returns the refused line with its message. `trace` is that of all events before it.
///
/// # Errors
///
/// Returns `AllocError` if the `failure` is lack of memory, or if memory runs out.
pub fn refused_line(
    alloc: Global,
    plan: &Plan,
    number: u64,
    failure: LineFailure,
    line: &str,
    trace: &[Entry],
) -> Result<RefusedLine, AllocError>
    ensures { IfOk result (IsRefused number failure) }
{
    let message = message_of(alloc, plan, FirstWords::OfScripts, &failure, line, trace)?;
    match failure {
        LineFailure::WrongWord(error) => Ok(RefusedLine {
            number,
            fault: error.fault,
            is_unread: true,
            message,
        }),
        LineFailure::Refused(fault) => Ok(RefusedLine {
            number,
            fault,
            is_unread: false,
            message,
        }),
        LineFailure::Memory => Err(AllocError),
    }
}

/// Returns a colon and a message about a line that is not done: about its wrong word, about the
/// outcome that it does not expect, or else the line itself. `first_words` says with which words a
/// line may begin, and `trace` has the events before the line.
pub fn message_of(
    alloc: Global,
    plan: &Plan,
    first_words: FirstWords,
    failure: &LineFailure,
    line: &str,
    trace: &[Entry],
) -> Result<String, AllocError> {
    let mut text = String::new(alloc);
    text.push_str(":")?;
    match failure {
        LineFailure::WrongWord(error) => {
            let words = words_in(alloc, line)?;
            let said = message(alloc, plan, first_words, words.as_slice(), error)?;
            text.push_str(said.as_str())?;
        }
        LineFailure::Refused(LineFault::OtherOutcome) => {
            add_other_outcome(alloc, line, trace, &mut text)?;
        }
        _ => text.push_str(message_of_line(alloc, line)?.as_str())?,
    }
    Ok(text)
}
