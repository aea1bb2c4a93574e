//! What the lines of a session ask for.

ghost use Rattle.std.specs.Prelude.{◌≡◌, ◌≤◌, true, IfErr, IfOk, IfSome, OnOk, length};
ghost use Rattle.std.specs.Str.{IsUtf8};
ghost use Rattle.mx_play.specs.Commands.{IsInput, IsInputOf, ReadsInput, is_end};
ghost use Rattle.mx_play.specs.Printed.{GetsAsides};
ghost use Rattle.mx_play.specs.Stops.{LeavesFewer, OnlyMemory};

use crate::input_fault::InputFault;
use crate::line_sources::{LineRead, Lines, MAX_LINE};
use mx_cli::{Fault, Named, Stop};
use mx_io::{Output, OutputFault};
use mx_lines::{SessionCommand, read_command, words_in};
use mx_plan::Plan;
use mx_scripts::LineFailure;
use std::alloc::{AllocError, Global};
use std::str;

#[derive(Clone, Copy)]
pub(crate) enum Input {
    Command(SessionCommand),
    Fault(InputFault),
    /// There are no more lines.
    Eof,
}

pub(crate) fn read_input<L: Lines, E: Output>(
    alloc: Global,
    plan: &Plan,
    lines: &mut L,
    line: &mut Vec<u8>,
    err: &mut E,
) -> Result<Input, Stop>
    ensures over { IfOk result (IsInput plan.now) }
    ensures reads { IfOk result (λ input.
        ReadsInput plan.now (L.rest lines.old) input line.new.items (L.rest lines.new)) }
    ensures asks { OnOk result (GetsAsides (E.written err.old) (E.written err.new)) }
    ensures left { IfSome (L.readable lines.old) (λ n. IfOk result (λ input.
        LeavesFewer n input (L.readable lines.new))) }
    ensures stops { IfSome (L.readable lines.old) (λ _.
        E.takes_all err.old ≡ true → OnlyMemory result) }
    ensures stays { E.takes_all err.new ≡ E.takes_all err.old }
{
    prompt(lines, err)?;
    match lines.next(line)? {
        LineRead::Line => Ok(input_in(alloc, plan, line.as_slice())?),
        LineRead::TooLong => Ok(Input::Fault(InputFault::TooLong)),
        LineRead::End => Ok(Input::Eof),
        LineRead::Unreadable => Err(Stop::Fault(Fault::CannotRead(Named::Events))),
    }
}

pub(crate) fn greet<L: Lines, E: Output>(lines: &L, err: &mut E) -> Result<(), OutputFault>
    ensures asks { OnOk result (GetsAsides (E.written err.old) (E.written err.new)) }
    ensures takes { IfErr result (λ fault.
        E.takes_all err.old ≡ true → fault ≡ OutputFault.Memory) }
    ensures stays { E.takes_all err.new ≡ E.takes_all err.old }
{
    if lines.are_typed() {
        return err.put(b"help lists all lines, end ends the session\n");
    }
    Ok(())
}

fn prompt<L: Lines, E: Output>(lines: &L, err: &mut E) -> Result<(), OutputFault>
    ensures asks { OnOk result (GetsAsides (E.written err.old) (E.written err.new)) }
    ensures takes { IfErr result (λ fault.
        E.takes_all err.old ≡ true → fault ≡ OutputFault.Memory) }
    ensures stays { E.takes_all err.new ≡ E.takes_all err.old }
{
    if lines.are_typed() {
        err.put(b"> ")?;
        return err.flush();
    }
    Ok(())
}

fn input_in(alloc: Global, plan: &Plan, line: &[u8]) -> Result<Input, AllocError>
    ensures over { IfOk result (IsInput plan.now) }
    ensures means { IfOk result (λ input. length line.now ≤ MAX_LINE
        → IsInputOf plan.now line.now input line.now) }
{
    match str::from_utf8(line) {
        Ok(text) => input_in_text(alloc, plan, text),
        Err(_) => Ok(Input::Fault(InputFault::NotText)),
    }
}

fn input_in_text(alloc: Global, plan: &Plan, text: &str) -> Result<Input, AllocError>
    ensures over { IfOk result (IsInput plan.now) }
    ensures means { IfOk result (λ input. length text.now ≤ MAX_LINE → IsUtf8 text.now
        → IsInputOf plan.now text.now input text.now) }
{
    let words = words_in(alloc, text)?;
    match read_command(plan, words.as_slice()) {
        Ok(command) => Ok(Input::Command(command)),
        Err(error) => Ok(Input::Fault(InputFault::Line(LineFailure::WrongWord(error)))),
    }
}

pub(crate) fn is_end(input: &Input) -> bool
    ensures { result ≡ is_end input.now }
{
    matches!(input, Input::Command(SessionCommand::End))
}
