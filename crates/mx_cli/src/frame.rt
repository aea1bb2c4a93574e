//! The frame of a command.

ghost use Rattle.std.specs.Prelude.{◌≡◌};
ghost use Rattle.mx_cli.specs.Reports.{ReportsFault, seen};
ghost use Rattle.mx_cli.specs.Words.{names_of};
ghost use Rattle.mx_cli.specs.Printing.{Prints, course_of, sight};
ghost use Rattle.mx_cli.specs.Frames.{AsksFiles, Closes, IsReportOf, Runs, TellsEnd, files_of, stop_for, told_plan, told_text};

use crate::command::Command;
use crate::faults::Named;
use crate::files::{Files, fault_for, fetch_files};
use crate::report::{report_fault, report_memory};
use crate::request::FileNames;
use crate::stop::Stop;
use mx_io::{Output, OutputFault, Source};
use std::alloc::Global;

/// Reads the files, lets the command print, flushes `out`, writes the line of a fault to `err`, and
/// returns the exit status: that of the command, 1 for a fault or if an output refuses, and 5 if
/// memory runs out.
pub fn front<C: Command, S: Source, O: Output, E: Output>(
    alloc: Global,
    command: &C,
    files: &Files<'_>,
    source: &mut S,
    out: &mut O,
    err: &mut E,
) -> u8
    ensures runs { Runs (C.reports command.now) (S.told source.old) (files_of files.now)
        (O.takes_all out.old) (E.takes_all err.old)
        (seen O.Output E.Output out.old err.old) (seen O.Output E.Output out.new err.new) result }
    ensures asks { AsksFiles (files_of files.now) (S.asked source.old) (S.asked source.new) }
{
    let ended = run_files(alloc, command, files, source, out);
    close(alloc, ended, &files.names(), out, err)
}

/// Reads the files, and lets the command print.
///
/// # Errors
///
/// Returns the fault of a file, or why the command ended early.
pub fn run_files<C: Command, S: Source, O: Output>(
    alloc: Global,
    command: &C,
    files: &Files<'_>,
    source: &mut S,
    out: &mut O,
) -> Result<u8, Stop>
    ensures prints { Prints (IsReportOf (C.reports command.now) files.now.needs files.now.names_texts
        (told_plan (S.told source.old) (files_of files.now))
        (told_text (S.told source.old) (files_of files.now)))
        (sight O.Output out.old) (sight O.Output out.new) result }
    ensures asks { AsksFiles (files_of files.now) (S.asked source.old) (S.asked source.new) }
{
    match fetch_files(alloc, source, files) {
        Ok(both) => match command.run(alloc, &both.plan, both.text.as_slice(), out) {
            Ok(status) => Ok(status),
            Err(stop) => Err(stop_for(stop, files.names_texts, Named::Events)),
        },
        Err(stop) => Err(stop_for(stop, files.names_texts, Named::Plan)),
    }
}

/// Returns a reason to stop. If texts are named, the fault that a text is not JSON names the text
/// `part`.
pub fn stop_for(stop: Stop, names_texts: bool, part: Named) -> Stop
    ensures { result ≡ stop_for names_texts part stop }
{
    match stop {
        Stop::Fault(fault) => Stop::Fault(fault_for(fault, names_texts, part)),
        other => other,
    }
}

/// Flushes `out`, writes the line that says why the command ended early, and returns the exit
/// status: that of the run, 1 after a fault or if an output refused, 5 if memory ran out. An output
/// that has refused is not used any more.
pub fn close<O: Output, E: Output>(
    alloc: Global,
    ended: Result<u8, Stop>,
    names: &FileNames<'_>,
    out: &mut O,
    err: &mut E,
) -> u8
    ensures closes { Closes (names_of names.now) (O.takes_all out.old) (E.takes_all err.old)
        (course_of ended)
        (seen O.Output E.Output out.old err.old) (seen O.Output E.Output out.new err.new) result }
{
    if matches!(ended, Err(Stop::Writer)) {
        return 1;
    }
    match out.flush() {
        Ok(()) => tell_end(alloc, ended, names, err),
        Err(OutputFault::Refused) => 1,
        Err(OutputFault::Memory) => report_memory(err),
    }
}

/// Writes the line that says why a command ended early, if it did, and returns the exit status.
fn tell_end<E: Output>(
    alloc: Global,
    ended: Result<u8, Stop>,
    names: &FileNames<'_>,
    err: &mut E,
) -> u8
    ensures { TellsEnd (names_of names.now) (E.takes_all err.old) (course_of ended)
        (E.written err.old) (E.written err.new) result }
{
    match ended {
        Ok(status) => status,
        Err(Stop::Fault(fault)) => report_fault(alloc, fault, names, err),
        Err(Stop::Line(line)) => put_line(line.as_bytes(), err),
        Err(Stop::Writer) => 1,
        Err(Stop::Memory) => report_memory(err),
    }
}

/// Writes the line of a fault, and returns the exit status: 1, or 5 if memory ran out.
fn put_line<E: Output>(line: &[u8], err: &mut E) -> u8
    ensures { ReportsFault (E.takes_all err.old) line.now
        (E.written err.old) (E.written err.new) result }
{
    match err.put(line) {
        Ok(()) | Err(OutputFault::Refused) => 1,
        Err(OutputFault::Memory) => report_memory(err),
    }
}
