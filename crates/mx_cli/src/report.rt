//! What a command reports: help, faults, and that memory ran out.

ghost use Rattle.std.specs.Prelude.{◌≡◌, ◌⊎◌, List, true, false, IfSome, IfErr, OnOk, OnErr};
ghost use Rattle.std.specs.Io.KnownBytes.{Appends, Keeps};
ghost use Rattle.clap.specs.Words.{App, HasKind, Text, fault_of, kind_of};
ghost use Rattle.mx_cli.specs.Words.{names_of};
ghost use Rattle.mx_io.specs.Outputs.{refused_by};
ghost use Rattle.mx_cli.specs.FaultLines.{fault_line};
ghost use Rattle.mx_cli.specs.Reports.{HelpsOrRefuses, Helps, MayReport, RunsOut, ReportsFault, seen};

use crate::faults::{Fault, FaultLine};
use crate::request::{FileNames, Misfit};
use clap::error::ErrorKind;
use mx_io::{Output, OutputFault};
use std::alloc::Global;
use std::fmt::Display;

/// Writes the help that was requested to `out`, or what is wrong with the arguments to `err`.
/// Returns the exit status.
pub fn refuse<O: Output, E: Output>(alloc: Global, e: &clap::Error, out: &mut O, err: &mut E) -> u8
    ensures memory { kind_of e.now ≡ ErrorKind.OutOfMemory → RunsOut
        (seen O.Output E.Output out.old err.old) (seen O.Output E.Output out.new err.new) result }
    ensures answers { (line : App) (words : List Text) → HasKind (fault_of line words) e.now
        → HelpsOrRefuses line words (O.takes_all out.old)
        (seen O.Output E.Output out.old err.old) (seen O.Output E.Output out.new err.new) result }
{
    match e.kind() {
        ErrorKind::OutOfMemory => report_memory(err),
        ErrorKind::DisplayHelp | ErrorKind::DisplayVersion => show(alloc, e, out, err),
        _ => report_usage(alloc, e, err),
    }
}

/// Writes which options do not go together, and returns the exit status 2.
pub fn report_misfit<E: Output>(alloc: Global, misfit: Misfit, err: &mut E) -> u8
    ensures { result ≡ 2 }
{
    let _ = write_line(alloc, err, misfit);
    2
}

/// Writes the line of a fault, and returns the exit status: 1, or 5 if memory ran out.
pub fn report_fault<E: Output>(
    alloc: Global,
    fault: Fault,
    names: &FileNames<'_>,
    err: &mut E,
) -> u8
    ensures { ReportsFault (E.takes_all err.old) (fault_line (names_of names.now) fault)
        (E.written err.old) (E.written err.new) result }
{
    let line = FaultLine {
        fault,
        names: *names,
    };
    report_line(alloc, line, err)
}

pub(crate) fn report_line<E: Output, D: Display + Drop>(alloc: Global, line: D, err: &mut E) -> u8
    ensures status { (result ≡ 1) ⊎ (result ≡ 5) }
    ensures told { IfSome (D.output line) (λ text. ReportsFault (E.takes_all err.old) text
        (E.written err.old) (E.written err.new) result) }
{
    match write_line(alloc, err, line) {
        Ok(()) => 1,
        Err(OutputFault::Refused) => 1,
        Err(OutputFault::Memory) => report_memory(err),
    }
}

/// Writes that memory ran out, if the output takes the text, and returns the exit status 5.
pub fn report_memory<E: Output>(err: &mut E) -> u8
    ensures status { result ≡ 5 }
    ensures told { MayReport (E.written err.old) (E.written err.new) }
{
    let _ = err.put("mx: out of memory\n".as_bytes());
    5
}

fn show<O: Output, E: Output>(alloc: Global, e: &clap::Error, out: &mut O, err: &mut E) -> u8
    ensures { Helps (O.takes_all out.old)
        (seen O.Output E.Output out.old err.old) (seen O.Output E.Output out.new err.new) result }
{
    match put_and_flush(alloc, out, e) {
        Ok(()) => 0,
        Err(OutputFault::Refused) => 1,
        Err(OutputFault::Memory) => report_memory(err),
    }
}

fn report_usage<E: Output>(alloc: Global, e: &clap::Error, err: &mut E) -> u8
    ensures { (result ≡ 2) ⊎ ((result ≡ 5) × MayReport (E.written err.old) (E.written err.new)) }
{
    match write_line(alloc, err, e) {
        Ok(()) | Err(OutputFault::Refused) => 2,
        Err(OutputFault::Memory) => report_memory(err),
    }
}

fn put_and_flush<O: Output, D: Display + Drop>(
    alloc: Global,
    out: &mut O,
    line: D,
) -> Result<(), OutputFault>
    ensures takes { IfErr result (λ fault.
        O.takes_all out.old ≡ true → fault ≡ OutputFault.Memory) }
    ensures refused { O.has_refused out.new ≡ refused_by result (O.has_refused out.old) }
    ensures passed { OnOk result (O.keeps_back out.new ≡ false) }
{
    write_line(alloc, out, line)?;
    out.flush()
}

/// Writes a text whole. Writes nothing on an error.
pub fn write_line<O: Output, D: Display + Drop>(
    alloc: Global,
    out: &mut O,
    line: D,
) -> Result<(), OutputFault>
    ensures ok { OnOk result (IfSome (D.output line)
        (Appends (O.written out.old) (O.written out.new))) }
    ensures err { OnErr result (Keeps (O.written out.old) (O.written out.new)) }
    ensures takes { IfErr result (λ fault.
        O.takes_all out.old ≡ true → fault ≡ OutputFault.Memory) }
    ensures refused { O.has_refused out.new ≡ refused_by result (O.has_refused out.old) }
    ensures stays { O.takes_all out.new ≡ O.takes_all out.old }
{
    let text = line.to_string(alloc)?;
    out.put(text.as_bytes())
}
