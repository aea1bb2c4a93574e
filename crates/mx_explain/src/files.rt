//! What is wrong in the files that a check, a replay or a script reads.

ghost use Rattle.std.specs.Prelude.{◌≡◌, ◌↔◌, true, string_bytes, IfOk};
ghost use Rattle.mx_cli.specs.Printing.{Prints, course_of, sight};
ghost use Rattle.mx_explain.specs.Explained.{IsToldOf, is_told};
ghost use Rattle.mx_explain.specs.Reports.{AreShown, last_line, nothing_at_fault};

use crate::event_fault::explain_events;
use crate::explanation::ExplainedFiles;
use crate::location::FilePart;
use crate::notes::Notes;
use crate::plan_fault::explain_plan;
use crate::report::{FaultReport, ReportResult};
use crate::script_lines::explain_lines;
use mx_cli::{Stop, are_dashes, split_line};
use mx_io::{Output, Refusal, Source};
use mx_plan::Plan;
use std::alloc::{AllocError, Global};

/// Prints what is wrong in the files of a run that ended so, and returns how it ended. If it ended
/// well, these are warnings alone, and that nothing is at fault. Prints nothing if memory runs out.
pub(crate) fn print_files<S: Source, O: Output>(
    alloc: Global,
    asked: &ExplainedFiles<'_>,
    notes: &Notes,
    ended: Result<u8, Stop>,
    source: &mut S,
    out: &mut O,
) -> Result<u8, Stop>
    ensures prints { Prints (IsToldOf (course_of ended))
        (sight O.Output out.old) (sight O.Output out.new) result }
{
    if !is_told(&ended) {
        // the run printed nothing, so no output refused: memory ran out
        return Err(Stop::Memory);
    }
    let text = explanation(alloc, asked, notes, ended.is_ok(), source)?;
    out.put(text.as_bytes())?;
    ended
}

/// Whether a run came to its end. One that prints nothing does, unless memory runs out.
fn is_told(ended: &Result<u8, Stop>) -> bool
    ensures { result ≡ is_told (course_of ended.now) }
{
    match ended {
        Ok(_) | Err(Stop::Fault(_) | Stop::Line(_)) => true,
        Err(Stop::Writer | Stop::Memory) => false,
    }
}

fn explanation<S: Source>(
    alloc: Global,
    asked: &ExplainedFiles<'_>,
    notes: &Notes,
    is_well: bool,
    source: &mut S,
) -> Result<String, AllocError>
    ensures printable { IfOk result (λ text. AreShown (string_bytes text)) }
    ensures last { IfOk result (λ text. (last_line (string_bytes text) ≡ nothing_at_fault)
        ↔ (is_well ≡ true)) }
{
    let mut report = FaultReport::new(alloc);
    explain_files(&mut report, asked, notes, source)?;
    report.into_text(is_well)
}

/// Explains a plan, and what comes with it, if that is named: another file, or what stands below
/// the first line of standard input, which then is the plan.
fn explain_files<S: Source>(
    report: &mut FaultReport,
    asked: &ExplainedFiles<'_>,
    notes: &Notes,
    source: &mut S,
) -> ReportResult {
    let names = asked.names();
    let Some(text) = fetched(report, names.plan, source)? else {
        return Ok(());
    };
    let is_one = are_dashes(&names) && asked.second.is_some();
    let (line, rest) = split_line(text.as_slice());
    let plan = if is_one { line } else { text.as_slice() };
    match explain_plan(report, FilePart::of(names.plan, plan, 0))? {
        Some(plan) if is_one => {
            let part = FilePart::of(names.events, rest, 1);
            explain_second(report, asked, notes, &plan, part)
        }
        Some(plan) if asked.second.is_some() => explain_file(report, asked, notes, &plan, source),
        _ => Ok(()),
    }
}

fn explain_file<S: Source>(
    report: &mut FaultReport,
    asked: &ExplainedFiles<'_>,
    notes: &Notes,
    plan: &Plan,
    source: &mut S,
) -> ReportResult {
    let name = asked.names().events;
    match fetched(report, name, source)? {
        Some(text) => {
            let part = FilePart::of(name, text.as_slice(), 0);
            explain_second(report, asked, notes, plan, part)
        }
        None => Ok(()),
    }
}

fn explain_second(
    report: &mut FaultReport,
    asked: &ExplainedFiles<'_>,
    notes: &Notes,
    plan: &Plan,
    part: FilePart<'_>,
) -> ReportResult {
    if !asked.is_script {
        return explain_events(report, part, plan, notes);
    }
    explain_lines(report, &part, plan)?;
    notes.explain_script(report, &part)
}

fn fetched<S: Source>(
    report: &mut FaultReport,
    name: &str,
    source: &mut S,
) -> Result<Option<Vec<u8>>, AllocError> {
    let alloc = report.alloc();
    match source.fetched(alloc, name) {
        Ok(bytes) => Ok(Some(bytes)),
        Err(Refusal::Memory) => Err(AllocError),
        Err(Refusal::Because(reason)) => {
            let text = format!(in alloc; " this file can't be read: {reason}")?;
            report.add(name, text.as_str())?;
            Ok(None)
        }
    }
}
