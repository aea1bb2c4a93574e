//! The check, the replay or the script that is explained. Nothing of it is printed.

ghost use Rattle.std.specs.Prelude.{false};
ghost use Rattle.mx_cli.specs.Frames.{alone, both};
ghost use Rattle.mx_cli.specs.Printing.{Prints, null_output};
ghost use Rattle.mx_cli.specs.Words.{names_of};
ghost use Rattle.mx_driver.specs.Commands.{IsCheck, IsReplay};
ghost use Rattle.mx_explain.specs.Explained.{IsAsked, IsReportFor, IsTextReport};

use crate::explanation::ExplainedFiles;
use crate::notes::Notes;
use mx_cli::{FileNames, Files, Named, Stop, fetch_both, run_files, stop_for};
use mx_driver::{Check, NullOutput, observe};
use mx_event_files::run_script;
use mx_io::Source;
use mx_plan::{Needs, Plan, read_events};
use std::alloc::Global;

/// Carries out what is explained, and notes its events. Ends as the command does over an output
/// that takes all texts.
pub(crate) fn run<S: Source>(
    alloc: Global,
    asked: &ExplainedFiles<'_>,
    source: &mut S,
    notes: &mut Notes,
) -> Result<u8, Stop>
    ensures { Prints (IsAsked (S.told source.old) asked.now) null_output null_output result }
{
    match asked.second {
        Some(second) => {
            let names = FileNames {
                plan: asked.plan,
                events: second,
            };
            run_both(alloc, &names, asked.is_script, source, notes)
        }
        None => check(alloc, asked.plan, source),
    }
}

fn check<S: Source>(alloc: Global, plan: &str, source: &mut S) -> Result<u8, Stop>
    ensures { Prints (IsReportFor (IsCheck false false) (S.told source.old) (alone plan.now))
        null_output null_output result }
{
    let check = Check {
        has_asks: false,
        is_json: false,
    };
    run_files(alloc, &check, &Files::alone(plan), source, &mut NullOutput)
}

fn run_both<S: Source>(
    alloc: Global,
    names: &FileNames<'_>,
    is_script: bool,
    source: &mut S,
    notes: &mut Notes,
) -> Result<u8, Stop>
    ensures { Prints (IsReportFor (IsTextReport is_script) (S.told source.old)
        (both (names_of names.now) is_script)) null_output null_output result }
{
    match fetch_both(alloc, source, names, Needs::All) {
        Ok(both) => run_text(alloc, &both.plan, both.text.as_slice(), is_script, notes),
        Err(stop) => Err(stop_for(stop, is_script, Named::Plan)),
    }
}

fn run_text(
    alloc: Global,
    plan: &Plan,
    text: &[u8],
    is_script: bool,
    notes: &mut Notes,
) -> Result<u8, Stop>
    ensures { Prints (IsTextReport is_script plan.now text.now) null_output null_output result }
{
    if is_script {
        return run_script(alloc, plan, text, notes, &mut NullOutput);
    }
    replay(alloc, plan, text, notes)
}

fn replay(alloc: Global, plan: &Plan, text: &[u8], notes: &mut Notes) -> Result<u8, Stop>
    ensures { Prints (IsReplay plan.now text.now) null_output null_output result }
{
    let events = read_events(alloc, text, plan)?;
    observe(alloc, plan, events.as_slice(), notes)
}
