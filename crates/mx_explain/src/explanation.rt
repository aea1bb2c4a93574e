//! `explain`: from the names of files and two outputs to an exit status.

ghost use Rattle.std.specs.Prelude.{◌≡◌};
ghost use Rattle.mx_cli.specs.Printing.{Prints, sight};
ghost use Rattle.mx_cli.specs.Reports.{seen};
ghost use Rattle.mx_cli.specs.Requests.{text_of};
ghost use Rattle.mx_cli.specs.Words.{names_of};
ghost use Rattle.mx_explain.specs.Explained.{Explains, IsAsked, IsExplanation, names_in};

use crate::cached_source::CachedSource;
use crate::explained_run::run;
use crate::files::print_files;
use crate::notes::Notes;
use mx_cli::{FileNames, Stop, close};
use mx_io::{Output, Source};
use std::alloc::Global;

/// What is explained: the plan of this name; or its events or its script, if `second` names them.
#[derive(Clone, Copy)]
pub(crate) struct ExplainedFiles<'a> {
    pub(crate) plan: &'a str,
    pub(crate) second: Option<&'a str>,
    pub(crate) is_script: bool,
}

impl<'a> ExplainedFiles<'a> {
    /// Returns the names for the lines of faults. The plan's name stands in for a missing one.
    pub(crate) fn names(&self) -> FileNames<'a>
        ensures { names_of result ≡ names_in self.now.plan.now (text_of self.now.second) }
    {
        FileNames {
            plan: self.plan,
            events: self.second.unwrap_or(self.plan),
        }
    }
}

/// Prints what is wrong in a plan; and in its events, if `second` names them, or in its script, if
/// `is_script`. Then writes the line of the fault. Returns the exit status of the check, the replay
/// or the script, 1 if an output refuses, and 5 if memory runs out.
pub fn explain<S: Source, O: Output, E: Output>(
    alloc: Global,
    plan: &str,
    second: Option<&str>,
    is_script: bool,
    source: &mut S,
    out: &mut O,
    err: &mut E,
) -> u8
    ensures explains { Explains (S.told source.old) plan.now (text_of second.entry) is_script
        (O.takes_all out.old) (E.takes_all err.old)
        (seen O.Output E.Output out.old err.old) (seen O.Output E.Output out.new err.new) result }
{
    let asked = ExplainedFiles {
        plan,
        second,
        is_script,
    };
    let ended = run_and_explain(alloc, &asked, source, out);
    close(alloc, ended, &asked.names(), out, err)
}

/// Carries out a check, a replay or a script without its output, and prints what is wrong in its
/// files. Returns how it ended, or why printing failed.
fn run_and_explain<S: Source, O: Output>(
    alloc: Global,
    asked: &ExplainedFiles<'_>,
    source: &mut S,
    out: &mut O,
) -> Result<u8, Stop>
    ensures prints { Prints (IsExplanation (IsAsked (S.told source.old) asked.now))
        (sight O.Output out.old) (sight O.Output out.new) result }
{
    let files = Vec::new(alloc);
    let mut cached = CachedSource { source, files };
    let mut notes = Notes::new(alloc);
    let ended = run(alloc, asked, &mut cached, &mut notes);
    if let Err(Stop::Fault(fault)) = &ended {
        notes.fault = Some(*fault);
    }
    print_files(alloc, asked, &notes, ended, &mut cached, out)
}
