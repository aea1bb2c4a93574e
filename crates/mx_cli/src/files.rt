//! The files of a command.

ghost use Rattle.std.specs.Prelude.{◌≡◌, [], ◌∷◌, IfErr, Some, option_map};
ghost use Rattle.mx_io.specs.Told.{Asks};
ghost use Rattle.mx_cli.specs.Reading.{IsUnread, ReadsBoth};
ghost use Rattle.mx_cli.specs.Words.{names_of};
ghost use Rattle.mx_cli.specs.Frames as spec;

use crate::faults::{Fault, Named};
use crate::planning::{PlanAndText, fetch_both, fetch_plan};
use crate::request::FileNames;
use crate::stop::Stop;
use mx_io::Source;
use mx_plan::{Needs, PlanFault};
use std::alloc::Global;

/// The files that a command reads.
#[derive(Clone, Copy)]
pub struct Files<'a> {
    pub plan: &'a str,
    /// The keys that the plan has to have.
    pub needs: Needs,
    /// The text that comes with the plan: events, a script or a trace. Without it, the text is empty.
    pub text: Option<&'a str>,
    /// Whether the fault that a text is not JSON says which text that is.
    pub names_texts: bool,
}

impl<'a> Files<'a> {
    /// Returns the file of a plan, and of a text that comes with it, if one is named.
    pub fn new(plan: &'a str, text: Option<&'a str>, names_texts: bool) -> Files<'a>
        ensures { spec.files_of result
            ≡ spec.files plan.now (option_map (λ name. name.now) text.entry) names_texts }
    {
        Files {
            plan,
            needs: Needs::All,
            text,
            names_texts,
        }
    }

    /// Returns the file of a plan, without a text that comes with it.
    pub fn alone(plan: &'a str) -> Files<'a>
        ensures { spec.files_of result ≡ spec.alone plan.now }
    {
        Files::new(plan, None, false)
    }

    /// Returns the files of a plan and of the text that comes with it.
    pub fn both(names: &FileNames<'a>, names_texts: bool) -> Files<'a>
        ensures { spec.files_of result ≡ spec.both (names_of names.now) names_texts }
    {
        Files::new(names.plan, Some(names.events), names_texts)
    }

    /// Returns the files of a plan and of a trace. Of the plan only the names of nodes and registers
    /// count, so it needs no other keys.
    pub fn of_trace(names: &FileNames<'a>) -> Files<'a>
        ensures { spec.files_of result ≡ spec.of_trace (names_of names.now) }
    {
        Files {
            plan: names.plan,
            needs: Needs::Names,
            text: Some(names.events),
            names_texts: true,
        }
    }

    /// Returns the names for the lines of faults. The plan's name stands in for a missing one.
    pub(crate) fn names(&self) -> FileNames<'a>
        ensures { names_of result ≡ spec.names_of (spec.files_of self.now) }
    {
        FileNames {
            plan: self.plan,
            events: self.text.unwrap_or(self.plan),
        }
    }
}

/// Reads the plan, and then the text that comes with it.
///
/// # Errors
///
/// Returns the fault of the first file that is at fault, and `Memory` if memory runs out.
pub fn fetch_files<S: Source>(
    alloc: Global,
    source: &mut S,
    files: &Files<'_>,
) -> Result<PlanAndText, Stop>
    ensures read { ReadsBoth files.now.needs
        (spec.told_plan (S.told source.old) (spec.files_of files.now))
        (spec.told_text (S.told source.old) (spec.files_of files.now)) result }
    ensures asks { spec.AsksFiles (spec.files_of files.now) (S.asked source.old) (S.asked source.new) }
    ensures unread { IfErr result IsUnread }
{
    match files.text {
        Some(text) => {
            let names = FileNames {
                plan: files.plan,
                events: text,
            };
            fetch_both(alloc, source, &names, files.needs)
        }
        None => fetch_alone(alloc, source, files.plan, files.needs),
    }
}

/// Reads the plan of this name. The text that comes with it is empty.
fn fetch_alone<S: Source>(
    alloc: Global,
    source: &mut S,
    name: &str,
    needs: Needs,
) -> Result<PlanAndText, Stop>
    ensures read { ReadsBoth needs (S.told source.old name.now) (Some (Some [])) result }
    ensures asks { Asks (S.asked source.old) (S.asked source.new) (name.now ∷ []) }
    ensures unread { IfErr result IsUnread }
{
    match fetch_plan(alloc, source, name, needs) {
        Ok(plan) => Ok(PlanAndText {
            plan,
            text: Vec::new(alloc),
        }),
        Err(stop) => Err(stop),
    }
}

/// Returns `fault`. If it is that a text is not JSON, and texts are named, it names the text `part`.
pub(crate) fn fault_for(fault: Fault, names_texts: bool, part: Named) -> Fault
    ensures { result ≡ spec.fault_for names_texts part fault }
{
    if !names_texts {
        return fault;
    }
    match fault {
        Fault::BadText(PlanFault::NotJson) => Fault::NotJson(part),
        _ => fault,
    }
}
