//! What is wrong with the files of a command, and the lines that say so.

ghost use Rattle.std.specs.Prelude.{◌≡◌, Some};
ghost use Rattle.mx_cli.specs.FaultLines.{fault_line, part_text};
ghost use Rattle.mx_cli.specs.Words.{names_of};

use crate::planning::are_dashes;
use crate::request::FileNames;
use mx_lines::Escaped;
use mx_plan::PlanFault;
use std::fmt;

/// One of the two inputs that a command line names.
#[derive(Clone, Copy, Debug, PartialEq, Eq)]
pub enum Named {
    Plan,
    /// The events, or the script or trace in place of events.
    Events,
}

/// What is wrong with a plan, with events or with their files. `FaultLine` prints the message.
#[derive(Clone, Copy, Debug, PartialEq, Eq)]
pub enum Fault {
    CannotRead(Named),
    /// The text of the plan or of the events is invalid.
    BadText(PlanFault),
    /// The text of this input is not JSON.
    NotJson(Named),
    /// The event of this index delivers a parcel that was not sent.
    NoParcel(u64),
}

/// The line that reports a fault, given the names of the plan and the events, which it escapes.
#[derive(Clone, Copy)]
pub struct FaultLine<'a> {
    pub fault: Fault,
    pub names: FileNames<'a>,
}

impl fmt::Display for FaultLine<'_> {
    ghost output = { λ l. Some (fault_line (names_of l.names) l.fault) };

    fn fmt<W: fmt::Write>(&self, f: &mut fmt::Formatter<W>) -> fmt::Result {
        match self.fault {
            Fault::CannotRead(Named::Plan) => {
                let name = Escaped(self.names.plan);
                writeln!(f, "mx: cannot read {name}")
            }
            Fault::CannotRead(Named::Events) => {
                let name = Escaped(self.names.events);
                writeln!(f, "mx: cannot read {name}")
            }
            Fault::BadText(fault) => writeln!(f, "mx: {fault}"),
            Fault::NotJson(part) => {
                let place = Escaped(part_in(&self.names, part));
                writeln!(f, "mx: not json: {place}")
            }
            Fault::NoParcel(k) => writeln!(f, "mx: no parcel: event {k}"),
        }
    }
}

/// Returns where the text of `part` stands: its name, or the part of standard input if both names
/// are `-`.
fn part_in<'a>(names: &FileNames<'a>, part: Named) -> &'a str
    ensures { result.now ≡ part_text (names_of names.now) part }
{
    let are_one = are_dashes(names);
    match part {
        Named::Plan if are_one => "the first line of standard input",
        Named::Plan => names.plan,
        Named::Events if are_one => "the rest of standard input",
        Named::Events => names.events,
    }
}
