//! The interface of a command, and what a command of one text prints.

ghost use Rattle.mx_plan.specs.Text.{Text};
ghost use Rattle.mx_plan.specs.Fields.{Fields};
ghost use Rattle.mx_cli.specs.Printing.{IsWhole, Prints, Report, sight};

use crate::stop::Stop;
use mx_io::Output;
use mx_plan::Plan;
use std::alloc::Global;

/// A command, with its options: what it prints of a plan and of the text that comes with the plan.
pub trait Command {
    // the reports that it may print of a plan and of the bytes of the text
    ghost reports: { Self → Fields → Text → Report → Type 0 };

    /// Prints one of its reports of a plan and a text, and returns the status.
    ///
    /// # Errors
    ///
    /// Returns the fault or the line that ends the report, `Writer` if the output refuses, and
    /// `Memory` if memory runs out.
    fn run<O: Output>(
        &self,
        alloc: Global,
        plan: &Plan,
        text: &[u8],
        out: &mut O,
    ) -> Result<u8, Stop>
        ensures prints { Prints (reports self.now plan.now text.now)
            (sight O.Output out.old) (sight O.Output out.new) result };
}

/// Prints a text, the only one of a command, and returns the status.
pub fn print<O: Output>(text: &[u8], status: u8, out: &mut O) -> Result<u8, Stop>
    ensures prints { Prints (IsWhole text.now status)
        (sight O.Output out.old) (sight O.Output out.new) result }
{
    match out.put(text) {
        Ok(()) => Ok(status),
        Err(fault) => Err(Stop::from(fault)),
    }
}
