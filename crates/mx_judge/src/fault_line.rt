//! The line of a fault of a trace.

ghost use Rattle.std.specs.Prelude.{◌≡◌, Some, string_bytes};
ghost use Rattle.mx_cli.specs.Printing.{IsStopWith};
ghost use Rattle.mx_plan.specs.Text.{Text};
ghost use Rattle.mx_judge.specs.Faults.{IsMessageOf, trace_line};

use crate::faults::TraceFault;
use crate::wrong_member::message_of;
use mx_cli::{Stop, stop_with};
use mx_plan::Plan;
use std::alloc::Global;
use std::fmt;

/// The line of a fault, with the message after it.
#[derive(Drop)]
struct TraceFaultLine {
    fault: TraceFault,
    message: String,
}

impl fmt::Display for TraceFaultLine {
    ghost output = { λ line. Some (trace_line line.fault (string_bytes line.message)) };

    fn fmt<W: fmt::Write>(&self, f: &mut fmt::Formatter<W>) -> fmt::Result {
        writeln!(f, "{}{}", self.fault, self.message)
    }
}

/// Returns the reason to stop that has the line of a fault. `text` is that of the trace.
pub(crate) fn stop_at(alloc: Global, plan: &Plan, text: &[u8], fault: TraceFault) -> Stop
    ensures line { (message : Text) × IsMessageOf fault message
        × IsStopWith (trace_line fault message) result }
    ensures memory { fault ≡ TraceFault.Memory → result ≡ Stop.Memory }
{
    if let TraceFault::Memory = fault {
        return Stop::Memory;
    }
    match message_of(alloc, plan, text, fault) {
        Ok(message) => stop_with(alloc, TraceFaultLine { fault, message }),
        Err(_) => Stop::Memory,
    }
}
