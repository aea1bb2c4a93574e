//! Why a live run ends without a journal, and the message for it.

ghost use Rattle.std.specs.Prelude.{◌≡◌, Some};
ghost use Rattle.mx_live.specs.LiveErrors.{ReportsError, error_line, error_status, unread_error};

use mx_cli::{Fault, FaultLine, FileNames, Stop, report_memory, write_line};
use mx_io::{Output, OutputFault};
use mx_jobs::StartFault;
use std::alloc::{AllocError, Global};
use std::fmt;

/// Why a live run ends without a journal.
#[derive(Clone, Copy)]
pub enum LiveError {
    /// The plan can't be read, or is refused.
    Plan(Fault),
    /// The plan allows fewer sections than all nodes together want.
    TooFewSections,
    /// A node was not done when its turns were spent.
    TurnsSpent,
    /// Not all nodes came to the gate.
    GateShut,
    /// An output refused a text.
    Writer,
    /// Memory ran out.
    Memory,
    /// A thread could not be started.
    NoThread,
}

impl LiveError {
    pub(crate) fn status(self) -> u8
        ensures { result ≡ error_status self }
    {
        match self {
            LiveError::Plan(_) | LiveError::TooFewSections | LiveError::Writer => 1,
            LiveError::TurnsSpent | LiveError::GateShut => 3,
            LiveError::Memory | LiveError::NoThread => 5,
        }
    }
}

impl From<OutputFault> for LiveError {
    ghost use Rattle.std.specs.Prelude.{◌≡◌};
    ghost use Rattle.mx_live.specs.LiveErrors.{error_of_put};

    ghost from_gives = { λ fault error. error ≡ error_of_put fault };

    fn from(fault: OutputFault) -> LiveError {
        match fault {
            OutputFault::Refused => LiveError::Writer,
            OutputFault::Memory => LiveError::Memory,
        }
    }
}

impl From<AllocError> for LiveError {
    ghost use Rattle.std.specs.Prelude.{◌≡◌};
    ghost use Rattle.mx_live.specs.declared.live_error.LiveError.TheVariants.{Memory};

    ghost from_gives = { λ _ error. error ≡ Memory };

    fn from(_e: AllocError) -> LiveError {
        LiveError::Memory
    }
}

impl From<StartFault> for LiveError {
    ghost use Rattle.std.specs.Prelude.{◌≡◌};
    ghost use Rattle.mx_live.specs.LiveErrors.{error_of_start};

    ghost from_gives = { λ fault error. error ≡ error_of_start fault };

    fn from(fault: StartFault) -> LiveError {
        match fault {
            StartFault::Memory => LiveError::Memory,
            StartFault::NoThread => LiveError::NoThread,
        }
    }
}

/// Returns the error of a run whose plan was not read: its fault, or that memory ran out.
pub(crate) fn unread_error(stop: Stop) -> LiveError
    ensures { result ≡ unread_error stop }
{
    match stop {
        Stop::Fault(fault) => LiveError::Plan(fault),
        Stop::Line(_) | Stop::Writer | Stop::Memory => LiveError::Memory,
    }
}

/// The message for an error. `plan` is the name of the plan's file.
#[derive(Clone, Copy)]
pub(crate) struct LiveErrorLine<'a> {
    pub(crate) error: LiveError,
    pub(crate) plan: &'a str,
}

impl fmt::Display for LiveErrorLine<'_> {
    ghost output = { λ l. Some (error_line l.plan.now l.error) };

    fn fmt<W: fmt::Write>(&self, f: &mut fmt::Formatter<W>) -> fmt::Result {
        match self.error {
            LiveError::Plan(fault) => write!(f, "{}", fault_line(fault, self.plan)),
            LiveError::TooFewSections => writeln!(f, "mx: too few sections"),
            LiveError::TurnsSpent => writeln!(f, "mx: turns spent"),
            LiveError::GateShut => writeln!(f, "mx: gate shut"),
            LiveError::Memory => writeln!(f, "mx: out of memory"),
            LiveError::NoThread => {
                f.write_str("mx: out of memory\nmx: a thread could not be started\n")
            }
            LiveError::Writer => Ok(()),
        }
    }
}

fn fault_line<'a>(fault: Fault, plan: &'a str) -> FaultLine<'a>
    ensures fault { result.fault ≡ fault }
    ensures plan { result.names.plan.now ≡ plan.now }
    ensures events { result.names.events.now ≡ plan.now }
{
    let names = FileNames { plan, events: plan };
    FaultLine { fault, names }
}

/// Prints to `err` why a run has no journal, and returns the exit status. For `Writer`, prints
/// nothing.
pub fn report_error<E: Output>(alloc: Global, error: LiveError, plan: &str, err: &mut E) -> u8
    ensures { ReportsError (E.takes_all err.old) plan.now error
        (E.written err.old) (E.written err.new) result }
{
    match error {
        LiveError::Writer => return 1,
        LiveError::Memory => return report_memory(err),
        _ => {}
    }
    match write_line(alloc, err, LiveErrorLine { error, plan }) {
        Ok(()) | Err(OutputFault::Refused) => error.status(),
        Err(OutputFault::Memory) => report_memory(err),
    }
}
