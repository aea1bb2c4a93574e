//! Why a command ends early.

ghost use Rattle.std.specs.Prelude.{◌≡◌, IfSome};
ghost use Rattle.mx_cli.specs.Printing.{IsStopWith};

use crate::faults::Fault;
use mx_io::OutputFault;
use mx_plan::PlanFault;
use std::alloc::{AllocError, Global};
use std::fmt::Display;

/// Why a command ends early.
#[derive(Drop)]
pub enum Stop {
    /// A fault of the plan or of the text that comes with it. Its line may name them.
    Fault(Fault),
    /// The line of another fault.
    Line(String),
    /// An output refused a text. Nothing more is printed.
    Writer,
    Memory,
}

/// Returns the reason to stop that has this line, or `Memory` if memory runs out.
pub fn stop_with<D: Display + Drop>(alloc: Global, line: D) -> Stop
    ensures { IfSome (D.output line) (λ text. IsStopWith text result) }
{
    match line.to_string(alloc) {
        Ok(text) => Stop::Line(text),
        Err(_) => Stop::Memory,
    }
}

impl From<AllocError> for Stop {
    ghost use Rattle.std.specs.Prelude.{◌≡◌};
    ghost use Rattle.mx_cli.specs.declared.stop.Stop.TheVariants.{Memory};

    ghost from_gives = { λ _ s. s ≡ Memory };

    fn from(_e: AllocError) -> Stop {
        Stop::Memory
    }
}

impl From<OutputFault> for Stop {
    ghost use Rattle.std.specs.Prelude.{◌≡◌};
    ghost use Rattle.mx_cli.specs.Printing.{stop_of};

    ghost from_gives = { λ fault s. s ≡ stop_of fault };

    fn from(fault: OutputFault) -> Stop {
        match fault {
            OutputFault::Refused => Stop::Writer,
            OutputFault::Memory => Stop::Memory,
        }
    }
}

impl From<PlanFault> for Stop {
    ghost use Rattle.std.specs.Prelude.{◌≡◌};
    ghost use Rattle.mx_cli.specs.Printing.{stop_at};

    ghost from_gives = { λ fault s. s ≡ stop_at fault };

    fn from(fault: PlanFault) -> Stop {
        match fault {
            PlanFault::Memory => Stop::Memory,
            _ => Stop::Fault(Fault::BadText(fault)),
        }
    }
}
