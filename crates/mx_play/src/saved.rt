//! Saves what has happened in a session, as a script.

ghost use Rattle.std.specs.Prelude.{IfOk, string_bytes};
ghost use Rattle.mx_io.specs.Stored.{Stores};
ghost use Rattle.mx_play.specs.Executions.{HasSaved, Saved};

use crate::input_fault::InputFault;
use crate::session::DoneLine;
use crate::session_script::add_script;
use mx_io::{Refusal, Store};
use mx_lines::Escaped;
use mx_plan::Plan;
use std::alloc::{AllocError, Global};

/// Stores the script of these lines under a name, and prints that name. A `message` gets the name,
/// and why nothing can be stored under it.
pub(crate) fn save<W: Store>(
    alloc: Global,
    plan: &Plan,
    lines: &[DoneLine],
    name: &str,
    store: &mut W,
    text: &mut String,
    message: &mut String,
) -> Result<Option<InputFault>, AllocError>
    ensures { IfOk result (λ fault. (saved : Saved)
        × Stores (W.stored store.old) (W.stored store.new) saved
        × HasSaved fault plan.now lines.now name.now saved
        (string_bytes text.old) (string_bytes text.new)) }
{
    let mut script = String::new(alloc);
    add_script(plan, lines, &mut script)?;
    match store.put(name, script.as_bytes()) {
        Ok(()) => {
            writeln!(text, "saved: {}", Escaped(name))?;
            Ok(None)
        }
        Err(Refusal::Because(why)) => {
            write!(message, ": {}: {why}", Escaped(name))?;
            Ok(Some(InputFault::Unwritten))
        }
        Err(Refusal::Memory) => Err(AllocError),
    }
}
