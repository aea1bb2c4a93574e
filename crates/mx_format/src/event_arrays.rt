//! Events as arrays of JSON, as files of events have them.

ghost use Rattle.std.specs.Prelude.{◌≡◌, ◌++◌, OnOk, string_bytes};
ghost use Rattle.mx_format.specs.EventArrays.{item_text, value_text};

use crate::events::{name_of, register_name_of};
use crate::lists::{Json, Listed, add_each};
use mx_events::Argument;
use mx_plan::Plan;
use mx_trace::Event;
use std::alloc::AllocError;

/// Appends an event as an array: its word, and then its arguments.
pub fn add_event_array(plan: &Plan, event: &Event, text: &mut String) -> Result<(), AllocError>
    ensures { OnOk result (string_bytes text.new
        ≡ string_bytes text.old ++ item_text plan.now event.now) }
{
    let arguments = event.arguments();
    write!(text, "[\"{}\"", event.kind().word())?;
    add_each(plan, ",", arguments.as_slice(), text)?;
    text.push_str("]")
}

impl Listed<Json> for Argument {
    ghost written = { value_text };

    fn add(&self, plan: &Plan, text: &mut String) -> Result<(), AllocError> {
        match self {
            Argument::Node(node) => write!(text, "\"{}\"", name_of(plan, *node)),
            Argument::Register(register) => {
                write!(text, "\"{}\"", register_name_of(plan, *register))
            }
            Argument::Number(number) => write!(text, "{number}"),
        }
    }
}
