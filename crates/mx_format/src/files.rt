//! Files of events: a list in JSON, with one event a line.

ghost use Rattle.std.specs.Prelude.{◌≡◌, ◌++◌, string_bytes, IfOk, OnOk};
ghost use Rattle.mx_format.specs.Files.{events_of, file_text, next_text};
ghost use Rattle.mx_format.specs.Lines.{each_text};

use crate::event_arrays::add_event_array;
use mx_plan::Plan;
use mx_trace::Entry;
use std::alloc::{AllocError, Global};

/// Returns the file of the events of a trace.
pub fn file_of(alloc: Global, plan: &Plan, trace: &[Entry]) -> Result<String, AllocError>
    ensures { IfOk result (λ text.
        string_bytes text ≡ file_text plan.now (events_of trace.now)) }
{
    let mut text = String::new(alloc);
    add_file(plan, trace, &mut text)?;
    Ok(text)
}

/// Appends the file of the events of a trace.
pub fn add_file(plan: &Plan, trace: &[Entry], text: &mut String) -> Result<(), AllocError>
    ensures { OnOk result (string_bytes text.new
        ≡ string_bytes text.old ++ file_text plan.now (events_of trace.now)) }
{
    let Some((first, rest)) = trace.split_first() else {
        return text.push_str("[]\n");
    };
    text.push_str("[\n")?;
    add_event_array(plan, &first.event, text)?;
    add_next(plan, rest, text)?;
    text.push_str("\n]\n")
}

fn add_next(plan: &Plan, trace: &[Entry], text: &mut String) -> Result<(), AllocError>
    ensures { OnOk result (string_bytes text.new
        ≡ string_bytes text.old ++ each_text (λ entry. next_text plan.now entry.event) trace.now) }
{
    for entry in trace {
        text.push_str(",\n")?;
        add_event_array(plan, &entry.event, text)?;
    }
    Ok(())
}
