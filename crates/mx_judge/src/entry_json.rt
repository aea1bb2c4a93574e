//! The entries and the messages of a trace as JSON.

ghost use Rattle.std.specs.Prelude.{◌≡◌, ◌++◌, OnOk, string_bytes};
ghost use Rattle.mx_format.specs.Lines.{each_text, texts_from};
ghost use Rattle.mx_judge.specs.EntryJson as spec;
ghost use Rattle.mx_judge.specs.Listed.{listed};
ghost use Rattle.mx_judge.specs.Messages.{message_json};

use crate::message::{Message, add_message};
use crate::trace::Trace;
use mx_events::Event;
use mx_format::json::{add_number, add_word, start_number};
use mx_format::{add_event_json, name_of};
use mx_plan::Plan;
use mx_stamps::NodeId;
use mx_trace::{Entry, Outcome};
use std::alloc::AllocError;

/// Appends the lines of the entries of a trace, each an object of JSON, with the messages of each.
pub(crate) fn add_entries(plan: &Plan, trace: &Trace, text: &mut String) -> Result<(), AllocError>
    ensures { OnOk result (string_bytes text.new ≡ string_bytes text.old
        ++ texts_from (spec.sending_json plan.now (listed trace.now)) 0 trace.now.entries.items) }
{
    let entries = trace.entries.as_slice();
    for (index, entry) in entries.iter().enumerate() {
        add_sending(plan, trace, index, entry, text)?;
    }
    Ok(())
}

/// Appends the line of an entry, and those of the messages that it sends.
fn add_sending(
    plan: &Plan,
    trace: &Trace,
    index: usize,
    entry: &Entry,
    text: &mut String,
) -> Result<(), AllocError>
    ensures { OnOk result (string_bytes text.new ≡ string_bytes text.old
        ++ spec.sending_json plan.now (listed trace.now) index entry.now) }
{
    add_entry(plan, index as u64, entry, text)?;
    add_messages(plan, trace.sent_by(index), text)
}

fn add_messages(plan: &Plan, messages: &[Message], text: &mut String) -> Result<(), AllocError>
    ensures { OnOk result (string_bytes text.new
        ≡ string_bytes text.old ++ each_text (message_json plan.now) messages.now) }
{
    for message in messages {
        add_message(plan, message, text)?;
    }
    Ok(())
}

fn add_entry(plan: &Plan, index: u64, entry: &Entry, text: &mut String) -> Result<(), AllocError>
    ensures { OnOk result (string_bytes text.new
        ≡ string_bytes text.old ++ spec.entry_json plan.now index entry.now) }
{
    match (&entry.event, &entry.outcome) {
        (Event::Leave(node), Outcome::Left(receipt)) => {
            add_exit(plan, index, *node, receipt.number, text)
        }
        _ => add_event_json(plan, index, entry, text),
    }
}

fn add_exit(
    plan: &Plan,
    index: u64,
    node: NodeId,
    number: u64,
    text: &mut String,
) -> Result<(), AllocError>
    ensures { OnOk result (string_bytes text.new
        ≡ string_bytes text.old ++ spec.exit_json plan.now index node number) }
{
    start_number("event", index, text)?;
    add_word("act", "leave", text)?;
    add_word("node", name_of(plan, node), text)?;
    add_word("outcome", "left", text)?;
    add_number("number", number, text)?;
    text.push_str("}\n")
}
