//! Events and their outcomes as JSON.

ghost use Rattle.std.specs.Prelude.{◌≡◌, ◌++◌, OnOk, string_bytes};
ghost use Rattle.mx_format.specs.EventJson.{act_json, event_json, outcome_json, owner_json, refusal_json, rest_json, with_json};

use crate::json::{
    add_node_name, add_number, add_register_name, add_word, add_word_and_number, start_number,
};
use mx_plan::Plan;
use mx_stamps::NodeId;
use mx_trace::{Cause, Entry, Event, Outcome};
use std::alloc::AllocError;

/// Appends the line of an event and its outcome, as an object of JSON.
pub fn add_event_json(
    plan: &Plan,
    index: u64,
    entry: &Entry,
    text: &mut String,
) -> Result<(), AllocError>
    ensures { OnOk result (string_bytes text.new
        ≡ string_bytes text.old ++ event_json plan.now index entry.now) }
{
    start_number("event", index, text)?;
    add_act(plan, &entry.event, text)?;
    add_outcome(&entry.outcome, text)?;
    text.push_str("}\n")
}

fn add_act(plan: &Plan, event: &Event, text: &mut String) -> Result<(), AllocError>
    ensures { OnOk result (string_bytes text.new
        ≡ string_bytes text.old ++ act_json plan.now event.now) }
{
    add_word("act", event.kind().word(), text)?;
    add_owner(plan, event.node(), text)?;
    add_rest(plan, event, text)
}

fn add_owner(plan: &Plan, owner: Option<NodeId>, text: &mut String) -> Result<(), AllocError>
    ensures { OnOk result (string_bytes text.new
        ≡ string_bytes text.old ++ owner_json plan.now owner) }
{
    match owner {
        Some(node) => add_node_name(plan, "node", node, text),
        None => Ok(()),
    }
}

fn add_rest(plan: &Plan, event: &Event, text: &mut String) -> Result<(), AllocError>
    ensures { OnOk result (string_bytes text.new
        ≡ string_bytes text.old ++ rest_json plan.now event.now) }
{
    match event {
        Event::Read(_, register) => add_register_name(plan, *register, text),
        Event::Write(_, register, value) => {
            add_register_name(plan, *register, text)?;
            add_number("value", *value, text)
        }
        Event::Settle(_, upto) => add_number("upto", *upto, text),
        Event::Want(_, other) => add_node_name(plan, "from", *other, text),
        Event::Deliver(number) => add_number("parcel", *number, text),
        _ => Ok(()),
    }
}

fn add_outcome(outcome: &Outcome, text: &mut String) -> Result<(), AllocError>
    ensures { OnOk result (string_bytes text.new
        ≡ string_bytes text.old ++ outcome_json outcome.now) }
{
    match outcome {
        Outcome::Asked(stamp) => add_with("asked", "number", stamp.number, text),
        Outcome::Entered(number) => add_with("entered", "number", *number, text),
        Outcome::Value(value) => add_with("value", "value", *value, text),
        Outcome::Written => add_word("outcome", "written", text),
        Outcome::Left(receipt) => {
            add_with("left", "number", receipt.number, text)?;
            add_number("writes", receipt.writes.len() as u64, text)
        }
        Outcome::Cancelled => add_word("outcome", "cancelled", text),
        Outcome::Settled => add_word("outcome", "settled", text),
        Outcome::Sent(count) => add_with("sent", "count", *count, text),
        Outcome::Delivered => add_word("outcome", "delivered", text),
        Outcome::Woken => add_word("outcome", "woken", text),
        Outcome::Refused(cause) => add_refusal(cause, text),
    }
}

fn add_with(outcome: &str, key: &str, number: u64, text: &mut String) -> Result<(), AllocError>
    ensures { OnOk result (string_bytes text.new
        ≡ string_bytes text.old ++ with_json outcome.now key.now number) }
{
    add_word_and_number("outcome", outcome, key, number, text)
}

fn add_refusal(cause: &Cause, text: &mut String) -> Result<(), AllocError>
    ensures { OnOk result (string_bytes text.new
        ≡ string_bytes text.old ++ refusal_json cause.now) }
{
    add_word("outcome", "refused", text)?;
    add_word("cause", cause.words(), text)?;
    match cause.number() {
        Some(number) => add_number("number", number, text),
        None => Ok(()),
    }
}
