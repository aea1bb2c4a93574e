//! Reading an entry of a trace, or a message, from a JSON object.

ghost use Rattle.std.specs.Prelude.{◌≡◌, map};
ghost use Rattle.serde_json.specs.View.{view};
ghost use Rattle.mx_plan.specs.Values.{list_in};
ghost use Rattle.mx_judge.specs.Entries as spec;
ghost use Rattle.mx_judge.specs.Members.{AnswersItem};

use crate::faults::ItemFault;
use crate::members::{Member, has_member, number_at, text_at};
use crate::message::{Message, delivered_at, message_in};
use crate::outcome_reader::outcome_in;
use mx_events::{Argument, ArgumentKind, Event, EventKind};
use mx_journal::Receipt;
use mx_plan::{Names, Plan};
use mx_trace::{Boxed, Entry};
use serde_json::Value;
use std::alloc::Global;

/// What an object of a trace has.
#[derive(Drop)]
pub(crate) enum Item {
    Event(Entry),
    Message(Message),
}

#[tactic(auto, unfolding(crate::specs::Entries::item_of))]
pub(crate) fn item_in(
    alloc: Global,
    plan: &Plan,
    names: &Names,
    value: &Value,
) -> Result<Option<Item>, ItemFault>
    ensures { AnswersItem (spec.item_of plan.now (view value.now) names.now) result }
{
    if has_member(value, "act") {
        return Ok(Some(Item::Event(entry_in(alloc, plan, names, value)?)));
    }
    if has_member(value, "kind") {
        return Ok(Some(Item::Message(message_in(alloc, plan, names, value)?)));
    }
    if is_passed_over(value) {
        return Ok(None);
    }
    if is_bare_event(value) {
        return Err(ItemFault::NoOutcome);
    }
    Err(ItemFault::NotEvent)
}

pub(crate) fn is_passed_over(value: &Value) -> bool
    ensures { result ≡ spec.is_passed_over (view value.now) }
{
    has_member(value, "kind")
        || has_member(value, "phase")
        || has_member(value, "stuck")
        || has_member(value, "verdict")
        || is_of_script(value)
}

/// Returns whether a value describes what a script does beside events.
fn is_of_script(value: &Value) -> bool
    ensures { result ≡ spec.is_of_script (view value.now) }
{
    has_member(value, "line")
        || has_member(value, "lost")
        || has_member(value, "cut")
        || has_member(value, "heal")
}

fn is_bare_event(value: &Value) -> bool
    ensures { result ≡ spec.is_bare_event (view value.now) }
{
    EventKind::of_word(first_text(items_in(value))).is_some()
}

fn first_text(items: &[Value]) -> &str
    ensures { result.now ≡ spec.first_text (map view items.now) }
{
    match items {
        [] => "",
        [first, ..] => first.as_str().unwrap_or(""),
    }
}

/// Returns the items of an array, and none of any other value.
pub(crate) fn items_in(value: &Value) -> &[Value]
    ensures { map view result.now ≡ list_in (view value.now) }
{
    match value.as_array() {
        Some(items) => items.as_slice(),
        None => &[],
    }
}

fn entry_in(alloc: Global, plan: &Plan, names: &Names, value: &Value) -> Result<Entry, ItemFault>
    ensures { AnswersItem (spec.entry_of plan.now (view value.now) names.now) result }
{
    let room = Boxed::new(alloc, Receipt::default())?;
    let event = event_in(alloc, plan, names, value)?;
    let outcome = outcome_in(&event, value, room)?;
    Ok(Entry { event, outcome })
}

fn event_in(alloc: Global, plan: &Plan, names: &Names, value: &Value) -> Result<Event, ItemFault>
    ensures { AnswersItem (spec.event_in plan.now (view value.now) names.now) result }
{
    match EventKind::of_word(text_at(value, Member::Act)) {
        Some(EventKind::Deliver) => Ok(Event::Deliver(delivered_at(alloc, names, value)?)),
        Some(kind) => event_at(plan, value, kind),
        None => Err(ItemFault::Wrong(Member::Act)),
    }
}

fn event_at(plan: &Plan, value: &Value, kind: EventKind) -> Result<Event, ItemFault>
    ensures { result ≡ spec.event_at plan.now (view value.now) kind }
{
    match kind.arguments() {
        [a] => event_of(kind, &[argument_at(plan, value, Member::Node, *a)?]),
        [a, b] => {
            let a = argument_at(plan, value, Member::Node, *a)?;
            event_of(kind, &[a, argument_at(plan, value, Member::From, *b)?])
        }
        [a, b, c] => {
            let a = argument_at(plan, value, Member::Node, *a)?;
            let b = argument_at(plan, value, Member::From, *b)?;
            event_of(kind, &[a, b, argument_at(plan, value, Member::From, *c)?])
        }
        _ => event_of(kind, &[]),
    }
}

fn event_of(kind: EventKind, arguments: &[Argument]) -> Result<Event, ItemFault>
    ensures { result ≡ spec.event_by kind arguments.now }
{
    Event::of(kind, arguments).ok_or(ItemFault::Wrong(Member::Act))
}

/// Returns the argument of a kind; `node` is the member of a node.
fn argument_at(
    plan: &Plan,
    value: &Value,
    node: Member,
    kind: ArgumentKind,
) -> Result<Argument, ItemFault>
    ensures { result ≡ spec.argument_at plan.now (view value.now) node kind }
{
    match kind {
        ArgumentKind::Node => match plan.node(text_at(value, node)) {
            Some(node) => Ok(Argument::Node(node)),
            None => Err(ItemFault::Wrong(node)),
        },
        ArgumentKind::Register => match plan.register(text_at(value, Member::Register)) {
            Some(register) => Ok(Argument::Register(register)),
            None => Err(ItemFault::Wrong(Member::Register)),
        },
        ArgumentKind::Value => Ok(Argument::Number(number_at(value, Member::Value)?)),
        ArgumentKind::Section => Ok(Argument::Number(number_at(value, Member::Upto)?)),
        ArgumentKind::Parcel => Err(ItemFault::Wrong(Member::Act)),
    }
}
