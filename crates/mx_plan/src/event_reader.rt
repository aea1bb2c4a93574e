ghost use Rattle.std.specs.Prelude.{◌≡◌, ◌≤◌, ◌∷◌, IfErr, IfOk, IsTrue, Err, Ok, length, map};
ghost use Rattle.serde_json.specs.View.{view};
ghost use Rattle.mx_events.specs.Arguments.{AreEventsWithin};
ghost use Rattle.mx_plan.specs.Values.{Gives};
ghost use Rattle.mx_plan.specs.NameLists.{number_in};
ghost use Rattle.mx_plan.specs.Events as spec;
ghost use Rattle.mx_plan.specs.declared.place.Place.TheVariants as place;

use crate::faults::PlanFault;
use crate::name_reader::is_name_value;
use crate::place::Place;
use crate::plan::Plan;
use crate::values::{elements, list_in, parse, text_in};
use arrayvec::ArrayVec;
use mx_events::{Argument, ArgumentKind, Event, EventKind};
use mx_stamps::{MAX_EVENTS, NodeId};
use serde_json::Value;
use std::alloc::Global;

/// Reads a list of at most 1,000,000 events. Each is an array of a word, names of the plan's nodes
/// and registers, and `u64` numbers: `["ask",N]`, `["enter",N]`, `["read",N,R]`, `["write",N,R,V]`,
/// `["leave",N]`, `["cancel",N]`, `["tick",N]`, `["want",N,M]`, `["settle",N,K]`, `["deliver",K]`
/// and `["restart",N]`. N and M are nodes, R is a register, V and K are numbers.
///
/// # Errors
///
/// Returns `NotJson` if the text is not JSON, and `NotPlan` with the place if the list or an event
/// has another form. Returns `UnknownName` if the plan has no node or register of a name. The form
/// of an event is checked before its names. A list of more than 1,000,000 events is refused at
/// event 1,000,000, before its events are read. Returns `Memory` if memory runs out.
pub fn read_events(alloc: Global, text: &[u8], plan: &Plan) -> Result<Vec<Event>, PlanFault>
    ensures gives { Gives (spec.events_at plan.now text.now) result }
    ensures within { IfOk result (λ events. AreEventsWithin (length plan.now.nodes)
        (length plan.now.registers) events.items) }
{
    let value = parse(alloc, text)?;
    events_in(alloc, &value, plan)
}

fn events_in(alloc: Global, value: &Value, plan: &Plan) -> Result<Vec<Event>, PlanFault>
    ensures { Gives (spec.events_of plan.now (view value.now)) result }
{
    match elements(value) {
        None => Err(PlanFault::NotPlan(Place::Events)),
        Some(values) if values.len() > MAX_EVENTS => Err(PlanFault::NotPlan(Place::Event(
            MAX_EVENTS as u64,
        ))),
        Some(values) => each_event(alloc, values, plan),
    }
}

fn each_event(alloc: Global, values: &[Value], plan: &Plan) -> Result<Vec<Event>, PlanFault>
    ensures { Gives (spec.events_from plan.now 0 (map view values.now)) result }
{
    let mut events = Vec::new(alloc);
    for (k, value) in values.iter().enumerate() {
        let event = event_in(plan, value, k as u64)?;
        if events.push(event).is_err() {
            return Err(PlanFault::Memory);
        }
    }
    Ok(events)
}

#[tactic(auto, unfolding(crate::specs::Events::event_of))]
fn event_in(plan: &Plan, value: &Value, k: u64) -> Result<Event, PlanFault>
    ensures { result ≡ spec.event_of plan.now k (view value.now) }
{
    let [word, values @ ..] = list_in(value) else {
        return Err(PlanFault::NotPlan(Place::Event(k)));
    };
    match EventKind::of_word(text_in(word)) {
        Some(kind) => event_with(plan, kind, values, k),
        None => Err(PlanFault::NotPlan(Place::Event(k))),
    }
}

/// Returns event `k` of the list, of this kind and with these values after its word. The form of
/// all values is checked first, and then the names.
fn event_with(plan: &Plan, kind: EventKind, values: &[Value], k: u64) -> Result<Event, PlanFault>
    ensures { result ≡ spec.event_with plan.now k kind (map view values.now) }
{
    let kinds = kind.arguments();
    if !have_form(kinds, values) {
        return Err(PlanFault::NotPlan(Place::Event(k)));
    }
    let arguments = arguments_in(plan, kinds, values, k)?;
    match Event::of(kind, arguments.as_slice()) {
        Some(event) => Ok(event),
        None => Err(PlanFault::NotPlan(Place::Event(k))),
    }
}

fn have_form(kinds: &[ArgumentKind], values: &[Value]) -> bool
    ensures { result ≡ spec.have_form kinds.now (map view values.now) }
{
    if kinds.len() != values.len() {
        return false;
    }
    for (i, kind) in kinds.iter().enumerate() {
        if !has_form(*kind, &values[i]) {
            return false;
        }
    }
    true
}

fn has_form(kind: ArgumentKind, value: &Value) -> bool
    ensures { result ≡ spec.has_form kind (view value.now) }
{
    match kind {
        ArgumentKind::Node | ArgumentKind::Register => is_name_value(value),
        ArgumentKind::Value | ArgumentKind::Section | ArgumentKind::Parcel => {
            value.as_u64().is_some()
        }
    }
}

fn arguments_in(
    plan: &Plan,
    kinds: &[ArgumentKind],
    values: &[Value],
    k: u64,
) -> Result<ArrayVec<Argument, 3>, PlanFault>
    requires few { length kinds.now ≤ 3 }
    requires form { IsTrue (spec.have_form kinds.now (map view values.now)) }
    ensures ok { IfOk result (λ arguments.
        spec.arguments_in plan.now k kinds.now (map view values.now) ≡ Ok arguments.items) }
    ensures err { IfErr result (λ fault.
        spec.arguments_in plan.now k kinds.now (map view values.now) ≡ Err fault) }
{
    let mut arguments = ArrayVec::new();
    for (i, kind) in kinds.iter().enumerate() {
        let argument = argument_in(plan, *kind, &values[i], k)?;
        arguments.push(argument);
    }
    Ok(arguments)
}

fn argument_in(
    plan: &Plan,
    kind: ArgumentKind,
    value: &Value,
    k: u64,
) -> Result<Argument, PlanFault>
    ensures { result ≡ spec.argument_in plan.now k kind (view value.now) }
{
    match kind {
        ArgumentKind::Node => Ok(Argument::Node(node_in(plan, value, k)?)),
        ArgumentKind::Register => Ok(Argument::Register(register_in(plan, value, k)?)),
        ArgumentKind::Value | ArgumentKind::Section | ArgumentKind::Parcel => {
            match value.as_u64() {
                Some(number) => Ok(Argument::Number(number)),
                None => Err(PlanFault::NotPlan(Place::Event(k))),
            }
        }
    }
}

fn node_in(plan: &Plan, name: &Value, k: u64) -> Result<NodeId, PlanFault>
    ensures { result ≡ number_in (place.Event k) plan.now.nodes (view name.now) }
{
    match plan.node(text_in(name)) {
        Some(node) => Ok(node),
        None => Err(PlanFault::UnknownName(Place::Event(k))),
    }
}

fn register_in(plan: &Plan, name: &Value, k: u64) -> Result<u8, PlanFault>
    ensures { result ≡ number_in (place.Event k) plan.now.registers (view name.now) }
{
    match plan.register(text_in(name)) {
        Some(register) => Ok(register),
        None => Err(PlanFault::UnknownName(Place::Event(k))),
    }
}
