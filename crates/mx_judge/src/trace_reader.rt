//! Reading a trace: an entry or a message for each line, or for each item of an array.

ghost use Rattle.std.specs.Prelude.{◌≡◌, ◌⊎◌, Some, None, Ok, IfOk, IfErr, OnOk, map, option_map};
ghost use Rattle.std.specs.List.{list_all};
ghost use Rattle.serde_json.specs.View.{view};
ghost use Rattle.mx_plan.specs.Values.{value_of};
ghost use Rattle.mx_judge.specs.Entries.{item_of};
ghost use Rattle.mx_judge.specs.Faults.{line_fault, list_fault};
ghost use Rattle.mx_judge.specs.Listed.{listed, nothing};
ghost use Rattle.mx_judge.specs.Members.{AnswersItem};
ghost use Rattle.mx_judge.specs.Traces as spec;

use crate::entry_reader::{Item, is_passed_over, item_in, items_in};
use crate::fault_line::stop_at;
use crate::faults::{ItemFault, TraceFault};
use crate::members::has_member;
use crate::message::Message;
use crate::trace::Trace;
use mx_cli::{Stop, split_line};
use mx_plan::{Names, Plan};
use mx_stamps::MAX_EVENTS;
use serde_json::Value;
use std::alloc::{AllocError, Global};

/// Reads a trace of at most 1,000,000 events: a JSON array if the text begins with `[`, perhaps
/// after blanks, and otherwise lines, each a JSON object or blank.
///
/// # Errors
///
/// Returns the line of the first fault, and `Memory` if memory runs out.
pub fn trace_in(alloc: Global, plan: &Plan, text: &[u8]) -> Result<Trace, Stop>
    ensures { spec.ReadsTrace (spec.trace_at plan.now text.now) result }
{
    match read_trace(alloc, text, plan) {
        Ok(trace) => Ok(trace),
        Err(fault) => Err(stop_at(alloc, plan, text, fault)),
    }
}

/// Returns what a place in the text of a trace is called.
pub fn place_word(text: &[u8]) -> &'static str
    ensures { result.now ≡ spec.place_word text.now }
{
    if begins_array(text) { "item" } else { "line" }
}

fn read_trace(alloc: Global, text: &[u8], plan: &Plan) -> Result<Trace, TraceFault>
    ensures { spec.GivesTrace (spec.trace_at plan.now text.now) result }
{
    if begins_array(text) {
        return read_array(alloc, text, plan);
    }
    match is_plan(alloc, text) {
        Ok(true) => Err(TraceFault::Plan),
        Ok(false) => read_lines(alloc, text, plan),
        Err(_) => Err(TraceFault::Memory),
    }
}

/// Whether the text is a plan. Of a text of several events, only the first is parsed.
fn is_plan(alloc: Global, text: &[u8]) -> Result<bool, AllocError>
    ensures { IfOk result (λ is. is ≡ spec.is_plan text.now) }
{
    match parse(alloc, text) {
        Ok(value) => Ok(is_plan_object(&value)),
        Err(ItemFault::Memory) => Err(AllocError),
        Err(_) => Ok(false),
    }
}

fn is_plan_object(value: &Value) -> bool
    ensures { result ≡ spec.is_plan_object (view value.now) }
{
    has_member(value, "algorithm") && !(has_member(value, "act") || is_passed_over(value))
}

fn begins_array(text: &[u8]) -> bool
    ensures { result ≡ spec.begins_array text.now }
{
    match first_mark(text) {
        Some(byte) => *byte == b'[',
        None => false,
    }
}

fn first_mark(text: &[u8]) -> Option<&u8>
    ensures { option_map (λ byte. byte.now) result ≡ spec.first_mark text.now }
{
    text.iter().find(|byte| !is_blank(**byte))
}

fn is_blank(byte: u8) -> bool
    ensures { result ≡ spec.is_blank byte }
{
    byte == b' ' || byte == b'\t' || byte == b'\n' || byte == b'\r'
}

/// Returns whether a text begins with the byte order mark of UTF-8.
fn is_marked(text: &[u8]) -> bool
    ensures { result ≡ spec.is_marked text.now }
{
    match text {
        [a, b, c, ..] => *a == 0xef && *b == 0xbb && *c == 0xbf,
        _ => false,
    }
}

fn is_blank_line(line: &[u8]) -> bool
    ensures { result ≡ list_all spec.is_blank line.now }
{
    line.iter().all(|byte| is_blank(*byte))
}

fn read_array(alloc: Global, text: &[u8], plan: &Plan) -> Result<Trace, TraceFault>
    ensures { spec.GivesTrace (spec.array_at plan.now text.now) result }
{
    match parse(alloc, text) {
        Ok(value) => read_items(alloc, items_in(&value), plan),
        Err(ItemFault::Memory) => Err(TraceFault::Memory),
        Err(_) => Err(TraceFault::NotJson),
    }
}

fn read_items(alloc: Global, items: &[Value], plan: &Plan) -> Result<Trace, TraceFault>
    ensures { spec.GivesTrace
        (spec.entries_from list_fault nothing 1 (map (item_of plan.now) (map view items.now)))
        result }
{
    let mut trace = Trace::new(alloc);
    for (index, value) in items.iter().enumerate() {
        let number = index as u64 + 1;
        let item = item_in(alloc, plan, &trace.names, value);
        if let Err(fault) = add_item(alloc, &mut trace, number, item) {
            return Err(TraceFault::of_item(number, fault));
        }
    }
    Ok(trace)
}

fn read_lines(alloc: Global, text: &[u8], plan: &Plan) -> Result<Trace, TraceFault>
    ensures { spec.GivesTrace (spec.lines_at plan.now text.now) result }
{
    let mut trace = Trace::new(alloc);
    let mut rest = text;
    let mut number = 1u64;
    'lines: loop {
        let (line, after) = split_line(rest);
        let item = line_in(alloc, plan, &trace.names, line);
        if let Err(fault) = add_item(alloc, &mut trace, number, item) {
            return Err(TraceFault::of_line(number, fault));
        }
        if line.len() == rest.len() {
            return Ok(trace);
        }
        rest = after;
        number += 1;
    }
}

#[tactic(auto, unfolding(crate::specs::Traces::line_item))]
fn line_in(
    alloc: Global,
    plan: &Plan,
    names: &Names,
    line: &[u8],
) -> Result<Option<Item>, ItemFault>
    ensures { AnswersItem (spec.line_item plan.now line.now names.now) result }
{
    if is_blank_line(line) {
        return Ok(None);
    }
    if is_marked(line) {
        return Err(ItemFault::Mark);
    }
    match parse(alloc, line) {
        Ok(value) => item_in(alloc, plan, names, &value),
        Err(fault) => Err(fault),
    }
}

#[tactic(auto, unfolding(mx_plan::specs::Values::value_of))]
fn parse(alloc: Global, text: &[u8]) -> Result<Value, ItemFault>
    ensures ok { IfOk result (λ v. value_of text.now ≡ Some (view v)) }
    ensures err { IfErr result (λ e. (e ≡ ItemFault.Memory)
        ⊎ ((e ≡ ItemFault.NotJson) × (value_of text.now ≡ None))) }
{
    match Value::from_slice(alloc, text) {
        Ok(value) => Ok(value),
        Err(e) if e.is_memory() => Err(ItemFault::Memory),
        Err(_) => Err(ItemFault::NotJson),
    }
}

/// Appends what a line or an item has, if it has something.
fn add_item(
    alloc: Global,
    trace: &mut Trace,
    number: u64,
    item: Result<Option<Item>, ItemFault>,
) -> Result<(), ItemFault>
    ensures ok { OnOk result
        (spec.with_item number (listed trace.old) item ≡ Ok (listed trace.new)) }
    ensures err { IfErr result (spec.RefusesItem (spec.with_item number (listed trace.old) item)) }
{
    match item? {
        None => Ok(()),
        Some(Item::Event(_)) if trace.entries.len() >= MAX_EVENTS => Err(ItemFault::TooMany),
        Some(Item::Event(entry)) => Ok(trace.push(number, entry)?),
        Some(Item::Message(message)) => add_message(alloc, trace, message),
    }
}

fn add_message(alloc: Global, trace: &mut Trace, message: Message) -> Result<(), ItemFault>
    ensures ok { OnOk result (spec.with_sent (listed trace.old) message ≡ Ok (listed trace.new)) }
    ensures err { IfErr result (spec.RefusesItem (spec.with_sent (listed trace.old) message)) }
{
    if trace.entries.is_empty() {
        return Err(ItemFault::NoSender);
    }
    if trace.send(alloc, message)? {
        Ok(())
    } else {
        Err(ItemFault::SentBefore)
    }
}
