//! The message about a member that is missing or wrong.

ghost use Rattle.std.specs.Prelude.{IfOk, string_bytes};
ghost use Rattle.mx_lines.specs.Escapes.{ArePrintable};
ghost use Rattle.mx_judge.specs.Faults.{IsMessageOf};

use crate::faults::TraceFault;
use crate::members::Member;
use crate::outcome_reader::word_of_done;
use json::{Error, Scratch, Value};
use mx_events::EventKind;
use mx_lines::{FirstWords, KnownNames, Listed, Nearest, Quoted, add_escaped_text, nearest};
use mx_plan::Plan;
use mx_trace::CAUSES;
use std::alloc::{AllocError, Global};
use std::fmt;
use std::fmt::Display;

/// A number of more bytes is not shown, only its length.
const MAX_BYTES: usize = 40;

/// Returns what follows the words of a fault of a trace: a colon and a message if a member is
/// missing or wrong, and nothing otherwise. `text` is that of the trace.
pub(crate) fn message_of(
    alloc: Global,
    plan: &Plan,
    text: &[u8],
    fault: TraceFault,
) -> Result<String, AllocError>
    ensures { IfOk result (λ message. IsMessageOf fault (string_bytes message)) }
{
    match fault.wrong_member() {
        Some(member) => escaped_message(alloc, plan, text, fault, member),
        None => Ok(String::new(alloc)),
    }
}

fn escaped_message(
    alloc: Global,
    plan: &Plan,
    text: &[u8],
    fault: TraceFault,
    member: Member,
) -> Result<String, AllocError>
    ensures { IfOk result (λ message. ArePrintable (string_bytes message)) }
{
    let raw = raw_message(alloc, plan, text, fault, member)?;
    let mut message = String::with_capacity(alloc, raw.len())?;
    add_escaped_text(raw.as_str(), &mut message)?;
    Ok(message)
}

/// Reads the object of a fault once more, with numbers as they were written. Returns an empty text
/// if it is not JSON.
fn raw_message(
    alloc: Global,
    plan: &Plan,
    text: &[u8],
    fault: TraceFault,
    member: Member,
) -> Result<String, AllocError> {
    let mut scratch = Scratch::new(alloc);
    match Value::from_slice(alloc, json_of(text, fault), &mut scratch) {
        Ok(value) => message_about(alloc, plan, object_of(&value, fault), member),
        Err(Error::OutOfMemory) => Err(AllocError),
        Err(_) => Ok(String::new(alloc)),
    }
}

/// Returns the line of a fault, or the whole text if that is an array.
fn json_of(text: &[u8], fault: TraceFault) -> &[u8] {
    match fault {
        TraceFault::Line(number, _) => line_of(text, number),
        _ => text,
    }
}

/// Returns the line with a number, counted from 1.
fn line_of(text: &[u8], number: u64) -> &[u8] {
    let mut lines = text.split(|byte| *byte == b'\n');
    lines.nth(number.saturating_sub(1) as usize).unwrap_or(&[])
}

fn object_of<'v, 'a>(value: &'v Value<'a>, fault: TraceFault) -> Option<&'v Value<'a>> {
    match fault {
        TraceFault::Item(number, _) => value.at(number.saturating_sub(1) as usize),
        _ => Some(value),
    }
}

fn message_about(
    alloc: Global,
    plan: &Plan,
    object: Option<&Value<'_>>,
    member: Member,
) -> Result<String, AllocError> {
    let found = object.and_then(|object| object.get(member.key()));
    let word = found.and_then(Value::as_str).unwrap_or("");
    let known = known_words(alloc, plan, object, member)?;
    let nearest = Nearest(nearest(alloc, word, known.as_slice())?);
    let mut text = String::new(alloc);
    match found {
        Some(value) => write!(text, ": found {}, expected ", Found(value))?,
        None => text.push_str(": missing; expected ")?,
    }
    match member.expected() {
        Some(phrase) => write!(text, "{phrase}{nearest}")?,
        None => write!(text, "{}{nearest}", Listed(known.as_slice()))?,
    }
    Ok(text)
}

/// Returns the words that a member of an object may have, if they are limited.
fn known_words<'w>(
    alloc: Global,
    plan: &'w Plan,
    object: Option<&Value<'_>>,
    member: Member,
) -> Result<Vec<&'w str>, AllocError> {
    let words = match member {
        Member::Act => FirstWords::OfEvents.listed(alloc)?,
        Member::Outcome => outcome_words(alloc, object)?,
        Member::Cause => cause_words(alloc)?,
        Member::Node | Member::From | Member::To | Member::Of => plan.node_names(alloc)?,
        Member::Register => plan.register_names(alloc)?,
        _ => Vec::new(alloc),
    };
    Ok(words)
}

fn cause_words(alloc: Global) -> Result<Vec<&'static str>, AllocError> {
    CAUSES.iter().map(|cause| cause.words()).collect(alloc)
}

/// Returns the outcomes that the event of an object may have.
fn outcome_words(
    alloc: Global,
    object: Option<&Value<'_>>,
) -> Result<Vec<&'static str>, AllocError> {
    let act = object.and_then(|object| object.get(Member::Act.key()));
    let mut words = Vec::new(alloc);
    if let Some(kind) = EventKind::of_word(act.and_then(Value::as_str).unwrap_or("")) {
        words.push(word_of_done(kind))?;
    }
    words.push("refused")?;
    Ok(words)
}

/// A value as a message shows it: short ones as they were written.
#[derive(Clone, Copy)]
struct Found<'v, 'a>(&'v Value<'a>);

impl Display for Found<'_, '_> {
    fn fmt<W: fmt::Write>(&self, f: &mut fmt::Formatter<W>) -> fmt::Result {
        match self.0 {
            Value::Null => f.write_str("null"),
            Value::Bool(value) => write!(f, "{value}"),
            Value::Number(text) if text.len() > MAX_BYTES => {
                write!(f, "a number of {} bytes", text.len())
            }
            Value::Number(text) => f.write_str(text),
            Value::String(text) => write!(f, "{}", Quoted(text)),
            Value::Array(items) => write!(f, "an array of {}", items.len()),
            Value::Object(_) => f.write_str("an object"),
        }
    }
}
