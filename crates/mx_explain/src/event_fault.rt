//! What is wrong in a list of events.

use crate::json_report::{JsonReport, WrongSpot, read_value};
use crate::location::FilePart;
use crate::notes::Notes;
use crate::plan_fault::{NODE, NUMBER, wrong_word};
use crate::report::{FaultReport, ReportResult};
use crate::script_lines::script_begin;
use crate::spot::Spot;
use json::{Error, Scratch, Value};
use mx_cli::{Fault, split_line};
use mx_events::{ArgumentKind, EventKind};
use mx_lines::{FirstWords, KnownNames, Listed, Meant, meant_by};
use mx_plan::{Place, Plan, PlanFault};
use std::alloc::{AllocError, Global};

const EVENTS: &str = "an array of events, as [[\"ask\",NODE],[\"deliver\",0]]";

const SCRIPT: &str =
    " found the lines of a script, expected JSON; scripts are explained with --script";

/// Reports the refused events of a list, and its fault, if it has one.
pub(crate) fn explain_events(
    report: &mut FaultReport,
    part: FilePart<'_>,
    plan: &Plan,
    notes: &Notes,
) -> ReportResult {
    notes.add_warnings(report, &part)?;
    let Some(fault) = notes.fault else {
        return Ok(());
    };
    if is_trace(report.alloc(), part.text)? {
        return add_trace(report, &part);
    }
    if let Some(offset) = script_begin(report.alloc(), part.text)? {
        return report.add_at(&part, offset, SCRIPT);
    }
    let mut scratch = Scratch::new(report.alloc());
    let Some(events) = read_value(report, &part, &mut scratch)? else {
        return Ok(());
    };
    let events = Spot::root("events", &events);
    let mut report = JsonReport { report, part };
    match fault {
        Fault::NoParcel(k) => {
            add_unsent(&mut report, events.item(k as usize).item(1), notes.sent)
        }
        Fault::BadText(PlanFault::NotPlan(Place::Event(1_000_000))) => {
            report.add_wrong(&WrongSpot::of(events, "at most 1000000 events"))
        }
        Fault::BadText(
            PlanFault::NotPlan(Place::Event(k)) | PlanFault::UnknownName(Place::Event(k)),
        ) => add_event(&mut report, events.item(k as usize), plan),
        _ => report.add_wrong(&WrongSpot::of(events, EVENTS)),
    }
}

/// Whether a text is a trace: its first line is an event with its outcome, or it is an array that
/// begins with one.
fn is_trace(alloc: Global, text: &[u8]) -> Result<bool, AllocError> {
    let (line, _) = split_line(text);
    let part = if text.starts_with(b"[") { text } else { line };
    let mut scratch = Scratch::new(alloc);
    match Value::from_slice(alloc, part, &mut scratch) {
        Ok(value) => Ok(has_outcome(&value) || first_has_outcome(&value)),
        Err(Error::OutOfMemory) => Err(AllocError),
        Err(_) => Ok(false),
    }
}

fn first_has_outcome(value: &Value<'_>) -> bool {
    match value {
        Value::Array(items) => items.first().is_some_and(|first| has_outcome(first)),
        _ => false,
    }
}

fn has_outcome(value: &Value<'_>) -> bool {
    match value {
        Value::Object(members) => members.iter().any(|(name, _)| *name == "outcome"),
        _ => false,
    }
}

fn add_trace(report: &mut FaultReport, part: &FilePart<'_>) -> ReportResult {
    let alloc = report.alloc();
    let text = format!(in alloc;
        " events: a trace stands here, which `mx judge` reads, expected {EVENTS}"
    )?;
    report.add_at(part, 0, text.as_str())
}

fn add_unsent(report: &mut JsonReport<'_>, parcel: Spot<'_, '_>, sent: u64) -> ReportResult {
    let alloc = report.alloc();
    let mut expected = String::from_str(alloc, "a parcel that was sent before: ")?;
    match sent.checked_sub(1) {
        Some(last) => write!(expected, "there are {sent}, from 0 to {last}")?,
        None => expected.push_str("there is none yet")?,
    }
    report.add_wrong(&WrongSpot::of(parcel, expected.as_str()))
}

/// Adds the first value that is wrong in an event, in the order of the text.
fn add_event(report: &mut JsonReport<'_>, event: Spot<'_, '_>, plan: &Plan) -> ReportResult {
    let alloc = report.alloc();
    let Some(count) = event.len().checked_sub(1) else {
        let expected = "an array of a word and its arguments, as [\"ask\",NODE]";
        return report.add_wrong(&WrongSpot::of(event, expected));
    };
    let Some(kind) = EventKind::of_word(event.item(0).text()) else {
        return add_word(report, event.item(0));
    };
    let (word, wanted) = (kind.word(), kind.arguments().len());
    if wanted != count {
        let noun = if wanted == 1 { "argument" } else { "arguments" };
        let text = format!(in alloc; "`{word}` takes {wanted} {noun}, got {count}")?;
        return report.add(event, text.as_str());
    }
    let nodes = plan.node_names(alloc)?;
    let registers = plan.register_names(alloc)?;
    for (i, kind) in kind.arguments().iter().enumerate() {
        let spot = event.item(i.saturating_add(1));
        let wrong = wrong_argument(spot, *kind, nodes.as_slice(), registers.as_slice());
        if let Some(wrong) = wrong {
            return report.add_wrong(&wrong);
        }
    }
    Ok(())
}

fn wrong_argument<'w, 'a>(
    spot: Spot<'w, 'a>,
    kind: ArgumentKind,
    nodes: &'w [&'w str],
    registers: &'w [&'w str],
) -> Option<WrongSpot<'w, 'a>> {
    match kind {
        ArgumentKind::Node => wrong_word(spot, NODE, nodes),
        ArgumentKind::Register => wrong_word(spot, "a register of the plan", registers),
        _ if spot.value.and_then(Value::as_u64).is_some() => None,
        _ => Some(WrongSpot::of(spot, NUMBER)),
    }
}

fn add_word(report: &mut JsonReport<'_>, spot: Spot<'_, '_>) -> ReportResult {
    let alloc = report.alloc();
    let known = FirstWords::OfEvents.listed(alloc)?;
    let mut expected = format!(in alloc; "{}", Listed(known.as_slice()))?;
    expected.write(Meant(meant_by(spot.text(), known.as_slice())))?;
    let (expected, known) = (expected.as_str(), known.as_slice());
    report.add_wrong(&WrongSpot {
        spot,
        expected,
        known,
    })
}
