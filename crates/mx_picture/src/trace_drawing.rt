//! Draws a trace: each event, with its messages.

use crate::fates::KnownFates;
use crate::marked::Marked;
use crate::part::ShownPart;
use crate::rows::{PictureRows, Step};
use crate::sent::{Drawable, Sent, find_all};
use mx_events::Event;
use mx_judge::Trace;
use mx_plan::Plan;
use std::alloc::{AllocError, Global};

pub(crate) fn draw_trace<'a>(
    alloc: Global,
    plan: &'a Plan,
    part: &ShownPart,
    trace: &Trace,
    marked: Option<Marked>,
) -> Result<PictureRows<'a>, AllocError> {
    let mut rows = PictureRows::new(alloc, plan, part, fates_of(alloc, trace)?);
    rows.is_trace = true;
    rows.marked = marked;
    let mut sent = 0u64;
    for (index, entry) in trace.entries.iter().enumerate() {
        let before = sent;
        sent = sent.saturating_add(trace.sent_by(index).len() as u64);
        let step = Step {
            index: index as u64,
            entry,
            delivered: delivered(trace, &entry.event, before),
            sent: find_all(alloc, trace, before, sent)?,
        };
        rows.draw(trace, &step)?;
    }
    rows.end()?;
    Ok(rows)
}

/// Returns what becomes of the messages.
fn fates_of(alloc: Global, trace: &Trace) -> Result<KnownFates, AllocError> {
    let mut fates = KnownFates::new(alloc);
    for entry in &trace.entries {
        fates.expect(&entry.event)?;
    }
    Ok(fates)
}

/// Returns the message that an event delivers, if it is one of the first `sent`.
fn delivered(trace: &Trace, event: &Event, sent: u64) -> Option<Sent> {
    match event {
        Event::Deliver(number) if *number < sent => trace.find(*number),
        _ => None,
    }
}
