//! Reading the outcome of an event.

ghost use Rattle.std.specs.Prelude.{◌≡◌};
ghost use Rattle.serde_json.specs.View.{view};
ghost use Rattle.mx_judge.specs.Outcomes as spec;

use crate::faults::ItemFault;
use crate::members::{Member, has_member, number_at, text_at};
use arrayvec::ArrayVec;
use mx_events::{Event, EventKind};
use mx_journal::Receipt;
use mx_stamps::{NodeId, Stamp};
use mx_trace::{Boxed, Cause, Outcome};
use serde_json::Value;

/// Reads the outcome of an event. The receipt of an exit goes into the box `room`.
pub(crate) fn outcome_in(
    event: &Event,
    value: &Value,
    room: Boxed<Receipt>,
) -> Result<Outcome, ItemFault>
    ensures { result ≡ spec.outcome_of event.now (view value.now) }
{
    let word = text_at(value, Member::Outcome);
    if word == "refused" {
        return Ok(Outcome::Refused(cause_in(value)?));
    }
    if word == word_of_done(event.kind()) {
        return done(event, value, room);
    }
    if has_member(value, "outcome") {
        return Err(ItemFault::Wrong(Member::Outcome));
    }
    Err(ItemFault::NoOutcome)
}

pub(crate) fn word_of_done(kind: EventKind) -> &'static str
    ensures { result.now ≡ spec.word_of_done kind }
{
    match kind {
        EventKind::Ask => "asked",
        EventKind::Enter => "entered",
        EventKind::Read => "value",
        EventKind::Write => "written",
        EventKind::Leave => "left",
        EventKind::Cancel => "cancelled",
        EventKind::Settle => "settled",
        EventKind::Tick | EventKind::Want => "sent",
        EventKind::Deliver => "delivered",
        EventKind::Restart => "woken",
    }
}

fn done(event: &Event, value: &Value, room: Boxed<Receipt>) -> Result<Outcome, ItemFault>
    ensures { result ≡ spec.done event.now (view value.now) }
{
    match event {
        Event::Ask(node) => {
            let number = number_at(value, Member::Number)?;
            Ok(Outcome::Asked(Stamp {
                number,
                node: *node,
            }))
        }
        Event::Enter(_) => Ok(Outcome::Entered(number_at(value, Member::Number)?)),
        Event::Read(_, _) => Ok(Outcome::Value(number_at(value, Member::Value)?)),
        Event::Write(_, _, _) => Ok(Outcome::Written),
        Event::Leave(node) => left(*node, value, room),
        Event::Cancel(_) => Ok(Outcome::Cancelled),
        Event::Settle(_, _) => Ok(Outcome::Settled),
        Event::Tick(_) | Event::Want(_, _) => {
            Ok(Outcome::Sent(number_at(value, Member::Count)?))
        }
        Event::Deliver(_) => Ok(Outcome::Delivered),
        Event::Restart(_) => Ok(Outcome::Woken),
    }
}

/// The receipt has no reads and no writes, since the judge does not use them.
fn left(node: NodeId, value: &Value, mut room: Boxed<Receipt>) -> Result<Outcome, ItemFault>
    ensures { result ≡ spec.left node (view value.now) }
{
    let number = number_at(value, Member::Number)?;
    room.set(Receipt {
        number,
        node,
        reads: ArrayVec::new(),
        writes: ArrayVec::new(),
    });
    Ok(Outcome::Left(room))
}

fn cause_in(value: &Value) -> Result<Cause, ItemFault>
    ensures { result ≡ spec.cause_in (view value.now) }
{
    match Cause::of_words(text_at(value, Member::Cause)) {
        Some(Cause::Gap(_)) => Ok(Cause::Gap(number_at(value, Member::Number)?)),
        Some(Cause::Below(_)) => Ok(Cause::Below(number_at(value, Member::Number)?)),
        Some(cause) => Ok(cause),
        None => Err(ItemFault::Wrong(Member::Cause)),
    }
}
