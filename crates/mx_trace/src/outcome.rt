ghost use Rattle.std.specs.Prelude.{◌≡◌, IsSome};
ghost use Rattle.mx_trace.specs.Trace.{is_entry};

use crate::boxed::Boxed;
use crate::cause::Cause;
use mx_events::Event;
use mx_journal::Receipt;
use mx_stamps::Stamp;

/// The outcome of an event.
#[derive(Debug, PartialEq, Eq, Drop)]
pub enum Outcome {
    /// The node asked for the section, with this stamp.
    Asked(Stamp),
    /// The node entered the section of this number.
    Entered(u64),
    /// The node read this value.
    Value(u64),
    Written,
    /// The node left; the receipt has the reads and writes of its section. It is in a box, since it
    /// is ten times as large as any other case.
    Left(Boxed<Receipt>),
    Cancelled,
    Settled,
    /// The node sent this many parcels, at a tick or a want.
    Sent(u64),
    Delivered,
    /// The node restarted.
    Woken,
    /// The node refused the event, and changed nothing.
    Refused(Cause),
}

impl Outcome {
    /// Returns a copy of the outcome. The copy of a receipt goes into the box `room`.
    pub fn copy_into(&self, room: Option<Boxed<Receipt>>) -> Outcome
        requires { (receipt : Receipt) → self.now ≡ Outcome.Left receipt → IsSome room }
        ensures { result ≡ self.now }
    {
        match self {
            Outcome::Asked(stamp) => Outcome::Asked(*stamp),
            Outcome::Entered(number) => Outcome::Entered(*number),
            Outcome::Value(value) => Outcome::Value(*value),
            Outcome::Written => Outcome::Written,
            Outcome::Left(receipt) => left(receipt, room),
            Outcome::Cancelled => Outcome::Cancelled,
            Outcome::Settled => Outcome::Settled,
            Outcome::Sent(count) => Outcome::Sent(*count),
            Outcome::Delivered => Outcome::Delivered,
            Outcome::Woken => Outcome::Woken,
            Outcome::Refused(cause) => Outcome::Refused(*cause),
        }
    }
}

fn left(receipt: &Receipt, room: Option<Boxed<Receipt>>) -> Outcome
    requires { IsSome room }
    ensures { result ≡ Outcome.Left receipt.now }
{
    match room {
        Some(mut copy) => {
            copy.set(receipt.copy());
            Outcome::Left(copy)
        }
        None => unreachable!(),
    }
}

/// An item of a trace: an event and its outcome.
#[derive(Debug, PartialEq, Eq, Drop)]
pub struct Entry {
    /// The event.
    pub event: Event,
    /// The outcome of the event.
    pub outcome: Outcome,
}

impl Entry {
    /// Returns whether a node entered a section.
    pub fn is_entry(&self) -> bool
        ensures { result ≡ is_entry self.now }
    {
        match (&self.event, &self.outcome) {
            (Event::Enter(_), Outcome::Entered(_)) => true,
            _ => false,
        }
    }
}
