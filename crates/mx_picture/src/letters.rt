//! What `--letters` draws: the letters of the algorithm, each once, and the phases of nodes.

ghost use Rattle.std.specs.Prelude.{◌≡◌};
ghost use Rattle.mx_picture.specs.LettersOnly.{changes_phase, is_drawn, is_letter, is_original};

use crate::sheet::Flight;
use mx_events::Event;
use mx_member::Parcel;
use mx_trace::Outcome;

pub(crate) fn is_letter<M>(parcel: &Parcel<M>) -> bool
    ensures { result ≡ is_letter parcel.now }
{
    match parcel {
        Parcel::Guard(_) => true,
        Parcel::Want(_) | Parcel::Base(_) | Parcel::Records(_) => false,
    }
}

/// Returns whether a parcel that an event sends is a letter, and not one that a tick sends again.
pub(crate) fn is_original(event: &Event, is_letter: bool) -> bool
    ensures { result ≡ is_original event.now is_letter }
{
    is_letter && !matches!(event, Event::Tick(_))
}

pub(crate) fn is_drawn(event: &Event, outcome: &Outcome, flights: &[Flight]) -> bool
    ensures { result ≡ is_drawn event.now outcome.now flights.now }
{
    match event {
        Event::Deliver(number) => match flights.get(*number as usize) {
            Some(flight) => flight.is_original && !flight.is_delivered,
            None => false,
        },
        _ => changes_phase(outcome),
    }
}

fn changes_phase(outcome: &Outcome) -> bool
    ensures { result ≡ changes_phase outcome.now }
{
    match outcome {
        Outcome::Asked(_) | Outcome::Entered(_) | Outcome::Left(_) | Outcome::Cancelled => true,
        _ => false,
    }
}
