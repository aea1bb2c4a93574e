ghost use Rattle.std.specs.Prelude.{◌≡◌, ◌<◌, ℕ, Some};
ghost use Rattle.mx_explorer.specs.Place.{place_of};

use mx_trace::Event;

/// How many of the newest parcels a drawn delivery chooses from.
const WINDOW: u64 = 64;

/// Replaces the random word in a drawn `Deliver` by the number of a parcel: one of the newest 64 of
/// the `sent` parcels, or of all if they are fewer. Returns `None` for a `Deliver` if no parcel was
/// sent yet, and every other event unchanged.
pub fn place(event: Event, sent: u64) -> Option<Event>
    ensures value { result ≡ place_of event sent }
    ensures sent { (k : ℕ) → result ≡ Some (Event.Deliver k) → k < sent }
{
    match event {
        Event::Deliver(_) if sent == 0 => None,
        Event::Deliver(word) => Some(Event::Deliver(sent - 1 - word % sent.min(WINDOW))),
        _ => Some(event),
    }
}
