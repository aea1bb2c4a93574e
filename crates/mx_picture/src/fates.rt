//! What becomes of each parcel.

ghost use Rattle.std.specs.Prelude.{◌≡◌, ◌<◌, nat_eq};
ghost use Rattle.std.specs.HashMap.{get};
ghost use Rattle.mx_picture.specs.Fates.{fate_of, is_overtaken, none_delivered, with_delivery};

use crate::sent::Route;
use mx_events::Event;
use mx_stamps::{LINKS, link};
use std::alloc::{AllocError, Global};
use std::collections::HashMap;

/// What becomes of a parcel.
#[derive(Clone, Copy, PartialEq)]
pub(crate) enum Fate {
    /// Some event delivers it.
    Arrives,
    /// The script loses it, and no event delivers it.
    Lost,
    /// Nothing becomes of it, but a later one from the same node to the same is delivered.
    Overtaken,
    /// It is under way at the end of the run.
    UnderWay,
}

/// What is known of the fates of parcels.
#[derive(Drop)]
pub(crate) struct KnownFates {
    /// By the numbers of parcels: `Arrives` or `Lost`.
    known: HashMap<u64, Fate>,
    /// For each link, the greatest flight that was delivered so far, or 0.
    newest: [u64; LINKS],
}

impl KnownFates {
    pub(crate) fn new(alloc: Global) -> Self
        ensures { result.newest ≡ none_delivered }
    {
        KnownFates {
            known: HashMap::new(alloc),
            newest: [0; LINKS],
        }
    }

    /// Notes that the script loses the parcel of this number.
    pub(crate) fn lose(&mut self, number: u64) -> Result<(), AllocError> {
        self.known.insert(number, Fate::Lost)?;
        Ok(())
    }

    /// Notes which parcel an event of the run delivers, if it delivers one. Call this for each event
    /// of the run, after `lose` for each loss.
    pub(crate) fn expect(&mut self, event: &Event) -> Result<(), AllocError> {
        if let Event::Deliver(number) = event {
            self.known.insert(*number, Fate::Arrives)?;
        }
        Ok(())
    }

    /// Notes that the parcel of this flight is delivered now.
    pub(crate) fn deliver(&mut self, flight: u64, route: &Route)
        ensures { self.new.newest
            ≡ with_delivery route.now.from route.now.to flight self.old.newest }
    {
        let index = link(route.from, route.to);
        self.newest[index] = self.newest[index].max(flight);
    }

    /// Returns the fate of a parcel: at the end of the run, or as far as the events so far tell.
    pub(crate) fn of(&self, number: u64, flight: u64, route: &Route) -> Fate
        ensures { result ≡ fate_of (get nat_eq self.now.known number)
            (is_overtaken route.now.from route.now.to flight self.now.newest) }
    {
        match self.known.get(&number) {
            Some(fate) => *fate,
            None if flight < self.newest[link(route.from, route.to)] => Fate::Overtaken,
            None => Fate::UnderWay,
        }
    }
}
