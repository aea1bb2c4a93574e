//! The results of a station's calls.

ghost use Rattle.std.specs.Prelude.{◌≡◌, ◌<◌};
ghost use Rattle.mx_stations.specs.Turns.{begun, noted, noted_put};

use mx_letters::Fate;
use mx_member::DeliverFault;
use thiserror::Error;

/// The result of trying to put a parcel out.
#[derive(Clone, Copy, Debug, PartialEq, Eq)]
pub enum PutOut {
    /// The parcel was placed in a slot of its link.
    Sent,
    /// No slot of its link was empty, and the parcel waits again, behind the others.
    Full,
    /// No parcel waited.
    Nothing,
}

/// The result of trying to take a parcel in.
#[derive(Clone, Copy, Debug, PartialEq, Eq)]
pub enum Taken {
    /// A parcel was delivered.
    Got,
    /// No slot of the link had a parcel.
    Empty,
}

/// The report of a turn of a station: counts of parcels and tries, and whether the node ticked.
#[derive(Clone, Copy, Debug, Default, PartialEq, Eq)]
pub struct TurnReport {
    /// The number of parcels that the turn took, or that were in hand at its start.
    pub taken: u32,
    /// The number of taken parcels that were thrown away.
    pub dropped: u32,
    /// The number of taken parcels that were delivered twice.
    pub twice: u32,
    /// The number of parcels that were put out.
    pub put: u32,
    /// The number of tries to put a parcel out that found no empty slot.
    pub full: u32,
    /// Whether the node ticked: sent all outstanding letters again.
    pub ticked: bool,
}

impl TurnReport {
    pub(crate) fn begin(had: bool) -> TurnReport
        ensures { result ≡ begun had }
    {
        TurnReport {
            taken: u32::from(had),
            dropped: 0,
            twice: 0,
            put: 0,
            full: 0,
            ticked: false,
        }
    }

    pub(crate) fn note_taken(&mut self, took: Option<Fate>)
        requires taken { self.old.taken < 1000 }
        requires dropped { self.old.dropped < 1000 }
        requires twice { self.old.twice < 1000 }
        ensures { self.new ≡ noted took self.old }
    {
        let Some(fate) = took else {
            return;
        };
        self.taken += 1;
        match fate {
            Fate::Pass => {}
            Fate::Drop => self.dropped += 1,
            Fate::Twice => self.twice += 1,
        }
    }

    pub(crate) fn note_put(&mut self, answer: PutOut)
        requires put { self.old.put < 1000 }
        requires full { self.old.full < 1000 }
        ensures { self.new ≡ noted_put answer self.old }
    {
        match answer {
            PutOut::Sent => self.put += 1,
            PutOut::Full => self.full += 1,
            PutOut::Nothing => {}
        }
    }
}

/// Why a parcel was not delivered. It remains in hand, and the next call delivers it first.
#[derive(Clone, Copy, Debug, PartialEq, Eq, Error)]
pub enum TakeFault {
    /// Memory ran out.
    #[error("out of memory")]
    Memory,
}

impl From<DeliverFault> for TakeFault {
    ghost use Rattle.std.specs.Prelude.{◌≡◌};
    ghost use Rattle.mx_stations.specs.declared.answers.TakeFault.TheVariants.{Memory};

    ghost from_gives = { λ _ fault. fault ≡ Memory };

    fn from(_fault: DeliverFault) -> TakeFault {
        TakeFault::Memory
    }
}
