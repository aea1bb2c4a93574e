//! The parcels that a script loses.

use crate::fates::KnownFates;
use mx_nodelaws::Exclusion;
use mx_plan::Plan;
use mx_scripts::{Recorder, SessionEvent, State};
use std::alloc::{AllocError, Global};

/// The loss of a parcel.
#[derive(Clone, Copy)]
pub(crate) struct Loss {
    /// How many events happened before.
    pub(crate) place: u64,
    pub(crate) number: u64,
}

/// The losses of a script, in order.
#[derive(Drop)]
pub(crate) struct Losses {
    pub(crate) list: Vec<Loss>,
    pub(crate) fates: KnownFates,
}

impl Losses {
    pub(crate) fn new(alloc: Global) -> Self {
        Losses {
            list: Vec::new(alloc),
            fates: KnownFates::new(alloc),
        }
    }
}

impl<C: Exclusion> Recorder<State<C>> for Losses {
    fn line(&mut self, _number: u64) {}

    fn event(
        &mut self,
        _plan: &Plan,
        event: &SessionEvent,
        _before: u64,
        state: &State<C>,
    ) -> Result<(), AllocError> {
        if let SessionEvent::IsLost(number) = event {
            let place = state.cluster().trace().len() as u64;
            let number = *number;
            self.fates.lose(number)?;
            self.list.push(Loss { place, number })?;
        }
        Ok(())
    }
}
