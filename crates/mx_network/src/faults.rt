use std::alloc::AllocError;
use thiserror::Error;

/// Why an event fails. The cluster and its trace are unchanged then.
#[derive(Clone, Copy, Debug, PartialEq, Eq, Error)]
pub enum StepFault {
    /// The event names a node that the cluster does not have.
    #[error("no node")]
    NoNode,
    /// No parcel of this number has been sent.
    #[error("no parcel")]
    NoParcel,
    /// Memory ran out.
    #[error("out of memory")]
    Memory,
}

impl From<AllocError> for StepFault {
    ghost use Rattle.std.specs.Prelude.{◌≡◌};
    ghost use Rattle.mx_network.specs.declared.faults.StepFault.TheVariants.{Memory};

    ghost from_gives = { λ _ e. e ≡ Memory };

    fn from(_e: AllocError) -> StepFault {
        StepFault::Memory
    }
}

/// Which event of a run failed, and why. The events before it were applied.
#[derive(Clone, Copy, Debug, PartialEq, Eq, Error)]
#[error("event {index}: {fault}")]
pub struct RunFault {
    /// The index of the event, counted from 0.
    pub index: u64,
    /// Why the event failed.
    pub fault: StepFault,
}
