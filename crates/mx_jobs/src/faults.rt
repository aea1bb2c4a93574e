//! Why a run did not finish.

ghost use Rattle.std.specs.Prelude.{List, ◌∷◌};
ghost use Rattle.mx_jobs.specs.declared.worker.Ended.{Ended as TheEnd};
ghost use Rattle.mx_jobs.specs.Faults.{IfOfEnds, Tells};

use crate::thread_group::StartFault;
use crate::tries::JobFault;
use crate::worker::Ended;
use mx_nodelaws::Exclusion;
use mx_stations::Station;
use thiserror::Error;

/// Why a run did not finish. If several of these happened, the first in this order is reported.
#[derive(Clone, Copy, Debug, PartialEq, Eq, Error)]
pub enum RunFault {
    /// There is not one job, and one source of fates, for each station.
    #[error("not a job for each node")]
    NotAJobEach,
    /// Memory was refused.
    #[error("out of memory")]
    Memory,
    /// A thread could not be started.
    #[error("no thread")]
    NoThread,
    /// A job cannot go on.
    #[error("{0}")]
    Job(JobFault),
    /// Not all nodes came to the gate.
    #[error("gate shut")]
    GateShut,
    /// The job of a node was not done when its turns were spent.
    #[error("turns spent")]
    TurnsSpent,
}

pub(crate) fn fault_of(refused: StartFault) -> RunFault
    ensures { IfOfEnds result ⊥ }
{
    match refused {
        StartFault::Memory => RunFault::Memory,
        StartFault::NoThread => RunFault::NoThread,
    }
}

/// What is left of a run that did not finish. The k-th job is that of the k-th station's node.
#[derive(Drop)]
pub struct Unfinished<C: Exclusion, J: Drop> {
    pub fault: RunFault,
    pub stations: Vec<Station<C>>,
    pub jobs: Vec<J>,
}

/// Returns the fault that is reported after one more worker has ended.
pub(crate) fn with_end(fault: Option<RunFault>, ended: Ended) -> Option<RunFault>
    ensures { (ends : List TheEnd) → Tells fault ends → Tells result (ended ∷ ends) }
{
    match (ended, fault) {
        (Ended::Done, _) => fault,
        (Ended::Broken(why), _) => Some(RunFault::Job(why)),
        (_, Some(RunFault::Job(_))) => fault,
        (Ended::Stopped(why), _) => Some(RunFault::Job(why)),
        (Ended::GateShut, _) => Some(RunFault::GateShut),
        (Ended::NotYet, Some(RunFault::GateShut)) => fault,
        (Ended::NotYet, _) => Some(RunFault::TurnsSpent),
    }
}
