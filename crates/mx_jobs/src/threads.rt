//! The works of a run: each takes one station through its job.

ghost use Rattle.std.specs.Prelude.{◌≡◌, ◌≤◌, ◌∷◌, [], length, map, vec_capacity, IfNone, IfSome};
ghost use Rattle.mx_jobs.specs.Faults.{Tells};
ghost use Rattle.mx_jobs.specs.Posted.{AreReady, workers};

use crate::faults::{RunFault, with_end};
use crate::host::Host;
use crate::job::Job;
use crate::start_gate::StartGate;
use crate::thread_group::{ThreadGroup, Work, put_first};
use crate::worker::{Ended, RunOptions, work};
use mx_letters::Fates;
use mx_nodelaws::Exclusion;
use mx_stations::Station;
use std::rt::Clock;
use std::sync::Wait;

pub(crate) type Left<C, J> = (Station<C>, J, Ended);

/// A station and its job, with the fates of the parcels to its node.
#[derive(Drop)]
pub(crate) struct Worker<S, J, F> {
    station: S,
    job: J,
    fates: F,
    options: RunOptions,
}

impl<C: Exclusion, J: Job, F: Fates + Drop> Work<Left<C, J>> for Worker<Station<C>, J, F> {
    ghost use Rattle.mx_jobs.specs.Runs.{IsLeft};

    ghost able = { λ worker. J.ready worker.job };

    ghost leads = { λ worker left.
        IsLeft J.terms C.core
        worker.options worker.station worker.job left };

    fn run<R: Wait + Clock>(self, gate: &StartGate<R>) -> Left<C, J> {
        let Worker {
            mut station,
            mut job,
            mut fates,
            options,
        } = self;
        let ended = work(&mut station, &mut job, gate, &mut fates, options);
        gate.heed(ended);
        gate.leave(station.node());
        (station, job, ended)
    }
}

pub(crate) type Workers<C, J, F, R> = ThreadGroup<Left<C, J>, Worker<Station<C>, J, F>, R>;

fn take_next<S: Drop, J: Drop, F: Drop>(
    stations: &mut Vec<S>,
    jobs: &mut Vec<J>,
    fates: &mut Vec<F>,
) -> Option<(S, J, F)>
    requires each { length jobs.old.items ≡ length stations.old.items }
    requires linked { length stations.old.items ≤ length fates.old.items }
    ensures station { IfSome result (λ next. stations.old.items ≡ next.0 ∷ stations.new.items) }
    ensures job { IfSome result (λ next. jobs.old.items ≡ next.1 ∷ jobs.new.items) }
    ensures fates { IfSome result (λ next. fates.old.items ≡ next.2 ∷ fates.new.items) }
    ensures none { IfNone result ((stations.old.items ≡ [])
        × (stations.new.items ≡ stations.old.items) × (jobs.new.items ≡ jobs.old.items)) }
    ensures room { (vec_capacity stations.new ≡ vec_capacity stations.old)
        × (vec_capacity jobs.new ≡ vec_capacity jobs.old) }
{
    if stations.is_empty() {
        return None;
    }
    Some((stations.remove(0), jobs.remove(0), fates.remove(0)))
}

/// Begins the work of each station and its job. The stations and jobs move into it.
pub(crate) fn start_each<
    C: Exclusion + Send + 'static,
    J: Job + Send + 'static,
    F: Fates + Send + Drop + 'static,
    R: Host,
>(
    rt: &R,
    group: &mut Workers<C, J, F, R>,
    stations: &mut Vec<Station<C>>,
    jobs: &mut Vec<J>,
    fates: &mut Vec<F>,
    options: RunOptions,
)
where
    C::Msg: Send + 'static,
    C::Shape: Send + 'static,
    requires ready { AreReady J.ready jobs.old.items }
    requires none { group.old.works ≡ [] }
    requires fit { length stations.old.items ≤ group.old.room }
    requires each { length jobs.old.items ≡ length stations.old.items }
    requires linked { length stations.old.items ≤ length fates.old.items }
    ensures started { group.new.works
        ≡ workers options stations.old.items jobs.old.items fates.old.items }
    ensures stations { stations.new.items ≡ [] }
    ensures jobs { jobs.new.items ≡ [] }
    ensures room { (vec_capacity stations.new ≡ vec_capacity stations.old)
        × (vec_capacity jobs.new ≡ vec_capacity jobs.old) }
{
    while let Some((station, job, own)) = take_next(stations, jobs, fates) {
        let worker = Worker {
            station,
            job,
            fates: own,
            options,
        };
        group.start(rt, worker);
    }
}

/// Puts the stations and jobs that workers left back, in order. Returns the fault of how they
/// ended, or `None` if all are done.
pub(crate) fn put_back<C: Exclusion, J: Job>(
    mut lefts: Vec<Left<C, J>>,
    stations: &mut Vec<Station<C>>,
    jobs: &mut Vec<J>,
) -> Option<RunFault>
    requires stations { stations.old.items ≡ [] }
    requires jobs { jobs.old.items ≡ [] }
    requires room { (length lefts.items ≤ vec_capacity stations.old)
        × (length lefts.items ≤ vec_capacity jobs.old) }
    ensures stations { stations.new.items ≡ map (λ left. left.0) lefts.items }
    ensures jobs { jobs.new.items ≡ map (λ left. left.1) lefts.items }
    ensures told { Tells result (map (λ left. left.2) lefts.items) }
{
    let mut fault = None;
    while let Some(left) = lefts.pop() {
        put_first(stations, left.0);
        put_first(jobs, left.1);
        fault = with_end(fault, left.2);
    }
    fault
}
