//! Runs of a cluster: each station works in a thread, and then all are gathered.

ghost use Rattle.std.specs.Prelude.{◌≡◌, ◌≢◌, ◌<◌, List, ℕ, length, replicate, IfErr, IfOk, IsErrAnd, OnOk};
ghost use Rattle.mx_member.specs.Member.{MemberState};
ghost use Rattle.mx_member.specs.declared.parcel.Parcel.{Parcel};
ghost use Rattle.mx_stations.specs.Gathered.{OfOneTable};
ghost use Rattle.mx_stations.specs.Posts.{Post};
ghost use Rattle.mx_jobs.specs.declared.worker.Ended.{Ended as TheEnd};
ghost use Rattle.mx_jobs.specs.declared.worker.RunOptions.{RunOptions as TheOptions};
ghost use Rattle.mx_jobs.specs.Faults.{IfOfEnds};
ghost use Rattle.mx_jobs.specs.Laws.{contents_of};
ghost use Rattle.mx_jobs.specs.Posted.{AreEach, AreReady};
ghost use Rattle.mx_jobs.specs.Runs.{AreBack, AreDone, AreNew, AreNotDone, HaveRun, IsAtRest, Opening, registers_at};

use crate::faults::{RunFault, Unfinished, fault_of};
use crate::host::Host;
use crate::job::Job;
use crate::thread_group::ThreadGroup;
use crate::threads::{put_back, start_each};
use crate::worker::RunOptions;
use mx_letters::{Fair, Fates};
use mx_nodelaws::Exclusion;
use mx_stations::{Gathered, Station, gather};
use std::alloc::{AllocError, Global};

/// The result of a finished run: the receipts of all sections, in order, their journal, and the
/// jobs as they are after the run.
#[derive(Drop)]
pub struct Finished<J: Drop> {
    pub gathered: Gathered,
    pub jobs: Vec<J>,
}

/// What the threads of a finished run leave: the k-th station and the k-th job, as they are after
/// the run.
#[derive(Drop)]
pub struct Ran<C: Exclusion, J: Drop> {
    pub stations: Vec<Station<C>>,
    pub jobs: Vec<J>,
}

/// Runs the new stations of a cluster, each in a thread, and gathers their journals and receipts.
/// The k-th job is that of node k, and the k-th fates are those of the parcels to node k. A node
/// goes through the sections of its job, and then replies to the others until all jobs are done. No
/// node makes more turns than the options say.
///
/// # Errors
///
/// `RunFault` says why the run did not finish. The stations and the jobs come back, in order.
pub fn run<
    C: Exclusion + Send + 'static,
    J: Job + Send + 'static,
    F: Fates + Send + Drop + 'static,
    R: Host,
>(
    rt: &R,
    alloc: Global,
    stations: Vec<Station<C>>,
    jobs: Vec<J>,
    fates: Vec<F>,
    options: RunOptions,
) -> Result<Finished<J>, Unfinished<C, J>>
where
    C::Msg: Send + 'static,
    C::Shape: Send + 'static,
    requires new { AreNew C.core stations.items }
    requires ready { AreReady J.ready jobs.items }
    requires begins { (count : ℕ) → J.terms.holds 0 (replicate count 0) }
    ensures ran { IfOk result (λ out. HaveRun J.terms
        (registers_at stations.items) jobs.items
        out.gathered.receipts.items out.gathered.journal out.jobs.items) }
    ensures law { IfOk result (λ out. J.terms.holds (length out.gathered.receipts.items)
        (contents_of (registers_at stations.items) out.gathered.journal)) }
    ensures told { IfErr result (λ back. IfOfEnds back.fault
        (AreNotDone J.terms C.core options
        stations.items jobs.items back.fault back.stations.items back.jobs.items)) }
    ensures back { length jobs.items ≡ length stations.items
        → IfErr result (λ back. (ends : List TheEnd)
        × AreBack J.terms C.core options
        stations.items jobs.items ends back.stations.items back.jobs.items) }
    ensures not_each { length jobs.items ≢ length stations.items
        → IsErrAnd result (λ back. (back.fault ≡ RunFault.NotAJobEach)
        × (back.stations ≡ stations) × (back.jobs ≡ jobs)) }
{
    match run_stations(rt, alloc, stations, jobs, fates, options) {
        Ok(ran) => finish(alloc, ran.stations, ran.jobs),
        Err(left) => Err(left),
    }
}

/// Runs stations, each in a thread, until all jobs are done. The k-th job and the k-th fates are
/// those of the k-th station.
///
/// # Errors
///
/// `RunFault` says why the run did not finish. The stations and the jobs come back, in order.
pub fn run_stations<
    C: Exclusion + Send + 'static,
    J: Job + Send + 'static,
    F: Fates + Send + Drop + 'static,
    R: Host,
>(
    rt: &R,
    alloc: Global,
    mut stations: Vec<Station<C>>,
    mut jobs: Vec<J>,
    fates: Vec<F>,
    options: RunOptions,
) -> Result<Ran<C, J>, Unfinished<C, J>>
where
    C::Msg: Send + 'static,
    C::Shape: Send + 'static,
    requires { AreReady J.ready jobs.items }
    ensures done { IfOk result (λ ran. AreDone J.terms C.core options
        stations.items jobs.items ran.stations.items ran.jobs.items) }
    ensures told { IfErr result (λ back. IfOfEnds back.fault
        (AreNotDone J.terms C.core options
        stations.items jobs.items back.fault back.stations.items back.jobs.items)) }
    ensures back { length jobs.items ≡ length stations.items
        → IfErr result (λ back. (ends : List TheEnd)
        × AreBack J.terms C.core options
        stations.items jobs.items ends back.stations.items back.jobs.items) }
    ensures not_each { length jobs.items ≢ length stations.items
        → IsErrAnd result (λ back. (back.fault ≡ RunFault.NotAJobEach)
        × (back.stations ≡ stations) × (back.jobs ≡ jobs)) }
{
    if jobs.len() != stations.len() {
        return Err(Unfinished {
            fault: RunFault::NotAJobEach,
            stations,
            jobs,
        });
    }
    match run_all(rt, alloc, &mut stations, &mut jobs, fates, options) {
        Ok(()) => Ok(Ran { stations, jobs }),
        Err(fault) => Err(Unfinished {
            fault,
            stations,
            jobs,
        }),
    }
}

/// Returns fair links to `count` nodes: they lose and repeat nothing.
pub fn fair_links(alloc: Global, count: usize) -> Result<Vec<Fair>, AllocError> {
    let mut links = Vec::new(alloc);
    for _node in 0..count {
        links.push(Fair)?;
    }
    Ok(links)
}

fn run_all<
    C: Exclusion + Send + 'static,
    J: Job + Send + 'static,
    F: Fates + Send + Drop + 'static,
    R: Host,
>(
    rt: &R,
    alloc: Global,
    stations: &mut Vec<Station<C>>,
    jobs: &mut Vec<J>,
    mut fates: Vec<F>,
    options: RunOptions,
) -> Result<(), RunFault>
where
    C::Msg: Send + 'static,
    C::Shape: Send + 'static,
    requires ready { AreReady J.ready jobs.old.items }
    requires each { length jobs.old.items ≡ length stations.old.items }
    ensures ok { OnOk result (AreDone J.terms C.core options
        stations.old.items jobs.old.items stations.new.items jobs.new.items) }
    ensures err { IfErr result (λ fault. IfOfEnds fault
        (AreNotDone J.terms C.core options
        stations.old.items jobs.old.items fault stations.new.items jobs.new.items)) }
    ensures back { (ends : List TheEnd)
        × AreBack J.terms C.core options
        stations.old.items jobs.old.items ends stations.new.items jobs.new.items }
{
    if fates.len() < stations.len() {
        return Err(RunFault::NotAJobEach);
    }
    let nodes = count_of(stations.as_slice());
    let Ok(mut group) = ThreadGroup::new(rt, alloc, nodes, stations.len()) else {
        return Err(RunFault::Memory);
    };
    start_each(rt, &mut group, stations, jobs, &mut fates, options);
    let (lefts, refused) = group.join(rt);
    let ended = put_back(lefts, stations, jobs);
    match (refused, ended) {
        (Some(refused), _) => Err(fault_of(refused)),
        (None, Some(fault)) => Err(fault),
        (None, None) => Ok(()),
    }
}

fn count_of<C: Exclusion>(stations: &[Station<C>]) -> u8
    ensures { result < 22 }
{
    match stations.first() {
        Some(station) => station.nodes(),
        None => 1,
    }
}

fn finish<C: Exclusion, J: Job>(
    alloc: Global,
    stations: Vec<Station<C>>,
    jobs: Vec<J>,
) -> Result<Finished<J>, Unfinished<C, J>>
    requires { OfOneTable stations.items }
    ensures ok { (o : Opening C.Shape) (options : TheOptions)
        (posts : List (Post (MemberState C) (Parcel C.Msg))) (all : List J)
        → AreEach (IsAtRest C.core o) posts
        → AreDone J.terms C.core options posts all
        stations.items jobs.items
        → IfOk result (λ out. HaveRun J.terms o.registers all
        out.gathered.receipts.items out.gathered.journal out.jobs.items) }
    ensures err { IfErr result (λ back. (back.fault ≡ RunFault.Memory)
        × (back.stations.items ≡ stations.items) × (back.jobs ≡ jobs)) }
{
    match gather(alloc, stations) {
        Ok(gathered) => Ok(Finished { gathered, jobs }),
        Err(refused) => Err(Unfinished {
            fault: RunFault::Memory,
            stations: refused.stations,
            jobs,
        }),
    }
}
