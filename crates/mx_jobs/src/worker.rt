//! A worker: it takes a station through the sections of a job, and replies to the other nodes until
//! all are done.

ghost use Rattle.std.specs.Prelude.{◌≡◌, ◌≤◌, ◌<◌, ◌↔◌, Bool, false, true, Err, IfErr, IfOk, OnErr, OnOk, IsTrue, length};
ghost use Rattle.mx_member.specs.Member.{MemberState};
ghost use Rattle.mx_member.specs.declared.parcel.Parcel.{Parcel};
ghost use Rattle.mx_nodelaws.specs.Core.{IsInside};
ghost use Rattle.mx_stations.specs.Posts.{Post};
ghost use Rattle.mx_jobs.specs.declared.tries.JobFault.{JobFault as TheFault};
ghost use Rattle.mx_jobs.specs.Rounds.{ActsForJob, BusyRounds, Round, Serves, Works};
ghost use Rattle.mx_jobs.specs.Sections.{Advances, CannotGoOn, Fails, IsSpent, Reaches, Rests};

use crate::job::Job;
use crate::search::Search;
use crate::tries::{JobFault, Tried, try_leave, try_section};
use mx_letters::Fates;
use mx_nodelaws::{EnterFault, Exclusion, Phase};
use mx_stations::{Patience, Station, settle_if_due};

/// Decides when workers may start, when they may stop, and when they must stop. Each call may wait
/// for other workers.
pub trait Gate: mx_stations::Gate {
    /// Returns why all workers must stop: the fault of a job that cannot go on. Returns `None` if
    /// they need not stop. Called after each turn.
    fn broken(&self) -> Option<JobFault>;
}

/// How many turns a worker may make, and when its station settles.
#[derive(Clone, Copy, Debug, PartialEq, Eq)]
pub struct RunOptions {
    /// The greatest number of turns that a worker makes.
    pub turns: u64,
    /// The station settles whenever the number of sections that it has left reaches a multiple of
    /// this: the values of the registers replace the records of all sections before the first that
    /// its journal lacks. If this is 0, the station never settles.
    pub settle_every: u64,
}

/// How a worker ended.
#[derive(Clone, Copy, Debug, PartialEq, Eq)]
pub enum Ended {
    /// The job is done, and the gate let the worker stop.
    Done,
    /// The worker made all its turns before it could stop.
    NotYet,
    /// The gate did not let the worker start.
    GateShut,
    /// The worker's job cannot go on.
    Broken(JobFault),
    /// The job of another worker cannot go on.
    Stopped(JobFault),
}

/// The state of a worker.
#[derive(Drop)]
struct WorkerState {
    /// Whether a section of its job is made but not left.
    pending: bool,
    /// Whether its node asks in the next turn.
    asks: bool,
    search: Search,
    patience: Patience,
}

/// Waits at the gate, then takes the station through the sections of the job, in at most
/// `options.turns` turns. In each turn the acts that are due come first: the node asks, enters and,
/// inside, makes the job's next section and leaves. If its journal lacks records, the node asks the
/// node for them that was asked last, and then others in cyclic order. If memory is refused when it
/// leaves, it tries again in the next turn. Then the station takes a turn, in which parcels have
/// these fates, and settles if that is due.
pub fn work<C: Exclusion, J: Job, G: Gate, F: Fates>(
    station: &mut Station<C>,
    job: &mut J,
    gate: &G,
    fates: &mut F,
    options: RunOptions,
) -> Ended
    requires ready { J.ready job.old }
    ensures works { Works C.core options result station.old station.new }
    ensures done { result ≡ Ended.Done
        → Advances J.terms C.core job.old station.old job.new station.new }
    ensures finished { result ≡ Ended.Done → J.terms.finished job.new }
    ensures outside { result ≡ Ended.Done → IsInside C.core station.new.me.member.core → ⊥ }
    ensures not_yet { result ≡ Ended.NotYet → (pending : Bool)
        × Reaches J.terms C.core
        pending job.old station.old job.new station.new }
    ensures idles { result ≡ Ended.NotYet
        → BusyRounds C.core (J.terms.finished job.new) options.settle_every options.turns
        station.old station.new }
    ensures broken { (why : TheFault) → result ≡ Ended.Broken why
        → Fails J.terms C.core why job.old station.old job.new station.new }
    ensures shut { result ≡ Ended.GateShut → job.new ≡ job.old }
{
    let node = station.node();
    if !gate.arrive(node) {
        return Ended::GateShut;
    }
    let mut stance = WorkerState {
        pending: false,
        asks: true,
        search: Search::new(node),
        patience: Patience::new(),
    };
    for _turn in 0..options.turns {
        match take_turn(station, job, &mut stance, gate, fates, options.settle_every) {
            Ok(idle) => {
                if idle && !is_inside(station) && gate.done(node) {
                    return Ended::Done;
                }
            }
            Err(fault) => return Ended::Broken(fault),
        }
        if let Some(fault) = gate.broken() {
            return Ended::Stopped(fault);
        }
    }
    Ended::NotYet
}

fn is_inside<C: Exclusion>(station: &Station<C>) -> bool
    ensures { IsTrue result ↔ IsInside C.core station.now.me.member.core }
{
    matches!(station.phase(), Phase::Inside(_))
}

fn take_turn<C: Exclusion, J: Job, G: Gate, F: Fates>(
    station: &mut Station<C>,
    job: &mut J,
    stance: &mut WorkerState,
    gate: &G,
    fates: &mut F,
    every: u64,
) -> Result<bool, JobFault>
    requires ready { J.ready job.old }
    ensures ready { J.ready job.new }
    ensures reaches { (first : J) (from : Post (MemberState C) (Parcel C.Msg))
        → Reaches J.terms C.core
        stance.old.pending first from job.old station.old
        → OnOk result (Reaches J.terms C.core
        stance.new.pending first from job.new station.new) }
    ensures finished { IfOk result (λ idle. idle ≡ true
        → (stance.new.pending ≡ false) × J.terms.finished job.new) }
    ensures round { (first : J) (from : Post (MemberState C) (Parcel C.Msg))
        → Reaches J.terms C.core
        stance.old.pending first from job.old station.old
        → IfOk result (λ idle. (round : Round C.core every station.old station.new)
        × (round.idle ≡ idle)) }
    ensures broken { OnErr result (ActsForJob C.core station.old station.new) }
    ensures fails { (first : J) (from : Post (MemberState C) (Parcel C.Msg))
        → Reaches J.terms C.core
        stance.old.pending first from job.old station.old
        → IfErr result (λ why. Fails J.terms C.core
        why first from job.new station.new) }
{
    stance.patience.wait(station, gate, stance.asks);
    let before = station.receipts().len();
    let idle = act(station, job, stance)?;
    stance.patience.before_turn(station, gate);
    let report = station.turn(fates);
    stance.patience.after_turn(station, gate, &report);
    settle_if_due(station, before, every);
    stance.asks = !idle && matches!(station.phase(), Phase::Idle);
    Ok(idle)
}

fn act<C: Exclusion, J: Job>(
    station: &mut Station<C>,
    job: &mut J,
    stance: &mut WorkerState,
) -> Result<bool, JobFault>
    requires ready { J.ready job.old }
    ensures ready { J.ready job.new }
    ensures reaches { (first : J) (from : Post (MemberState C) (Parcel C.Msg))
        → Reaches J.terms C.core
        stance.old.pending first from job.old station.old
        → OnOk result (Reaches J.terms C.core
        stance.new.pending first from job.new station.new) }
    ensures finished { IfOk result (λ idle. idle ≡ true
        → (stance.new.pending ≡ false) × J.terms.finished job.new) }
    ensures serves { OnOk result (Serves C.core station.old station.new) }
    ensures able { (first : J) (from : Post (MemberState C) (Parcel C.Msg))
        → Reaches J.terms C.core
        stance.old.pending first from job.old station.old
        → IfOk result (λ idle. idle ≡ false → IsSpent C.core station.new → ⊥) }
    ensures broken { OnErr result (ActsForJob C.core station.old station.new) }
    ensures fails { (first : J) (from : Post (MemberState C) (Parcel C.Msg))
        → Reaches J.terms C.core
        stance.old.pending first from job.old station.old
        → IfErr result (λ why. Fails J.terms C.core
        why first from job.new station.new) }
{
    if stance.pending {
        let has_left = try_leave(station);
        stance.pending = !has_left;
        return Ok(false);
    }
    go_on(station, job, stance)
}

fn go_on<C: Exclusion, J: Job>(
    station: &mut Station<C>,
    job: &mut J,
    stance: &mut WorkerState,
) -> Result<bool, JobFault>
    requires ready { J.ready job.old }
    requires left { stance.old.pending ≡ false }
    ensures ready { J.ready job.new }
    ensures reaches { OnOk result (Reaches J.terms C.core
        stance.new.pending job.old station.old job.new station.new) }
    ensures finished { IfOk result (λ idle. idle ≡ true
        → (stance.new.pending ≡ false) × J.terms.finished job.new) }
    ensures serves { OnOk result (Serves C.core station.old station.new) }
    ensures able { IfOk result (λ idle. idle ≡ false → IsSpent C.core station.new → ⊥) }
    ensures broken { OnErr result (ActsForJob C.core station.old station.new) }
    ensures fails { IfErr result (λ why. Rests C.core station.old station.new
        × CannotGoOn J.terms C.core why job.old job.new station.new) }
{
    if !is_due(station) {
        return Ok(false);
    }
    let asked = job.asks();
    match &asked {
        Some(registers) => {
            next_section(station, job, registers.as_slice(), stance)?;
            Ok(false)
        }
        None => Ok(true),
    }
}

/// Returns whether the node can ask or enter, or is inside. A node that is inside first takes the
/// parcels that are there, since they may bring the records that its section lacks.
fn is_due<C: Exclusion>(station: &Station<C>) -> bool
    ensures { result ≡ false → IsSpent C.core station.now → ⊥ }
{
    match station.phase() {
        Phase::Idle => true,
        Phase::Waiting => station.can_enter(),
        Phase::Inside(_) => !station.has_mail(),
    }
}

fn next_section<C: Exclusion, J: Job>(
    station: &mut Station<C>,
    job: &mut J,
    registers: &[u8],
    stance: &mut WorkerState,
) -> Result<(), JobFault>
    requires few { length registers.now ≤ 8 }
    requires asked { J.terms.asks_for job.old registers.now }
    requires ready { J.ready job.old }
    requires left { stance.old.pending ≡ false }
    ensures ready { J.ready job.new }
    ensures reaches { OnOk result (Reaches J.terms C.core
        stance.new.pending job.old station.old job.new station.new) }
    ensures serves { OnOk result (Serves C.core station.old station.new) }
    ensures able { OnOk result (IsSpent C.core station.new → ⊥) }
    ensures broken { OnErr result (ActsForJob C.core station.old station.new) }
    ensures fails { IfErr result (λ why. Rests C.core station.old station.new
        × CannotGoOn J.terms C.core why job.old job.new station.new) }
{
    let _ = station.ask();
    if is_spent(station.enter()) {
        return Err(JobFault::NumbersSpent);
    }
    match try_section(station, job, registers)? {
        Tried::Left | Tried::Outside => {}
        Tried::Pending => stance.pending = true,
        Tried::Gap => want_next(station, stance),
    }
    Ok(())
}

fn is_spent(entered: Result<u64, EnterFault>) -> bool
    ensures { IsTrue result ↔ (entered ≡ Err EnterFault.NumbersSpent) }
{
    matches!(entered, Err(EnterFault::NumbersSpent))
}

fn want_next<C: Exclusion>(station: &mut Station<C>, stance: &mut WorkerState)
    ensures rests { Rests C.core station.old station.new }
    ensures acts { ActsForJob C.core station.old station.new }
    ensures phase { station.new.me.member.core ≡ station.old.me.member.core }
    ensures same { stance.new.pending ≡ stance.old.pending }
{
    if let Some(next) = stance.search.next(station) {
        station.want(next);
    }
}
