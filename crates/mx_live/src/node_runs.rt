//! Runs each node of a plan in a thread, and gathers the stations.

ghost use Rattle.std.specs.Prelude.{◌≡◌, ◌⊎◌, length, IfErr, IfNone, IfOk, IfSome};
ghost use Rattle.mx_stations.specs.Gathered.{IsGathered, OfOneTable};
ghost use Rattle.mx_jobs.specs.Serial.{AreSerial};
ghost use Rattle.mx_live.specs.LiveErrors.{EndInVain, FirstNotDone, HasNone, IsShort, RunsInVain};
ghost use Rattle.mx_live.specs.Progress.{TellsProgress};
ghost use Rattle.mx_live.specs.Stations.{AreAtRest};
ghost use Rattle.mx_live.specs.Together.{AreGathered, ComeOf, HaveSections};
ghost use Rattle.mx_live.specs.Workers.{AreDone, AreLeft, stations_of};

use crate::live_error::LiveError;
use crate::progress::report_if_asked;
use crate::threads::{LeftStation, join_all, start_all};
use mx_cli::LiveOptions;
use mx_io::Output;
use mx_jobs::Host;
use mx_maekawa::Maekawa;
use mx_nodelaws::Exclusion;
use mx_plan::{Plan, Shape};
use mx_raymond::Raymond;
use mx_ricart::Ricart;
use mx_stations::{Field, Gathered, Station, Watch, Worked, gather};
use std::alloc::{AllocError, Global};

pub(crate) fn live_by_shape<R: Host, E: Output>(
    rt: &R,
    alloc: Global,
    plan: &Plan,
    options: &LiveOptions,
    err: &mut E,
) -> Result<Gathered, LiveError>
    ensures serial { IfOk result (λ all. AreSerial all.receipts.items all.journal) }
    ensures sections { IfOk result (λ all.
        HaveSections (length plan.now.nodes) options.now.sections all.receipts.items) }
    ensures come { IfOk result (λ all.
        ComeOf plan.now options.now all.receipts.items all.journal) }
    ensures err { IfErr result (HasNone plan.now options.now) }
    ensures progress { TellsProgress options.now.progress
        (E.written err.old) (E.written err.new) }
    ensures stays { E.takes_all err.new ≡ E.takes_all err.old }
{
    match plan.shape() {
        Shape::Ricart(shape) => {
            let stations = stations_in::<Ricart>(alloc, plan, shape)?;
            live_at(rt, alloc, plan, stations, options, err)
        }
        Shape::Maekawa(shape) => {
            let stations = stations_in::<Maekawa>(alloc, plan, shape)?;
            live_at(rt, alloc, plan, stations, options, err)
        }
        Shape::Raymond(shape) => {
            let stations = stations_in::<Raymond>(alloc, plan, shape)?;
            live_at(rt, alloc, plan, stations, options, err)
        }
    }
}

fn live_at<C: Exclusion + Send + 'static, R: Host, E: Output>(
    rt: &R,
    alloc: Global,
    plan: &Plan,
    stations: Vec<Station<C>>,
    options: &LiveOptions,
    err: &mut E,
) -> Result<Gathered, LiveError>
where
    C::Msg: Send + 'static,
    C::Shape: Send + 'static,
    requires { (shape : C.Shape) × AreAtRest C.core shape plan.now stations.items }
    ensures serial { IfOk result (λ all. AreSerial all.receipts.items all.journal) }
    ensures come { (shape : C.Shape) → AreAtRest C.core shape plan.now stations.items
        → IfOk result (λ all.
        HaveSections (length plan.now.nodes) options.now.sections all.receipts.items
        × AreGathered C.core shape plan.now
        options.now all.receipts.items all.journal) }
    ensures err { (shape : C.Shape) → AreAtRest C.core shape plan.now stations.items
        → IfErr result (λ error.
        RunsInVain C.core shape plan.now options.now error
        ⊎ IsShort error) }
    ensures progress { TellsProgress options.now.progress
        (E.written err.old) (E.written err.new) }
    ensures stays { E.takes_all err.new ≡ E.takes_all err.old }
{
    let left = run_stations(rt, alloc, plan, stations, options, err)?;
    gather_left(alloc, left)
}

/// Creates new idle stations for the nodes of a plan, one for each, in order.
pub fn stations_in<C: Exclusion>(
    alloc: Global,
    plan: &Plan,
    shape: &C::Shape,
) -> Result<Vec<Station<C>>, AllocError>
    requires { C.core.count shape.now ≡ length plan.now.nodes }
    ensures { IfOk result (λ all. AreAtRest C.core shape.now plan.now all.items) }
{
    Field::<C>::stations(
        alloc,
        shape,
        plan.origin(),
        plan.sections(),
        plan.registers(),
    )
}

/// Runs each station in a thread, until all threads have ended. Returns the stations, in the same
/// order, and how their workers ended.
///
/// # Errors
///
/// Returns `Memory` if memory runs out, and `NoThread` if a thread can't be started.
pub fn run_stations<C: Exclusion + Send + 'static, R: Host, E: Output>(
    rt: &R,
    alloc: Global,
    plan: &Plan,
    stations: Vec<Station<C>>,
    options: &LiveOptions,
    err: &mut E,
) -> Result<Vec<LeftStation<C>>, LiveError>
where
    C::Msg: Send + 'static,
    C::Shape: Send + 'static,
    ensures left { IfOk result (λ left.
        AreLeft C.core options.now stations.items left.items) }
    ensures short { IfErr result IsShort }
    ensures progress { TellsProgress options.now.progress
        (E.written err.old) (E.written err.new) }
    ensures stays { E.takes_all err.new ≡ E.takes_all err.old }
{
    let watch = watch_over(stations.as_slice())?;
    let workers = start_all(rt, alloc, plan.nodes(), stations, *options)?;
    report_if_asked(rt, alloc, options.progress, watch, &workers, err);
    Ok(join_all(rt, workers)?)
}

/// Gathers the journals and receipts of the stations that the workers left, if all workers are
/// done. Otherwise returns the error of the first worker that is not done.
pub fn gather_left<C: Exclusion>(
    alloc: Global,
    left: Vec<LeftStation<C>>,
) -> Result<Gathered, LiveError>
    requires { OfOneTable (stations_of left.items) }
    ensures serial { IfOk result (λ all. AreSerial all.receipts.items all.journal) }
    ensures done { IfOk result (λ all. AreDone left.items) }
    ensures gathered { IfOk result (λ all.
        IsGathered (stations_of left.items) all.journal all.receipts.items) }
    ensures err { IfErr result (EndInVain left.items) }
{
    match first_error(left.as_slice()) {
        Some(error) => Err(error),
        None => match only_stations(alloc, left) {
            Ok(stations) => gather_all(alloc, stations),
            Err(AllocError) => Err(LiveError::Memory),
        },
    }
}

fn only_stations<C: Exclusion>(
    alloc: Global,
    left: Vec<LeftStation<C>>,
) -> Result<Vec<Station<C>>, AllocError>
    ensures { IfOk result (λ all. all.items ≡ stations_of left.items) }
{
    let mut stations = Vec::new(alloc);
    for one in left {
        stations.push(one.0)?;
    }
    Ok(stations)
}

fn watch_over<C: Exclusion>(stations: &[Station<C>]) -> Result<Option<Watch<C>>, AllocError> {
    match stations.first() {
        Some(station) => Ok(Some(station.watch()?)),
        None => Ok(None),
    }
}

fn first_error<S>(left: &[(S, Worked)]) -> Option<LiveError>
    ensures some { IfSome result (FirstNotDone left.now) }
    ensures none { IfNone result (AreDone left.now) }
{
    for one in left {
        match one.1 {
            Worked::Done => {}
            Worked::NotYet(_) => return Some(LiveError::TurnsSpent),
            Worked::GateShut => return Some(LiveError::GateShut),
        }
    }
    None
}

/// Gathers the journals and receipts of the stations. Each failure is returned as `Memory`.
fn gather_all<C: Exclusion>(alloc: Global, stations: Vec<Station<C>>) -> Result<Gathered, LiveError>
    requires { OfOneTable stations.items }
    ensures serial { IfOk result (λ all. AreSerial all.receipts.items all.journal) }
    ensures gathered { IfOk result (λ all.
        IsGathered stations.items all.journal all.receipts.items) }
    ensures err { IfErr result (λ error. error ≡ LiveError.Memory) }
{
    match gather(alloc, stations) {
        Ok(gathered) => Ok(gathered),
        Err(_) => Err(LiveError::Memory),
    }
}
