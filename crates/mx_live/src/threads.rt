//! The threads of a live run, one for each station.

ghost use Rattle.std.specs.Prelude.{◌≡◌, ◌<◌, IfOk, map};
ghost use Rattle.std.specs.List.{AllZip};
ghost use Rattle.mx_live.specs.Workers.{IsLeft, weather_of, worker_of};

use mx_cli::LiveOptions;
use mx_explorer::Weather;
use mx_jobs::{Host, StartFault, StartGate, ThreadGroup, Work};
use mx_letters::Fates;
use mx_nodelaws::Exclusion;
use mx_stamps::NodeId;
use mx_stations::{Script, Station, Worked, work_settling};
use std::alloc::{AllocError, Global};
use std::rt::Clock;
use std::sync::Wait;

/// How many of 256 parcels a link loses, on average.
const LOST: u16 = 16;

/// How many of 256 parcels a link repeats, on average.
const DOUBLED: u16 = 16;

/// What a worker leaves: its station, and how it ended.
pub type LeftStation<C> = (Station<C>, Worked);

/// A station and its orders, with the fates of the parcels to its node.
#[derive(Drop)]
pub(crate) struct NodeWorker<S, F> {
    station: S,
    orders: LiveOptions,
    fates: F,
}

impl<C: Exclusion, F: Fates + Drop> Work<LeftStation<C>> for NodeWorker<Station<C>, F> {
    ghost use Rattle.mx_live.specs.Workers.{IsLeft};

    ghost leads = { λ worker ended. IsLeft C.core worker.orders worker.station ended };

    fn run<R: Wait + Clock>(self, gate: &StartGate<R>) -> LeftStation<C> {
        let NodeWorker {
            station,
            orders,
            fates,
        } = self;
        let script = Script {
            register: 0,
            sections: orders.sections,
        };
        let node = station.node();
        let ended = work_settling(station, script, orders.settle, gate, fates, orders.turns);
        gate.leave(node);
        ended
    }
}

pub(crate) type NodeWorkers<C, R> = ThreadGroup<LeftStation<C>, NodeWorker<Station<C>, Weather>, R>;

fn weather_at(seed: u64, node: NodeId) -> Weather
    ensures { result ≡ weather_of seed node }
{
    let own = seed.wrapping_add(u64::from(node.get()));
    Weather::of(own, LOST, DOUBLED)
}

/// Begins the work of each station, with its own weather.
pub(crate) fn start_all<C: Exclusion + Send + 'static, R: Host>(
    rt: &R,
    alloc: Global,
    nodes: u8,
    stations: Vec<Station<C>>,
    orders: LiveOptions,
) -> Result<NodeWorkers<C, R>, AllocError>
where
    C::Msg: Send + 'static,
    C::Shape: Send + 'static,
    requires { nodes < 22 }
    ensures { IfOk result (λ group. group.works ≡ map (worker_of orders) stations.items) }
{
    let mut group = ThreadGroup::new(rt, alloc, nodes, stations.len())?;
    for station in stations {
        let fates = weather_at(orders.seed, station.node());
        let worker = NodeWorker {
            station,
            orders,
            fates,
        };
        group.start(rt, worker);
    }
    Ok(group)
}

/// Waits until all workers have ended. If one got no thread, returns why, and drops what they left.
pub(crate) fn join_all<C: Exclusion + Send + 'static, R: Host>(
    rt: &R,
    workers: NodeWorkers<C, R>,
) -> Result<Vec<LeftStation<C>>, StartFault>
where
    C::Msg: Send + 'static,
    C::Shape: Send + 'static,
    ensures { IfOk result (λ all. AllZip
        (λ worker ended. IsLeft C.core worker.orders worker.station ended)
        workers.works all.items) }
{
    match workers.join(rt) {
        (all, None) => Ok(all),
        (_, Some(fault)) => Err(fault),
    }
}
