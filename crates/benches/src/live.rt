//! Times stations in threads, one for each node, over a network that loses nothing. Measures how
//! long they take to enter a given number of sections in all, and how many parcels that takes.

ghost use Rattle.std.specs.Prelude.{◌<◌};

use crate::shapes::{LIMIT, binary_tree, count_of, quorums_of};
use anyhow::{Result, bail};
use mx_jobs::{Host, StartGate};
use mx_letters::{Fair, Fate, Fates};
use mx_maekawa::Maekawa;
use mx_nodelaws::Exclusion;
use mx_raymond::Raymond;
use mx_ricart::Ricart;
use mx_stations::{Field, Script, Station, Worked, work};
use std::alloc::AllocError;
use std::rt::Clock;
use std::sync::Wait;
use std::sync::atomic::{AtomicU64, Ordering};
use std::thread;
use std::time::Instant;

const MAX_TURNS: u64 = 1_000_000_000_000;

/// A network that loses nothing, and counts the parcels that it delivers.
#[derive(Drop)]
struct Counting<'a> {
    parcels: &'a AtomicU64,
}

impl Fates for Counting<'_> {
    fn fate(&mut self) -> Fate {
        self.parcels.fetch_add(1, Ordering::SeqCst);
        Fair.fate()
    }
}

/// Works at a station, and returns how many sections the node has entered, if it has entered all of
/// them.
fn sections_of<C: Exclusion, R: Wait + Clock>(
    station: Station<C>,
    meeting: &StartGate<R>,
    parcels: &AtomicU64,
    sections: u64,
) -> u64 {
    let script = Script {
        register: 0,
        sections,
    };
    let (station, ended) = work(station, script, meeting, Counting { parcels }, MAX_TURNS);
    match ended {
        Worked::Done => station.receipts().len() as u64,
        Worked::NotYet(_) | Worked::GateShut => 0,
    }
}

fn total(numbers: &[u64]) -> u64 {
    let mut sum = 0u64;
    for number in numbers {
        sum = sum.saturating_add(*number);
    }
    sum
}

fn nodes_of<C: Exclusion>(stations: &[Station<C>]) -> u8
    ensures { result < 22 }
{
    match stations.first() {
        Some(station) => station.nodes(),
        None => 1,
    }
}

fn run_nodes<C: Exclusion + Send + 'static, R: Host>(
    rt: &R,
    stations: Vec<Station<C>>,
    sections: u64,
) -> Result<(u64, u64), AllocError>
where
    C::Msg: Send + 'static,
    C::Shape: Send + 'static,
{
    let meeting = StartGate::new(*rt, nodes_of(stations.as_slice()), 100_000_000);
    let parcels = AtomicU64::new(0);
    let each = thread::map_vec(
        rt,
        stations,
        &|station: Station<C>| -> u64 { sections_of(station, &meeting, &parcels, sections) },
    )?;
    Ok((total(each.as_slice()), parcels.load(Ordering::SeqCst)))
}

/// Runs the nodes, each for this many sections. Prints how many they entered, how many parcels were
/// delivered, and the microseconds that they took.
fn measure<C: Exclusion + Send + 'static, R: Host + Print>(
    rt: &R,
    stations: Vec<Station<C>>,
    sections: u64,
) -> Result<()>
where
    C::Msg: Send + 'static,
    C::Shape: Send + 'static,
{
    let begun = Instant::now(rt)?;
    let (sections, parcels) = run_nodes(rt, stations, sections)?;
    let took = begun.elapsed(rt)?.as_micros();
    println!(rt; "{sections} {parcels} {took}")?;
    Ok(())
}

pub(crate) fn time_stations<R: Host + Print + AllocGlobal>(
    rt: &R,
    algorithm: &str,
    nodes: u8,
    sections: u64,
) -> Result<()> {
    let alloc = rt.alloc();
    let each = sections / u64::from(nodes.max(1));
    match algorithm {
        "ricart" => {
            let stations = Field::<Ricart>::stations(alloc, &count_of(nodes)?, 0, LIMIT, 1)?;
            measure(rt, stations, each)
        }
        "maekawa" => {
            let stations = Field::<Maekawa>::stations(alloc, &quorums_of(nodes)?, 0, LIMIT, 1)?;
            measure(rt, stations, each)
        }
        "raymond" => {
            let tree = binary_tree(alloc, nodes)?;
            measure(
                rt,
                Field::<Raymond>::stations(alloc, &tree, 0, LIMIT, 1)?,
                each,
            )
        }
        _ => bail!("no such algorithm"),
    }
}
