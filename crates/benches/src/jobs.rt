//! Times a run of jobs, one for each node, over a network that loses nothing. Each adds 1 to one
//! register in each of its sections.

use crate::shapes::{LIMIT, binary_tree, count_of, quorums_of};
use anyhow::{Result, bail};
use arrayvec::ArrayVec;
use mx_jobs::{Host, Job, RunOptions, Settings, run, stations};
use mx_journal::Write;
use mx_letters::{Fair, Fate, Fates};
use mx_maekawa::Maekawa;
use mx_raymond::Raymond;
use mx_ricart::Ricart;
use std::alloc::{AllocError, Global};
use std::sync::Arc;
use std::sync::atomic::{AtomicU64, Ordering};
use std::time::Instant;

const OPTIONS: RunOptions = RunOptions {
    turns: 100_000_000,
    settle_every: 0,
};

const SETTINGS: Settings = Settings {
    origin: 0,
    sections: LIMIT,
    registers: 1,
};

/// A link that loses nothing, and counts the parcels that it delivers.
#[derive(Drop)]
struct Counting {
    parcels: Arc<AtomicU64, Global>,
}

impl Fates for Counting {
    fn fate(&mut self) -> Fate {
        self.parcels.fetch_add(1, Ordering::SeqCst);
        Fair.fate()
    }
}

fn counting_links(
    alloc: Global,
    parcels: &Arc<AtomicU64, Global>,
    count: usize,
) -> Result<Vec<Counting>, AllocError> {
    let mut links = Vec::new(alloc);
    for _node in 0..count {
        links.push(Counting {
            parcels: Arc::try_clone(parcels)?,
        })?;
    }
    Ok(links)
}

#[derive(Drop)]
struct Adder {
    left: u64,
}

impl Job for Adder {
    fn asks(&self) -> Option<ArrayVec<u8, 8>> {
        if self.left == 0 {
            return None;
        }
        let mut registers = ArrayVec::new();
        registers.push(0);
        Some(registers)
    }

    fn section(&mut self, _number: u64, values: &[u64]) -> ArrayVec<Write, 8> {
        self.left = self.left.saturating_sub(1);
        let value = values.first().copied().unwrap_or(0);
        let mut writes = ArrayVec::new();
        writes.push(Write {
            register: 0,
            value: value.wrapping_add(1),
        });
        writes
    }
}

fn adders(alloc: Global, nodes: usize, sections: u64) -> Result<Vec<Adder>, AllocError> {
    let mut all = Vec::new(alloc);
    for _node in 0..nodes {
        all.push(Adder { left: sections })?;
    }
    Ok(all)
}

/// Runs this many sections for each node, and returns how many were run.
fn ricart<R: Host>(
    rt: &R,
    alloc: Global,
    parcels: &Arc<AtomicU64, Global>,
    nodes: u8,
    sections: u64,
) -> Result<usize> {
    let stations = stations::<Ricart>(alloc, &count_of(nodes)?, &SETTINGS)?;
    let links = counting_links(alloc, parcels, stations.len())?;
    let jobs = adders(alloc, stations.len(), sections)?;
    match run(rt, alloc, stations, jobs, links, OPTIONS) {
        Ok(all) => Ok(all.gathered.receipts.len()),
        Err(left) => bail!("no end: {}", left.fault),
    }
}

fn maekawa<R: Host>(
    rt: &R,
    alloc: Global,
    parcels: &Arc<AtomicU64, Global>,
    nodes: u8,
    sections: u64,
) -> Result<usize> {
    let stations = stations::<Maekawa>(alloc, &quorums_of(nodes)?, &SETTINGS)?;
    let links = counting_links(alloc, parcels, stations.len())?;
    let jobs = adders(alloc, stations.len(), sections)?;
    match run(rt, alloc, stations, jobs, links, OPTIONS) {
        Ok(all) => Ok(all.gathered.receipts.len()),
        Err(left) => bail!("no end: {}", left.fault),
    }
}

fn raymond<R: Host>(
    rt: &R,
    alloc: Global,
    parcels: &Arc<AtomicU64, Global>,
    nodes: u8,
    sections: u64,
) -> Result<usize> {
    let stations = stations::<Raymond>(alloc, &binary_tree(alloc, nodes)?, &SETTINGS)?;
    let links = counting_links(alloc, parcels, stations.len())?;
    let jobs = adders(alloc, stations.len(), sections)?;
    match run(rt, alloc, stations, jobs, links, OPTIONS) {
        Ok(all) => Ok(all.gathered.receipts.len()),
        Err(left) => bail!("no end: {}", left.fault),
    }
}

fn run_by<R: Host + AllocGlobal>(
    rt: &R,
    algorithm: &str,
    parcels: &Arc<AtomicU64, Global>,
    nodes: u8,
    sections: u64,
) -> Result<usize> {
    match algorithm {
        "ricart" => ricart(rt, rt.alloc(), parcels, nodes, sections),
        "maekawa" => maekawa(rt, rt.alloc(), parcels, nodes, sections),
        "raymond" => raymond(rt, rt.alloc(), parcels, nodes, sections),
        _ => bail!("no such algorithm"),
    }
}

/// Runs this many sections in all, the same number for each node. Prints how many were run and the
/// microseconds that they took.
pub(crate) fn time_jobs<R: Host + Print + AllocGlobal>(
    rt: &R,
    algorithm: &str,
    nodes: u8,
    sections: u64,
) -> Result<()> {
    let begun = Instant::now(rt)?;
    let parcels = Arc::new(rt.alloc(), AtomicU64::new(0))?;
    let entered = run_by(
        rt,
        algorithm,
        &parcels,
        nodes,
        sections / u64::from(nodes.max(1)),
    )?;
    let took = begun.elapsed(rt)?.as_micros();
    let parcels = parcels.load(Ordering::SeqCst);
    println!(rt; "{entered} {parcels} {took}")?;
    Ok(())
}
