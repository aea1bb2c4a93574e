//! Five nodes, each in a separate thread, add to one register. Each job is a closure.
#![tactic(auto)]

use anyhow::{Result, bail};
use arrayvec::ArrayVec;
use mx_jobs::{Calls, RunOptions, Settings, fair_links, run, stations};
use mx_journal::Write;
use mx_registers::view;
use mx_ricart::{Count, Ricart};

const NODES: u8 = 5;

/// Bounds the turns of each node, so that the program ends in any case.
const OPTIONS: RunOptions = RunOptions {
    turns: 100_000_000,
    settle_every: 0,
};

fn main(rt: HostRuntime) -> Result<()> {
    let alloc = rt.alloc();
    let Some(shape) = Count::of(NODES) else {
        bail!("no such cluster");
    };
    let mut jobs = Vec::new(alloc);
    for node in 0..NODES {
        let add = u64::from(node) + 1;
        jobs.push(Calls::new(20, &[0], move |_number: u64, values: ArrayVec<u64, 8>| {
            let mut writes = ArrayVec::new();
            if let [value] = values.as_slice() {
                writes.push(Write {
                    register: 0,
                    value: value.wrapping_add(add),
                });
            }
            writes
        }))?;
    }
    let settings = Settings {
        origin: 0,
        sections: 1000,
        registers: 1,
    };
    let stations = stations::<Ricart>(alloc, &shape, &settings)?;
    let links = fair_links(alloc, stations.len())?;
    match run(&rt, alloc, stations, jobs, links, OPTIONS) {
        Ok(all) => {
            let sections = all.gathered.receipts.len();
            let value = view(&all.gathered.journal, 1).value(0).unwrap_or(0);
            println!(rt; "{sections} sections, the register is {value}")?;
            Ok(())
        }
        Err(left) => bail!("no end: {}", left.fault),
    }
}
