//! The benches of journals and of stations. Usage: benches journals RECORDS SEED, benches settling
//! RECORDS EVERY, benches stations ALGORITHM NODES SECTIONS, or benches jobs ALGORITHM NODES
//! SECTIONS. Without arguments it prints this usage.
#![tactic(auto)]

mod jobs;
mod journals;
mod live;
mod shapes;

use crate::jobs::time_jobs;
use crate::journals::{time_journals, time_settling};
use crate::live::time_stations;
use anyhow::{Result, bail};
use mx_jobs::Host;
use std::env;

const USAGE: &str =
    "usage: benches journals RECORDS SEED, benches settling RECORDS EVERY, or benches stations|jobs ALGORITHM NODES SECTIONS";

fn time(rt: &HostRuntime, what: &str, first: &str, second: &str) -> Result<()> {
    match what {
        "journals" => time_journals(rt, first.parse()?, second.parse()?),
        "settling" => time_settling(rt, first.parse()?, second.parse()?),
        _ => bail!("{USAGE}"),
    }
}

fn time_run<R: Host + Print + AllocGlobal>(
    rt: &R,
    what: &str,
    algorithm: &str,
    nodes: &str,
    sections: &str,
) -> Result<()> {
    match what {
        "stations" => time_stations(rt, algorithm, nodes.parse()?, sections.parse()?),
        "jobs" => time_jobs(rt, algorithm, nodes.parse()?, sections.parse()?),
        _ => bail!("{USAGE}"),
    }
}

fn tell_usage(rt: &HostRuntime) -> Result<()> {
    println!(rt; "{USAGE}")?;
    Ok(())
}

fn main(rt: HostRuntime) -> Result<()> {
    let words: Vec<String> = env::args(&rt)?.skip(1).collect(rt.alloc())?;
    match words.as_slice() {
        [what, first, second] => time(&rt, what.as_str(), first.as_str(), second.as_str()),
        [what, algorithm, nodes, sections] => time_run(
            &rt,
            what.as_str(),
            algorithm.as_str(),
            nodes.as_str(),
            sections.as_str(),
        ),
        _ => tell_usage(&rt),
    }
}
