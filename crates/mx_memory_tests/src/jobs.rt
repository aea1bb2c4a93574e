//! Stations of jobs are run.

ghost use Rattle.std.specs.Prelude.{IfOk};
ghost use Rattle.mx_jobs.specs.Runs.{AreNew};
ghost use Rattle.mx_ricart.specs.Step.{ricart_core};

use crate::harness::Outcome;
use crate::table::Call;
use anyhow::Result;
use arrayvec::ArrayVec;
use mx_jobs::{
    Host, Job, RunFault, RunOptions, Settings, Unfinished, fair_links, run, run_stations, stations,
};
use mx_journal::Write;
use mx_letters::Fair;
use mx_ricart::{Count, Ricart};
use mx_stations::Station;
use std::alloc::{AllocError, Global};

pub(crate) const SETTINGS: Settings = Settings {
    origin: 0,
    sections: 10,
    registers: 1,
};

/// Writes its section's number, in each of a number of sections.
#[derive(Drop)]
struct Numberer {
    left: u64,
}

impl Job for Numberer {
    fn asks(&self) -> Option<ArrayVec<u8, 8>> {
        if self.left == 0 {
            return None;
        }
        Some(ArrayVec::new())
    }

    fn section(&mut self, number: u64, _values: &[u64]) -> ArrayVec<Write, 8> {
        self.left = self.left.saturating_sub(1);
        let mut writes = ArrayVec::new();
        writes.push(Write {
            register: 0,
            value: number,
        });
        writes
    }
}

#[derive(Drop)]
pub(crate) struct NewRun {
    pub(crate) stations: Vec<Station<Ricart>>,
    links: Vec<Fair>,
    jobs: Vec<Numberer>,
}

pub(crate) fn new_run(alloc: Global, shape: &Count) -> Result<NewRun>
    ensures { IfOk result (λ new. AreNew ricart_core new.stations.items) }
{
    let mut jobs = Vec::new(alloc);
    for _node in 0..2 {
        jobs.push(Numberer { left: 2 })?;
    }
    let links = fair_links(alloc, 2)?;
    let stations = stations::<Ricart>(alloc, shape, &SETTINGS)?;
    Ok(NewRun {
        stations,
        links,
        jobs,
    })
}

/// All stations and jobs come back.
fn outcome_of(left: &Unfinished<Ricart, Numberer>) -> Outcome {
    match left.fault {
        _ if left.stations.len() != 2 || left.jobs.len() != 2 => Outcome::Wrong,
        RunFault::Memory | RunFault::NoThread => Outcome::Refused,
        RunFault::TurnsSpent => Outcome::Spent,
        RunFault::NotAJobEach | RunFault::Job(_) | RunFault::GateShut => Outcome::Wrong,
    }
}

/// Runs new stations, and gathers them or not. While memory is refused to every turn no section is
/// entered, and the run has to end soon; the second time it may take long.
pub(crate) fn make<R: Host>(
    threads: &R,
    alloc: Global,
    new: NewRun,
    call: Call,
    again: bool,
) -> Outcome
    requires { AreNew ricart_core new.stations.items }
{
    let options = RunOptions {
        turns: if again { 100_000_000 } else { 2_000 },
        settle_every: 1,
    };
    match call {
        Call::RunJobs => {
            let ended = run(threads, alloc, new.stations, new.jobs, new.links, options);
            match &ended {
                Ok(_) => Outcome::Done,
                Err(left) => outcome_of(left),
            }
        }
        _ => {
            let ended = run_stations(threads, alloc, new.stations, new.jobs, new.links, options);
            match &ended {
                Ok(_) => Outcome::Done,
                Err(left) => outcome_of(left),
            }
        }
    }
}
