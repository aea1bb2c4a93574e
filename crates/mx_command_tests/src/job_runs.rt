//! Runs of jobs in threads. Two nodes come to the end of their jobs, or the job of one cannot go on,
//! or all parcels to one of them are lost.

ghost use Rattle.std.specs.Prelude.{IfOk};
ghost use Rattle.mx_jobs.specs.Runs.{AreNew};
ghost use Rattle.mx_maekawa.specs.Step.{maekawa_core};

use crate::arbiters::quorums_of;
use arrayvec::ArrayVec;
use mx_io::SourceFault;
use mx_jobs::{
    Calls, Finished, Host, JobFault, RunFault, RunOptions, Settings, Unfinished, contents, run,
    stations,
};
use mx_journal::Write;
use mx_letters::{Fate, Fates};
use mx_maekawa::Maekawa;
use mx_nodelaws::Phase;
use mx_stations::Station;
use std::alloc::{AllocError, Global};
use std::fmt::Display;
use std::process::Abort;
use std::test::Fail;

/// Links that give each parcel the same fate.
#[derive(Clone, Copy)]
struct Always(Fate);

impl Fates for Always {
    fn fate(&mut self) -> Fate {
        self.0
    }
}

/// How a run of two nodes ends.
#[derive(Clone, Copy, PartialEq)]
enum Ending {
    /// All jobs are done. The values of the two registers.
    Done(u64, u64),
    /// The fault that is reported, and the phase of each node.
    Fault(RunFault, Phase, Phase),
    /// Not all stations or registers come back.
    Lost,
}

/// A run of two nodes. Each section reads two registers, a and b; it writes a + 1 to register 0 and
/// a + b to another one.
#[derive(Clone, Copy)]
struct Case {
    /// The arbiters of each node.
    sets: [&'static [u8]; 2],
    /// The fate of all parcels to each node.
    fates: [Fate; 2],
    /// The registers b and a.
    reads: [u8; 2],
    /// The register that gets a + b.
    second: u8,
    /// The number of sections of each node's job.
    sections: [u64; 2],
    /// The greatest number of turns of each node.
    turns: u64,
    ends: Ending,
}

/// The two nodes have ten sections each. After 20 sections register 0 is 20, and register 1 is
/// 0 + 1 + .. + 19.
const COUNTING: Case = Case {
    sets: [&[0, 1], &[0, 1]],
    fates: [Fate::Pass, Fate::Pass],
    reads: [1, 0],
    second: 1,
    sections: [10, 10],
    turns: 100_000_000,
    ends: Ending::Done(20, 190),
};

const NO_REGISTER: RunFault = RunFault::Job(JobFault::NoRegister);

const NUMBERS_SPENT: RunFault = RunFault::Job(JobFault::NumbersSpent);

/// The job of one node reads a register that does not exist, or writes one, or wants one section more
/// than have numbers. The other node has no section, and would make all its turns.
const BROKEN: [Case; 6] = [
    Case {
        reads: [1, 2],
        sections: [1, 0],
        ends: Ending::Fault(NO_REGISTER, Phase::Inside(1), Phase::Idle),
        ..COUNTING
    },
    Case {
        reads: [1, 2],
        sections: [0, 1],
        ends: Ending::Fault(NO_REGISTER, Phase::Idle, Phase::Inside(1)),
        ..COUNTING
    },
    Case {
        second: 2,
        sections: [1, 0],
        ends: Ending::Fault(NO_REGISTER, Phase::Inside(1), Phase::Idle),
        ..COUNTING
    },
    Case {
        second: 2,
        sections: [0, 1],
        ends: Ending::Fault(NO_REGISTER, Phase::Idle, Phase::Inside(1)),
        ..COUNTING
    },
    Case {
        sections: [21, 0],
        ends: Ending::Fault(NUMBERS_SPENT, Phase::Waiting, Phase::Idle),
        ..COUNTING
    },
    Case {
        sections: [0, 21],
        ends: Ending::Fault(NUMBERS_SPENT, Phase::Idle, Phase::Waiting),
        ..COUNTING
    },
];

/// One node is its only arbiter, so its four sections need the parcels to itself alone. The parcels
/// to one of the two nodes are lost.
const FATES: [Case; 4] = [
    Case {
        sets: [&[0], &[0, 1]],
        fates: [Fate::Pass, Fate::Drop],
        sections: [4, 0],
        ends: Ending::Done(4, 6),
        ..COUNTING
    },
    Case {
        sets: [&[0], &[0, 1]],
        fates: [Fate::Drop, Fate::Pass],
        sections: [4, 0],
        turns: 1000,
        ends: Ending::Fault(RunFault::TurnsSpent, Phase::Waiting, Phase::Idle),
        ..COUNTING
    },
    Case {
        sets: [&[0, 1], &[1]],
        fates: [Fate::Drop, Fate::Pass],
        sections: [0, 4],
        ends: Ending::Done(4, 6),
        ..COUNTING
    },
    Case {
        sets: [&[0, 1], &[1]],
        fates: [Fate::Pass, Fate::Drop],
        sections: [0, 4],
        turns: 1000,
        ends: Ending::Fault(RunFault::TurnsSpent, Phase::Idle, Phase::Waiting),
        ..COUNTING
    },
];

const SETTINGS: Settings = Settings {
    origin: 0,
    sections: 20,
    registers: 2,
};

fn new_stations(alloc: Global, sets: &[&[u8]]) -> Result<Vec<Station<Maekawa>>, Fail>
    ensures { IfOk result (λ all. AreNew maekawa_core all.items) }
{
    let shape = quorums_of(alloc, sets)?;
    let all = stations::<Maekawa>(alloc, &shape, &SETTINGS)?;
    Ok(all)
}

fn links_of(alloc: Global, fates: [Fate; 2]) -> Result<Vec<Always>, AllocError> {
    let mut links = Vec::new(alloc);
    for fate in fates {
        links.push(Always(fate))?;
    }
    Ok(links)
}

fn writes_of(values: &[u64], second: u8) -> ArrayVec<Write, 8> {
    let mut writes = ArrayVec::new();
    if let [b, a] = values {
        writes.push(Write {
            register: 0,
            value: a.wrapping_add(1),
        });
        writes.push(Write {
            register: second,
            value: a.wrapping_add(*b),
        });
    }
    writes
}

fn values_of<J: Drop>(all: &Finished<J>) -> Ending {
    let values = contents(&all.gathered.journal, 2);
    match values.as_slice() {
        [first, second] => Ending::Done(*first, *second),
        _ => Ending::Lost,
    }
}

fn phases_of<J: Drop>(left: &Unfinished<Maekawa, J>) -> Ending {
    match left.stations.as_slice() {
        [zero, one] => Ending::Fault(left.fault, zero.phase(), one.phase()),
        _ => Ending::Lost,
    }
}

fn ending_of<R: Host>(
    rt: &R,
    alloc: Global,
    stations: Vec<Station<Maekawa>>,
    case: &Case,
) -> Result<Ending, AllocError>
    requires { AreNew maekawa_core stations.items }
{
    let links = links_of(alloc, case.fates)?;
    let second = case.second;
    let mut jobs = Vec::new(alloc);
    for sections in case.sections {
        jobs.push(Calls::new(
            sections,
            &case.reads,
            move |_number: u64, values: ArrayVec<u64, 8>| writes_of(values.as_slice(), second),
        ))?;
    }
    let options = RunOptions {
        turns: case.turns,
        settle_every: 0,
    };
    match run(rt, alloc, stations, jobs, links, options) {
        Ok(all) => Ok(values_of(&all)),
        Err(left) => Ok(phases_of(&left)),
    }
}

fn assert_cases<R: Host + Abort>(rt: &R, alloc: Global, cases: &[Case]) -> Result<(), Fail> {
    for (k, case) in cases.iter().enumerate() {
        let stations = new_stations(alloc, &case.sets)?;
        let ends = ending_of(rt, alloc, stations, case)?;
        assert!(rt; ends == case.ends, "case {k}");
    }
    Ok(())
}

#[test]
fn jobs_of_two_registers_count(rt: HostRuntime) -> Result<(), Fail> {
    assert_cases(&rt, rt.alloc(), &[COUNTING])
}

#[test]
fn a_job_that_cannot_go_on_ends_the_run(rt: HostRuntime) -> Result<(), Fail> {
    assert_cases(&rt, rt.alloc(), &BROKEN)
}

#[test]
fn each_node_has_its_own_fates(rt: HostRuntime) -> Result<(), Fail> {
    assert_cases(&rt, rt.alloc(), &FATES)
}

fn is_told<F: Display>(alloc: Global, fault: &F, text: &str) -> bool {
    match format!(in alloc; "{fault}") {
        Ok(told) => told.as_str() == text,
        Err(_) => false,
    }
}

const TEXTS: [(RunFault, &str); 7] = [
    (RunFault::NotAJobEach, "not a job for each node"),
    (RunFault::Memory, "out of memory"),
    (RunFault::NoThread, "no thread"),
    (NO_REGISTER, "no register"),
    (NUMBERS_SPENT, "numbers spent"),
    (RunFault::GateShut, "gate shut"),
    (RunFault::TurnsSpent, "turns spent"),
];

#[test]
fn faults_of_runs_and_sources_are_told(rt: HostRuntime) {
    for (fault, text) in &TEXTS {
        assert!(rt; is_told(rt.alloc(), fault, *text));
    }
    let unreadable = is_told(
        rt.alloc(),
        &SourceFault::Unreadable,
        "the name cannot be read",
    );
    let memory = is_told(rt.alloc(), &SourceFault::Memory, "out of memory");
    assert!(rt; unreadable && memory);
}
