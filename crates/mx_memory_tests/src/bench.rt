//! What the calls are made on.

ghost use Rattle.mx_jobs.specs.Runs.{AreNew};
ghost use Rattle.mx_ricart.specs.Step.{ricart_core};

use crate::harness::{Outcome, expect};
use crate::jobs::NewRun;
use crate::nodes::{at_cluster, at_journal, at_member, go_inside, new_member, records_of, settled};
use crate::stations::{Stations, open, state_of_station};
use crate::table::{Call, HISTORY, PLAN, Row};
use crate::{jobs, values};
use anyhow::{Result, bail};
use mx_format::add_member_line;
use mx_jobs::Host;
use mx_journal::{Journal, Record};
use mx_member::Member;
use mx_network::{Cluster, Event};
use mx_plan::{Plan, PlanFault, read_events, read_plan};
use mx_ricart::{Count, Ricart};
use mx_stamps::NodeId;
use std::alloc::{AllocError, Global};

#[derive(Drop)]
pub(crate) struct Bench {
    pub(crate) alloc: Global,
    pub(crate) nodes: [NodeId; 2],
    /// The shape of a cluster of both.
    pub(crate) shape: Count,
    pub(crate) plan: Plan,
    journal: Journal,
    /// Arguments of the next call: records, and a journal of them.
    records: Vec<Record>,
    other: Journal,
    pub(crate) member: Member<Ricart>,
    pub(crate) cluster: Cluster<Ricart>,
    /// The events that come to the cluster.
    events: Vec<Event>,
    stations: Stations,
}

fn read(alloc: Global) -> Result<(Plan, Vec<Event>), PlanFault> {
    let plan = read_plan(alloc, PLAN.as_bytes())?;
    let events = read_events(alloc, HISTORY.as_bytes(), &plan)?;
    Ok((plan, events))
}

pub(crate) fn new_bench(alloc: Global) -> Result<Bench> {
    let (Some(zero), Some(one), Some(shape)) = (NodeId::of(0), NodeId::of(1), Count::of(2)) else {
        bail!("no such nodes");
    };
    let Ok(run) = read(alloc) else {
        bail!("no plan");
    };
    let nodes = new_nodes(alloc, &shape)?;
    Ok(bench_of(alloc, [zero, one], shape, run, nodes))
}

/// A cluster, a member and stations.
type Nodes = (Cluster<Ricart>, Member<Ricart>, Stations);

fn new_nodes(alloc: Global, shape: &Count) -> Result<Nodes> {
    let cluster = Cluster::start(alloc, shape, 0, 10, 1)?;
    let member = new_member(alloc)?;
    Ok((cluster, member, open(alloc, 0)?))
}

fn bench_of(
    alloc: Global,
    names: [NodeId; 2],
    shape: Count,
    run: (Plan, Vec<Event>),
    nodes: Nodes,
) -> Bench {
    let (plan, events) = run;
    let (cluster, member, stations) = nodes;
    Bench {
        alloc,
        nodes: names,
        shape,
        plan,
        journal: Journal::new(alloc),
        records: Vec::new(alloc),
        other: Journal::new(alloc),
        member,
        cluster,
        events,
        stations,
    }
}

fn renew(bench: &mut Bench) -> Result<()> {
    *bench = new_bench(bench.alloc)?;
    Ok(())
}

/// Returns the state that a refused call leaves as it was.
pub(crate) fn state_of(bench: &Bench) -> Result<String> {
    let upto = bench.journal.base().upto();
    let happened = bench.cluster.trace().len();
    let sent = bench.cluster.sent();
    let mut text = format!(in bench.alloc; "{upto} {happened} {sent}\n")?;
    for number in 0..20 {
        text.push(if bench.journal.get(number).is_some() {
            '1'
        } else {
            '0'
        })?;
    }
    add_members(bench, &mut text)?;
    for station in &bench.stations.all {
        text.push_str(state_of_station(bench.alloc, station)?.as_str())?;
    }
    Ok(text)
}

fn add_members(bench: &Bench, text: &mut String) -> Result<(), AllocError> {
    for node in &bench.nodes {
        add_member_line(&bench.plan, *node, &bench.member, text)?;
        if let Some(member) = bench.cluster.member(*node) {
            add_member_line(&bench.plan, *node, member, text)?;
        }
    }
    Ok(())
}

/// Does what a row says, and returns whether the call is made then.
pub(crate) fn set_up(bench: &mut Bench, row: Row) -> Result<bool> {
    match row {
        Row::New => renew(bench)?,
        Row::Journal(numbers, upto) => bench.journal = settled(bench.alloc, numbers, upto)?,
        Row::Settle(upto) => bench.member.settle(upto)?,
        Row::Open(nodes) => bench.stations = open(bench.alloc, nodes)?,
        Row::Watched(sections) => expect("Watch", bench.stations.has_watched(sections))?,
        _ => {
            prepare(bench, row)?;
            return Ok(true);
        }
    }
    Ok(false)
}

fn prepare(bench: &mut Bench, row: Row) -> Result<()> {
    match row {
        Row::Inside => go_inside(&mut bench.member),
        Row::Section | Row::Send => expect("Station", bench.stations.set_up(row))?,
        _ => {}
    }
    bench.records = records_of(bench.alloc, row.numbers())?;
    bench.other = settled(bench.alloc, row.numbers(), row.upto())?;
    Ok(())
}

pub(crate) fn make<R: Host>(
    threads: &R,
    bench: &mut Bench,
    new: NewRun,
    call: Call,
    row: Row,
    again: bool,
) -> Outcome
    requires { AreNew ricart_core new.stations.items }
{
    match call {
        Call::Put | Call::PutAll | Call::Merge | Call::Join => {
            at_journal(
                &mut bench.journal,
                call,
                bench.records.as_slice(),
                &bench.other,
            )
        }
        Call::Leave | Call::Perform | Call::Deliver | Call::Receive => {
            at_member(&mut bench.member, call, row.numbers())
        }
        Call::Step | Call::Advance | Call::Run => {
            at_cluster(&mut bench.cluster, call, bench.events.as_slice())
        }
        Call::LeaveAt | Call::TakeIn | Call::Turn | Call::Watch | Call::Gather => {
            bench.stations.make(bench.alloc, call, again)
        }
        Call::RunJobs | Call::RunStations => jobs::make(threads, bench.alloc, new, call, again),
        _ => values::make(bench, call, row),
    }
}
