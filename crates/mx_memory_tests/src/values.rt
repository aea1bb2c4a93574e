//! Calls that return a value, or append a text: a refused call returns none, or promises nothing of
//! the text.

use crate::bench::Bench;
use crate::harness::{Outcome, done, ended};
use crate::jobs::SETTINGS;
use crate::nodes::parcel_of;
use crate::stations::open;
use crate::table::{Call, EVENTS, PLAN, Row};
use arrayvec::ArrayVec;
use mx_explorer::schedule;
use mx_format::{Letter, add_asks, add_member_line, add_parcel, add_parcel_line, add_plan};
use mx_jobs::{fair_links, stations};
use mx_journal::{Base, Cell, Range};
use mx_letters::{MaekawaMsg, RaymondMsg, RicartMsg};
use mx_member::{Parcel, SentParcel};
use mx_merge::MergeFault;
use mx_network::Cluster;
use mx_plan::{PlanFault, read_events, read_plan};
use mx_ricart::Ricart;
use mx_stamps::{NodeId, Stamp};
use std::alloc::AllocError;

fn stamp() -> Stamp {
    Stamp {
        number: 5,
        node: NodeId::default(),
    }
}

fn want() -> Parcel<RicartMsg> {
    let mut ranges = ArrayVec::new();
    ranges.push(Range { first: 1, last: 1 });
    ranges.push(Range { first: 3, last: 10 });
    Parcel::Want(ranges)
}

/// Returns a base of two sections that wrote nothing, as a parcel. There is one.
fn base() -> Parcel<RicartMsg> {
    match Base::of(2, [Cell::default(); 32]) {
        Some(base) => Parcel::Base(base),
        None => Parcel::default(),
    }
}

fn add_line(bench: &Bench, text: &mut String) -> Result<(), AllocError> {
    let parcel = want();
    let [from, to] = bench.nodes;
    let sent = SentParcel {
        from,
        to,
        parcel: &parcel,
    };
    add_parcel_line(&bench.plan, 7, &sent, text)
}

fn add(bench: &Bench, call: Call, text: &mut String) -> Result<(), AllocError> {
    let plan = &bench.plan;
    match call {
        Call::AddPlan => add_plan(plan, false, text),
        Call::AddAsks => add_asks(plan, false, text),
        Call::AddMemberLine => add_member_line(plan, NodeId::default(), &bench.member, text),
        Call::AddParcelLine => add_line(bench, text),
        Call::TellRicart => RicartMsg::Reply(stamp(), 3).tell(plan, text),
        Call::TellMaekawa => MaekawaMsg::Locked(stamp(), 2, 3).tell(plan, text),
        Call::TellRaymond => RaymondMsg::Privilege(2, 3).tell(plan, text),
        Call::AddBase => add_parcel(plan, &base(), text),
        _ => add_parcel(plan, &parcel_of(&[1, 3]), text),
    }
}

fn is_made(bench: &mut Bench, call: Call, row: Row) -> Result<bool, AllocError> {
    let alloc = bench.alloc;
    match (call, row) {
        (Call::MakeRoom, _) => bench.cluster.make_room(100)?,
        (Call::Schedule, _) => drop(schedule(alloc, 1, 100, &bench.plan)?),
        (Call::StartCluster, _) => drop(Cluster::<Ricart>::start(alloc, &bench.shape, 0, 10, 1)?),
        (Call::OpenStations, Row::Nodes(nodes)) => drop(open(alloc, nodes)?),
        (Call::NewStations, _) => drop(stations::<Ricart>(alloc, &bench.shape, &SETTINGS)?),
        (Call::FairLinks, _) => return Ok(fair_links(alloc, 2)?.len() == 2),
        _ => add(bench, call, &mut String::new(alloc))?,
    }
    Ok(true)
}

pub(crate) fn make(bench: &mut Bench, call: Call, row: Row) -> Outcome {
    let fault = match call {
        Call::ReadPlan => read_plan(bench.alloc, PLAN.as_bytes()).err(),
        Call::ReadEvents => read_events(bench.alloc, EVENTS.as_bytes(), &bench.plan).err(),
        Call::Merged => return merged(bench),
        _ => {
            return match is_made(bench, call, row) {
                Ok(holds) => done(holds),
                Err(AllocError) => Outcome::Refused,
            };
        }
    };
    match fault {
        None => Outcome::Done,
        Some(fault) => ended(Some(fault == PlanFault::Memory)),
    }
}

fn merged(bench: &Bench) -> Outcome {
    match bench.cluster.merged(bench.alloc, &bench.nodes) {
        Ok(_) => Outcome::Done,
        Err(fault) => ended(Some(fault == MergeFault::Memory)),
    }
}
