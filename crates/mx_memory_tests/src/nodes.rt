//! Calls of a journal, of a member, and of a cluster.

use crate::harness::{Outcome, ended};
use crate::table::Call;
use anyhow::{Result, bail};
use arrayvec::ArrayVec;
use mx_journal::{Journal, PutFault, Record, Write};
use mx_letters::{Outbox, RicartMsg};
use mx_member::{Act, CloseFault, DeliverFault, Member, Parcel, perform};
use mx_merge::{MergeFault, agree, merge};
use mx_network::{Cluster, Event, StepFault};
use mx_nodelaws::Exclusion;
use mx_ricart::{Count, Ricart};
use mx_stamps::NodeId;
use std::alloc::{AllocError, Global};

fn record(number: u64) -> Record {
    let mut record = Record::default();
    record.number = number;
    if record.writes.is_empty() {
        record.writes.push(Write {
            register: 0,
            value: number,
        });
    }
    record
}

pub(crate) fn records_of(alloc: Global, numbers: &[u64]) -> Result<Vec<Record>, AllocError> {
    let mut list = Vec::new(alloc);
    for number in numbers {
        list.push(record(*number))?;
    }
    Ok(list)
}

/// Returns a journal of records of these numbers, which settles up to one of them.
pub(crate) fn settled(alloc: Global, numbers: &[u64], upto: u64) -> Result<Journal> {
    let mut journal = Journal::new(alloc);
    journal.put_all(records_of(alloc, numbers)?.as_slice())?;
    journal.settle(upto)?;
    Ok(journal)
}

/// Puts the first record alone, or all of them. Returns whether memory was refused, if it fails.
fn put(journal: &mut Journal, call: Call, records: &[Record]) -> Option<bool> {
    let fault = match records.first() {
        Some(record) if call == Call::Put => journal.put(record.copy()).err(),
        _ => journal.put_all(records).err(),
    };
    Some(fault? == PutFault::Memory)
}

fn add(journal: &mut Journal, call: Call, other: &Journal) -> Option<bool> {
    match call {
        Call::Merge => Some(merge(journal, other).err()? == MergeFault::Memory),
        _ if !agree(journal, other) => Some(false),
        _ => Some(journal.join(other).err()? == AllocError),
    }
}

pub(crate) fn at_journal(
    journal: &mut Journal,
    call: Call,
    records: &[Record],
    other: &Journal,
) -> Outcome {
    match call {
        Call::Put | Call::PutAll => ended(put(journal, call, records)),
        _ => ended(add(journal, call, other)),
    }
}

pub(crate) fn new_member(alloc: Global) -> Result<Member<Ricart>> {
    let Some(shape) = Count::of(1) else {
        bail!("no such cluster");
    };
    if Ricart::nodes(&shape) == 0 {
        bail!("no such node");
    }
    Ok(Member::start(alloc, &shape, NodeId::default(), 0, 10, 1))
}

/// Enters section 1, writes and reads. If an act is refused, there is no section to leave.
pub(crate) fn go_inside(member: &mut Member<Ricart>) {
    let _ = member.ask(&mut Outbox::new());
    let _ = member.enter();
    let _ = member.write(0, 7);
    let _ = member.read(0);
}

pub(crate) fn parcel_of(numbers: &[u64]) -> Parcel<RicartMsg> {
    let mut records = ArrayVec::new();
    for number in numbers {
        if !records.is_full() {
            records.push(record(*number));
        }
    }
    Parcel::Records(records)
}

/// Leaves, or takes records of these numbers. Returns whether memory was refused, if it fails.
fn act(member: &mut Member<Ricart>, call: Call, numbers: &[u64]) -> Option<bool> {
    let node = NodeId::default();
    let mut out = Outbox::new();
    let fault = match call {
        Call::Leave => return Some(member.leave(&mut out).err()? == CloseFault::Memory),
        Call::Perform => return Some(perform(member, Act::Leave, &mut out).err()? == AllocError),
        Call::Deliver => member.deliver(node, parcel_of(numbers), &mut out).err(),
        _ => member.receive(node, &parcel_of(numbers), &mut out).err(),
    };
    Some(fault? == DeliverFault::Memory)
}

pub(crate) fn at_member(member: &mut Member<Ricart>, call: Call, numbers: &[u64]) -> Outcome {
    ended(act(member, call, numbers))
}

/// Runs events. If memory is refused to one, those before it remain applied.
fn run(cluster: &mut Cluster<Ricart>, events: &[Event]) -> Outcome {
    let before = cluster.trace().len() as u64;
    let Some(fault) = cluster.run(events).err() else {
        return Outcome::Done;
    };
    let happened = cluster.trace().len() as u64;
    if fault.fault == StepFault::Memory && happened == before.saturating_add(fault.index) {
        Outcome::Partly
    } else {
        Outcome::Wrong
    }
}

/// Makes the step of the next event, or runs all that remain.
pub(crate) fn at_cluster(cluster: &mut Cluster<Ricart>, call: Call, events: &[Event]) -> Outcome {
    let rest = events.get(cluster.trace().len()..).unwrap_or(&[]);
    let fault = match (call, rest.first()) {
        (Call::Step, Some(event)) => cluster.step(*event).err(),
        (Call::Advance, Some(event)) => cluster.advance(*event).err(),
        _ => return run(cluster, rest),
    };
    match fault {
        None => Outcome::Done,
        Some(fault) => ended(Some(fault == StepFault::Memory)),
    }
}
