//! Calls with large inputs, with enough memory.

use crate::given::{entry, node};
use mx_journal::{Journal, Record};
use mx_merge::{agree, merge};
use mx_network::{Cluster, Event};
use mx_ricart::{Count, Ricart};
use mx_stamps::NodeId;
use std::alloc::{AllocError, Global};
use std::test::Fail;

fn thousands(alloc: Global) -> Result<Vec<Record>, AllocError> {
    let mut list = Vec::new(alloc);
    for number in 1..=5000 {
        list.push(entry(number, &[(0, number)]))?;
    }
    Ok(list)
}

fn one_by_one(alloc: Global, list: &[Record]) -> Result<Journal, Fail> {
    let mut journal = Journal::new(alloc);
    for record in list.iter().rev() {
        journal.put(record.copy())?;
    }
    Ok(journal)
}

fn takes_all(journal: &mut Journal, list: &[Record], other: &Journal) -> bool {
    journal.put_all(list) == Ok(5000)
        && journal.put_all(list) == Ok(0)
        && agree(other, journal)
        && merge(journal, other) == Ok(0)
        && journal.len() == 5000
        && journal.gapless_to() == 5000
}

#[test]
fn journals_of_thousands(rt: HostRuntime) -> Result<(), Fail> {
    let list = thousands(rt.alloc())?;
    let other = one_by_one(rt.alloc(), list.as_slice())?;
    let are_taken = takes_all(&mut Journal::new(rt.alloc()), list.as_slice(), &other);
    assert!(rt; are_taken);
    Ok(())
}

fn names() -> [NodeId; 21] {
    let mut names = [node(0); 21];
    for index in 0..21u8 {
        names[index as usize] = node(index);
    }
    names
}

/// Returns the event at this index of sections that 21 nodes have in turn. In each a node sends 20
/// requests, all are replied to, and it enters, writes and leaves: 44 events, and 40 parcels.
fn event_at(index: u64) -> Event {
    let section = index / 44;
    let name = node((section % 21) as u8);
    match index % 44 {
        0 => Event::Ask(name),
        41 => Event::Enter(name),
        42 => Event::Write(name, 0, section),
        43 => Event::Leave(name),
        place => Event::Deliver(section * 40 + place - 1),
    }
}

fn turns(alloc: Global, count: u64) -> Result<Vec<Event>, AllocError> {
    let mut events = Vec::new(alloc);
    for index in 0..count {
        events.push(event_at(index))?;
    }
    Ok(events)
}

fn started(alloc: Global) -> Result<Cluster<Ricart>, Fail> {
    let shape = Count::of(21).ok_or("count")?;
    Ok(Cluster::start(alloc, &shape, 0, 1000, 1)?)
}

fn runs(cluster: &mut Cluster<Ricart>, events: &[Event]) -> bool {
    cluster.run(events).is_ok() && cluster.trace().len() == 5280 && cluster.sent() == 4800
}

fn has_sections(alloc: Global, cluster: &mut Cluster<Ricart>) -> bool {
    match turns(alloc, 120 * 44) {
        Ok(events) => runs(cluster, events.as_slice()),
        Err(_) => false,
    }
}

fn merges(alloc: Global, cluster: &Cluster<Ricart>) -> bool {
    match cluster.merged(alloc, &names()) {
        Ok(all) => all.len() == 120 && all.gapless_to() == 120,
        Err(_) => false,
    }
}

#[test]
fn twenty_one_nodes_in_turn(rt: HostRuntime) -> Result<(), Fail> {
    let mut cluster = started(rt.alloc())?;
    let has_run = has_sections(rt.alloc(), &mut cluster) && merges(rt.alloc(), &cluster);
    assert!(rt; has_run);
    Ok(())
}
