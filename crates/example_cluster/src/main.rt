//! A cluster of three nodes in one value, without threads, by Raymond's algorithm. Each node enters
//! one section, in which it adds 1 to a register. The caller plays the network: here each parcel
//! arrives once, in order.
#![tactic(auto)]

use anyhow::{Result, bail};
use mx_network::{Cluster, Event, Outcome};
use mx_raymond::{Raymond, Tree};
use mx_stamps::NodeId;

/// Applies an event, then delivers each parcel that it sends, and each that these deliveries send.
fn act(cluster: &mut Cluster<Raymond>, event: Event) -> Result<()> {
    let first = cluster.sent();
    cluster.advance(event)?;
    for number in first..1000 {
        if number < cluster.sent() {
            cluster.advance(Event::Deliver(number))?;
        }
    }
    Ok(())
}

/// Adds 1 to register 0, at a node that is inside, and returns the value before. A refused read is
/// an outcome of `step`, not an `Err`.
fn add_one(cluster: &mut Cluster<Raymond>, node: NodeId) -> Result<u64> {
    match cluster.step(Event::Read(node, 0))? {
        Outcome::Value(value) => {
            cluster.advance(Event::Write(node, 0, value.saturating_add(1)))?;
            Ok(value)
        }
        _ => bail!("the read was refused"),
    }
}

/// Runs a section of a node, which asks `other` for the records of earlier sections. Returns the
/// value that the section read.
fn section(cluster: &mut Cluster<Raymond>, node: NodeId, other: NodeId) -> Result<u64> {
    act(cluster, Event::Ask(node))?;
    act(cluster, Event::Enter(node))?;
    act(cluster, Event::Want(node, other))?;
    let value = add_one(cluster, node)?;
    act(cluster, Event::Leave(node))?;
    Ok(value)
}

fn main(rt: HostRuntime) -> Result<()> {
    let tree = Tree::of(3, &[(0, 1), (1, 2)], 0)?;
    let mut cluster = Cluster::<Raymond>::start(rt.alloc(), &tree, 0, 1000, 1)?;
    let mut other = NodeId::default();
    for node in [0, 1, 2].iter().filter_map(|index| NodeId::of(*index)) {
        let value = section(&mut cluster, node, other)?;
        println!(rt; "node {} has read {value}", node.get())?;
        other = node;
    }
    println!(rt;
        "{} events, {} parcels",
        cluster.trace().len(),
        cluster.sent()
    )?;
    Ok(())
}
