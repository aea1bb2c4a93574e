//! Events that a cluster refuses, and the calls of a single node.

use crate::given::node;
use example_algorithm::{One, Solo};
use mx_letters::Outbox;
use mx_network::{Cluster, Event, StepFault};
use mx_nodelaws::{Exclusion, Phase};
use mx_ricart::{Count, Ricart};
use mx_stamps::Clock;
use std::test::Fail;

/// Returns the number and the node of the stamp that node 2 draws from a clock at 5 that has seen
/// 3.
fn drawn_after_five() -> Option<(u64, u8)> {
    let mut clock = Clock::at(5);
    clock.see(3);
    let stamp = clock.next(node(2))?;
    Some((stamp.number, stamp.node.get()))
}

#[test]
fn step_faults_and_clock(rt: HostRuntime) -> Result<(), Fail> {
    let shape = Count::of(2).ok_or("count")?;
    let mut cluster = Cluster::<Ricart>::start(rt.alloc(), &shape, 0, 1000, 1)?;
    assert!(rt; cluster.step(Event::Ask(node(2))).err() == Some(StepFault::NoNode));
    assert!(rt; cluster.step(Event::Deliver(0)).err() == Some(StepFault::NoParcel));
    assert!(rt; cluster.trace().is_empty());
    assert_eq!(rt; drawn_after_five(), Some((6, 2)));
    Ok(())
}

/// The algorithm of the template, as no cluster runs it.
#[test]
fn one_node_acts_alone(rt: HostRuntime) {
    let mut solo = Solo::start(&One, node(0), 0, 1);
    let mut out = Outbox::new();
    assert!(rt; solo.ask(&mut out).is_ok());
    assert!(rt; solo.enter().is_ok() && solo.phase() == Phase::Inside(1));
    assert!(rt; solo.leave(&mut out).is_ok() && solo.phase() == Phase::Idle);
}
