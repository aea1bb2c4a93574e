//! Runs of small clusters, for what print does not show. The journals of all nodes merge after each
//! event, a stamp has the node that asked, and a receipt has its reads and writes.

use crate::given::node;
use mx_journal::Receipt;
use mx_maekawa::Maekawa;
use mx_network::{Cluster, Event, Outcome};
use mx_nodelaws::Exclusion;
use mx_plan::{Plan, Shape, read_events, read_plan};
use mx_raymond::Raymond;
use mx_ricart::Ricart;
use std::alloc::Global;
use std::test::Fail;

/// The reads of a receipt: the register, the value, and the number of writes before.
type Reads = &'static [(u8, u64, u8)];

/// The writes of a receipt: the register and the value.
type Writes = &'static [(u8, u64)];

#[derive(Clone, Copy)]
pub(crate) struct Run {
    /// The example that prints it.
    name: &'static str,
    pub(crate) plan: &'static str,
    pub(crate) events: &'static str,
    /// The number and the node of each stamp.
    asked: &'static [(u64, u8)],
    /// The number, the node, the reads and the writes of each section that was left.
    left: &'static [(u64, u8, Reads, Writes)],
}

/// Node 0 reads the value that node 1 wrote, once node 1 has sent it the missing record, and then
/// the one that it has written itself.
pub(crate) const READ_WAITS: Run = Run {
    name: "read_waits_for_the_gap",
    plan: r#"{"algorithm":"ricart","nodes":["a","b"],"registers":["x","y"],"sections":1000}"#,
    events: r#"[["ask","a"],["deliver",0],["deliver",1],["enter","a"],["write","a","x",10],["leave","a"],["ask","b"],["deliver",2],["deliver",3],["enter","b"],["write","b","x",20],["leave","b"],["ask","a"],["deliver",4],["deliver",5],["enter","a"],["write","a","y",5],["leave","a"],["ask","a"],["deliver",6],["deliver",7],["enter","a"],["read","a","x"],["want","a","b"],["deliver",8],["deliver",9],["read","a","x"],["write","a","x",21],["read","a","x"],["leave","a"]]"#,
    asked: &[(1, 0), (2, 1), (3, 0), (4, 0)],
    left: &[
        (1, 0, &[], &[(0, 10)]),
        (2, 1, &[], &[(0, 20)]),
        (3, 0, &[], &[(1, 5)]),
        (4, 0, &[(0, 20, 0), (0, 21, 1)], &[(0, 21)]),
    ],
};

const ALONE: Run = Run {
    name: "single_node",
    plan: r#"{"algorithm":"ricart","nodes":["a"],"registers":["count"],"sections":1000}"#,
    events: r#"[["ask","a"],["enter","a"],["leave","a"]]"#,
    asked: &[(1, 0)],
    left: &[(1, 0, &[], &[])],
};

const RUNS: [Run; 10] = [
    READ_WAITS,
    ALONE,
    Run {
        name: "last_stamp_drawn",
        plan: r#"{"algorithm":"ricart","nodes":["a"],"registers":["count"],"sections":1000,"origin":18446744073709551614}"#,
        events: r#"[["ask","a"],["enter","a"],["leave","a"],["ask","a"]]"#,
        asked: &[(18446744073709551615, 0)],
        ..ALONE
    },
    Run {
        name: "restart_empties_draft",
        events: r#"[["ask","a"],["enter","a"],["write","a","count",5],["write","a","count",6],["read","a","count"],["restart","a"],["read","a","count"],["leave","a"]]"#,
        left: &[(1, 0, &[(0, 0, 0)], &[])],
        ..ALONE
    },
    Run {
        name: "cancel_after_numbers_spent",
        plan: r#"{"algorithm":"ricart","nodes":["a"],"registers":["count"],"sections":2}"#,
        events: r#"[["ask","a"],["enter","a"],["leave","a"],["ask","a"],["enter","a"],["leave","a"],["ask","a"],["enter","a"],["enter","a"],["ask","a"],["leave","a"],["cancel","a"],["ask","a"]]"#,
        asked: &[(1, 0), (2, 0), (3, 0), (4, 0)],
        left: &[(1, 0, &[], &[]), (2, 0, &[], &[])],
    },
    Run {
        name: "base_answers_want",
        plan: r#"{"algorithm":"ricart","nodes":["a","b"],"registers":["count"],"sections":1000}"#,
        events: r#"[["ask","a"],["deliver",0],["deliver",1],["enter","a"],["write","a","count",5],["leave","a"],["settle","a",1],["ask","b"],["deliver",2],["deliver",3],["enter","b"],["read","b","count"],["want","b","a"],["deliver",4],["deliver",5],["read","b","count"],["settle","b",0],["settle","a",2]]"#,
        asked: &[(1, 0), (2, 1)],
        left: &[(1, 0, &[], &[(0, 5)])],
    },
    Run {
        name: "lost_release_answered",
        plan: r#"{"algorithm":"maekawa","nodes":["a","b","c"],"registers":["count"],"sections":1000,"quorums":{"kind":"listed","sets":[["a","b"],["b","c"],["c","a"]]}}"#,
        events: r#"[["ask","a"],["deliver",0],["deliver",1],["deliver",2],["deliver",3],["enter","a"],["leave","a"],["deliver",4],["ask","a"],["deliver",6],["deliver",7],["deliver",9],["deliver",10],["deliver",8],["deliver",11],["enter","a"]]"#,
        asked: &[(1, 0), (2, 0)],
        ..ALONE
    },
    Run {
        name: "single_node_maekawa",
        plan: r#"{"algorithm":"maekawa","nodes":["a"],"registers":["count"],"sections":1000,"quorums":{"kind":"listed","sets":[["a"]]}}"#,
        events: r#"[["ask","a"],["enter","a"],["deliver",0],["deliver",1],["enter","a"],["leave","a"]]"#,
        ..ALONE
    },
    Run {
        name: "repeated_privilege_acknowledged",
        plan: r#"{"algorithm":"raymond","nodes":["a","b","c"],"registers":["count"],"sections":1000,"edges":[["a","b"],["b","c"]],"holder":"a"}"#,
        events: r#"[["ask","c"],["deliver",0],["deliver",1],["deliver",2],["deliver",4],["enter","c"],["ask","b"],["deliver",2],["enter","b"]]"#,
        asked: &[(1, 2), (1, 1)],
        left: &[],
    },
    Run {
        name: "single_node_raymond",
        plan: r#"{"algorithm":"raymond","nodes":["a"],"registers":["count"],"sections":1000,"edges":[],"holder":"a"}"#,
        ..ALONE
    },
];

fn has_read(receipt: &Receipt, reads: Reads) -> bool {
    for (read, (register, value, after)) in receipt.reads.iter().zip(reads) {
        if read.register != *register || read.value != *value || read.after != *after {
            return false;
        }
    }
    receipt.reads.len() == reads.len()
}

fn has_written(receipt: &Receipt, writes: Writes) -> bool {
    for (write, (register, value)) in receipt.writes.iter().zip(writes) {
        if write.register != *register || write.value != *value {
            return false;
        }
    }
    receipt.writes.len() == writes.len()
}

fn is_receipt(receipt: &Receipt, of: (u64, u8, Reads, Writes)) -> bool {
    receipt.number == of.0
        && receipt.node.get() == of.1
        && has_read(receipt, of.2)
        && has_written(receipt, of.3)
}

/// Returns how many stamps and receipts there are after an outcome, if it has the next of a run.
fn next(outcome: &Outcome, run: &Run, asked: usize, left: usize) -> Option<(usize, usize)> {
    match outcome {
        Outcome::Asked(stamp) if run.asked.get(asked)? == &(stamp.number, stamp.node.get()) => {
            Some((asked.saturating_add(1), left))
        }
        Outcome::Left(receipt) if is_receipt(receipt, *run.left.get(left)?) => {
            Some((asked, left.saturating_add(1)))
        }
        Outcome::Asked(_) | Outcome::Left(_) => None,
        _ => Some((asked, left)),
    }
}

/// Returns whether a run has its stamps and receipts, and after each event all journals merge into
/// one that covers the sections left so far, and no more.
fn goes_so<C: Exclusion>(
    alloc: Global,
    cluster: &mut Cluster<C>,
    events: &[Event],
    run: &Run,
) -> Result<bool, Fail> {
    let (mut asked, mut left) = (0, 0);
    for event in events {
        let outcome = cluster.step(*event)?;
        let Some(after) = next(&outcome, run, asked, left) else {
            return Ok(false);
        };
        (asked, left) = after;
        let all = cluster.merged(alloc, &[node(0), node(1), node(2)])?;
        if all.top() != left as u64 || all.gapless_to() != left as u64 {
            return Ok(false);
        }
    }
    Ok((asked, left) == (run.asked.len(), run.left.len()))
}

pub(crate) fn started<C: Exclusion>(
    alloc: Global,
    shape: &C::Shape,
    plan: &Plan,
) -> Result<Cluster<C>, Fail> {
    let (origin, limit, registers) = (plan.origin(), plan.sections(), plan.registers());
    Ok(Cluster::start(alloc, shape, origin, limit, registers)?)
}

fn goes_by_plan(alloc: Global, plan: &Plan, events: &[Event], run: &Run) -> Result<bool, Fail> {
    match plan.shape() {
        Shape::Ricart(shape) => {
            goes_so(
                alloc,
                &mut started::<Ricart>(alloc, shape, plan)?,
                events,
                run,
            )
        }
        Shape::Maekawa(shape) => {
            goes_so(
                alloc,
                &mut started::<Maekawa>(alloc, shape, plan)?,
                events,
                run,
            )
        }
        Shape::Raymond(shape) => {
            goes_so(
                alloc,
                &mut started::<Raymond>(alloc, shape, plan)?,
                events,
                run,
            )
        }
    }
}

fn goes_on(alloc: Global, plan: &Plan, run: &Run) -> Result<bool, Fail> {
    let events = read_events(alloc, run.events.as_bytes(), plan)?;
    goes_by_plan(alloc, plan, &events, run)
}

fn is_so(alloc: Global, run: &Run) -> Result<bool, Fail> {
    let plan = read_plan(alloc, run.plan.as_bytes())?;
    goes_on(alloc, &plan, run)
}

#[test]
fn journals_merge_after_each_event(rt: HostRuntime) -> Result<(), Fail> {
    for run in &RUNS {
        let name = run.name;
        assert!(rt; is_so(rt.alloc(), run)?, "{name}");
    }
    Ok(())
}
