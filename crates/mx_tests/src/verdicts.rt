//! Verdicts of short traces, and of a run with one item edited.

use crate::given::node;
use crate::runs::{READ_WAITS, started};
use mx_explorer::{Clause, Verdict, judge};
use mx_journal::{Draft, Receipt};
use mx_network::{Boxed, Cluster, Entry, Event, Outcome};
use mx_plan::{Plan, Shape, read_events, read_plan};
use mx_ricart::Ricart;
use std::alloc::{AllocError, Global};
use std::test::Fail;

/// An item of a trace: the node, and the number of its section or the value that it read from
/// register 0.
#[derive(Clone, Copy)]
enum Did {
    Entered(u8, u64),
    Value(u8, u64),
    Left(u8, u64),
}

use Did::{Entered, Left, Value};

fn item(alloc: Global, did: Did) -> Result<Entry, AllocError> {
    let (event, outcome) = match did {
        Entered(index, number) => (Event::Enter(node(index % 21)), Outcome::Entered(number)),
        Value(index, value) => (Event::Read(node(index % 21), 0), Outcome::Value(value)),
        Left(index, number) => {
            let receipt = Draft::new().close(number, node(index % 21));
            let left = Outcome::Left(Boxed::new(alloc, receipt)?);
            (Event::Leave(node(index % 21)), left)
        }
    };
    Ok(Entry { event, outcome })
}

fn trace(alloc: Global, items: &[Did]) -> Result<Vec<Entry>, AllocError> {
    let mut trace = Vec::new(alloc);
    for did in items {
        trace.push(item(alloc, *did)?)?;
    }
    Ok(trace)
}

const SHORT: [(&[Did], Verdict); 4] = [
    (&[], Verdict::Sound),
    (
        &[Entered(0, 1), Entered(1, 2)],
        Verdict::Broken(1, Clause::Overlap),
    ),
    (&[Entered(0, 2)], Verdict::Broken(0, Clause::Number)),
    (
        &[Entered(0, 1), Value(0, 7)],
        Verdict::Broken(1, Clause::Read),
    ),
];

#[test]
fn verdicts_on_short_traces(rt: HostRuntime) -> Result<(), Fail> {
    for (items, verdict) in &SHORT {
        assert_eq!(rt; judge(trace(rt.alloc(), *items)?.as_slice()), *verdict);
    }
    Ok(())
}

/// The item that is edited, what it becomes (or nothing), and the verdict of the trace then.
const EDITS: [(usize, Option<Did>, Verdict); 6] = [
    (5, None, Verdict::Broken(8, Clause::Overlap)),
    (9, Some(Entered(1, 3)), Verdict::Broken(9, Clause::Number)),
    (11, Some(Left(1, 1)), Verdict::Broken(11, Clause::Overlap)),
    (10, None, Verdict::Broken(25, Clause::Read)),
    (26, Some(Value(0, 10)), Verdict::Broken(26, Clause::Read)),
    (28, Some(Value(0, 20)), Verdict::Broken(28, Clause::Read)),
];

fn edited(
    alloc: Global,
    trace: &[Entry],
    place: usize,
    edit: Option<Did>,
) -> Result<Vec<Entry>, AllocError> {
    let mut list = Vec::new(alloc);
    for (index, entry) in trace.iter().enumerate() {
        match edit {
            None if index == place => {}
            Some(other) if index == place => list.push(item(alloc, other)?)?,
            _ => list.push(copied(alloc, entry)?)?,
        }
    }
    Ok(list)
}

fn copied(alloc: Global, entry: &Entry) -> Result<Entry, AllocError> {
    let room = Boxed::new(alloc, Receipt::default())?;
    Ok(Entry {
        event: entry.event,
        outcome: entry.outcome.copy_into(Some(room)),
    })
}

fn are_found(alloc: Global, trace: &[Entry]) -> Result<bool, AllocError> {
    for (place, edit, verdict) in &EDITS {
        if judge(edited(alloc, trace, *place, *edit)?.as_slice()) != *verdict {
            return Ok(false);
        }
    }
    Ok(true)
}

fn after(alloc: Global, plan: &Plan, events: &[Event]) -> Result<Cluster<Ricart>, Fail> {
    let Shape::Ricart(shape) = plan.shape() else {
        return Err("another algorithm")?;
    };
    let mut cluster = started(alloc, shape, plan)?;
    cluster.run(events)?;
    Ok(cluster)
}

fn after_read_waits(alloc: Global, plan: &Plan) -> Result<Cluster<Ricart>, Fail> {
    let events = read_events(alloc, READ_WAITS.events.as_bytes(), plan)?;
    after(alloc, plan, &events)
}

/// Returns the cluster after four sections of two nodes: 30 items. The last section reads the value
/// that the second wrote, before and after a write to the register.
fn four_sections(alloc: Global) -> Result<Cluster<Ricart>, Fail> {
    let plan = read_plan(alloc, READ_WAITS.plan.as_bytes())?;
    after_read_waits(alloc, &plan)
}

#[test]
fn edited_trace_is_broken(rt: HostRuntime) -> Result<(), Fail> {
    let cluster = four_sections(rt.alloc())?;
    assert_eq!(rt; judge(cluster.trace()), Verdict::Sound);
    assert!(rt; are_found(rt.alloc(), cluster.trace())?);
    Ok(())
}
