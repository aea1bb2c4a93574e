//! Whether a run stands still, and which nodes wait then.

ghost use Rattle.std.specs.Prelude.{◌≡◌, [], ◌∷◌, ◌++◌, IfOk, OnOk, length, not};
ghost use Rattle.std.specs.List.{list_any};
ghost use Rattle.mx_stamps.specs.Lists.{each_below};
ghost use Rattle.mx_nodelaws.specs.Phases.{is_waiting};
ghost use Rattle.mx_format.specs.StuckTexts.{waiter};
ghost use Rattle.mx_driver.specs.Standstill.{delivered_by, has_undelivered, is_delivered, is_ready, marked, stuck_in, stuck_nodes, waiter_at, waiters_from};

use crate::closing::node_at;
use mx_format::Waiter;
use mx_knowledge::Knowledge;
use mx_member::Member;
use mx_network::{Cluster, Entry, Event};
use mx_nodelaws::{Exclusion, Phase};
use mx_plan::Plan;
use mx_stamps::NodeId;
use std::alloc::{AllocError, Global};

/// Returns the nodes that wait in a replay that stands still, in the order of nodes; none, if it
/// does not stand still. A parcel is under way if it was never delivered.
///
/// # Errors
///
/// Returns `AllocError` if memory runs out.
pub fn stuck_in<C: Exclusion + Knowledge>(
    alloc: Global,
    plan: &Plan,
    cluster: &Cluster<C>,
) -> Result<Vec<Waiter>, AllocError>
    requires { length cluster.now.members ≡ length plan.now.nodes }
    ensures { IfOk result (λ waiters. waiters.items ≡ stuck_in C.core C.knows cluster.now) }
{
    if has_undelivered(alloc, cluster)? {
        return Ok(Vec::new(alloc));
    }
    stuck_nodes(alloc, plan, cluster.members())
}

/// Returns the nodes that wait, in the order of nodes, if no node is inside or may enter; none
/// otherwise. If nothing is under way, the run stands still exactly if there are any.
///
/// # Errors
///
/// Returns `AllocError` if memory runs out.
pub fn stuck_nodes<C: Exclusion + Knowledge>(
    alloc: Global,
    plan: &Plan,
    members: &[Member<C>],
) -> Result<Vec<Waiter>, AllocError>
    requires { length members.now ≡ length plan.now.nodes }
    ensures { IfOk result (λ waiters. waiters.items ≡ stuck_nodes C.core C.knows members.now) }
{
    if is_any_ready(members) {
        return Ok(Vec::new(alloc));
    }
    waiters(alloc, plan, members)
}

fn is_any_ready<C: Exclusion>(members: &[Member<C>]) -> bool
    ensures { result ≡ list_any (is_ready C.core) members.now }
{
    members.iter().any(
        |member: &Member<C>| -> bool
            ensures { result ≡ is_ready C.core member.now }
        { is_ready(member) },
    )
}

/// Returns whether a node is inside, or waits and may enter.
pub fn is_ready<C: Exclusion>(member: &Member<C>) -> bool
    ensures { result ≡ is_ready C.core member.now }
{
    member.can_enter() || matches!(member.phase(), Phase::Inside(_))
}

fn waiters<C: Exclusion + Knowledge>(
    alloc: Global,
    plan: &Plan,
    members: &[Member<C>],
) -> Result<Vec<Waiter>, AllocError>
    requires { length members.now ≡ length plan.now.nodes }
    ensures { IfOk result (λ waiters. waiters.items ≡ waiters_from C.core C.knows 0 members.now) }
{
    let mut waiters = Vec::new(alloc);
    for (index, member) in members.iter().enumerate() {
        add_waiter(alloc, node_at(plan, index), member, &mut waiters)?;
    }
    Ok(waiters)
}

fn add_waiter<C: Exclusion + Knowledge>(
    alloc: Global,
    node: NodeId,
    member: &Member<C>,
    waiters: &mut Vec<Waiter>,
) -> Result<(), AllocError>
    ensures { OnOk result (waiters.new.items
        ≡ waiters.old.items ++ waiter_at C.core C.knows node member.now) }
{
    if !is_waiting(member.phase()) {
        return Ok(());
    }
    push_waiter(alloc, node, member, waiters)
}

fn is_waiting(phase: Phase) -> bool
    ensures { result ≡ is_waiting phase }
{
    matches!(phase, Phase::Waiting)
}

fn push_waiter<C: Exclusion + Knowledge>(
    alloc: Global,
    node: NodeId,
    member: &Member<C>,
    waiters: &mut Vec<Waiter>,
) -> Result<(), AllocError>
    ensures { OnOk result (waiters.new.items
        ≡ waiters.old.items ++ waiter node (C.knows member.now.core) ∷ []) }
{
    let facts = member.core().facts(alloc)?;
    let waiter = Waiter::new(alloc, node, &facts)?;
    waiters.push(waiter)?;
    Ok(())
}

/// Whether some parcel was sent and never delivered.
fn has_undelivered<C: Exclusion>(alloc: Global, cluster: &Cluster<C>) -> Result<bool, AllocError>
    ensures { IfOk result (λ has. has ≡ has_undelivered cluster.now) }
{
    let marks = delivered(alloc, cluster.trace(), cluster.sent())?;
    Ok(is_any_missing(marks.as_slice()))
}

fn is_any_missing(marks: &[bool]) -> bool
    ensures { result ≡ list_any not marks.now }
{
    marks.iter().any(|mark| !*mark)
}

/// Returns a mark for each of `sent` parcels: whether it was delivered.
fn delivered(alloc: Global, trace: &[Entry], sent: u64) -> Result<Vec<bool>, AllocError>
    ensures { IfOk result (λ marks.
        marks.items ≡ each_below (is_delivered trace.now) sent) }
{
    let mut marks = Vec::from_elem(alloc, false, sent as usize)?;
    for entry in trace {
        mark(delivered_by(&entry.event), &mut marks);
    }
    Ok(marks)
}

fn delivered_by(event: &Event) -> Option<u64>
    ensures { result ≡ delivered_by event.now }
{
    match event {
        Event::Deliver(number) => Some(*number),
        _ => None,
    }
}

fn mark(number: Option<u64>, marks: &mut Vec<bool>)
    ensures { marks.new.items ≡ marked number marks.old.items }
{
    if let Some(number) = number {
        let place = number as usize;
        if place < marks.len() {
            marks[place] = true;
        }
    }
}
