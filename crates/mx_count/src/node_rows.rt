//! The rows of each node.

ghost use Rattle.std.specs.Prelude.{◌≡◌, ◌++◌, OnOk, length, slice_get};
ghost use Rattle.std.specs.List.{count_by};
ghost use Rattle.mx_trace.specs.Trace.{is_entry};
ghost use Rattle.mx_count.specs.NodeCounts.{is_addressee, is_delivered_to, is_entry_of, is_node, is_refusal_of, node_rows, rows_of_node};
ghost use Rattle.mx_count.specs.Rows.{rows_of};

use crate::kinds::Group;
use crate::parcel_rows::count_parcels;
use crate::rows::{Level, Row, Value, add_row};
use crate::waits::is_refusal;
use mx_format::Letter;
use mx_network::{Cluster, Entry, Event};
use mx_nodelaws::Exclusion;
use mx_plan::Plan;
use mx_stamps::NodeId;
use std::alloc::AllocError;

/// Adds the rows of all nodes, in the order of the plan.
pub(crate) fn add_node_rows<C: Exclusion>(
    plan: &Plan,
    cluster: &Cluster<C>,
    rows: &mut Vec<Row<'_>>,
) -> Result<(), AllocError>
where
    C::Msg: Letter,
    ensures { OnOk result (rows_of rows.new.items ≡ rows_of rows.old.items
        ++ node_rows cluster.now (length plan.now.nodes)) }
{
    for node in plan.node_ids() {
        add_rows_of(cluster, node, rows)?;
    }
    Ok(())
}

fn add_rows_of<C: Exclusion>(
    cluster: &Cluster<C>,
    node: NodeId,
    rows: &mut Vec<Row<'_>>,
) -> Result<(), AllocError>
where
    C::Msg: Letter,
    ensures { OnOk result (rows_of rows.new.items
        ≡ rows_of rows.old.items ++ rows_of_node cluster.now node) }
{
    let trace = cluster.trace();
    let entered = Value::Number(entries_of(trace, node));
    let sent = Value::Number(count_parcels(cluster, &Group::SentBy(node)));
    let received = Value::Number(received_of(cluster, trace, node));
    let refused = Value::Number(refused_of(trace, node));
    add_row(Level::Node(node), "sections", entered, rows)?;
    add_row(Level::Next, "sent", sent, rows)?;
    add_row(Level::Next, "received", received, rows)?;
    add_row(Level::Next, "refused", refused, rows)
}

/// Returns how often a node entered a section in a trace.
pub(crate) fn entries_in(trace: &[Entry]) -> u64
    ensures { result ≡ count_by is_entry trace.now }
{
    trace.iter().filter(|entry| entry.is_entry()).count() as u64
}

fn entries_of(trace: &[Entry], node: NodeId) -> u64
    ensures { result ≡ count_by (is_entry_of node) trace.now }
{
    trace
        .iter()
        .filter(|entry| is_entry_of(node, entry))
        .count() as u64
}

fn received_of<C: Exclusion>(cluster: &Cluster<C>, trace: &[Entry], node: NodeId) -> u64
    ensures { result
        ≡ count_by (λ entry. is_delivered_to node cluster.now.sent entry.event) trace.now }
{
    let mut count = 0;
    for entry in trace {
        count += u64::from(is_delivered_to(cluster, node, &entry.event));
    }
    count
}

fn refused_of(trace: &[Entry], node: NodeId) -> u64
    ensures { result ≡ count_by (is_refusal_of node) trace.now }
{
    trace
        .iter()
        .filter(|entry| is_refusal_of(node, entry))
        .count() as u64
}

pub(crate) fn is_entry_of(node: NodeId, entry: &Entry) -> bool
    ensures { result ≡ is_entry_of node entry.now }
{
    is_node(node, entry.event.node()) && entry.is_entry()
}

fn is_refusal_of(node: NodeId, entry: &Entry) -> bool
    ensures { result ≡ is_refusal_of node entry.now }
{
    is_node(node, entry.event.node()) && is_refusal(&entry.outcome)
}

fn is_node(node: NodeId, owner: Option<NodeId>) -> bool
    ensures { result ≡ is_node node owner }
{
    match owner {
        Some(other) => other.get() == node.get(),
        None => false,
    }
}

fn is_delivered_to<C: Exclusion>(cluster: &Cluster<C>, node: NodeId, event: &Event) -> bool
    ensures { result ≡ is_delivered_to node cluster.now.sent event.now }
{
    match event {
        Event::Deliver(number) => is_addressee(cluster, node, *number),
        _ => false,
    }
}

fn is_addressee<C: Exclusion>(cluster: &Cluster<C>, node: NodeId, number: u64) -> bool
    ensures { result ≡ is_addressee node (slice_get cluster.now.sent number) }
{
    match cluster.sent_parcel(number) {
        Some(sent) => sent.to.get() == node.get(),
        None => false,
    }
}
