//! How long requests take, in letters: response times and synchronization delays.

ghost use Rattle.std.specs.Prelude.{◌≡◌, ◌<◌, ◌≤◌, ◌++◌, ◌+◌, IfOk, IfSome, OnOk, length, position, slice_get, take};
ghost use Rattle.std.specs.Option.{option_map_or};
ghost use Rattle.mx_trace.specs.Trace.{is_entry};
ghost use Rattle.mx_count.specs.Waits.{ends_wait};
ghost use Rattle.mx_count.specs.Measures.{delay_end, delay_from, delivers_letter, end_from, is_letter, letters_in, letters_until, measured, response_end, response_from};

use crate::kinds::is_between;
use crate::node_rows::is_entry_of;
use crate::waits::end_in;
use mx_network::{Cluster, Entry, Event, Outcome};
use mx_nodelaws::Exclusion;
use mx_stamps::NodeId;
use std::alloc::{AllocError, Global};

/// A time that is measured by the letters delivered in it.
#[derive(Clone, Copy)]
pub(crate) enum Measure {
    /// From an ask to the enter of the same node.
    Response,
    /// From a leave to the next enter, if that is another node's.
    Delay,
}

pub(crate) fn measured<C: Exclusion>(
    alloc: Global,
    cluster: &Cluster<C>,
    measure: Measure,
    trace: &[Entry],
) -> Result<Vec<u64>, AllocError>
    ensures { IfOk result (λ numbers. numbers.items
        ≡ measured measure cluster.now.sent trace.now) }
{
    let mut numbers = Vec::new(alloc);
    for (index, entry) in trace.iter().enumerate() {
        add_measured(cluster, measure, entry, &trace[index + 1..], &mut numbers)?;
    }
    Ok(numbers)
}

fn add_measured<C: Exclusion>(
    cluster: &Cluster<C>,
    measure: Measure,
    entry: &Entry,
    rest: &[Entry],
    numbers: &mut Vec<u64>,
) -> Result<(), AllocError>
    ensures { OnOk result (numbers.new.items ≡ numbers.old.items
        ++ letters_until cluster.now.sent rest.now (end_from measure entry.now rest.now)) }
{
    let Some(end) = end_from(measure, entry, rest) else {
        return Ok(());
    };
    numbers.push(letters_in(cluster, &rest[..end]))?;
    Ok(())
}

fn letters_in<C: Exclusion>(cluster: &Cluster<C>, entries: &[Entry]) -> u64
    ensures { result ≡ letters_in cluster.now.sent entries.now }
{
    let mut count = 0;
    for entry in entries {
        count += u64::from(delivers_letter(cluster, &entry.event));
    }
    count
}

fn delivers_letter<C: Exclusion>(cluster: &Cluster<C>, event: &Event) -> bool
    ensures { result ≡ delivers_letter cluster.now.sent event.now }
{
    match event {
        Event::Deliver(number) => is_letter(cluster, *number),
        _ => false,
    }
}

fn is_letter<C: Exclusion>(cluster: &Cluster<C>, number: u64) -> bool
    ensures { result ≡ is_letter (slice_get cluster.now.sent number) }
{
    match cluster.sent_parcel(number) {
        Some(sent) => is_between(&sent),
        None => false,
    }
}

fn end_from(measure: Measure, entry: &Entry, rest: &[Entry]) -> Option<usize>
    ensures value { result ≡ end_from measure entry.now rest.now }
    ensures within { IfSome result (λ end. end < length rest.now) }
{
    match measure {
        Measure::Response => response_from(&entry.outcome, rest),
        Measure::Delay => delay_from(&entry.event, &entry.outcome, rest),
    }
}

fn response_from(outcome: &Outcome, rest: &[Entry]) -> Option<usize>
    ensures value { result ≡ response_from outcome.now rest.now }
    ensures within { IfSome result (λ end. end < length rest.now) }
{
    match outcome {
        Outcome::Asked(stamp) => response_end(stamp.node, rest),
        _ => None,
    }
}

fn delay_from(event: &Event, outcome: &Outcome, rest: &[Entry]) -> Option<usize>
    ensures value { result ≡ delay_from event.now outcome.now rest.now }
    ensures within { IfSome result (λ end. end < length rest.now) }
{
    match (event, outcome) {
        (Event::Leave(node), Outcome::Left(_)) => delay_end(*node, rest),
        _ => None,
    }
}

fn response_end(node: NodeId, rest: &[Entry]) -> Option<usize>
    ensures value { result ≡ response_end node rest.now }
    ensures within { IfSome result (λ end. end < length rest.now) }
{
    let Some(end) = end_in(node, rest) else {
        return None;
    };
    if rest[end].is_entry() {
        Some(end)
    } else {
        None
    }
}

fn delay_end(node: NodeId, rest: &[Entry]) -> Option<usize>
    ensures value { result ≡ delay_end node rest.now }
    ensures within { IfSome result (λ end. end < length rest.now) }
{
    let Some(end) = next_entry(rest) else {
        return None;
    };
    if is_entry_of(node, &rest[end]) {
        None
    } else {
        Some(end)
    }
}

fn next_entry(rest: &[Entry]) -> Option<usize>
    ensures value { result ≡ position is_entry rest.now }
    ensures within { IfSome result (λ index. index < length rest.now) }
{
    rest.iter().position(|entry| entry.is_entry())
}
