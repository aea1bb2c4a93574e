//! The counts of a cluster after a run: rows, and their text.

ghost use Rattle.std.specs.Prelude.{◌≡◌, ◌++◌, [], IfOk, OnOk, string_bytes, if◌then◌else◌};
ghost use Rattle.mx_format.specs.Parts.{word_by};
ghost use Rattle.mx_count.specs.Counted.{count_rows, counts_text, head_rows, rows_in, rows_text, time_rows};
ghost use Rattle.mx_count.specs.Measures.{measured};
ghost use Rattle.mx_count.specs.Rows.{rows_of, spread_of};

use crate::kinds::Group;
use crate::lines::add_lines;
use crate::measures::{Measure, measured};
use crate::node_rows::{add_node_rows, entries_in};
use crate::objects::add_objects;
use crate::parcel_rows::{add_parcel_rows, count_parcels};
use crate::refusal_rows::add_refusal_rows;
use crate::rows::{Level, Row, Value, add_row, share_of};
use crate::spread::spread_of;
use crate::waits::longest_wait;
use mx_explorer::{add_verdict, judge, verdict_status};
use mx_format::Letter;
use mx_network::Cluster;
use mx_nodelaws::Exclusion;
use mx_plan::Plan;
use std::alloc::{AllocError, Global};

/// Where the events of a run come from.
#[derive(Clone, Copy)]
pub enum EventSource {
    /// A file lists them.
    Given,
    /// They were drawn from a seed.
    Drawn,
}

/// What is printed of the counts of a cluster.
#[derive(Clone, Copy)]
pub struct Options {
    pub source: EventSource,
    pub is_json: bool,
    /// Whether more is printed than the numbers of events, sections and parcels, and the verdict.
    pub has_counts: bool,
}

/// Appends the counts and the verdict, and returns the status.
pub(crate) fn add_counts<C: Exclusion>(
    alloc: Global,
    plan: &Plan,
    cluster: &Cluster<C>,
    events: u64,
    options: Options,
    text: &mut String,
) -> Result<u8, AllocError>
where
    C::Msg: Letter,
    ensures text { OnOk result (string_bytes text.new ≡ string_bytes text.old
        ++ counts_text (word_by C.Msg.parts) C.Msg.words options plan.now events cluster.now) }
    ensures zero { IfOk result (λ status. status ≡ 0) }
{
    let mut rows = Vec::new(alloc);
    add_rows(alloc, plan, cluster, events, options, &mut rows)?;
    add_text(plan, options.is_json, rows.as_slice(), text)?;
    let verdict = judge(cluster.trace());
    add_verdict(options.is_json, verdict, text)?;
    Ok(verdict_status(verdict))
}

fn add_text(
    plan: &Plan,
    is_json: bool,
    rows: &[Row<'_>],
    text: &mut String,
) -> Result<(), AllocError>
    ensures { OnOk result (string_bytes text.new
        ≡ string_bytes text.old ++ rows_text is_json plan.now (rows_of rows.now)) }
{
    if is_json {
        return add_objects(plan, rows, text);
    }
    add_lines(plan, rows, text)
}

fn add_rows<C: Exclusion>(
    alloc: Global,
    plan: &Plan,
    cluster: &Cluster<C>,
    events: u64,
    options: Options,
    rows: &mut Vec<Row<'_>>,
) -> Result<(), AllocError>
where
    C::Msg: Letter,
    ensures { OnOk result (rows_of rows.new.items ≡ rows_of rows.old.items
        ++ rows_in (word_by C.Msg.parts) C.Msg.words options plan.now events cluster.now) }
{
    let entered = entries_in(cluster.trace());
    add_head(options.source, events, entered, cluster.sent(), rows)?;
    add_details(alloc, plan, cluster, options.has_counts, rows)
}

fn add_head(
    source: EventSource,
    events: u64,
    sections: u64,
    parcels: u64,
    rows: &mut Vec<Row<'_>>,
) -> Result<(), AllocError>
    ensures { OnOk result (rows_of rows.new.items
        ≡ rows_of rows.old.items ++ head_rows source events sections parcels) }
{
    match source {
        EventSource::Given => {
            add_row(Level::First, "events", Value::Number(events), rows)?;
            add_row(Level::Total, "sections", Value::Number(sections), rows)?;
            add_row(Level::Total, "parcels", Value::Number(parcels), rows)
        }
        EventSource::Drawn => {
            add_row(Level::First, "explored", Value::Number(events), rows)?;
            add_row(Level::Next, "entered", Value::Number(sections), rows)?;
            add_row(Level::Next, "sent", Value::Number(parcels), rows)
        }
    }
}

fn add_details<C: Exclusion>(
    alloc: Global,
    plan: &Plan,
    cluster: &Cluster<C>,
    has_counts: bool,
    rows: &mut Vec<Row<'_>>,
) -> Result<(), AllocError>
where
    C::Msg: Letter,
    ensures { OnOk result (rows_of rows.new.items ≡ rows_of rows.old.items ++ (if has_counts
        then count_rows (word_by C.Msg.parts) C.Msg.words plan.now cluster.now else [])) }
{
    if has_counts {
        return add_count_rows(alloc, plan, cluster, rows);
    }
    Ok(())
}

fn add_count_rows<C: Exclusion>(
    alloc: Global,
    plan: &Plan,
    cluster: &Cluster<C>,
    rows: &mut Vec<Row<'_>>,
) -> Result<(), AllocError>
where
    C::Msg: Letter,
    ensures { OnOk result (rows_of rows.new.items ≡ rows_of rows.old.items
        ++ count_rows (word_by C.Msg.parts) C.Msg.words plan.now cluster.now) }
{
    let letters = count_parcels(cluster, &Group::Letters);
    let share = share_of(letters, entries_in(cluster.trace()));
    add_parcel_rows(cluster, rows)?;
    add_row(Level::Total, "letters for each section", share, rows)?;
    add_refusal_rows(cluster.trace(), rows)?;
    add_time_rows(alloc, cluster, rows)?;
    add_node_rows(plan, cluster, rows)
}

fn add_time_rows<C: Exclusion>(
    alloc: Global,
    cluster: &Cluster<C>,
    rows: &mut Vec<Row<'_>>,
) -> Result<(), AllocError>
    ensures { OnOk result (rows_of rows.new.items
        ≡ rows_of rows.old.items ++ time_rows cluster.now.sent cluster.now.trace) }
{
    let wait = Value::Number(longest_wait(cluster.trace()));
    let response = time_in(alloc, cluster, Measure::Response)?;
    let delay = time_in(alloc, cluster, Measure::Delay)?;
    add_row(Level::Total, "longest wait", wait, rows)?;
    add_row(Level::Total, "response time", response, rows)?;
    add_row(Level::Total, "synchronization delay", delay, rows)
}

fn time_in<C: Exclusion>(
    alloc: Global,
    cluster: &Cluster<C>,
    measure: Measure,
) -> Result<Value, AllocError>
    ensures { IfOk result (λ value. value
        ≡ spread_of (measured measure cluster.now.sent cluster.now.trace)) }
{
    let numbers = measured(alloc, cluster, measure, cluster.trace())?;
    Ok(spread_of(numbers.as_slice()))
}
