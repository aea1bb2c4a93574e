//! The rows of refused events, by cause.

ghost use Rattle.std.specs.Prelude.{◌≡◌, ◌++◌, OnOk, map};
ghost use Rattle.std.specs.List.{count_by};
ghost use Rattle.mx_count.specs.Counted.{cause_row, refusal_rows};
ghost use Rattle.mx_count.specs.Kinds.{is_refused_for};
ghost use Rattle.mx_count.specs.Rows.{rows_of};
ghost use Rattle.mx_count.specs.Waits.{is_refusal};

use crate::kinds::is_refused_for;
use crate::rows::{Level, Row, Value, add_row};
use crate::waits::is_refusal;
use mx_trace::{CAUSES, Cause, Entry};
use std::alloc::AllocError;

/// Adds the rows of all refusals, and of those for each cause.
pub(crate) fn add_refusal_rows(trace: &[Entry], rows: &mut Vec<Row<'_>>) -> Result<(), AllocError>
    ensures { OnOk result (rows_of rows.new.items
        ≡ rows_of rows.old.items ++ refusal_rows trace.now) }
{
    add_row(
        Level::Total,
        "refused",
        Value::Number(refusals_in(trace)),
        rows,
    )?;
    add_causes(trace, &CAUSES, rows)
}

fn add_causes(trace: &[Entry], causes: &[Cause], rows: &mut Vec<Row<'_>>) -> Result<(), AllocError>
    ensures { OnOk result (rows_of rows.new.items
        ≡ rows_of rows.old.items ++ map (cause_row trace.now) causes.now) }
{
    for cause in causes {
        let count = refusals_for(cause, trace);
        add_row(Level::Part, cause.words(), Value::Number(count), rows)?;
    }
    Ok(())
}

fn refusals_in(trace: &[Entry]) -> u64
    ensures { result ≡ count_by (λ entry. is_refusal entry.outcome) trace.now }
{
    trace
        .iter()
        .filter(|entry| is_refusal(&entry.outcome))
        .count() as u64
}

fn refusals_for(cause: &Cause, trace: &[Entry]) -> u64
    ensures { result ≡ count_by (λ entry. is_refused_for cause.now entry.outcome) trace.now }
{
    trace
        .iter()
        .filter(|entry| is_refused_for(cause, *entry))
        .count() as u64
}
