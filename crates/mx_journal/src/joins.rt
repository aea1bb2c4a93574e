//! Joining of runs: all records or none.

ghost use Rattle.std.specs.Prelude.{suc, ◌≡◌, ◌+◌, ◌≤◌, ◌<◌, ◌⊎◌, IsTrue, IsFalse, IfOk, IfSome, IfNone, None, OnOk, OnErr, [], ◌++◌, ◌-◌, get_or, length, slice_set};
ghost use Rattle.mx_journal.specs.Agreement.{AreAgreeing, IsSubmap};
ghost use Rattle.mx_journal.specs.Records.{Ascending, BringsNew, IsNumbered, IsThere, above, record_at, with_records};
ghost use Rattle.mx_journal.specs.Runs.{AreJoined, AreNew, AreNumbersOf, AreRuns, CanJoin, IsJoinedUpTo, IsNextOfBoth, TouchesBelow, first_number, flatten, last_number};
ghost use Rattle.mx_journal.specs.Settled.{beyond};

use crate::places::{insert, is_there, next_in, place_of, top_in, touches_below};
use crate::records::Record;
use crate::runs::Run;
use std::alloc::{AllocError, Global};

fn is_known(known: &[Run], from: u64, number: u64) -> bool
    requires { AreRuns 1 known.now }
    ensures known { IsTrue result → (number ≤ from) ⊎ IsThere number (flatten known.now) }
    ensures new { IsFalse result → (from < number)
        × (record_at number (flatten known.now) ≡ None) }
{
    number <= from || is_there(known, number)
}

pub(crate) fn runs_of_new(
    alloc: Global,
    known: &[Run],
    from: u64,
    list: &[Record],
) -> Result<Vec<Run>, AllocError>
    requires known { AreRuns 1 known.now }
    requires numbered { IsNumbered list.now }
    ensures runs { IfOk result (λ runs. AreRuns 1 runs.items) }
    ensures listed { IfOk result (λ runs.
        IsSubmap (flatten runs.items) (beyond from list.now)) }
    ensures new { IfOk result (λ runs. AreNew (flatten runs.items) (flatten known.now)) }
    ensures all { IfOk result (λ runs.
        AreNumbersOf (beyond from list.now) (flatten runs.items) (flatten known.now)) }
    ensures missing { OnErr result (BringsNew (beyond from list.now) (flatten known.now)) }
{
    let mut runs = Vec::new(alloc);
    for entry in list {
        if !is_known(known, from, entry.number) && !is_there(&runs, entry.number) {
            insert(&mut runs, entry.copy())?;
        }
    }
    Ok(runs)
}

pub(crate) fn are_there(runs: &[Run], from: u64, other: &[Run]) -> bool
    requires runs { AreRuns 1 runs.now }
    requires other { AreRuns 1 other.now }
    ensures there { IsTrue result
        → with_records (above from (flatten other.now)) (flatten runs.now) ≡ flatten runs.now }
    ensures missing { IsFalse result
        → BringsNew (above from (flatten other.now)) (flatten runs.now) }
{
    let mut last = from;
    while let Some(entry) = next_in(other, last) {
        if !is_there(runs, entry.number) {
            return false;
        }
        last = entry.number;
    }
    true
}

/// If `other` is a single run above `from` that continues a run here, with a gap to the next, it is
/// appended there; otherwise, unless `other` is empty, the records of both are copied.
pub(crate) fn join_runs(runs: &mut Vec<Run>, from: u64, other: &[Run]) -> Result<u64, AllocError>
    requires { CanJoin from other.now runs.old.items }
    ensures ok { IfOk result (λ k.
        AreJoined from other.now runs.old.items runs.new.items k) }
    ensures err { OnErr result (runs.new.items ≡ runs.old.items) }
{
    if other.is_empty() {
        return Ok(0);
    }
    if other.len() == 1 {
        let more = &other[0];
        let at = place_of(runs, more.first() - 1);
        if more.first() > from && goes_behind(runs, at, more) {
            append_run(runs, at, more)?;
            return Ok(more.len() as u64);
        }
    }
    join_copies(runs, from, other)
}

fn goes_behind(runs: &[Run], at: usize, more: &Run) -> bool
    requires { at ≤ length runs.now }
    ensures touches { IsTrue result → TouchesBelow (first_number more.now) at runs.now }
    ensures apart { IsTrue result → at < length runs.now
        → last_number more.now + 2 ≤ first_number (get_or runs.now at []) }
{
    if !touches_below(runs, at, more.first()) {
        return false;
    }
    if at >= runs.len() {
        return true;
    }
    let next = runs[at].first();
    let last = more.last();
    last < next && next - last > 1
}

fn append_run(runs: &mut Vec<Run>, at: usize, more: &Run) -> Result<(), AllocError>
    requires first { 1 ≤ at }
    requires second { at ≤ length runs.old.items }
    requires some { 1 ≤ length more.now }
    ensures ok { OnOk result (runs.new.items
        ≡ slice_set runs.old.items (at - 1) (get_or runs.old.items (at - 1) [] ++ more.now)) }
    ensures err { OnErr result (runs.new.items ≡ runs.old.items) }
{
    let mut rest = Run::new(*runs.allocator());
    for place in 1..more.len() {
        rest.push_back(more.record(place).copy())?;
    }
    let run = &mut runs[at - 1];
    run.join(more.record(0).copy(), &mut rest)
}

fn join_copies(runs: &mut Vec<Run>, from: u64, other: &[Run]) -> Result<u64, AllocError>
    requires { CanJoin from other.now runs.old.items }
    ensures ok { IfOk result (λ k.
        AreJoined from other.now runs.old.items runs.new.items k) }
    ensures err { OnErr result (runs.new.items ≡ runs.old.items) }
{
    let to = top_in(runs).max(top_in(other)).max(from);
    let alloc = *runs.allocator();
    let (joined, count) = joined_up_to(alloc, runs, other, from, to)?;
    *runs = joined;
    Ok(count)
}

pub(crate) fn joined_up_to(
    alloc: Global,
    runs: &[Run],
    other: &[Run],
    from: u64,
    to: u64,
) -> Result<(Vec<Run>, u64), AllocError>
    requires runs { AreRuns 1 runs.now }
    requires other { AreRuns 1 other.now }
    requires agreeing { AreAgreeing (flatten runs.now) (flatten other.now) }
    requires order { from ≤ to }
    ensures runs { IfOk result (λ p. AreRuns 1 p.0.items) }
    ensures records { IfOk result (λ p. IsJoinedUpTo from to (flatten runs.now) (flatten other.now)
        (flatten p.0.items)) }
    ensures count { IfOk result (λ p. length (flatten p.0.items)
        + length (above to (flatten runs.now))
        ≡ length (above from (flatten runs.now)) + p.1) }
{
    let mut joined = Vec::new(alloc);
    let mut count = 0;
    let mut last = from;
    while let Some(entry) = next_of_both(runs, other, last) {
        if entry.number > to {
            break;
        }
        if !is_there(runs, entry.number) {
            count += 1;
        }
        insert(&mut joined, entry.copy())?;
        last = entry.number;
    }
    Ok((joined, count))
}

fn next_of_both<'a>(runs: &'a [Run], other: &'a [Run], number: u64) -> Option<&'a Record>
    requires runs { AreRuns 1 runs.now }
    requires other { AreRuns 1 other.now }
    ensures some { IfSome result (λ found.
        IsNextOfBoth number (flatten runs.now) (flatten other.now) found.now) }
    ensures none { IfNone result ((above number (flatten runs.now) ≡ [])
        × (above number (flatten other.now) ≡ [])) }
{
    match (next_in(runs, number), next_in(other, number)) {
        (Some(here), Some(there)) => Some(lower(here, there)),
        (Some(here), None) => Some(here),
        (None, Some(there)) => Some(there),
        (None, None) => None,
    }
}

fn lower<'a>(here: &'a Record, there: &'a Record) -> &'a Record
    ensures here { here.now.number ≤ there.now.number → result.now ≡ here.now }
    ensures there { there.now.number < here.now.number → result.now ≡ there.now }
{
    if there.number < here.number {
        there
    } else {
        here
    }
}
