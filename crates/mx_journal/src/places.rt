//! Where section numbers lie in a journal's runs. A *place* is the index of a run.

ghost use Rattle.std.specs.Prelude.{◌≡◌, ◌≢◌, [], ◌∷◌, ◌++◌, ◌+◌, ◌-◌, ◌<◌, ◌≤◌, ◌↔◌, IsTrue, IsFalse, Some, None, MatchOption, OnOk, OnErr, length, get_or, take};
ghost use Rattle.mx_journal.specs.Gapless.{first_missing};
ghost use Rattle.mx_journal.specs.Records.{IsThere, above, in_range, record_at, top_of};
ghost use Rattle.mx_journal.specs.Runs.{AreConsecutive, AreRuns, IsPut, TouchesAbove, TouchesBelow, first_number, flatten, last_number, runs_up_to, with_joined};

use crate::ranges::Range;
use crate::records::Record;
use crate::runs::Run;
use arrayvec::ArrayVec;
use std::alloc::AllocError;
use std::mem;

/// The place of the first run that ends above `number`, if there is one, by a binary search.
pub(crate) fn place_of(runs: &[Run], number: u64) -> usize
    requires { AreRuns 1 runs.now }
    ensures value { result ≡ runs_up_to number runs.now }
    ensures bound { result ≤ length runs.now }
{
    let mut low = 0;
    let mut high = runs.len();
    while low < high {
        let middle = low + (high - low) / 2;
        let run = &runs[middle];
        if run.last() <= number {
            low = middle + 1;
        } else {
            high = middle;
        }
    }
    low
}

pub(crate) fn next_in(runs: &[Run], number: u64) -> Option<&Record>
    requires { AreRuns 1 runs.now }
    ensures { MatchOption result (above number (flatten runs.now) ≡ [])
        (λ found. above number (flatten runs.now)
        ≡ found.now ∷ above found.now.number (flatten runs.now)) }
{
    let at = place_of(runs, number);
    if at >= runs.len() {
        return None;
    }
    Some(next_in_run(&runs[at], number))
}

fn next_in_run(run: &Run, number: u64) -> &Record
    requires consecutive { AreConsecutive (first_number run.now) run.now }
    requires least { 1 ≤ first_number run.now }
    requires behind { number < last_number run.now }
    ensures { above number run.now ≡ result.now ∷ above result.now.number run.now }
{
    let first = run.first();
    if number < first {
        run.record(0)
    } else {
        run.record((number - first) as usize + 1)
    }
}

pub(crate) fn find(runs: &[Run], number: u64) -> Option<&Record>
    requires { AreRuns 1 runs.now }
    ensures { MatchOption result (record_at number (flatten runs.now) ≡ None)
        (λ found. record_at number (flatten runs.now) ≡ Some found.now) }
{
    if number == 0 {
        return None;
    }
    match next_in(runs, number - 1) {
        Some(found) if found.number == number => Some(found),
        _ => None,
    }
}

pub(crate) fn is_there(runs: &[Run], number: u64) -> bool
    requires { AreRuns 1 runs.now }
    ensures there { IsTrue result → IsThere number (flatten runs.now) }
    ensures missing { IsFalse result → record_at number (flatten runs.now) ≡ None }
{
    match find(runs, number) {
        Some(_) => true,
        None => false,
    }
}

pub(crate) fn len_of(runs: &[Run]) -> usize
    requires { AreRuns 1 runs.now }
    ensures { result ≡ length (flatten runs.now) }
{
    let mut len = 0;
    for run in runs {
        len += (run.last() - run.first()) as usize + 1;
    }
    len
}

pub(crate) fn top_in(runs: &[Run]) -> u64
    requires { AreRuns 1 runs.now }
    ensures { result ≡ top_of (flatten runs.now) }
{
    match runs.last() {
        Some(run) => run.last(),
        None => 0,
    }
}

/// Takes one binary search.
pub(crate) fn gapless_in(runs: &[Run], number: u64) -> u64
    requires { AreRuns 1 runs.now }
    ensures { result + 1 ≡ first_missing (number + 1) (above number (flatten runs.now)) }
{
    let at = place_of(runs, number);
    if at >= runs.len() {
        return number;
    }
    let run = &runs[at];
    let first = run.first();
    if number < first && first - number > 1 {
        number
    } else {
        run.last()
    }
}

pub(crate) fn least_in(runs: &[Run], range: Range) -> ArrayVec<Record, 4>
    requires { AreRuns 1 runs.now }
    ensures { result.items ≡ take 4 (in_range range (flatten runs.now)) }
{
    let mut found = ArrayVec::new();
    let mut last = range.first.saturating_sub(1);
    while let Some(entry) = next_in(runs, last) {
        if entry.number > range.last || found.is_full() {
            return found;
        }
        last = entry.number;
        found.push(entry.copy());
    }
    found
}

pub(crate) fn insert(runs: &mut Vec<Run>, entry: Record) -> Result<(), AllocError>
    requires runs { AreRuns 1 runs.old.items }
    requires numbered { 1 ≤ entry.number }
    requires fresh { record_at entry.number (flatten runs.old.items) ≡ None }
    ensures ok { OnOk result (IsPut entry runs.old.items runs.new.items) }
    ensures err { OnErr result (runs.new.items ≡ runs.old.items) }
{
    let at = place_of(runs, entry.number);
    let below = touches_below(runs, at, entry.number);
    let above = touches_above(runs, at, entry.number);
    if below {
        if above {
            return insert_between(runs, at, entry);
        }
        let run = &mut runs[at - 1];
        return run.push_back(entry);
    }
    if above {
        let run = &mut runs[at];
        return run.push_front(entry);
    }
    let mut run = Run::new(*runs.allocator());
    run.push_back(entry)?;
    runs.insert(at, run)?;
    Ok(())
}

pub(crate) fn touches_below(runs: &[Run], at: usize, number: u64) -> bool
    requires { at ≤ length runs.now }
    ensures { IsTrue result ↔ TouchesBelow number at runs.now }
{
    if at == 0 {
        return false;
    }
    let last = runs[at - 1].last();
    last < number && number - last == 1
}

fn touches_above(runs: &[Run], at: usize, number: u64) -> bool
    ensures { IsTrue result ↔ TouchesAbove number at runs.now }
{
    if at >= runs.len() {
        return false;
    }
    let first = runs[at].first();
    number < first && first - number == 1
}

fn insert_between(runs: &mut Vec<Run>, at: usize, entry: Record) -> Result<(), AllocError>
    requires first { 1 ≤ at }
    requires second { at < length runs.old.items }
    ensures ok { OnOk result (runs.new.items
        ≡ with_joined at (get_or runs.old.items (at - 1) [] ++ entry ∷ get_or runs.old.items at [])
        runs.old.items) }
    ensures err { OnErr result (runs.new.items ≡ runs.old.items) }
{
    let empty = Run::new(*runs.allocator());
    let mut next = mem::replace(&mut runs[at], empty);
    let run = &mut runs[at - 1];
    let joined = run.join(entry, &mut next);
    if joined.is_err() {
        runs[at] = next;
        return joined;
    }
    let _ = runs.remove(at);
    Ok(())
}
