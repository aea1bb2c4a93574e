//! Insertion of new runs (records of consecutive numbers) among the runs of a journal: all or none.

ghost use Rattle.std.specs.Prelude.{◌≡◌, ◌+◌, ◌-◌, ◌↔◌, ◌≤◌, IsTrue, IfOk, OnOk, OnErr, [], ◌++◌, drop, get_or, length, slice_set, take, vec_capacity, vec_len};
ghost use Rattle.mx_journal.specs.Records.{with_records};
ghost use Rattle.mx_journal.specs.Runs.{AreNew, AreRuns, TouchesBelow, first_number, flatten, sewn};

use crate::joins::joined_up_to;
use crate::places::{len_of, place_of, top_in, touches_below};
use crate::runs::Run;
use std::alloc::AllocError;

/// Copies the records between the least and the greatest new number; the others stay in place.
pub(crate) fn put_runs(runs: &mut Vec<Run>, new: &[Run]) -> Result<u64, AllocError>
    requires runs { AreRuns 1 runs.old.items }
    requires new { AreRuns 1 new.now }
    requires fresh { AreNew (flatten new.now) (flatten runs.old.items) }
    ensures records { OnOk result (flatten runs.new.items
        ≡ with_records (flatten new.now) (flatten runs.old.items)) }
    ensures runs { OnOk result (AreRuns 1 runs.new.items) }
    ensures count { IfOk result (λ k. length (flatten runs.new.items)
        ≡ length (flatten runs.old.items) + k) }
    ensures err { OnErr result (runs.new.items ≡ runs.old.items) }
    ensures some { OnErr result (1 ≤ length new.now) }
{
    if new.is_empty() {
        return Ok(0);
    }
    let first = new[0].first();
    let last = top_in(new);
    let from = place_of(runs, first);
    let to = place_of(runs, last);
    let alloc = *runs.allocator();
    let (mut middle, _) = joined_up_to(alloc, runs, new, first - 1, last)?;
    renew(runs, from, to, &mut middle)?;
    Ok(len_of(new) as u64)
}

fn renew(
    runs: &mut Vec<Run>,
    from: usize,
    to: usize,
    middle: &mut Vec<Run>,
) -> Result<(), AllocError>
    requires order { from ≤ to }
    requires bound { to ≤ length runs.old.items }
    ensures ok { OnOk result (runs.new.items
        ≡ sewn (sewn (take from runs.old.items) middle.old.items) (drop to runs.old.items)) }
    ensures err { OnErr result (runs.new.items ≡ runs.old.items) }
{
    let mut behind = runs.split_off(to)?;
    let done = renew_end(runs, from, middle, &mut behind);
    if done.is_err() {
        add_all(runs, &mut behind);
    }
    done
}

fn renew_end(
    runs: &mut Vec<Run>,
    from: usize,
    middle: &mut Vec<Run>,
    behind: &mut Vec<Run>,
) -> Result<(), AllocError>
    requires { from ≤ length runs.old.items }
    ensures ok { OnOk result (runs.new.items
        ≡ sewn (sewn (take from runs.old.items) middle.old.items) behind.old.items) }
    ensures err { OnErr result (runs.new.items ≡ runs.old.items) }
    ensures behind { OnErr result (behind.new.items ≡ behind.old.items) }
    ensures capacity { vec_capacity runs.old ≤ vec_capacity runs.new }
{
    let mut between = runs.split_off(from)?;
    let done = splice_both(runs, middle, behind);
    if done.is_err() {
        add_all(runs, &mut between);
    }
    done
}

fn splice_both(
    runs: &mut Vec<Run>,
    middle: &mut Vec<Run>,
    behind: &mut Vec<Run>,
) -> Result<(), AllocError>
    ensures ok { OnOk result (runs.new.items
        ≡ sewn (sewn runs.old.items middle.old.items) behind.old.items) }
    ensures err { OnErr result (runs.new.items ≡ runs.old.items) }
    ensures behind { OnErr result (behind.new.items ≡ behind.old.items) }
    ensures capacity { vec_capacity runs.old ≤ vec_capacity runs.new }
{
    let count = runs.len();
    let len = last_len(runs);
    splice(runs, middle)?;
    match splice(runs, behind) {
        Ok(()) => Ok(()),
        Err(refused) => {
            cut(runs, count, len);
            Err(refused)
        }
    }
}

fn last_len(runs: &[Run]) -> usize
    ensures { result ≡ length (get_or runs.now (length runs.now - 1) []) }
{
    if runs.is_empty() {
        return 0;
    }
    runs[runs.len() - 1].len()
}

fn splice(runs: &mut Vec<Run>, others: &mut Vec<Run>) -> Result<(), AllocError>
    ensures ok { OnOk result (runs.new.items ≡ sewn runs.old.items others.old.items) }
    ensures err { OnErr result (runs.new.items ≡ runs.old.items) }
    ensures others { OnErr result (others.new.items ≡ others.old.items) }
    ensures capacity { vec_capacity runs.old ≤ vec_capacity runs.new }
{
    runs.reserve(others.len())?;
    if continues(runs, others) {
        splice_first(runs, others)?;
    }
    add_all(runs, others);
    Ok(())
}

fn add_all(runs: &mut Vec<Run>, others: &mut Vec<Run>)
    requires { vec_len runs.old + vec_len others.old ≤ vec_capacity runs.old }
    ensures items { runs.new.items ≡ runs.old.items ++ others.old.items }
    ensures capacity { vec_capacity runs.old ≤ vec_capacity runs.new }
{
    let _ = runs.append(others);
}

fn continues(runs: &[Run], others: &[Run]) -> bool
    ensures { IsTrue result ↔ (1 ≤ length others.now)
        × TouchesBelow (first_number (get_or others.now 0 [])) (length runs.now) runs.now }
{
    if others.is_empty() {
        return false;
    }
    touches_below(runs, runs.len(), others[0].first())
}

fn splice_first(runs: &mut Vec<Run>, others: &mut Vec<Run>) -> Result<(), AllocError>
    requires ours { 1 ≤ length runs.old.items }
    requires theirs { 1 ≤ length others.old.items }
    ensures ok { OnOk result (runs.new.items
        ≡ slice_set runs.old.items (length runs.old.items - 1)
        (get_or runs.old.items (length runs.old.items - 1) [] ++ get_or others.old.items 0 [])) }
    ensures rest { OnOk result (others.new.items ≡ drop 1 others.old.items) }
    ensures err { OnErr result (runs.new.items ≡ runs.old.items) }
    ensures others { OnErr result (others.new.items ≡ others.old.items) }
    ensures len { vec_len runs.new ≡ vec_len runs.old }
    ensures fewer { vec_len others.new ≤ vec_len others.old }
    ensures capacity { vec_capacity runs.new ≡ vec_capacity runs.old }
{
    let at = runs.len() - 1;
    let run = &mut runs[at];
    let next = &mut others[0];
    run.take_next(next)?;
    let _ = others.remove(0);
    Ok(())
}

fn cut(runs: &mut Vec<Run>, count: usize, len: usize)
    requires { count ≤ length runs.old.items }
    ensures items { runs.new.items ≡ slice_set (take count runs.old.items) (count - 1)
        (take len (get_or (take count runs.old.items) (count - 1) [])) }
    ensures capacity { vec_capacity runs.new ≡ vec_capacity runs.old }
{
    runs.truncate(count);
    if count == 0 {
        return;
    }
    let run = &mut runs[count - 1];
    run.truncate(len);
}
