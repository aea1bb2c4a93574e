ghost use Rattle.std.specs.Prelude.{ℕ, suc, ◌≡◌, ◌+◌, ◌≤◌, ◌<◌, ◌↔◌, ◌++◌, ◌⊎◌, [], ◌∷◌, List, Some, None, Ok, Err, IsOk, IsTrue, IsFalse, IfOk, OnErr, MatchOption, length, take};
ghost use Rattle.mx_journal.specs.Agreement.{AreAgreeing, IsConsistent, IsFirstConflict, IsOther};
ghost use Rattle.mx_journal.specs.Gapless.{first_missing};
ghost use Rattle.mx_journal.specs.Records.{Ascending, BringsNew, IsNumbered, IsThere, above, in_range, record_at, top_of, with_record, with_records};
ghost use Rattle.mx_journal.specs.Settled.{beyond};

use crate::insertion::put_runs;
use crate::joins::{are_there, join_runs, runs_of_new};
use crate::places::{find, gapless_in, insert, is_there, least_in, len_of, next_in, top_in};
use crate::puts::{Put, PutFault, has_zero, least_conflict};
use crate::ranges::Range;
use crate::records::Record;
use crate::removal::cut_up_to;
use crate::runs::Run;
use arrayvec::ArrayVec;
use std::alloc::{AllocError, Global};
use std::marker::Model;

pub(crate) const RECORDS_AT_ONCE: usize = 4;

/// A finite map from section numbers, 1 and above, to the records with these numbers.
#[derive(Drop)]
pub(crate) struct RecordMap {
    runs: Vec<Run>,
}

impl Model for RecordMap {
    ghost use Rattle.std.specs.Prelude.{List};
    ghost use Rattle.mx_journal.specs.declared.records.Record.{Record};
    ghost use Rattle.mx_journal.specs.Runs.{AreRuns, flatten};

    ghost Value = { List Record };

    ghost view = { λ j. flatten j.runs.items };

    ghost invariant = { λ j. AreRuns 1 j.runs.items };
}

impl RecordMap {
    pub(crate) fn new(alloc: Global) -> RecordMap
        ensures { result ≡ [] }
    {
        RecordMap {
            runs: Vec::new(alloc),
        }
    }

    pub(crate) fn put(&mut self, entry: Record) -> Result<Put, PutFault>
        ensures zero { (result ≡ Err PutFault.ZeroNumber) ↔ (entry.number ≡ 0) }
        ensures conflict { (n : ℕ) → (result ≡ Err (PutFault.Conflict n))
            ↔ ((n ≡ entry.number) × IsOther entry (record_at n self.old)) }
        ensures same { (result ≡ Ok Put.Same) ↔ (record_at entry.number self.old ≡ Some entry) }
        ensures new { (result ≡ Ok Put.New) → self.new ≡ with_record entry self.old }
        ensures fresh { ((result ≡ Ok Put.New) ⊎ (result ≡ Err PutFault.Memory))
            ↔ ((1 ≤ entry.number) × (record_at entry.number self.old ≡ None)) }
        ensures kept { (result ≡ Ok Put.New) ⊎ (self.new ≡ self.old) }
    {
        let runs = &mut self.runs;
        if entry.number == 0 {
            return Err(PutFault::ZeroNumber);
        }
        if let Some(there) = find(runs, entry.number) {
            return if there.is(&entry) {
                Ok(Put::Same)
            } else {
                Err(PutFault::Conflict(entry.number))
            };
        }
        insert(runs, entry)?;
        Ok(Put::New)
    }

    pub(crate) fn put_all(&mut self, from: u64, list: &[Record]) -> Result<u64, PutFault>
        ensures zero { (result ≡ Err PutFault.ZeroNumber) ↔ IsThere 0 list.now }
        ensures conflict { (n : ℕ) → (result ≡ Err (PutFault.Conflict n))
            ↔ (IsNumbered list.now × IsFirstConflict n (self.old ++ beyond from list.now)) }
        ensures agreed { (IsOk result ⊎ (result ≡ Err PutFault.Memory))
            ↔ (IsNumbered list.now × IsConsistent (self.old ++ beyond from list.now)) }
        ensures ok { IfOk result (λ k. (self.new ≡ with_records (beyond from list.now) self.old)
            × (length self.new ≡ length self.old + k)) }
        ensures memory { (result ≡ Err PutFault.Memory)
            → BringsNew (beyond from list.now) self.old }
        ensures err { OnErr result (self.new ≡ self.old) }
    {
        if has_zero(list) {
            return Err(PutFault::ZeroNumber);
        }
        if let Some(number) = least_conflict(&self.runs, from, list) {
            return Err(PutFault::Conflict(number));
        }
        let other = runs_of_new(*self.runs.allocator(), &self.runs, from, list)?;
        Ok(put_runs(&mut self.runs, &other)?)
    }

    pub(crate) fn join(&mut self, from: u64, other: &RecordMap) -> Result<u64, AllocError>
        requires agreeing { AreAgreeing self.old other.now }
        requires behind { Ascending (suc from) self.old }
        ensures ok { IfOk result (λ k. (self.new ≡ with_records (above from other.now) self.old)
            × (length self.new ≡ length self.old + k)) }
        ensures missing { OnErr result (BringsNew (above from other.now) self.old) }
        ensures err { OnErr result (self.new ≡ self.old) }
    {
        if are_there(&self.runs, from, &other.runs) {
            return Ok(0);
        }
        join_runs(&mut self.runs, from, &other.runs)
    }

    pub(crate) fn drop_up_to(&mut self, number: u64) -> usize
        ensures value { self.new ≡ above number self.old }
        ensures count { length self.old ≡ length self.new + result }
    {
        let before = len_of(&self.runs);
        cut_up_to(&mut self.runs, number);
        before - len_of(&self.runs)
    }

    pub(crate) fn get(&self, number: u64) -> Option<&Record>
        ensures { MatchOption result (record_at number self.now ≡ None)
            (λ found. record_at number self.now ≡ Some found.now) }
    {
        find(&self.runs, number)
    }

    pub(crate) fn has(&self, number: u64) -> bool
        ensures there { IsTrue result → IsThere number self.now }
        ensures missing { IsFalse result → record_at number self.now ≡ None }
    {
        is_there(&self.runs, number)
    }

    pub(crate) fn next_after(&self, number: u64) -> Option<&Record>
        ensures value { MatchOption result (above number self.now ≡ [])
            (λ found. above number self.now ≡ found.now ∷ above found.now.number self.now) }
        ensures ordered { Ascending 1 self.now }
    {
        next_in(&self.runs, number)
    }

    pub(crate) fn len(&self) -> usize
        ensures value { result ≡ length self.now }
        // what holds for every journal: the numbers ascend, from 1 on
        ensures ordered { Ascending 1 self.now }
    {
        len_of(&self.runs)
    }

    pub(crate) fn is_empty(&self) -> bool
        ensures value { IsTrue result ↔ (self.now ≡ []) }
        ensures ordered { Ascending 1 self.now }
    {
        self.runs.is_empty()
    }

    pub(crate) fn top(&self) -> u64
        ensures { result ≡ top_of self.now }
    {
        top_in(&self.runs)
    }

    pub(crate) fn gapless_after(&self, number: u64) -> u64
        ensures { result + 1 ≡ first_missing (number + 1) (above number self.now) }
    {
        gapless_in(&self.runs, number)
    }

    pub(crate) fn records_in(&self, range: Range) -> ArrayVec<Record, RECORDS_AT_ONCE>
        ensures { result.items ≡ take 4 (in_range range self.now) }
    {
        least_in(&self.runs, range)
    }
}
