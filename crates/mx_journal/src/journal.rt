//! The journal of a node: the closed sections that the node knows, as records by number.

ghost use Rattle.std.specs.Prelude.{ℕ, suc, ◌≡◌, ◌+◌, ◌≤◌, ◌<◌, ◌↔◌, ◌++◌, ◌⊎◌, [], ◌∷◌, List, Some, None, Ok, Err, IsOk, IsTrue, IfOk, OnOk, OnErr, MatchOption, max, length, take};
ghost use Rattle.mx_journal.specs.Agreement.{IsConsistent, IsFirstConflict, IsOther};
ghost use Rattle.mx_journal.specs.Bases.{AreOpposed};
ghost use Rattle.mx_journal.specs.Gapless.{first_missing};
ghost use Rattle.mx_journal.specs.declared.settlement.SettleFault.TheVariants.{Below, Gap};
ghost use Rattle.mx_journal.specs.Records.{Ascending, IsNumbered, IsThere, above, in_range, record_at};
ghost use Rattle.mx_journal.specs.Settled.{BringsUncovered, Covers, DoAgree, IsCovered, IsFirstGap, IsSettled, IsWithin, beyond, covered, joined, settled, top_covered, unsettled, with_base, with_entry, with_list};

use crate::base::Base;
use crate::puts::{Put, PutFault};
use crate::ranges::Range;
use crate::record_map::{RECORDS_AT_ONCE, RecordMap};
use crate::records::Record;
use crate::settlement::{BaseFault, SettleFault, settled_base};
use arrayvec::ArrayVec;
use std::alloc::{AllocError, Global};
use std::marker::Model;

/// A journal of sections: a base for the first ones, and the records of later ones by number. The
/// journal *covers* the sections from 1 up to the base's number, and those whose records it has.
/// Each record has a number above that of the base.
#[derive(Drop)]
pub struct Journal {
    base: Base,
    records: RecordMap,
}

impl Model for Journal {
    ghost use Rattle.std.specs.Prelude.{suc};
    ghost use Rattle.mx_journal.specs.Records.{Ascending};
    ghost use Rattle.mx_journal.specs.Settled.{JournalState};

    ghost Value = { JournalState };

    ghost view = { λ j. record { base = j.base; records = j.records } };

    ghost invariant = { λ j. Ascending (suc j.base.upto) j.records };
}

impl Journal {
    /// Creates an empty journal, which covers no section.
    pub fn new(alloc: Global) -> Journal
        ensures { result ≡ unsettled [] }
    {
        Journal {
            base: Base::origin(),
            records: RecordMap::new(alloc),
        }
    }

    /// Puts a record into the journal, and returns whether it is new (`New`) or was known already
    /// (`Same`). A record whose number the base covers counts as `Same`, whatever its writes.
    ///
    /// # Errors
    ///
    /// Returns `ZeroNumber` if the record's number is 0. Returns `Conflict` with the number if the
    /// journal has a different record of that number. Returns `Memory` if the record is new and
    /// memory runs out.
    pub fn put(&mut self, entry: Record) -> Result<Put, PutFault>
        ensures zero { (result ≡ Err PutFault.ZeroNumber) ↔ (entry.number ≡ 0) }
        ensures conflict { (n : ℕ) → (result ≡ Err (PutFault.Conflict n))
            ↔ ((n ≡ entry.number) × IsOther entry (record_at n self.old.records)) }
        ensures same { (result ≡ Ok Put.Same) ↔ (IsSettled entry.number self.old
            ⊎ (record_at entry.number self.old.records ≡ Some entry)) }
        ensures new { (result ≡ Ok Put.New) → self.new ≡ with_entry entry self.old }
        ensures fresh { ((result ≡ Ok Put.New) ⊎ (result ≡ Err PutFault.Memory))
            ↔ ((self.old.base.upto < entry.number)
            × (record_at entry.number self.old.records ≡ None)) }
        ensures kept { (result ≡ Ok Put.New) ⊎ (self.new ≡ self.old) }
    {
        if is_settled(&self.base, entry.number) {
            return Ok(Put::Same);
        }
        self.records.put(entry)
    }

    /// Puts all records of a list, or none, and returns how many were new. Records whose numbers
    /// the base covers are skipped, whatever their writes. A record may occur in the list more than
    /// once.
    ///
    /// The time is that of a `put` for each record if the list ascends by number. Otherwise each
    /// record is compared with every other, so the time grows with the square of the length.
    ///
    /// # Errors
    ///
    /// Returns `ZeroNumber` if a record's number is 0. Returns `Conflict` with the least number
    /// that two different records share; both may be in the list, or one in the journal. Returns
    /// `Memory` if there is no other fault, some record is new, and memory runs out.
    pub fn put_all(&mut self, list: &[Record]) -> Result<u64, PutFault>
        ensures zero { (result ≡ Err PutFault.ZeroNumber) ↔ IsThere 0 list.now }
        ensures conflict { (n : ℕ) → (result ≡ Err (PutFault.Conflict n))
            ↔ (IsNumbered list.now × IsFirstConflict n
            (self.old.records ++ beyond self.old.base.upto list.now)) }
        ensures agreed { (IsOk result ⊎ (result ≡ Err PutFault.Memory))
            ↔ (IsNumbered list.now × IsConsistent
            (self.old.records ++ beyond self.old.base.upto list.now)) }
        ensures ok { IfOk result (λ k. (self.new ≡ with_list list.now self.old)
            × (length self.new.records ≡ length self.old.records + k)) }
        ensures memory { (result ≡ Err PutFault.Memory) → BringsUncovered list.now self.old }
        ensures err { OnErr result (self.new ≡ self.old) }
    {
        self.records.put_all(self.base.upto(), list)
    }

    /// Adds everything that `other` covers, and returns how many section numbers are newly covered.
    /// Both journals must agree: records of the same number are equal, and so are the bases if they
    /// cover the same sections. The base of `other` replaces this journal's own if it covers more
    /// sections.
    ///
    /// # Errors
    ///
    /// Returns `AllocError` if some record is new and memory runs out. Memory is allocated before
    /// anything changes.
    pub fn join(&mut self, other: &Journal) -> Result<u64, AllocError>
        requires { DoAgree self.old other.now }
        ensures ok { IfOk result (λ k. (self.new ≡ joined other.now self.old)
            × (covered self.new ≡ covered self.old + k)) }
        ensures contained { IsWithin other.now self.old → IsOk result }
        ensures memory { OnErr result (BringsUncovered other.now.records self.old) }
        ensures err { OnErr result (self.new ≡ self.old) }
    {
        let count = self.records.join(self.base.upto(), &other.records)?;
        let more = self.rise_to(&other.base);
        // for the prover: the call shows that the sum fits into `u64`
        let _ = self.top();
        Ok(count + more)
    }

    /// Returns the base, which covers no section if nothing is settled.
    pub fn base(&self) -> &Base
        ensures { result.now ≡ self.now.base }
    {
        &self.base
    }

    /// Returns whether the base covers the number, or a record has it.
    pub fn covers(&self, number: u64) -> bool
        ensures { IsTrue result ↔ Covers number self.now }
    {
        is_settled(&self.base, number) || self.records.has(number)
    }

    /// Replaces the records of sections 1 to `upto` by the registers after them. Allocates no
    /// memory. The time grows with the number of records that are removed.
    ///
    /// # Errors
    ///
    /// Returns `Below` with the number of the last section that the base covers, if that is above
    /// `upto`. Returns `Gap` with the first number that the journal does not cover, if that is at
    /// most `upto`.
    pub fn settle(&mut self, upto: u64) -> Result<(), SettleFault>
        ensures below { (n : ℕ) → (result ≡ Err (Below n))
            ↔ ((upto < self.old.base.upto) × (n ≡ self.old.base.upto)) }
        ensures gap { (n : ℕ) → (result ≡ Err (Gap n))
            ↔ ((self.old.base.upto ≤ upto) × (n ≤ upto) × IsFirstGap n self.old) }
        ensures gapless { IsOk result ↔ ((self.old.base.upto ≤ upto) × IsCovered upto self.old) }
        ensures ok { OnOk result (self.new ≡ settled upto self.old) }
        ensures same { upto ≡ self.old.base.upto → self.new ≡ self.old }
        ensures err { OnErr result (self.new ≡ self.old) }
    {
        let own = self.base.upto();
        if upto < own {
            return Err(SettleFault::Below(own));
        }
        let known = self.records.gapless_after(own);
        if known < upto {
            return Err(SettleFault::Gap(known + 1));
        }
        self.base = settled_base(&self.base, &self.records, upto);
        let _ = self.records.drop_up_to(upto);
        Ok(())
    }

    /// Takes `base` instead of the journal's own base if `base` covers more sections, and removes
    /// the records of these. Returns how many section numbers are newly covered. Allocates no
    /// memory.
    ///
    /// # Errors
    ///
    /// Returns `Conflict` with the number of the last section that the bases cover, if both cover
    /// the same sections and differ.
    pub fn take_base(&mut self, base: &Base) -> Result<u64, BaseFault>
        ensures conflict { (n : ℕ) → (result ≡ Err (BaseFault.Conflict n))
            ↔ ((n ≡ base.now.upto) × AreOpposed self.old.base base.now) }
        ensures agreed { IsOk result
            ↔ (self.old.base.upto ≡ base.now.upto → self.old.base ≡ base.now) }
        ensures ok { IfOk result (λ k. (self.new ≡ with_base base.now self.old)
            × (covered self.new ≡ covered self.old + k)) }
        ensures err { OnErr result (self.new ≡ self.old) }
    {
        if self.base.upto() == base.upto() && !self.base.is(base) {
            return Err(BaseFault::Conflict(base.upto()));
        }
        Ok(self.rise_to(base))
    }

    /// As `take_base`, but does not check whether two bases of the same sections differ.
    fn rise_to(&mut self, base: &Base) -> u64
        ensures value { self.new ≡ with_base base.now self.old }
        ensures count { covered self.new ≡ covered self.old + result }
    {
        let (own, upto) = (self.base.upto(), base.upto());
        if upto <= own {
            return 0;
        }
        let dropped = self.records.drop_up_to(upto);
        self.base = *base;
        upto - own - dropped as u64
    }

    /// Returns the record with this number. Returns `None` for a number that the base covers.
    pub fn get(&self, number: u64) -> Option<&Record>
        ensures { MatchOption result (record_at number self.now.records ≡ None)
            (λ found. record_at number self.now.records ≡ Some found.now) }
    {
        self.records.get(number)
    }

    /// Returns the record with the least number above `number`, if there is one. A loop that starts
    /// with 0, and then passes the number of the record found last, visits all records in order.
    pub fn next_after(&self, number: u64) -> Option<&Record>
        ensures value { MatchOption result (above number self.now.records ≡ [])
            (λ found. above number self.now.records
            ≡ found.now ∷ above found.now.number self.now.records) }
        ensures ordered { Ascending (suc self.now.base.upto) self.now.records }
    {
        self.records.next_after(number)
    }

    /// Returns the number of records above the base.
    pub fn len(&self) -> usize
        ensures value { result ≡ length self.now.records }
        // what holds for every journal: the numbers ascend, from above the base on
        ensures ordered { Ascending (suc self.now.base.upto) self.now.records }
    {
        self.records.len()
    }

    /// Returns whether there is no record above the base.
    pub fn is_empty(&self) -> bool
        ensures value { IsTrue result ↔ (self.now.records ≡ []) }
        ensures ordered { Ascending (suc self.now.base.upto) self.now.records }
    {
        self.records.is_empty()
    }

    /// Returns the greatest number that the journal covers, or 0 if it covers none.
    pub fn top(&self) -> u64
        ensures value { result ≡ top_covered self.now }
        // no more numbers are covered than the greatest one
        ensures bound { covered self.now ≤ result }
    {
        self.base.upto().max(self.records.top())
    }

    /// Returns the number right before the first one above `number` that the journal does not
    /// cover. This is `number` itself if the next number is not covered.
    pub fn gapless_after(&self, number: u64) -> u64
        ensures { result + 1 ≡ first_missing (max number self.now.base.upto + 1)
            (above (max number self.now.base.upto) self.now.records) }
    {
        self.records.gapless_after(number.max(self.base.upto()))
    }

    /// Returns the greatest number up to which the journal covers all sections, or 0 if it does not
    /// cover section 1.
    pub fn gapless_to(&self) -> u64
        ensures all { IsCovered result self.now }
        ensures next { Covers (result + 1) self.now → ⊥ }
        ensures value { result + 1 ≡ first_missing (suc self.now.base.upto) self.now.records }
    {
        self.records.gapless_after(self.base.upto())
    }

    /// Returns copies of the records with numbers in the range, ascending: the first four, or all
    /// if there are fewer. A section that the base covers has no record.
    pub fn records_in(&self, range: Range) -> ArrayVec<Record, RECORDS_AT_ONCE>
        ensures { result.items ≡ take 4 (in_range range self.now.records) }
    {
        self.records.records_in(range)
    }
}

fn is_settled(base: &Base, number: u64) -> bool
    ensures { IsTrue result ↔ ((1 ≤ number) × (number ≤ base.now.upto)) }
{
    1 <= number && number <= base.upto()
}
