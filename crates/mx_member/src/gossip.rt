//! The exchange of parcels: letters of the core, wants (of missing sections), bases and records.

ghost use Rattle.std.specs.Prelude.{ℕ, ◌≡◌, ◌≤◌, ◌<◌, ◌↔◌, ◌⊎◌, ◌++◌, [], List, length, Err, IfOk, IsOk, OnErr, OnOk};
ghost use Rattle.std.specs.List.{list_any};
ghost use Rattle.mx_stamps.specs.declared.limits.TheConstants.{MAX_REGISTERS};
ghost use Rattle.mx_journal.specs.declared.records.Record.{Record};
ghost use Rattle.mx_journal.specs.Bases.{AreOpposed, BaseState};
ghost use Rattle.mx_journal.specs.Records.{Ascending};
ghost use Rattle.mx_journal.specs.Settled.{beyond, with_base};
ghost use Rattle.mx_registers.specs.Based.{registers_from, registers_in};
ghost use Rattle.mx_registers.specs.Registers.{value_in};
ghost use Rattle.mx_member.specs.declared.faults.DeliverFault.{DeliverFault};
ghost use Rattle.mx_member.specs.Member.{BringsUnknown, IsViewOf};
ghost use Rattle.mx_member.specs.Steps.{IsDisputed, IsTakeable, answers_to, base_to, core_step, reaches, records_to, take_of, want_of, want_to};

use crate::faults::DeliverFault;
use crate::guards::guard_all;
use crate::member::Member;
use crate::parcel::Parcel;
use arrayvec::ArrayVec;
use mx_journal::{Base, BaseFault, Journal, Range, Record};
use mx_letters::Outbox;
use mx_merge::{answer, missing};
use mx_nodelaws::Exclusion;
use mx_registers::{View, view};
use mx_stamps::NodeId;

impl<C: Exclusion> Member<C> {
    /// Asks node `to` for the sections that the journal lacks, by the first eight ranges of their
    /// numbers. Sends nothing if the journal covers all sections up to the limit, the greatest
    /// section number.
    pub fn want(&self, to: NodeId, out: &mut Outbox<Parcel<C::Msg>>)
        requires { out.old ≡ [] }
        ensures letters { out.new ≡ (want_of C.core to self.now).letters }
    {
        let gaps = missing(&self.journal, self.limit);
        if !gaps.is_empty() {
            out.add(to, Parcel::Want(gaps));
        }
    }

    /// Delivers a parcel from node `from`, which may be this node itself. A letter goes to the
    /// core. The reply to a want is the base, if it covers a number in the ranges, and up to four
    /// records with numbers in the ranges. The journal takes all delivered records or none. A
    /// delivered base replaces the member's own if it covers more sections.
    ///
    /// # Errors
    ///
    /// Returns `Stranger` if the sender is no node of the cluster. Returns `Conflict` if a record
    /// or a base differs from one that the journal knows, and `Memory` if memory runs out.
    pub fn deliver(
        &mut self,
        from: NodeId,
        parcel: Parcel<C::Msg>,
        out: &mut Outbox<Parcel<C::Msg>>,
    ) -> Result<(), DeliverFault>
        requires { out.old ≡ [] }
        ensures stranger { (result ≡ Err DeliverFault.Stranger)
            ↔ (self.old.setting.nodes ≤ from) }
        ensures conflict { (n : ℕ) → (result ≡ Err (DeliverFault.Conflict n))
            ↔ ((from < self.old.setting.nodes)
            × IsDisputed n parcel self.old.journal) }
        ensures taken { (IsOk result ⊎ (result ≡ Err DeliverFault.Memory))
            ↔ IsTakeable from parcel self.old }
        ensures memory { (result ≡ Err DeliverFault.Memory)
            → BringsUnknown parcel self.old.journal }
        ensures state { OnOk result (self.new ≡ (take_of C.core from parcel self.old).state) }
        ensures letters { OnOk result (out.new ≡ (take_of C.core from parcel self.old).letters) }
        ensures err { OnErr result (self.new ≡ self.old) }
        ensures quiet { OnErr result (out.new ≡ []) }
    {
        self.receive(from, &parcel, out)
    }

    /// Delivers a parcel as `deliver` does, but borrows it.
    ///
    /// # Errors
    ///
    /// Returns the same errors as `deliver`.
    pub fn receive(
        &mut self,
        from: NodeId,
        parcel: &Parcel<C::Msg>,
        out: &mut Outbox<Parcel<C::Msg>>,
    ) -> Result<(), DeliverFault>
        requires { out.old ≡ [] }
        ensures stranger { (result ≡ Err DeliverFault.Stranger)
            ↔ (self.old.setting.nodes ≤ from) }
        ensures conflict { (n : ℕ) → (result ≡ Err (DeliverFault.Conflict n))
            ↔ ((from < self.old.setting.nodes)
            × IsDisputed n parcel.now self.old.journal) }
        ensures taken { (IsOk result ⊎ (result ≡ Err DeliverFault.Memory))
            ↔ IsTakeable from parcel.now self.old }
        ensures memory { (result ≡ Err DeliverFault.Memory)
            → BringsUnknown parcel.now self.old.journal }
        ensures state { OnOk result (self.new ≡ (take_of C.core from parcel.now self.old).state) }
        ensures letters { OnOk result (out.new
            ≡ (take_of C.core from parcel.now self.old).letters) }
        ensures err { OnErr result (self.new ≡ self.old) }
        ensures quiet { OnErr result (out.new ≡ []) }
    {
        // for the prover: the call shows that the records of a journal agree
        let _ = self.journal.is_empty();
        if from.get() >= self.nodes {
            return Err(DeliverFault::Stranger);
        }
        match parcel {
            Parcel::Guard(letter) => self.hear(from, *letter, out),
            Parcel::Want(ranges) => self.answer_want(from, ranges.as_slice(), out),
            Parcel::Base(base) => {
                take_base(&mut self.journal, &mut self.shown, self.registers, base)?;
            }
            Parcel::Records(records) => {
                let list = records.as_slice();
                self.journal.put_all(list)?;
                take_all(&mut self.shown, self.journal.base().upto(), list);
            }
        }
        Ok(())
    }

    fn hear(&mut self, from: NodeId, letter: C::Msg, out: &mut Outbox<Parcel<C::Msg>>)
        requires { out.old ≡ [] }
        ensures state { self.new
            ≡ (core_step self.old (C.core.deliver from letter self.old.core)).state }
        ensures letters { out.new
            ≡ (core_step self.old (C.core.deliver from letter self.old.core)).letters }
    {
        self.core.deliver(from, letter, &mut self.letters);
        guard_all(&mut self.letters, out);
    }

    fn answer_want(&self, from: NodeId, ranges: &[Range], out: &mut Outbox<Parcel<C::Msg>>)
        requires { out.old ≡ [] }
        ensures { out.new ≡ answers_to from ranges.now self.now.journal }
    {
        send_base(from, ranges, &self.journal, out);
        send_records(from, answer(&self.journal, ranges), out);
    }

    /// Returns the value of a register after all sections that the journal covers; earlier ones may
    /// be missing there. Returns `None` if there is no such register.
    #[tactic(auto, unfolding(crate::specs::Member::IsViewOf))]
    pub fn value(&self, register: u8) -> Option<u64>
        ensures { result ≡ value_in register
            (registers_in self.now.setting.registers self.now.journal) }
    {
        self.shown.value(register)
    }
}

fn is_wanted(upto: u64, ranges: &[Range]) -> bool
    ensures { result ≡ list_any (reaches upto) ranges.now }
{
    ranges
        .iter()
        .any(|range| range.first.max(1) <= range.last.min(upto))
}

fn send_base<M: Copy + Default>(
    to: NodeId,
    ranges: &[Range],
    journal: &Journal,
    out: &mut Outbox<Parcel<M>>,
)
    requires { out.old ≡ [] }
    ensures { out.new ≡ base_to to ranges.now journal.now }
{
    if is_wanted(journal.base().upto(), ranges) {
        out.add(to, Parcel::Base(*journal.base()));
    }
}

fn send_records<M: Copy + Default>(
    to: NodeId,
    records: ArrayVec<Record, 4>,
    out: &mut Outbox<Parcel<M>>,
)
    requires { length out.old ≤ 1 }
    ensures { out.new ≡ out.old ++ records_to to records.items }
{
    if !records.is_empty() {
        out.add(to, Parcel::Records(records));
    }
}

fn take_base(
    journal: &mut Journal,
    shown: &mut View,
    registers: u8,
    base: &Base,
) -> Result<(), BaseFault>
    requires least { 1 ≤ registers }
    requires most { registers ≤ MAX_REGISTERS }
    ensures conflict { (n : ℕ) → (result ≡ Err (BaseFault.Conflict n))
        ↔ ((n ≡ base.now.upto) × AreOpposed journal.old.base base.now) }
    ensures agreed { IsOk result
        ↔ (journal.old.base.upto ≡ base.now.upto → journal.old.base ≡ base.now) }
    ensures ok { OnOk result (journal.new ≡ with_base base.now journal.old) }
    ensures shown { IsViewOf registers journal.old shown.old
        → IsViewOf registers journal.new shown.new }
    ensures err { OnErr result (journal.new ≡ journal.old) }
    ensures same { OnErr result (shown.new ≡ shown.old) }
{
    journal.take_base(base)?;
    *shown = view(journal, registers);
    Ok(())
}

fn take_all(shown: &mut View, upto: u64, records: &[Record])
    ensures { (base : BaseState) (count : ℕ) (before : List Record)
        → shown.old ≡ registers_from base count before
        → shown.new ≡ registers_from base count (before ++ beyond upto records.now) }
{
    for entry in records {
        if upto < entry.number {
            shown.take(entry);
        }
    }
}
