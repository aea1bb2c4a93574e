ghost use Rattle.std.specs.Prelude.{◌≡◌, ◌≤◌, ◌<◌, ◌↔◌, ℕ, [], ◌∷◌, ◌++◌, length, OnOk, OnErr, IfOk, IfErr, IfSome, MatchOption, drop, slice_get, take};
ghost use Rattle.std.specs.List.{enumerate_from};
ghost use Rattle.mx_stamps.specs.declared.limits.TheConstants.{MAX_REGISTERS, MAX_SECTIONS};
ghost use Rattle.mx_stamps.specs.Lists.{each_below};
ghost use Rattle.mx_journal.specs.Records.{Ascending};
ghost use Rattle.mx_journal.specs.Settled.{DoAgree, settled, unsettled};
ghost use Rattle.mx_registers.specs.Based.{registers_in};
ghost use Rattle.mx_registers.specs.Registers.{registers_of};
ghost use Rattle.mx_member.specs.Journals.{IsJournalOf};
ghost use Rattle.mx_member.specs.Member.{MemberState};
ghost use Rattle.mx_member.specs.Steps.{start_of};
ghost use Rattle.mx_member.specs.World.{IsMember};
ghost use Rattle.mx_trace.specs.Serial.{AllClosed, IsInSection, ReadSerially};
ghost use Rattle.mx_network.specs.Merged.{IsAboveAll, IsBelowEach, IsOfAll};
ghost use Rattle.mx_trace.specs.Trace.{IsSerial, ShowsInOrder, journal_of, sections, IsExclusive, IsNumbered};
ghost use Rattle.mx_network.specs.Step.{step_of, AreTakeable, AreUnsettled, IsInsideAt, IsInsideWith, IsFaultOf, IsSettledRead, IsUnchanged, NamesNoNode, NamesNoParcel, RunsTo};

use crate::faults::{RunFault, StepFault};
use crate::parcel_log::ParcelLog;
use crate::parcels::Parcels;
use crate::parts::{newest, start_members};
use mx_events::Event;
use mx_journal::Journal;
use mx_letters::Outbox;
use mx_member::{Member, Parcel, SentParcel};
use mx_merge::{MergeFault, merge};
use mx_nodelaws::Exclusion;
use mx_stamps::NodeId;
use mx_trace::{Cause, Entry, Outcome};
use std::alloc::{AllocError, Global};
use std::marker::Model;

/// A cluster: members, the parcels that they have sent, and the trace of all events with their
/// outcomes.
#[derive(Drop)]
pub struct Cluster<C: Exclusion> {
    pub(crate) members: Vec<Member<C>>,
    pub(crate) parcel_log: ParcelLog<C>,
    pub(crate) trace: Vec<Entry>,
    /// The parcels of the current event. Empty between events.
    pub(crate) out: Outbox<Parcel<C::Msg>>,
    /// Always `None`. The prover derives from this field that a member's size is bounded.
    size: Option<Member<C>>,
}

impl<C: Exclusion> Model for Cluster<C> {
    ghost use Rattle.std.specs.Prelude.{◌≡◌, []};
    ghost use Rattle.mx_network.specs.Step.{ClusterState};
    ghost use Rattle.mx_network.specs.Kept.{IsKept};

    ghost Value = { ClusterState C C.Msg };

    ghost view = { λ c. record {
      members = c.members.items;
      sent = c.parcel_log.sent;
      trace = c.trace.items;
    } };

    ghost invariant = { λ c. (c.out ≡ [])
        × IsKept C.core C.Good (record {
          members = c.members.items;
          sent = c.parcel_log.sent;
          trace = c.trace.items;
        }) };
}

impl<C: Exclusion> Cluster<C> {
    /// Creates a cluster of idle members. The algorithm counts its stamps and grants, or its hops,
    /// on from `origin`; `limit` is the greatest section number, and there are `registers`
    /// registers with the value 0.
    ///
    /// # Errors
    ///
    /// Returns `AllocError` if memory runs out.
    pub fn start(
        alloc: Global,
        shape: &C::Shape,
        origin: u64,
        limit: u64,
        registers: u8,
    ) -> Result<Self, AllocError>
        requires low { 0 < limit }
        requires high { limit ≤ MAX_SECTIONS }
        requires some { 0 < registers }
        requires few { registers ≤ MAX_REGISTERS }
        ensures { IfOk result (λ cluster. cluster ≡ record {
          members = each_below (λ i. start_of C.core shape.now i origin limit registers)
              (C.core.count shape.now);
          sent = [];
          trace = [];
        }) }
    {
        Ok(Cluster {
            members: start_members(alloc, shape, origin, limit, registers)?,
            parcel_log: ParcelLog::new(alloc),
            trace: Vec::new(alloc),
            out: Outbox::new(),
            size: None,
        })
    }

    /// Applies one event, adds it to the trace, and returns its outcome. An event that its node
    /// refuses joins the trace too, but changes no member and sends nothing.
    ///
    /// # Errors
    ///
    /// Returns `NoNode` if the event names a node that the cluster does not have, and `NoParcel` if
    /// it delivers a parcel that was not sent. Returns `Memory` if there is no such fault and
    /// memory runs out.
    pub fn step(&mut self, event: Event) -> Result<Outcome, StepFault>
        ensures ok { OnOk result (step_of C.core self.old event ≡ Ok self.new) }
        ensures outcome { IfOk result (λ outcome. self.new.trace ≡ self.old.trace
            ++ (record { event = event; outcome = outcome }) ∷ []) }
        ensures fault { IfErr result (IsFaultOf (step_of C.core self.old event)) }
        ensures no_node { (result ≡ Err StepFault.NoNode) ↔ NamesNoNode self.old event }
        ensures no_parcel { (result ≡ Err StepFault.NoParcel) ↔ NamesNoParcel self.old event }
        ensures err { OnErr result (self.new ≡ self.old) }
        ensures refused { (cause : Cause) → (result ≡ Ok (Outcome.Refused cause))
            → IsUnchanged self.old self.new }
        // a read never meets its own section settled
        ensures unsettled { (cause : Cause) → (result ≡ Ok (Outcome.Refused cause))
            → IsSettledRead event cause → ⊥ }
    {
        // for the prover: the use of a field shows what holds for a cluster
        let _ = &self.trace;
        let room = match self.apply_with_room(event) {
            Ok(room) => room,
            Err(fault) => return Err(fault),
        };
        Ok(newest(&self.trace, room))
    }

    /// Applies one event as `step` does, but does not return the outcome, which the newest item of
    /// the trace has.
    ///
    /// # Errors
    ///
    /// Returns the same errors as `step`.
    pub fn advance(&mut self, event: Event) -> Result<(), StepFault>
        ensures ok { OnOk result (step_of C.core self.old event ≡ Ok self.new) }
        ensures fault { IfErr result (IsFaultOf (step_of C.core self.old event)) }
        ensures no_node { (result ≡ Err StepFault.NoNode) ↔ NamesNoNode self.old event }
        ensures no_parcel { (result ≡ Err StepFault.NoParcel) ↔ NamesNoParcel self.old event }
        ensures err { OnErr result (self.new ≡ self.old) }
    {
        // for the prover: the use of a field shows what holds for a cluster
        let _ = &self.trace;
        self.apply(event)
    }

    /// Reserves memory for `events` more events and as many parcels, so that their lists need not
    /// grow step by step. Nothing else changes.
    ///
    /// # Errors
    ///
    /// Returns `AllocError` if memory runs out.
    pub fn make_room(&mut self, events: usize) -> Result<(), AllocError>
        ensures { self.new ≡ self.old }
    {
        self.trace.reserve(events)?;
        self.parcel_log.reserve(events)
    }

    /// Applies these events in order, up to the first that fails.
    ///
    /// # Errors
    ///
    /// Returns the index and the fault of the event that fails. The events before it have been
    /// applied.
    pub fn run(&mut self, events: &[Event]) -> Result<(), RunFault>
        ensures ok { OnOk result (RunsTo C.core self.old events.now self.new) }
        ensures err { IfErr result (λ fault. (fault.index < length events.now)
            × RunsTo C.core self.old (take fault.index events.now) self.new) }
        ensures fault { IfErr result (λ fault. IfSome (slice_get events.now fault.index)
            (λ event. IsFaultOf (step_of C.core self.new event) fault.fault)) }
    {
        for (index, event) in events.iter().enumerate() {
            if let Err(fault) = self.advance(*event) {
                return Err(RunFault {
                    index: index as u64,
                    fault,
                });
            }
        }
        Ok(())
    }

    /// Returns the member of a node, if the cluster has that node. The member's journal knows only
    /// sections of the trace. If the journal has no gaps, it shows the writes of its sections in
    /// order of entry.
    pub fn member(&self, node: NodeId) -> Option<&Member<C>>
        ensures value { MatchOption result (slice_get self.now.members node ≡ None)
            (λ member. slice_get self.now.members node ≡ Some member.now) }
        ensures journal { IfSome result (λ member.
            IsJournalOf (journal_of self.now.trace) member.now.journal) }
        ensures in_order { IfSome result
            (λ member. ShowsInOrder self.now.trace member.now.journal) }
    {
        self.members.get(node.get() as usize)
    }

    /// Returns the members, in the order of their nodes.
    pub fn members(&self) -> &[Member<C>]
        ensures { result.now ≡ self.now.members }
    {
        &self.members
    }

    /// Returns the number of parcels that were sent.
    pub fn sent(&self) -> u64
        ensures { result ≡ length self.now.sent }
    {
        self.parcel_log.len() as u64
    }

    /// Returns the sender and the addressee of a parcel, and the parcel itself. Parcels are
    /// numbered from 0 in the order in which they were sent.
    pub fn parcel(&self, number: u64) -> Option<(NodeId, NodeId, &Parcel<C::Msg>)>
        ensures { MatchOption result (slice_get self.now.sent number ≡ None)
            (λ parcel. slice_get self.now.sent number
            ≡ Some (parcel.0, parcel.1, parcel.2.now)) }
    {
        match self.parcel_log.get(number) {
            Some(found) => Some((found.from, found.to, found.parcel)),
            None => None,
        }
    }

    /// Returns what `parcel` returns, as a struct.
    pub fn sent_parcel(&self, number: u64) -> Option<SentParcel<'_, C::Msg>>
        ensures { MatchOption result (slice_get self.now.sent number ≡ None)
            (λ found. slice_get self.now.sent number
            ≡ Some (found.from, found.to, found.parcel.now)) }
    {
        self.parcel_log.get(number)
    }

    /// Returns the parcels from this number on, in order, each with its number.
    pub fn parcels_from(&self, number: u64) -> Parcels<'_, C::Msg>
        ensures { result ≡ enumerate_from number (drop number self.now.sent) }
    {
        self.parcel_log.parcels_from(number)
    }

    /// Returns the trace: all events in order, with their outcomes. At every moment of every run:
    ///
    /// - entries and exits alternate; each exit has the node and the number of the entry before it;
    /// - the n-th entry has the number n;
    /// - each value read is that of the register after all earlier sections and the writes so far
    ///   in the draft of the section that reads, and each receipt has the reads and writes of its
    ///   section's draft;
    /// - at most one node is inside: the node of the newest section, while that section is open;
    /// - any two journals agree, and a member can take each parcel that was sent to it.
    pub fn trace(&self) -> &[Entry]
        ensures value { result.now ≡ self.now.trace }
        ensures exclusive { IsExclusive result.now }
        ensures numbered { IsNumbered result.now }
        ensures serial { IsSerial result.now }
        ensures receipts { ReadSerially (sections result.now) }
        ensures alone { (i j : ℕ) → IsInsideAt C.core self.now i → IsInsideAt C.core self.now j →
            j ≡ i }
        ensures inside { (i n : ℕ) → IsInsideWith C.core self.now i n
            ↔ IsInSection i n (sections result.now) }
        ensures nobody { ((i : ℕ) → IsInsideAt C.core self.now i → ⊥)
            ↔ AllClosed (sections result.now) }
        ensures agreed { (i j : ℕ) (m k : MemberState C) → IsMember self.now.members i m
            → IsMember self.now.members j k → DoAgree m.journal k.journal }
        ensures journals { (i : ℕ) (m : MemberState C) → IsMember self.now.members i m
            → IsJournalOf (journal_of result.now) m.journal }
        ensures ordered { Ascending 1 (journal_of result.now) }
        // so no delivery meets a stranger or a conflict
        ensures takeable { AreTakeable self.now }
        // a read never meets its own section settled
        ensures unsettled { AreUnsettled result.now }
    {
        &self.trace
    }

    /// Merges the journals of these nodes, one after another, into an empty one, and returns their
    /// least upper bound. The journals never conflict. A node that the cluster does not have adds
    /// nothing. If all nodes are listed, the result covers all sections that were left, is settled
    /// as far as any node has settled, and shows the registers after these sections.
    ///
    /// # Errors
    ///
    /// Returns `Memory` if memory runs out.
    pub fn merged(&self, alloc: Global, nodes: &[NodeId]) -> Result<Journal, MergeFault>
        ensures all { IfOk result (λ journal.
            IsAboveAll self.now.members nodes.now journal) }
        ensures least { IfOk result (λ journal.
            IsBelowEach self.now.members nodes.now journal) }
        ensures sections { IfOk result (λ journal.
            IsJournalOf (journal_of self.now.trace) journal) }
        ensures whole { IsOfAll self.now.members nodes.now → IfOk result (λ journal.
            journal ≡ settled journal.base.upto (unsettled (journal_of self.now.trace))) }
        ensures shown { IsOfAll self.now.members nodes.now → IfOk result (λ journal.
            (count : ℕ) → count ≤ MAX_REGISTERS
            → registers_in count journal ≡ registers_of count (journal_of self.now.trace)) }
        ensures in_order { IfOk result (λ journal. ShowsInOrder self.now.trace journal) }
        ensures conflict { (n : ℕ) → (result ≡ Err (MergeFault.Conflict n)) → ⊥ }
    {
        // for the prover: the use of a field shows what holds for a cluster
        let _ = &self.trace;
        let mut all = Journal::new(alloc);
        for node in nodes {
            if let Some(member) = self.members.get(node.get() as usize) {
                merge(&mut all, member.journal())?;
            }
        }
        Ok(all)
    }
}
