//! The member, and the calls that it passes to its core.

ghost use Rattle.std.specs.Prelude.{◌≡◌, ◌≤◌, ◌<◌, []};
ghost use Rattle.mx_stamps.specs.declared.limits.TheConstants.{MAX_REGISTERS, MAX_SECTIONS};
ghost use Rattle.mx_nodelaws.specs.Core.{BearsNumber};
ghost use Rattle.mx_member.specs.Steps.{ask_of, cancel_of, enter_of, start_of, tick_of};

use crate::guards::guard_all;
use crate::parcel::Parcel;
use mx_journal::{Draft, Journal};
use mx_letters::Outbox;
use mx_nodelaws::{AskFault, CancelFault, EnterFault, Exclusion, Phase};
use mx_registers::View;
use mx_stamps::{NodeId, Stamp};
use std::alloc::Global;
use std::marker::Model;

/// A node with its core, the journal of the sections that it knows, and the draft of the section
/// that it is inside.
#[derive(Drop)]
pub struct Member<C: Exclusion> {
    pub(crate) me: NodeId,
    pub(crate) nodes: u8,
    pub(crate) limit: u64,
    pub(crate) registers: u8,
    pub(crate) core: C,
    pub(crate) journal: Journal,
    /// The registers after the sections that the journal covers.
    pub(crate) shown: View,
    pub(crate) draft: Draft,
    /// The core's letters before they are sent. Empty between calls.
    pub(crate) letters: Outbox<C::Msg>,
}

impl<C: Exclusion> Model for Member<C> {
    ghost use Rattle.std.specs.Prelude.{◌≡◌, ◌≤◌, ◌<◌, [], length};
    ghost use Rattle.mx_stamps.specs.declared.limits.TheConstants.{MAX_REGISTERS};
    ghost use Rattle.mx_member.specs.Member.{IsViewOf, MemberState};

    ghost Value = { MemberState C };

    ghost view = { λ m. record {
      setting = record { me = m.me; nodes = m.nodes; limit = m.limit; registers = m.registers };
      core = m.core;
      journal = m.journal;
      draft = m.draft;
    } };

    ghost invariant = { λ m. (m.letters ≡ []) × (0 < m.registers) × (m.registers ≤ MAX_REGISTERS)
        × (length m.draft.reads ≤ 8) × (length m.draft.writes ≤ 8)
        × IsViewOf m.registers m.journal m.shown };
}

impl<C: Exclusion> Member<C> {
    /// Creates an idle member with an empty journal. By its algorithm, the core counts its stamps
    /// and grants, or its hops, on from `origin`; `limit` is the greatest section number, and
    /// `registers` the number of registers.
    pub fn start(
        alloc: Global,
        shape: &C::Shape,
        me: NodeId,
        origin: u64,
        limit: u64,
        registers: u8,
    ) -> Self
        requires node { me < C.core.count shape.now }
        requires low { 0 < limit }
        requires high { limit ≤ MAX_SECTIONS }
        requires some { 0 < registers }
        requires few { registers ≤ MAX_REGISTERS }
        ensures { result ≡ start_of C.core shape.now me origin limit registers }
    {
        Member {
            me,
            nodes: C::nodes(shape),
            limit,
            registers,
            core: C::start(shape, me, origin, limit),
            journal: Journal::new(alloc),
            shown: View::new(registers),
            draft: Draft::new(),
            letters: Outbox::new(),
        }
    }

    /// Asks for the next section, and returns the stamp of the request.
    ///
    /// # Errors
    ///
    /// Returns `NotIdle` if the node waits already or is inside, and `StampsSpent` if no next stamp
    /// exists.
    pub fn ask(&mut self, out: &mut Outbox<Parcel<C::Msg>>) -> Result<Stamp, AskFault>
        requires { out.old ≡ [] }
        ensures state { self.new ≡ (ask_of C.core self.old).state }
        ensures answer { result ≡ (ask_of C.core self.old).answer }
        ensures letters { out.new ≡ (ask_of C.core self.old).letters }
    {
        let answer = self.core.ask(&mut self.letters);
        guard_all(&mut self.letters, out);
        answer
    }

    /// Enters the section with an empty draft, and returns its number.
    ///
    /// # Errors
    ///
    /// Returns `NotWaiting` if the node is idle or inside, `NotGranted` if a permission is missing,
    /// and `NumbersSpent` if the highest section number that the node knows is the limit.
    pub fn enter(&mut self) -> Result<u64, EnterFault>
        ensures state { self.new ≡ (enter_of C.core self.old).state }
        ensures answer { result ≡ (enter_of C.core self.old).answer }
    {
        let number = self.core.enter()?;
        self.draft.clear();
        Ok(number)
    }

    /// Withdraws the request. Journal and draft are unchanged.
    ///
    /// # Errors
    ///
    /// Returns `NotWaiting` if the node is idle or inside.
    pub fn cancel(&mut self, out: &mut Outbox<Parcel<C::Msg>>) -> Result<(), CancelFault>
        requires { out.old ≡ [] }
        ensures state { self.new ≡ (cancel_of C.core self.old).state }
        ensures answer { result ≡ (cancel_of C.core self.old).answer }
        ensures letters { out.new ≡ (cancel_of C.core self.old).letters }
    {
        let answer = self.core.cancel(&mut self.letters);
        guard_all(&mut self.letters, out);
        answer
    }

    /// Sends all outstanding letters again, since any letter may be lost.
    pub fn tick(&mut self, out: &mut Outbox<Parcel<C::Msg>>)
        requires { out.old ≡ [] }
        ensures state { self.new ≡ (tick_of C.core self.old).state }
        ensures letters { out.new ≡ (tick_of C.core self.old).letters }
    {
        self.core.tick(&mut self.letters);
        guard_all(&mut self.letters, out);
    }

    /// Returns whether the node waits and has every permission for its current request.
    pub fn can_enter(&self) -> bool
        ensures { result ≡ C.core.can_enter self.now.core }
    {
        self.core.can_enter()
    }

    /// Returns the phase of the node.
    pub fn phase(&self) -> Phase
        ensures value { result ≡ C.core.phase self.now.core }
        ensures numbered { BearsNumber result }
    {
        self.core.phase()
    }

    /// Returns the number of the last section that this node entered, or 0 before the first.
    pub fn mine(&self) -> u64
        ensures value { result ≡ C.core.mine self.now.core }
        ensures high { result ≤ MAX_SECTIONS }
    {
        self.core.mine()
    }

    /// Returns the core: the node's state in its algorithm.
    pub fn core(&self) -> &C
        ensures { result.now ≡ self.now.core }
    {
        &self.core
    }

    /// Returns the journal of the sections that the member knows.
    pub fn journal(&self) -> &Journal
        ensures { result.now ≡ self.now.journal }
    {
        &self.journal
    }
}
