//! A node as a requester: its request, the grants that it holds, and its calls.

use mx_letters::{MaekawaMsg, Outbox};
use mx_nodelaws::{AskFault, CancelFault, EnterFault, LeaveFault, Phase};
use mx_stamps::{Clock, MAX_NODES, NodeId, Stamp};
use std::marker::Model;

mod answers;
mod knowledge;

#[derive(Drop)]
pub(crate) struct Requester {
    me: NodeId,
    /// For each node, whether it is one of this node's arbiters (S_i in the publication).
    own: [bool; MAX_NODES as usize],
    count: u8,
    /// The greatest section number, from 1 to 1,000,000. Added to the publication.
    limit: u64,
    /// Idle, waiting for grants, or inside a section.
    phase: Phase,
    /// The highest stamp number that the node has drawn or has seen in a request; the origin at the
    /// start.
    highest: Clock,
    /// The number of the node's latest stamp, or the origin before the first. Added to the
    /// publication: it distinguishes a stamp that has ended from one that was never drawn.
    issued: u64,
    /// The stamp of the node's latest request. It is current while the node waits or is inside;
    /// while the node is idle no rule reads it.
    ours: Stamp,
    /// For each arbiter, the number of its grant (LOCKED) that is held for the current request.
    /// `None` if it has not come or was given back, and while the node is idle.
    held: [Option<u64>; MAX_NODES as usize],
    /// For each arbiter, the highest grant number that was given back to it (RELINQUISH), or the
    /// origin before the first. Added to the publication: a grant up to it does not count again.
    back: [u64; MAX_NODES as usize],
    /// For each arbiter, whether it has failed the current request (FAILED) or got its grant back,
    /// and has not granted the request since.
    failed: [bool; MAX_NODES as usize],
    /// For each arbiter, the grant that it has asked back (INQUIRE), while the node waits and does
    /// not know yet whether it will get every grant. `None` if no inquiry is remembered.
    remembered: [Option<u64>; MAX_NODES as usize],
    /// The highest section number that the node knows, from its own sections and from the grants
    /// that it took; 0 at the start. Added to the publication.
    top: u64,
    /// The number of the last section that the node entered, or 0 before the first. Added to the
    /// publication.
    mine: u64,
}

impl Model for Requester {
    ghost use Rattle.std.specs.Prelude.{◌≤◌};
    ghost use Rattle.mx_stamps.specs.declared.limits.TheConstants.{MAX_NODES, MAX_SECTIONS};
    ghost use Rattle.mx_nodelaws.specs.Core.{BearsNumber};
    ghost use Rattle.mx_maekawa.specs.Node.{RequesterState};

    ghost Value = { RequesterState };

    ghost view = { λ r. record {
      me = r.me;
      own = r.own;
      count = r.count;
      limit = r.limit;
      phase = r.phase;
      highest = r.highest;
      issued = r.issued;
      ours = r.ours;
      held = r.held;
      back = r.back;
      failed = r.failed;
      remembered = r.remembered;
      top = r.top;
      mine = r.mine;
    } };

    ghost invariant = { λ r. (r.count ≤ MAX_NODES) × (r.mine ≤ MAX_SECTIONS)
        × (r.limit ≤ MAX_SECTIONS) × BearsNumber r.phase };
}

impl Requester {
    ghost use Rattle.std.specs.Prelude.{◌≡◌, ◌≤◌, ◌↔◌, [], length, max, IsTrue};
    ghost use Rattle.mx_stamps.specs.declared.limits.TheConstants.{MAX_NODES, MAX_SECTIONS};
    ghost use Rattle.mx_nodelaws.specs.Core.{BearsNumber};
    ghost use Rattle.mx_nodelaws.specs.World.{addressed};
    ghost use Rattle.mx_nodelaws.specs.declared.phase.Phase.TheVariants.{Waiting};
    ghost use Rattle.mx_maekawa.specs.RequesterStep.{start_requester, is_own, holds, HoldsAll, holds_all, to_own, ask_in, can_enter_of, enter_in, leave_in, cancel_in, ended, to_missing, request_again};

    pub(crate) fn start(
        me: NodeId,
        own: &[bool; MAX_NODES as usize],
        count: u8,
        origin: u64,
        limit: u64,
    ) -> Self
        requires few { count ≤ MAX_NODES }
        requires high { limit ≤ MAX_SECTIONS }
        ensures { result ≡ start_requester me own.now count origin limit }
    {
        Requester {
            me,
            own: *own,
            count,
            limit,
            phase: Phase::Idle,
            highest: Clock::at(origin),
            issued: origin,
            ours: Stamp {
                number: 0,
                node: me,
            },
            held: [None; MAX_NODES as usize],
            back: [origin; MAX_NODES as usize],
            failed: [false; MAX_NODES as usize],
            remembered: [None; MAX_NODES as usize],
            top: 0,
            mine: 0,
        }
    }

    pub(crate) fn me(&self) -> NodeId
        ensures { result ≡ self.now.me }
    {
        self.me
    }

    pub(crate) fn phase(&self) -> Phase
        ensures value { result ≡ self.now.phase }
        ensures numbered { BearsNumber result }
    {
        self.phase
    }

    pub(crate) fn mine(&self) -> u64
        ensures value { result ≡ self.now.mine }
        ensures high { result ≤ MAX_SECTIONS }
    {
        self.mine
    }

    pub(crate) fn is_own(&self, node: NodeId) -> bool
        ensures { result ≡ is_own self.now node }
    {
        self.own[node.get() as usize]
    }

    fn holds(&self, a: NodeId) -> bool
        ensures { result ≡ holds self.now a }
    {
        self.held[a.get() as usize].is_some()
    }

    fn holds_all(&self) -> bool
        ensures value { result ≡ holds_all self.now }
        ensures all { IsTrue result ↔ HoldsAll self.now }
    {
        let mut all = true;
        for i in 0..self.count {
            if self.own[i as usize] && self.held[i as usize].is_none() {
                all = false;
            }
        }
        all
    }

    fn send_own(&self, letter: &MaekawaMsg, out: &mut Outbox<MaekawaMsg>)
        requires { out.old ≡ [] }
        ensures { out.new ≡ addressed (to_own self.now letter.now) self.now.count }
    {
        for i in 0..self.count {
            if let Some(to) = NodeId::of(i) {
                if self.is_own(to) {
                    out.add(to, *letter);
                }
            }
        }
    }

    fn send_missing(&self, letter: &MaekawaMsg, out: &mut Outbox<MaekawaMsg>)
        requires { out.old ≡ [] }
        ensures value { out.new ≡ addressed (to_missing self.now letter.now) self.now.count }
        ensures room { length out.new ≤ MAX_NODES }
    {
        for i in 0..self.count {
            if let Some(to) = NodeId::of(i) {
                if self.is_own(to) && !self.holds(to) {
                    out.add(to, *letter);
                }
            }
        }
    }

    pub(crate) fn ask(&mut self, out: &mut Outbox<MaekawaMsg>) -> Result<Stamp, AskFault>
        requires { out.old ≡ [] }
        ensures state { self.new ≡ (ask_in self.old.phase self.old).state }
        ensures answer { result ≡ (ask_in self.old.phase self.old).answer }
        ensures letters { out.new ≡ (ask_in self.old.phase self.old).letters }
    {
        if !matches!(self.phase, Phase::Idle) {
            return Err(AskFault::NotIdle);
        }
        let Some(ours) = self.highest.next(self.me) else {
            return Err(AskFault::StampsSpent);
        };
        self.issued = ours.number;
        self.ours = ours;
        self.held = [None; MAX_NODES as usize];
        self.failed = [false; MAX_NODES as usize];
        self.remembered = [None; MAX_NODES as usize];
        self.phase = Phase::Waiting;
        self.send_own(&MaekawaMsg::Request(ours), out);
        Ok(ours)
    }

    pub(crate) fn see(&mut self, number: u64)
        ensures { self.new ≡ record self.old { highest = max self.old.highest number } }
    {
        self.highest.see(number);
    }

    pub(crate) fn can_enter(&self) -> bool
        ensures value { result ≡ can_enter_of self.now }
        ensures granted { IsTrue result ↔ ((self.now.phase ≡ Waiting) × HoldsAll self.now) }
    {
        matches!(self.phase, Phase::Waiting) && self.holds_all()
    }

    pub(crate) fn enter(&mut self) -> Result<u64, EnterFault>
        ensures state { self.new ≡ (enter_in self.old.phase self.old).state }
        ensures answer { result ≡ (enter_in self.old.phase self.old).answer }
    {
        if !matches!(self.phase, Phase::Waiting) {
            return Err(EnterFault::NotWaiting);
        }
        if !self.holds_all() {
            return Err(EnterFault::NotGranted);
        }
        if self.top >= self.limit {
            return Err(EnterFault::NumbersSpent);
        }
        self.top += 1;
        self.mine = self.top;
        self.phase = Phase::Inside(self.top);
        let none_remembered = [None; MAX_NODES as usize];
        self.remembered = none_remembered;
        Ok(self.top)
    }

    pub(crate) fn leave(&mut self, out: &mut Outbox<MaekawaMsg>) -> Result<u64, LeaveFault>
        requires { out.old ≡ [] }
        ensures state { self.new ≡ (leave_in self.old.phase self.old).state }
        ensures answer { result ≡ (leave_in self.old.phase self.old).answer }
        ensures letters { out.new ≡ (leave_in self.old.phase self.old).letters }
    {
        let Phase::Inside(number) = self.phase else {
            return Err(LeaveFault::NotInside);
        };
        self.end_request(out);
        Ok(number)
    }

    pub(crate) fn cancel(&mut self, out: &mut Outbox<MaekawaMsg>) -> Result<(), CancelFault>
        requires { out.old ≡ [] }
        ensures state { self.new ≡ (cancel_in self.old.phase self.old).state }
        ensures answer { result ≡ (cancel_in self.old.phase self.old).answer }
        ensures letters { out.new ≡ (cancel_in self.old.phase self.old).letters }
    {
        if !matches!(self.phase, Phase::Waiting) {
            return Err(CancelFault::NotWaiting);
        }
        self.end_request(out);
        Ok(())
    }

    fn end_request(&mut self, out: &mut Outbox<MaekawaMsg>)
        requires { out.old ≡ [] }
        ensures state { self.new ≡ (ended self.old).state }
        ensures letters { out.new ≡ (ended self.old).letters }
    {
        self.send_own(&MaekawaMsg::Release(self.ours, self.top), out);
        self.phase = Phase::Idle;
        let no_grants = [None; MAX_NODES as usize];
        self.held = no_grants;
        let no_failures = [false; MAX_NODES as usize];
        self.failed = no_failures;
        let no_inquiries = [None; MAX_NODES as usize];
        self.remembered = no_inquiries;
    }

    pub(crate) fn tick(&self, out: &mut Outbox<MaekawaMsg>)
        requires { out.old ≡ [] }
        ensures letters { out.new ≡ request_again self.now }
        ensures room { length out.new ≤ MAX_NODES }
    {
        if matches!(self.phase, Phase::Waiting) {
            self.send_missing(&MaekawaMsg::Request(self.ours), out);
        }
    }
}
