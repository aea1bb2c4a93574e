//! The letters that a requester takes from its arbiters.

use super::Requester;
use mx_letters::{MaekawaMsg, Outbox};
use mx_nodelaws::Phase;
use mx_stamps::{NodeId, Stamp};

impl Requester {
    ghost use Rattle.std.specs.Prelude.{◌≡◌, ◌+◌, ◌≤◌, ◌<◌, ◌↔◌, [], ◌++◌, length, IsTrue};
    ghost use Rattle.mx_letters.specs.declared.outbox.TheConstants.{OUTBOX_ROOM};
    ghost use Rattle.mx_maekawa.specs.RequesterStep.{HasFailed, has_failed_below, is_current_wait, has_ended, give_remembered, fail, release_ended, take_locked, take_failed, inquired_held, take_inquire};

    /// Returns whether some arbiter counts as failed: the node cannot enter before that arbiter
    /// grants again.
    fn has_failed(&self) -> bool
        ensures value { result ≡ has_failed_below self.now self.now.count }
        ensures some { IsTrue result ↔ HasFailed self.now }
    {
        let mut any = false;
        for i in 0..self.count {
            if self.failed[i as usize] {
                any = true;
            }
        }
        any
    }

    fn is_current_wait(&self, stamp: &Stamp) -> bool
        ensures { result ≡ is_current_wait self.now stamp.now }
    {
        matches!(self.phase, Phase::Waiting) && stamp.is(&self.ours)
    }

    fn has_ended(&self, stamp: &Stamp) -> bool
        ensures { result ≡ has_ended self.now stamp.now }
    {
        let is_current = !matches!(self.phase, Phase::Idle) && stamp.is(&self.ours);
        !is_current && stamp.number <= self.issued
    }

    fn give_remembered(&mut self, b: NodeId, out: &mut Outbox<MaekawaMsg>)
        requires { length out.old < OUTBOX_ROOM }
        ensures state { self.new ≡ (give_remembered b self.old).state }
        ensures letters { out.new ≡ out.old ++ (give_remembered b self.old).letters }
        ensures room { length out.new ≤ length out.old + 1 }
    {
        let index = b.get() as usize;
        if let Some(grant) = self.remembered[index] {
            out.add(b, MaekawaMsg::Relinquish(self.ours, grant));
            self.back[index] = grant;
            self.held[index] = None;
            self.remembered[index] = None;
            self.failed[index] = true;
        }
    }

    fn fail(&mut self, a: NodeId, out: &mut Outbox<MaekawaMsg>)
        requires { length out.old ≤ 1 }
        ensures state { self.new ≡ (fail a self.old).state }
        ensures letters { out.new ≡ out.old ++ (fail a self.old).letters }
    {
        self.failed[a.get() as usize] = true;
        for i in 0..self.count {
            if let Some(b) = NodeId::of(i) {
                self.give_remembered(b, out);
            }
        }
    }

    fn release_ended(&self, stamp: &Stamp, a: NodeId, out: &mut Outbox<MaekawaMsg>)
        requires { out.old ≡ [] }
        ensures { out.new ≡ (release_ended self.now stamp.now a).letters }
    {
        if self.has_ended(stamp) {
            out.add(a, MaekawaMsg::Release(*stamp, self.top));
        }
    }

    /// Takes a grant (LOCKED). A grant that was given back does not count again.
    pub(crate) fn take_locked(
        &mut self,
        a: NodeId,
        stamp: &Stamp,
        grant: u64,
        last: u64,
        out: &mut Outbox<MaekawaMsg>,
    )
        requires { out.old ≡ [] }
        ensures state { self.new ≡ (take_locked a stamp.now grant last self.old).state }
        ensures letters { out.new ≡ (take_locked a stamp.now grant last self.old).letters }
    {
        let index = a.get() as usize;
        if !self.is_current_wait(stamp) {
            self.release_ended(stamp, a, out);
        } else if self.held[index].is_none() {
            if grant > self.back[index] {
                self.held[index] = Some(grant);
                self.failed[index] = false;
                self.top = self.top.max(last);
            } else {
                out.add(a, MaekawaMsg::Relinquish(*stamp, grant));
            }
        }
    }

    pub(crate) fn take_failed(&mut self, a: NodeId, stamp: &Stamp, out: &mut Outbox<MaekawaMsg>)
        requires { out.old ≡ [] }
        ensures state { self.new ≡ (take_failed a stamp.now self.old).state }
        ensures letters { out.new ≡ (take_failed a stamp.now self.old).letters }
    {
        if self.is_current_wait(stamp) && !self.holds(a) {
            self.fail(a, out);
        }
    }

    pub(crate) fn take_inquire(
        &mut self,
        a: NodeId,
        stamp: &Stamp,
        grant: u64,
        out: &mut Outbox<MaekawaMsg>,
    )
        requires { out.old ≡ [] }
        ensures state { self.new ≡ (take_inquire a stamp.now grant self.old).state }
        ensures letters { out.new ≡ (take_inquire a stamp.now grant self.old).letters }
    {
        let index = a.get() as usize;
        if !self.is_current_wait(stamp) {
            self.release_ended(stamp, a, out);
            return;
        }
        match self.held[index] {
            None => {
                out.add(a, MaekawaMsg::Relinquish(*stamp, grant));
                self.back[index] = self.back[index].max(grant);
                self.fail(a, out);
            }
            Some(held) if held != grant => out.add(a, MaekawaMsg::Relinquish(*stamp, grant)),
            Some(_) => self.take_inquire_held(a, stamp, grant, out),
        }
    }

    /// Takes an INQUIRE for the grant that is held. Gives it back if some arbiter has failed, and
    /// otherwise remembers the inquiry.
    fn take_inquire_held(
        &mut self,
        a: NodeId,
        stamp: &Stamp,
        grant: u64,
        out: &mut Outbox<MaekawaMsg>,
    )
        requires { out.old ≡ [] }
        ensures state { self.new ≡ (inquired_held a stamp.now grant self.old).state }
        ensures letters { out.new ≡ (inquired_held a stamp.now grant self.old).letters }
    {
        let index = a.get() as usize;
        if self.has_failed() {
            out.add(a, MaekawaMsg::Relinquish(*stamp, grant));
            self.back[index] = grant;
            self.held[index] = None;
            self.failed[index] = true;
        } else {
            self.remembered[index] = Some(grant);
        }
    }
}
