//! A node as an arbiter: the request that it is locked for, the requests that wait, and the
//! arbiter's rows of the step table.

use crate::lock::{Lock, is_exactly, is_for, is_up_to, stamp_of};
use crate::wait_list::{drop_up_to, is_below, is_later, lesser, or_else};
use mx_letters::{MaekawaMsg, Outbox};
use mx_stamps::{MAX_NODES, NodeId, Stamp};
use std::marker::Model;

mod knowledge;

#[derive(Drop)]
pub(crate) struct Arbiter {
    count: u8,
    /// The request that this arbiter is locked for, from its grant until the grant is given back
    /// (RELINQUISH) or the request is released (RELEASE). `None` while the arbiter is not locked.
    lock: Option<Lock>,
    /// The number of the latest grant, or the origin before the first. Added to the publication:
    /// grants are numbered.
    granted: u64,
    /// For each node, its request that waits for a grant (the waiting queue). The least stamp is
    /// granted first.
    waiting: [Option<Stamp>; MAX_NODES as usize],
    /// For each node, the greatest stamp number that it has released, or the origin before the
    /// first. Added to the publication: a request up to that number is an old one.
    ended: [u64; MAX_NODES as usize],
    /// The highest section number received in a release, or 0 before the first. Added to the
    /// publication.
    last: u64,
}

impl Model for Arbiter {
    ghost use Rattle.std.specs.Prelude.{◌≤◌};
    ghost use Rattle.mx_stamps.specs.declared.limits.TheConstants.{MAX_NODES};
    ghost use Rattle.mx_maekawa.specs.Node.{ArbiterState};

    ghost Value = { ArbiterState };

    ghost view = { λ a. record {
      count = a.count;
      lock = a.lock;
      granted = a.granted;
      waiting = a.waiting;
      ended = a.ended;
      last = a.last;
    } };

    ghost invariant = { λ a. a.count ≤ MAX_NODES };
}

impl Arbiter {
    ghost use Rattle.std.specs.Prelude.{◌≡◌, ◌≤◌, ◌<◌, [], ◌++◌, length, Some};
    ghost use Rattle.mx_stamps.specs.declared.limits.TheConstants.{MAX_NODES};
    ghost use Rattle.mx_maekawa.specs.ArbiterStep.{start_arbiter, waiting_at, others_at, IsLeastOf, least_of, lock_letter, grant_to, grant, rank, queue, take_request, take_relinquish, take_release};

    pub(crate) fn start(count: u8, origin: u64) -> Self
        requires { count ≤ MAX_NODES }
        ensures { result ≡ start_arbiter count origin }
    {
        Arbiter {
            count,
            lock: None,
            granted: origin,
            waiting: [None; MAX_NODES as usize],
            ended: [origin; MAX_NODES as usize],
            last: 0,
        }
    }

    fn least(&self) -> Option<Stamp>
        ensures value { result ≡ least_of (waiting_at self.now) self.now.count }
        ensures least { IsLeastOf (waiting_at self.now) self.now.count result }
    {
        let mut least = None;
        for i in 0..self.count {
            least = lesser(&least, &self.waiting[i as usize]);
        }
        least
    }

    fn least_but(&self, but: NodeId) -> Option<Stamp>
        ensures value { result ≡ least_of (others_at self.now but) self.now.count }
        ensures least { IsLeastOf (others_at self.now but) self.now.count result }
    {
        let mut least = None;
        for i in 0..self.count {
            if i != but.get() {
                least = lesser(&least, &self.waiting[i as usize]);
            }
        }
        least
    }

    fn lock_for(&mut self, stamp: &Stamp, out: &mut Outbox<MaekawaMsg>)
        requires { out.old ≡ [] }
        ensures state { self.new ≡ (grant_to (Some stamp.now) self.old).state }
        ensures letters { out.new ≡ (grant_to (Some stamp.now) self.old).letters }
    {
        if self.granted < u64::MAX {
            self.waiting[stamp.node.get() as usize] = None;
            self.granted += 1;
            let lock = Lock {
                stamp: *stamp,
                grant: self.granted,
                last: self.last,
            };
            self.lock = Some(lock);
            out.add(
                stamp.node,
                MaekawaMsg::Locked(*stamp, self.granted, self.last),
            );
        }
    }

    fn grant(&mut self, out: &mut Outbox<MaekawaMsg>)
        requires { out.old ≡ [] }
        ensures state { self.new ≡ (grant self.old).state }
        ensures letters { out.new ≡ (grant self.old).letters }
    {
        if self.lock.is_none() {
            if let Some(stamp) = self.least() {
                self.lock_for(&stamp, out);
            }
        }
    }

    /// Ranks a request that has to wait. Sends FAILED if another request comes first, and otherwise
    /// asks for the lock's grant back.
    fn rank(&self, lock: &Lock, stamp: &Stamp, out: &mut Outbox<MaekawaMsg>)
        requires { out.old ≡ [] }
        ensures { out.new ≡ (rank lock.now stamp.now self.now).letters }
    {
        let other = self.least_but(stamp.node);
        if lock.stamp.node.get() == stamp.node.get() {
            out.add(stamp.node, MaekawaMsg::Inquire(lock.stamp, lock.grant));
        } else if lock.stamp.is_before(stamp) || is_below(&other, stamp) {
            out.add(stamp.node, MaekawaMsg::Failed(*stamp));
        } else {
            out.add(lock.stamp.node, MaekawaMsg::Inquire(lock.stamp, lock.grant));
            if let Some(least) = other {
                out.add(least.node, MaekawaMsg::Failed(least));
            }
        }
    }

    fn queue(&mut self, stamp: &Stamp, out: &mut Outbox<MaekawaMsg>)
        requires { out.old ≡ [] }
        ensures state { self.new ≡ (queue self.old.lock stamp.now self.old).state }
        ensures letters { out.new ≡ (queue self.old.lock stamp.now self.old).letters }
    {
        self.waiting[stamp.node.get() as usize] = Some(*stamp);
        match self.lock {
            None => self.grant(out),
            Some(lock) => self.rank(&lock, stamp, out),
        }
    }

    fn send_lock(&self, out: &mut Outbox<MaekawaMsg>)
        requires { length out.old ≤ MAX_NODES }
        ensures { out.new ≡ out.old ++ lock_letter self.now.lock }
    {
        if let Some(lock) = &self.lock {
            out.add(
                lock.stamp.node,
                MaekawaMsg::Locked(lock.stamp, lock.grant, lock.last),
            );
        }
    }

    pub(crate) fn take_request(&mut self, stamp: &Stamp, out: &mut Outbox<MaekawaMsg>)
        requires { out.old ≡ [] }
        ensures state { self.new ≡ (take_request stamp.now self.old).state }
        ensures letters { out.new ≡ (take_request stamp.now self.old).letters }
    {
        let index = stamp.node.get() as usize;
        if stamp.number <= self.ended[index] {
            return;
        }
        if is_for(&self.lock, stamp) {
            self.send_lock(out);
            return;
        }
        if is_later(&stamp_of(&self.lock), stamp) || is_later(&self.waiting[index], stamp) {
            return;
        }
        self.queue(stamp, out);
    }

    /// Takes a RELINQUISH: the stamp's node gives this grant back.
    pub(crate) fn take_relinquish(
        &mut self,
        stamp: &Stamp,
        grant: u64,
        out: &mut Outbox<MaekawaMsg>,
    )
        requires { out.old ≡ [] }
        ensures state { self.new ≡ (take_relinquish stamp.now grant self.old).state }
        ensures letters { out.new ≡ (take_relinquish stamp.now grant self.old).letters }
    {
        if is_exactly(&self.lock, stamp, grant) {
            let index = stamp.node.get() as usize;
            self.lock = None;
            self.waiting[index] = or_else(&self.waiting[index], stamp);
            self.grant(out);
        }
    }

    /// Takes a RELEASE: the stamp's node has ended its requests up to this one.
    pub(crate) fn take_release(&mut self, stamp: &Stamp, top: u64, out: &mut Outbox<MaekawaMsg>)
        requires { out.old ≡ [] }
        ensures state { self.new ≡ (take_release stamp.now top self.old).state }
        ensures letters { out.new ≡ (take_release stamp.now top self.old).letters }
    {
        let index = stamp.node.get() as usize;
        self.last = self.last.max(top);
        self.ended[index] = self.ended[index].max(stamp.number);
        self.waiting[index] = drop_up_to(&self.waiting[index], stamp.number);
        if is_up_to(&self.lock, stamp) {
            self.lock = None;
            self.grant(out);
        }
    }

    pub(crate) fn tick(&self, out: &mut Outbox<MaekawaMsg>)
        requires { length out.old ≤ MAX_NODES }
        ensures { out.new ≡ out.old ++ lock_letter self.now.lock }
    {
        self.send_lock(out);
    }
}
