//! A node, and the rows of its step table.

ghost use Rattle.std.specs.Prelude.{◌≡◌, ◌≤◌, []};
ghost use Rattle.mx_ricart.specs.Step.{later_of};

use crate::count::Count;
use mx_letters::{Outbox, RicartMsg};
use mx_nodelaws::Phase;
use mx_stamps::{Clock, MAX_NODES, NodeId, Stamp};
use std::marker::Model;

/// A node of Ricart and Agrawala's algorithm. Its calls are those of `Exclusion`. Names in capitals
/// are the publication's.
#[derive(Drop)]
pub struct Ricart {
    /// The node itself (ME).
    pub(crate) me: NodeId,
    /// The number of nodes in the cluster (N).
    pub(crate) count: Count,
    /// The greatest section number, from 1 to 1,000,000. Added to the publication.
    pub(crate) limit: u64,
    /// Idle, waiting for replies, or inside a section. Requesting_Critical_Section is true in the
    /// last two.
    pub(crate) phase: Phase,
    /// The highest stamp number that the node has drawn or has seen in a request; the origin at the
    /// start (Highest_Sequence_Number). In the publication its own requests do not raise it.
    pub(crate) highest: Clock,
    /// The stamp of the node's latest request (Our_Sequence_Number, with ME). It is current while
    /// the node waits or is inside; while the node is idle no rule reads it.
    pub(crate) ours: Stamp,
    /// For each node, whether its reply to the current request has counted. The publication counts
    /// down Outstanding_Reply_Count instead; here a reply may come twice.
    pub(crate) got: [bool; MAX_NODES as usize],
    /// For each node, the stamp of its deferred request, to which this node replies when it leaves
    /// (Reply_Deferred, a Boolean there). All are `None` while the node is idle.
    pub(crate) deferred: [Option<Stamp>; MAX_NODES as usize],
    /// The highest section number that the node knows, from its own sections and from the replies
    /// that counted; 0 at the start. Added to the publication.
    pub(crate) top: u64,
    /// The number of the last section that the node entered, or 0 before the first. Added to the
    /// publication.
    pub(crate) mine: u64,
}

impl Model for Ricart {
    ghost use Rattle.std.specs.Prelude.{◌≤◌};
    ghost use Rattle.mx_stamps.specs.declared.limits.TheConstants.{MAX_SECTIONS};
    ghost use Rattle.mx_nodelaws.specs.Core.{BearsNumber};
    ghost use Rattle.mx_ricart.specs.Node.{Node};

    ghost Value = { Node };

    ghost view = { λ r. record {
      me = r.me;
      count = r.count;
      limit = r.limit;
      phase = r.phase;
      highest = r.highest;
      ours = r.ours;
      got = r.got;
      deferred = r.deferred;
      top = r.top;
      mine = r.mine;
    } };

    ghost invariant = { λ r. (r.mine ≤ MAX_SECTIONS) × (r.limit ≤ MAX_SECTIONS)
        × BearsNumber r.phase };
}

impl Ricart {
    ghost use Rattle.std.specs.Prelude.{◌≡◌, ◌↔◌, [], IsTrue};
    ghost use Rattle.mx_nodelaws.specs.World.{addressed};
    ghost use Rattle.mx_nodelaws.specs.Phases.{is_busy};
    ghost use Rattle.mx_ricart.specs.Step.{is_other, HasAllReplies, has_all_replies, request_others, request_missing, reply_deferred, ended, take_request, take_reply};

    pub(crate) fn is_other(&self, node: NodeId) -> bool
        ensures { result ≡ is_other self.now node }
    {
        node.get() < self.count.get() && node.get() != self.me.get()
    }

    fn is_busy(&self) -> bool
        ensures { result ≡ is_busy self.now.phase }
    {
        !matches!(self.phase, Phase::Idle)
    }

    pub(crate) fn has_all_replies(&self) -> bool
        ensures value { result ≡ has_all_replies self.now }
        ensures all { IsTrue result ↔ HasAllReplies self.now }
    {
        let mut all = true;
        for i in 0..self.count.get() {
            if i != self.me.get() && !self.got[i as usize] {
                all = false;
            }
        }
        all
    }

    pub(crate) fn send_requests(&self, out: &mut Outbox<RicartMsg>)
        requires { out.old ≡ [] }
        ensures { out.new ≡ addressed (request_others self.now) self.now.count }
    {
        for i in 0..self.count.get() {
            if let Some(to) = NodeId::of(i) {
                if i != self.me.get() {
                    out.add(to, RicartMsg::Request(self.ours));
                }
            }
        }
    }

    pub(crate) fn send_missing(&self, out: &mut Outbox<RicartMsg>)
        requires { out.old ≡ [] }
        ensures { out.new ≡ addressed (request_missing self.now) self.now.count }
    {
        for i in 0..self.count.get() {
            if let Some(to) = NodeId::of(i) {
                if i != self.me.get() && !self.got[i as usize] {
                    out.add(to, RicartMsg::Request(self.ours));
                }
            }
        }
    }

    fn send_replies(&self, out: &mut Outbox<RicartMsg>)
        requires { out.old ≡ [] }
        ensures { out.new ≡ addressed (reply_deferred self.now) self.now.count }
    {
        for i in 0..self.count.get() {
            if let Some(to) = NodeId::of(i) {
                if let Some(stamp) = self.deferred[i as usize] {
                    out.add(to, RicartMsg::Reply(stamp, self.top));
                }
            }
        }
    }

    pub(crate) fn end_request(&mut self, out: &mut Outbox<RicartMsg>)
        requires { out.old ≡ [] }
        ensures state { self.new ≡ (ended self.old).state }
        ensures letters { out.new ≡ (ended self.old).letters }
    {
        self.send_replies(out);
        self.phase = Phase::Idle;
        let none = [None; MAX_NODES as usize];
        self.deferred = none;
    }

    /// Takes a request of another node. Its reply is deferred if this node's own request is current
    /// and comes first in the order of stamps.
    pub(crate) fn take_request(&mut self, stamp: Stamp, out: &mut Outbox<RicartMsg>)
        requires { out.old ≡ [] }
        ensures state { self.new ≡ (take_request self.old stamp).state }
        ensures letters { out.new ≡ (take_request self.old stamp).letters }
    {
        let from = stamp.node;
        self.highest.see(stamp.number);
        if self.is_busy() && self.ours.is_before(&stamp) {
            let index = from.get() as usize;
            self.deferred[index] = Some(later(&self.deferred[index], stamp));
        } else {
            out.add(from, RicartMsg::Reply(stamp, self.top));
        }
    }

    /// Takes a reply of another node. It counts once, and only for the current stamp.
    pub(crate) fn take_reply(&mut self, from: NodeId, stamp: Stamp, top: u64)
        ensures { self.new ≡ (take_reply self.old from stamp top).state }
    {
        let index = from.get() as usize;
        if matches!(self.phase, Phase::Waiting) && stamp.is(&self.ours) && !self.got[index] {
            self.got[index] = true;
            self.top = self.top.max(top);
        }
    }
}

fn later(waiting: &Option<Stamp>, stamp: Stamp) -> Stamp
    ensures { result ≡ later_of waiting.now stamp }
{
    match *waiting {
        Some(old) => { if old.is_before(&stamp) { stamp } else { old } }
        None => stamp,
    }
}
