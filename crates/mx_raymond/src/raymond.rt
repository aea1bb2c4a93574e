//! A node, and the rows of its step table.

ghost use Rattle.std.specs.Prelude.{◌≡◌, ◌≤◌, []};

use crate::queue::Queue;
use crate::unacked::Unacked;
use mx_letters::{Outbox, RaymondMsg};
use mx_nodelaws::Phase;
use mx_stamps::{MAX_NODES, NodeId};
use mx_trees::Tree;
use std::marker::Model;

/// A node of Raymond's algorithm. Its calls are those of `Exclusion`. Names in capitals are the
/// publication's.
#[derive(Drop)]
pub struct Raymond {
    /// The node itself (self).
    pub(crate) me: NodeId,
    /// The tree of the cluster, which determines the neighbours of each node.
    pub(crate) tree: Tree,
    /// The greatest section number, from 1 to 1,000,000. Added to the publication.
    pub(crate) limit: u64,
    /// Idle, waiting for the privilege, or inside a section. USING is true in the last.
    pub(crate) phase: Phase,
    /// The node itself while it has the privilege, and otherwise the neighbour in the direction of
    /// the privilege (HOLDER).
    pub(crate) holder: NodeId,
    /// The neighbours that want the privilege from this node, and the node itself while it waits,
    /// each once, the oldest first (REQUEST_Q).
    pub(crate) queue: Queue,
    /// Whether the node has sent a request to the holder, and has not had the privilege since
    /// (ASKED). The publication clears it when the privilege is used or passed on.
    pub(crate) has_asked: bool,
    /// The highest hop of a privilege that the node has sent or taken; the origin at the start.
    /// Added to the publication: a privilege up to this hop is an old one.
    pub(crate) hop: u64,
    /// The privilege that the node sent last, until its arrival is acknowledged or a newer
    /// privilege comes. Added to the publication, so that it can be sent again.
    pub(crate) unacked: Option<Unacked>,
    /// How many requests of this node for a section were accepted: the number of the latest stamp.
    /// Added to the publication.
    pub(crate) asks: u64,
    /// How many requests this node has sent to its holders. The latest, which has this number, is
    /// the one sent again. Added to the publication.
    pub(crate) sent: u64,
    /// For each neighbour, the highest number of its requests that were taken, or 0 before the
    /// first. Added to the publication: a request up to that number is an old one.
    pub(crate) heard: [u64; MAX_NODES as usize],
    /// The highest section number that the node knows, from its own sections and from the
    /// privileges that it took; 0 at the start. Added to the publication.
    pub(crate) top: u64,
    /// The number of the last section that the node entered, or 0 before the first. Added to the
    /// publication.
    pub(crate) mine: u64,
}

impl Model for Raymond {
    ghost use Rattle.mx_raymond.specs.Node.{Node, IsState};

    ghost Value = { Node };

    ghost view = { λ r. record {
      me = r.me;
      tree = r.tree;
      limit = r.limit;
      phase = r.phase;
      holder = r.holder;
      queue = r.queue;
      has_asked = r.has_asked;
      hop = r.hop;
      unacked = r.unacked;
      asks = r.asks;
      sent = r.sent;
      heard = r.heard;
      top = r.top;
      mine = r.mine;
    } };

    ghost invariant = { λ r. IsState (record {
      me = r.me;
      tree = r.tree;
      limit = r.limit;
      phase = r.phase;
      holder = r.holder;
      queue = r.queue;
      has_asked = r.has_asked;
      hop = r.hop;
      unacked = r.unacked;
      asks = r.asks;
      sent = r.sent;
      heard = r.heard;
      top = r.top;
      mine = r.mine;
    }) };
}

impl Raymond {
    ghost use Rattle.std.specs.Prelude.{◌≡◌, ◌+◌, ◌<◌, ◌≤◌, ◌≢◌, ◌↔◌, [], ◌++◌, length, IsTrue, true};
    ghost use Rattle.mx_letters.specs.declared.outbox.TheConstants.{OUTBOX_ROOM};
    ghost use Rattle.mx_raymond.specs.Step.{is_holder, HasPermission, has_permission, assign_privilege, make_request, withdrawing, privilege_again, request_again, is_neighbour, take_request, take_privilege, take_got};

    pub(crate) fn is_holder(&self) -> bool
        ensures { result ≡ is_holder self.now }
    {
        self.holder.get() == self.me.get()
    }

    pub(crate) fn has_permission(&self) -> bool
        ensures value { result ≡ has_permission self.now }
        ensures all { IsTrue result ↔ HasPermission self.now }
    {
        match self.queue.head() {
            Some(name) => self.is_holder() && name.get() == self.me.get(),
            None => false,
        }
    }

    /// Passes the privilege on to the head of the queue, if the node has it, is not inside, and the
    /// head is another node (Assign).
    fn assign_privilege(&mut self, out: &mut Outbox<RaymondMsg>)
        requires { length out.old < OUTBOX_ROOM }
        ensures state { self.new ≡ (assign_privilege self.old).state }
        ensures letters { out.new ≡ out.old ++ (assign_privilege self.old).letters }
        ensures few { length out.new ≤ length out.old + 1 }
    {
        let Some(next) = self.queue.head() else {
            return;
        };
        let is_inside = matches!(self.phase, Phase::Inside(_));
        if self.is_holder() && !is_inside && next.get() != self.me.get() && self.hop < u64::MAX {
            self.queue.remove_head();
            self.holder = next;
            self.has_asked = false;
            self.hop += 1;
            self.unacked = Some(Unacked {
                to: next,
                hop: self.hop,
                last: self.top,
            });
            out.add(next, RaymondMsg::Privilege(self.hop, self.top));
        }
    }

    /// Sends one request to the holder, if the node wants the privilege and does not have it
    /// (Make).
    fn make_request(&mut self, out: &mut Outbox<RaymondMsg>)
        requires { length out.old < OUTBOX_ROOM }
        ensures state { self.new ≡ (make_request self.old).state }
        ensures letters { out.new ≡ out.old ++ (make_request self.old).letters }
    {
        if !self.is_holder() && !self.queue.is_empty() && !self.has_asked && self.sent < u64::MAX {
            self.has_asked = true;
            self.sent += 1;
            out.add(self.holder, RaymondMsg::Request(self.sent));
        }
    }

    /// Passes the privilege on, and then sends a request (Assign, then Make).
    pub(crate) fn serve(&mut self, out: &mut Outbox<RaymondMsg>)
        requires { length out.old < 31 }
        ensures state { self.new ≡ (make_request (assign_privilege self.old).state).state }
        ensures letters { out.new ≡ (out.old ++ (assign_privilege self.old).letters)
            ++ (make_request (assign_privilege self.old).state).letters }
    {
        self.assign_privilege(out);
        self.make_request(out);
    }

    pub(crate) fn withdraw(&mut self)
        ensures { self.new ≡ withdrawing self.old }
    {
        self.queue.remove(self.me);
        self.phase = Phase::Idle;
    }

    pub(crate) fn send_again(&self, out: &mut Outbox<RaymondMsg>)
        requires { out.old ≡ [] }
        ensures letters { out.new ≡ privilege_again self.now.unacked }
        ensures few { length out.new ≤ 1 }
    {
        if let Some(unacked) = self.unacked {
            out.add(unacked.to, RaymondMsg::Privilege(unacked.hop, unacked.last));
        }
    }

    pub(crate) fn request_again(&self, out: &mut Outbox<RaymondMsg>)
        requires { length out.old < OUTBOX_ROOM }
        ensures { out.new ≡ out.old ++ request_again self.now }
    {
        if self.has_asked && !self.is_holder() {
            out.add(self.holder, RaymondMsg::Request(self.sent));
        }
    }

    pub(crate) fn is_neighbour(&self, node: NodeId) -> bool
        ensures value { result ≡ is_neighbour self.now node }
        ensures other { result ≡ true → node ≢ self.now.me }
    {
        self.tree.neighbours(self.me, node)
    }

    pub(crate) fn take_request(&mut self, from: NodeId, number: u64, out: &mut Outbox<RaymondMsg>)
        requires empty { out.old ≡ [] }
        requires other { from ≢ self.old.me }
        ensures state { self.new ≡ (take_request from number self.old).state }
        ensures letters { out.new ≡ (take_request from number self.old).letters }
    {
        if from.get() == self.holder.get() {
            self.send_again(out);
            return;
        }
        let index = from.get() as usize;
        if number > self.heard[index] {
            self.heard[index] = number;
            self.queue.join(from);
            self.serve(out);
        }
    }

    /// Takes a privilege from a neighbour. Acknowledges its arrival each time; it counts only if
    /// its hop is new.
    pub(crate) fn take_privilege(
        &mut self,
        from: NodeId,
        hop: u64,
        last: u64,
        out: &mut Outbox<RaymondMsg>,
    )
        requires { out.old ≡ [] }
        ensures state { self.new ≡ (take_privilege from hop last self.old).state }
        ensures letters { out.new ≡ (take_privilege from hop last self.old).letters }
    {
        out.add(from, RaymondMsg::Got(hop));
        if hop > self.hop {
            self.hop = hop;
            self.holder = self.me;
            self.has_asked = false;
            self.unacked = None;
            self.top = self.top.max(last);
            self.serve(out);
        }
    }

    pub(crate) fn take_got(&mut self, from: NodeId, hop: u64)
        ensures { self.new ≡ (take_got from hop self.old).state }
    {
        if let Some(unacked) = self.unacked {
            if unacked.to.get() == from.get() && unacked.hop == hop {
                self.unacked = None;
            }
        }
    }
}
