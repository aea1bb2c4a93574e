//! One node, with its seat at the table, and its own parcels and receipts.

ghost use Rattle.std.specs.Prelude.{◌≡◌, ◌<◌, ◌≤◌, length};
ghost use Rattle.mx_nodelaws.specs.Core.{BearsNumber};
ghost use Rattle.mx_registers.specs.Based.{registers_in};
ghost use Rattle.mx_registers.specs.Registers.{value_in};

use crate::field::{Field, SeatOf};
use crate::node_set::NodeSet;
use crate::queue::{WAITING_ROOM, Waiting};
use mx_journal::{Journal, Receipt};
use mx_letters::Outbox;
use mx_member::{Member, Parcel};
use mx_nodelaws::{Exclusion, Phase};
use mx_stamps::{MAX_NODES, MAX_SECTIONS, NodeId};
use std::alloc::Global;
use std::marker::Model;
use std::sync::Arc;

/// A node of a cluster, as a value that a thread may own. At most 64 of its parcels wait to be put
/// out; further ones are lost, as in a network.
#[derive(Drop)]
pub struct Station<C: Exclusion> {
    pub(crate) field: Arc<Field<C>, Global>,
    pub(crate) seat: SeatOf<C>,
    pub(crate) node: NodeId,
    pub(crate) member: Member<C>,
    /// The parcel that was taken but not delivered yet, with its sender.
    pub(crate) hand: Option<(NodeId, Parcel<C::Msg>)>,
    pub(crate) receipts: Vec<Receipt>,
    /// The parcels of one act before they join the waiting ones.
    pub(crate) out: Outbox<Parcel<C::Msg>>,
    pub(crate) waiting: Waiting<C::Msg>,
    /// The nodes for which parcels were put out since the last turn began.
    pub(crate) put_to: NodeSet,
    /// The nodes whose parcels were taken since the last turn began.
    pub(crate) took_from: NodeSet,
}

impl<C: Exclusion> Model for Station<C> {
    ghost use Rattle.std.specs.Prelude.{◌≡◌, ◌<◌, [], ◌∷◌};
    ghost use Rattle.std.specs.Arc.{arc_value};
    ghost use Rattle.mx_member.specs.Member.{MemberState};
    ghost use Rattle.mx_member.specs.declared.parcel.Parcel.{Parcel};
    ghost use Rattle.mx_stations.specs.Posts.{Post, Waits, post, sent_in, shown};

    ghost Value = { Post (MemberState C) (Parcel C.Msg) };

    ghost view = { λ s. post s.seat.table_id (arc_value s.field).nodes
        (shown s.node s.member s.hand s.receipts.items s.seat.me.0) s.waiting.items };

    ghost invariant = { λ s. (s.seat.table_id ≡ (arc_value s.field).board.shared.table_id)
        × (s.seat.me ≡ (shown s.node s.member s.hand s.receipts.items s.seat.me.0 ∷ [], []))
        × (s.node < (arc_value s.field).nodes)
        × Waits (arc_value s.field).nodes (sent_in s.seat.me.0) s.waiting.items };
}

impl<C: Exclusion> Station<C> {
    /// Returns the node of this station.
    pub fn node(&self) -> NodeId
        ensures value { result ≡ self.now.me.node }
        ensures within { result < self.now.nodes }
    {
        self.node
    }

    /// Returns the number of nodes.
    pub fn nodes(&self) -> u8
        ensures value { result ≡ self.now.nodes }
        ensures few { result ≤ MAX_NODES }
    {
        self.field.nodes
    }

    /// Returns the phase of the node.
    pub fn phase(&self) -> Phase
        ensures value { result ≡ C.core.phase self.now.me.member.core }
        ensures numbered { BearsNumber result }
    {
        self.member.phase()
    }

    /// Returns whether the node waits and has every permission for its current request.
    pub fn can_enter(&self) -> bool
        ensures { result ≡ C.core.can_enter self.now.me.member.core }
    {
        self.member.can_enter()
    }

    /// Returns the number of the last section that this node entered, or 0 before the first.
    pub fn mine(&self) -> u64
        ensures value { result ≡ C.core.mine self.now.me.member.core }
        ensures high { result ≤ MAX_SECTIONS }
    {
        self.member.mine()
    }

    /// Returns the journal of the sections that this node knows.
    pub fn journal(&self) -> &Journal
        ensures { result.now ≡ self.now.me.member.journal }
    {
        self.member.journal()
    }

    /// Returns the value of a register after the sections that this node knows; it may lack earlier
    /// ones among them. Returns `None` if there is no such register.
    pub fn value(&self, register: u8) -> Option<u64>
        ensures { result ≡ value_in register
            (registers_in self.now.me.member.setting.registers self.now.me.member.journal) }
    {
        self.member.value(register)
    }

    /// Returns the receipts of the sections that this node left, in order.
    pub fn receipts(&self) -> &[Receipt]
        ensures { result.now ≡ self.now.me.receipts }
    {
        self.receipts.as_slice()
    }

    /// Returns the number of parcels that wait to be put out.
    pub fn waits(&self) -> usize
        ensures count { result ≡ length self.now.waiting }
        ensures few { result ≤ WAITING_ROOM }
    {
        self.waiting.len()
    }
}
