//! The table that the stations of a cluster share, and the atomic step by which a station publishes
//! an act.

ghost use Rattle.std.specs.Prelude.{◌≡◌, ◌+◌, ◌*◌, ◌<◌, ◌≤◌, ◌∷◌, []};
ghost use Rattle.mx_stamps.specs.declared.limits.TheConstants.{MAX_NODES};
ghost use Rattle.mx_stations.specs.declared.slots.TheConstants.{SLOTS};
ghost use Rattle.mx_stations.specs.Entries.{Node};
ghost use Rattle.mx_stations.specs.Running.{DidAct, GoToNodes, acted_view, word_of};

use crate::next::{Becomes, Next};
use crate::rule::{Knowledge, Law, Setup, Slot};
use atomic_table::{Seat, Table};
use mx_journal::Receipt;
use mx_letters::Outbox;
use mx_member::{Member, Parcel};
use mx_nodelaws::{Exclusion, Phase};
use mx_stamps::NodeId;
use std::alloc::Global;
use std::marker::Brand;

/// The seat of one station: its handle of the shared table.
pub type SeatOf<C> = Seat<Slot<C>, Knowledge<C>>;

/// The table that the stations of a cluster share. It has a status word for each node and, for each
/// link from one node to another or to itself, four slots with a word each.
#[derive(Drop)]
pub struct Field<C: Exclusion> {
    pub(crate) board: Table<Slot<C>, Knowledge<C>, Setup<C::Shape>, Law<C>, Global>,
    pub(crate) nodes: u8,
    ghost key: { board.shared.key.nodes ≡ nodes },
    ghost words: { board.shared.table_id.words ≡ nodes + nodes * nodes * SLOTS },
    ghost slots: { board.shared.table_id.slots ≡ nodes * nodes * SLOTS },
    ghost some: { 0 < nodes },
    ghost few: { nodes ≤ MAX_NODES },
}

fn status_of<C: Exclusion>(member: &Member<C>) -> u64
    ensures { result ≡ word_of C.core member.now }
{
    let mine = member.mine();
    match member.phase() {
        Phase::Inside(_) => 2 * mine + 1,
        Phase::Idle | Phase::Waiting => 2 * mine,
    }
}

fn store_as<C: Exclusion, N: Next<Knowledge<C>>>(
    field: &Field<C>,
    seat: &mut SeatOf<C>,
    node: NodeId,
    member: &Member<C>,
    out: &Outbox<Parcel<C::Msg>>,
    hand: &Option<(NodeId, Parcel<C::Msg>)>,
    receipts: &Vec<Receipt>,
)
    requires table { seat.old.table_id ≡ field.now.board.shared.table_id }
    requires alone { seat.old.me.1 ≡ [] }
    requires within { node < field.now.nodes }
    requires node { (e : Node C C.Msg) × (seat.old.me.0 ≡ e ∷ []) × (e.node ≡ node) }
    requires act { DidAct C.core field.now.nodes seat.old.me.0 member.now out.now hand.now
        receipts.now.items }
    requires next { N.after seat.old.me.0
        ≡ acted_view seat.old.me.0 member.now out.now hand.now receipts.now.items }
    requires count { N.count ≡ field.now.nodes }
    ensures same { (seat.new.table_id ≡ seat.old.table_id) × (seat.new.id ≡ seat.old.id) }
    ensures view { seat.new.me
        ≡ (acted_view seat.old.me.0 member.now out.now hand.now receipts.now.items, []) }
    ensures sent { GoToNodes field.now.nodes seat.new.me.0 }
{
    let new = status_of(member);
    field
        .board
        .shared
        .store::<Becomes<N>>(seat, node.get() as usize, new);
}

/// Publishes an act that the member has made: stores the node's new status word, by one atomic
/// step. The seat has this node alone. Only the proof uses `out` (the parcels that the act sent),
/// `hand` (the parcel taken but not delivered yet, with its sender) and `receipts`, each as it is
/// after the act.
pub(crate) fn act<C: Exclusion>(
    field: &Field<C>,
    seat: &mut SeatOf<C>,
    node: NodeId,
    member: &Member<C>,
    out: &Outbox<Parcel<C::Msg>>,
    hand: &Option<(NodeId, Parcel<C::Msg>)>,
    receipts: &Vec<Receipt>,
)
    requires table { seat.old.table_id ≡ field.now.board.shared.table_id }
    requires alone { seat.old.me.1 ≡ [] }
    requires within { node < field.now.nodes }
    requires node { (e : Node C C.Msg) × (seat.old.me.0 ≡ e ∷ []) × (e.node ≡ node) }
    requires act { DidAct C.core field.now.nodes seat.old.me.0 member.now out.now hand.now
        receipts.now.items }
    ensures same { (seat.new.table_id ≡ seat.old.table_id) × (seat.new.id ≡ seat.old.id) }
    ensures view { seat.new.me
        ≡ (acted_view seat.old.me.0 member.now out.now hand.now receipts.now.items, []) }
    ensures sent { GoToNodes field.now.nodes seat.new.me.0 }
{
    store_as::<C, Brand>(field, seat, node, member, out, hand, receipts);
}
