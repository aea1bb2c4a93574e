//! What the stations of one table show about its nodes. These calls read a word of the table and
//! change nothing; the proof learns from the read what the rule of the table says about the nodes.

ghost use Rattle.std.specs.Prelude.{◌≡◌, ◌≢◌, ◌%◌, ◌<◌, ◌++◌, [], ◌∷◌, length, map};
ghost use Rattle.mx_journal.specs.Settled.{DoAgree};
ghost use Rattle.mx_nodelaws.specs.Core.{IsInside};
ghost use Rattle.mx_stations.specs.Entries.{Node};
ghost use Rattle.mx_stations.specs.Gathered.{OfOneTable, me_of, nodes_in};
ghost use Rattle.mx_stations.specs.Running.{word_of};
ghost use Rattle.mx_stations.specs.Together.{HoldsSent, RunTogether, ShowsNode};

use crate::field::{Field, SeatOf};
use crate::next::OfCount;
use crate::rule::{HandOn, Knowledge, Slot, TakeIn};
use crate::station::Station;
use atomic_table::Play;
use mx_nodelaws::Exclusion;
use mx_stamps::NodeId;
use std::marker::{Brand, PhantomData};

/// A read of a node's status word.
pub struct Sees<C, N> {
    of: PhantomData<(C, N)>,
}

impl<C: Exclusion, N: OfCount> Play<Slot<C>, Knowledge<C>> for Sees<C, N> {
    ghost then = { λ step before found now. (now ≡ before)
        × ShowsNode C.core C.Good N.count step.word found now.0 };
}

fn see_as<C: Exclusion, N: OfCount>(field: &Field<C>, seat: &mut SeatOf<C>, node: u8) -> u64
    requires table { seat.old.table_id ≡ field.now.board.shared.table_id }
    requires within { node < field.now.nodes }
    requires count { N.count ≡ field.now.nodes }
    ensures same { (seat.new.table_id ≡ seat.old.table_id) × (seat.new.me ≡ seat.old.me) }
    ensures seen { ShowsNode C.core C.Good field.now.nodes node result seat.old.me.0 }
{
    field.board.shared.load::<Sees<C, N>>(seat, node as usize)
}

/// Reads a status word. The proof learns from this step that the nodes of the seat are nodes of one
/// running cluster.
pub(crate) fn see<C: Exclusion>(field: &Field<C>, seat: &mut SeatOf<C>, node: u8) -> u64
    requires table { seat.old.table_id ≡ field.now.board.shared.table_id }
    requires within { node < field.now.nodes }
    ensures same { (seat.new.table_id ≡ seat.old.table_id) × (seat.new.me ≡ seat.old.me) }
    ensures seen { ShowsNode C.core C.Good field.now.nodes node result seat.old.me.0 }
{
    see_as::<C, Brand>(field, seat, node)
}

/// Joins two seats, of one node each, for the read of a word, and splits them again. The proof
/// learns from the read that both are nodes of one running cluster.
fn see_both<C: Exclusion>(field: &Field<C>, one: &mut SeatOf<C>, other: &mut SeatOf<C>)
    requires table { one.old.table_id ≡ field.now.board.shared.table_id }
    requires same_table { other.old.table_id ≡ one.old.table_id }
    requires one { (e : Node C C.Msg) × (one.old.me ≡ (e ∷ [], [])) }
    requires other { (e : Node C C.Msg) × (other.old.me ≡ (e ∷ [], [])) }
    ensures one { (one.new.table_id ≡ one.old.table_id) × (one.new.me ≡ one.old.me) }
    ensures other { (other.new.table_id ≡ other.old.table_id) × (other.new.me ≡ other.old.me) }
    ensures seen { RunTogether C.core C.Good field.now.nodes (one.old.me.0 ++ other.old.me.0) }
{
    let shared = &field.board.shared;
    let mine = shared.split_seat::<HandOn>(one);
    shared.join_seat::<TakeIn>(other, mine);
    see(field, other, 0);
    let mine = shared.split_seat::<HandOn>(other);
    shared.join_seat::<TakeIn>(one, mine);
}

/// Joins all seats of a table into one, which knows all nodes of the cluster.
pub(crate) fn join_all<C: Exclusion>(mut stations: Vec<Station<C>>)
    requires one { OfOneTable stations.items }
    requires some { 0 < length stations.items }
    ensures { RunTogether C.core C.Good (nodes_in stations.items) (map me_of stations.items) }
{
    let Some(last) = stations.pop() else {
        unreachable!();
    };
    let Station {
        field,
        mut seat,
        ..
    } = last;
    while let Some(next) = stations.pop() {
        let Station { seat: other, .. } = next;
        field.board.shared.join_seat::<TakeIn>(&mut seat, other);
    }
    see(&field, &mut seat, 0);
}

impl<C: Exclusion> Station<C> {
    /// Returns the status word of a node: twice the number of the last section that it entered, and
    /// one more while it is inside.
    pub fn status(&mut self, node: NodeId) -> u64
        requires { node < self.old.nodes }
        ensures same { self.new ≡ self.old }
        ensures shows { ShowsNode C.core C.Good self.old.nodes node result (self.old.me ∷ []) }
        ensures own { node ≡ self.old.me.node → result ≡ word_of C.core self.old.me.member }
        ensures alone { IsInside C.core self.old.me.member.core → node ≢ self.old.me.node
            → result % 2 ≡ 0 }
    {
        see(&self.field, &mut self.seat, node.get())
    }

    /// Shows to the caller's proof that two stations of one table are different nodes of one
    /// cluster, and not both inside. Changes nothing.
    pub fn apart(&mut self, other: &mut Station<C>)
        requires { self.old.table ≡ other.old.table }
        ensures same { (self.new ≡ self.old) × (other.new ≡ other.old) }
        ensures runs { RunTogether C.core C.Good self.old.nodes
            (self.old.me ∷ other.old.me ∷ []) }
        ensures differ { self.old.me.node ≢ other.old.me.node }
        ensures alone { IsInside C.core self.old.me.member.core
            → IsInside C.core other.old.me.member.core → ⊥ }
        ensures words { word_of C.core self.old.me.member % 2 ≡ 1
            → word_of C.core other.old.me.member % 2 ≡ 1 → ⊥ }
        ensures agreed { DoAgree self.old.me.member.journal other.old.me.member.journal }
        ensures held { HoldsSent self.old.me other.old.me × HoldsSent other.old.me self.old.me }
    {
        see_both(&self.field, &mut self.seat, &mut other.seat);
    }
}
