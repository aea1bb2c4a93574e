//! A turn of a station: it takes parcels in, puts waiting parcels out, and ticks if it took none
//! and none waits.

ghost use Rattle.std.specs.Prelude.{◌≡◌, ◌≢◌, ◌<◌, ◌≤◌, ◌==◌, ◌&&◌, [], ◌∷◌, IfOk, IfSome, List, MatchBool, MatchOption, None, OnErr, OnOk, Option, length};
ghost use Rattle.mx_letters.specs.declared.fates.Fate.{Fate as TheFate};
ghost use Rattle.mx_letters.specs.declared.fates.Fate.TheVariants.{Twice};
ghost use Rattle.mx_member.specs.declared.acts.Act.TheVariants.{Tick};
ghost use Rattle.mx_member.specs.declared.parcel.Parcel.{Parcel as OneParcel};
ghost use Rattle.mx_stations.specs.declared.answers.PutOut.{PutOut as ThePutOut};
ghost use Rattle.mx_stations.specs.Entries.{Node};
ghost use Rattle.mx_stations.specs.Links.{IsLinkAt, slot_in};
ghost use Rattle.mx_stations.specs.Posts.{FindsNone, does};
ghost use Rattle.mx_stations.specs.Slides.{HasTaken, releasing, taking};
ghost use Rattle.mx_stations.specs.Turns.{Goes, HoldsUnknown, IsFated, PutsEach, TakesEach, TakesFated, Turns, fated_hand, noted_all, noted_puts};

use crate::answers::{TakeFault, TurnReport};
use crate::field::{Field, SeatOf};
use crate::node_set::NodeSet;
use crate::slots::{Link, SLOTS, grab_filled, lift, release};
use crate::station::Station;
use mx_letters::{Fate, Fates};
use mx_member::Parcel;
use mx_nodelaws::Exclusion;
use mx_stamps::NodeId;
use std::marker::Brand;

fn hand_of<M: Copy + Default>(
    fate: Fate,
    from: NodeId,
    parcel: Parcel<M>,
) -> Option<(NodeId, Parcel<M>)>
    ensures { result ≡ fated_hand fate (from, parcel) }
{
    match fate {
        Fate::Drop => None,
        Fate::Pass | Fate::Twice => Some((from, parcel)),
    }
}

fn is_twice(fate: Fate) -> bool
    ensures { MatchBool result (fate ≡ Twice) (fate ≢ Twice) }
{
    matches!(fate, Fate::Twice)
}

/// A function of its own, so that a link without a parcel needs no room for one.
#[inline(never)]
fn lift_fated<C: Exclusion, A: FnOnce() -> Fate>(
    field: &Field<C>,
    seat: &mut SeatOf<C>,
    hand: &mut Option<(NodeId, Parcel<C::Msg>)>,
    link: &Link,
    index: u8,
    ask: A,
) -> Fate
    requires link { IsLinkAt seat.old.table_id field.now.board.shared.table_id field.now.nodes
        link.now }
    requires index { index < SLOTS }
    requires taken { (e : Node C C.Msg) × (p : OneParcel C.Msg) × (e.node ≡ link.now.to)
        × HasTaken (slot_in field.now.nodes link.now index) link.now.from e p seat.old.me }
    requires ask { A.pre ask }
    ensures same { (seat.new.table_id ≡ seat.old.table_id) × (seat.new.id ≡ seat.old.id) }
    ensures fated { (e : Node C C.Msg) (p : OneParcel C.Msg)
        → HasTaken (slot_in field.now.nodes link.now index) link.now.from e p seat.old.me
        → (hand.new ≡ fated_hand result (link.now.from, p)) × (seat.new.me ≡ (
          releasing hand.new
              (taking (slot_in field.now.nodes link.now index) link.now.from p e) ∷ [],
          [],
        )) }
    ensures asked { A.post ask result }
{
    let parcel = lift(field, seat, link, index);
    let fate = ask();
    *hand = hand_of(fate, link.from, parcel);
    release::<C, Brand>(field, seat, link, index, hand);
    fate
}

impl<C: Exclusion> Station<C> {
    /// `ask` draws the fate of the parcel once it is taken. Returns `None` if there is none.
    pub(crate) fn fetch_fated<A: FnOnce() -> Fate>(&mut self, from: NodeId, ask: A) -> Option<Fate>
        requires within { from < self.old.nodes }
        requires empty { self.old.me.hand ≡ None }
        requires ask { A.pre ask }
        ensures fated { MatchOption result (FindsNone from self.old self.new)
            (λ fate. IsFated from fate self.old self.new) }
        ensures asked { IfSome result (λ fate. A.post ask fate) }
    {
        let link = Link {
            from,
            to: self.node,
        };
        let field = &*self.field;
        let index = grab_filled(field, &mut self.seat, &link)?;
        self.took_from.add(from);
        let fate = lift_fated(field, &mut self.seat, &mut self.hand, &link, index, ask);
        Some(fate)
    }

    fn take_fated<F: Fates>(
        &mut self,
        from: NodeId,
        fates: &mut F,
    ) -> Result<Option<Fate>, TakeFault>
        requires within { from < self.old.nodes }
        requires empty { self.old.me.hand ≡ None }
        ensures taken { IfOk result (λ took. TakesFated C.core from took self.old self.new) }
        ensures goes { Goes C.core self.old self.new }
        ensures empty { OnOk result (self.new.me.hand ≡ None) }
        ensures kept { OnErr result (HoldsUnknown C.core self.new) }
    {
        let Some(fate) = self.fetch_fated(from, || fates.fate()) else {
            return Ok(None);
        };
        self.deliver(is_twice(fate))?;
        self.deliver(false)?;
        Ok(Some(fate))
    }

    fn take_each<F: Fates>(
        &mut self,
        fates: &mut F,
        report: &mut TurnReport,
    ) -> Result<(), TakeFault>
        requires empty { self.old.me.hand ≡ None }
        requires few { (report.old.taken ≤ 1) × (report.old.dropped ≤ 1) × (report.old.twice ≤ 1)
            × (report.old.put ≡ 0) × (report.old.full ≡ 0) }
        ensures taken { OnOk result ((takes : List (Option TheFate))
            × TakesEach C.core 0 takes self.old self.new × (length takes ≡ self.old.nodes)
            × (report.new ≡ noted_all takes report.old)) }
        ensures none_put { (report.new.put ≡ 0) × (report.new.full ≡ 0) }
        ensures goes { Goes C.core self.old self.new }
        ensures kept { OnErr result (HoldsUnknown C.core self.new) }
    {
        for index in 0..self.nodes() {
            let Some(from) = NodeId::of(index) else {
                unreachable!();
            };
            let took = self.take_fated(from, fates)?;
            report.note_taken(took);
        }
        Ok(())
    }

    fn put_each(&mut self, report: &mut TurnReport)
        requires few { (report.old.put ≡ 0) × (report.old.full ≡ 0) }
        ensures put { (puts : List ThePutOut) × PutsEach C.core puts self.old self.new
            × (length puts ≡ length self.old.waiting) × (report.new ≡ noted_puts puts report.old) }
        ensures goes { Goes C.core self.old self.new }
    {
        let mut kept = 0;
        for index in 0..self.waits() {
            let answer = self.put_next(index, &mut kept);
            report.note_put(answer);
        }
        self.waiting.truncate(kept);
    }

    /// Takes a turn: delivers the parcel in hand, takes at most one parcel from each node, and
    /// tries once to put out each parcel that waits then. A taken parcel is delivered as often as
    /// its fate, from `fates`, says. If no parcel was in hand or taken, and none waits, the node
    /// ticks (sends all outstanding letters again).
    ///
    /// # Errors
    ///
    /// Returns `Memory` if memory runs out. The turn ends, and the parcel remains in hand.
    pub fn turn<F: Fates>(&mut self, fates: &mut F) -> Result<TurnReport, TakeFault>
        ensures turns { IfOk result (λ report. Turns C.core self.old report self.new) }
        ensures goes { Goes C.core self.old self.new }
        ensures kept { OnErr result (HoldsUnknown C.core self.new) }
    {
        self.forget_moves();
        let had = self.deliver(false)?;
        let mut report = TurnReport::begin(had);
        self.take_each(fates, &mut report)?;
        self.put_each(&mut report);
        report.ticked = self.tick_if_idle(report.taken);
        Ok(report)
    }

    /// Forgets which nodes parcels were put out for, and whose parcels were taken.
    fn forget_moves(&mut self)
        ensures { self.new ≡ self.old }
    {
        self.put_to = NodeSet::default();
        self.took_from = NodeSet::default();
    }

    fn tick_if_idle(&mut self, taken: u32) -> bool
        ensures ends { MatchBool result (self.new ≡ does C.core Tick self.old)
            (self.new ≡ self.old) }
        ensures idle { result ≡ ((taken == 0) && (length self.old.waiting == 0)) }
        ensures goes { Goes C.core self.old self.new }
    {
        if !is_idle(taken, self.waits()) {
            return false;
        }
        self.tick();
        true
    }
}

fn is_idle(taken: u32, waiting: usize) -> bool
    ensures { result ≡ ((taken == 0) && (waiting == 0)) }
{
    taken == 0 && waiting == 0
}
