//! How a parcel crosses a link, through one of its four slots. The sender claims an empty slot and
//! gives it back filled; the receiver takes a filled slot and gives it back empty. Each call tries
//! a slot once, and does not wait.

ghost use Rattle.std.specs.Prelude.{◌≡◌, ◌⊎◌, ℕ, ◌+◌, ◌*◌, ◌<◌, List, [], ◌∷◌, Option, Some, None, IfNone, IfSome};
ghost use Rattle.mx_member.specs.declared.parcel.Parcel.{Parcel as OneParcel};
ghost use Rattle.mx_stations.specs.Links.{IsLink, IsLinkAt, slot_in};
ghost use Rattle.mx_stations.specs.Running.{IsIdle, Keeps};
ghost use Rattle.mx_stations.specs.Slides.{Claims, HasEmptied, HasUsed, IsFilling, IsHolding, KeepsHand, Takes, TriesClaim, TriesTake, placed_view, released_view};

use crate::field::{Field, SeatOf};
use crate::next::{Gives, LooksAt, Next, OfSlot, TriesToClaim, TriesToTake};
use crate::rule::Knowledge;
use mx_member::Parcel;
use mx_nodelaws::Exclusion;
use mx_stamps::NodeId;
use std::marker::Brand;

/// The number of slots of each link.
pub const SLOTS: u8 = 4;

const EMPTY: u64 = 0;

/// The word of a slot that its sender is filling.
const CLAIMED: u64 = 1;

const FILLED: u64 = 2;

/// The word of a slot that its receiver is emptying.
const TAKEN: u64 = 3;

#[derive(Clone, Copy)]
pub(crate) struct Link {
    pub(crate) from: NodeId,
    pub(crate) to: NodeId,
}

fn slot_of<C: Exclusion>(field: &Field<C>, link: &Link, index: u8) -> usize
    requires link { IsLink field.now.nodes link.now }
    requires index { index < SLOTS }
    ensures value { result ≡ slot_in field.now.nodes link.now index }
    ensures within { result < field.now.nodes * field.now.nodes * SLOTS }
{
    let place = link.from.get() as usize * field.nodes as usize + link.to.get() as usize;
    place * SLOTS as usize + index as usize
}

fn claim<C: Exclusion, N: OfSlot>(
    field: &Field<C>,
    seat: &mut SeatOf<C>,
    link: &Link,
    index: u8,
) -> u64
    requires link { IsLinkAt seat.old.table_id field.now.board.shared.table_id field.now.nodes
        link.now }
    requires index { index < SLOTS }
    requires idle { IsIdle seat.old.me link.now.from }
    requires slot { N.slot ≡ slot_in field.now.nodes link.now index }
    ensures same { (seat.new.table_id ≡ seat.old.table_id) × (seat.new.id ≡ seat.old.id) }
    ensures claimed { TriesClaim (slot_in field.now.nodes link.now index) seat.old.me result
        seat.new.me }
{
    let slot = slot_of(field, link, index);
    field
        .board
        .shared
        .compare_exchange::<TriesToClaim<N>>(seat, field.nodes as usize + slot, EMPTY, CLAIMED)
}

pub(crate) fn claim_empty<C: Exclusion>(
    field: &Field<C>,
    seat: &mut SeatOf<C>,
    link: &Link,
) -> Option<u8>
    requires link { IsLinkAt seat.old.table_id field.now.board.shared.table_id field.now.nodes
        link.now }
    requires idle { IsIdle seat.old.me link.now.from }
    ensures same { (seat.new.table_id ≡ seat.old.table_id) × (seat.new.id ≡ seat.old.id) }
    ensures some { IfSome result (λ index. (index < SLOTS)
        × Claims (slot_in field.now.nodes link.now index) seat.old.me seat.new.me) }
    ensures none { IfNone result ((seat.new.me ≡ seat.old.me) × ((index : ℕ) → index < SLOTS
        → HasUsed (slot_in field.now.nodes link.now index) seat.old.me)) }
{
    for index in 0..SLOTS {
        if claim::<C, Brand>(field, seat, link, index) == EMPTY {
            return Some(index);
        }
    }
    None
}

pub(crate) fn place<C: Exclusion, N: Next<Knowledge<C>>>(
    field: &Field<C>,
    seat: &mut SeatOf<C>,
    link: &Link,
    index: u8,
    parcel: Parcel<C::Msg>,
)
    requires link { IsLinkAt seat.old.table_id field.now.board.shared.table_id field.now.nodes
        link.now }
    requires index { index < SLOTS }
    requires filling { IsFilling seat.old.me (slot_in field.now.nodes link.now index)
        link.now.from link.now.to parcel }
    requires next { N.after seat.old.me.0
        ≡ placed_view (slot_in field.now.nodes link.now index) parcel seat.old.me.0 }
    ensures same { (seat.new.table_id ≡ seat.old.table_id) × (seat.new.id ≡ seat.old.id) }
    ensures view { seat.new.me
        ≡ (placed_view (slot_in field.now.nodes link.now index) parcel seat.old.me.0, []) }
{
    let slot = slot_of(field, link, index);
    let shared = &field.board.shared;
    match shared.exchange(seat, slot, Some(parcel)) {
        None => {}
        Some(_) => unreachable!(),
    }
    shared.store::<Gives<N>>(seat, field.nodes as usize + slot, FILLED);
}

/// Reads the word first, since a read of an empty slot, unlike an exchange, leaves the word in the
/// caches of all readers.
fn grab<C: Exclusion, N: OfSlot>(
    field: &Field<C>,
    seat: &mut SeatOf<C>,
    link: &Link,
    index: u8,
) -> u64
    requires link { IsLinkAt seat.old.table_id field.now.board.shared.table_id field.now.nodes
        link.now }
    requires index { index < SLOTS }
    requires idle { IsIdle seat.old.me link.now.to }
    requires slot { (N.slot ≡ slot_in field.now.nodes link.now index) × (N.from ≡ link.now.from) }
    ensures same { (seat.new.table_id ≡ seat.old.table_id) × (seat.new.id ≡ seat.old.id) }
    ensures taken { TriesTake (slot_in field.now.nodes link.now index) link.now.from seat.old.me
        result seat.new.me }
{
    let slot = slot_of(field, link, index);
    let shared = &field.board.shared;
    let found = shared.load::<LooksAt<N>>(seat, field.nodes as usize + slot);
    if found != FILLED {
        return found;
    }
    shared.compare_exchange::<TriesToTake<N>>(seat, field.nodes as usize + slot, FILLED, TAKEN)
}

pub(crate) fn grab_filled<C: Exclusion>(
    field: &Field<C>,
    seat: &mut SeatOf<C>,
    link: &Link,
) -> Option<u8>
    requires link { IsLinkAt seat.old.table_id field.now.board.shared.table_id field.now.nodes
        link.now }
    requires idle { IsIdle seat.old.me link.now.to }
    ensures same { (seat.new.table_id ≡ seat.old.table_id) × (seat.new.id ≡ seat.old.id) }
    ensures some { IfSome result (λ index. (index < SLOTS) × Takes
        (slot_in field.now.nodes link.now index) link.now.from seat.old.me seat.new.me) }
    ensures none { IfNone result ((seat.new.me ≡ seat.old.me) × ((index : ℕ) → index < SLOTS
        → HasEmptied (slot_in field.now.nodes link.now index) link.now.from seat.old.me)) }
{
    for index in 0..SLOTS {
        if grab::<C, Brand>(field, seat, link, index) == FILLED {
            return Some(index);
        }
    }
    None
}

pub(crate) fn lift<C: Exclusion>(
    field: &Field<C>,
    seat: &mut SeatOf<C>,
    link: &Link,
    index: u8,
) -> Parcel<C::Msg>
    requires link { IsLinkAt seat.old.table_id field.now.board.shared.table_id field.now.nodes
        link.now }
    requires index { index < SLOTS }
    requires holding { (p : OneParcel C.Msg)
        × IsHolding seat.old.me (slot_in field.now.nodes link.now index) link.now.to (Some p) }
    ensures same { (seat.new.table_id ≡ seat.old.table_id) × (seat.new.id ≡ seat.old.id) }
    ensures view { seat.new.me
        ≡ (seat.old.me.0, (slot_in field.now.nodes link.now index, None) ∷ []) }
    ensures parcel { seat.old.me.1 ≡ (slot_in field.now.nodes link.now index, Some result) ∷ [] }
{
    let slot = slot_of(field, link, index);
    field.board.shared.exchange(seat, slot, None).unwrap()
}

/// Gives back the taken slot, which is empty now. Only the proof uses `hand`: the parcel of the
/// slot with its sender, or `None` if the parcel was thrown away.
pub(crate) fn release<C: Exclusion, N: Next<Knowledge<C>>>(
    field: &Field<C>,
    seat: &mut SeatOf<C>,
    link: &Link,
    index: u8,
    hand: &Option<(NodeId, Parcel<C::Msg>)>,
)
    requires link { IsLinkAt seat.old.table_id field.now.board.shared.table_id field.now.nodes
        link.now }
    requires index { index < SLOTS }
    requires holding { IsHolding seat.old.me (slot_in field.now.nodes link.now index) link.now.to
        None }
    requires hand { KeepsHand seat.old.me.0 hand.now }
    requires next { N.after seat.old.me.0 ≡ released_view hand.now seat.old.me.0 }
    ensures same { (seat.new.table_id ≡ seat.old.table_id) × (seat.new.id ≡ seat.old.id) }
    ensures view { seat.new.me ≡ (released_view hand.now seat.old.me.0, []) }
{
    let slot = slot_of(field, link, index);
    field
        .board
        .shared
        .store::<Gives<N>>(seat, field.nodes as usize + slot, EMPTY);
}

pub(crate) fn has_filled<C: Exclusion>(field: &Field<C>, link: &Link) -> bool
    requires { IsLink field.now.nodes link.now }
{
    // the common part of the four reads is computed once, as each of them reads memory again
    let slot = slot_of(field, link, 0);
    let first = field.nodes as usize + slot;
    for index in 0..SLOTS {
        if field.board.shared.peek(first + index as usize) == FILLED {
            return true;
        }
    }
    false
}
