ghost use Rattle.std.specs.Prelude.{◌≡◌, ◌+◌, ◌≤◌, ◌<◌, [], ◌∷◌, ◌++◌, ◌^◌, drop, length, slice_get, IfSome, IsTrue, MatchOption, OnOk, vec_len, vec_capacity};
ghost use Rattle.std.specs.List.{enumerate_from};
ghost use Rattle.mx_letters.specs.declared.outbox.TheConstants.{OUTBOX_ROOM};
ghost use Rattle.mx_nodelaws.specs.World.{sent_by};
ghost use Rattle.mx_network.specs.ParcelLog.{AreKept, EndsWith, IsKeptIn, sent_of};

use crate::parcels::Parcels;
use mx_letters::Outbox;
use mx_member::{Parcel, SentParcel};
use mx_nodelaws::Exclusion;
use mx_stamps::NodeId;
use std::alloc::{AllocError, Global};
use std::marker::Model;

/// A parcel that was sent. Its place is its index among the stored parcels.
#[derive(Clone, Copy)]
pub(crate) struct Sending {
    from: NodeId,
    to: NodeId,
    place: usize,
}

/// The parcels that were sent, in order. A letter to many nodes is stored once: a letter that
/// equals the parcel stored last shares the place of that parcel.
#[derive(Drop)]
pub(crate) struct ParcelLog<C: Exclusion> {
    kept: Vec<Parcel<C::Msg>>,
    sendings: Vec<Sending>,
}

impl<C: Exclusion> Model for ParcelLog<C> {
    ghost use Rattle.std.specs.Prelude.{length};
    ghost use Rattle.mx_network.specs.ParcelLog.{AreKept, ParcelLogState, room_in, sent_of};

    ghost Value = { ParcelLogState C.Msg };

    ghost view = { λ m. record {
      sent = sent_of m.kept.items m.sendings.items;
      room = room_in m.kept m.sendings;
    } };

    ghost invariant = { λ m. AreKept (length m.kept.items) m.sendings.items };
}

impl<C: Exclusion> ParcelLog<C> {
    pub(crate) fn new(alloc: Global) -> Self
        ensures { result.sent ≡ [] }
    {
        ParcelLog {
            kept: Vec::new(alloc),
            sendings: Vec::new(alloc),
        }
    }

    pub(crate) fn reserve(&mut self, parcels: usize) -> Result<(), AllocError>
        ensures sent { self.new.sent ≡ self.old.sent }
        ensures room { OnOk result (parcels ≤ self.new.room) }
    {
        self.kept.reserve(parcels)?;
        self.sendings.reserve(parcels)
    }

    pub(crate) fn len(&self) -> usize
        ensures { result ≡ length self.now.sent }
    {
        self.sendings.len()
    }

    pub(crate) fn get(&self, number: u64) -> Option<SentParcel<'_, C::Msg>>
        ensures { MatchOption result (slice_get self.now.sent number ≡ None)
            (λ found. slice_get self.now.sent number
            ≡ Some (found.from, found.to, found.parcel.now)) }
    {
        sent_at(self.kept.as_slice(), self.sendings.as_slice(), number)
    }

    pub(crate) fn parcels_from(&self, number: u64) -> Parcels<'_, C::Msg>
        ensures { result ≡ enumerate_from number (drop number self.now.sent) }
    {
        Parcels {
            kept: &self.kept,
            sendings: &self.sendings,
            number,
        }
    }

    pub(crate) fn send_all(&mut self, from: NodeId, out: &mut Outbox<Parcel<C::Msg>>)
        requires { OUTBOX_ROOM ≤ self.old.room }
        ensures sent { self.new.sent ≡ self.old.sent ++ sent_by from out.old }
        ensures out { out.new ≡ [] }
    {
        for (to, parcel) in out.as_slice() {
            self.send(from, *to, parcel);
        }
        out.clear();
    }

    fn send(&mut self, from: NodeId, to: NodeId, parcel: &Parcel<C::Msg>)
        requires { 0 < self.old.room }
        ensures sent { self.new.sent ≡ self.old.sent ++ (from, to, parcel.now) ∷ [] }
        ensures room { self.old.room ≤ self.new.room + 1 }
    {
        keep::<C>(&mut self.kept, parcel);
        let place = self.kept.len() - 1;
        self.sendings.push_reserved(Sending { from, to, place });
    }
}

pub(crate) fn sent_at<'a, M>(
    kept: &'a [Parcel<M>],
    sendings: &[Sending],
    number: u64,
) -> Option<SentParcel<'a, M>>
    requires { AreKept (length kept.now) sendings.now }
    ensures value { MatchOption result (slice_get (sent_of kept.now sendings.now) number ≡ None)
        (λ found. slice_get (sent_of kept.now sendings.now) number
        ≡ Some (found.from, found.to, found.parcel.now)) }
    ensures few { IfSome result (λ _. number < 2 ^ 63) }
{
    match sendings.get(number as usize) {
        Some(sending) => Some(SentParcel {
            from: sending.from,
            to: sending.to,
            parcel: &kept[sending.place],
        }),
        None => None,
    }
}

fn keep<C: Exclusion>(kept: &mut Vec<Parcel<C::Msg>>, parcel: &Parcel<C::Msg>)
    requires { vec_len kept.old < vec_capacity kept.old }
    ensures kept { IsKeptIn parcel.now kept.old.items kept.new.items }
    ensures len { vec_len kept.new ≤ vec_len kept.old + 1 }
    ensures capacity { vec_capacity kept.new ≡ vec_capacity kept.old }
{
    if !is_last::<C>(kept, parcel) {
        push(kept, parcel);
    }
}

fn is_last<C: Exclusion>(kept: &[Parcel<C::Msg>], parcel: &Parcel<C::Msg>) -> bool
    ensures { IsTrue result → EndsWith parcel.now kept.now }
{
    match (kept.last(), parcel) {
        (Some(Parcel::Guard(last)), Parcel::Guard(letter)) => C::is_same(last, letter),
        _ => false,
    }
}

fn push<M: Copy>(kept: &mut Vec<Parcel<M>>, parcel: &Parcel<M>)
    requires { vec_len kept.old < vec_capacity kept.old }
    ensures items { kept.new.items ≡ kept.old.items ++ parcel.now ∷ [] }
    ensures len { vec_len kept.new ≡ vec_len kept.old + 1 }
    ensures capacity { vec_capacity kept.new ≡ vec_capacity kept.old }
{
    match parcel {
        Parcel::Guard(letter) => kept.push_reserved(Parcel::Guard(*letter)),
        Parcel::Want(_) | Parcel::Base(_) | Parcel::Records(_) => kept.push_reserved(parcel.copy()),
    }
}
