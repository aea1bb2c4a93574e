//! The parcels that were sent, one after another.

ghost use Rattle.std.specs.Iterator.{YieldsFirstBy, item_count};

use crate::parcel_log::{Sending, sent_at};
use mx_member::{Parcel, SentParcel};
use std::marker::Model;

/// The parcels that were sent, in order, from some number on, each with its number.
#[derive(Drop)]
pub struct Parcels<'a, M> {
    pub(crate) kept: &'a [Parcel<M>],
    pub(crate) sendings: &'a [Sending],
    pub(crate) number: u64,
}

impl<'a, M> Model for Parcels<'a, M> {
    ghost use Rattle.std.specs.Prelude.{ℕ, List, drop, length};
    ghost use Rattle.std.specs.List.{enumerate_from};
    ghost use Rattle.mx_member.specs.declared.parcel.Parcel.{Parcel};
    ghost use Rattle.mx_network.specs.ParcelLog.{AreKept, sent_of};

    ghost Value = { List (ℕ × (ℕ × ℕ × Parcel M)) };

    ghost view = { λ p. enumerate_from p.number
        (drop p.number (sent_of p.kept.now p.sendings.now)) };

    ghost invariant = { λ p. AreKept (length p.kept.now) p.sendings.now };
}

impl<'a, M> Iterator for Parcels<'a, M> {
    type Item = (u64, SentParcel<'a, M>);

    ghost next_gives = { YieldsFirstBy
        (λ item. (item.0, (item.1.from, item.1.to, item.1.parcel.now))) (λ left. left) };

    ghost remaining = { item_count (λ left. left) };

    fn next(&mut self) -> Option<(u64, SentParcel<'a, M>)> {
        let number = self.number;
        match sent_at(self.kept, self.sendings, number) {
            Some(sent) => {
                self.number += 1;
                Some((number, sent))
            }
            None => None,
        }
    }
}
