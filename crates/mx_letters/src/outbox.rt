ghost use Rattle.std.specs.Prelude.{◌≡◌, ◌+◌, ◌<◌, ◌≤◌, ◌↔◌, [], ◌∷◌, ◌++◌, length, slice_get, IsTrue, MatchOption};

use arrayvec::ArrayVec;
use mx_stamps::NodeId;
use std::marker::Model;

/// The greatest number of letters in an outbox.
pub const OUTBOX_ROOM: usize = 32;

/// The letters that one call of a node sends, in order, each with its addressee. No call of the
/// algorithms here sends more than 22, so an empty outbox has room for them.
#[derive(Drop)]
pub struct Outbox<M> {
    letters: ArrayVec<(NodeId, M), OUTBOX_ROOM>,
}

impl<M> Model for Outbox<M> {
    ghost use Rattle.std.specs.Prelude.{ℕ, List};

    ghost Value = { List (ℕ × M) };

    ghost view = { λ o. o.letters.items };
}

impl<M: Default + Drop> Outbox<M> {
    /// Creates an empty outbox.
    pub fn new() -> Self
        ensures { result ≡ [] }
    {
        Outbox {
            letters: ArrayVec::new(),
        }
    }

    /// Removes all letters.
    pub fn clear(&mut self)
        ensures { self.new ≡ [] }
    {
        self.letters.clear();
    }
}

impl<M: Drop> Outbox<M> {
    /// Returns whether the outbox holds no letter. Each call of a node requires an empty outbox.
    pub fn is_empty(&self) -> bool
        ensures { IsTrue result ↔ (self.now ≡ []) }
    {
        self.letters.is_empty()
    }

    /// Returns the number of letters.
    pub fn len(&self) -> usize
        ensures { result ≡ length self.now }
    {
        self.letters.len()
    }

    /// Returns how many more letters the outbox can hold.
    pub fn room(&self) -> usize
        ensures { result + length self.now ≡ OUTBOX_ROOM }
    {
        self.letters.remaining_capacity()
    }

    /// Appends a letter to this addressee.
    pub fn add(&mut self, to: NodeId, letter: M)
        requires { length self.old < OUTBOX_ROOM }
        ensures { self.new ≡ self.old ++ (to, letter) ∷ [] }
    {
        self.letters.push((to, letter));
    }

    /// Returns the letter at position `k`, counted from 0, with its addressee, or `None` if `k` is
    /// not below the length.
    pub fn get(&self, k: usize) -> Option<&(NodeId, M)>
        ensures { MatchOption result
            (slice_get self.now k ≡ None)
            (λ letter. slice_get self.now k ≡ Some letter.now) }
    {
        self.letters.as_slice().get(k)
    }

    /// Returns the letters with their addressees, in order.
    pub fn as_slice(&self) -> &[(NodeId, M)]
        ensures value { result.now ≡ self.now }
        ensures bound { length self.now ≤ OUTBOX_ROOM }
    {
        self.letters.as_slice()
    }
}
