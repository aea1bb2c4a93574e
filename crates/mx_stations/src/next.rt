//! What each kind of step shows to the seat that makes it (its `Play`). All this is for the proof.
//! A `Play` cannot read the parameters of the table, so the call tells it, by a type `N`, the view
//! of the seat after the step, the slot, or the number of nodes.

ghost use Rattle.std.specs.Prelude.{◌≡◌, ℕ};
ghost use Rattle.atomic_table.specs.Table.{rest};
ghost use Rattle.mx_stations.specs.Running.{GoToNodes};
ghost use Rattle.mx_stations.specs.Slides.{Sees, TriesClaim, TriesTake};

use crate::rule::{Knowledge, Slot};
use atomic_table::Play;
use mx_nodelaws::Exclusion;
use std::marker::{Brand, PhantomData};

/// What a seat knows after a step, as a function of what it knew before, and the number of nodes.
/// A call passes `Brand`, and its proof picks the members.
pub trait Next<V> {
    ghost after: { V → V };

    ghost count: { ℕ };
}

/// What the prover needs for `Brand` to be passed. No proof reads these members.
impl<V> Next<V> for Brand {
    ghost after = { λ v. v };

    ghost count = { 0 };
}

/// The store of an act. It shows that the node's parcels are addressed to nodes of the cluster.
pub struct Becomes<N> {
    of: PhantomData<N>,
}

impl<C: Exclusion, N: Next<Knowledge<C>>> Play<Slot<C>, Knowledge<C>> for Becomes<N> {
    ghost then = { λ step before found now.
        (now ≡ (N.after before.0, before.1)) × GoToNodes N.count now.0 };
}

/// The number of nodes, which the call tells the proof as it does for `Next`.
pub trait OfCount {
    ghost count: { ℕ };
}

impl OfCount for Brand {
    ghost count = { 0 };
}

/// A slot, and the node that fills it.
pub trait OfSlot {
    ghost slot: { ℕ };

    ghost from: { ℕ };
}

impl OfSlot for Brand {
    ghost slot = { 0 };

    ghost from = { 0 };
}

/// A try to claim a slot.
pub struct TriesToClaim<N> {
    of: PhantomData<N>,
}

impl<C: Exclusion, N: OfSlot> Play<Slot<C>, Knowledge<C>> for TriesToClaim<N> {
    ghost then = { λ step before found now. TriesClaim N.slot before found now };
}

/// A read of a slot's word.
pub struct LooksAt<N> {
    of: PhantomData<N>,
}

impl<C: Exclusion, N: OfSlot> Play<Slot<C>, Knowledge<C>> for LooksAt<N> {
    ghost then = { λ step before found now. Sees N.slot N.from before found now };
}

/// A try to take a slot.
pub struct TriesToTake<N> {
    of: PhantomData<N>,
}

impl<C: Exclusion, N: OfSlot> Play<Slot<C>, Knowledge<C>> for TriesToTake<N> {
    ghost then = { λ step before found now. TriesTake N.slot N.from before found now };
}

/// The store by which a seat gives its slot back.
pub struct Gives<N> {
    of: PhantomData<N>,
}

impl<C: Exclusion, N: Next<Knowledge<C>>> Play<Slot<C>, Knowledge<C>> for Gives<N> {
    ghost then = { λ step before found now. now ≡ (N.after before.0, rest before.1) };
}
