//! The rule that the table keeps between steps, what its seats know, and how a seat hands nodes on.
//! All this but `Setup` and `Slot` is for the proof.

ghost use Rattle.std.specs.Prelude.{[], ◌++◌};
ghost use Rattle.mx_member.specs.Steps.{start_of};
ghost use Rattle.mx_stations.specs.Running.{Holds, all_but_first, all_of, fresh, only_first};

use atomic_table::{Join, Split, TableRule};
use mx_member::Parcel;
use mx_nodelaws::Exclusion;
use std::marker::{Model, PhantomData};

/// The parameters of a table, given when it is made.
#[derive(Clone, Copy)]
pub struct Setup<H> {
    /// The number of nodes.
    pub nodes: u8,
    /// The shape of the cluster.
    pub shape: H,
    /// The number from which the numbers of requests count on.
    pub origin: u64,
    /// The greatest section number.
    pub limit: u64,
    /// The number of registers.
    pub registers: u8,
}

/// The contents of a slot.
pub type Slot<C> = Option<Parcel<<C as Exclusion>::Msg>>;

/// What a seat knows: its nodes, each with its member, receipts and parcels. No value of this type
/// exists at run time.
pub struct Knowledge<C: Exclusion> {
    of: PhantomData<C>,
}

impl<C: Exclusion> Model for Knowledge<C> {
    ghost use Rattle.std.specs.Prelude.{List, []};
    ghost use Rattle.mx_stations.specs.Entries.{Node};

    ghost Value = { List (Node C C.Msg) };

    ghost view = { λ _. [] };
}

/// The rule of a table: between any two steps, the nodes of all its seats are a running cluster.
pub struct Law<C> {
    of: PhantomData<C>,
}

impl<C: Exclusion> TableRule<Slot<C>, Knowledge<C>, Setup<C::Shape>> for Law<C> {
    ghost holds = { λ setup s. Holds C.core C.Good setup.nodes s };

    ghost first = { λ setup. all_of setup.nodes
        (λ i. fresh i (start_of C.core setup.shape i setup.origin setup.limit setup.registers)) };
}

/// How a seat is split: it hands its first node on to the new seat.
pub struct HandOn;

impl<C: Exclusion> Split<Knowledge<C>> for HandOn {
    ghost left = { λ v. all_but_first v };

    ghost right = { λ v. only_first v };
}

/// How two seats are joined: one takes all nodes of the other, in front of its own.
pub struct TakeIn;

impl<C: Exclusion> Join<Knowledge<C>> for TakeIn {
    ghost both = { λ v w. w ++ v };

    ghost spent = { [] };
}
