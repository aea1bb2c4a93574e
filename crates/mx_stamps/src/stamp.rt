ghost use Rattle.std.specs.Prelude.{◌≡◌, ◌↔◌, ◌⊎◌, IsTrue};
ghost use Rattle.mx_stamps.specs.Stamp.{Before, is_before_of, is_same_as};

use crate::node_id::NodeId;
use std::cmp::Ordering;

/// The stamp of a request: a number drawn from its node's clock, and that node. `Ord` orders stamps
/// by number, and then by node (Lamport 1978).
#[derive(Clone, Copy, Debug, Default, Eq, PartialOrd, Ord, Hash)]
pub struct Stamp {
    /// The number, drawn from the node's clock.
    pub number: u64,
    /// The node that asks.
    pub node: NodeId,
}

impl PartialEq for Stamp {
    ghost use Rattle.std.specs.Prelude.{◌≡◌, ◌↔◌, IsTrue};
    ghost use Rattle.std.proofs.Common.{rules};
    ghost use Rattle.std.specs.Cmp.Rules.{comparing};
    ghost use Rattle.mx_stamps.specs.Stamp.{is_same_as};

    ghost eq = { λ a b. is_same_as a b };

    ghost laws = { Prim.search (comparing, rules) };

    fn eq(&self, other: &Stamp) -> bool
        ensures value { result ≡ is_same_as self.now other.now }
        ensures same { IsTrue result ↔ (self.now ≡ other.now) }
    {
        self.is(other)
    }
}

impl Stamp {
    /// Returns whether both are the same stamp.
    pub fn is(&self, other: &Stamp) -> bool
        ensures value { result ≡ is_same_as self.now other.now }
        ensures same { IsTrue result ↔ (self.now ≡ other.now) }
    {
        self.number == other.number && self.node.get() == other.node.get()
    }

    /// Returns whether this stamp is less than the other.
    pub fn is_before(&self, other: &Stamp) -> bool
        ensures value { result ≡ is_before_of self.now other.now }
        ensures before { IsTrue result ↔ Before self.now other.now }
    {
        self.number < other.number
            || (self.number == other.number && self.node.get() < other.node.get())
    }

    /// Compares two stamps by their numbers, and then by their nodes. The order is total.
    pub fn compare(&self, other: &Stamp) -> Ordering
        ensures less { (result ≡ Ordering.Less) ↔ Before self.now other.now }
        ensures equal { (result ≡ Ordering.Equal) ↔ (self.now ≡ other.now) }
        ensures greater { (result ≡ Ordering.Greater) ↔ Before other.now self.now }
        ensures total { Before self.now other.now ⊎ (self.now ≡ other.now)
            ⊎ Before other.now self.now }
    {
        self.cmp(other)
    }
}
