ghost use Rattle.std.specs.Prelude.{◌≡◌, ◌+◌, ◌<◌, ◌↔◌, IsNone, IfNone, IfSome, max};
ghost use Rattle.mx_stamps.specs.Numbers.{last_number};

use crate::node_id::NodeId;
use crate::stamp::Stamp;
use std::marker::Model;

/// A logical clock: the highest number that a node has seen or drawn (Lamport 1978).
#[derive(Clone, Copy, Debug, PartialEq, Eq)]
pub struct Clock {
    highest: u64,
}

impl Model for Clock {
    ghost use Rattle.std.specs.Prelude.{ℕ};

    ghost Value = { ℕ };

    ghost view = { λ c. c.highest };

    ghost inverse = { λ n. record { highest = n } };
}

impl Clock {
    /// Creates a clock that has seen this number.
    pub fn at(number: u64) -> Clock
        ensures { result ≡ number }
    {
        Clock { highest: number }
    }

    /// Returns the highest number that the clock has seen or drawn.
    pub fn highest(&self) -> u64
        ensures { result ≡ self.now }
    {
        self.highest
    }

    /// Takes note of a number that another node has drawn.
    pub fn see(&mut self, number: u64)
        ensures { self.new ≡ max self.old number }
    {
        self.highest = self.highest.max(number);
    }

    /// Draws the node's next stamp, with a number above all that the clock has seen or drawn.
    /// Returns `None` if the highest of them is 18446744073709551615, the greatest `u64` value.
    pub fn next(&mut self, node: NodeId) -> Option<Stamp>
        ensures spent { IsNone result ↔ (self.old ≡ last_number) }
        ensures value { IfSome result
            (λ stamp. stamp ≡ record { number = self.old + 1; node = node }) }
        ensures raised { IfSome result (λ stamp. self.new ≡ stamp.number) }
        ensures same { IfNone result (self.new ≡ self.old) }
    {
        let number = self.highest.checked_add(1)?;
        self.highest = number;
        Some(Stamp { number, node })
    }
}
