//! The places of a plan and of a list of events at which faults are found.

ghost use Rattle.std.specs.Prelude.{◌≡◌, Some};
ghost use Rattle.mx_plan.specs.FaultTexts.{place_text, place_word};

use std::fmt;

/// The place of a fault in a plan or in a list of events. The places of a plan are checked in this
/// order.
#[derive(Clone, Copy, Debug, PartialEq, Eq)]
pub enum Place {
    /// The plan itself, which is an object.
    Plan,
    Algorithm,
    Nodes,
    Registers,
    Sections,
    Origin,
    /// The sets of arbiters, in a plan for Maekawa's algorithm.
    Quorums,
    /// The edges of the tree, in a plan for Raymond's algorithm.
    Edges,
    /// The holder of the privilege at the start, in a plan for Raymond's algorithm.
    Holder,
    /// The list of events itself, which is an array.
    Events,
    /// The event of this number, counted from 0.
    Event(u64),
}

impl Place {
    /// Returns the word for this place, without the number of an event.
    fn word(&self) -> &str
        ensures { result.now ≡ place_word self.now }
    {
        match self {
            Place::Plan => "plan",
            Place::Algorithm => "algorithm",
            Place::Nodes => "nodes",
            Place::Registers => "registers",
            Place::Sections => "sections",
            Place::Origin => "origin",
            Place::Quorums => "quorums",
            Place::Edges => "edges",
            Place::Holder => "holder",
            Place::Events => "events",
            Place::Event(_) => "event",
        }
    }
}

impl fmt::Display for Place {
    ghost output = { λ p. Some (place_text p) };

    fn fmt<W: fmt::Write>(&self, f: &mut fmt::Formatter<W>) -> fmt::Result {
        match self {
            Place::Event(k) => write!(f, "event {k}"),
            place => f.write_str(place.word()),
        }
    }
}
