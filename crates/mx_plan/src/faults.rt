//! Why a text is no plan, or no list of events.

ghost use Rattle.std.specs.Prelude.{◌≡◌, Some};
ghost use Rattle.mx_plan.specs.FaultTexts.{quorum_text, quorum_words, tree_text, shape_text, fault_text};

use crate::place::Place;
use mx_quorums::QuorumFault;
use mx_trees::TreeFault;
use std::alloc::{AllocError, AllocFailed};
use std::error::Error;
use std::fmt;

/// Which rule the arbiter sets or the tree of a plan break. Nodes and edges are numbered from 0, in
/// the order of the plan.
#[derive(Clone, Copy, Debug, PartialEq, Eq)]
pub enum ShapeFault {
    /// The arbiter sets break this rule.
    Quorum(QuorumFault),
    /// The edges and the holder are no tree, for this reason.
    Tree(TreeFault),
}

/// Why a text is refused.
#[derive(Clone, Copy, Debug, PartialEq, Eq)]
pub enum PlanFault {
    /// The text is not valid JSON, not valid UTF-8, or nests deeper than 127.
    NotJson,
    /// The value at this place is missing or has another form.
    NotPlan(Place),
    /// A name occurs twice at this place.
    DoubleName(Place),
    /// A name at this place is well-formed, but the plan has no such node or register.
    UnknownName(Place),
    /// Each place has the right form, but the arbiter sets or the tree break a rule.
    BadShape(ShapeFault),
    /// Memory ran out. This can happen at any point of reading.
    Memory,
}

impl From<AllocError> for PlanFault {
    ghost use Rattle.std.specs.Prelude.{◌≡◌};
    ghost use Rattle.mx_plan.specs.declared.faults.PlanFault.TheVariants.{Memory};

    ghost from_gives = { λ _ e. e ≡ Memory };

    fn from(_e: AllocError) -> PlanFault {
        PlanFault::Memory
    }
}

impl<T: Drop> From<AllocFailed<T>> for PlanFault {
    ghost use Rattle.std.specs.Prelude.{◌≡◌};
    ghost use Rattle.mx_plan.specs.declared.faults.PlanFault.TheVariants.{Memory};

    ghost from_gives = { λ _ e. e ≡ Memory };

    fn from(_e: AllocFailed<T>) -> PlanFault {
        PlanFault::Memory
    }
}

impl From<QuorumFault> for ShapeFault {
    ghost use Rattle.std.specs.Prelude.{◌≡◌};
    ghost use Rattle.mx_plan.specs.declared.faults.ShapeFault.TheVariants.{Quorum};

    ghost from_gives = { λ fault e. e ≡ Quorum fault };

    fn from(fault: QuorumFault) -> ShapeFault {
        ShapeFault::Quorum(fault)
    }
}

impl From<TreeFault> for ShapeFault {
    ghost use Rattle.std.specs.Prelude.{◌≡◌};
    ghost use Rattle.mx_plan.specs.declared.faults.ShapeFault.TheVariants.{Tree};

    ghost from_gives = { λ fault e. e ≡ Tree fault };

    fn from(fault: TreeFault) -> ShapeFault {
        ShapeFault::Tree(fault)
    }
}

impl From<ShapeFault> for PlanFault {
    ghost use Rattle.std.specs.Prelude.{◌≡◌};
    ghost use Rattle.mx_plan.specs.declared.faults.PlanFault.TheVariants.{BadShape};

    ghost from_gives = { λ fault e. e ≡ BadShape fault };

    fn from(fault: ShapeFault) -> PlanFault {
        PlanFault::BadShape(fault)
    }
}

#[derive(Clone, Copy)]
struct QuorumText(QuorumFault);

impl QuorumText {
    /// Returns the words of this fault, without the numbers after them.
    fn words(&self) -> &str
        ensures { result.now ≡ quorum_words self.now.0 }
    {
        match self.0 {
            QuorumFault::NoNodes => "no nodes",
            QuorumFault::TooMany => "too many",
            QuorumFault::EmptySet(_) => "empty set",
            QuorumFault::Stranger(_, _) => "stranger",
            QuorumFault::NotOwnMember(_) => "not own member",
            QuorumFault::Apart(_, _) => "apart",
            QuorumFault::NoPlane(_) => "no plane",
        }
    }
}

impl fmt::Display for QuorumText {
    ghost output = { λ t. Some (quorum_text t.0) };

    fn fmt<W: fmt::Write>(&self, f: &mut fmt::Formatter<W>) -> fmt::Result {
        let words = self.words();
        match self.0 {
            QuorumFault::NoNodes | QuorumFault::TooMany => f.write_str(words),
            QuorumFault::EmptySet(i) | QuorumFault::NotOwnMember(i) | QuorumFault::NoPlane(i) => {
                write!(f, "{words} {i}")
            }
            QuorumFault::Stranger(i, j) | QuorumFault::Apart(i, j) => {
                write!(f, "{words} {i} {j}")
            }
        }
    }
}

#[derive(Clone, Copy)]
struct TreeText(TreeFault);

impl fmt::Display for TreeText {
    ghost output = { λ t. Some (tree_text t.0) };

    fn fmt<W: fmt::Write>(&self, f: &mut fmt::Formatter<W>) -> fmt::Result {
        match self.0 {
            TreeFault::NoNodes => f.write_str("no nodes"),
            TreeFault::TooMany => f.write_str("too many"),
            TreeFault::BadEdge(k) => write!(f, "bad edge {k}"),
            TreeFault::WrongCount => f.write_str("wrong count"),
            TreeFault::NotJoined(i) => write!(f, "not joined {i}"),
            TreeFault::BadHolder => f.write_str("bad holder"),
        }
    }
}

impl fmt::Display for ShapeFault {
    ghost output = { λ e. Some (shape_text e) };

    fn fmt<W: fmt::Write>(&self, f: &mut fmt::Formatter<W>) -> fmt::Result {
        match self {
            ShapeFault::Quorum(fault) => write!(f, "{}", QuorumText(*fault)),
            ShapeFault::Tree(fault) => write!(f, "{}", TreeText(*fault)),
        }
    }
}

impl fmt::Display for PlanFault {
    ghost output = { λ e. Some (fault_text e) };

    fn fmt<W: fmt::Write>(&self, f: &mut fmt::Formatter<W>) -> fmt::Result {
        match self {
            PlanFault::NotJson => f.write_str("not json"),
            PlanFault::NotPlan(place) => write!(f, "bad plan: {place}"),
            PlanFault::DoubleName(place) => write!(f, "double name: {place}"),
            PlanFault::UnknownName(place) => write!(f, "unknown name: {place}"),
            PlanFault::BadShape(fault) => write!(f, "bad shape: {fault}"),
            PlanFault::Memory => f.write_str("out of memory"),
        }
    }
}

impl Error for ShapeFault {}

impl Error for PlanFault {}
