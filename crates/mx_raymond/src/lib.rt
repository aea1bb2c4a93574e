//! Raymond 1989, "A tree-based algorithm for distributed mutual exclusion": a node enters once it
//! has the privilege, which moves along the edges of a tree. Each node knows the direction of the
//! privilege, and queues the neighbours and itself in the order of their requests. A node that has
//! the privilege and heads its own queue may enter.
//!
//! Added to the publication, since letters may be lost, repeated and reordered, and sections have
//! numbers. Each row of `specs/Step.antt` says which part of it is published and which is added:
//!
//! - each move of the privilege has a number, its hop, so that a privilege that comes again does
//!   not count;
//! - a privilege is sent again until its arrival is acknowledged, and a request until the privilege
//!   comes;
//! - requests are numbered, so that an old one is not queued again;
//! - ASKED is cleared when the privilege comes, not only when it is used or passed on; this changes
//!   no letter;
//! - a privilege carries the highest section number that its sender knows, so that the node that
//!   enters draws the next one.
//!
//! Proved, for every schedule of these letters: each call equals the step table, and at most one
//! node is inside. The sections of a cluster are numbered 1, 2, 3 and so on.
#![tactic(auto)]

mod exclusion;
mod knowledge;
mod queue;
mod raymond;
mod unacked;

pub use mx_trees::{Tree, TreeFault};
pub use raymond::Raymond;
