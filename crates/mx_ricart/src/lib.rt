//! Ricart and Agrawala 1981, "An optimal algorithm for mutual exclusion in computer networks": a
//! node enters once every other node has replied to its stamped request. A node that has an earlier
//! request defers its reply until it has left.
//!
//! Added to the publication, since letters may be lost, repeated and reordered, and sections have
//! numbers. Each row of `specs/Step.antt` says which part of it is published and which is added:
//!
//! - a reply repeats the stamp of the request, so that a late reply to an older request does not
//!   count;
//! - a node's own request raises its highest number, so that no two requests of a node have the
//!   same stamp; in the publication only a received request does;
//! - a waiting node sends its request again, and a repeated request gets a reply again;
//! - a reply carries the highest section number that its sender knows, so that the node that enters
//!   draws the next one.
//!
//! Proved, for every schedule of these letters: each call equals the step table, and at most one
//! node is inside. The sections of a cluster are numbered 1, 2, 3 and so on.
#![tactic(auto)]

mod count;
mod exclusion;
mod knowledge;
mod ricart;

pub use count::Count;
pub use ricart::Ricart;
