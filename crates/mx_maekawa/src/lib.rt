//! Maekawa 1985, "A √N algorithm for mutual exclusion in decentralized systems": a node enters once
//! it holds a grant of each of its arbiters. Any two sets of arbiters have a node in common, and an
//! arbiter grants one request at a time. If a request precedes the granted one, the arbiter asks
//! for its grant back, and a node that cannot enter yet gives it back.
//!
//! Added to the publication, since letters may be lost, repeated and reordered, and sections have
//! numbers. Each row of `specs/RequesterStep.antt` and `specs/ArbiterStep.antt` says which part of
//! it is published and which is added:
//!
//! - each letter repeats the stamp that it concerns, and grants are numbered, so that a grant that
//!   was given back does not count again;
//! - the reply to a letter about an ended stamp is a release;
//! - a waiting node sends its request again, and an arbiter its grant, and also INQUIRE; in the
//!   publication INQUIRE need not be sent while one is unanswered;
//! - FAILED also goes to a waiting request that is overtaken;
//! - INQUIRE also goes to a node that asks with a new stamp while the arbiter is locked for an
//!   older one;
//! - releases and grants carry the highest section number known, so that the node that enters draws
//!   the next one.
//!
//! Proved, for every schedule of these letters: each call equals the step table, and at most one
//! node is inside. The sections of a cluster are numbered 1, 2, 3 and so on. Nodes may block one
//! another for good, as in the publication.
#![tactic(auto)]

mod arbiter;
mod exclusion;
mod knowledge;
mod lock;
mod maekawa;
mod requester;
mod wait_list;

pub use maekawa::Maekawa;
