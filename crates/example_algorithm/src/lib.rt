//! The smallest algorithm: a cluster of one node, which enters at any time. It is the template for
//! a new one (docs/ARCHITECTURE.md, "How to add an algorithm"). It also shows what the laws refuse:
//! they cannot be proved for two nodes that enter at any time (`no_two`, proofs/Refuted.antt).
#![tactic(auto)]

mod solo;

pub use solo::{One, Solo};
