//! What a node knows by its algorithm, as a list of facts that texts and JSON can show.
#![tactic(auto)]

mod fact;
mod knowledge;
mod tables;

pub use fact::{Fact, Facts, Item};
pub use knowledge::Knowledge;
pub use tables::{nodes_in, numbers_in, stamps_in};
