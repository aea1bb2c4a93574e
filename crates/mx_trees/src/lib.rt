//! Rooted trees: the shape of Raymond's algorithm (Raymond 1989).
#![tactic(auto)]

mod edges;
mod fault;
mod growth;
mod tree;

pub use fault::TreeFault;
pub use tree::Tree;
