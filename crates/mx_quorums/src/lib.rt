//! Families of arbiter sets: any two sets meet (Maekawa 1985).
#![tactic(auto)]

mod check;
mod fault;
mod lines;
mod lists;
mod quorums;
mod shifts;

pub use fault::QuorumFault;
pub use quorums::Quorums;
