//! `mx replay` of a script: what its lines do, one thing after another.
#![tactic(auto)]

mod happenings;
mod objects;
mod replay_script;
mod shown_script;

pub use replay_script::ReplayScript;
