//! Random runs from a seed: `mx explore`, and `mx draw`, which prints the events of a run as a
//! file. The events of a schedule are drawn by the seed alone. Those of a walk suit the state of
//! the cluster, so that parcels arrive and nodes enter and leave.
#![tactic(auto)]

mod draw_command;
mod explore_command;
mod own_actions;
mod random_run;
mod stepper;
mod under_way;

pub use draw_command::{Draw, replays_as_explored};
pub use explore_command::Explore;
pub use random_run::run;
