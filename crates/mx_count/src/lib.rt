//! `mx count`, and the counts of any cluster: how many letters of each kind the nodes sent, how
//! often and why they refused, and how long they waited.
#![tactic(auto)]

mod count_command;
mod counted_run;
mod kinds;
mod lines;
mod measures;
mod node_rows;
mod objects;
mod parcel_rows;
mod refusal_rows;
mod rows;
mod spread;
mod waits;

pub use count_command::{Count, print_counts};
pub use counted_run::{EventSource, Options};
