//! The interpreter of lines: a cluster with what has become of its parcels, and what a line does to
//! it.
#![tactic(auto)]

mod expectation;
mod in_flight;
mod line_failure;
mod lines;
mod links;
mod next_event;
mod oldest;
mod recorder;
mod standstill;
mod state;
mod under_way;

pub use expectation::compare_outcome;
pub use in_flight::InFlight;
pub use line_failure::{LineFailure, RefusedLine, message_of, refused_line};
pub use lines::{do_line, repeat};
pub use recorder::{Led, Recorder};
pub use state::{SessionEvent, State};
