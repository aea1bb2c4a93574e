//! A cluster of members in one value, for one thread: events, their outcomes, and the trace. The
//! crate names no algorithm, so its theorem holds for every implementation of `Exclusion`. For
//! every list of events, no two nodes are inside together, and the n-th section entered has the
//! number n. Any two journals merge, and a journal without gaps shows the writes of the sections in
//! order of entry.
#![tactic(auto)]

mod cluster;
mod faults;
mod outcome;
mod parcel_log;
mod parcels;
mod parts;

pub use cluster::Cluster;
pub use faults::{RunFault, StepFault};
pub use mx_events::Event;
pub use mx_trace::{Boxed, Cause, Entry, Outcome};
pub use parcels::Parcels;
