//! Jobs: what the nodes of a cluster do in their sections, each node in a thread.
#![tactic(auto)]

mod adaptive_spin;
mod bells;
mod calls;
mod faults;
mod host;
mod job;
mod registers;
mod runs;
mod search;
mod settings;
mod start_gate;
mod stillness;
mod thread_group;
mod threads;
mod tries;
mod worker;

pub use calls::Calls;
pub use faults::{RunFault, Unfinished};
pub use host::Host;
pub use job::Job;
pub use registers::contents;
pub use runs::{Finished, Ran, fair_links, run, run_stations};
pub use settings::{Settings, stations};
pub use start_gate::StartGate;
pub use thread_group::{StartFault, ThreadGroup, Work};
pub use tries::JobFault;
pub use worker::{Ended, Gate, RunOptions, work};
