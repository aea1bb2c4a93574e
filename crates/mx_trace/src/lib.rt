//! Outcomes of events, items of a trace, and the definition of sections. Members and clusters are
//! proved to follow this definition, and the crates that print and judge traces use it too.
#![tactic(auto)]

mod boxed;
mod cause;
mod outcome;

pub use boxed::Boxed;
pub use cause::{CAUSES, Cause};
pub use mx_events::Event;
pub use outcome::{Entry, Outcome};
