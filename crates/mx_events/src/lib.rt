//! The events of a cluster, shared by the crates that list them and those that apply them.
#![tactic(auto)]

mod argument;
mod event;
mod kind;

pub use argument::{Argument, ArgumentKind};
pub use event::Event;
pub use kind::{EVENT_KINDS, EventKind};
