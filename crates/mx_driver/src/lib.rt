//! The commands `check` and `replay`, and the driver of events for all commands.
#![tactic(auto)]

mod check_plan;
mod closing;
mod driver;
mod plan_cluster;
mod replays;
mod sink;
mod standstill;
mod view;
mod view_sink;

pub use check_plan::Check;
pub use closing::node_at;
pub use driver::{NullOutput, drive, observe};
pub use plan_cluster::start;
pub use replays::{Replay, node_in};
pub use sink::{Running, Sink, newest};
pub use standstill::{is_ready, stuck_in, stuck_nodes};
pub use view::{View, ends_as_replay, shows_run};
