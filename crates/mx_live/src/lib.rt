//! `mx live`: one thread for each node of a plan. Each node adds 1 to the first register in its
//! sections; then the journals are gathered.
#![tactic(auto)]

mod live_command;
mod live_error;
mod live_text;
mod node_runs;
mod progress;
mod threads;

pub use live_command::{live, run_live};
pub use live_error::{LiveError, report_error};
pub use live_text::add_journal;
pub use node_runs::{gather_left, run_stations, stations_in};
pub use threads::LeftStation;
