//! Runs of small clusters from the start, proved from the algorithms' step tables. In the run of
//! each of the three algorithms, node 0 is in section 1 while node 1 waits, and then node 1 enters
//! section 2. One more run has events of every kind, and its journals are merged. So clusters with
//! the properties that the promise relies on exist, and do something. Small histories and journals
//! show what the definitions of the promise refuse.
#![tactic(auto)]

mod definitions;
mod journals;
mod runs;

pub use definitions::{histories_refused, journals_refused, maps_join};
pub use journals::journals_merge;
pub use runs::{maekawa_runs, raymond_runs, ricart_runs};
