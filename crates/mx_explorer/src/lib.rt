//! Judges traces, prints verdicts, and draws at random, from a seed, schedules of events and the
//! fates of parcels (the weather).
#![tactic(auto)]

mod judgement;
mod ledger;
mod places;
mod schedules;
mod verdict;
mod verdict_lines;
mod weather;

pub use judgement::judge;
pub use ledger::{LastWrite, Ledger};
pub use places::place;
pub use schedules::{draw, draw_below, draw_node, schedule};
pub use verdict::{Clause, Verdict};
pub use verdict_lines::{VerdictLine, add_verdict, verdict_status};
pub use weather::Weather;
