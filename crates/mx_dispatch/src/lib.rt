//! The words of a command line, and the command that they ask for: all of `mx`.
#![tactic(auto)]

mod dispatch;

pub use dispatch::{command, run};
