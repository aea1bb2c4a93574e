//! `mx play`: a cluster that is led line by line.
#![tactic(auto)]

mod command;
mod commands;
mod cuts;
mod event_texts;
mod help;
mod input;
mod input_fault;
mod line_sources;
mod printed_events;
mod run_texts;
mod saved;
mod session;
mod session_by_plan;
mod session_files;
mod session_run;
mod session_script;
mod shown_nodes;
mod shown_parcels;
mod shown_standstill;
mod typed_lines;
mod undo;
mod views;

pub use command::play;
pub use line_sources::{LineRead, Lines};
pub use typed_lines::Typed;
