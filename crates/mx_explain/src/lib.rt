//! `mx explain`: where a plan and its events or script are at fault, and what was expected there.
#![tactic(auto)]

mod bad_token;
mod cached_source;
mod event_fault;
mod explained_run;
mod explanation;
mod files;
mod json_report;
mod location;
mod notes;
mod plan_fault;
mod report;
mod script_lines;
mod shape_fault;
mod spot;

pub use explanation::explain;
