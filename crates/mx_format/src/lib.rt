//! The printed texts of plans, events, parcels and nodes. A contract gives the bytes of each.
#![tactic(auto)]

mod event_arrays;
mod event_json;
mod events;
mod facts;
mod files;
pub mod json;
mod letters;
mod lists;
mod node_json;
mod nodes;
mod parcels;
mod parts;
mod peers;
mod plan_facts;
mod plans;
mod stuck;
mod words;

pub use event_arrays::add_event_array;
pub use event_json::add_event_json;
pub use events::{ArgumentText, EventLine, EventText, OutcomeText, name_of, register_name_of};
pub use facts::add_facts_line;
pub use files::{add_file, file_of};
pub use letters::Letter;
pub use node_json::add_node_json;
pub use nodes::add_member_line;
pub use parcels::{add_parcel, add_parcel_json, add_parcel_line};
pub use parts::{LetterParts, Numbers, Style, Subject};
pub use peers::add_asks;
pub use plans::add_plan;
pub use stuck::{Waiter, add_stuck};
