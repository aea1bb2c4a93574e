//! Plans and events, read from JSON. A plan describes a cluster: the names of its nodes and
//! registers, the greatest number of a section, the origin from which other numbers count on, and
//! the shape for one of the three algorithms. Events say what happens in the cluster.
#![tactic(auto)]

mod algorithm;
mod event_reader;
mod faults;
mod name_reader;
mod names;
mod needs;
mod place;
mod plan;
mod plan_reader;
mod quorum_reader;
mod shape;
mod tree_reader;
mod values;

pub use event_reader::read_events;
pub use faults::{PlanFault, ShapeFault};
pub use names::{Names, is_name};
pub use needs::Needs;
pub use place::Place;
pub use plan::Plan;
pub use plan_reader::{read_plan, read_plan_for};
pub use shape::Shape;
