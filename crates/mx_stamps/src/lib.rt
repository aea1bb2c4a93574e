//! Nodes, the stamps of their requests, and the clock that draws them (Lamport 1978).
#![tactic(auto)]

mod clock;
mod limits;
mod links;
mod node_id;
mod node_ids;
mod stamp;

pub use clock::Clock;
pub use limits::{MAX_EVENTS, MAX_NODES, MAX_REGISTERS, MAX_SECTIONS};
pub use links::{LINKS, link};
pub use node_id::NodeId;
pub use node_ids::NodeIds;
pub use stamp::Stamp;
