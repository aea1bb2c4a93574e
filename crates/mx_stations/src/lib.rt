//! Stations: a station is one node of a cluster, as a value that a thread may own. The stations of
//! a cluster share a table of atomic words. An act of a node (it asks, enters, reads and so on) is
//! one atomic step on one word.
#![tactic(auto)]

mod acts;
mod answers;
mod collection;
mod creation;
mod field;
mod field_view;
mod gate;
mod moves;
mod next;
mod node_set;
mod patience;
mod queue;
mod rule;
mod settlement;
mod slots;
mod station;
mod together;
mod turn;
mod worker;

pub use answers::{PutOut, TakeFault, Taken, TurnReport};
pub use collection::{GatherFault, Gathered, Ungathered, gather};
pub use field::{Field, SeatOf};
pub use field_view::Watch;
pub use gate::{Gate, News, Pause, Rest};
pub use next::{Becomes, Gives, Next, OfCount, OfSlot, TriesToClaim, TriesToTake};
pub use patience::Patience;
pub use queue::WAITING_ROOM;
pub use rule::{HandOn, Knowledge, Law, Setup, Slot, TakeIn};
pub use settlement::{settle_if_due, work_settling};
pub use slots::SLOTS;
pub use station::Station;
pub use together::Sees;
pub use worker::{Script, Worked, work};
