//! The typed letters (messages) of each algorithm, the outbox that a call of a node fills, and the
//! fates of parcels.
#![tactic(auto)]

mod fates;
mod maekawa;
mod outbox;
mod raymond;
mod ricart;

pub use fates::{Fair, Fate, Fates};
pub use maekawa::MaekawaMsg;
pub use outbox::{OUTBOX_ROOM, Outbox};
pub use raymond::RaymondMsg;
pub use ricart::RicartMsg;
