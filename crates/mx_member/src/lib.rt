//! A member of a cluster: its core (the node's state in an exclusion algorithm), the draft of the
//! section that the node is inside, and the journal of the sections that it knows. The specs define
//! whole worlds (all members, parcels and sections), and prove that an act of a member preserves
//! what holds in every world. They name no algorithm, and no cluster.
#![tactic(auto)]

mod acts;
mod faults;
mod gossip;
mod guards;
mod member;
mod parcel;
mod sections;
mod sent_parcel;

pub use acts::{Act, Answer, perform};
pub use faults::{CloseFault, DeliverFault, ReadFault, WriteFault};
pub use member::Member;
pub use parcel::Parcel;
pub use sent_parcel::SentParcel;
