use crate::parcel::Parcel;
use mx_stamps::NodeId;

/// A parcel that was sent, with its sender and its addressee.
#[derive(Clone, Copy)]
pub struct SentParcel<'a, M> {
    /// The sender.
    pub from: NodeId,
    /// The addressee.
    pub to: NodeId,
    /// The parcel.
    pub parcel: &'a Parcel<M>,
}
