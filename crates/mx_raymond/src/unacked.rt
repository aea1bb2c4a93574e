use mx_stamps::NodeId;

/// The privilege that a node sent last, while its arrival is not acknowledged.
#[derive(Clone, Copy, Debug, PartialEq, Eq)]
pub struct Unacked {
    /// The neighbour that it was sent to.
    pub to: NodeId,
    /// The number of this move of the privilege.
    pub hop: u64,
    /// The highest section number that the sender knew when it sent it.
    pub last: u64,
}
