//! Why a node refuses a call. A refused call changes nothing and sends nothing.

use thiserror::Error;

/// Why a call of `ask` is refused.
#[derive(Clone, Copy, Debug, PartialEq, Eq, Error)]
pub enum AskFault {
    /// The node waits already, or is inside.
    #[error("not idle")]
    NotIdle,
    /// There is no next stamp: the counter of the node's stamps is at the greatest `u64` value. The
    /// counter is the highest stamp number that the node has drawn or seen, or, if stamps number
    /// only a node's own requests, how many of these were accepted.
    #[error("stamps spent")]
    StampsSpent,
}

/// Why a call of `enter` is refused.
#[derive(Clone, Copy, Debug, PartialEq, Eq, Error)]
pub enum EnterFault {
    /// The node has not asked, or is inside already.
    #[error("not waiting")]
    NotWaiting,
    /// A permission is missing.
    #[error("not granted")]
    NotGranted,
    /// The highest section number that the node knows is the limit. The node still waits.
    #[error("numbers spent")]
    NumbersSpent,
}

/// Why a call of `cancel` is refused.
#[derive(Clone, Copy, Debug, PartialEq, Eq, Error)]
pub enum CancelFault {
    /// The node has not asked, or is inside already.
    #[error("not waiting")]
    NotWaiting,
}

/// Why a call of `leave` is refused.
#[derive(Clone, Copy, Debug, PartialEq, Eq, Error)]
pub enum LeaveFault {
    /// The node is idle, or still waits.
    #[error("not inside")]
    NotInside,
}
