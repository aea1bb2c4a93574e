//! Why a member refuses a call. The faults of each call are in the order in which they are checked.
//! A refused call changes nothing.

use mx_journal::{BaseFault, Full, PutFault};
use thiserror::Error;

/// Why a call of `read` is refused.
#[derive(Clone, Copy, Debug, PartialEq, Eq, Error)]
pub enum ReadFault {
    /// The node is not inside.
    #[error("not inside")]
    NotInside,
    /// There is no such register.
    #[error("no register")]
    NoRegister,
    /// The journal lacks the section of this number, which comes before the section that reads. It
    /// is the first one missing.
    #[error("gap {0}")]
    Gap(u64),
    /// The draft has eight reads already.
    #[error("full")]
    Full,
    /// The journal's base covers the sections up to this number, and the section that reads is
    /// among them. Only a forged base leads to this.
    #[error("settled {0}")]
    Settled(u64),
}

impl From<Full> for ReadFault {
    ghost use Rattle.std.specs.Prelude.{◌≡◌};
    ghost use Rattle.mx_member.specs.declared.faults.ReadFault.TheVariants.{Full};

    ghost from_gives = { λ _ fault. fault ≡ Full };

    fn from(_full: Full) -> ReadFault {
        ReadFault::Full
    }
}

/// Why a call of `write` is refused.
#[derive(Clone, Copy, Debug, PartialEq, Eq, Error)]
pub enum WriteFault {
    /// The node is not inside.
    #[error("not inside")]
    NotInside,
    /// There is no such register.
    #[error("no register")]
    NoRegister,
    /// The draft has eight writes already.
    #[error("full")]
    Full,
}

impl From<Full> for WriteFault {
    ghost use Rattle.std.specs.Prelude.{◌≡◌};
    ghost use Rattle.mx_member.specs.declared.faults.WriteFault.TheVariants.{Full};

    ghost from_gives = { λ _ fault. fault ≡ Full };

    fn from(_full: Full) -> WriteFault {
        WriteFault::Full
    }
}

/// Why a call of `leave` is refused.
#[derive(Clone, Copy, Debug, PartialEq, Eq, Error)]
pub enum CloseFault {
    /// The node is not inside.
    #[error("not inside")]
    NotInside,
    /// Memory ran out. The node is still inside, with its draft.
    #[error("out of memory")]
    Memory,
}

/// Why a call of `deliver` is refused.
#[derive(Clone, Copy, Debug, PartialEq, Eq, Error)]
pub enum DeliverFault {
    /// The sender is no node of the cluster.
    #[error("stranger")]
    Stranger,
    /// Two records of this number differ, and it is the least such number. Or this number is 0, and
    /// a record has it. Or the member's base and the delivered one both cover the sections up to
    /// this number, and differ. No parcel of a member of the cluster leads to this.
    #[error("conflict {0}")]
    Conflict(u64),
    /// Memory ran out.
    #[error("out of memory")]
    Memory,
}

impl From<PutFault> for DeliverFault {
    ghost use Rattle.std.specs.Prelude.{◌≡◌};
    ghost use Rattle.mx_member.specs.Faults.{fault_of};

    ghost from_gives = { λ put fault. fault ≡ fault_of put };

    fn from(put: PutFault) -> DeliverFault {
        match put {
            PutFault::ZeroNumber => DeliverFault::Conflict(0),
            PutFault::Conflict(number) => DeliverFault::Conflict(number),
            PutFault::Memory => DeliverFault::Memory,
        }
    }
}

impl From<BaseFault> for DeliverFault {
    ghost use Rattle.std.specs.Prelude.{◌≡◌};
    ghost use Rattle.mx_member.specs.Faults.{base_fault_of};

    ghost from_gives = { λ base fault. fault ≡ base_fault_of base };

    fn from(base: BaseFault) -> DeliverFault {
        match base {
            BaseFault::Conflict(number) => DeliverFault::Conflict(number),
        }
    }
}
