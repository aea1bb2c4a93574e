ghost use Rattle.std.specs.Prelude.{◌≡◌};
ghost use Rattle.mx_journal.specs.Drafted.{record_of};

use crate::records::{Record, Write, copy_of_writes};
use arrayvec::ArrayVec;
use mx_stamps::NodeId;

/// A read of a value from a register, with the number of writes of the same section before it.
#[derive(Clone, Copy, Debug, Default, PartialEq, Eq)]
pub struct Read {
    /// The value that was read.
    pub value: u64,
    /// The number of the register.
    pub register: u8,
    /// The number of writes of the same section before the read.
    pub after: u8,
}

/// The reads and writes of a closed section, each in order, with the section's number and the node
/// that was inside.
#[derive(Debug, Default, PartialEq, Eq, Drop)]
pub struct Receipt {
    /// The number of the section, from 1.
    pub number: u64,
    /// The node that was inside.
    pub node: NodeId,
    /// The reads, in order.
    pub reads: ArrayVec<Read, 8>,
    /// The writes, in order.
    pub writes: ArrayVec<Write, 8>,
}

impl Receipt {
    /// Returns the record of the section: the receipt without its reads.
    pub fn to_record(&self) -> Record
        ensures { result ≡ record_of self.now }
    {
        let writes = copy_of_writes(&self.writes);
        Record {
            number: self.number,
            node: self.node,
            writes,
        }
    }

    /// Copies the receipt.
    pub fn copy(&self) -> Receipt
        ensures { result ≡ self.now }
    {
        Receipt {
            number: self.number,
            node: self.node,
            reads: copy_of_reads(&self.reads),
            writes: copy_of_writes(&self.writes),
        }
    }
}

pub(crate) fn copy_of_reads(reads: &ArrayVec<Read, 8>) -> ArrayVec<Read, 8>
    ensures { result ≡ reads.now }
{
    let mut copy = ArrayVec::new();
    for read in reads.as_slice() {
        copy.push(*read);
    }
    copy
}
