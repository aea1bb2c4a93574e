ghost use Rattle.std.specs.Prelude.{◌≡◌, ◌↔◌, IsTrue};

use arrayvec::ArrayVec;
use mx_stamps::NodeId;

/// A write of a value to a register, by the register's number from 0 to 31.
#[derive(Clone, Copy, Debug, Default, PartialEq, Eq)]
pub struct Write {
    /// The number of the register, from 0 to 31.
    pub register: u8,
    /// The value that was written.
    pub value: u64,
}

/// The writes of a closed section, in order, with the section's number from 1 on and the node that
/// was inside.
#[derive(Debug, Default, PartialEq, Eq, Drop)]
pub struct Record {
    /// The number of the section, from 1.
    pub number: u64,
    /// The node that was inside.
    pub node: NodeId,
    /// The writes, in order.
    pub writes: ArrayVec<Write, 8>,
}

impl Record {
    /// Copies the record.
    pub fn copy(&self) -> Record
        ensures { result ≡ self.now }
    {
        Record {
            number: self.number,
            node: self.node,
            writes: copy_of_writes(&self.writes),
        }
    }

    /// Returns whether both are the same record.
    pub fn is(&self, other: &Record) -> bool
        ensures { IsTrue result ↔ (self.now ≡ other.now) }
    {
        self.number == other.number
            && self.node.get() == other.node.get()
            && are_same(self.writes.as_slice(), other.writes.as_slice())
    }
}

pub(crate) fn copy_of_writes(writes: &ArrayVec<Write, 8>) -> ArrayVec<Write, 8>
    ensures { result ≡ writes.now }
{
    let mut copy = ArrayVec::new();
    for write in writes.as_slice() {
        copy.push(*write);
    }
    copy
}

fn are_same(writes: &[Write], others: &[Write]) -> bool
    ensures { IsTrue result ↔ (writes.now ≡ others.now) }
{
    writes == others
}
