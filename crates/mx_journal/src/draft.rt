ghost use Rattle.std.specs.Prelude.{◌≡◌, ◌≤◌, ◌↔◌, [], ◌∷◌, ◌++◌, length, IsErr, IsTrue, OnErr, OnOk};
ghost use Rattle.mx_journal.specs.Drafted.{last_value, receipt_of, with_read, with_write};

use crate::receipts::{Read, Receipt, copy_of_reads};
use crate::records::{Write, copy_of_writes};
use arrayvec::ArrayVec;
use mx_stamps::NodeId;
use std::marker::Model;
use thiserror::Error;

/// The draft has eight reads, or eight writes, already.
#[derive(Clone, Copy, Debug, PartialEq, Eq, Error)]
#[error("the draft is full")]
pub struct Full;

/// The reads and writes of a node since it entered its section, or last restarted in it: up to
/// eight of each, in order.
#[derive(Drop)]
pub struct Draft {
    reads: ArrayVec<Read, 8>,
    writes: ArrayVec<Write, 8>,
}

impl Model for Draft {
    ghost use Rattle.mx_journal.specs.Drafted.{Drafted};

    ghost Value = { Drafted };

    ghost view = { λ d. record { reads = d.reads.items; writes = d.writes.items } };
}

impl Draft {
    /// Creates an empty draft.
    pub fn new() -> Draft
        ensures { result ≡ record { reads = []; writes = [] } }
    {
        Draft {
            reads: ArrayVec::new(),
            writes: ArrayVec::new(),
        }
    }

    /// Returns whether there is neither a read nor a write.
    pub fn is_empty(&self) -> bool
        ensures { IsTrue result ↔ (self.now ≡ record { reads = []; writes = [] }) }
    {
        self.reads.is_empty() && self.writes.is_empty()
    }

    /// Adds a read of `value` from a register, with the number of writes before it.
    ///
    /// # Errors
    ///
    /// Returns `Full` if there are eight reads already.
    pub fn read(&mut self, register: u8, value: u64) -> Result<(), Full>
        ensures full { IsErr result ↔ (length self.old.reads ≡ 8) }
        ensures ok { OnOk result (self.new ≡ with_read register value self.old) }
        ensures err { OnErr result (self.new ≡ self.old) }
    {
        let after = self.writes.len() as u8;
        let read = Read {
            value,
            register,
            after,
        };
        self.reads.try_push(read).map_err(|_| Full)
    }

    /// Adds a write.
    ///
    /// # Errors
    ///
    /// Returns `Full` if there are eight writes already.
    pub fn write(&mut self, register: u8, value: u64) -> Result<(), Full>
        ensures full { IsErr result ↔ (length self.old.writes ≡ 8) }
        ensures ok { OnOk result (self.new ≡ with_write register value self.old) }
        ensures err { OnErr result (self.new ≡ self.old) }
    {
        let write = Write { register, value };
        self.writes.try_push(write).map_err(|_| Full)
    }

    /// Returns the value of the draft's last write to a register, if there is one.
    pub fn last(&self, register: u8) -> Option<u64>
        ensures { result ≡ last_value register self.now.writes }
    {
        last_of(self.writes.as_slice(), register)
    }

    /// Returns the draft's reads and writes as the receipt of section `number`, which `node` is
    /// inside. The draft is unchanged.
    pub fn close(&self, number: u64, node: NodeId) -> Receipt
        ensures value { result ≡ receipt_of number node self.now }
        ensures bound { (length self.now.reads ≤ 8) × (length self.now.writes ≤ 8) }
    {
        Receipt {
            number,
            node,
            reads: copy_of_reads(&self.reads),
            writes: copy_of_writes(&self.writes),
        }
    }

    /// Removes all reads and writes.
    pub fn clear(&mut self)
        ensures { self.new ≡ record { reads = []; writes = [] } }
    {
        self.reads.clear();
        self.writes.clear();
    }
}

fn last_of(writes: &[Write], register: u8) -> Option<u64>
    ensures { result ≡ last_value register writes.now }
{
    let mut last = None;
    for write in writes {
        if write.register == register {
            last = Some(write.value);
        }
    }
    last
}
