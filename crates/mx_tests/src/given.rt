//! Nodes, records and journals that the tests use.

ghost use Rattle.std.specs.Prelude.{◌≡◌, ◌<◌};

use arrayvec::ArrayVec;
use mx_journal::{Journal, Record, Write};
use mx_stamps::NodeId;
use std::alloc::{AllocError, Global};
use std::test::Fail;

pub(crate) fn node(index: u8) -> NodeId
    requires { index < 21 }
    ensures { result ≡ index }
{
    NodeId::of(index).unwrap()
}

/// Returns a record by node 0 of at most eight writes, each a register and a value.
pub(crate) fn entry(number: u64, writes: &[(u8, u64)]) -> Record {
    let mut kept = ArrayVec::new();
    for (register, value) in writes {
        let write = Write {
            register: *register,
            value: *value,
        };
        if !kept.is_full() {
            kept.push(write);
        }
    }
    Record {
        number,
        node: node(0),
        writes: kept,
    }
}

/// Returns records of these numbers, each with one write of a value to register 0.
pub(crate) fn entries(alloc: Global, pairs: &[(u64, u64)]) -> Result<Vec<Record>, AllocError> {
    let mut list = Vec::new(alloc);
    for (number, value) in pairs {
        list.push(entry(*number, &[(0, *value)]))?;
    }
    Ok(list)
}

/// Returns a journal of these numbers; the record of number n writes n.
pub(crate) fn journal_of(alloc: Global, numbers: &[u64]) -> Result<Journal, Fail> {
    let mut journal = Journal::new(alloc);
    for number in numbers {
        journal.put(entry(*number, &[(0, *number)]))?;
    }
    Ok(journal)
}

pub(crate) fn lists(alloc: Global, sets: &[&[u8]]) -> Result<Vec<Vec<u8>>, AllocError> {
    let mut lists = Vec::new(alloc);
    for set in sets {
        lists.push(set.to_vec(alloc)?)?;
    }
    Ok(lists)
}
