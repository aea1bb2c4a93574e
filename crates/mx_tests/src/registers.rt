//! Views of registers, of records in different orders.

use crate::given::entry;
use mx_journal::Record;
use mx_registers::{View, view_of};
use std::alloc::{AllocError, Global};
use std::test::Fail;

/// The writes of sections 1 to 5.
const WRITES: [&[(u8, u64)]; 5] = [
    &[(0, 5)],
    &[(0, 7), (1, 1)],
    &[],
    &[(0, 2), (0, 3)],
    &[(1, 9)],
];

fn section(number: u8) -> Record {
    match WRITES.get(number.wrapping_sub(1) as usize) {
        Some(writes) => entry(u64::from(number), *writes),
        None => entry(0, &[]),
    }
}

/// The value of each register after all of those sections, and the section that wrote it. There are
/// three.
const LEFT: [(Option<u64>, Option<u64>); 4] = [
    (Some(3), Some(4)),
    (Some(9), Some(5)),
    (Some(0), None),
    (None, None),
];

fn shows_all(view: &View) -> bool {
    for (register, (value, by)) in (0..).zip(&LEFT) {
        if view.value(register) != *value || view.written_by(register) != *by {
            return false;
        }
    }
    true
}

fn sections(alloc: Global, numbers: &[u8]) -> Result<Vec<Record>, AllocError> {
    let mut list = Vec::new(alloc);
    for number in numbers {
        list.push(section(*number))?;
    }
    Ok(list)
}

fn taken(list: &[Record]) -> View {
    let mut view = View::new(3);
    for record in list {
        view.take(record);
    }
    view
}

#[test]
fn views_ignore_order(rt: HostRuntime) -> Result<(), Fail> {
    let orders: [&[u8]; 2] = [&[1, 2, 3, 4, 5], &[5, 4, 4, 2, 1, 3]];
    for numbers in &orders {
        let list = sections(rt.alloc(), *numbers)?;
        assert!(rt; shows_all(&taken(list.as_slice())));
        assert!(rt; shows_all(&view_of(list.as_slice(), 3)));
    }
    Ok(())
}
