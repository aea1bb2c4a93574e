//! Calls of one value that no command and no other test makes.

ghost use Rattle.std.specs.Prelude.{◌<◌};

use crate::given::{journal_of, node};
use mx_letters::Outbox;
use mx_stamps::Stamp;
use std::cmp::Ordering;
use std::test::Fail;

fn stamp(number: u64, index: u8) -> Stamp
    requires { index < 21 }
{
    Stamp {
        number,
        node: node(index),
    }
}

#[test]
fn an_outbox_tells_its_room(rt: HostRuntime) {
    let mut out = Outbox::new();
    assert_eq!(rt; out.room(), 32);
    out.add(node(0), 7u8);
    assert_eq!(rt; out.room(), 31);
    out.clear();
    assert_eq!(rt; out.room(), 32);
}

#[test]
fn stamps_compare_by_number_and_then_by_node(rt: HostRuntime) {
    assert!(rt; stamp(4, 2).compare(&stamp(5, 0)) == Ordering::Less);
    assert!(rt; stamp(4, 2).compare(&stamp(4, 1)) == Ordering::Greater);
    assert!(rt; stamp(4, 2).compare(&stamp(4, 2)) == Ordering::Equal);
}

#[test]
fn a_journal_covers_its_numbers(rt: HostRuntime) -> Result<(), Fail> {
    let journal = journal_of(rt.alloc(), &[1, 3])?;
    assert!(rt; journal.covers(1) && !journal.covers(2) && journal.covers(3));
    Ok(())
}
