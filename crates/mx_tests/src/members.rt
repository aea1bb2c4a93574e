//! A member, and records that no member of its cluster sent.

use crate::given::{entry, node};
use arrayvec::ArrayVec;
use mx_journal::Range;
use mx_letters::{Outbox, RicartMsg};
use mx_member::{DeliverFault, Member, Parcel};
use mx_nodelaws::Exclusion;
use mx_ricart::{Count, Ricart};
use std::alloc::Global;
use std::test::Fail;

fn started(alloc: Global) -> Result<Member<Ricart>, Fail> {
    let shape = Count::of(2).ok_or("count")?;
    let me = node(0);
    if Ricart::nodes(&shape) == 0 {
        return Err("no such node")?;
    }
    Ok(Member::start(alloc, &shape, me, 0, 1000, 1))
}

/// Numbers of records by node 1, with their writes.
type Theirs = &'static [(u64, &'static [(u8, u64)])];

fn records_of(list: Theirs) -> Parcel<RicartMsg> {
    let mut records = ArrayVec::new();
    for (number, writes) in list {
        let mut record = entry(*number, *writes);
        record.node = node(1);
        if !records.is_full() {
            records.push(record);
        }
    }
    Parcel::Records(records)
}

fn want() -> Parcel<RicartMsg> {
    let mut ranges = ArrayVec::new();
    ranges.push(Range { first: 1, last: 9 });
    Parcel::Want(ranges)
}

/// Returns whether delivering a parcel has this answer, nothing is sent, and the member has exactly
/// the record that writes 5.
fn answers(
    member: &mut Member<Ricart>,
    from: u8,
    parcel: Parcel<RicartMsg>,
    answer: Result<(), DeliverFault>,
) -> bool {
    let mut out = Outbox::new();
    let told = member.deliver(node(from % 21), parcel, &mut out);
    told == answer && out.is_empty() && member.journal().len() == 1 && member.value(0) == Some(5)
}

const SENT: [(Theirs, Result<(), DeliverFault>); 3] = [
    (&[(1, &[(0, 5)])], Ok(())),
    (&[(2, &[]), (1, &[(0, 6)])], Err(DeliverFault::Conflict(1))),
    (&[(0, &[])], Err(DeliverFault::Conflict(0))),
];

#[test]
fn forged_records_refused(rt: HostRuntime) -> Result<(), Fail> {
    let mut member = started(rt.alloc())?;
    for (records, result) in &SENT {
        assert!(rt; answers(&mut member, 1, records_of(*records), *result));
    }
    assert!(rt; answers(&mut member, 2, want(), Err(DeliverFault::Stranger)));
    Ok(())
}
